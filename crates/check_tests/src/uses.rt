// What is asked of names that are used. The expected values are worked by hand from C99 5.1.2.2.1, 6.2.1, 6.7.1 and 6.9.
ghost use Rattle.c_symbols.specs.Symbols.{AreSymbols};

use crate::names::{nodes_with, tree_of};
use c_names::Entity;
use c_nodes::Nodes;
use c_symbols::{Symbols, symbols_of};
use c_syntax::SynKind;
use c_uses::{denoted_at, has_main, place_fault, used_name};
use std::alloc::{AllocError, Global};

fn fault_at(nodes: &Nodes, symbols: &Symbols, number: usize) -> Option<u8>
    requires { AreSymbols nodes.now symbols.now }
{
    if number < nodes.len() {
        place_fault(nodes, symbols, number)
    } else {
        None
    }
}

fn faults_are(nodes: &Nodes, symbols: &Symbols, places: &[usize], wanted: &[Option<u8>]) -> bool
    requires { AreSymbols nodes.now symbols.now }
{
    for (index, place) in places.iter().enumerate() {
        let Some(rule) = wanted.get(index) else {
            return false;
        };
        if fault_at(nodes, symbols, *place) != *rule {
            return false;
        }
    }
    places.len() == wanted.len()
}

// The uses of a name break these rules, or none.
fn use_faults_are(alloc: Global, text: &str, name: &str, wanted: &[Option<u8>]) -> bool {
    let Some(syntax) = tree_of(alloc, text) else {
        return false;
    };
    let Ok(nodes) = Nodes::of(alloc, &syntax) else {
        return false;
    };
    match (
        symbols_of(alloc, &nodes),
        nodes_with(alloc, &syntax, name, false),
    ) {
        (Ok(symbols), Ok(uses)) => faults_are(&nodes, &symbols, &uses, wanted),
        _ => false,
    }
}

#[test]
fn uses_without_a_definition(rt: HostRuntime) {
    let alloc = rt.alloc();
    let table = [
        ("int f(void);void g(void){f();}", "f", Some(17)),
        (
            "int f(void);void g(void){f();}int f(void){return 1;}",
            "f",
            None,
        ),
        (
            "int getchar(void);void g(void){getchar();}",
            "getchar",
            None,
        ),
        (
            "int putchar(int);void g(void){putchar(1);}",
            "putchar",
            None,
        ),
        ("extern int x;void g(void){x;}", "x", Some(17)),
        ("extern int x;void g(void){x;}int x;", "x", None),
        ("extern int x=1;void g(void){x;}", "x", None),
        ("void g(void){static int x;x;}", "x", None),
        ("void g(int x){x;}", "x", None),
        ("void g(void){x;}", "x", None),
        ("enum{A};void g(void){A;}", "A", None),
    ];
    for (text, name, rule) in &table {
        assert!(rt; use_faults_are(alloc, text, name, &[*rule]));
    }
}

// The specs of declarations and functions, in order.
fn specs_in(alloc: Global, nodes: &Nodes) -> Result<Vec<usize>, AllocError> {
    let mut found = Vec::new(alloc);
    for number in 0..nodes.len() {
        if is_owner(nodes.kind_at(number)) {
            found.push(nodes.kid(number, 0))?;
        }
    }
    Ok(found)
}

fn is_owner(kind: SynKind) -> bool {
    matches!(kind, SynKind::Declaration | SynKind::Function)
}

fn specs_faults_are(alloc: Global, text: &str, wanted: &[Option<u8>]) -> bool {
    let Some(syntax) = tree_of(alloc, text) else {
        return false;
    };
    let Ok(nodes) = Nodes::of(alloc, &syntax) else {
        return false;
    };
    match (symbols_of(alloc, &nodes), specs_in(alloc, &nodes)) {
        (Ok(symbols), Ok(places)) => faults_are(&nodes, &symbols, &places, wanted),
        _ => false,
    }
}

#[test]
fn functions_in_blocks(rt: HostRuntime) {
    let alloc = rt.alloc();
    let block = "int f(void);void g(void){int h(void);int x;int (*p)(void);}";
    assert!(rt; specs_faults_are(alloc, block, &[None, Some(2), None, None, None]));
    let inner = "void g(void){{int x,h(void);}for(int k(int);;);}";
    assert!(rt; specs_faults_are(alloc, inner, &[Some(2), Some(2), None]));
    let typed = "typedef int F(int);F f;void g(void){F h;}";
    assert!(rt; specs_faults_are(alloc, typed, &[None, None, Some(2), None]));
}

fn defines_main(alloc: Global, text: &str) -> Option<bool> {
    let Some(syntax) = tree_of(alloc, text) else {
        return None;
    };
    match Nodes::of(alloc, &syntax) {
        Ok(nodes) => Some(has_main(&nodes)),
        Err(_) => None,
    }
}

#[test]
fn units_with_a_main(rt: HostRuntime) {
    let alloc = rt.alloc();
    let table = [
        ("int main(void){return 0;}", true),
        ("int (main)(void){return 0;}", true),
        (
            "int f(void){return 0;}int main(void){return 0;}int x;",
            true,
        ),
        ("int main(void);", false),
        ("int main;", false),
        ("int mai(void){return 0;}int mains(void){return 0;}", false),
        ("void g(void){int main;main();}", false),
    ];
    for (text, is_there) in &table {
        assert!(rt; defines_main(alloc, text) == Some(*is_there));
    }
}

// What is used at a node is the declaration of this index, and such a name.
fn is_use_of(
    nodes: &Nodes,
    symbols: &Symbols,
    number: usize,
    declared: &[usize],
    wanted: Option<(usize, Entity)>,
) -> bool
    requires { AreSymbols nodes.now symbols.now }
{
    if number >= nodes.len() {
        return false;
    }
    let given = denoted_at(nodes, symbols, number);
    match (used_name(nodes, symbols, number), wanted) {
        (None, None) => given.is_none(),
        (Some(used), Some((index, entity))) => {
            given == Some(used.node)
                && used.name.entity == entity
                && matches!(declared.get(index), Some(node) if *node == used.node)
        }
        _ => false,
    }
}

fn all_are_uses(
    nodes: &Nodes,
    symbols: &Symbols,
    uses: &[usize],
    declared: &[usize],
    wanted: &[Option<(usize, Entity)>],
) -> bool
    requires { AreSymbols nodes.now symbols.now }
{
    for (index, number) in uses.iter().enumerate() {
        let Some(name) = wanted.get(index) else {
            return false;
        };
        if !is_use_of(nodes, symbols, *number, declared, *name) {
            return false;
        }
    }
    uses.len() == wanted.len()
}

fn uses_denote(alloc: Global, text: &str, name: &str, wanted: &[Option<(usize, Entity)>]) -> bool {
    let Some(syntax) = tree_of(alloc, text) else {
        return false;
    };
    let Ok(nodes) = Nodes::of(alloc, &syntax) else {
        return false;
    };
    match (
        symbols_of(alloc, &nodes),
        nodes_with(alloc, &syntax, name, false),
        nodes_with(alloc, &syntax, name, true),
    ) {
        (Ok(symbols), Ok(uses), Ok(declared)) => {
            all_are_uses(&nodes, &symbols, &uses, &declared, wanted)
        }
        _ => false,
    }
}

#[test]
fn what_uses_denote(rt: HostRuntime) {
    let alloc = rt.alloc();
    let blocks = "int x;int f(void){x;{int x;x;}return x;}";
    let outer = Some((0, Entity::Static));
    assert!(rt;
        uses_denote(
            alloc,
            blocks,
            "x",
            &[outer, Some((1, Entity::Automatic)), outer]
        )
    );
    let parameters = "int f(int a,int b){return b;}";
    assert!(rt; uses_denote(alloc, parameters, "b", &[Some((0, Entity::Parameter(1)))]));
    let types = "typedef int T;T x;";
    assert!(rt; uses_denote(alloc, types, "T", &[Some((0, Entity::Typedef))]));
    let enums = "enum{A};int f(void){return A;}";
    assert!(rt; uses_denote(alloc, enums, "A", &[Some((0, Entity::Enumerator))]));
    let calls = "int f(void){return f();}";
    assert!(rt; uses_denote(alloc, calls, "f", &[Some((0, Entity::Function))]));
    assert!(rt; uses_denote(alloc, "void f(void){y;}", "y", &[None]));
}
