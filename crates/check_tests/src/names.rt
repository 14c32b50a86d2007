// What the names of units denote and declare. The expected values are worked by hand from C99 6.2.1 to 6.2.4.
ghost use Rattle.std.specs.Prelude.{◌≡◌, IfOk, IfSome};
ghost use Rattle.c_names.specs.Denoted.{IsOfTokens};
ghost use Rattle.c_names.specs.Names.{AreNames};
ghost use Rattle.c_names.specs.Earlier.{AreEarlier};

use c_lexer::lex;
use c_names::{
    DeclaredName, Earlier, Entity, ScopedNodes, declared_names, denoted, earlier_declarations,
    function_numbers,
};
use c_nodes::Nodes;
use c_parser::parse;
use c_syntax::{SynKind, Syntax};
use std::alloc::{AllocError, Global};

pub(crate) fn tree_of(alloc: Global, text: &str) -> Option<Syntax>
    ensures { IfSome result (λ syntax. IsOfTokens syntax) }
{
    let Ok(tokens) = lex(alloc, text.as_bytes()) else {
        return None;
    };
    match parse(alloc, &tokens) {
        Ok(syntax) => Some(syntax),
        Err(_) => None,
    }
}

fn is_declaration(kind: SynKind) -> bool {
    matches!(kind, SynKind::Ident | SynKind::Enumer)
}

fn is_use(kind: SynKind) -> bool {
    matches!(kind, SynKind::Var | SynKind::Word)
}

/// The nodes that declare a name, or those that use it, in order.
pub(crate) fn nodes_with(
    alloc: Global,
    syntax: &Syntax,
    name: &str,
    is_declared: bool,
) -> Result<Vec<usize>, AllocError> {
    let mut found = Vec::new(alloc);
    for (number, node) in syntax.nodes().iter().enumerate() {
        let fits = if is_declared {
            is_declaration(node.kind)
        } else {
            is_use(node.kind)
        };
        if fits && node.text.as_slice() == name {
            found.push(number)?;
        }
    }
    Ok(found)
}

// What is given is the declaration of this index.
fn is_declared_by(given: Option<usize>, declared: &[usize], wanted: Option<usize>) -> bool {
    match (given, wanted) {
        (None, None) => true,
        (Some(node), Some(index)) => matches!(declared.get(index), Some(other) if *other == node),
        _ => false,
    }
}

fn all_are(
    found: &[Option<usize>],
    uses: &[usize],
    declared: &[usize],
    wanted: &[Option<usize>],
) -> bool {
    for (index, number) in uses.iter().enumerate() {
        let (Some(given), Some(declaration)) = (found.get(*number), wanted.get(index)) else {
            return false;
        };
        if !is_declared_by(*given, declared, *declaration) {
            return false;
        }
    }
    uses.len() == wanted.len()
}

// The uses of a name denote these of its declarations, each by its index in the text.
fn denotes(alloc: Global, text: &str, name: &str, wanted: &[Option<usize>]) -> bool {
    let Some(syntax) = tree_of(alloc, text) else {
        return false;
    };
    let Ok(nodes) = Nodes::of(alloc, &syntax) else {
        return false;
    };
    let Ok(scoped) = ScopedNodes::of(alloc, &nodes) else {
        return false;
    };
    let Ok(found) = denoted(alloc, &scoped) else {
        return false;
    };
    match (
        nodes_with(alloc, &syntax, name, false),
        nodes_with(alloc, &syntax, name, true),
    ) {
        (Ok(uses), Ok(declared)) => all_are(&found, &uses, &declared, wanted),
        _ => false,
    }
}

#[test]
fn inner_scopes_hide_outer_ones(rt: HostRuntime) {
    let alloc = rt.alloc();
    let block = "int x;int f(void){x;{int x;x;}return x;}";
    assert!(rt; denotes(alloc, block, "x", &[Some(0), Some(1), Some(0)]));
    let loops = "int i;void f(void){for(int i=0;i;)i;i;}";
    assert!(rt; denotes(alloc, loops, "i", &[Some(1), Some(1), Some(0)]));
    assert!(rt; denotes(alloc, "int x;void f(void){int x=x;}", "x", &[Some(1)]));
    assert!(rt;
        denotes(
            alloc,
            "int m;struct s{int m;};int f(void){return m;}",
            "m",
            &[Some(0)]
        )
    );
    assert!(rt; denotes(alloc, "void f(void){y;}", "y", &[None]));
}

#[test]
fn parameters_and_prototypes(rt: HostRuntime) {
    let alloc = rt.alloc();
    let parameters = "int a;int g(int a);int f(int a){return a;}int h(void){return a;}";
    assert!(rt; denotes(alloc, parameters, "a", &[Some(2), Some(0)]));
    let between = "int t;int (*f(int t))[sizeof(t)]{t;return 0;}";
    assert!(rt; denotes(alloc, between, "t", &[Some(0), Some(1)]));
    let own = "int f(int f){return f;}int g(void){return f;}";
    assert!(rt; denotes(alloc, own, "f", &[Some(1), Some(0)]));
}

#[test]
fn enumerators_and_typedef_names(rt: HostRuntime) {
    let alloc = rt.alloc();
    let enums = "enum{A,B=A};void f(void){enum{A=B};A;}";
    assert!(rt; denotes(alloc, enums, "A", &[Some(0), Some(1)]));
    assert!(rt; denotes(alloc, enums, "B", &[Some(0)]));
    assert!(rt;
        denotes(
            alloc,
            "typedef int T;T x;void f(void){int T;T;}",
            "T",
            &[Some(0), Some(1)]
        )
    );
}

pub(crate) fn names_of(
    alloc: Global,
    scoped: &ScopedNodes,
) -> Result<Vec<Option<DeclaredName>>, AllocError>
    ensures { IfOk result (λ names. AreNames scoped.now names.items) }
{
    let found = denoted(alloc, scoped)?;
    declared_names(alloc, scoped, &found)
}

pub(crate) fn earlier_of(alloc: Global, scoped: &ScopedNodes) -> Result<Vec<Earlier>, AllocError>
    ensures { IfOk result (λ earlier. AreEarlier scoped.now earlier.items) }
{
    let found = denoted(alloc, scoped)?;
    let names = declared_names(alloc, scoped, &found)?;
    earlier_declarations(alloc, scoped, &names)
}

fn is_name(name: Option<DeclaredName>, wanted: Option<(Entity, bool)>) -> bool {
    match (name, wanted) {
        (None, None) => true,
        (Some(name), Some((entity, is_function))) => {
            name.entity == entity && name.is_function == is_function
        }
        _ => false,
    }
}

// The declarations of a name have these entities, and types of functions or not.
fn entities_are(alloc: Global, text: &str, name: &str, wanted: &[Option<(Entity, bool)>]) -> bool {
    let Some(syntax) = tree_of(alloc, text) else {
        return false;
    };
    let Ok(nodes) = Nodes::of(alloc, &syntax) else {
        return false;
    };
    let Ok(scoped) = ScopedNodes::of(alloc, &nodes) else {
        return false;
    };
    let (Ok(names), Ok(declared)) = (
        names_of(alloc, &scoped),
        nodes_with(alloc, &syntax, name, true),
    ) else {
        return false;
    };
    for (index, number) in declared.iter().enumerate() {
        let (Some(given), Some(entity)) = (names.get(*number), wanted.get(index)) else {
            return false;
        };
        if !is_name(*given, *entity) {
            return false;
        }
    }
    declared.len() == wanted.len()
}

#[test]
fn entities(rt: HostRuntime) {
    let alloc = rt.alloc();
    let types = "typedef int F(int);F g;typedef int T;T a(void);";
    assert!(rt; entities_are(alloc, types, "F", &[Some((Entity::Typedef, true))]));
    assert!(rt; entities_are(alloc, types, "g", &[Some((Entity::Function, true))]));
    assert!(rt; entities_are(alloc, types, "T", &[Some((Entity::Typedef, false))]));
    assert!(rt; entities_are(alloc, types, "a", &[Some((Entity::Function, true))]));
    assert!(rt; entities_are(alloc, "enum{A};struct s{int m;};", "m", &[None]));
    assert!(rt; entities_are(alloc, "enum{A};", "A", &[Some((Entity::Enumerator, false))]));
}

#[test]
fn objects(rt: HostRuntime) {
    let alloc = rt.alloc();
    let unit = "int a;int f(int p,int (*q)(void)){static int s;extern int e;int l;for(int a;;);}";
    let names = [
        Some((Entity::Static, false)),
        Some((Entity::Automatic, false)),
    ];
    assert!(rt; entities_are(alloc, unit, "a", &names));
    assert!(rt; entities_are(alloc, unit, "p", &[Some((Entity::Parameter(0), false))]));
    assert!(rt; entities_are(alloc, unit, "q", &[Some((Entity::Parameter(1), false))]));
    assert!(rt; entities_are(alloc, unit, "s", &[Some((Entity::Static, false))]));
    assert!(rt; entities_are(alloc, unit, "e", &[Some((Entity::Static, false))]));
    assert!(rt; entities_are(alloc, unit, "l", &[Some((Entity::Automatic, false))]));
}

// Before the declarations of a name stand these, of which one is initialized or none.
fn earlier_are(alloc: Global, text: &str, name: &str, wanted: &[(Option<usize>, bool)]) -> bool {
    let Some(syntax) = tree_of(alloc, text) else {
        return false;
    };
    let Ok(nodes) = Nodes::of(alloc, &syntax) else {
        return false;
    };
    let Ok(scoped) = ScopedNodes::of(alloc, &nodes) else {
        return false;
    };
    let (Ok(found), Ok(declared)) = (
        earlier_of(alloc, &scoped),
        nodes_with(alloc, &syntax, name, true),
    ) else {
        return false;
    };
    for (index, number) in declared.iter().enumerate() {
        let (Some(given), Some((last, is_initialized))) = (found.get(*number), wanted.get(index))
        else {
            return false;
        };
        if given.is_initialized != *is_initialized
            || !is_declared_by(given.last, &declared, *last)
        {
            return false;
        }
    }
    declared.len() == wanted.len()
}

#[test]
fn earlier_declarations_in_one_scope(rt: HostRuntime) {
    let alloc = rt.alloc();
    let objects = [(None, false), (Some(0), false), (Some(1), true)];
    assert!(rt; earlier_are(alloc, "int x;int x=1;int x;", "x", &objects));
    let functions = "int f(void);int f(void){return 0;}int f(void);";
    assert!(rt; earlier_are(alloc, functions, "f", &objects));
    let apart = [(None, false), (None, false), (None, false)];
    assert!(rt;
        earlier_are(
            alloc,
            "int x;int f(int x);void g(void){int x;}",
            "x",
            &apart
        )
    );
    let one = [(None, false), (None, false), (Some(1), true)];
    assert!(rt; earlier_are(alloc, "int a;void g(int a){int a;}", "a", &one));
}

// Each node with this name has the number of this function.
fn function_is(alloc: Global, text: &str, name: &str, wanted: Option<usize>) -> bool {
    let Some(syntax) = tree_of(alloc, text) else {
        return false;
    };
    let Ok(nodes) = Nodes::of(alloc, &syntax) else {
        return false;
    };
    let Ok(scoped) = ScopedNodes::of(alloc, &nodes) else {
        return false;
    };
    let (Ok(found), Ok(declared)) = (
        function_numbers(alloc, &scoped),
        nodes_with(alloc, &syntax, name, true),
    ) else {
        return false;
    };
    for number in &declared {
        if !matches!(found.get(*number), Some(given) if *given == wanted) {
            return false;
        }
    }
    !declared.is_empty()
}

#[test]
fn numbers_of_functions(rt: HostRuntime) {
    let alloc = rt.alloc();
    let unit = "int g(void);int f(void){return 0;}int x;int g(void){return f();}int h(int);";
    assert!(rt; function_is(alloc, unit, "f", Some(0)));
    assert!(rt; function_is(alloc, unit, "g", Some(1)));
    assert!(rt; function_is(alloc, unit, "h", None));
    assert!(rt; function_is(alloc, unit, "x", None));
}
