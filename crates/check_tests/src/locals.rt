// The locals of functions. The expected values are worked by hand from C99 6.2.4 and 6.9.1.
ghost use Rattle.std.specs.Prelude.{◌≡◌};
ghost use Rattle.c_names.specs.Denoted.{IsOfTokens};

use crate::names::{names_of, nodes_with, tree_of};
use c_locals::{
    automatic_count, automatic_counts, functions_around, local_count, local_numbers, parameters,
};
use c_names::ScopedNodes;
use c_nodes::{Nodes, next_parts};
use c_syntax::{SynKind, Syntax};
use std::alloc::{AllocError, Global};

// The numbers of locals, each by the node that declares it.
fn numbers_of(alloc: Global, syntax: &Syntax) -> Result<Vec<Option<usize>>, AllocError>
    requires { IsOfTokens syntax.now }
{
    let nodes = Nodes::of(alloc, syntax)?;
    let scoped = ScopedNodes::of(alloc, &nodes)?;
    let names = names_of(alloc, &scoped)?;
    let next = next_parts(alloc, &nodes)?;
    let owners = functions_around(alloc, &nodes)?;
    let counts = automatic_counts(alloc, &nodes, &names)?;
    local_numbers(alloc, &nodes, &next, &owners, &counts, &names)
}

// The declarations of a name have these numbers.
fn numbers_are(alloc: Global, text: &str, name: &str, wanted: &[Option<usize>]) -> bool {
    let Some(syntax) = tree_of(alloc, text) else {
        return false;
    };
    let (Ok(numbers), Ok(declared)) = (
        numbers_of(alloc, &syntax),
        nodes_with(alloc, &syntax, name, true),
    ) else {
        return false;
    };
    for (index, number) in declared.iter().enumerate() {
        let (Some(given), Some(local)) = (numbers.get(*number), wanted.get(index)) else {
            return false;
        };
        if *given != *local {
            return false;
        }
    }
    declared.len() == wanted.len()
}

#[test]
fn numbers_of_locals(rt: HostRuntime) {
    let alloc = rt.alloc();
    let unit =
        "int g;int f(int p,int q){int a;static int s;{int b;}for(int c;;);return a;}int h(void){int a;return a;}";
    assert!(rt; numbers_are(alloc, unit, "p", &[Some(0)]));
    assert!(rt; numbers_are(alloc, unit, "q", &[Some(1)]));
    assert!(rt; numbers_are(alloc, unit, "a", &[Some(2), Some(0)]));
    assert!(rt; numbers_are(alloc, unit, "b", &[Some(3)]));
    assert!(rt; numbers_are(alloc, unit, "c", &[Some(4)]));
    assert!(rt; numbers_are(alloc, unit, "s", &[None]));
    assert!(rt; numbers_are(alloc, unit, "g", &[None]));
    assert!(rt; numbers_are(alloc, unit, "f", &[None]));
}

// What a function has: its parameters, its automatic objects with names, and both.
#[derive(Clone, Copy)]
struct Counts {
    parameters: usize,
    automatics: usize,
    locals: usize,
}

fn is_function(kind: SynKind) -> bool {
    matches!(kind, SynKind::Function)
}

fn counts_of(alloc: Global, syntax: &Syntax) -> Result<Vec<Counts>, AllocError>
    requires { IsOfTokens syntax.now }
{
    let nodes = Nodes::of(alloc, syntax)?;
    let scoped = ScopedNodes::of(alloc, &nodes)?;
    let names = names_of(alloc, &scoped)?;
    let next = next_parts(alloc, &nodes)?;
    let counts = automatic_counts(alloc, &nodes, &names)?;
    let mut found = Vec::new(alloc);
    for function in 0..nodes.len() {
        if is_function(nodes.kind_at(function)) {
            found.push(Counts {
                parameters: parameters(&nodes, &next, function).len(),
                automatics: automatic_count(&nodes, &counts, function),
                locals: local_count(&nodes, &next, &counts, function),
            })?;
        }
    }
    Ok(found)
}

// The functions of a text have so many parameters and automatic objects.
fn counts_are(alloc: Global, text: &str, wanted: &[(usize, usize)]) -> bool {
    let Some(syntax) = tree_of(alloc, text) else {
        return false;
    };
    let Ok(found) = counts_of(alloc, &syntax) else {
        return false;
    };
    for (index, counts) in found.iter().enumerate() {
        let Some((parameters, automatics)) = wanted.get(index) else {
            return false;
        };
        if counts.parameters != *parameters || counts.automatics != *automatics {
            return false;
        }
        if counts.locals != counts.automatics.saturating_add(counts.parameters) {
            return false;
        }
    }
    found.len() == wanted.len()
}

#[test]
fn locals_of_functions(rt: HostRuntime) {
    let alloc = rt.alloc();
    let unit =
        "int f(int p,int q){int a;static int s;{int b;}return a;}void g(void){}int h(int (*r)(int z)){int c;return c;}";
    assert!(rt; counts_are(alloc, unit, &[(2, 2), (0, 0), (1, 1)]));
}
