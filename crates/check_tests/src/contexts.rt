// What is called, and what stands before functions. The expected values are worked by hand from C99 6.5.2.2 and 6.7.
ghost use Rattle.std.specs.Prelude.{◌≡◌};
ghost use Rattle.c_names.specs.Denoted.{IsOfTokens};

use crate::names::{names_of, nodes_with, tree_of};
use c_contexts::{called_nodes, function_specs};
use c_names::ScopedNodes;
use c_nodes::Nodes;
use c_syntax::SynKind;
use std::alloc::{AllocError, Global};

fn are_so(found: &[bool], places: &[usize], wanted: &[bool]) -> bool {
    for (index, place) in places.iter().enumerate() {
        let (Some(given), Some(other)) = (found.get(*place), wanted.get(index)) else {
            return false;
        };
        if *given != *other {
            return false;
        }
    }
    places.len() == wanted.len()
}

// The uses of a name are called, or not.
fn called_are(alloc: Global, text: &str, name: &str, wanted: &[bool]) -> bool {
    let Some(syntax) = tree_of(alloc, text) else {
        return false;
    };
    let Ok(nodes) = Nodes::of(alloc, &syntax) else {
        return false;
    };
    match (
        called_nodes(alloc, &nodes),
        nodes_with(alloc, &syntax, name, false),
    ) {
        (Ok(found), Ok(uses)) => are_so(&found, &uses, wanted),
        _ => false,
    }
}

#[test]
fn names_that_are_called(rt: HostRuntime) {
    let alloc = rt.alloc();
    let unit = "void g(void){f;(f);f(f);((f))(1);f(2)(3);}";
    assert!(rt; called_are(alloc, unit, "f", &[false, false, true, false, true, true]));
}

// The specs of declarations and functions, in order.
fn specs_of(alloc: Global, nodes: &Nodes) -> Result<Vec<usize>, AllocError> {
    let mut found = Vec::new(alloc);
    for number in 0..nodes.len() {
        if is_owner(nodes.kind_at(number)) {
            found.push(nodes.kid(number, 0))?;
        }
    }
    Ok(found)
}

fn is_owner(kind: SynKind) -> bool {
    matches!(kind, SynKind::Declaration | SynKind::Function)
}

fn function_specs_of(alloc: Global, nodes: &Nodes) -> Result<Vec<bool>, AllocError>
    requires { IsOfTokens nodes.now }
{
    let scoped = ScopedNodes::of(alloc, nodes)?;
    let names = names_of(alloc, &scoped)?;
    function_specs(alloc, &scoped, &names)
}

// The specs of declarations and functions stand before a function, or do not.
fn specs_are(alloc: Global, text: &str, wanted: &[bool]) -> bool {
    let Some(syntax) = tree_of(alloc, text) else {
        return false;
    };
    let Ok(nodes) = Nodes::of(alloc, &syntax) else {
        return false;
    };
    match (function_specs_of(alloc, &nodes), specs_of(alloc, &nodes)) {
        (Ok(found), Ok(places)) => are_so(&found, &places, wanted),
        _ => false,
    }
}

#[test]
fn specs_before_functions(rt: HostRuntime) {
    let alloc = rt.alloc();
    let unit = "int f(void);int x;int y,h(int);int g(void){int z;return 0;}int (*p)(void);";
    assert!(rt; specs_are(alloc, unit, &[true, false, true, false, true, false]));
}
