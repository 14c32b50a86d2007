// The nodes of trees, in post-order.
ghost use Rattle.std.specs.Prelude.{◌≡◌, IfSome};
ghost use Rattle.c_syntax.specs.Trees.{Tree};
ghost use Rattle.c_syntax.specs.Tables.{table_of};

use c_lexer::lex;
use c_nodes::{Kinds, Nodes, enclosing, innermost, next_parts, scopes, whole_declarators};
use c_parser::parse;
use c_syntax::Syntax;
use std::alloc::{AllocError, Global};

// 0 `int`, 1 specs, 2 `x`, 3 the declarator with its initializer, 4 the declaration, 5 the unit.
static OBJECT: &str = "int x;";

// 0 `void`, 1 specs, 2 `f`, 3 `int`, 4 specs, 5 `a`, 6 the parameter, 7 the parameter list, 8 to 10 the parts of `for`,
// 11 `break`, 12 `for`, 13 the block, 14 the function, 15 the unit.
static FUNCTION: &str = "void f(int a){for(;;)break;}";

pub(crate) fn tree_of(alloc: Global, text: &str) -> Option<Syntax>
    ensures { IfSome result (λ syntax. (t : Tree) × (syntax ≡ table_of t)) }
{
    let Ok(tokens) = lex(alloc, text.as_bytes()) else {
        return None;
    };
    match parse(alloc, &tokens) {
        Ok(syntax) => Some(syntax),
        Err(_) => None,
    }
}

fn parents_of(alloc: Global, nodes: &Nodes) -> Result<Vec<usize>, AllocError> {
    let mut parents = Vec::new(alloc);
    for number in 0..nodes.len() {
        parents.push(nodes.parent(number))?;
    }
    Ok(parents)
}

fn have_parents(alloc: Global, text: &str, wanted: &[usize]) -> bool {
    let Some(syntax) = tree_of(alloc, text) else {
        return false;
    };
    let Ok(nodes) = Nodes::of(alloc, &syntax) else {
        return false;
    };
    matches!(parents_of(alloc, &nodes), Ok(parents) if parents.as_slice() == wanted)
}

#[test]
fn parents(rt: HostRuntime) {
    let alloc = rt.alloc();
    assert!(rt; have_parents(alloc, OBJECT, &[1, 4, 3, 4, 5, 6]));
    assert!(rt;
        have_parents(
            alloc,
            FUNCTION,
            &[1, 14, 7, 4, 6, 6, 7, 14, 12, 12, 12, 12, 13, 14, 15, 16]
        )
    );
}

// The declarators that begin with each node, and the parts next to it.
fn declarators_are(alloc: Global, text: &str, wholes: &[usize], next: &[usize]) -> bool {
    let Some(syntax) = tree_of(alloc, text) else {
        return false;
    };
    let Ok(nodes) = Nodes::of(alloc, &syntax) else {
        return false;
    };
    match (whole_declarators(alloc, &nodes), next_parts(alloc, &nodes)) {
        (Ok(found), Ok(parts)) => found.as_slice() == wholes && parts.as_slice() == next,
        _ => false,
    }
}

#[test]
fn declarators(rt: HostRuntime) {
    let alloc = rt.alloc();
    assert!(rt; declarators_are(alloc, OBJECT, &[6, 6, 2, 6, 6, 6], &[6, 6, 6, 6, 6, 6]));
    let wholes = [16, 16, 7, 16, 16, 5, 16, 16, 16, 16, 16, 16, 16, 16, 16, 16];
    let next = [
        16, 16, 7, 16, 16, 16, 16, 16, 16, 16, 16, 16, 16, 16, 16, 16,
    ];
    assert!(rt; declarators_are(alloc, FUNCTION, &wholes, &next));
}

fn around_are(alloc: Global, text: &str, kinds: Kinds, wanted: &[usize]) -> bool {
    let Some(syntax) = tree_of(alloc, text) else {
        return false;
    };
    let Ok(nodes) = Nodes::of(alloc, &syntax) else {
        return false;
    };
    matches!(enclosing(alloc, &nodes, kinds), Ok(found) if found.as_slice() == wanted)
}

#[test]
fn loops_and_functions(rt: HostRuntime) {
    let alloc = rt.alloc();
    let loops = [
        16, 16, 16, 16, 16, 16, 16, 16, 12, 12, 12, 12, 12, 16, 16, 16,
    ];
    assert!(rt; around_are(alloc, FUNCTION, Kinds::Loop, &loops));
    let functions = [
        14, 14, 14, 14, 14, 14, 14, 14, 14, 14, 14, 14, 14, 14, 14, 16,
    ];
    assert!(rt; around_are(alloc, FUNCTION, Kinds::Function, &functions));
}

// For each node, the index of its innermost scope.
fn scopes_are(alloc: Global, text: &str, wanted: &[usize]) -> bool {
    let Some(syntax) = tree_of(alloc, text) else {
        return false;
    };
    let Ok(nodes) = Nodes::of(alloc, &syntax) else {
        return false;
    };
    matches!(scopes_in(alloc, &nodes), Ok(found) if found.as_slice() == wanted)
}

fn scopes_in(alloc: Global, nodes: &Nodes) -> Result<Vec<usize>, AllocError> {
    let wholes = whole_declarators(alloc, nodes)?;
    let next = next_parts(alloc, nodes)?;
    let spans = scopes(alloc, nodes, &wholes, &next)?;
    innermost(alloc, &spans, nodes.len())
}

#[test]
fn innermost_scopes(rt: HostRuntime) {
    let alloc = rt.alloc();
    assert!(rt; scopes_are(alloc, OBJECT, &[0, 0, 0, 0, 0, 0]));
    let scopes = [2, 2, 2, 1, 1, 1, 1, 1, 0, 0, 0, 0, 0, 1, 2, 2];
    assert!(rt; scopes_are(alloc, FUNCTION, &scopes));
}
