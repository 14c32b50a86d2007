// The objects of units. The expected values are worked by hand from C99 6.2.2 and 6.9.2.
ghost use Rattle.std.specs.Prelude.{◌≡◌};
ghost use Rattle.c_names.specs.Denoted.{IsOfTokens};

use crate::names::{earlier_of, names_of, nodes_with, tree_of};
use c_names::ScopedNodes;
use c_nodes::Nodes;
use c_objects::{declarations, defined_objects, first_declarations, object_numbers, objects};
use c_syntax::Syntax;
use std::alloc::{AllocError, Global};

// What is told of the objects of a unit.
#[derive(Drop)]
struct Told {
    objects: Vec<usize>,
    numbers: Vec<Option<usize>>,
    declarations: Vec<Vec<usize>>,
}

fn told_of(alloc: Global, syntax: &Syntax) -> Result<Told, AllocError>
    requires { IsOfTokens syntax.now }
{
    let nodes = Nodes::of(alloc, syntax)?;
    let scoped = ScopedNodes::of(alloc, &nodes)?;
    let names = names_of(alloc, &scoped)?;
    let earlier = earlier_of(alloc, &scoped)?;
    let firsts = first_declarations(alloc, &scoped, &earlier)?;
    let defined = defined_objects(alloc, &scoped, &names, &firsts)?;
    let objects = objects(alloc, &scoped, &names, &firsts, &defined)?;
    let numbers = object_numbers(alloc, &scoped, &names, &firsts, &defined)?;
    let declarations = declarations(alloc, &scoped, &numbers, objects.len())?;
    Ok(Told {
        objects,
        numbers,
        declarations,
    })
}

// The declarations of a name have these numbers.
fn numbers_are(alloc: Global, text: &str, name: &str, wanted: &[Option<usize>]) -> bool {
    let Some(syntax) = tree_of(alloc, text) else {
        return false;
    };
    let (Ok(told), Ok(declared)) = (
        told_of(alloc, &syntax),
        nodes_with(alloc, &syntax, name, true),
    ) else {
        return false;
    };
    for (index, number) in declared.iter().enumerate() {
        let (Some(given), Some(object)) = (told.numbers.get(*number), wanted.get(index)) else {
            return false;
        };
        if *given != *object {
            return false;
        }
    }
    declared.len() == wanted.len()
}

#[test]
fn numbers_of_objects(rt: HostRuntime) {
    let alloc = rt.alloc();
    let unit =
        "int x;static int y;extern int z;int x=1;int f(void){static int s;extern int x;int l;return l;}extern int w=2;";
    assert!(rt; numbers_are(alloc, unit, "x", &[Some(0), Some(0), None]));
    assert!(rt; numbers_are(alloc, unit, "y", &[Some(1)]));
    assert!(rt; numbers_are(alloc, unit, "z", &[None]));
    assert!(rt; numbers_are(alloc, unit, "s", &[Some(2)]));
    assert!(rt; numbers_are(alloc, unit, "w", &[Some(3)]));
    assert!(rt; numbers_are(alloc, unit, "l", &[None]));
    assert!(rt; numbers_are(alloc, unit, "f", &[None]));
    assert!(rt; numbers_are(alloc, "extern int a;int b;int a;", "a", &[Some(0), Some(0)]));
}

fn are_same(given: &[usize], wanted: &[usize]) -> bool {
    given == wanted
}

// The object of this number is declared at the declarations of this name, and first at the first of them.
fn is_declared_by(alloc: Global, text: &str, object: usize, name: &str) -> bool {
    let Some(syntax) = tree_of(alloc, text) else {
        return false;
    };
    let (Ok(told), Ok(declared)) = (
        told_of(alloc, &syntax),
        nodes_with(alloc, &syntax, name, true),
    ) else {
        return false;
    };
    let (Some(node), Some(found)) = (told.objects.get(object), told.declarations.get(object)) else {
        return false;
    };
    matches!(declared.get(0), Some(first) if *first == *node) && are_same(found, &declared)
}

#[test]
fn declarations_of_objects(rt: HostRuntime) {
    let alloc = rt.alloc();
    let unit = "extern int x;int y;int x=1;int z,x;";
    assert!(rt; is_declared_by(alloc, unit, 0, "x"));
    assert!(rt; is_declared_by(alloc, unit, 1, "y"));
    assert!(rt; is_declared_by(alloc, unit, 2, "z"));
    assert!(rt; !is_declared_by(alloc, unit, 3, "z"));
}
