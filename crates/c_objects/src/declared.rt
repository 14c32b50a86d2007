// The declarations of each object.
ghost use Rattle.std.specs.Prelude.{◌≡◌, ◌<◌, ◌+◌, [], IfOk, OnOk, length};
ghost use Rattle.std.specs.List.{AllByRecursion};
ghost use Rattle.c_typing.specs.Names.{objects_of};
ghost use Rattle.c_names.specs.Denoted.{places_in};
ghost use Rattle.c_objects.specs.Objects.{AreDeclarations, AreDeclarationsBefore, AreNumbers, nodes_in_lists};

use c_names::ScopedNodes;
use std::alloc::{AllocError, Global};

/// For each of so many objects, the nodes of its declarations, in order.
pub fn declarations(
    alloc: Global,
    scoped: &ScopedNodes,
    numbers: &[Option<usize>],
    count: usize,
) -> Result<Vec<Vec<usize>>, AllocError>
    requires numbers { AreNumbers scoped.now numbers.now }
    requires count { count ≡ length (objects_of (places_in scoped.now)) }
    ensures { IfOk result (λ found. AreDeclarations scoped.now (nodes_in_lists found.items)) }
{
    let mut found = empty_lists(alloc, count)?;
    put_declarations(scoped, numbers, &mut found)?;
    Ok(found)
}

fn empty_lists(alloc: Global, count: usize) -> Result<Vec<Vec<usize>>, AllocError>
    ensures long { IfOk result (λ lists. length lists.items ≡ count) }
    ensures empty { IfOk result (λ lists. AllByRecursion (λ list. list.items ≡ []) lists.items) }
{
    let mut lists = Vec::new(alloc);
    for _ in 0..count {
        lists.push(Vec::new(alloc))?;
    }
    Ok(lists)
}

fn put_declarations(
    scoped: &ScopedNodes,
    numbers: &[Option<usize>],
    found: &mut [Vec<usize>],
) -> Result<(), AllocError>
    requires numbers { AreNumbers scoped.now numbers.now }
    requires long { length found.old ≡ length (objects_of (places_in scoped.now)) }
    requires empty { AllByRecursion (λ list. list.items ≡ []) found.old }
    ensures { OnOk result (AreDeclarations scoped.now (nodes_in_lists found.new)) }
{
    for number in 0..scoped.len() {
        put_declaration(scoped, numbers, found, number)?;
    }
    Ok(())
}

// Puts a node to the object that it declares.
fn put_declaration(
    scoped: &ScopedNodes,
    numbers: &[Option<usize>],
    found: &mut [Vec<usize>],
    number: usize,
) -> Result<(), AllocError>
    requires within { number < length scoped.now }
    requires numbers { AreNumbers scoped.now numbers.now }
    requires found { AreDeclarationsBefore scoped.now number (nodes_in_lists found.old) }
    ensures { OnOk result (AreDeclarationsBefore scoped.now (number + 1) (nodes_in_lists found.new)) }
{
    let Some(object) = numbers[number] else {
        return Ok(());
    };
    found[object].push(number)?;
    Ok(())
}
