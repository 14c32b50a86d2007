// The objects of a unit, their numbers and their declarations.
ghost use Rattle.std.specs.Prelude.{◌≡◌, ◌<◌, IfOk, length, map};
ghost use Rattle.c_typing.specs.Names.{Name, name_of, objects_of};
ghost use Rattle.c_names.specs.Denoted.{places_in};
ghost use Rattle.c_names.specs.Names.{AreNames};
ghost use Rattle.c_objects.specs.Firsts.{AreFirsts};
ghost use Rattle.c_objects.specs.Objects as objects;
ghost use Rattle.c_objects.specs.Objects.{AreDefined, AreNumbers, AreNumbersOfFirsts, number_at, object_at};

use crate::defined::is_static;
use c_names::{DeclaredName, ScopedNodes};
use std::alloc::{AllocError, Global};

/// The nodes that declare the objects with names that are defined, each by its first declaration.
pub fn objects(
    alloc: Global,
    scoped: &ScopedNodes,
    names: &[Option<DeclaredName>],
    firsts: &[Option<usize>],
    defined: &[bool],
) -> Result<Vec<usize>, AllocError>
    requires names { AreNames scoped.now names.now }
    requires firsts { AreFirsts scoped.now firsts.now }
    requires defined { AreDefined scoped.now defined.now }
    ensures { IfOk result (λ found. found.items ≡ map (λ (e : Name). e.node) (objects_of (places_in scoped.now))) }
{
    let mut found = Vec::new(alloc);
    for number in 0..scoped.len() {
        if is_object(scoped, names, firsts, defined, number) {
            found.push(number)?;
        }
    }
    Ok(found)
}

// The node declares an object that is defined, and declares it first.
fn is_object(
    scoped: &ScopedNodes,
    names: &[Option<DeclaredName>],
    firsts: &[Option<usize>],
    defined: &[bool],
    number: usize,
) -> bool
    requires within { number < length scoped.now }
    requires names { AreNames scoped.now names.now }
    requires firsts { AreFirsts scoped.now firsts.now }
    requires defined { AreDefined scoped.now defined.now }
    ensures { result ≡ object_at (places_in scoped.now) (name_of (places_in scoped.now) number) }
{
    match names[number] {
        Some(name) => {
            is_static(name.entity) && is_number(firsts[number], number) && defined[number]
        }
        None => false,
    }
}

fn is_number(found: Option<usize>, number: usize) -> bool
    ensures { result ≡ objects.is_number found number }
{
    match found {
        Some(other) => other == number,
        None => false,
    }
}

/// For each name, by its node, the number of the object that it declares, where it is defined.
pub fn object_numbers(
    alloc: Global,
    scoped: &ScopedNodes,
    names: &[Option<DeclaredName>],
    firsts: &[Option<usize>],
    defined: &[bool],
) -> Result<Vec<Option<usize>>, AllocError>
    requires names { AreNames scoped.now names.now }
    requires firsts { AreFirsts scoped.now firsts.now }
    requires defined { AreDefined scoped.now defined.now }
    ensures { IfOk result (λ found. AreNumbers scoped.now found.items) }
{
    let by_first = numbers_of_firsts(alloc, scoped, names, firsts, defined)?;
    numbers_by(alloc, scoped, firsts, &by_first)
}

// For each node that declares an object first, its number.
fn numbers_of_firsts(
    alloc: Global,
    scoped: &ScopedNodes,
    names: &[Option<DeclaredName>],
    firsts: &[Option<usize>],
    defined: &[bool],
) -> Result<Vec<Option<usize>>, AllocError>
    requires names { AreNames scoped.now names.now }
    requires firsts { AreFirsts scoped.now firsts.now }
    requires defined { AreDefined scoped.now defined.now }
    ensures { IfOk result (λ found. AreNumbersOfFirsts scoped.now found.items) }
{
    let mut found = Vec::new(alloc);
    let mut count = 0;
    for number in 0..scoped.len() {
        if is_object(scoped, names, firsts, defined, number) {
            found.push(Some(count))?;
            count += 1;
        } else {
            found.push(None)?;
        }
    }
    Ok(found)
}

fn numbers_by(
    alloc: Global,
    scoped: &ScopedNodes,
    firsts: &[Option<usize>],
    by_first: &[Option<usize>],
) -> Result<Vec<Option<usize>>, AllocError>
    requires firsts { AreFirsts scoped.now firsts.now }
    requires by_first { AreNumbersOfFirsts scoped.now by_first.now }
    ensures { IfOk result (λ found. AreNumbers scoped.now found.items) }
{
    let mut found = Vec::new(alloc);
    for number in 0..scoped.len() {
        found.push(number_of(scoped, firsts, by_first, number))?;
    }
    Ok(found)
}

fn number_of(
    scoped: &ScopedNodes,
    firsts: &[Option<usize>],
    by_first: &[Option<usize>],
    number: usize,
) -> Option<usize>
    requires within { number < length scoped.now }
    requires firsts { AreFirsts scoped.now firsts.now }
    requires by_first { AreNumbersOfFirsts scoped.now by_first.now }
    ensures { result ≡ number_at (places_in scoped.now) (name_of (places_in scoped.now) number) }
{
    match firsts[number] {
        Some(first) => by_first[first],
        None => None,
    }
}
