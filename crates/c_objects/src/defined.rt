// Which objects are defined.
ghost use Rattle.std.specs.Prelude.{◌≡◌, ◌<◌, ◌+◌, ◌||◌, IfOk, List, codes, false, not, length, replicate};
ghost use Rattle.c_typing.specs.Names as rules;
ghost use Rattle.c_typing.specs.Places as places;
ghost use Rattle.c_typing.specs.Places.{has_kid, node_at, says, specs_of};
ghost use Rattle.c_typing.specs.Names.{name_of};
ghost use Rattle.c_syntax.specs.declared.syntax.SynNode.{SynNode};
ghost use Rattle.c_nodes.specs.Parents.{nodes_in};
ghost use Rattle.c_names.specs.Denoted.{places_in};
ghost use Rattle.c_names.specs.Names.{AreNames, entity_of};
ghost use Rattle.c_objects.specs.Firsts.{AreFirsts};
ghost use Rattle.c_objects.specs.Objects.{AreDefined, AreDefining, AreDefiningBefore, AreExterns, defined_at, defines_at};

use c_names::{DeclaredName, Entity, ScopedNodes};
use c_syntax::SynKind;
use std::alloc::{AllocError, Global};

/// For each name, by its node, that the object of this name is defined: one of its declarations defines it.
pub fn defined_objects(
    alloc: Global,
    scoped: &ScopedNodes,
    names: &[Option<DeclaredName>],
    firsts: &[Option<usize>],
) -> Result<Vec<bool>, AllocError>
    requires names { AreNames scoped.now names.now }
    requires firsts { AreFirsts scoped.now firsts.now }
    ensures { IfOk result (λ found. AreDefined scoped.now found.items) }
{
    let externs = externs(alloc, scoped)?;
    let mut defining = Vec::new(alloc);
    defining.resize(scoped.len(), false)?;
    put_defining(scoped, names, firsts, &externs, &mut defining);
    defined_by(alloc, scoped, firsts, &defining)
}

// For each node, that `extern` is among its words.
fn externs(alloc: Global, scoped: &ScopedNodes) -> Result<Vec<bool>, AllocError>
    ensures { IfOk result (λ found. AreExterns scoped.now found.items) }
{
    let mut found = Vec::new(alloc);
    for number in 0..scoped.len() {
        found.push(says_extern(scoped, number))?;
    }
    Ok(found)
}

fn says_extern(scoped: &ScopedNodes, number: usize) -> bool
    requires { number < length scoped.now }
    ensures { result ≡ says (nodes_in scoped.now) (codes "extern") (node_at (nodes_in scoped.now) number) }
{
    for kid in scoped.kids(number) {
        if is_word(scoped.kind_at(kid.number))
            && scoped.node(kid.number).text.as_slice() == "extern"
        {
            return true;
        }
    }
    false
}

fn is_word(kind: SynKind) -> bool
    ensures { result ≡ places.is_word kind }
{
    matches!(kind, SynKind::Word)
}

// Notes at first declarations that one of the group defines an object.
fn put_defining(
    scoped: &ScopedNodes,
    names: &[Option<DeclaredName>],
    firsts: &[Option<usize>],
    externs: &[bool],
    defining: &mut [bool],
)
    requires names { AreNames scoped.now names.now }
    requires firsts { AreFirsts scoped.now firsts.now }
    requires externs { AreExterns scoped.now externs.now }
    requires start { defining.old ≡ replicate (length scoped.now) false }
    ensures { AreDefining scoped.now defining.new }
{
    for number in 0..scoped.len() {
        put_one(scoped, names, firsts, externs, defining, number);
    }
}

// Notes it of the name of a node.
fn put_one(
    scoped: &ScopedNodes,
    names: &[Option<DeclaredName>],
    firsts: &[Option<usize>],
    externs: &[bool],
    defining: &mut [bool],
    number: usize,
)
    requires within { number < length scoped.now }
    requires names { AreNames scoped.now names.now }
    requires firsts { AreFirsts scoped.now firsts.now }
    requires externs { AreExterns scoped.now externs.now }
    requires defining { AreDefiningBefore scoped.now number defining.old }
    ensures { AreDefiningBefore scoped.now (number + 1) defining.new }
{
    if let Some(first) = firsts[number] {
        let is_defined = defining[first] || defines(scoped, names, externs, number);
        defining[first] = is_defined;
    }
}

// The name of a node defines an object.
fn defines(
    scoped: &ScopedNodes,
    names: &[Option<DeclaredName>],
    externs: &[bool],
    number: usize,
) -> bool
    requires within { number < length scoped.now }
    requires names { AreNames scoped.now names.now }
    requires externs { AreExterns scoped.now externs.now }
    ensures { result ≡ defines_at (places_in scoped.now) (name_of (places_in scoped.now) number) }
{
    match names[number] {
        Some(name) => { is_static(name.entity) && is_definition(scoped, externs, name.owner) }
        None => false,
    }
}

// A declaration of an object has an initializer, or is without `extern`.
fn is_definition(scoped: &ScopedNodes, externs: &[bool], owner: usize) -> bool
    requires within { owner < length scoped.now }
    requires externs { AreExterns scoped.now externs.now }
    ensures { result ≡ (has_kid (node_at (nodes_in scoped.now) owner) 1 || not (says (nodes_in scoped.now) (codes "extern") (specs_of (nodes_in scoped.now) (node_at (nodes_in scoped.now) owner)))) }
{
    scoped.has_kid(owner, 1) || !is_extern(externs, scoped.specs(owner))
}

pub(crate) fn is_static(entity: Entity) -> bool
    ensures { result ≡ rules.is_static (entity_of entity) }
{
    matches!(entity, Entity::Static)
}

// These specs have the word `extern`.
fn is_extern(externs: &[bool], specs: usize) -> bool
    ensures { (table : List SynNode) → AreExterns table externs.now → result ≡ says (nodes_in table) (codes "extern") (node_at (nodes_in table) specs) }
{
    specs < externs.len() && externs[specs]
}

fn defined_by(
    alloc: Global,
    scoped: &ScopedNodes,
    firsts: &[Option<usize>],
    defining: &[bool],
) -> Result<Vec<bool>, AllocError>
    requires firsts { AreFirsts scoped.now firsts.now }
    requires defining { AreDefining scoped.now defining.now }
    ensures { IfOk result (λ found. AreDefined scoped.now found.items) }
{
    let mut found = Vec::new(alloc);
    for number in 0..scoped.len() {
        found.push(is_defined(scoped, firsts, defining, number))?;
    }
    Ok(found)
}

fn is_defined(
    scoped: &ScopedNodes,
    firsts: &[Option<usize>],
    defining: &[bool],
    number: usize,
) -> bool
    requires within { number < length scoped.now }
    requires firsts { AreFirsts scoped.now firsts.now }
    requires defining { AreDefining scoped.now defining.now }
    ensures { result ≡ defined_at (places_in scoped.now) (name_of (places_in scoped.now) number) }
{
    match firsts[number] {
        Some(first) => defining[first],
        None => false,
    }
}
