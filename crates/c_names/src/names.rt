// What each node declares.
ghost use Rattle.std.specs.Prelude.{◌≡◌, ◌<◌, ◌+◌, ℕ, IfOk, OnOk, None, Some, false, length, replicate, true};
ghost use Rattle.c_typing.specs.Names as rules;
ghost use Rattle.c_typing.specs.Places as places;
ghost use Rattle.c_typing.specs.Places.{Node, kind_at, node_at};
ghost use Rattle.c_nodes.specs.Parents.{nodes_in};
ghost use Rattle.c_nodes.specs.Scopes.{scope_of};
ghost use Rattle.c_names.specs.Denoted.{AreDenoted, Begins, declares, is_enumerator, places_in};
ghost use Rattle.c_names.specs.Names.{AreBegun, AreNames, AreWords, IsWords, declared_entity, entity_of, rule_name};

use crate::scoped::{ScopedNodes, is_enumerator};
use crate::words::{SpecWords, words_of};
use c_nodes::Span;
use c_syntax::SynKind;
use std::alloc::{AllocError, Global};

/// What a name is.
#[derive(Clone, Copy, Debug, PartialEq, Eq)]
pub enum Entity {
    Typedef,
    Function,
    /// An object that is there as long as the program runs (6.2.4, 3).
    Static,
    Automatic,
    /// The parameter of this index.
    Parameter(usize),
    Enumerator,
}

/// A name that a node declares.
#[derive(Clone, Copy, Debug, PartialEq, Eq)]
pub struct DeclaredName {
    /// Its scope begins behind this node.
    pub behind: usize,
    /// What the declarator belongs to.
    pub owner: usize,
    pub scope: Span,
    pub entity: Entity,
    /// Its type is a function's.
    pub is_function: bool,
}

/// For each node the name that it declares, where it declares one.
pub fn declared_names(
    alloc: Global,
    scoped: &ScopedNodes,
    denoted: &[Option<usize>],
) -> Result<Vec<Option<DeclaredName>>, AllocError>
    requires { AreDenoted scoped.now denoted.now }
    ensures { IfOk result (λ found. AreNames scoped.now found.items) }
{
    let mut found = Vec::new(alloc);
    found.resize(scoped.len(), None)?;
    put_names(alloc, scoped, denoted, &mut found)?;
    Ok(found)
}

fn put_names(
    alloc: Global,
    scoped: &ScopedNodes,
    denoted: &[Option<usize>],
    found: &mut [Option<DeclaredName>],
) -> Result<(), AllocError>
    requires denoted { AreDenoted scoped.now denoted.now }
    requires start { found.old ≡ replicate (length scoped.now) None }
    ensures { OnOk result (AreNames scoped.now found.new) }
{
    let mut words = Vec::new(alloc);
    for number in 0..scoped.len() {
        words.push(words_of(scoped, denoted, found, number))?;
        put_name(scoped, &words, found, number);
    }
    Ok(())
}

// Puts the name whose scope begins behind a node.
fn put_name(
    scoped: &ScopedNodes,
    words: &[SpecWords],
    found: &mut [Option<DeclaredName>],
    number: usize,
)
    requires words { AreWords scoped.now (number + 1) words.now }
    requires within { number < length scoped.now }
    requires found { AreBegun scoped.now number found.old }
    ensures { AreBegun scoped.now (number + 1) found.new }
{
    if let Some(node) = scoped.begun(number) {
        found[node] = Some(name_at(scoped, words, number, node));
    }
}

// The name of a node, which begins behind another one.
fn name_at(scoped: &ScopedNodes, words: &[SpecWords], behind: usize, node: usize) -> DeclaredName
    requires words { AreWords scoped.now (behind + 1) words.now }
    requires within { behind < length scoped.now }
    requires begins { Begins scoped.now behind node }
    ensures { (b : Begins scoped.now behind node) → rule_name (nodes_in scoped.now) node result ≡ b.name }
{
    if is_enumerator(scoped.kind_at(behind)) {
        enumerator(scoped, behind)
    } else {
        declarator_name(scoped, words, behind, node)
    }
}

fn enumerator(scoped: &ScopedNodes, node: usize) -> DeclaredName
    requires within { node < length scoped.now }
    requires kind { is_enumerator (kind_at (nodes_in scoped.now) node) ≡ true }
    ensures { (first : ℕ) (b : Begins scoped.now node first) → rule_name (nodes_in scoped.now) first result ≡ b.name }
{
    DeclaredName {
        behind: node,
        owner: scoped.parent(node),
        scope: scoped.scope_or_none(node),
        entity: Entity::Enumerator,
        is_function: false,
    }
}

fn declarator_name(
    scoped: &ScopedNodes,
    words: &[SpecWords],
    behind: usize,
    node: usize,
) -> DeclaredName
    requires words { AreWords scoped.now (behind + 1) words.now }
    requires within { behind < length scoped.now }
    requires begins { Begins scoped.now behind node }
    requires kind { is_enumerator (kind_at (nodes_in scoped.now) behind) ≡ false }
    ensures { (b : Begins scoped.now behind node) → rule_name (nodes_in scoped.now) node result ≡ b.name }
{
    let owner = scoped.parent(behind);
    let said = words[scoped.specs(owner)];
    let scope = scoped.scope_or_none(node);
    let is_function = scoped.declares_function(node, said.is_function);
    let entity = entity_by(scoped, owner, said, scope, is_function);
    DeclaredName {
        behind,
        owner,
        scope,
        entity,
        is_function,
    }
}

// What a declarator of this owner declares.
fn entity_by(
    scoped: &ScopedNodes,
    owner: usize,
    said: SpecWords,
    scope: Span,
    is_function: bool,
) -> Entity
    requires within { owner < length scoped.now }
    requires numbered { (node_at (nodes_in scoped.now) owner).id ≡ owner }
    requires declares { declares (kind_at (nodes_in scoped.now) owner) ≡ true }
    ensures { (specs : Node) → IsWords (nodes_in scoped.now) (places_in scoped.now).names specs said →
        rules.entity_by (nodes_in scoped.now) (node_at (nodes_in scoped.now) owner) specs (scope_of scope) is_function (kind_at (nodes_in scoped.now) owner) ≡ Some (entity_of result) }
{
    match scoped.kind_at(owner) {
        SynKind::Function => Entity::Function,
        SynKind::Param => Entity::Parameter(scoped.other_index(owner)),
        _ => declared_entity(said, is_unit(scoped.kind_at(scope.node)), is_function),
    }
}

// What the declarator of a declaration declares (6.2.2, 6.2.4).
fn declared_entity(said: SpecWords, is_file_scope: bool, is_function: bool) -> Entity
    ensures { result ≡ declared_entity said is_file_scope is_function }
{
    if said.is_typedef {
        return Entity::Typedef;
    }
    if is_function {
        return Entity::Function;
    }
    if is_file_scope || said.is_static || said.is_extern {
        Entity::Static
    } else {
        Entity::Automatic
    }
}

fn is_unit(kind: SynKind) -> bool
    ensures { result ≡ places.is_unit kind }
{
    matches!(kind, SynKind::Unit)
}
