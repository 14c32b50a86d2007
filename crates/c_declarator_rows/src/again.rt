// Names that are declared again (C99 6.7, 3 and 4; 6.2.7).
ghost use Rattle.std.specs.Prelude.{◌≡◌, ◌||◌, ◌&&◌, Option, Some, not};
ghost use Rattle.std.specs.List.{list_any};
ghost use Rattle.c_typing.specs.Types.{CType};
ghost use Rattle.c_typing.specs.Places.{has_kid, is_file_scope, node_at};
ghost use Rattle.c_typing.specs.Places as places;
ghost use Rattle.c_typing.specs.Names as rules;
ghost use Rattle.c_typing.specs.Names.{Name, earlier};
ghost use Rattle.c_typing.specs.Rules as faults;
ghost use Rattle.c_nodes.specs.Parents.{nodes_in};
ghost use Rattle.c_nodes.specs.Scopes.{scope_of};
ghost use Rattle.c_names.specs.Denoted.{places_in};
ghost use Rattle.c_names.specs.Names.{entity_of};
ghost use Rattle.c_values.specs.Typings.{IsType};
ghost use Rattle.c_declarator_rows.specs.Found.{Finds, IsName};

use c_declared_types::agree;
use c_names::{DeclaredName, Entity};
use c_nodes::Nodes;
use c_syntax::SynKind;
use c_type_ids::TypeTable;
use c_values::Type;

// A name of this type must not be declared again after the last declaration, of the type `before`, where it has one.
pub(crate) fn is_refused(
    nodes: &Nodes,
    table: &TypeTable,
    name: DeclaredName,
    kind: Type,
    was_initialized: bool,
    last: Option<DeclaredName>,
    before: Option<Type>,
) -> bool
    requires kind { (t : CType) × IsType table.now kind t }
    requires before { (o : Option CType) × Finds table.now before o }
    ensures { (e : Name) (t : CType) (o : Option CType) (a : Option Name) → IsName nodes.now (Some e) (Some name) → IsName nodes.now a last → IsType table.now kind t → Finds table.now before o →
        was_initialized ≡ list_any (rules.is_initialized (places_in nodes.now)) (earlier (places_in nodes.now) e) → result ≡ faults.is_refused (places_in nodes.now) e t o a }
{
    match last {
        Some(last) => !(may_be_again(nodes, name, last, was_initialized)
            && agree_with(table, kind, before)),
        None => false,
    }
}

// Both are functions, or both objects of the unit, and at most one has a body or an initializer.
fn may_be_again(
    nodes: &Nodes,
    name: DeclaredName,
    last: DeclaredName,
    was_initialized: bool,
) -> bool
    ensures { (e a : Name) → IsName nodes.now (Some e) (Some name) → IsName nodes.now (Some a) (Some last) →
        was_initialized ≡ list_any (rules.is_initialized (places_in nodes.now)) (earlier (places_in nodes.now) e) → result ≡ faults.may_be_again (places_in nodes.now) e a }
{
    may_be(
        are_alike(nodes, name, last),
        is_initialized(nodes, name.owner),
        was_initialized,
    )
}

fn may_be(are_alike: bool, is_initialized: bool, was_initialized: bool) -> bool
    ensures { result ≡ (are_alike && not (is_initialized && was_initialized)) }
{
    are_alike && !(is_initialized && was_initialized)
}

fn are_alike(nodes: &Nodes, name: DeclaredName, last: DeclaredName) -> bool
    ensures { result ≡ (faults.are_functions (entity_of last.entity) (entity_of name.entity) || (rules.is_static (entity_of last.entity) && rules.is_static (entity_of name.entity) && is_file_scope (nodes_in nodes.now) (scope_of name.scope))) }
{
    are_functions(last.entity, name.entity)
        || (is_static(last.entity)
            && is_static(name.entity)
            && is_unit(nodes.kind_at(name.scope.node)))
}

fn are_functions(left: Entity, right: Entity) -> bool
    ensures { result ≡ faults.are_functions (entity_of left) (entity_of right) }
{
    matches!((left, right), (Entity::Function, Entity::Function))
}

fn is_static(entity: Entity) -> bool
    ensures { result ≡ rules.is_static (entity_of entity) }
{
    matches!(entity, Entity::Static)
}

fn is_unit(kind: SynKind) -> bool
    ensures { result ≡ places.is_unit kind }
{
    matches!(kind, SynKind::Unit)
}

// A declarator has an initializer, or a function a body.
fn is_initialized(nodes: &Nodes, owner: usize) -> bool
    ensures { result ≡ has_kid (node_at (nodes_in nodes.now) owner) 1 }
{
    owner < nodes.len() && nodes.has_kid(owner, 1)
}

fn agree_with(table: &TypeTable, kind: Type, before: Option<Type>) -> bool
    requires kind { (t : CType) × IsType table.now kind t }
    requires before { (o : Option CType) × Finds table.now before o }
    ensures { (t : CType) (o : Option CType) → IsType table.now kind t → Finds table.now before o → result ≡ faults.agree_with t o }
{
    match before {
        Some(other) => agree(table, kind, other),
        None => true,
    }
}
