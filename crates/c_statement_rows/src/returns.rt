// `return` (C99 6.8.6.4).
ghost use Rattle.std.specs.Prelude.{◌≡◌, ◌<◌, ℕ, List, None, Some, MatchOption, get_or, length};
ghost use Rattle.c_syntax.specs.declared.kind.SynKind.TheVariants as kind;
ghost use Rattle.c_typing.specs.Types.{CType};
ghost use Rattle.c_typing.specs.Names.{function_around};
ghost use Rattle.c_typing.specs.Places as places;
ghost use Rattle.c_typing.specs.Judgements as rules;
ghost use Rattle.c_typing.specs.Statements as statements;
ghost use Rattle.c_names.specs.Denoted.{places_in};
ghost use Rattle.c_locals.specs.Locals.{AreOwners};
ghost use Rattle.c_type_ids.specs.Ids.{Names};
ghost use Rattle.c_meanings.specs.Meanings.{IsReady, IsRow, judged_to, node_in};
ghost use Rattle.c_statement_rows.specs.Returns.{as_performed, id_alone};

use c_answers::Refusal;
use c_judgements::Judged;
use c_meanings::Meanings;
use c_nodes::Nodes;
use c_statements::{return_nothing, return_value};
use c_type_ids::{Kind, TypeTable};
use c_types::{Stmts, TypeId};
use c_values::Type;
use std::alloc::Global;

/// `return`; for each node, the function that it stands in is given.
pub fn return_from(
    alloc: Global,
    nodes: &Nodes,
    node: usize,
    functions: &[usize],
    meanings: &mut Meanings,
) -> Result<Judged, Refusal>
    requires within { node < length nodes.now }
    requires kind { (node_in nodes.now node).label.kind ≡ kind.Return }
    requires functions { AreOwners nodes.now functions.now }
    requires ready { IsReady nodes.now node 0 meanings.old }
    ensures { IsRow nodes.now node meanings.old meanings.new result }
{
    let Some(gives) = result_at(nodes, node, functions, meanings) else {
        return Ok(Judged::Waits);
    };
    if !nodes.has_kid(node, 0) {
        return settled(return_nothing(alloc, &meanings.types, gives, node));
    }
    if meanings.operand_at(nodes, node, 0).is_none() {
        return Ok(Judged::Waits);
    }
    let value = meanings.take_value(alloc, nodes, node, 0)?;
    settled(return_value(
        alloc,
        &meanings.types,
        gives,
        value,
        nodes.kid(node, 0),
        node,
    ))
}

fn settled(found: Result<Stmts, Refusal>) -> Result<Judged, Refusal>
    ensures { result ≡ as_performed found }
{
    match found {
        Ok(code) => Ok(Judged::Performs(code)),
        Err(refusal) => Err(refusal),
    }
}

// The type that the function around a `return` gives, where its declarator has a type.
fn result_at(nodes: &Nodes, node: usize, functions: &[usize], meanings: &Meanings) -> Option<TypeId>
    requires within { node < length nodes.now }
    requires kind { (node_in nodes.now node).label.kind ≡ kind.Return }
    requires functions { AreOwners nodes.now functions.now }
    requires ready { IsReady nodes.now node 0 meanings.now }
    ensures { MatchOption result (rules.type_at (judged_to nodes.now node) (places.kid (function_around (places_in nodes.now) node) 1) ≡ None)
        (λ id. (t : CType) × (rules.type_at (judged_to nodes.now node) (places.kid (function_around (places_in nodes.now) node) 1) ≡ Some t) × Names meanings.now.types id (statements.result_type_of t)) }
{
    let Some(id) = declared_at(nodes, node, functions, meanings) else {
        return None;
    };
    Some(result_of(&meanings.types, id))
}

// The type of the function around a `return`.
fn declared_at(
    nodes: &Nodes,
    node: usize,
    functions: &[usize],
    meanings: &Meanings,
) -> Option<TypeId>
    requires within { node < length nodes.now }
    requires kind { (node_in nodes.now node).label.kind ≡ kind.Return }
    requires functions { AreOwners nodes.now functions.now }
    requires ready { IsReady nodes.now node 0 meanings.now }
    ensures { MatchOption result (rules.type_at (judged_to nodes.now node) (places.kid (function_around (places_in nodes.now) node) 1) ≡ None)
        (λ id. (t : CType) × (rules.type_at (judged_to nodes.now node) (places.kid (function_around (places_in nodes.now) node) 1) ≡ Some t) × Names meanings.now.types id t) }
{
    let declarator = nodes.kid(at(functions, node), 1);
    let Some(kind) = meanings.judged.type_at(declarator) else {
        return None;
    };
    known_id(kind)
}

fn known_id(kind: Type) -> Option<TypeId>
    ensures { result ≡ id_alone kind }
{
    match kind {
        Type::Known(id) => Some(id),
        _ => None,
    }
}

fn at(functions: &[usize], node: usize) -> usize
    requires { node < length functions.now }
    ensures { result ≡ get_or functions.now node 0 }
{
    functions[node]
}

// What a function of this type gives; of another type, the type itself.
fn result_of(table: &TypeTable, id: TypeId) -> TypeId
    requires { (t : CType) × Names table.now id t }
    ensures { (t : CType) → Names table.now id t → Names table.now result (statements.result_type_of t) }
{
    match table.kind(id) {
        Kind::Function(gives) => gives,
        _ => id,
    }
}
