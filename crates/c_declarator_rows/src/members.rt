// Declarations of members (C99 6.7.2.1).
ghost use Rattle.std.specs.Prelude.{◌≡◌, ◌<◌, ◌≤◌, ◌++◌, ◌∷◌, [], List, OnOk, IfOk, length, map};
ghost use Rattle.std.specs.List.{AllByRecursion};
ghost use Rattle.c_syntax.specs.declared.kind.SynKind.TheVariants as kind;
ghost use Rattle.c_types.specs.declared.kind.TypeId.{TypeId};
ghost use Rattle.c_typing.specs.Types.{CType, Field};
ghost use Rattle.c_typing.specs.Places.{node_at, numbers, text_at};
ghost use Rattle.c_typing.specs.Places as places;
ghost use Rattle.c_typing.specs.Judgements as rules;
ghost use Rattle.c_typing.specs.Judgements.{all_of};
ghost use Rattle.c_typing.specs.Declarators.{member_at};
ghost use Rattle.c_nodes.specs.Parents.{IsWithin, nodes_in};
ghost use Rattle.c_names.specs.Denoted.{places_in};
ghost use Rattle.c_type_ids.specs.Ids.{AreMembers};
ghost use Rattle.c_judgements.specs.Judged.{AreJudged};
ghost use Rattle.c_meanings.specs.Meanings.{IsReady, IsRow, node_in, slots_of};
ghost use Rattle.c_declarator_rows.specs.Lengths as lengths;
ghost use Rattle.c_declarator_rows.specs.Lengths.{FindsAll, FindsId, HasLengthAt, KidsHaveLengths, as_members};

use c_answers::Refusal;
use c_judgements::{Judged, Members};
use c_meanings::Meanings;
use c_nodes::Nodes;
use c_syntax::SynId;
use c_types::TypeId;
use c_values::Type;
use cp_base::{Items, Name};
use std::alloc::{AllocError, Global};

/// A declaration of members.
pub fn member(
    alloc: Global,
    nodes: &Nodes,
    node: usize,
    meanings: &Meanings,
) -> Result<Judged, Refusal>
    requires within { node < length nodes.now }
    requires kind { (node_in nodes.now node).label.kind ≡ kind.Member }
    requires ready { IsReady nodes.now node 0 meanings.now }
    ensures { IsRow nodes.now node meanings.now meanings.now result }
{
    joined(all_members(alloc, nodes, node, meanings))
}

fn joined(found: Result<Option<Members>, AllocError>) -> Result<Judged, Refusal>
    ensures { result ≡ as_members found }
{
    match found {
        Ok(Some(members)) => Ok(Judged::Members(members)),
        Ok(None) => Ok(Judged::Waits),
        Err(_) => Err(Refusal::OutOfMemory),
    }
}

// The members that the kids of a node but for the first declare; none where one of them has no type.
fn all_members(
    alloc: Global,
    nodes: &Nodes,
    node: usize,
    meanings: &Meanings,
) -> Result<Option<Members>, AllocError>
    requires within { node < length nodes.now }
    requires judged { node ≤ length (slots_of meanings.now) }
    ensures { IfOk result (λ found. (js : List rules.Judgement) → AreJudged meanings.now.types (slots_of meanings.now) js → KidsHaveLengths js (places.other_kids (node_in nodes.now node)) →
        FindsAll meanings.now.types found (all_of (map (member_at (places_in nodes.now) js) (places.other_kids (node_in nodes.now node))))) }
{
    let mut members = Items::new(alloc);
    let kids = other_kids(nodes, node);
    for kid in kids {
        let Some(id) = id_at(meanings, kid.number) else {
            return Ok(None);
        };
        push_member(alloc, nodes, kid.number, id, &mut members)?;
    }
    Ok(Some(members))
}

// The kids of a node but for the first.
pub(crate) fn other_kids<'a>(nodes: &'a Nodes, node: usize) -> &'a [SynId]
    requires { node < length nodes.now }
    ensures are { numbers result.now ≡ places.other_kids (node_in nodes.now node) }
    ensures before { IsWithin node result.now }
{
    match nodes.kids(node) {
        [_, others @ ..] => others,
        [] => &[],
    }
}

// The type that a node has, where no array in it is without a length.
pub(crate) fn id_at(meanings: &Meanings, node: usize) -> Option<TypeId>
    requires { node < length (slots_of meanings.now) }
    ensures { (js : List rules.Judgement) → AreJudged meanings.now.types (slots_of meanings.now) js → HasLengthAt js node → FindsId meanings.now.types result (rules.type_at js node) }
{
    let Some(kind) = meanings.judged.type_at(node) else {
        return None;
    };
    known_id(kind)
}

fn known_id(kind: Type) -> Option<TypeId>
    ensures { result ≡ lengths.known_id kind }
{
    match kind {
        Type::Known(id) => Some(id),
        _ => None,
    }
}

// One more member, by its declarator.
fn push_member(
    alloc: Global,
    nodes: &Nodes,
    declarator: usize,
    id: TypeId,
    members: &mut Members,
) -> Result<(), AllocError>
    requires { declarator < length nodes.now }
    ensures { OnOk result (members.new ≡ members.old ++ (text_at (nodes_in nodes.now) (node_at (nodes_in nodes.now) declarator).first, id) ∷ []) }
{
    let name = copied(alloc, nodes.node(nodes.first(declarator)).text.as_slice())?;
    members.push((name, id))
}

fn copied(alloc: Global, text: &str) -> Result<Name, AllocError>
    ensures { IfOk result (λ name. name ≡ text.now) }
{
    let mut name = Name::new(alloc);
    name.push_all(text)?;
    Ok(name)
}
