// Enums, and structs without a body (C99 6.7.2.2, 6.7.2.3).
ghost use Rattle.std.specs.Prelude.{◌≡◌, ◌<◌, ◌≤◌, List, None, false, get_or, length, map};
ghost use Rattle.std.specs.Option.{is_some};
ghost use Rattle.c_syntax.specs.declared.kind.SynKind.TheVariants as kind;
ghost use Rattle.c_typing.specs.Places.{has_kid};
ghost use Rattle.c_typing.specs.Judgements as rules;
ghost use Rattle.c_typing.specs.Judgements.{all_of, judgement_at};
ghost use Rattle.c_typing.specs.Expressions.{word_of_enumerator};
ghost use Rattle.c_judgements.specs.Judged.{AreJudged};
ghost use Rattle.c_tags.specs.Tags.{AreTags};
ghost use Rattle.c_meanings.specs.Meanings.{IsReady, IsRow, node_in, slots_of};
ghost use Rattle.c_declarator_rows.specs.Tagged as tagged;

use c_answers::Refusal;
use c_judgements::Judged;
use c_meanings::Meanings;
use c_nodes::Nodes;
use c_tags::{Tag, is_known_enum, names_of, stands_twice};
use c_type_ids::Integer;
use c_types::TypeId;
use c_values::Type;
use std::alloc::AllocError;

/// An enum, with its enumerators or without.
pub fn enumeration(
    nodes: &Nodes,
    node: usize,
    tags: &[Option<Tag>],
    meanings: &mut Meanings,
) -> Result<Judged, Refusal>
    requires within { node < length nodes.now }
    requires kind { (node_in nodes.now node).label.kind ≡ kind.EnumSpec }
    requires tags { AreTags nodes.now tags.now }
    requires ready { IsReady nodes.now node 0 meanings.old }
    ensures { IsRow nodes.now node meanings.old meanings.new result }
{
    let tag = tag_at(tags, node);
    if !is_known_enum(nodes.has_kid(node, 0), tag) {
        return Err(Refusal::Broken { rule: 4, node });
    }
    if stands_twice(tag) {
        return Err(Refusal::Broken { rule: 3, node });
    }
    if !are_enumerators(nodes, node, meanings) {
        return Ok(Judged::Waits);
    }
    made(meanings.types.integer(Integer::Int))
}

/// A struct without a body.
pub fn struct_reference(
    nodes: &Nodes,
    node: usize,
    tags: &[Option<Tag>],
    meanings: &mut Meanings,
) -> Result<Judged, Refusal>
    requires within { node < length nodes.now }
    requires kind { (node_in nodes.now node).label.kind ≡ kind.StructSpec }
    requires bodiless { has_kid (node_in nodes.now node) 0 ≡ false }
    requires tags { AreTags nodes.now tags.now }
    requires ready { IsReady nodes.now node 0 meanings.old }
    ensures { IsRow nodes.now node meanings.old meanings.new result }
{
    let tag = tag_at(tags, node);
    if stands_twice(tag) {
        return Err(Refusal::Broken { rule: 3, node });
    }
    made(meanings.types.structure(names_of(node, tag)))
}

fn tag_at(tags: &[Option<Tag>], node: usize) -> Option<Tag>
    requires { node < length tags.now }
    ensures { result ≡ get_or tags.now node None }
{
    tags[node]
}

// All kids of a node are enumerators with a value.
fn are_enumerators(nodes: &Nodes, node: usize, meanings: &Meanings) -> bool
    requires within { node < length nodes.now }
    requires judged { node ≤ length (slots_of meanings.now) }
    ensures { (js : List rules.Judgement) → AreJudged meanings.now.types (slots_of meanings.now) js →
        result ≡ is_some (all_of (map (λ n. word_of_enumerator (judgement_at js n)) (node_in nodes.now node).kids)) }
{
    let kids = nodes.kids(node);
    for kid in kids {
        if meanings.judged.word_at(kid.number).is_none() {
            return false;
        }
    }
    true
}

// A type that is made.
fn made(found: Result<TypeId, AllocError>) -> Result<Judged, Refusal>
    ensures { result ≡ tagged.as_made found }
{
    match found {
        Ok(id) => Ok(Judged::Type(Type::Known(id))),
        Err(_) => Err(Refusal::OutOfMemory),
    }
}
