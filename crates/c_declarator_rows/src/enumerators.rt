// Enumerators (C99 6.7.2.2).
ghost use Rattle.std.specs.Prelude.{◌≡◌, ◌<◌, List, None, false, get_or, length, true};
ghost use Rattle.c_syntax.specs.declared.kind.SynKind.TheVariants as kind;
ghost use Rattle.c_typing.specs.Places as places;
ghost use Rattle.c_typing.specs.Places.{has_kid, node_at};
ghost use Rattle.c_typing.specs.Judgements as rules;
ghost use Rattle.c_typing.specs.Judgements.{judgement_at};
ghost use Rattle.c_typing.specs.Expressions.{word_of_enumerator};
ghost use Rattle.c_nodes.specs.Parents.{nodes_in};
ghost use Rattle.c_names.specs.Denoted.{IsDerived};
ghost use Rattle.c_names.specs.Names.{AreNames};
ghost use Rattle.c_names.specs.Earlier.{AreEarlier, none_before};
ghost use Rattle.c_type_ids.specs.Ids.{Grows};
ghost use Rattle.c_answers.specs.Answers.{Allows};
ghost use Rattle.c_judgements.specs.Judged.{AreJudged};
ghost use Rattle.c_judgements.specs.declared.judged.Judged.TheVariants as judged;
ghost use Rattle.c_meanings.specs.Meanings.{IsReady, IsRow, node_in, slots_of};
ghost use Rattle.c_declarator_rows.specs.Said.{as_answer};
ghost use Rattle.c_declarator_rows.specs.Enumerators.{IsValue, enumerator_names};

use crate::again::is_refused;
use crate::arrays::operand_of;
use crate::words::name_of;
use c_answers::Refusal;
use c_declared_types::{enumerator_after, enumerator_value, is_bad_library_name};
use c_judgements::Judged;
use c_meanings::Meanings;
use c_names::{DeclaredName, Earlier};
use c_nodes::Nodes;
use c_type_ids::{Integer, TypeTable};
use c_values::Type;
use std::alloc::Global;

/// An enumerator, with a value of its own or without.
pub fn enumerator(
    alloc: Global,
    nodes: &Nodes,
    node: usize,
    names: &[Option<DeclaredName>],
    earlier: &[Earlier],
    meanings: &mut Meanings,
) -> Result<Judged, Refusal>
    requires within { node < length nodes.now }
    requires kind { (node_in nodes.now node).label.kind ≡ kind.Enumer }
    requires names { AreNames nodes.now names.now }
    requires earlier { AreEarlier nodes.now earlier.now }
    requires ready { IsReady nodes.now node 0 meanings.old }
    ensures { IsRow nodes.now node meanings.old meanings.new result }
{
    let Some(value) = value_at(nodes, node, meanings) else {
        return Ok(Judged::Waits);
    };
    match check(alloc, nodes, node, names, earlier, &mut meanings.types) {
        Ok(()) => enumerated(value),
        Err(refusal) => Err(refusal),
    }
}

fn enumerated(value: Result<u32, Refusal>) -> Result<Judged, Refusal>
    ensures { result ≡ as_answer judged.Enumerates value }
{
    match value {
        Ok(word) => Ok(Judged::Enumerates(word)),
        Err(refusal) => Err(refusal),
    }
}

// The name of an enumerator may be declared.
fn check(
    alloc: Global,
    nodes: &Nodes,
    node: usize,
    names: &[Option<DeclaredName>],
    earlier: &[Earlier],
    table: &mut TypeTable,
) -> Result<(), Refusal>
    requires within { node < length nodes.now }
    requires long { length (nodes_in nodes.now) ≡ length nodes.now }
    requires derived { IsDerived nodes.now }
    requires names { AreNames nodes.now names.now }
    requires earlier { AreEarlier nodes.now earlier.now }
    ensures is { Allows result (enumerator_names nodes.now node) }
    ensures grows { Grows table.old table.new }
{
    let Some(name) = name_at(names, node) else {
        return Ok(());
    };
    let kind = Type::Known(table.integer(Integer::Int)?);
    let before = earlier_at(earlier, node);
    let last = name_of(before.last, names);
    if is_refused(nodes, table, name, kind, before.is_initialized, last, None) {
        return Err(Refusal::Broken { rule: 3, node });
    }
    let text = nodes.node(node).text.as_slice();
    if is_bad_library_name(alloc, table, text, false, kind)? {
        return Err(Refusal::Broken { rule: 23, node });
    }
    Ok(())
}

pub(crate) fn name_at(names: &[Option<DeclaredName>], node: usize) -> Option<DeclaredName>
    requires { node < length names.now }
    ensures { result ≡ get_or names.now node None }
{
    names[node]
}

pub(crate) fn earlier_at(earlier: &[Earlier], node: usize) -> Earlier
    requires { node < length earlier.now }
    ensures { result ≡ get_or earlier.now node none_before }
{
    earlier[node]
}

// The value of an enumerator; none where a part that it needs has no meaning.
fn value_at(nodes: &Nodes, node: usize, meanings: &Meanings) -> Option<Result<u32, Refusal>>
    requires within { node < length nodes.now }
    requires kind { (node_in nodes.now node).label.kind ≡ kind.Enumer }
    requires ready { IsReady nodes.now node 0 meanings.now }
    ensures { IsValue nodes.now node result }
{
    if nodes.has_kid(node, 0) {
        own_value(nodes, node, meanings)
    } else {
        next_value(nodes, node, meanings)
    }
}

fn own_value(nodes: &Nodes, node: usize, meanings: &Meanings) -> Option<Result<u32, Refusal>>
    requires within { node < length nodes.now }
    requires kind { (node_in nodes.now node).label.kind ≡ kind.Enumer }
    requires own { has_kid (node_in nodes.now node) 0 ≡ true }
    requires ready { IsReady nodes.now node 0 meanings.now }
    ensures { IsValue nodes.now node result }
{
    let Some(operand) = meanings.operand_at(nodes, node, 0) else {
        return None;
    };
    Some(enumerator_value(&meanings.types, operand_of(operand), nodes.kid(node, 0)))
}

// One more than that of the enumerator before it, or 0.
fn next_value(nodes: &Nodes, node: usize, meanings: &Meanings) -> Option<Result<u32, Refusal>>
    requires within { node < length nodes.now }
    requires kind { (node_in nodes.now node).label.kind ≡ kind.Enumer }
    requires next { has_kid (node_in nodes.now node) 0 ≡ false }
    requires ready { IsReady nodes.now node 0 meanings.now }
    ensures { IsValue nodes.now node result }
{
    let index = nodes.index(node);
    if index == 0 {
        return Some(enumerator_after(None, node));
    }
    let Some(word) = known_word(meanings, kid_of(nodes, nodes.parent(node), index - 1)) else {
        return None;
    };
    Some(enumerator_after(Some(word), node))
}

// The kid of this index of a node; where there is none, the first node.
fn kid_of(nodes: &Nodes, node: usize, index: usize) -> usize
    ensures { result ≡ places.kid (node_at (nodes_in nodes.now) node) index }
{
    if node < nodes.len() {
        nodes.kid(node, index)
    } else {
        0
    }
}

// The value of an enumerator that has been judged.
fn known_word(meanings: &Meanings, node: usize) -> Option<u32>
    ensures { (js : List rules.Judgement) → AreJudged meanings.now.types (slots_of meanings.now) js → result ≡ word_of_enumerator (judgement_at js node) }
{
    if node < meanings.judged.slots.len() {
        meanings.judged.word_at(node)
    } else {
        None
    }
}
