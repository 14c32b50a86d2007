// Arrays as parts of declarators (C99 6.7.5.2).
ghost use Rattle.std.specs.Prelude.{◌≡◌, ◌<◌, List, [], codes, false, length};
ghost use Rattle.c_syntax.specs.declared.kind.SynKind.TheVariants as kind;
ghost use Rattle.c_typing.specs.Places as places;
ghost use Rattle.c_typing.specs.Places.{is_whole, node_at};
ghost use Rattle.c_typing.specs.Judgements as rules;
ghost use Rattle.c_typing.specs.Declarators.{is_given_by_initializer, is_parameter_length};
ghost use Rattle.c_nodes.specs.Parents.{nodes_in};
ghost use Rattle.c_nodes.specs.Declarators.{AreNext, AreWholes};
ghost use Rattle.c_names.specs.Denoted.{places_in};
ghost use Rattle.c_values.specs.Typings.{Is};
ghost use Rattle.c_type_ids.specs.Ids.{Known};
ghost use Rattle.c_declared_types.specs.Steps.{AreSteps};
ghost use Rattle.c_meanings.specs.Meanings.{IsAnswered, IsReady, IsRow, node_in};
ghost use Rattle.c_declarator_rows.specs.declared.arrays.ArrayPlace.TheVariants as places_of;
ghost use Rattle.c_declarator_rows.specs.Arrays as arrays;
ghost use Rattle.c_declarator_rows.specs.Arrays.{IsPlace};

use crate::parts::with_step;
use crate::said::is_word;
use c_answers::Refusal;
use c_declared_types::{Step, Steps, length_of};
use c_judgements::Judged;
use c_meanings::Meanings;
use c_nodes::{Nodes, owner_of};
use c_syntax::SynKind;
use c_type_ids::TypeTable;
use c_values::{Operand, Typing};
use std::alloc::Global;

/// What is asked of the length of an array.
#[derive(Clone, Copy)]
pub(crate) enum ArrayPlace {
    /// Nothing: it is outermost in the type of a parameter, which is a pointer.
    OfParameter,
    /// It may be given by an initializer.
    Initialized,
    Plain,
}

// What is asked of the length of the array of this node.
pub(crate) fn array_place(
    nodes: &Nodes,
    next: &[usize],
    wholes: &[usize],
    node: usize,
) -> ArrayPlace
    requires within { node < length nodes.now }
    requires next { AreNext nodes.now next.now }
    requires wholes { AreWholes nodes.now wholes.now }
    ensures { IsPlace result (is_parameter_length (places_in nodes.now) (node_in nodes.now node)) (is_given_by_initializer (places_in nodes.now) (node_in nodes.now node)) }
{
    if !is_next_to_name(nodes, next, node) {
        return ArrayPlace::Plain;
    }
    let owner = owner_of(nodes, wholes, nodes.first(node));
    match nodes.kind_at(owner) {
        SynKind::Param => ArrayPlace::OfParameter,
        SynKind::InitDecl => initialized_place(nodes, owner),
        _ => ArrayPlace::Plain,
    }
}

// The node is next to its name.
fn is_next_to_name(nodes: &Nodes, next: &[usize], node: usize) -> bool
    requires within { node < length nodes.now }
    requires next { AreNext nodes.now next.now }
    ensures { result ≡ places.is_next_to_name (nodes_in nodes.now) (node_in nodes.now node) }
{
    next[nodes.first(node)] == node
}

// The array of a declarator with this owner.
fn initialized_place(nodes: &Nodes, owner: usize) -> ArrayPlace
    requires within { owner < length nodes.now }
    requires kind { (node_in nodes.now owner).label.kind ≡ kind.InitDecl }
    ensures { result ≡ arrays.place_by (arrays.may_give (nodes_in nodes.now) (node_in nodes.now owner)) }
{
    if nodes.has_kid(owner, 1) && !says_typedef(nodes, first_kid(nodes, nodes.parent(owner))) {
        ArrayPlace::Initialized
    } else {
        ArrayPlace::Plain
    }
}

// The first kid of a node; where there is none, the first node.
fn first_kid(nodes: &Nodes, node: usize) -> usize
    ensures { result ≡ places.kid (node_at (nodes_in nodes.now) node) 0 }
{
    if node < nodes.len() {
        nodes.kid(node, 0)
    } else {
        0
    }
}

// Specs have the word `typedef`.
fn says_typedef(nodes: &Nodes, specs: usize) -> bool
    ensures { result ≡ places.says (nodes_in nodes.now) (codes "typedef") (node_at (nodes_in nodes.now) specs) }
{
    specs < nodes.len() && has_word(nodes, specs, "typedef")
}

// A kid of the node is this word.
fn has_word(nodes: &Nodes, node: usize, word: &str) -> bool
    requires { node < length nodes.now }
    ensures { result ≡ places.says (nodes_in nodes.now) word.now (node_at (nodes_in nodes.now) node) }
{
    for kid in nodes.kids(node) {
        if is_word(nodes.kind_at(kid.number)) && nodes.node(kid.number).text.as_slice() == word {
            return true;
        }
    }
    false
}

/// An array as a part of a declarator.
pub fn array_part(
    alloc: Global,
    nodes: &Nodes,
    node: usize,
    next: &[usize],
    wholes: &[usize],
    meanings: &mut Meanings,
) -> Result<Judged, Refusal>
    requires within { node < length nodes.now }
    requires kind { (node_in nodes.now node).label.kind ≡ kind.ArrayOf }
    requires part { is_whole (nodes_in nodes.now) (node_in nodes.now node) ≡ false }
    requires next { AreNext nodes.now next.now }
    requires wholes { AreWholes nodes.now wholes.now }
    requires ready { IsReady nodes.now node 0 meanings.old }
    ensures { IsRow nodes.now node meanings.old meanings.new result }
{
    let Some(steps) = meanings.take_steps(nodes, node) else {
        return Ok(Judged::Waits);
    };
    let place = array_place(nodes, next, wholes, node);
    if !nodes.has_kid(node, 1) {
        return uncounted(alloc, node, place, steps);
    }
    match meanings.operand_at(nodes, node, 1) {
        Some(length) => counted(
            &meanings.types,
            node,
            place,
            steps,
            length,
            nodes.kid(node, 1),
        ),
        None => Ok(Judged::Waits),
    }
}

// An array without a length between its brackets.
fn uncounted(alloc: Global, node: usize, place: ArrayPlace, steps: Steps) -> Result<Judged, Refusal>
    ensures { (k : Known) (ss : List rules.PlacedStep) → AreSteps k steps ss → (place ≡ places_of.Initialized → ss ≡ []) → IsAnswered k result (arrays.uncounted node ss place) }
{
    match place {
        ArrayPlace::OfParameter => with_step(steps, node, Step::OfParameter),
        ArrayPlace::Initialized => Ok(Judged::Steps(Steps::without_length(alloc, node))),
        ArrayPlace::Plain => Err(Refusal::Broken { rule: 7, node }),
    }
}

// An array with a length, which stands at a node of its own.
fn counted(
    table: &TypeTable,
    node: usize,
    place: ArrayPlace,
    steps: Steps,
    length: &Typing,
    length_node: usize,
) -> Result<Judged, Refusal>
    requires { (x : rules.Typing) × Is table.now length.now x }
    ensures { (ss : List rules.PlacedStep) (x : rules.Typing) → AreSteps table.now steps ss → Is table.now length.now x → IsAnswered table.now result (arrays.counted node ss x length_node place) }
{
    if matches!(place, ArrayPlace::OfParameter) {
        return with_step(steps, node, Step::OfParameter);
    }
    match length_of(table, operand_of(length), length_node, node) {
        Ok(count) => with_step(steps, node, Step::OfArray(count)),
        Err(refusal) => Err(refusal),
    }
}

pub(crate) fn operand_of(typing: &Typing) -> Operand
    ensures { result ≡ record { kind = typing.now.kind; constant = typing.now.constant } }
{
    Operand {
        kind: typing.kind,
        constant: typing.constant,
    }
}
