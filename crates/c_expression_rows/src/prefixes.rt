// Operators before their operand, but for `++` and `--` (C99 6.5.3.2, 6.5.3.3).
ghost use Rattle.std.specs.Prelude.{◌≡◌, ◌<◌, length, is_some, true, false};
ghost use Rattle.c_syntax.specs.declared.kind.SynKind.TheVariants as kind;
ghost use Rattle.c_typing.specs.Judgements.{typing_at};
ghost use Rattle.c_typing.specs.Conversions.{value_of};
ghost use Rattle.c_typing.specs.Expressions as productions;
ghost use Rattle.c_typing.specs.Typing.{with_operand};
ghost use Rattle.c_meanings.specs.Meanings.{IsReady, IsRow, judged_at, judged_to, kid_in, node_in};
ghost use Rattle.c_expression_rows.specs.Texts.{is_step};

use c_answers::Refusal;
use c_judgements::Judged;
use c_meanings::{Meanings, expressed};
use c_nodes::Nodes;
use c_operations::{not_operator, sign_operator};
use c_places as places;
use c_places::address_operator;
use std::alloc::Global;

/// An operator before its operand, but for `++` and `--`.
pub fn unary(
    alloc: Global,
    nodes: &Nodes,
    node: usize,
    meanings: &mut Meanings,
) -> Result<Judged, Refusal>
    requires within { node < length nodes.now }
    requires kind { (node_in nodes.now node).label.kind ≡ kind.Unary }
    requires text { is_step (node_in nodes.now node).label.text ≡ false }
    requires ready { IsReady nodes.now node 0 meanings.old }
    ensures { IsRow nodes.now node meanings.old meanings.new result }
{
    if meanings.operand_at(nodes, node, 0).is_none() {
        return Ok(Judged::Waits);
    }
    match nodes.node(node).text.as_slice() {
        "&" => address(nodes, node, meanings),
        "*" => target(alloc, nodes, node, meanings),
        "!" => not(alloc, nodes, node, meanings),
        _ => sign(alloc, nodes, node, meanings),
    }
}

// `&`
fn address(nodes: &Nodes, node: usize, meanings: &mut Meanings) -> Result<Judged, Refusal>
    requires within { node < length nodes.now }
    requires kind { (node_in nodes.now node).label.kind ≡ kind.Unary }
    requires ready { IsReady nodes.now node 0 meanings.old }
    requires there { is_some (typing_at (judged_to nodes.now node) (kid_in nodes.now node 0)) ≡ true }
    requires is { judged_at nodes.now node ≡ with_operand (judged_to nodes.now node) (node_in nodes.now node) (productions.address_operator (node_in nodes.now node)) }
    ensures { IsRow nodes.now node meanings.old meanings.new result }
{
    let operand = meanings.take_operand(nodes, node, 0);
    expressed(address_operator(&mut meanings.types, node, operand))
}

// `*`
fn target(
    alloc: Global,
    nodes: &Nodes,
    node: usize,
    meanings: &mut Meanings,
) -> Result<Judged, Refusal>
    requires within { node < length nodes.now }
    requires kind { (node_in nodes.now node).label.kind ≡ kind.Unary }
    requires ready { IsReady nodes.now node 0 meanings.old }
    requires there { is_some (typing_at (judged_to nodes.now node) (kid_in nodes.now node 0)) ≡ true }
    requires is { judged_at nodes.now node ≡ with_operand (judged_to nodes.now node) (node_in nodes.now node) (λ x. productions.dereference (judged_to nodes.now node) (node_in nodes.now node) (value_of x).type (value_of x)) }
    ensures { IsRow nodes.now node meanings.old meanings.new result }
{
    let operand = meanings.take_operand(nodes, node, 0);
    expressed(places::dereference(alloc, &mut meanings.types, node, operand))
}

// `!`
fn not(
    alloc: Global,
    nodes: &Nodes,
    node: usize,
    meanings: &mut Meanings,
) -> Result<Judged, Refusal>
    requires within { node < length nodes.now }
    requires kind { (node_in nodes.now node).label.kind ≡ kind.Unary }
    requires ready { IsReady nodes.now node 0 meanings.old }
    requires there { is_some (typing_at (judged_to nodes.now node) (kid_in nodes.now node 0)) ≡ true }
    requires is { judged_at nodes.now node ≡ with_operand (judged_to nodes.now node) (node_in nodes.now node) (λ x. productions.not_operator (node_in nodes.now node) (value_of x)) }
    ensures { IsRow nodes.now node meanings.old meanings.new result }
{
    let value = meanings.take_value(alloc, nodes, node, 0)?;
    expressed(not_operator(alloc, &mut meanings.types, node, value))
}

// `+`, `-` or `~`
fn sign(
    alloc: Global,
    nodes: &Nodes,
    node: usize,
    meanings: &mut Meanings,
) -> Result<Judged, Refusal>
    requires within { node < length nodes.now }
    requires kind { (node_in nodes.now node).label.kind ≡ kind.Unary }
    requires ready { IsReady nodes.now node 0 meanings.old }
    requires there { is_some (typing_at (judged_to nodes.now node) (kid_in nodes.now node 0)) ≡ true }
    requires is { judged_at nodes.now node ≡ with_operand (judged_to nodes.now node) (node_in nodes.now node) (λ x. productions.sign_operator (node_in nodes.now node) (value_of x)) }
    ensures { IsRow nodes.now node meanings.old meanings.new result }
{
    let value = meanings.take_value(alloc, nodes, node, 0)?;
    let text = nodes.node(node).text.as_slice();
    expressed(sign_operator(alloc, &mut meanings.types, node, text, value))
}
