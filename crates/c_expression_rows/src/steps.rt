// `++` and `--` (C99 6.5.2.4, 6.5.3.1).
ghost use Rattle.std.specs.Prelude.{◌≡◌, ◌<◌, ◌+◌, ◌^◌, length, true};
ghost use Rattle.c_syntax.specs.declared.kind.SynKind.TheVariants as kind;
ghost use Rattle.c_typing.specs.Expressions.{hidden_before};
ghost use Rattle.c_names.specs.Denoted.{places_in};
ghost use Rattle.c_meanings.specs.Meanings.{IsReady, IsRow, judged_to, node_in};
ghost use Rattle.c_expression_rows.specs.Texts.{is_step};

use c_answers::Refusal;
use c_assignments as assignments;
use c_judgements::Judged;
use c_meanings::{Meanings, expressed};
use c_nodes::Nodes;
use std::alloc::Global;

/// `++` or `--` before its operand; the first of its hidden locals has this number.
pub fn prefix_step(
    alloc: Global,
    nodes: &Nodes,
    node: usize,
    hidden: usize,
    meanings: &mut Meanings,
) -> Result<Judged, Refusal>
    requires within { node < length nodes.now }
    requires kind { (node_in nodes.now node).label.kind ≡ kind.Unary }
    requires text { is_step (node_in nodes.now node).label.text ≡ true }
    requires hidden { hidden_before (places_in nodes.now) (judged_to nodes.now node) ≡ hidden }
    requires ready { IsReady nodes.now node 0 meanings.old }
    ensures { IsRow nodes.now node meanings.old meanings.new result }
{
    if meanings.operand_at(nodes, node, 0).is_none() {
        return Ok(Judged::Waits);
    }
    let operand = meanings.take_operand(nodes, node, 0);
    let text = nodes.node(node).text.as_slice();
    expressed(assignments::prefix_step(alloc, &mut meanings.types, node, hidden, text, operand))
}

/// The same behind its operand, whose old value is the result.
pub fn postfix_step(
    alloc: Global,
    nodes: &Nodes,
    node: usize,
    hidden: usize,
    meanings: &mut Meanings,
) -> Result<Judged, Refusal>
    requires within { node < length nodes.now }
    requires kind { (node_in nodes.now node).label.kind ≡ kind.Post }
    requires hidden { hidden_before (places_in nodes.now) (judged_to nodes.now node) ≡ hidden }
    requires room { hidden + 1 < 2 ^ 64 }
    requires ready { IsReady nodes.now node 0 meanings.old }
    ensures { IsRow nodes.now node meanings.old meanings.new result }
{
    if meanings.operand_at(nodes, node, 0).is_none() {
        return Ok(Judged::Waits);
    }
    let operand = meanings.take_operand(nodes, node, 0);
    let text = nodes.node(node).text.as_slice();
    expressed(assignments::postfix_step(alloc, &mut meanings.types, node, hidden, text, operand))
}
