// Assignments by `=` (C99 6.5.16.1).
ghost use Rattle.std.specs.Prelude.{◌≡◌, ◌<◌, length};
ghost use Rattle.c_syntax.specs.declared.kind.SynKind.TheVariants as kind;
ghost use Rattle.c_meanings.specs.Meanings.{IsReady, IsRow, node_in};

use crate::operands::are_operands;
use c_answers::Refusal;
use c_assignments as assignments;
use c_judgements::Judged;
use c_meanings::{Meanings, expressed};
use c_nodes::Nodes;
use std::alloc::Global;

/// The value of the right operand is written to the left one; the text of the operator is `=` alone.
pub fn assignment(
    alloc: Global,
    nodes: &Nodes,
    node: usize,
    meanings: &mut Meanings,
) -> Result<Judged, Refusal>
    requires within { node < length nodes.now }
    requires kind { (node_in nodes.now node).label.kind ≡ kind.Assign }
    requires text { length (node_in nodes.now node).label.text ≡ 1 }
    requires ready { IsReady nodes.now node 0 meanings.old }
    ensures { IsRow nodes.now node meanings.old meanings.new result }
{
    if !are_operands(nodes, node, meanings) {
        return Ok(Judged::Waits);
    }
    let left = meanings.take_operand(nodes, node, 0);
    let right = meanings.take_value(alloc, nodes, node, 1)?;
    expressed(assignments::assignment(
        alloc,
        &meanings.types,
        node,
        nodes.kid(node, 1),
        left,
        right,
    ))
}
