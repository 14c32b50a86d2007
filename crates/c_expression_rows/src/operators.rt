// Operators of two operands (C99 6.5.5 to 6.5.14, 6.5.17).
ghost use Rattle.std.specs.Prelude.{◌≡◌, ◌<◌, length};
ghost use Rattle.c_syntax.specs.declared.kind.SynKind.TheVariants as kind;
ghost use Rattle.c_meanings.specs.Meanings.{IsReady, IsRow, node_in};

use crate::operands::{are_operands, take_values};
use c_answers::Refusal;
use c_judgements::Judged;
use c_meanings::{Meanings, expressed};
use c_nodes::Nodes;
use c_operations as operations;
use c_operations::binary_by;
use c_values::operator_of;
use std::alloc::Global;

/// An operator of two operands.
pub fn binary(
    alloc: Global,
    nodes: &Nodes,
    node: usize,
    meanings: &mut Meanings,
) -> Result<Judged, Refusal>
    requires within { node < length nodes.now }
    requires kind { (node_in nodes.now node).label.kind ≡ kind.Binary }
    requires ready { IsReady nodes.now node 0 meanings.old }
    ensures { IsRow nodes.now node meanings.old meanings.new result }
{
    let Some(operator) = operator_of(nodes.node(node).text.as_slice()) else {
        return Ok(Judged::Waits);
    };
    if !are_operands(nodes, node, meanings) {
        return Ok(Judged::Waits);
    }
    let (left, right) = take_values(alloc, nodes, node, meanings)?;
    expressed(binary_by(alloc, &mut meanings.types, node, operator, left, right))
}

/// Two expressions with a comma.
pub fn comma(
    alloc: Global,
    nodes: &Nodes,
    node: usize,
    meanings: &mut Meanings,
) -> Result<Judged, Refusal>
    requires within { node < length nodes.now }
    requires kind { (node_in nodes.now node).label.kind ≡ kind.Comma }
    requires ready { IsReady nodes.now node 0 meanings.old }
    ensures { IsRow nodes.now node meanings.old meanings.new result }
{
    if !are_operands(nodes, node, meanings) {
        return Ok(Judged::Waits);
    }
    let (left, right) = take_values(alloc, nodes, node, meanings)?;
    expressed(operations::comma(alloc, &meanings.types, left, right))
}
