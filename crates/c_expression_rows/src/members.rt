// Members of structs (C99 6.5.2.3).
ghost use Rattle.std.specs.Prelude.{◌≡◌, ◌<◌, length, is_some};
ghost use Rattle.c_syntax.specs.declared.kind.SynKind.TheVariants as kind;
ghost use Rattle.c_meanings.specs.Meanings.{IsReady, IsRow, node_in};

use c_answers::Refusal;
use c_judgements::Judged;
use c_meanings::{Meanings, expressed};
use c_nodes::Nodes;
use c_places as places;
use std::alloc::Global;

/// A member of a struct.
pub fn dot(
    alloc: Global,
    nodes: &Nodes,
    node: usize,
    meanings: &mut Meanings,
) -> Result<Judged, Refusal>
    requires within { node < length nodes.now }
    requires kind { (node_in nodes.now node).label.kind ≡ kind.Dot }
    requires ready { IsReady nodes.now node 0 meanings.old }
    ensures { IsRow nodes.now node meanings.old meanings.new result }
{
    if meanings.operand_at(nodes, node, 0).is_none() {
        return Ok(Judged::Waits);
    }
    let operand = meanings.take_operand(nodes, node, 0);
    let name = nodes.node(node).text.as_slice();
    expressed(places::dot(alloc, &meanings.types, node, operand, name))
}

/// A member of a struct that a pointer points to.
pub fn arrow(
    alloc: Global,
    nodes: &Nodes,
    node: usize,
    meanings: &mut Meanings,
) -> Result<Judged, Refusal>
    requires within { node < length nodes.now }
    requires kind { (node_in nodes.now node).label.kind ≡ kind.Arrow }
    requires ready { IsReady nodes.now node 0 meanings.old }
    ensures { IsRow nodes.now node meanings.old meanings.new result }
{
    if meanings.operand_at(nodes, node, 0).is_none() {
        return Ok(Judged::Waits);
    }
    let operand = meanings.take_operand(nodes, node, 0);
    let name = nodes.node(node).text.as_slice();
    expressed(places::arrow(alloc, &mut meanings.types, node, operand, name))
}
