// Casts (C99 6.5.4).
ghost use Rattle.std.specs.Prelude.{◌≡◌, ◌<◌, length};
ghost use Rattle.c_syntax.specs.declared.kind.SynKind.TheVariants as kind;
ghost use Rattle.c_meanings.specs.Meanings.{IsReady, IsRow, node_in};

use c_answers::Refusal;
use c_judgements::Judged;
use c_meanings::{Meanings, expressed};
use c_nodes::Nodes;
use c_operations as operations;
use std::alloc::Global;

/// A cast.
pub fn cast(
    alloc: Global,
    nodes: &Nodes,
    node: usize,
    meanings: &mut Meanings,
) -> Result<Judged, Refusal>
    requires within { node < length nodes.now }
    requires kind { (node_in nodes.now node).label.kind ≡ kind.Cast }
    requires ready { IsReady nodes.now node 0 meanings.old }
    ensures { IsRow nodes.now node meanings.old meanings.new result }
{
    let Some(to) = meanings.type_at(nodes, node, 0) else {
        return Ok(Judged::Waits);
    };
    if meanings.operand_at(nodes, node, 1).is_none() {
        return Ok(Judged::Waits);
    }
    let value = meanings.take_value(alloc, nodes, node, 1)?;
    expressed(operations::cast(alloc, &meanings.types, node, to, value))
}
