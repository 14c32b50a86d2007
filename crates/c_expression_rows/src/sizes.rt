// `sizeof` (C99 6.5.3.4).
ghost use Rattle.std.specs.Prelude.{◌≡◌, ◌<◌, length, is_some};
ghost use Rattle.c_syntax.specs.declared.kind.SynKind.TheVariants as kind;
ghost use Rattle.c_meanings.specs.Meanings.{IsReady, IsRow, node_in};

use c_answers::Refusal;
use c_judgements::Judged;
use c_meanings::{Meanings, expressed};
use c_nodes::Nodes;
use c_operations::measured_type;

/// `sizeof` of an expression, which is not evaluated.
pub fn size_of_expression(
    nodes: &Nodes,
    node: usize,
    meanings: &mut Meanings,
) -> Result<Judged, Refusal>
    requires within { node < length nodes.now }
    requires kind { (node_in nodes.now node).label.kind ≡ kind.SizeExpr }
    requires ready { IsReady nodes.now node 0 meanings.old }
    ensures { IsRow nodes.now node meanings.old meanings.new result }
{
    let Some(operand) = meanings.operand_at(nodes, node, 0) else {
        return Ok(Judged::Waits);
    };
    let kind = operand.kind;
    expressed(measured_type(&mut meanings.types, kind, nodes.kid(node, 0)))
}

/// `sizeof` of a name of a type.
pub fn size_of_type(nodes: &Nodes, node: usize, meanings: &mut Meanings) -> Result<Judged, Refusal>
    requires within { node < length nodes.now }
    requires kind { (node_in nodes.now node).label.kind ≡ kind.SizeType }
    requires ready { IsReady nodes.now node 0 meanings.old }
    ensures { IsRow nodes.now node meanings.old meanings.new result }
{
    let Some(kind) = meanings.type_at(nodes, node, 0) else {
        return Ok(Judged::Waits);
    };
    expressed(measured_type(&mut meanings.types, kind, nodes.kid(node, 0)))
}
