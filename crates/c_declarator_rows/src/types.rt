// Names of types, and parameters (C99 6.7.6, 6.7.5.3).
ghost use Rattle.std.specs.Prelude.{◌≡◌, ◌<◌, length};
ghost use Rattle.c_syntax.specs.declared.kind.SynKind.TheVariants as kind;
ghost use Rattle.c_meanings.specs.Meanings.{IsReady, IsRow, node_in};

use crate::answers::{as_declared, as_type};
use c_answers::Refusal;
use c_judgements::Judged;
use c_meanings::Meanings;
use c_nodes::Nodes;

/// A name of a type.
pub fn type_name(nodes: &Nodes, node: usize, meanings: &Meanings) -> Result<Judged, Refusal>
    requires within { node < length nodes.now }
    requires kind { (node_in nodes.now node).label.kind ≡ kind.TypeName }
    requires ready { IsReady nodes.now node 0 meanings.now }
    ensures { IsRow nodes.now node meanings.now meanings.now result }
{
    Ok(as_type(meanings.type_at(nodes, node, 1)))
}

/// A parameter.
pub fn parameter(nodes: &Nodes, node: usize, meanings: &Meanings) -> Result<Judged, Refusal>
    requires within { node < length nodes.now }
    requires kind { (node_in nodes.now node).label.kind ≡ kind.Param }
    requires ready { IsReady nodes.now node 0 meanings.now }
    ensures { IsRow nodes.now node meanings.now meanings.now result }
{
    Ok(as_declared(meanings.type_at(nodes, node, 1)))
}
