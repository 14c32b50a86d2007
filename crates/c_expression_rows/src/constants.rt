// Constants of integer types (C99 6.4.4).
ghost use Rattle.std.specs.Prelude.{◌≡◌, ◌<◌, length};
ghost use Rattle.c_syntax.specs.declared.kind.SynKind.TheVariants as kind;
ghost use Rattle.c_meanings.specs.Meanings.{IsReady, IsRow, node_in};

use c_answers::Refusal;
use c_judgements::Judged;
use c_lexer::IntType;
use c_meanings::{Meanings, expressed};
use c_nodes::Nodes;
use c_places::{int_constant, integer_constant};

/// An integer constant of this type.
pub fn integer(
    nodes: &Nodes,
    node: usize,
    of_type: IntType,
    meanings: &mut Meanings,
) -> Result<Judged, Refusal>
    requires within { node < length nodes.now }
    requires kind { (node_in nodes.now node).label.kind ≡ kind.Int of_type }
    requires ready { IsReady nodes.now node 0 meanings.old }
    ensures { IsRow nodes.now node meanings.old meanings.new result }
{
    expressed(integer_constant(&mut meanings.types, of_type, nodes.node(node).value))
}

/// A character constant.
pub fn character(nodes: &Nodes, node: usize, meanings: &mut Meanings) -> Result<Judged, Refusal>
    requires within { node < length nodes.now }
    requires kind { (node_in nodes.now node).label.kind ≡ kind.Char }
    requires ready { IsReady nodes.now node 0 meanings.old }
    ensures { IsRow nodes.now node meanings.old meanings.new result }
{
    expressed(int_constant(&mut meanings.types, nodes.node(node).value))
}
