// String literals (C99 6.4.5; 6.7.8, 14).
ghost use Rattle.std.specs.Prelude.{◌≡◌, ◌<◌, ◌+◌, length};
ghost use Rattle.c_syntax.specs.declared.kind.SynKind.TheVariants as kind;
ghost use Rattle.c_typing.specs.Names.{objects_of};
ghost use Rattle.c_typing.specs.Expressions.{literals_before};
ghost use Rattle.c_typing.specs.Initializers as initializers;
ghost use Rattle.c_typing.specs.Initializers.{target};
ghost use Rattle.c_names.specs.Denoted.{places_in};
ghost use Rattle.c_meanings.specs.Meanings.{IsReady, IsRow, judged_to, node_in};

use c_answers::Refusal;
use c_judgements::Judged;
use c_meanings::{Meanings, expressed};
use c_nodes::Nodes;
use c_places::literal;

/// A string literal. It initializes an array where `fills`, and else is the object of this number.
pub fn string(
    nodes: &Nodes,
    node: usize,
    fills: bool,
    number: usize,
    meanings: &mut Meanings,
) -> Result<Judged, Refusal>
    requires within { node < length nodes.now }
    requires kind { (node_in nodes.now node).label.kind ≡ kind.Str }
    requires fills { fills ≡ initializers.fills (target (places_in nodes.now) (judged_to nodes.now node) node) }
    requires number { length (objects_of (places_in nodes.now)) + literals_before (places_in nodes.now) (judged_to nodes.now node) ≡ number }
    requires ready { IsReady nodes.now node 0 meanings.old }
    ensures { IsRow nodes.now node meanings.old meanings.new result }
{
    if fills {
        return Ok(Judged::FillsArray);
    }
    let bytes = nodes.node(node).bytes.as_slice().len();
    expressed(literal(&mut meanings.types, node, bytes, number))
}
