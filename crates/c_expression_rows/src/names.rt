// Names that are used (C99 6.5.1).
ghost use Rattle.std.specs.Prelude.{◌≡◌, ◌<◌, length};
ghost use Rattle.c_syntax.specs.declared.kind.SynKind.TheVariants as kind;
ghost use Rattle.c_typing.specs.Names as rules;
ghost use Rattle.c_typing.specs.Names.{Name};
ghost use Rattle.c_typing.specs.Expressions as productions;
ghost use Rattle.c_names.specs.Denoted.{places_in};
ghost use Rattle.c_values.specs.Typings.{callee_of};
ghost use Rattle.c_meanings.specs.Meanings.{IsReady, IsRow, node_in};
ghost use Rattle.c_nodes.specs.Parents.{nodes_in};
ghost use Rattle.c_expression_rows.specs.Names.{Denotes, IsUnknown};

use crate::declared::{type_of_name, word_before};
use c_answers::Refusal;
use c_judgements::Judged;
use c_meanings::{Meanings, expressed};
use c_nodes::Nodes;
use c_places as places;
use c_places::int_constant;
use c_values::Callee;

/// A name that is not in scope, or that of a type.
pub fn unknown_name(nodes: &Nodes, node: usize, meanings: &Meanings) -> Result<Judged, Refusal>
    requires within { node < length nodes.now }
    requires kind { (node_in nodes.now node).label.kind ≡ kind.Var }
    requires unknown { IsUnknown nodes.now node }
    requires ready { IsReady nodes.now node 0 meanings.now }
    ensures { IsRow nodes.now node meanings.now meanings.now result }
{
    expressed(places::unknown_name(node))
}

/// The name of an enumerator, which this node declares.
pub fn enumerator_name(
    nodes: &Nodes,
    node: usize,
    declared: usize,
    meanings: &mut Meanings,
) -> Result<Judged, Refusal>
    requires within { node < length nodes.now }
    requires kind { (node_in nodes.now node).label.kind ≡ kind.Var }
    requires denotes { (e : Name) × Denotes nodes.now node e × (e.entity ≡ rules.enumerator) × (e.node ≡ declared) }
    requires ready { IsReady nodes.now node 0 meanings.old }
    ensures { IsRow nodes.now node meanings.old meanings.new result }
{
    let Some(word) = word_before(nodes, node, declared, meanings) else {
        return Ok(Judged::Waits);
    };
    expressed(int_constant(&mut meanings.types, word))
}

/// The name of a function, which is what `callee` says. Its type is that of its declarator: `behind`, or `owner`, which has an
/// initializer.
pub fn function_name(
    nodes: &Nodes,
    node: usize,
    owner: usize,
    behind: usize,
    callee: Callee,
    is_called: bool,
    meanings: &Meanings,
) -> Result<Judged, Refusal>
    requires within { node < length nodes.now }
    requires kind { (node_in nodes.now node).label.kind ≡ kind.Var }
    requires denotes { (e : Name) × Denotes nodes.now node e × (e.entity ≡ rules.function_name) × (e.owner ≡ owner) × (e.behind ≡ behind) × (callee_of callee ≡ productions.callee_of (places_in nodes.now) e.text) }
    requires called { is_called ≡ productions.is_called (places_in nodes.now) (length (nodes_in nodes.now)) node }
    requires ready { IsReady nodes.now node 0 meanings.now }
    ensures { IsRow nodes.now node meanings.now meanings.now result }
{
    let Some(kind) = type_of_name(nodes, node, owner, behind, meanings) else {
        return Ok(Judged::Waits);
    };
    expressed(places::function(&meanings.types, node, kind, callee, is_called))
}
