// Names of objects and locals (C99 6.5.1).
ghost use Rattle.std.specs.Prelude.{◌≡◌, ◌<◌, length, true, unwrap_or};
ghost use Rattle.c_syntax.specs.declared.kind.SynKind.TheVariants as kind;
ghost use Rattle.c_typing.specs.Names as rules;
ghost use Rattle.c_typing.specs.Names.{Name};
ghost use Rattle.c_names.specs.Denoted.{places_in};
ghost use Rattle.c_meanings.specs.Meanings.{IsReady, IsRow, node_in};
ghost use Rattle.c_expression_rows.specs.Names.{Denotes, is_local};

use crate::declared::type_of_name;
use c_answers::Refusal;
use c_judgements::Judged;
use c_meanings::Meanings;
use c_nodes::Nodes;
use c_places::{local, object};

/// The name of the object of this number. Its type is that of its declarator: `behind`, or `owner`, which has an initializer.
pub fn object_name(
    nodes: &Nodes,
    node: usize,
    owner: usize,
    behind: usize,
    number: usize,
    meanings: &Meanings,
) -> Result<Judged, Refusal>
    requires within { node < length nodes.now }
    requires kind { (node_in nodes.now node).label.kind ≡ kind.Var }
    requires denotes { (e : Name) × Denotes nodes.now node e × (e.entity ≡ rules.static_object) × (e.owner ≡ owner) × (e.behind ≡ behind) × (unwrap_or (rules.object_number (places_in nodes.now) e) 0 ≡ number) }
    requires ready { IsReady nodes.now node 0 meanings.now }
    ensures { IsRow nodes.now node meanings.now meanings.now result }
{
    let Some(kind) = type_of_name(nodes, node, owner, behind, meanings) else {
        return Ok(Judged::Waits);
    };
    Ok(Judged::Expresses(object(kind, number)))
}

/// The name of the local of this number, with its type as that of an object.
pub fn local_name(
    nodes: &Nodes,
    node: usize,
    owner: usize,
    behind: usize,
    number: usize,
    meanings: &Meanings,
) -> Result<Judged, Refusal>
    requires within { node < length nodes.now }
    requires kind { (node_in nodes.now node).label.kind ≡ kind.Var }
    requires denotes { (e : Name) × Denotes nodes.now node e × (is_local e.entity ≡ true) × (e.owner ≡ owner) × (e.behind ≡ behind) × (rules.local_number (places_in nodes.now) e ≡ number) }
    requires ready { IsReady nodes.now node 0 meanings.now }
    ensures { IsRow nodes.now node meanings.now meanings.now result }
{
    let Some(kind) = type_of_name(nodes, node, owner, behind, meanings) else {
        return Ok(Judged::Waits);
    };
    Ok(Judged::Expresses(local(kind, number)))
}
