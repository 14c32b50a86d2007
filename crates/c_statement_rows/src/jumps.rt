// Jumps inside of loops and `switch`es (C99 6.8.6.2, 6.8.6.3).
ghost use Rattle.std.specs.Prelude.{◌≡◌, ◌<◌, length};
ghost use Rattle.std.specs.Option.{is_some};
ghost use Rattle.c_syntax.specs.declared.kind.SynKind.TheVariants as kind;
ghost use Rattle.c_typing.specs.Places.{Node, around};
ghost use Rattle.c_nodes.specs.declared.around.Kinds.{Kinds as NodeKinds};
ghost use Rattle.c_nodes.specs.declared.around.Kinds.TheVariants as kinds;
ghost use Rattle.c_nodes.specs.Around.{AreAround, accepts};
ghost use Rattle.c_nodes.specs.Parents.{nodes_in};
ghost use Rattle.c_meanings.specs.Meanings.{IsReady, IsRow, node_in};

use c_answers::Refusal;
use c_judgements::Judged;
use c_meanings::{Meanings, performed};
use c_nodes::Nodes;
use c_statements::one;
use c_types::Stmt;
use std::alloc::Global;

/// `break`; for each node, the innermost loop or `switch` around it is given.
pub fn break_out(
    alloc: Global,
    nodes: &Nodes,
    node: usize,
    innermost: &[usize],
    meanings: &Meanings,
) -> Result<Judged, Refusal>
    requires within { node < length nodes.now }
    requires kind { (node_in nodes.now node).label.kind ≡ kind.Break }
    requires around { AreAround kinds.LoopOrSwitch nodes.now innermost.now }
    requires ready { IsReady nodes.now node 0 meanings.now }
    ensures { IsRow nodes.now node meanings.now meanings.now result }
{
    if is_inside(nodes, node, innermost) {
        performed(one(alloc, Stmt::Break))
    } else {
        Err(Refusal::Broken { rule: 19, node })
    }
}

/// `continue`; for each node, the innermost loop around it is given.
pub fn go_on(
    alloc: Global,
    nodes: &Nodes,
    node: usize,
    innermost: &[usize],
    meanings: &Meanings,
) -> Result<Judged, Refusal>
    requires within { node < length nodes.now }
    requires kind { (node_in nodes.now node).label.kind ≡ kind.Continue }
    requires around { AreAround kinds.Loop nodes.now innermost.now }
    requires ready { IsReady nodes.now node 0 meanings.now }
    ensures { IsRow nodes.now node meanings.now meanings.now result }
{
    if is_inside(nodes, node, innermost) {
        performed(one(alloc, Stmt::Continue))
    } else {
        Err(Refusal::Broken { rule: 19, node })
    }
}

// There is such a node around this one.
fn is_inside(nodes: &Nodes, node: usize, innermost: &[usize]) -> bool
    requires within { node < length nodes.now }
    requires around { (test : NodeKinds) × AreAround test nodes.now innermost.now }
    ensures { (test : NodeKinds) → AreAround test nodes.now innermost.now → result ≡ is_some (around (λ (n : Node). accepts test n.label.kind) (nodes_in nodes.now) node) }
{
    innermost[node] < nodes.len()
}
