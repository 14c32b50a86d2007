// Parts of declarators, which are no whole ones (C99 6.7.5).
ghost use Rattle.std.specs.Prelude.{◌≡◌, ◌<◌, ◌⊎◌, ◌++◌, ◌∷◌, ℕ, [], List, None, false, length};
ghost use Rattle.c_syntax.specs.declared.kind.SynKind.TheVariants as kind;
ghost use Rattle.c_typing.specs.Places.{is_whole};
ghost use Rattle.c_typing.specs.Judgements as rules;
ghost use Rattle.c_type_ids.specs.Ids.{Known};
ghost use Rattle.c_nodes.specs.Parents.{nodes_in};
ghost use Rattle.c_declared_types.specs.Steps.{AreSteps, IsStep};
ghost use Rattle.c_meanings.specs.Meanings.{IsAnswered, IsReady, IsRow, judged_to, kid_in, node_in};

use c_answers::Refusal;
use c_declared_types::{Step, Steps};
use c_judgements::Judged;
use c_meanings::Meanings;
use c_nodes::Nodes;
use std::alloc::Global;

/// A name, or the place of an absent one, as a part of a declarator.
pub fn name_part(
    alloc: Global,
    nodes: &Nodes,
    node: usize,
    meanings: &Meanings,
) -> Result<Judged, Refusal>
    requires within { node < length nodes.now }
    requires kind { ((node_in nodes.now node).label.kind ≡ kind.Ident) ⊎ ((node_in nodes.now node).label.kind ≡ kind.NoName) }
    requires part { is_whole (nodes_in nodes.now) (node_in nodes.now node) ≡ false }
    requires ready { IsReady nodes.now node 0 meanings.now }
    ensures { IsRow nodes.now node meanings.now meanings.now result }
{
    Ok(Judged::Steps(Steps::new(alloc)))
}

/// A pointer as a part of a declarator.
pub fn pointer_part(nodes: &Nodes, node: usize, meanings: &mut Meanings) -> Result<Judged, Refusal>
    requires within { node < length nodes.now }
    requires kind { (node_in nodes.now node).label.kind ≡ kind.Pointer }
    requires part { is_whole (nodes_in nodes.now) (node_in nodes.now node) ≡ false }
    requires ready { IsReady nodes.now node 0 meanings.old }
    ensures { IsRow nodes.now node meanings.old meanings.new result }
{
    match meanings.take_steps(nodes, node) {
        Some(steps) => with_step(steps, node, Step::ToPointer),
        None => Ok(Judged::Waits),
    }
}

/// Parentheses around a part of a declarator, as a part of one.
pub fn parentheses_part(
    nodes: &Nodes,
    node: usize,
    meanings: &mut Meanings,
) -> Result<Judged, Refusal>
    requires within { node < length nodes.now }
    requires kind { (node_in nodes.now node).label.kind ≡ kind.Paren }
    requires part { is_whole (nodes_in nodes.now) (node_in nodes.now node) ≡ false }
    requires declarator { rules.typing_at (judged_to nodes.now node) (kid_in nodes.now node 0) ≡ None }
    requires ready { IsReady nodes.now node 0 meanings.old }
    ensures { IsRow nodes.now node meanings.old meanings.new result }
{
    match meanings.take_steps(nodes, node) {
        Some(steps) => Ok(Judged::Steps(steps)),
        None => Ok(Judged::Waits),
    }
}

// One more step.
pub(crate) fn with_step(mut steps: Steps, node: usize, step: Step) -> Result<Judged, Refusal>
    ensures { (k : Known) (ss : List rules.PlacedStep) (s : rules.Step) → AreSteps k steps ss → IsStep k step s →
        IsAnswered k result (rules.means (rules.steps (ss ++ record { node = node; step = s } ∷ []))) }
{
    match steps.push(node, step) {
        Ok(()) => Ok(Judged::Steps(steps)),
        Err(_) => Err(Refusal::OutOfMemory),
    }
}
