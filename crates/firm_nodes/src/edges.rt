// The targets that an end loses.
ghost use Rattle.std.specs.Prelude.{◌≡◌};
ghost use Rattle.firm_rules.specs.Lookups.{targets};
ghost use Rattle.firm_nodes.specs.Calls.{first_place, last_place, lost_place, without_some, without_all, never_first, is_zero as op_is_zero};
ghost use Rattle.firm_nodes.specs.Kept.{listed};

use firm_rules::{FirmEnd, NodeOp};
use firm_tables::Nodes;

// At most two blocks.
#[derive(Clone, Copy, Debug)]
pub(crate) struct Edges {
    pub(crate) first: Option<usize>,
    pub(crate) second: Option<usize>,
}

// The targets of the old end that the new one has not, each as often.
pub(crate) fn lost_targets(old: Option<FirmEnd>, end: Option<FirmEnd>) -> Edges
    ensures { listed result ≡ without_all (targets old) (targets end) }
{
    let kept = targets_of(end);
    without(without(targets_of(old), kept.first), kept.second)
}

fn targets_of(end: Option<FirmEnd>) -> Edges
    ensures { listed result ≡ targets end }
{
    match end {
        Some(FirmEnd::Jump(to)) => Edges {
            first: Some(to.number),
            second: None,
        },
        Some(FirmEnd::Branch(_, first, second)) => Edges {
            first: Some(first.number),
            second: Some(second.number),
        },
        Some(FirmEnd::Return(_, _)) | None => Edges {
            first: None,
            second: None,
        },
    }
}

fn without(edges: Edges, to: Option<usize>) -> Edges
    ensures { listed result ≡ without_some (listed edges) to }
{
    let Some(to) = to else {
        return edges;
    };
    let Edges { first, second } = edges;
    if first == Some(to) {
        return Edges {
            first: None,
            second,
        };
    }
    if second == Some(to) {
        return Edges {
            first,
            second: None,
        };
    }
    edges
}

// The place of the predecessor that is lost.
pub(crate) fn place_of(preds: &[usize], from: usize, earlier: bool) -> Option<usize>
    ensures { result ≡ lost_place earlier from preds.now }
{
    if earlier {
        place_forward(preds, from)
    } else {
        place_back(preds, from)
    }
}

fn place_forward(preds: &[usize], from: usize) -> Option<usize>
    ensures { result ≡ first_place from preds.now }
{
    for place in 0..preds.len() {
        if preds[place] == from {
            return Some(place);
        }
    }
    None
}

fn place_back(preds: &[usize], from: usize) -> Option<usize>
    ensures { result ≡ last_place from preds.now }
{
    let mut found = None;
    for place in 0..preds.len() {
        if preds[place] == from {
            found = Some(place);
        }
    }
    found
}

// Whether the end always goes to its second target.
pub(crate) fn goes_second(nodes: &Nodes, end: Option<FirmEnd>) -> bool
    ensures { result ≡ never_first nodes.now end }
{
    let Some(FirmEnd::Branch(node, _, _)) = end else {
        return false;
    };
    if node.number >= nodes.len() {
        return false;
    }
    is_zero(nodes.node(node.number).op)
}

fn is_zero(op: NodeOp) -> bool
    ensures { result ≡ op_is_zero op }
{
    match op {
        NodeOp::Const(number) => number == 0,
        _ => false,
    }
}
