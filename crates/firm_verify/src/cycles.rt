// Rule 3.
ghost use Rattle.std.specs.Prelude.{◌≡◌, ◌≢◌, ◌<◌, ◌-◌, ◌∷◌, [], ℕ, length, slice_index, IfSome, IfNone, IfOk};
ghost use Rattle.firm_uses.specs.Counts.{times};
ghost use Rattle.firm_rules.specs.Rules.{IsOperand, Leads};
ghost use Rattle.firm_tables.specs.Nodes.{numbers, node_of};
ghost use Rattle.firm_nodes.specs.Calls.{IsNode};
ghost use Rattle.firm_verify.specs.Broken.{Rule1, Rule3, IsBroken};
ghost use Rattle.firm_verify.specs.Tables.{AreNodes};
ghost use Rattle.firm_verify.specs.Marks.{AreMarks, NoneMore, weight};

use crate::broken::Broken;
use crate::lists::set_at;
use crate::phis::is_phi;
use firm_nodes::{Graph, NodeId};
use std::alloc::{AllocError, Global};

// Each cycle of operands passes a Phi.
pub(crate) fn check_cycles(
    alloc: Global,
    graph: &Graph,
    nodes: &[NodeId],
) -> Result<Option<Broken>, AllocError>
    requires nodes { AreNodes graph.now (numbers nodes.now) }
    requires rule1 { Rule1 graph.now }
    ensures some { IfOk result (λ found. IfSome found (λ broken. IsBroken graph.now broken.rule broken.node broken.block.number)) }
    ensures some_rule { IfOk result (λ found. IfSome found (λ broken. broken.rule ≡ 3)) }
    ensures none { IfOk result (λ found. IfNone found (Rule3 graph.now)) }
{
    let mut left = first_marks(alloc, graph, nodes)?;
    for node in nodes {
        if let Some(number) = cycle_from(alloc, graph, &mut left, node.number)? {
            let node = NodeId { number };
            return Ok(Some(Broken {
                rule: 3,
                node: Some(node),
                block: graph.node(node).block,
            }));
        }
    }
    Ok(None)
}

// The search has come to no node, and looks at no Phi.
fn first_marks(alloc: Global, graph: &Graph, nodes: &[NodeId]) -> Result<Vec<u8>, AllocError>
    requires nodes { AreNodes graph.now (numbers nodes.now) }
    ensures { IfOk result (λ left. AreMarks graph.now left.items []) }
{
    let mut left = Vec::new(alloc);
    for node in nodes {
        if !is_phi(graph.node(*node).op) {
            set_at(&mut left, node.number, 2, 0)?;
        }
    }
    Ok(left)
}

// Searches the ways from the node; a node of a cycle, if one is found.
fn cycle_from(
    alloc: Global,
    graph: &Graph,
    left: &mut Vec<u8>,
    start: usize,
) -> Result<Option<usize>, AllocError>
    requires rule1 { Rule1 graph.now }
    requires start { IsNode graph.now start }
    requires marks { AreMarks graph.now left.old.items [] }
    ensures some { IfOk result (λ found. IfSome found (λ n. IsNode graph.now n)) }
    ensures cycle { IfOk result (λ found. IfSome found (λ n. Leads graph.now n n)) }
    ensures marks { IfOk result (λ found. IfNone found (AreMarks graph.now left.new.items [])) }
    ensures stay { IfOk result (λ found. IfNone found (NoneMore left.old.items left.new.items)) }
    ensures ended { IfOk result (λ found. IfNone found (slice_index left.new.items start ≡ 0)) }
{
    if mark_of(left, start) == 0 {
        return Ok(None);
    }
    let mut path = Vec::new(alloc);
    path.push(start)?;
    left[start] = 1;
    while path.len() > 0 {
        let found = step(graph, left, &mut path)?;
        if found.is_some() {
            return Ok(found);
        }
    }
    Ok(None)
}

// The last node of the path goes on to an operand, or its ways end. A node of a cycle, if the operand stands on the path.
fn step(
    graph: &Graph,
    left: &mut Vec<u8>,
    path: &mut Vec<usize>,
) -> Result<Option<usize>, AllocError>
    requires rule1 { Rule1 graph.now }
    requires some_path { 0 < length path.old.items }
    requires marks { AreMarks graph.now left.old.items path.old.items }
    ensures some { IfOk result (λ found. IfSome found (λ n. IsNode graph.now n)) }
    ensures cycle { IfOk result (λ found. IfSome found (λ n. Leads graph.now n n)) }
    ensures marks { IfOk result (λ found. IfNone found (AreMarks graph.now left.new.items path.new.items)) }
    ensures stay { IfOk result (λ found. IfNone found (NoneMore left.old.items left.new.items)) }
    ensures less { IfOk result (λ found. IfNone found (weight left.new.items < weight left.old.items)) }
{
    let last = path[path.len() - 1];
    let Some(next) = open_operand(graph, left, last) else {
        left[last] = 0;
        let _ = path.pop();
        return Ok(None);
    };
    if left[next] == 1 {
        return Ok(Some(next));
    }
    path.push(next)?;
    left[next] = 1;
    Ok(None)
}

// An operand whose ways are not known to end.
fn open_operand(graph: &Graph, left: &[u8], node: usize) -> Option<usize>
    requires { IsNode graph.now node }
    ensures some { IfSome result (λ next. 0 < times next (node_of graph.now.nodes node).operands) }
    ensures open { IfSome result (λ next. slice_index left.now next ≢ 0) }
    ensures none { IfNone result ((m : ℕ) → 0 < times m (node_of graph.now.nodes node).operands → slice_index left.now m ≡ 0) }
{
    for operand in graph.operands(NodeId { number: node }) {
        if mark_of(left, *operand) != 0 {
            return Some(*operand);
        }
    }
    None
}

fn mark_of(left: &[u8], node: usize) -> u8
    ensures { result ≡ slice_index left.now node }
{
    if node < left.len() { left[node] } else { 0 }
}
