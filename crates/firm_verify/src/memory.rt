// Rule 4: the nodes of a block that take memory form one chain, and it has at most one Phi of memory.
ghost use Rattle.std.specs.Prelude.{[], ◌≡◌, ◌≢◌, ◌<◌, ℕ, true, length, if◌then◌else◌, MatchBool, slice_index, slice_index_or, Some, None, IfOk, IfSome, IfNone};
ghost use Rattle.firm_rules.specs.Graphs.{acts as op_acts};
ghost use Rattle.firm_rules.specs.Lookups.{node_at};
ghost use Rattle.firm_rules.specs.Rules.{giver, acts_in as node_acts_in, is_memory_phi as op_is_memory_phi};
ghost use Rattle.firm_tables.specs.Nodes.{numbers, node_of};
ghost use Rattle.firm_nodes.specs.Calls.{IsNode};
ghost use Rattle.firm_verify.specs.Broken.{Rule1};
ghost use Rattle.firm_verify.specs.Tables.{AreNodes};
ghost use Rattle.firm_verify.specs.Memory.{key, is_memory_of, IsRival, AreOwners, BreaksMemory};
ghost use Rattle.firm_verify.specs.declared.memory.Sort.TheVariants.{Begins, Follows, MemoryPhi};

use crate::lists::set_at;
use firm_nodes::{BlockId, Graph, Mode, NodeId, NodeOp};
use std::alloc::{AllocError, Global};

// Nodes of which a block has at most one, or one for each node that gives memory.
#[derive(Clone, Copy, Debug)]
pub(crate) enum Sort {
    Begins,
    Follows,
    MemoryPhi,
}

// A node that is not alone in its sort; else the nodes of each sort by their keys.
pub(crate) fn any_rival(
    graph: &Graph,
    nodes: &[NodeId],
    firsts: &mut Vec<Option<usize>>,
    nexts: &mut Vec<Option<usize>>,
    phis: &mut Vec<Option<usize>>,
) -> Result<Option<NodeId>, AllocError>
    requires nodes { AreNodes graph.now (numbers nodes.now) }
    requires rule1 { Rule1 graph.now }
    requires no_firsts { firsts.old.items ≡ [] }
    requires no_nexts { nexts.old.items ≡ [] }
    requires no_phis { phis.old.items ≡ [] }
    ensures some { IfOk result (λ found. IfSome found (λ node. BreaksMemory graph.now node.number)) }
    ensures firsts { IfOk result (λ found. IfNone found (AreOwners graph.now Begins firsts.new.items)) }
    ensures nexts { IfOk result (λ found. IfNone found (AreOwners graph.now Follows nexts.new.items)) }
    ensures phis { IfOk result (λ found. IfNone found (AreOwners graph.now MemoryPhi phis.new.items)) }
{
    let begins = rival(graph, nodes, Sort::Begins, firsts)?;
    if begins.is_some() {
        return Ok(begins);
    }
    let follows = rival(graph, nodes, Sort::Follows, nexts)?;
    if follows.is_some() {
        return Ok(follows);
    }
    let doubled = rival(graph, nodes, Sort::MemoryPhi, phis)?;
    Ok(doubled)
}

// A node of the sort that is not alone; else the nodes of the sort by their keys.
fn rival(
    graph: &Graph,
    nodes: &[NodeId],
    sort: Sort,
    owners: &mut Vec<Option<usize>>,
) -> Result<Option<NodeId>, AllocError>
    requires nodes { AreNodes graph.now (numbers nodes.now) }
    requires rule1 { Rule1 graph.now }
    requires empty { owners.old.items ≡ [] }
    ensures some { IfOk result (λ found. IfSome found (λ node. IsRival graph.now sort node.number)) }
    ensures none { IfOk result (λ found. IfNone found (AreOwners graph.now sort owners.new.items)) }
{
    for node in nodes {
        let Some(key) = key_of(graph, *node, sort) else {
            continue;
        };
        if has_other(owners, key, node.number) {
            return Ok(Some(*node));
        }
        set_at(owners, key, Some(node.number), None)?;
    }
    Ok(None)
}

// The table has another number for the key.
fn has_other(owners: &[Option<usize>], key: usize, own: usize) -> bool
    ensures { MatchBool result ((other : ℕ) × ((slice_index_or owners.now key None ≡ Some other) × (other ≢ own))) ((other : ℕ) → slice_index_or owners.now key None ≡ Some other → other ≡ own) }
{
    if key >= owners.len() {
        return false;
    }
    let Some(other) = owners[key] else {
        return false;
    };
    other != own
}

// The key of the node in the sort.
fn key_of(graph: &Graph, node: NodeId, sort: Sort) -> Option<usize>
    requires rule1 { Rule1 graph.now }
    requires node { IsNode graph.now node.number }
    ensures { result ≡ key graph.now sort (node_of graph.now.nodes node.number) }
{
    let read = graph.node(node);
    match sort {
        Sort::MemoryPhi => some_if(is_memory_phi(read.op), read.block.number),
        Sort::Begins => {
            if !acts(read.op) {
                return None;
            }
            let giver = taken(graph, node);
            some_if(!acts_in(graph, giver, read.block), read.block.number)
        }
        Sort::Follows => {
            if !acts(read.op) {
                return None;
            }
            let giver = taken(graph, node);
            some_if(acts_in(graph, giver, read.block), giver)
        }
    }
}

fn some_if(holds: bool, key: usize) -> Option<usize>
    ensures { result ≡ (if holds then Some key else None) }
{
    if holds { Some(key) } else { None }
}

// What the node takes its memory from.
pub(crate) fn taken(graph: &Graph, node: NodeId) -> usize
    requires rule1 { Rule1 graph.now }
    requires node { IsNode graph.now node.number }
    requires acts { op_acts (node_of graph.now.nodes node.number).op ≡ true }
    ensures is { result ≡ giver graph.now (slice_index (node_of graph.now.nodes node.number).operands 0) }
    ensures there { IsNode graph.now result }
{
    giver_of(graph, graph.operands(node)[0])
}

// The node that gives the memory: of a part of a tuple, the tuple.
pub(crate) fn giver_of(graph: &Graph, memory: usize) -> usize
    requires rule1 { Rule1 graph.now }
    requires memory { IsNode graph.now memory }
    ensures is { result ≡ giver graph.now memory }
    ensures there { IsNode graph.now result }
{
    let memory = NodeId { number: memory };
    if !is_memory_part(graph.node(memory).op) {
        return memory.number;
    }
    graph.operands(memory)[0]
}

// The node acts, in the block.
fn acts_in(graph: &Graph, node: usize, block: BlockId) -> bool
    requires { IsNode graph.now node }
    ensures { result ≡ node_acts_in block.number (node_at graph.now node) }
{
    let read = graph.node(NodeId { number: node });
    read.block.number == block.number && acts(read.op)
}

pub(crate) fn acts(op: NodeOp) -> bool
    ensures { result ≡ op_acts op }
{
    matches!(
        op,
        NodeOp::Load(_) | NodeOp::Store(_) | NodeOp::Call(_) | NodeOp::Get | NodeOp::Put
    )
}

fn is_memory_part(op: NodeOp) -> bool
    ensures { result ≡ is_memory_of op }
{
    matches!(op, NodeOp::ProjM)
}

fn is_memory_phi(op: NodeOp) -> bool
    ensures { result ≡ op_is_memory_phi op }
{
    let NodeOp::Phi(mode) = op else {
        return false;
    };
    match mode {
        Mode::Memory => true,
        Mode::Word | Mode::Tuple => false,
    }
}
