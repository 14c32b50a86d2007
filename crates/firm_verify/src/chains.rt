// Rule 4: where the chains of memory begin and end.
ghost use Rattle.std.specs.Prelude.{◌≡◌, [], MatchBool, IfOk, unwrap_or};
ghost use Rattle.firm_rules.specs.Rules.{memory_into};
ghost use Rattle.firm_tables.specs.Nodes.{numbers, node_of};
ghost use Rattle.firm_nodes.specs.Calls.{IsNode};
ghost use Rattle.firm_verify.specs.Tables.{AreNodes};
ghost use Rattle.firm_verify.specs.Memory.{AreOwners, AreLasts, IsLast, is_lower as number_is_lower};
ghost use Rattle.firm_verify.specs.declared.memory.Sort.TheVariants.{Follows};

use crate::first::is_start;
use crate::lists::{get_at, set_at};
use crate::memory::acts;
use firm_nodes::{Graph, NodeId};
use std::alloc::{AllocError, Global};

// By the number of each block the first and the last node of its chain and its Phi of memory, and the memory that comes first.
#[derive(Drop)]
pub(crate) struct Chains {
    pub(crate) firsts: Vec<Option<usize>>,
    pub(crate) lasts: Vec<Option<usize>>,
    pub(crate) phis: Vec<Option<usize>>,
    pub(crate) start: usize,
}

// The nodes that act and whose memory no node of their block takes.
pub(crate) fn lasts_of(
    alloc: Global,
    graph: &Graph,
    nodes: &[NodeId],
    nexts: &[Option<usize>],
) -> Result<Vec<Option<usize>>, AllocError>
    requires nodes { AreNodes graph.now (numbers nodes.now) }
    requires nexts { AreOwners graph.now Follows nexts.now }
    ensures { IfOk result (λ lasts. AreLasts graph.now lasts.items) }
{
    let mut lasts = Vec::new(alloc);
    for node in nodes {
        if is_last(graph, nexts, *node) {
            let block = graph.node(*node).block;
            set_at(&mut lasts, block.number, Some(node.number), None)?;
        }
    }
    Ok(lasts)
}

fn is_last(graph: &Graph, nexts: &[Option<usize>], node: NodeId) -> bool
    requires nexts { AreOwners graph.now Follows nexts.now }
    requires node { IsNode graph.now node.number }
    ensures { MatchBool result (IsLast graph.now (node_of graph.now.nodes node.number).block node.number) (IsLast graph.now (node_of graph.now.nodes node.number).block node.number → ⊥) }
{
    if !acts(graph.node(node).op) {
        return false;
    }
    get_at(nexts, node.number, None).is_none()
}

// The lowest number of a `Start`, or 0.
pub(crate) fn first_start(graph: &Graph, nodes: &[NodeId]) -> usize
    requires { AreNodes graph.now (numbers nodes.now) }
    ensures { result ≡ memory_into graph.now [] }
{
    let mut found = None;
    for node in nodes {
        if is_start(graph.node(*node).op) {
            if is_lower(found, node.number) {
                found = Some(node.number);
            }
        }
    }
    or_zero(found)
}

fn or_zero(found: Option<usize>) -> usize
    ensures { result ≡ unwrap_or found 0 }
{
    match found {
        Some(number) => number,
        None => 0,
    }
}

fn is_lower(found: Option<usize>, number: usize) -> bool
    ensures { result ≡ number_is_lower found number }
{
    match found {
        Some(other) => number < other,
        None => true,
    }
}
