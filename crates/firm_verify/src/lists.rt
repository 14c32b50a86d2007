// The nodes of a graph in one list, the places of its blocks, and tables by numbers.
ghost use Rattle.std.specs.Prelude.{◌≡◌, ◌≢◌, ◌<◌, ◌+◌, ℕ, length, IfOk, OnOk, slice_index_or};
ghost use Rattle.firm_uses.specs.Counts.{times};
ghost use Rattle.firm_rules.specs.Lookups.{rank};
ghost use Rattle.firm_rules.specs.Rules.{IsWhole};
ghost use Rattle.firm_tables.specs.Nodes.{numbers};
ghost use Rattle.firm_verify.specs.Tables.{AreNodes, AreRanks};

use firm_nodes::{BlockId, Graph, NodeId};
use std::alloc::{AllocError, Global};

// The nodes that are there.
pub(crate) fn all_nodes(alloc: Global, graph: &Graph) -> Result<Vec<NodeId>, AllocError>
    requires { IsWhole graph.now }
    ensures { IfOk result (λ nodes. AreNodes graph.now (numbers nodes.items)) }
{
    let mut nodes = Vec::new(alloc);
    for block in graph.blocks() {
        add_all(&mut nodes, graph.nodes(*block))?;
    }
    Ok(nodes)
}

fn add_all(nodes: &mut Vec<NodeId>, more: &[NodeId]) -> Result<(), AllocError>
    ensures { OnOk result ((n : ℕ) → times n (numbers nodes.new.items) ≡ times n (numbers nodes.old.items) + times n (numbers more.now)) }
{
    for node in more {
        nodes.push(*node)?;
    }
    Ok(())
}

// The place of each block in the order.
pub(crate) fn ranks_of(alloc: Global, graph: &Graph) -> Result<Vec<usize>, AllocError>
    ensures { IfOk result (λ ranks. AreRanks graph.now ranks.items) }
{
    let order = graph.blocks();
    let count = order.len();
    let mut ranks = Vec::new(alloc);
    let mut place = count;
    while place > 0 {
        place -= 1;
        set_at(&mut ranks, order[place].number, place, count)?;
    }
    Ok(ranks)
}

// The place of the block, or how many blocks there are.
pub(crate) fn rank_of(graph: &Graph, ranks: &[usize], block: usize) -> usize
    requires { AreRanks graph.now ranks.now }
    ensures { result ≡ rank graph.now block }
{
    if block < ranks.len() {
        ranks[block]
    } else {
        graph.blocks().len()
    }
}

// What the table has at the index; the filler, where it has nothing.
pub(crate) fn get_at<T: Copy>(table: &[T], index: usize, filler: T) -> T
    ensures { result ≡ slice_index_or table.now index filler }
{
    if index < table.len() {
        table[index]
    } else {
        filler
    }
}

// What is not in the table stands for the filler.
pub(crate) fn set_at<T: Copy>(
    table: &mut Vec<T>,
    index: usize,
    value: T,
    filler: T,
) -> Result<(), AllocError>
    ensures this { OnOk result (slice_index_or table.new.items index filler ≡ value) }
    ensures others { OnOk result ((other : ℕ) → other ≢ index → slice_index_or table.new.items other filler ≡ slice_index_or table.old.items other filler) }
{
    while table.len() <= index {
        table.push(filler)?;
    }
    table[index] = value;
    Ok(())
}
