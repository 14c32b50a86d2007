// Places of blocks, and the nodes of a block by rising number.
ghost use Rattle.std.specs.Prelude.{◌≡◌, ◌==◌, ◌<◌, ℕ, true, length, if◌then◌else◌, slice_index_or, OnOk, IfOk};
ghost use Rattle.std.specs.List.Sorted.{IsNonDecreasing};
ghost use Rattle.firm_uses.specs.Counts.{times};
ghost use Rattle.firm_rules.specs.Lookups.{rank, IsBlock};
ghost use Rattle.firm_tables.specs.Nodes.{numbers};
ghost use Rattle.firm_nodes.specs.Kept.{block_numbers};
ghost use Rattle.firm_text.specs.Text.{nodes_in};
ghost use Rattle.firm_text.specs.Places.{ArePlaces};

use firm_nodes::{BlockId, Graph, NodeId};
use std::alloc::{AllocError, Global};

// The place of each block in the order.
pub(crate) fn places_of(alloc: Global, order: &[BlockId]) -> Result<Vec<usize>, AllocError>
    ensures { IfOk result (λ places. ArePlaces (block_numbers order.now) places.items) }
{
    let mut places = Vec::new(alloc);
    let mut place = order.len();
    while place > 0 {
        place -= 1;
        stand_at(&mut places, order[place].number, place, order.len())?;
    }
    Ok(places)
}

// The block has this place; one that had none has the one for none.
fn stand_at(
    places: &mut Vec<usize>,
    block: usize,
    place: usize,
    none: usize,
) -> Result<(), AllocError>
    ensures { OnOk result ((b : ℕ) → slice_index_or places.new.items b none ≡ (if block == b then place else slice_index_or places.old.items b none)) }
{
    widen(places, block, none)?;
    places[block] = place;
    Ok(())
}

// The table has the block.
fn widen(places: &mut Vec<usize>, block: usize, none: usize) -> Result<(), AllocError>
    ensures ok { OnOk result (block < length places.new.items) }
    ensures same { (b : ℕ) → slice_index_or places.new.items b none ≡ slice_index_or places.old.items b none }
{
    while places.len() <= block {
        places.push(none)?;
    }
    Ok(())
}

// The place of the block.
pub(crate) fn place(graph: &Graph, places: &[usize], block: usize) -> usize
    requires { ArePlaces graph.now.order places.now }
    ensures { result ≡ rank graph.now block }
{
    match places.get(block) {
        Some(place) => *place,
        None => graph.blocks().len(),
    }
}

// The nodes of the block by rising number.
pub(crate) fn nodes_of(
    alloc: Global,
    graph: &Graph,
    block: BlockId,
) -> Result<Vec<usize>, AllocError>
    requires { IsBlock graph.now block.number }
    ensures { IfOk result (λ nodes. nodes.items ≡ nodes_in graph.now block.number) }
{
    sorted(alloc, graph.nodes(block))
}

fn sorted(alloc: Global, nodes: &[NodeId]) -> Result<Vec<usize>, AllocError>
    ensures times { IfOk result (λ list. (n : ℕ) → times n list.items ≡ times n (numbers nodes.now)) }
    ensures sorted { IfOk result (λ list. IsNonDecreasing list.items) }
{
    let mut list = listed(alloc, nodes)?;
    list.sort()?;
    Ok(list)
}

fn listed(alloc: Global, nodes: &[NodeId]) -> Result<Vec<usize>, AllocError>
    ensures { IfOk result (λ list. list.items ≡ numbers nodes.now) }
{
    let mut list = Vec::new(alloc);
    for node in nodes {
        list.push(node.number)?;
    }
    Ok(list)
}
