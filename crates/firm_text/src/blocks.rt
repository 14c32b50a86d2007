// The text of a graph, block by block.
ghost use Rattle.std.specs.Prelude.{◌≡◌, ◌++◌, ◌<◌, ℕ, length, slice_index, codes, OnOk, IfOk};
ghost use Rattle.std.specs.List.{flat_map};
ghost use Rattle.firm_rules.specs.Lookups.{IsBlock};
ghost use Rattle.firm_nodes.specs.Calls.{IsNode};
ghost use Rattle.firm_nodes.specs.Kept.{block_numbers};
ghost use Rattle.firm_text.specs.Text.{after_blank, place_after_blank, list_text, node_line, value_text, end_line, block_line, block_text, firm_line, firm_text};
ghost use Rattle.firm_text.specs.Places.{ArePlaces};

use crate::numbers::{nodes_of, place, places_of};
use crate::ops::put_op;
use cp_base::Bytes;
use firm_nodes::{BlockId, FirmEnd, Graph, NodeId};
use std::alloc::{AllocError, Global};

/// The name and the number of parameters, and for each block in the order its predecessors, its nodes and its end, a line each.
#[tactic(auto, unfolding(crate::specs::Text::firm_text))]
pub fn firm_text(alloc: Global, graph: &Graph) -> Result<Bytes, AllocError>
    ensures { IfOk result (λ text. text ≡ firm_text graph.now) }
{
    let places = places_of(alloc, graph.blocks())?;
    let mut out = Bytes::new(alloc);
    put_head(&mut out, graph)?;
    put_blocks(alloc, &mut out, graph, places.as_slice())?;
    Ok(out)
}

fn put_head(out: &mut Bytes, graph: &Graph) -> Result<(), AllocError>
    ensures { OnOk result (out.new ≡ out.old ++ firm_line graph.now) }
{
    out.push_all(b"graph ")?;
    out.push_all(graph.name().as_bytes())?;
    put_number(out, graph.params())?;
    out.push_all(b"\n")
}

fn put_blocks(
    alloc: Global,
    out: &mut Bytes,
    graph: &Graph,
    places: &[usize],
) -> Result<(), AllocError>
    requires { ArePlaces graph.now.order places.now }
    ensures { OnOk result (out.new ≡ out.old ++ flat_map (block_text graph.now) graph.now.order) }
{
    let blocks = graph.blocks();
    for block in blocks {
        put_block(alloc, out, graph, places, *block)?;
    }
    Ok(())
}

fn put_block(
    alloc: Global,
    out: &mut Bytes,
    graph: &Graph,
    places: &[usize],
    block: BlockId,
) -> Result<(), AllocError>
    requires places { ArePlaces graph.now.order places.now }
    requires block { IsBlock graph.now block.number }
    ensures { OnOk result (out.new ≡ out.old ++ block_text graph.now block.number) }
{
    let nodes = nodes_of(alloc, graph, block)?;
    put_block_line(out, graph, places, block)?;
    put_nodes(out, graph, nodes.as_slice())?;
    put_end(out, graph, places, graph.end_of(block))
}

fn put_block_line(
    out: &mut Bytes,
    graph: &Graph,
    places: &[usize],
    block: BlockId,
) -> Result<(), AllocError>
    requires places { ArePlaces graph.now.order places.now }
    requires block { IsBlock graph.now block.number }
    ensures { OnOk result (out.new ≡ out.old ++ block_line graph.now block.number) }
{
    out.push_all(b"block")?;
    put_place(out, graph, places, block.number)?;
    out.push_all(b" from")?;
    put_preds(out, graph, places, graph.preds(block))?;
    out.push_all(b"\n")
}

fn put_preds(
    out: &mut Bytes,
    graph: &Graph,
    places: &[usize],
    preds: &[usize],
) -> Result<(), AllocError>
    requires { ArePlaces graph.now.order places.now }
    ensures { OnOk result (out.new ≡ out.old ++ flat_map (place_after_blank graph.now) preds.now) }
{
    for pred in preds {
        put_place(out, graph, places, *pred)?;
    }
    Ok(())
}

fn put_nodes(out: &mut Bytes, graph: &Graph, nodes: &[usize]) -> Result<(), AllocError>
    requires { (index : ℕ) → index < length nodes.now → IsNode graph.now (slice_index nodes.now index) }
    ensures { OnOk result (out.new ≡ out.old ++ flat_map (node_line graph.now) nodes.now) }
{
    for node in nodes {
        put_node(out, graph, NodeId { number: *node })?;
    }
    Ok(())
}

fn put_node(out: &mut Bytes, graph: &Graph, id: NodeId) -> Result<(), AllocError>
    requires { IsNode graph.now id.number }
    ensures { OnOk result (out.new ≡ out.old ++ node_line graph.now id.number) }
{
    out.push_number(id.number)?;
    out.push_all(b" ")?;
    put_op(out, graph.node(id).op)?;
    put_numbers(out, graph.operands(id))?;
    out.push_all(b"\n")
}

fn put_end(
    out: &mut Bytes,
    graph: &Graph,
    places: &[usize],
    end: Option<FirmEnd>,
) -> Result<(), AllocError>
    requires { ArePlaces graph.now.order places.now }
    ensures { OnOk result (out.new ≡ out.old ++ end_line graph.now end) }
{
    match end {
        None => Ok(()),
        Some(FirmEnd::Jump(to)) => {
            out.push_all(b"jump")?;
            put_place(out, graph, places, to.number)?;
            out.push_all(b"\n")
        }
        Some(FirmEnd::Branch(node, first, second)) => {
            out.push_all(b"branch")?;
            put_number(out, node.number)?;
            put_place(out, graph, places, first.number)?;
            put_place(out, graph, places, second.number)?;
            out.push_all(b"\n")
        }
        Some(FirmEnd::Return(memory, value)) => {
            out.push_all(b"return")?;
            put_number(out, memory.number)?;
            put_value(out, value)?;
            out.push_all(b"\n")
        }
    }
}

fn put_value(out: &mut Bytes, value: Option<NodeId>) -> Result<(), AllocError>
    ensures { OnOk result (out.new ≡ out.old ++ value_text value) }
{
    match value {
        None => Ok(()),
        Some(value) => put_number(out, value.number),
    }
}

fn put_place(
    out: &mut Bytes,
    graph: &Graph,
    places: &[usize],
    block: usize,
) -> Result<(), AllocError>
    requires { ArePlaces graph.now.order places.now }
    ensures { OnOk result (out.new ≡ out.old ++ place_after_blank graph.now block) }
{
    put_number(out, place(graph, places, block))
}

fn put_numbers(out: &mut Bytes, list: &[usize]) -> Result<(), AllocError>
    ensures { OnOk result (out.new ≡ out.old ++ list_text list.now) }
{
    for number in list {
        put_number(out, *number)?;
    }
    Ok(())
}

// The number after a blank.
fn put_number(out: &mut Bytes, number: usize) -> Result<(), AllocError>
    ensures { OnOk result (out.new ≡ out.old ++ after_blank number) }
{
    out.push_all(b" ")?;
    out.push_number(number)
}
