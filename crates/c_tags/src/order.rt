// The order of the first tokens.
ghost use Rattle.std.specs.Prelude.{◌≡◌, ◌<◌, IfOk, get_or, length};
ghost use Rattle.c_nodes.specs.Parents.{nodes_in};
ghost use Rattle.c_tags.specs.Order as rules;
ghost use Rattle.c_tags.specs.Order.{AreDepths, order_in};

use c_nodes::Nodes;
use std::alloc::{AllocError, Global};

/// The numbers of the nodes in the order of their first tokens, each before what is below it.
pub fn by_first_token(alloc: Global, nodes: &Nodes) -> Result<Vec<usize>, AllocError>
    ensures { IfOk result (λ order. order.items ≡ order_in nodes.now) }
{
    let depths = depths_of(alloc, nodes)?;
    let mut order = Vec::new(alloc);
    order.resize(nodes.len(), 0)?;
    put_places(nodes, &depths, &mut order);
    Ok(order)
}

// For each node how many nodes it stands below.
fn depths_of(alloc: Global, nodes: &Nodes) -> Result<Vec<usize>, AllocError>
    ensures { IfOk result (λ depths. AreDepths (nodes_in nodes.now) depths.items) }
{
    let mut depths = Vec::new(alloc);
    depths.resize(nodes.len(), 0)?;
    put_depths(nodes, &mut depths);
    Ok(depths)
}

fn put_depths(nodes: &Nodes, depths: &mut [usize])
    requires { length depths.old ≡ length nodes.now }
    ensures { AreDepths (nodes_in nodes.now) depths.new }
{
    let mut number = nodes.len();
    while number > 0 {
        number -= 1;
        depths[number] = depth_below(depths, nodes.parent(number));
    }
}

// How deep the kids of a node stand.
fn depth_below(depths: &[usize], parent: usize) -> usize
    requires { parent < length depths.now → get_or depths.now parent 0 < length depths.now }
    ensures { result ≡ rules.depth_below depths.now parent }
{
    if parent < depths.len() {
        depths[parent] + 1
    } else {
        0
    }
}

// Before a node come those that end before it begins, and those that it stands below.
fn put_places(nodes: &Nodes, depths: &[usize], order: &mut [usize])
    requires depths { AreDepths (nodes_in nodes.now) depths.now }
    requires long { length order.old ≡ length nodes.now }
    ensures { order.new ≡ order_in nodes.now }
{
    for number in 0..nodes.len() {
        order[nodes.first(number) + depths[number]] = number;
    }
}
