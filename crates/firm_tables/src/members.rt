// Which nodes stand in each block.
ghost use Rattle.std.specs.Prelude.{◌≡◌, ◌≢◌, ◌<◌, ◌+◌, [], ◌∷◌, ◌++◌, ℕ, length, OnOk, OnErr, slice_index};
ghost use Rattle.cp_obstack.specs.Lists.{list_of};
ghost use Rattle.firm_uses.specs.Counts.{times};
ghost use Rattle.firm_tables.specs.Nodes.{numbers};

use firm_rules::NodeId;
use std::alloc::{AllocError, Global};
use std::marker::Model;

// The nodes of each block.
#[derive(Drop)]
pub(crate) struct Members {
    alloc: Global,
    lists: Vec<Vec<NodeId>>,
    // For each node the place where it was last put in its list. This is a hint alone: it is read where it is right.
    places: Vec<usize>,
}

impl Model for Members {
    ghost use Rattle.std.specs.Prelude.{List, ℕ, map};

    ghost Value = { List (List ℕ) };

    ghost use Rattle.firm_tables.specs.Nodes.{numbers};

    ghost view = { λ m. map (λ list. numbers list.items) m.lists.items };
}

impl Members {
    pub(crate) fn new(alloc: Global) -> Members
        ensures { result ≡ [] }
    {
        Members {
            alloc,
            lists: Vec::new(alloc),
            places: Vec::new(alloc),
        }
    }

    pub(crate) fn list(&self, block: usize) -> &[NodeId]
        ensures { numbers result.now ≡ list_of self.now block }
    {
        match self.lists.get(block) {
            Some(list) => list,
            None => &[],
        }
    }

    // One node more in the block.
    pub(crate) fn push(&mut self, block: usize, node: usize) -> Result<(), AllocError>
        ensures ok { OnOk result (list_of self.new block ≡ list_of self.old block ++ node ∷ []) }
        ensures err { OnErr result (list_of self.new block ≡ list_of self.old block) }
        ensures others { (other : ℕ) → other ≢ block → list_of self.new other ≡ list_of self.old other }
    {
        let place = self.list(block).len();
        self.widen(block)?;
        self.lists[block].push(NodeId { number: node })?;
        let _ = note(&mut self.places, node, place);
        Ok(())
    }

    // The block has a list.
    fn widen(&mut self, block: usize) -> Result<(), AllocError>
        ensures ok { OnOk result (block < length self.new) }
        ensures same { (other : ℕ) → list_of self.new other ≡ list_of self.old other }
    {
        while self.lists.len() <= block {
            self.lists.push(Vec::new(self.alloc))?;
        }
        Ok(())
    }

    // One node less in the block.
    pub(crate) fn remove(&mut self, block: usize, node: usize)
        requires { 0 < times node (list_of self.old block) }
        ensures this { (x : ℕ) → times x (list_of self.new block) + times x (node ∷ []) ≡ times x (list_of self.old block) }
        ensures others { (other : ℕ) → other ≢ block → list_of self.new other ≡ list_of self.old other }
    {
        let place = remove_one(&mut self.lists[block], node, hint(&self.places, node));
        settle(&mut self.places, &self.lists[block], place);
    }
}

// Notes the place of the node.
fn note(places: &mut Vec<usize>, node: usize, place: usize) -> Result<(), AllocError> {
    while places.len() <= node {
        places.push(0)?;
    }
    places[node] = place;
    Ok(())
}

// Notes the place of the node that stands there.
fn settle(places: &mut [usize], list: &[NodeId], place: usize) {
    if place >= list.len() {
        return;
    }
    let node = list[place].number;
    if node < places.len() {
        places[node] = place;
    }
}

fn hint(places: &[usize], node: usize) -> usize {
    if node < places.len() { places[node] } else { 0 }
}

// Takes the node out; the last one comes into its place, which is the result.
fn remove_one(list: &mut Vec<NodeId>, node: usize, hint: usize) -> usize
    requires { 0 < times node (numbers list.old.items) }
    ensures { (x : ℕ) → times x (numbers list.new.items) + times x (node ∷ []) ≡ times x (numbers list.old.items) }
{
    let place = place_of(list, node, hint);
    let _ = list.swap_remove(place);
    place
}

// A place of the node: the hint where it is one.
fn place_of(list: &[NodeId], node: usize, hint: usize) -> usize
    requires { 0 < times node (numbers list.now) }
    ensures within { result < length list.now }
    ensures is { slice_index (numbers list.now) result ≡ node }
{
    if hint < list.len() {
        if list[hint].number == node {
            return hint;
        }
    }
    last_place(list, node)
}

// The last place of the node.
fn last_place(list: &[NodeId], node: usize) -> usize
    requires { 0 < times node (numbers list.now) }
    ensures within { result < length list.now }
    ensures is { slice_index (numbers list.now) result ≡ node }
{
    let mut place = list.len() - 1;
    while list[place].number != node {
        place -= 1;
    }
    place
}
