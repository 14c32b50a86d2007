// The nodes by their numbers, with who uses them.
ghost use Rattle.std.specs.Prelude.{◌≡◌, ◌≢◌, ◌<◌, ◌≤◌, [], ◌∷◌, ◌++◌, ℕ, true, MatchBool, length, map, if◌then◌else◌, slice_index, slice_index_or, OnOk, OnErr, IfOk};
ghost use Rattle.std.specs.List.{remove};
ghost use Rattle.firm_uses.specs.Counts.{times};
ghost use Rattle.cp_obstack.specs.Lists.{list_of};
ghost use Rattle.firm_uses.specs.Tables.{with_list};
ghost use Rattle.firm_rules.specs.Rules.{is_phi as op_is_phi};
ghost use Rattle.firm_tables.specs.Held.{no_row, lost_operand, lost_times, Covers, IsRow};
ghost use Rattle.firm_tables.specs.Nodes.{numbers, stands_in, IsLike, node_of, made, with_operands, without, without_operand, renamed_node, replaced};

use crate::leaves::Leaves;
use crate::members::Members;
use crate::uses::{be_own, enter};
use firm_rules::{BlockId, NodeId, NodeOp};
use firm_uses::Uses;
use std::alloc::{AllocError, Global};
use std::marker::Model;

/// What a node does, and the block that it stands in.
#[derive(Clone, Copy, Debug, PartialEq, Eq)]
pub struct Node {
    pub op: NodeOp,
    pub block: BlockId,
}

#[derive(Clone, Copy, Debug)]
struct Stored {
    op: NodeOp,
    block: usize,
    there: bool,
}

/// The nodes of a graph, each by its number.
#[derive(Drop)]
pub struct Nodes {
    rows: Vec<Stored>,
    operands: Uses,
    // What is now in the place of each.
    currents: Uses,
    members: Members,
    leaves: Leaves,
}

impl Model for Nodes {
    ghost use Rattle.std.specs.Prelude.{List, length};
    ghost use Rattle.firm_rules.specs.Graphs.{FirmNode};

    ghost Value = { List FirmNode };

    ghost use Rattle.firm_tables.specs.Held.{nodes_from, AreHeld, AreMembers};
    ghost use Rattle.firm_tables.specs.Leaves.{AreLeaves};

    ghost view = { λ n. nodes_from 0 n.operands.uses n.currents.uses n.rows.items };

    ghost invariant = { λ n. AreHeld (length n.rows.items) n.operands n.currents × (AreMembers n.rows.items n.members × AreLeaves n.rows.items n.leaves) };
}

impl Nodes {
    /// No node.
    pub fn new(alloc: Global) -> Nodes
        ensures { result ≡ [] }
    {
        Nodes {
            rows: Vec::new(alloc),
            operands: Uses::new(alloc),
            currents: Uses::new(alloc),
            members: Members::new(alloc),
            leaves: Leaves::new(alloc),
        }
    }

    /// How many nodes there were so far.
    pub fn len(&self) -> usize
        ensures { result ≡ length self.now }
    {
        self.rows.len()
    }

    /// A new node.
    pub fn add(
        &mut self,
        op: NodeOp,
        block: usize,
        operands: &[NodeId],
    ) -> Result<usize, AllocError>
        requires { (index : ℕ) → index < length operands.now → slice_index (numbers operands.now) index < length self.old }
        ensures ok { OnOk result (self.new ≡ self.old ++ made (length self.old) op block (numbers operands.now) ∷ []) }
        ensures number { IfOk result (λ number. number ≡ length self.old) }
        ensures err { OnErr result (self.new ≡ self.old) }
    {
        let number = self.rows.len();
        self.rows.reserve(1)?;
        be_own(&mut self.currents, number)?;
        self.leaves.enlist(op, block, number)?;
        self.members.push(block, number)?;
        if enter(&mut self.operands, number, operands).is_err() {
            self.members.remove(block, number);
            return Err(AllocError);
        }
        let _ = self.rows.push(Stored {
            op,
            block,
            there: true,
        });
        Ok(number)
    }

    /// The node of this number.
    pub fn node(&self, number: usize) -> Node
        requires { number < length self.now }
        ensures op { result.op ≡ (node_of self.now number).op }
        ensures block { result.block.number ≡ (node_of self.now number).block }
    {
        let Stored { op, block, .. } = self.rows[number];
        Node {
            op,
            block: BlockId { number: block },
        }
    }

    /// Whether it was neither replaced nor removed.
    pub fn is_there(&self, number: usize) -> bool
        requires { number < length self.now }
        ensures { result ≡ (node_of self.now number).there }
    {
        self.rows[number].there
    }

    /// Whether the node is there in the block, and has this operation and these operands.
    pub fn is_like(&self, number: usize, op: NodeOp, block: usize, operands: &[NodeId]) -> bool
        requires { number < length self.now }
        ensures { MatchBool result (IsLike self.now op block (numbers operands.now) number) (IsLike self.now op block (numbers operands.now) number → ⊥) }
    {
        let row = self.rows[number];
        if !is_row(row, op, block) {
            return false;
        }
        are_numbers(self.operands.list(number), operands)
    }

    /// What is now in the place of the node.
    pub fn current(&self, number: usize) -> usize
        requires { number < length self.now }
        ensures { result ≡ (node_of self.now number).current }
    {
        self.currents.list(number)[0]
    }

    /// The operands of the node.
    pub fn operands(&self, number: usize) -> &[usize]
        requires { number < length self.now }
        ensures { result.now ≡ (node_of self.now number).operands }
    {
        self.operands.list(number)
    }

    /// The nodes that have it as an operand, each as often as it has it.
    pub fn users(&self, number: usize) -> &[usize]
        requires { number < length self.now }
        ensures { (user : ℕ) → times user result.now ≡ times number (node_of self.now user).operands }
    {
        self.operands.users(number)
    }

    /// The nodes that are there in the block, each once.
    pub fn members(&self, block: usize) -> &[NodeId]
        ensures { (n : ℕ) → times n (numbers result.now) ≡ (if stands_in (node_of self.now n) block then 1 else 0) }
    {
        self.members.list(block)
    }

    /// At least the nodes that are there in the block with the operation and without operands.
    pub fn alike(&self, op: NodeOp, block: usize) -> &[NodeId]
        ensures { (n : ℕ) → IsLike self.now op block [] n → 0 < times n (numbers result.now) }
    {
        match self.leaves.list(op, block) {
            Some(list) => list,
            None => self.members.list(block),
        }
    }

    /// The node has one operand more, last.
    pub fn append(&mut self, number: usize, operand: usize) -> Result<(), AllocError>
        requires there { number < length self.old }
        requires operand { operand < length self.old }
        ensures ok { OnOk result (self.new ≡ with_operands self.old number ((node_of self.old number).operands ++ operand ∷ [])) }
        ensures err { OnErr result (self.new ≡ self.old) }
    {
        self.operands.push(number, operand)
    }

    /// The node loses the operand at the index.
    pub fn lose(&mut self, number: usize, index: usize)
        requires there { number < length self.old }
        requires within { index < length (node_of self.old number).operands }
        ensures { self.new ≡ with_operands self.old number (remove (node_of self.old number).operands index) }
    {
        self.operands.remove(number, index);
    }

    /// Each Phi of the block has one operand less, that at the place, where it has one there.
    pub fn lose_operands(&mut self, block: usize, place: usize)
        ensures { self.new ≡ map (without_operand block place) self.old }
    {
        lose_at(
            &mut self.operands,
            &self.rows,
            self.members.list(block),
            place,
        );
    }

    /// The node is gone.
    pub fn remove(&mut self, number: usize)
        requires { (node_of self.old number).there ≡ true }
        ensures { self.new ≡ without self.old number }
    {
        let Stored { op, block, .. } = self.rows[number];
        self.leaves.strike(op, block, number);
        self.operands.clear(number);
        self.members.remove(block, number);
        self.rows[number] = Stored {
            op,
            block,
            there: false,
        };
    }

    /// Puts a node in the place of another, which is gone.
    pub fn replace(&mut self, old: usize, to: usize) -> Result<(), AllocError>
        requires old { (node_of self.old old).there ≡ true }
        requires to { to < length self.old }
        requires differs { to ≢ old }
        ensures ok { OnOk result (self.new ≡ replaced self.old old to) }
        ensures err { OnErr result (self.new ≡ self.old) }
    {
        self.rename(old, to)?;
        self.remove(old);
        Ok(())
    }

    // Puts a node in the place of another, which is still there.
    fn rename(&mut self, old: usize, to: usize) -> Result<(), AllocError>
        requires old { old < length self.old }
        requires to { to < length self.old }
        requires differs { to ≢ old }
        ensures ok { OnOk result (self.new ≡ map (renamed_node old to) self.old) }
        ensures err { OnErr result (self.new ≡ self.old) }
    {
        self.currents.reserve(old, to)?;
        self.operands.replace(old, to)?;
        let _ = self.currents.replace(old, to);
        Ok(())
    }
}

// Each Phi among the nodes has one operand less.
fn lose_at(operands: &mut Uses, rows: &[Stored], nodes: &[NodeId], place: usize)
    requires covers { Covers (length rows.now) operands.old }
    requires there { (index : ℕ) → index < length nodes.now → slice_index (numbers nodes.now) index < length rows.now }
    requires once { (n : ℕ) → times n (numbers nodes.now) ≤ 1 }
    ensures covers { Covers (length rows.now) operands.new }
    ensures lists { (n : ℕ) → list_of operands.new.uses n
        ≡ lost_times (times n (numbers nodes.now)) (slice_index_or rows.now n no_row).op place (list_of operands.old.uses n) }
{
    for node in nodes {
        lose_one(operands, rows[node.number].op, node.number, place);
    }
}

// If it is a Phi, it has one operand less.
fn lose_one(operands: &mut Uses, op: NodeOp, node: usize, place: usize)
    requires { node < length operands.old.uses }
    ensures uses { operands.new.uses ≡ with_list operands.old.uses node (lost_operand op place (list_of operands.old.uses node)) }
    ensures loads { length operands.new.loads ≡ length operands.old.loads }
{
    if !is_phi(op) {
        return;
    }
    if place < operands.list(node).len() {
        operands.remove(node, place);
    }
}

fn is_phi(op: NodeOp) -> bool
    ensures { result ≡ op_is_phi op }
{
    matches!(op, NodeOp::Phi(_))
}

// The row is of a node that is there in the block and has the operation.
fn is_row(row: Stored, op: NodeOp, block: usize) -> bool
    ensures { MatchBool result (IsRow row op block) (IsRow row op block → ⊥) }
{
    if !row.there {
        return false;
    }
    if row.block != block {
        return false;
    }
    row.op == op
}

// The list is the numbers of the nodes.
fn are_numbers(list: &[usize], nodes: &[NodeId]) -> bool
    ensures { MatchBool result (list.now ≡ numbers nodes.now) (list.now ≡ numbers nodes.now → ⊥) }
{
    if list.len() != nodes.len() {
        return false;
    }
    for index in 0..list.len() {
        if list[index] != nodes[index].number {
            return false;
        }
    }
    true
}
