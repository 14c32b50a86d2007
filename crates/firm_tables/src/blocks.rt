// The blocks by their numbers.
ghost use Rattle.std.specs.Prelude.{◌≡◌, ◌<◌, ◌≤◌, [], ◌∷◌, ◌++◌, ℕ, List, length, map, option_map, slice_index, OnOk, OnErr, IfOk, Some};
ghost use Rattle.std.specs.List.{remove};
ghost use Rattle.cp_obstack.specs.Lists.{list_of};
ghost use Rattle.firm_rules.specs.Lookups.{targets};
ghost use Rattle.firm_rules.specs.Replacing.{renamed_id, renamed_end as end_renamed};
ghost use Rattle.firm_tables.specs.Held.{pushed, renamed_row};
ghost use Rattle.firm_tables.specs.Blocks.{new_block, block_of, with_preds, with_end, sealed_at, linked, renamed_block};

use crate::named::{Named, name_all};
use firm_rules::{FirmEnd, NodeId};
use firm_uses::Rows;
use std::alloc::{AllocError, Global};
use std::marker::Model;

#[derive(Clone, Copy, Debug)]
struct StoredBlock {
    end: Option<FirmEnd>,
    sealed: bool,
}

/// The blocks of a graph, each by its number.
#[derive(Drop)]
pub struct Blocks {
    rows: Vec<StoredBlock>,
    preds: Rows,
    named: Named,
}

impl Model for Blocks {
    ghost use Rattle.std.specs.Prelude.{List, length};
    ghost use Rattle.firm_rules.specs.Graphs.{FirmBlock};

    ghost Value = { List FirmBlock };

    ghost use Rattle.firm_tables.specs.Held.{blocks_from, AreListed};

    ghost view = { λ b. blocks_from 0 b.preds.rows b.rows.items };

    ghost use Rattle.firm_tables.specs.Named.{AreNamed, may_name};

    ghost invariant = { λ b. AreListed (length b.rows.items) b.preds.rows × AreNamed b.rows.items (may_name b.named) };
}

impl Blocks {
    /// No block.
    pub fn new(alloc: Global) -> Blocks
        ensures { result ≡ [] }
    {
        Blocks {
            rows: Vec::new(alloc),
            preds: Rows::new(alloc),
            named: Named::new(alloc),
        }
    }

    /// How many blocks there were so far.
    pub fn len(&self) -> usize
        ensures { result ≡ length self.now }
    {
        self.rows.len()
    }

    /// A new block.
    pub fn add(&mut self) -> Result<usize, AllocError>
        ensures ok { OnOk result (self.new ≡ self.old ++ new_block ∷ []) }
        ensures number { IfOk result (λ number. number ≡ length self.old) }
        ensures err { OnErr result (self.new ≡ self.old) }
    {
        let number = self.rows.len();
        self.rows.reserve(1)?;
        list_for(&mut self.preds, number)?;
        let _ = self.rows.push(StoredBlock {
            end: None,
            sealed: false,
        });
        Ok(number)
    }

    /// The predecessors of the block.
    pub fn preds(&self, block: usize) -> &[usize]
        requires { block < length self.now }
        ensures { result.now ≡ (block_of self.now block).preds }
    {
        self.preds.list(block)
    }

    /// The end of the block, if it has one.
    pub fn end_of(&self, block: usize) -> Option<FirmEnd>
        requires { block < length self.now }
        ensures { result ≡ (block_of self.now block).end }
    {
        self.rows[block].end
    }

    /// Whether all predecessors of the block have come.
    pub fn sealed(&self, block: usize) -> bool
        requires { block < length self.now }
        ensures { result ≡ (block_of self.now block).sealed }
    {
        self.rows[block].sealed
    }

    /// All predecessors of the block have come.
    pub fn seal(&mut self, block: usize)
        requires { block < length self.old }
        ensures { self.new ≡ sealed_at self.old block }
    {
        let StoredBlock { end, .. } = self.rows[block];
        self.rows[block] = StoredBlock { end, sealed: true };
    }

    /// The block has this end, or none.
    pub fn set_end(&mut self, block: usize, end: Option<FirmEnd>)
        requires { block < length self.old }
        ensures { self.new ≡ with_end self.old block end }
    {
        let StoredBlock { sealed, .. } = self.rows[block];
        name_all(&mut self.named, end);
        self.rows[block] = StoredBlock { end, sealed };
    }

    /// The block loses the predecessor at the index.
    pub fn lose(&mut self, block: usize, index: usize)
        requires there { block < length self.old }
        requires within { index < length (block_of self.old block).preds }
        ensures { self.new ≡ with_preds self.old block (remove (block_of self.old block).preds index) }
    {
        self.preds.remove(block, index);
    }

    /// The targets of the end gain a predecessor, last.
    pub fn link(&mut self, from: usize, end: FirmEnd) -> Result<(), AllocError>
        requires { (index : ℕ) → index < length (targets (Some end)) → slice_index (targets (Some end)) index < length self.old }
        ensures ok { OnOk result (self.new ≡ linked from self.old (targets (Some end))) }
        ensures err { OnErr result (self.new ≡ self.old) }
    {
        match end {
            FirmEnd::Jump(to) => self.preds.push(to.number, from),
            FirmEnd::Branch(_, first, second) => {
                push_both(&mut self.preds, first.number, second.number, from)
            }
            FirmEnd::Return(_, _) => Ok(()),
        }
    }

    /// Puts a node in the place of another in each end. Where no end named it, the ends are not looked at.
    pub fn rename(&mut self, old: usize, to: usize)
        ensures { self.new ≡ map (renamed_block old to) self.old }
    {
        if !self.named.has(old) {
            return;
        }
        rename_ends(&mut self.rows, old, to);
        self.named.add(to);
    }
}

// The number gets an empty list.
fn list_for(preds: &mut Rows, number: usize) -> Result<(), AllocError>
    requires { number ≤ length preds.old.rows }
    ensures ok { OnOk result (number < length preds.new.rows) }
    ensures covers { number ≤ length preds.new.rows }
    ensures same { (block : ℕ) → list_of preds.new.rows block ≡ list_of preds.old.rows block }
{
    if preds.len() == number {
        preds.add()?;
    }
    Ok(())
}

// Two lists gain a number, or neither does.
fn push_both(preds: &mut Rows, first: usize, second: usize, from: usize) -> Result<(), AllocError>
    requires first { first < length preds.old.rows }
    requires second { second < length preds.old.rows }
    ensures ok { OnOk result (preds.new.rows ≡ pushed (pushed preds.old.rows first from) second from) }
    ensures err { OnErr result (preds.new.rows ≡ preds.old.rows) }
{
    let len = preds.list(first).len();
    preds.push(first, from)?;
    let both = preds.push(second, from);
    if both.is_err() {
        preds.truncate(first, len);
    }
    both
}

// Puts a node in the place of another in each end.
fn rename_ends(rows: &mut [StoredBlock], old: usize, to: usize)
    ensures { rows.new ≡ map (renamed_row old to) rows.old }
{
    for block in 0..rows.len() {
        let StoredBlock { end, sealed } = rows[block];
        let end = renamed_end(end, old, to);
        rows[block] = StoredBlock { end, sealed };
    }
}

fn renamed_end(end: Option<FirmEnd>, old: usize, to: usize) -> Option<FirmEnd>
    ensures { result ≡ option_map (end_renamed old to) end }
{
    match end {
        None | Some(FirmEnd::Jump(_)) => end,
        Some(FirmEnd::Branch(node, first, second)) => {
            Some(FirmEnd::Branch(renamed_node(node, old, to), first, second))
        }
        Some(FirmEnd::Return(memory, None)) => {
            Some(FirmEnd::Return(renamed_node(memory, old, to), None))
        }
        Some(FirmEnd::Return(memory, Some(value))) => Some(FirmEnd::Return(
            renamed_node(memory, old, to),
            Some(renamed_node(value, old, to)),
        )),
    }
}

fn renamed_node(node: NodeId, old: usize, to: usize) -> NodeId
    ensures { result ≡ renamed_id old to node }
{
    if node.number == old {
        NodeId { number: to }
    } else {
        node
    }
}
