// A target that is lists of blocks and values.
ghost use Rattle.std.specs.Prelude.{◌≡◌, ℕ, ◌<◌, ◌++◌, ◌∷◌, [], List, length, Option, Some, None, IfOk, OnOk};
ghost use Rattle.std.specs.Option.{IfSome, IfNone};
ghost use Rattle.ssa_core.specs.Shapes.{Shape, Mode, word};
ghost use Rattle.ssa_tests.specs.Edges.{EdgesAreThere};
ghost use Rattle.ssa_tests.specs.ListShape.{shape_of, AddsValue};
ghost use Rattle.std.proofs.Common.{arith};
ghost use Rattle.std.proofs.lemmas.Bool.Decides.{nat_tests};

use crate::lists::{ListBlock, ListTarget, ListValue, Tag};
use crate::only::only_of;
use ssa_core::SsaTarget;
use std::alloc::{AllocError, Global};

impl ListTarget {
    /// No block and no value.
    pub fn new(alloc: Global) -> ListTarget {
        ListTarget {
            alloc,
            blocks: Vec::new(alloc),
            values: Vec::new(alloc),
        }
    }

    /// A new block without predecessor.
    pub fn add_block(&mut self) -> Result<usize, AllocError> {
        let number = self.blocks.len();
        self.blocks.push(ListBlock {
            preds: Vec::new(self.alloc),
        })?;
        Ok(number)
    }

    /// One predecessor more, where both blocks are there.
    pub fn add_edge(&mut self, from: usize, to: usize) -> Result<(), AllocError> {
        if from < self.blocks.len() && to < self.blocks.len() {
            push_pred(&mut self.blocks, to, from)?;
        }
        Ok(())
    }

    /// A new value.
    pub fn add(&mut self, block: usize, tag: Tag) -> Result<usize, AllocError>
        ensures number { IfOk result (λ v. v ≡ length self.old.values.items) }
        ensures value { OnOk result (AddsValue self.old self.new block tag) }
    {
        let number = self.values.len();
        self.values.push(ListValue {
            tag,
            operands: Vec::new(self.alloc),
            block,
            current: number,
        })?;
        Ok(number)
    }
}

impl SsaTarget for ListTarget {
    type Value = usize;

    ghost mode_of = { λ var. word };

    ghost shape = { shape_of };

    ghost meaning = { Unit {0} };

    ghost obeys = { λ t. Unit {0} };

    ghost run = { λ t. tt };

    ghost remainder = { Unit {0} };

    ghost rest = { λ t. tt };

    fn pred_count(&self, block: usize) -> usize {
        self.blocks[block].preds.len()
    }

    fn pred(&self, block: usize, index: usize) -> usize {
        self.blocks[block].preds[index]
    }

    fn phi(&mut self, block: usize, _var: usize) -> Result<usize, AllocError> {
        self.add(block, Tag::Phi)
    }

    fn append(&mut self, phi: usize, operand: usize) -> Result<(), AllocError> {
        self.values[phi].operands.push(operand)?;
        Ok(())
    }

    fn only_operand(&self, phi: usize) -> Option<usize> {
        let value = &self.values[phi];
        let preds = match self.blocks.get(value.block) {
            Some(block) => block.preds.len(),
            None => 0,
        };
        if value.operands.len() != preds {
            return None;
        }
        only_of(&value.operands, phi)
    }

    fn replace(&mut self, _old: usize, _new: usize) -> Result<(), AllocError> {
        Err(AllocError)
    }

    fn current(&self, value: usize) -> usize {
        self.values[value].current
    }

    fn unknown(&mut self, block: usize, _var: usize) -> Result<usize, AllocError> {
        self.add(block, Tag::Unknown)
    }

    ghost same = { λ a b e. Prim.grind (arith, nat_tests, e) };

    ghost equal = { λ a. Prim.grind (arith, nat_tests) };
}

// One predecessor more of the block.
fn push_pred(blocks: &mut Vec<ListBlock>, to: usize, from: usize) -> Result<(), AllocError>
    requires from_there { from < length blocks.old.items }
    requires to_there { to < length blocks.old.items }
    ensures { EdgesAreThere blocks.old.items → EdgesAreThere blocks.new.items }
{
    blocks[to].preds.push(from)?;
    Ok(())
}
