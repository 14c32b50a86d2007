// Reads and seals over a target, each read compared with the plain look-up.
ghost use Rattle.std.specs.Prelude.{◌≡◌, ℕ, ◌<◌, true, false, [], length, Some, IfOk, OnOk, IsTrue};
ghost use Rattle.std.specs.List.{slice_get};
ghost use Rattle.ssa_core.specs.Shapes.{IsThere, word};
ghost use Rattle.ssa_core.specs.Known.{sealed_in};
ghost use Rattle.ssa_core.specs.Building.{IsReady};
ghost use Rattle.ssa_tests.specs.ListShape.{shape_of};
ghost use Rattle.ssa_tests.specs.Flows.{AreOpen};

use crate::lists::{ListTarget, Tag};
use crate::walk::{Visit, Wrote, along, last, walk_to};
use ssa_core::{SsaBuilder, callers_keep};
use std::alloc::{AllocError, Global};

/// What is asked of the builder, after all writes.
#[derive(Clone, Copy)]
pub enum Step {
    Read(usize, usize),
    Seal(usize),
}

/// A value that was read.
#[derive(Clone, Copy)]
pub struct Answer {
    pub var: usize,
    pub block: usize,
    pub value: usize,
}

// The value is one that the target was given, and its block is there.
fn can_write(target: &ListTarget, block: usize, value: usize) -> bool
    ensures there { result ≡ true → block < (shape_of target.now).blocks }
    ensures value { result ≡ true → IsThere (shape_of target.now) value }
{
    if block >= target.blocks.len() {
        return false;
    }
    match target.values.get(value) {
        Some(held) => matches!(held.tag, Tag::Other) && held.current == value,
        None => false,
    }
}

// All writes, before any read.
fn write_all(
    target: &ListTarget,
    builder: &mut SsaBuilder<ListTarget>,
    writes: &[Wrote],
) -> Result<(), AllocError>
    requires ready { IsReady (λ var. word) builder.old (shape_of target.now) }
    requires unread { builder.old.reads ≡ [] }
    ensures ready { OnOk result (IsReady (λ var. word) builder.new (shape_of target.now)) }
    ensures sealed { OnOk result (builder.new.sealed ≡ builder.old.sealed) }
{
    for write in writes {
        if can_write(target, write.block, write.value) {
            builder.write(target, write.var, write.block, write.value)?;
        }
    }
    Ok(())
}

// The steps, in order; a block is sealed once.
fn take_steps(
    target: &mut ListTarget,
    builder: &mut SsaBuilder<ListTarget>,
    steps: &[Step],
    flags: &mut Vec<bool>,
    answers: &mut Vec<Answer>,
) -> Result<(), AllocError>
    requires ready { IsReady (λ var. word) builder.old (shape_of target.old) }
    requires unsealed { AreOpen flags.old.items builder.old.sealed }
{
    for step in steps {
        take_step(target, builder, *step, flags, answers)?;
    }
    Ok(())
}

fn take_step(
    target: &mut ListTarget,
    builder: &mut SsaBuilder<ListTarget>,
    step: Step,
    flags: &mut Vec<bool>,
    answers: &mut Vec<Answer>,
) -> Result<(), AllocError>
    requires ready { IsReady (λ var. word) builder.old (shape_of target.old) }
    requires unsealed { AreOpen flags.old.items builder.old.sealed }
    ensures ready { OnOk result (IsReady (λ var. word) builder.new (shape_of target.new)) }
    ensures unsealed { OnOk result (AreOpen flags.new.items builder.new.sealed) }
{
    match step {
        Step::Read(var, block) if block < target.blocks.len() => {
            let value = builder.read(target, var, block)?;
            answers.push(Answer { var, block, value })?;
            Ok(())
        }
        Step::Seal(block) if block < target.blocks.len() && block < flags.len() && flags[block] => {
            builder.seal(target, block)?;
            flags[block] = false;
            Ok(())
        }
        _ => Ok(()),
    }
}

// The blocks and edges, and a value for each write.
fn build(
    alloc: Global,
    blocks: usize,
    edges: &[(usize, usize)],
    writes: &[(usize, usize)],
) -> Result<ListTarget, AllocError> {
    let mut target = ListTarget::new(alloc);
    for _ in 0..blocks {
        target.add_block()?;
    }
    for (from, to) in edges {
        target.add_edge(*from, *to)?;
    }
    for (_, block) in writes {
        target.add(*block, Tag::Other)?;
    }
    Ok(target)
}

// On each walk of at most 8 edges what was read is what was last written.
fn agrees(
    target: &ListTarget,
    writes: &[Wrote],
    answer: Answer,
    walk: &mut Vec<Visit>,
) -> Result<bool, AllocError> {
    for code in 0..6561 {
        if walk_to(target, answer.block, code, walk)? {
            let read = along(target, walk, 0, answer.value);
            let wanted = last(target, walk, writes, answer.var);
            if read != wanted {
                return Ok(false);
            }
        }
    }
    Ok(true)
}

/// All reads of the steps agree with the plain look-up, once all is sealed.
pub fn reads_agree(
    alloc: Global,
    blocks: usize,
    edges: &[(usize, usize)],
    written: &[(usize, usize)],
    steps: &[Step],
) -> Result<bool, AllocError> {
    let mut target = build(alloc, blocks, edges, written)?;
    let mut writes = Vec::new(alloc);
    for (var, block) in written {
        let value = writes.len();
        writes.push(Wrote {
            var: *var,
            block: *block,
            value,
        })?;
    }
    let mut flags = Vec::new(alloc);
    for _ in 0..blocks {
        flags.push(true)?;
    }
    let mut answers = Vec::new(alloc);
    answer_all(alloc, &mut target, &writes, steps, &mut flags, &mut answers)?;
    let mut walk = Vec::new(alloc);
    for answer in &answers {
        if !agrees(&target, &writes, *answer, &mut walk)? {
            return Ok(false);
        }
    }
    Ok(true)
}

/// All writes, and then the steps.
pub fn answer_all(
    alloc: Global,
    target: &mut ListTarget,
    writes: &[Wrote],
    steps: &[Step],
    flags: &mut Vec<bool>,
    answers: &mut Vec<Answer>,
) -> Result<(), AllocError> {
    callers_keep::<ListTarget>();
    let mut builder: SsaBuilder<ListTarget> = SsaBuilder::new(alloc);
    write_all(target, &mut builder, writes)?;
    take_steps(target, &mut builder, steps, flags, answers)
}
