// A long ladder of joins, with ten calls of the builder for each block, for measurements.
use crate::flow::{Answer, Step, answer_all};
use crate::lists::{ListTarget, Tag};
use crate::walk::Wrote;
use std::alloc::{AllocError, Global};

// Each block leads to the next, and each second one to the block after it too.
fn ladder(alloc: Global, blocks: usize) -> Result<ListTarget, AllocError> {
    let mut target = ListTarget::new(alloc);
    for _ in 0..blocks {
        target.add_block()?;
    }
    for block in 0..blocks {
        target.add_edge(block, block.wrapping_add(1))?;
        if block % 2 == 0 {
            target.add_edge(block, block.wrapping_add(2))?;
        }
    }
    Ok(target)
}

// Five writes in each block, to forty variables in turn.
fn writes(alloc: Global, target: &mut ListTarget, blocks: usize) -> Result<Vec<Wrote>, AllocError> {
    let mut all = Vec::new(alloc);
    for block in 0..blocks {
        for turn in 0..5 {
            let var = block.wrapping_mul(5).wrapping_add(turn) % 40;
            let value = target.add(block, Tag::Other)?;
            all.push(Wrote { var, block, value })?;
        }
    }
    Ok(all)
}

// Each block is sealed, and then five variables are read in it.
fn steps(alloc: Global, blocks: usize) -> Result<Vec<Step>, AllocError> {
    let mut all = Vec::new(alloc);
    for block in 0..blocks {
        all.push(Step::Seal(block))?;
        for turn in 0..5 {
            let var = block.wrapping_mul(7).wrapping_add(turn) % 40;
            all.push(Step::Read(var, block))?;
        }
    }
    Ok(all)
}

/// The number of reads over so many blocks that were answered.
pub fn read_ladder(alloc: Global, blocks: usize) -> Result<usize, AllocError> {
    let mut target = ladder(alloc, blocks)?;
    let writes = writes(alloc, &mut target, blocks)?;
    let steps = steps(alloc, blocks)?;
    let mut flags = Vec::new(alloc);
    for _ in 0..blocks {
        flags.push(true)?;
    }
    let mut answers: Vec<Answer> = Vec::new(alloc);
    answer_all(
        alloc,
        &mut target,
        &writes,
        &steps,
        &mut flags,
        &mut answers,
    )?;
    Ok(answers.len())
}
