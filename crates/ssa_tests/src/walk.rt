// A plain look-up along one walk, against which reads are compared.
ghost use Rattle.std.specs.Prelude.{◌<◌, length};
ghost use Rattle.std.specs.Option.{IfSome};

use crate::lists::{ListTarget, Tag};
use std::alloc::AllocError;

/// A block on a walk, with the place of its predecessor by which the walk came; the last block of the walk is first.
#[derive(Clone, Copy)]
pub struct Visit {
    pub block: usize,
    pub place: usize,
}

/// A value is written to a variable in a block.
#[derive(Clone, Copy)]
pub struct Wrote {
    pub var: usize,
    pub block: usize,
    pub value: usize,
}

// One step back of the walk of this code, where the block has a predecessor.
fn step_back(target: &ListTarget, block: usize, code: usize) -> Option<(usize, usize)> {
    let preds = &target.blocks.get(block)?.preds;
    if preds.is_empty() {
        return None;
    }
    let place = code % preds.len();
    Some((place, preds[place]))
}

/// The walk of this code to the block, of at most 8 edges; false where it does not begin at the first block.
pub fn walk_to(
    target: &ListTarget,
    block: usize,
    code: usize,
    walk: &mut Vec<Visit>,
) -> Result<bool, AllocError> {
    walk.clear();
    let mut at = block;
    let mut rest = code;
    for _ in 0..9 {
        match step_back(target, at, rest % 3) {
            Some((place, pred)) => {
                walk.push(Visit { block: at, place })?;
                at = pred;
                rest /= 3;
            }
            None => {
                walk.push(Visit {
                    block: at,
                    place: 0,
                })?;
                return Ok(at == 0);
            }
        }
    }
    Ok(false)
}

// The next visit of the block on the walk, from a place on.
fn next_visit(walk: &[Visit], from: usize, block: usize) -> Option<usize>
    ensures { IfSome result (λ visit. visit < length walk.now) }
{
    for index in from..walk.len() {
        if walk[index].block == block {
            return Some(index);
        }
    }
    None
}

/// What the value means on the walk, from a place on: a value that is no Phi, with the place of its visit.
pub fn along(
    target: &ListTarget,
    walk: &[Visit],
    from: usize,
    value: usize,
) -> Option<(usize, usize)> {
    let mut at = from;
    let mut now = value;
    for _ in 0..10 {
        let held = target.values.get(now)?;
        let visit = next_visit(walk, at, held.block)?;
        match held.tag {
            Tag::Other => return Some((now, visit)),
            Tag::Phi if visit + 1 < walk.len() => {
                now = *held.operands.get(walk[visit].place)?;
                at = visit + 1;
            }
            _ => return None,
        }
    }
    None
}

// The value last written to the variable in the block.
fn written(writes: &[Wrote], var: usize, block: usize) -> Option<usize> {
    let mut last = None;
    for write in writes {
        if write.var == var && write.block == block {
            last = Some(write.value);
        }
    }
    last
}

/// The value last written to the variable on the walk, along the walk up to that write.
pub fn last(
    target: &ListTarget,
    walk: &[Visit],
    writes: &[Wrote],
    var: usize,
) -> Option<(usize, usize)> {
    for index in 0..walk.len() {
        if let Some(value) = written(writes, var, walk[index].block) {
            return along(target, walk, index, value);
        }
    }
    None
}
