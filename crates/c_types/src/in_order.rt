// Things that stand one behind the other in memory.
ghost use Rattle.std.specs.Prelude.{◌≡◌, ◌<◌, ◌≤◌, ◌^◌, IfOk};
ghost use Rattle.c_types.specs.InOrder.{AreAligned, IsLeastMultiple, end_of, greatest_align, least_multiple, offsets};

use crate::kind::{MAX_SIZE, Measure};
use cp_base::Items;
use std::alloc::{AllocError, Global};

/// Places in the data.
pub type Offsets = Items<u32>;

/// The least multiple of the alignment that is not before a place.
pub fn least_multiple(align: u32, from: u128) -> u128
    requires some { 0 < align }
    requires room { from < 2 ^ 127 }
    ensures is { result ≡ least_multiple align from }
    ensures least { IsLeastMultiple align from result }
{
    let align = u128::from(align);
    (from + (align - 1)) / align * align
}

/// Where the last of them ends.
pub fn end_of(measures: &[Measure]) -> u128
    requires { AreAligned measures.now }
    ensures is { result ≡ end_of measures.now }
    ensures room { result < 2 ^ 127 }
{
    let mut end = 0;
    for measure in measures {
        end = least_multiple(measure.align, end) + u128::from(measure.size);
    }
    end
}

/// The greatest of their alignments.
pub fn greatest_align(measures: &[Measure]) -> u32
    ensures { result ≡ greatest_align measures.now }
{
    let mut align = 1;
    for measure in measures {
        if measure.align > align {
            align = measure.align;
        }
    }
    align
}

/// Where each of them begins.
pub fn offsets_of(alloc: Global, measures: &[Measure]) -> Result<Offsets, AllocError>
    requires aligned { AreAligned measures.now }
    requires fits { end_of measures.now ≤ MAX_SIZE }
    ensures { IfOk result (λ found. found ≡ offsets measures.now) }
{
    let mut found = Offsets::new(alloc);
    let mut end = 0;
    for measure in measures {
        let at = least_multiple(measure.align, end);
        found.push(at as u32)?;
        end = at + u128::from(measure.size);
    }
    Ok(found)
}
