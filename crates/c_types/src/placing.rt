// Where the objects of a unit are.
ghost use Rattle.std.specs.Prelude.{◌≡◌, IfOk};
ghost use Rattle.c_types.specs.InOrder.{StandFrom};
ghost use Rattle.c_types.specs.Placing.{data_size, measures_of, object_offsets};
ghost use Rattle.c_types.specs.WellMade.{IsWellMade};

use crate::in_order::{Offsets, end_of, offsets_of};
use crate::kind::Measure;
use crate::tree::{Object, Unit};
use std::alloc::{AllocError, Global};

/// Where the objects are, and how many bytes they have.
#[derive(Debug, Drop)]
pub struct Places {
    pub offsets: Offsets,
    pub size: u32,
}

/// Places the objects one behind the other.
pub fn place(alloc: Global, unit: &Unit) -> Result<Places, AllocError>
    requires { IsWellMade unit.now }
    ensures offsets { IfOk result (λ places. places.offsets ≡ object_offsets unit.now.objects) }
    ensures least { IfOk result (λ places. StandFrom 0 (measures_of unit.now.objects) places.offsets) }
    ensures size { IfOk result (λ places. places.size ≡ data_size unit.now.objects) }
{
    let measures = measures_of(alloc, unit.objects.as_slice())?;
    let offsets = offsets_of(alloc, &measures)?;
    let size = end_of(&measures) as u32;
    Ok(Places { offsets, size })
}

fn measures_of(alloc: Global, objects: &[Object]) -> Result<Vec<Measure>, AllocError>
    ensures { IfOk result (λ measures. measures.items ≡ measures_of objects.now) }
{
    let mut measures = Vec::new(alloc);
    for object in objects {
        let size = object.size;
        let align = object.align;
        measures.push(Measure { size, align })?;
    }
    Ok(measures)
}
