// The bytes of the data.
ghost use Rattle.std.specs.Prelude.{◌≡◌, ◌+◌, ◌≤◌, ◌++◌, ◌∷◌, List, length, map, replicate, IfOk};
ghost use Rattle.std.specs.List.{AllByRecursion};
ghost use Rattle.c_types.specs.Placing as placing;
ghost use Rattle.c_types.specs.Placing.{Placed, cells_of, number_of, painted, placed};
ghost use Rattle.c_types.specs.Writing.{AddressesFit, CellsFit, IsKnown, ObjectsFit};
ghost use Rattle.c_types.specs.WellMade.{IsWellMade};

use crate::placing::place;
use crate::tree::{Cell, CellValue, Object, Unit};
use cp_base::Bytes;
use std::alloc::{AllocError, Global};

/// The bytes of the data, where the first of them has the address `base`.
pub fn image(alloc: Global, unit: &Unit, base: u32) -> Result<Bytes, AllocError>
    requires { IsWellMade unit.now }
    ensures { IfOk result (λ bytes. bytes ≡ placing.image unit.now.objects base) }
{
    let places = place(alloc, unit)?;
    let offsets = places.offsets.as_slice();
    let area = written(alloc, unit.objects.as_slice(), offsets, places.size, base)?;
    bytes_of(alloc, &area)
}

fn written(
    alloc: Global,
    objects: &[Object],
    offsets: &[u32],
    size: u32,
    base: u32,
) -> Result<Vec<u8>, AllocError>
    requires fit { ObjectsFit objects.now offsets.now size }
    requires known { AllByRecursion (λ o. AddressesFit (length offsets.now) o.cells) objects.now }
    ensures { IfOk result (λ area. area.items ≡ painted (cells_of base offsets.now objects.now offsets.now) size) }
{
    let mut area = zeros(alloc, size)?;
    put_objects(&mut area, objects, offsets, base);
    Ok(area)
}

fn zeros(alloc: Global, count: u32) -> Result<Vec<u8>, AllocError>
    ensures { IfOk result (λ area. area.items ≡ replicate count 0) }
{
    let mut area = Vec::new(alloc);
    area.resize(count as usize, 0)?;
    Ok(area)
}

fn bytes_of(alloc: Global, area: &[u8]) -> Result<Bytes, AllocError>
    ensures { IfOk result (λ bytes. bytes ≡ area.now) }
{
    let mut bytes = Bytes::new(alloc);
    bytes.push_all(area)?;
    Ok(bytes)
}

// Writes the cells of the objects over what is there, from the last cell to the first.
fn put_objects(area: &mut [u8], objects: &[Object], offsets: &[u32], base: u32)
    requires fit { ObjectsFit objects.now offsets.now (length area.old) }
    requires known { AllByRecursion (λ o. AddressesFit (length offsets.now) o.cells) objects.now }
    ensures { (done : List Placed) → area.old ≡ painted done (length area.old) →
        area.new ≡ painted (cells_of base offsets.now objects.now offsets.now ++ done) (length area.old) }
{
    let mut left = objects.len();
    while left > 0 {
        left -= 1;
        let cells = objects[left].cells.as_slice();
        put_cells(area, cells, offsets[left], offsets, base);
    }
}

// The same of the cells of one object, which is at this place.
fn put_cells(area: &mut [u8], cells: &[Cell], at: u32, offsets: &[u32], base: u32)
    requires fit { CellsFit cells.now at (length area.old) }
    requires known { AddressesFit (length offsets.now) cells.now }
    ensures { (done : List Placed) → area.old ≡ painted done (length area.old) →
        area.new ≡ painted (map (placed base offsets.now at) cells.now ++ done) (length area.old) }
{
    let mut left = cells.len();
    while left > 0 {
        left -= 1;
        let cell = cells[left];
        let number = number_of(cell.value, offsets, base);
        put_number(area, at as usize + cell.offset as usize, cell.width, number);
    }
}

fn number_of(value: CellValue, offsets: &[u32], base: u32) -> u32
    requires { IsKnown (length offsets.now) value }
    ensures { result ≡ number_of base offsets.now value }
{
    match value {
        CellValue::Number(number) => number,
        CellValue::Address(object, addend) => base
            .wrapping_add(offsets[object])
            .wrapping_add(addend),
    }
}

// Writes so many bytes of a number, the least first.
fn put_number(area: &mut [u8], at: usize, width: u8, number: u32)
    requires { at + width ≤ length area.old }
    ensures { (done : List Placed) → area.old ≡ painted done (length area.old) →
        area.new ≡ painted (record { at = at; width = width; number = number } ∷ done) (length area.old) }
{
    let mut rest = number;
    for k in 0..width as usize {
        area[at + k] = (rest % 256) as u8;
        rest /= 256;
    }
}
