// Strings that initialize arrays (C99 6.7.8, 14).
ghost use Rattle.std.specs.Prelude.{◌≡◌, ◌<◌, ◌≤◌, ◌%◌, ◌^◌, List, IfOk, length, map};
ghost use Rattle.c_typing.specs.Types as types;
ghost use Rattle.c_typing.specs.Initializers as initializers;
ghost use Rattle.c_type_ids.specs.Ids.{Known, Names, Shows};
ghost use Rattle.c_values.specs.Typings.{IsType, ShownAs};
ghost use Rattle.c_judgements.specs.Judged.{wrapped};

use c_type_ids::{Integer, Kind, TypeTable};
use c_types::{Cell, CellValue, Cells, TypeId};
use c_values::{Shown, Type, kind_of};
use cp_base::Items;
use std::alloc::{AllocError, Global};

/// An array of a character type.
pub fn is_text_array(table: &TypeTable, kind: Type) -> bool
    requires { (t : types.CType) × IsType table.now kind t }
    ensures { (t : types.CType) → IsType table.now kind t → result ≡ types.is_text_array t }
{
    match kind_of(table, kind) {
        Shown::Kind(Kind::Array(element, _)) => is_character(table.kind(element)),
        Shown::Unsized(element) => is_character(table.kind(element)),
        _ => false,
    }
}

fn is_character(kind: Kind) -> bool
    ensures { (k : Known) (t : types.CType) → Shows k kind t → result ≡ types.is_character t }
{
    matches!(
        kind,
        Kind::Integer(Integer::Char | Integer::SChar | Integer::UChar)
    )
}

/// An array of this type is too short for so many bytes.
pub fn is_too_long(table: &TypeTable, kind: Type, bytes: usize) -> bool
    requires { (t : types.CType) × IsType table.now kind t }
    ensures { (t : types.CType) → IsType table.now kind t → result ≡ initializers.is_too_long t bytes }
{
    match kind_of(table, kind) {
        Shown::Kind(Kind::Array(_, count)) => (count as usize) < bytes,
        _ => false,
    }
}

/// The cells of the bytes of a string, which leave its zero.
pub fn text_cells(alloc: Global, bytes: &[u8]) -> Result<Cells, AllocError>
    ensures { IfOk result (λ cells. cells ≡ map wrapped (initializers.text_cells 0 bytes.now)) }
{
    let mut cells = Items::new(alloc);
    for k in 0..bytes.len() {
        cells.push(Cell {
            offset: (k % 0x1_0000_0000) as u32,
            width: 1,
            value: CellValue::Number(bytes[k] as u32),
        })?;
    }
    Ok(cells)
}
