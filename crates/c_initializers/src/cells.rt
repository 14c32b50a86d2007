// Cells that are moved.
ghost use Rattle.std.specs.Prelude.{◌≡◌, ◌%◌, ◌^◌, ℕ, List, map};
ghost use Rattle.c_types.specs.declared.tree.Cell as rules;
ghost use Rattle.c_typing.specs.Initializers as initializers;
ghost use Rattle.c_judgements.specs.Judged.{wrapped};

use c_types::{Cell, Cells};

/// Moves the cells of a part to its place; offsets count modulo 2^32.
pub fn move_cells(cells: &mut Cells, by: u32)
    ensures { (cs : List rules.Cell) (offset : ℕ) → cells.old ≡ map wrapped cs → by ≡ offset % 2 ^ 32 → cells.new ≡ map wrapped (map (initializers.moved offset) cs) }
{
    for k in 0..cells.len() {
        let cell = cells.as_slice()[k];
        let moved = Cell {
            offset: cell.offset.wrapping_add(by),
            ..cell
        };
        cells.set(k, moved);
    }
}
