// The data of a unit made by hand, given to the calls of `c_types`.
ghost use Rattle.std.specs.Prelude.{◌≡◌, IfOk};
ghost use Rattle.middle_tests.specs.WordCount as word_count;

use c_types::{Cell, CellValue, Cells, Func, Funcs, Object, Objects, Stmt, Unit, image, place};
use cp_base::Name;
use std::alloc::{AllocError, Global};
use std::test::Fail;

fn name_of(alloc: Global, text: &str) -> Result<Name, AllocError>
    ensures { IfOk result (λ name. name ≡ text.now) }
{
    let mut name = Name::new(alloc);
    name.push_all(text)?;
    Ok(name)
}

fn byte(offset: u32, number: u32) -> Cell
    ensures { result ≡ word_count.byte offset number }
{
    let value = CellValue::Number(number);
    Cell {
        offset,
        width: 1,
        value,
    }
}

// `static const char blanks[] = " \t\n";`
fn blanks(alloc: Global) -> Result<Object, AllocError>
    ensures { IfOk result (λ object. object ≡ word_count.blanks) }
{
    let mut cells = Cells::new(alloc);
    cells.push(byte(0, 32))?;
    cells.push(byte(1, 9))?;
    cells.push(byte(2, 10))?;
    let name = name_of(alloc, "blanks")?;
    Ok(Object {
        name,
        size: 4,
        align: 1,
        cells,
    })
}

// `static unsigned counts[3];`
fn counts(alloc: Global) -> Result<Object, AllocError>
    ensures { IfOk result (λ object. object ≡ word_count.counts) }
{
    let name = name_of(alloc, "counts")?;
    Ok(Object {
        name,
        size: 12,
        align: 4,
        cells: Cells::new(alloc),
    })
}

fn unit_of_word_count(alloc: Global) -> Result<Unit, AllocError>
    ensures { IfOk result (λ unit. unit ≡ word_count.unit) }
{
    let mut objects = Objects::new(alloc);
    objects.push(blanks(alloc)?)?;
    objects.push(counts(alloc)?)?;
    let mut functions = Funcs::new(alloc);
    let name = name_of(alloc, "main")?;
    let body = Stmt::Return(None);
    functions.push(Func {
        name,
        params: 0,
        locals: 0,
        gives: true,
        body,
    })?;
    Ok(Unit { objects, functions })
}

fn has_image(alloc: Global, base: u32) -> Result<bool, AllocError> {
    let unit = unit_of_word_count(alloc)?;
    let places = place(alloc, &unit)?;
    let bytes = image(alloc, &unit, base)?;
    let wanted = [32, 9, 10, 0, 0, 0, 0, 0, 0, 0, 0, 0, 0, 0, 0, 0];
    Ok(
        places.size == 16
            && places.offsets.as_slice() == [0, 4].as_slice()
            && bytes.as_slice() == wanted.as_slice(),
    )
}

#[test]
fn image_of_word_count(rt: HostRuntime) {
    assert!(rt; matches!(has_image(rt.alloc(), 0), Ok(true)));
    assert!(rt; matches!(has_image(rt.alloc(), 0x0002_0000), Ok(true)));
}
