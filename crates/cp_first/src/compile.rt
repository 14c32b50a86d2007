// From a text to the assembly of its unit.
ghost use Rattle.std.specs.Prelude.{IfOk, IfSome, IfNone};
ghost use Rattle.cp_first.specs.FirstForm.{IsNotFirst};
ghost use Rattle.cp_first.specs.FirstAssembly.{IsAssemblyOf};

use crate::first_form::read_first;
use crate::first_unit::first_unit;
use rv_code::AsmUnit;
use std::alloc::{AllocError, Global};

/// The assembly of a unit of the first form; none, where the text is of another form.
pub fn compile_first(alloc: Global, text: &[u8]) -> Result<Option<AsmUnit>, AllocError>
    ensures found { IfOk result (λ o. IfSome o (λ asm. IsAssemblyOf text.now asm)) }
    ensures none { IfOk result (λ o. IfNone o (IsNotFirst text.now)) }
{
    match read_first(alloc, text)? {
        Some(unit) => Ok(Some(first_unit(alloc, &unit)?)),
        None => Ok(None),
    }
}
