// What is asked of the expression of a `switch`, and of jumps.
ghost use Rattle.std.specs.Prelude.{◌≡◌, ◌≢◌, Err};
ghost use Rattle.c_typing.specs.Types as types;
ghost use Rattle.c_typing.specs.Rules as faults;
ghost use Rattle.c_values.specs.Typings.{IsType};
ghost use Rattle.c_answers.specs.Answers.{Allows};

use c_answers::Refusal;
use c_type_ids::TypeTable;
use c_values::{Type, is_integer, kind_of};

/// The expression of a `switch` is an integer (6.8.4.2, 1).
pub fn check_selector(table: &TypeTable, selector: Type, node: usize) -> Result<(), Refusal>
    requires { (t : types.CType) × IsType table.now selector t }
    ensures is { (t : types.CType) → IsType table.now selector t → Allows result (faults.bad_operand (types.is_integer t) node) }
    ensures decides { result ≢ Err Refusal.OutOfMemory }
{
    if is_integer(kind_of(table, selector)) {
        Ok(())
    } else {
        Err(Refusal::Broken { rule: 13, node })
    }
}

/// A jump stands in what it leaves or goes on with (6.8.6.2, 1; 6.8.6.3, 1).
pub fn check_jump(is_inside: bool, node: usize) -> Result<(), Refusal>
    ensures is { Allows result (faults.outside_a_loop is_inside node) }
    ensures decides { result ≢ Err Refusal.OutOfMemory }
{
    if is_inside {
        Ok(())
    } else {
        Err(Refusal::Broken { rule: 19, node })
    }
}
