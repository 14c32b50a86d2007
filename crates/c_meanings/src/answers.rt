// What rows answer.
ghost use Rattle.std.specs.Prelude.{◌≡◌};
ghost use Rattle.c_meanings.specs.Meanings.{as_code, as_expression};

use c_answers::Refusal;
use c_judgements::Judged;
use c_types::Stmts;
use c_values::Typing;
use std::alloc::AllocError;

/// The node is this expression, or breaks a rule.
pub fn expressed(found: Result<Typing, Refusal>) -> Result<Judged, Refusal>
    ensures { result ≡ as_expression found }
{
    match found {
        Ok(typing) => Ok(Judged::Expresses(typing)),
        Err(refusal) => Err(refusal),
    }
}

/// The node does this.
pub fn performed(made: Result<Stmts, AllocError>) -> Result<Judged, Refusal>
    ensures { result ≡ as_code made }
{
    match made {
        Ok(code) => Ok(Judged::Performs(code)),
        Err(_) => Err(Refusal::OutOfMemory),
    }
}
