// What rows of declarations answer (C99 6.7).
ghost use Rattle.std.specs.Prelude.{◌≡◌};
ghost use Rattle.c_declarator_rows.specs.Found as rules;

use c_judgements::Judged;
use c_values::Type;

/// The type that is found, as that of specs; where there is none, the node waits.
pub(crate) fn as_type(found: Option<Type>) -> Judged
    ensures { result ≡ rules.as_type found }
{
    match found {
        Some(kind) => Judged::Type(kind),
        None => Judged::Waits,
    }
}

/// The type that is found, as that of a declarator; where there is none, the node waits.
pub(crate) fn as_declared(found: Option<Type>) -> Judged
    ensures { result ≡ rules.as_declared found }
{
    match found {
        Some(kind) => Judged::Declares(kind),
        None => Judged::Waits,
    }
}
