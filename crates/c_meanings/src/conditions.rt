// What is asked of the value of an expression that is a condition.
ghost use Rattle.std.specs.Prelude.{◌≡◌, ◌||◌};
ghost use Rattle.c_typing.specs.Types as types;
ghost use Rattle.c_typing.specs.Types.{CType};
ghost use Rattle.c_typing.specs.Conversions as conversions;
ghost use Rattle.c_typing.specs.Judgements as rules;
ghost use Rattle.c_type_ids.specs.Ids.{Known};
ghost use Rattle.c_values.specs.Typings.{Is, ShownAs};

use c_type_ids::{Kind, TypeTable};
use c_values::{Form, Shown, Typing, is_scalar, kind_of};

/// The value of the expression is scalar (C99 6.2.5, 21; 6.3.2.1, 3).
pub fn is_scalar_value(table: &TypeTable, operand: &Typing) -> bool
    requires { (x : rules.Typing) × Is table.now operand.now x }
    ensures { (x : rules.Typing) → Is table.now operand.now x → result ≡ types.is_scalar (conversions.value_of x).type }
{
    let shown = kind_of(table, operand.kind);
    match operand.form {
        Form::InMemory | Form::Temporary => is_scalar(shown) || is_array(shown),
        _ => is_scalar(shown),
    }
}

fn is_array(shown: Shown) -> bool
    ensures { (k : Known) (t : CType) → ShownAs k shown t → result ≡ types.is_array t }
{
    matches!(shown, Shown::Kind(Kind::Array(..)) | Shown::Unsized(_))
}
