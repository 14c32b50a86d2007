// Names of objects, locals and functions (C99 6.5.1).
ghost use Rattle.std.specs.Prelude.{◌≡◌, ◌++◌, ℕ, Option, false, if◌then◌else◌, unwrap_or};
ghost use Rattle.c_types.specs.Forms as forms;
ghost use Rattle.c_typing.specs.Types as types;
ghost use Rattle.c_typing.specs.Types.{CType};
ghost use Rattle.c_typing.specs.Judgements as rules;
ghost use Rattle.c_typing.specs.Judgements.{Meaning, verdict};
ghost use Rattle.c_typing.specs.Rules as faults;
ghost use Rattle.c_typing.specs.Expressions as productions;
ghost use Rattle.c_typing.specs.Expressions.{expression};
ghost use Rattle.c_type_ids.specs.Ids.{Known};
ghost use Rattle.c_values.specs.Typings.{HasForm, Is, IsType, ShownAs, callee_of};
ghost use Rattle.c_places.specs.Places.{IsAnswer};

use c_answers::Refusal;
use c_constants::Constant;
use c_type_ids::{Kind, TypeTable};
use c_types::Expr;
use c_values::{Callee, Form, Shown, Type, Typing, kind_of};

/// A name that is not in scope, or that of a type.
pub fn unknown_name(node: usize) -> Result<Typing, Refusal>
    ensures { (k : Known) (m : Meaning) → IsAnswer k result (verdict (faults.unknown_name false node) m) }
{
    Err(Refusal::Broken { rule: 4, node })
}

/// The object of this number.
pub fn object(kind: Type, number: usize) -> Typing
    requires { HasForm kind Form.InMemory }
    ensures { (k : Known) (t : CType) (place : Option ℕ) → IsType k kind t → unwrap_or place 0 ≡ number → Is k result (productions.object_typing t place) }
{
    Typing {
        kind,
        form: Form::InMemory,
        constant: Constant::PlaceAt(number, 0, true),
        code: Expr::Address(number, 0),
    }
}

/// The local of this number.
pub fn local(kind: Type, number: usize) -> Typing
    requires { HasForm kind (Form.InLocal number) }
    ensures { (k : Known) (t : CType) → IsType k kind t → Is k result (productions.local_typing t number) }
{
    Typing {
        kind,
        form: Form::InLocal(number),
        constant: Constant::None,
        code: Expr::Local(number),
    }
}

/// The name of a function, which is called.
pub fn function(
    table: &TypeTable,
    node: usize,
    kind: Type,
    callee: Callee,
    is_called: bool,
) -> Result<Typing, Refusal>
    requires { (t : CType) × IsType table.now kind t }
    ensures { (t : CType) (c : rules.Callee) → IsType table.now kind t → callee_of callee ≡ c →
        IsAnswer table.now result (verdict (faults.function_as_value is_called node ++ faults.not_a_function (types.is_function t) node)
        (expression (record { type = t; form = rules.callee c; code = forms.const 0; constant = rules.no_constant }))) }
{
    if !is_called {
        return Err(Refusal::Broken { rule: 25, node });
    }
    if !is_function(kind_of(table, kind)) {
        return Err(Refusal::Broken { rule: 16, node });
    }
    Ok(Typing {
        kind,
        form: Form::Callee(callee),
        constant: Constant::None,
        code: Expr::Const(0),
    })
}

fn is_function(shown: Shown) -> bool
    ensures { (k : Known) (t : CType) → ShownAs k shown t → result ≡ types.is_function t }
{
    matches!(shown, Shown::Kind(Kind::Function(_)))
}

/// What the name of a function calls, where the function of this name has that number.
pub fn called_by_name(name: &str, number: usize) -> Callee
    ensures { callee_of result ≡ (if faults.is_getchar name.now then rules.reads_input else if faults.is_putchar name.now then rules.writes_output else rules.calls number) }
{
    match name {
        "getchar" => Callee::ReadsInput,
        "putchar" => Callee::WritesOutput,
        _ => Callee::Calls(number),
    }
}
