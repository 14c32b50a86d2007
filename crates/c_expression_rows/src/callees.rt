// What is called, by its form and its type (C99 6.5.2.2, 1 and 2).
ghost use Rattle.std.specs.Prelude.{◌≡◌};
ghost use Rattle.c_typing.specs.Types as types;
ghost use Rattle.c_typing.specs.Types.{CType};
ghost use Rattle.c_typing.specs.Judgements as rules;
ghost use Rattle.c_type_ids.specs.Ids.{Known, Names};
ghost use Rattle.c_values.specs.Typings.{Is, ShownAs};
ghost use Rattle.c_expression_rows.specs.Calls.{IsCalled};

use c_type_ids::{Kind, TypeTable};
use c_types::TypeId;
use c_values::{Form, Shown, Type, Typing};

/// What is found of the name that is called, and of its arguments.
#[derive(Clone, Copy)]
pub(crate) enum Called {
    /// A part that is wanted has no meaning.
    Waits,
    /// It is no name of a function.
    NoFunction,
    /// The function has more or fewer parameters.
    WrongNumber,
    Fits,
}

/// The same of an expression that is called with so many arguments.
pub(crate) fn called_of(table: &TypeTable, name: &Typing, arguments: usize) -> Called
    requires { (f : rules.Typing) × Is table.now name.now f }
    ensures { (f : rules.Typing) → Is table.now name.now f → IsCalled result f arguments }
{
    let Form::Callee(_) = name.form else {
        return Called::NoFunction;
    };
    match name.kind {
        Type::Known(id) => called_by_type(table, id, arguments),
        _ => Called::Waits,
    }
}

// The same of a name of a function that has this type.
fn called_by_type(table: &TypeTable, id: TypeId, arguments: usize) -> Called
    requires { (t : CType) × Names table.now id t }
    ensures { (c : rules.Callee) (f : rules.Typing) → f.form ≡ rules.callee c → Names table.now id f.type → IsCalled result f arguments }
{
    if !is_function(Shown::Kind(table.kind(id))) {
        return Called::Waits;
    }
    if table.parameters(id).len() == arguments {
        Called::Fits
    } else {
        Called::WrongNumber
    }
}

fn is_function(shown: Shown) -> bool
    ensures { (k : Known) (t : CType) → ShownAs k shown t → result ≡ types.is_function t }
{
    matches!(shown, Shown::Kind(Kind::Function(_)))
}
