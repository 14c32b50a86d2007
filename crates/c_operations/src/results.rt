// What operators share: the type of a result, and the form of an expression of a type.
ghost use Rattle.std.specs.Prelude.{◌≡◌, Option, unwrap_or};
ghost use Rattle.std.specs.Option.{is_some};
ghost use Rattle.c_typing.specs.Types as types;
ghost use Rattle.c_typing.specs.Types.{CType};
ghost use Rattle.c_typing.specs.Rules as faults;
ghost use Rattle.c_typing.specs.Conversions as conversions;
ghost use Rattle.c_type_ids.specs.Ids.{Grows, Known};
ghost use Rattle.c_type_ids.specs.Integers.{integer_of};
ghost use Rattle.c_values.specs.Typings.{HasForm, IsType, ShownAs, form_of};
ghost use Rattle.c_values.specs.Operators.{ResultIs};
ghost use Rattle.c_answers.specs.Answers.{Settles};

use c_answers::Refusal;
use c_type_ids::{Kind, TypeTable};
use c_values::{Form, Operand, ResultType, Shown, Type, Typing, kind_of};

/// The type of the result of an operator that stands at this node, which has operands of these types.
pub fn type_of_result(
    table: &mut TypeTable,
    found: ResultType,
    left: Type,
    right: Type,
    node: usize,
) -> Result<Type, Refusal>
    ensures is { (t u : CType) (r : Option CType) → IsType table.old left t → IsType table.old right u → ResultIs found r t u →
        Settles (λ kind. IsType table.new kind (unwrap_or r t)) result (faults.bad_operand (is_some r) node) }
    ensures grows { Grows table.old table.new }
{
    match found {
        ResultType::None => Err(Refusal::Broken { rule: 13, node }),
        ResultType::Integer(integer) => Ok(Type::Known(table.integer(integer)?)),
        ResultType::Left => Ok(left),
        ResultType::Right => Ok(right),
    }
}

/// The form of an expression of this type that is no lvalue: a struct stays at its place.
pub fn form_of_result(table: &TypeTable, kind: Type) -> Form
    requires { (t : CType) × IsType table.now kind t }
    ensures is { (t : CType) → IsType table.now kind t → form_of result ≡ conversions.result_form t }
    ensures has { HasForm kind result }
{
    match kind_of(table, kind) {
        Shown::Kind(Kind::Struct(_)) => Form::Temporary,
        _ => Form::Value,
    }
}

/// The type and the constant of an operand.
pub fn operand_of(typing: &Typing) -> Operand
    ensures { result ≡ record { kind = typing.now.kind; constant = typing.now.constant } }
{
    Operand {
        kind: typing.kind,
        constant: typing.constant,
    }
}
