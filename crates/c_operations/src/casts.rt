// Casts (C99 6.5.4).
ghost use Rattle.std.specs.Prelude.{◌≡◌, IfOk};
ghost use Rattle.c_typing.specs.Types.{CType};
ghost use Rattle.c_typing.specs.Places.{Node};
ghost use Rattle.c_typing.specs.Judgements as rules;
ghost use Rattle.c_typing.specs.Constants as constants;
ghost use Rattle.c_typing.specs.Conversions as conversions;
ghost use Rattle.c_typing.specs.Expressions as expressions;
ghost use Rattle.c_type_ids.specs.Ids.{Known};
ghost use Rattle.c_constants.specs.Constants.{constant_of};
ghost use Rattle.c_values.specs.Typings.{Is, IsType, ShownAs};
ghost use Rattle.c_answers.specs.Answers.{Answers, Expresses};

use c_answers::Refusal;
use c_constants::{Constant, integer_cast, pointer_cast};
use c_type_ids::{Kind, TypeTable};
use c_values::{
    Form, Shown, Type, Typing, converted, is_integer, is_scalar, kind_of, points_to_void,
};
use std::alloc::{AllocError, Global};

/// A value as one of this type. The cast stands at this node.
pub fn cast(
    alloc: Global,
    table: &TypeTable,
    node: usize,
    to: Type,
    value: Typing,
) -> Result<Typing, Refusal>
    requires to { (t : CType) × IsType table.now to t }
    requires value { (x : rules.Typing) × Is table.now value x }
    ensures { (n : Node) (t : CType) (x : rules.Typing) → n.id ≡ node → IsType table.now to t → Is table.now value x →
        Answers (Expresses table.now 0) result (expressions.cast n t x) }
{
    if is_castable(kind_of(table, to), kind_of(table, value.kind)) {
        Ok(cast_value(alloc, table, to, value)?)
    } else {
        Err(Refusal::Broken { rule: 13, node })
    }
}

// To `void`, or from a scalar to a scalar type.
fn is_castable(to: Shown, from: Shown) -> bool
    ensures { (k : Known) (t u : CType) → ShownAs k to t → ShownAs k from u → result ≡ conversions.is_castable t u }
{
    matches!(to, Shown::Kind(Kind::Void)) || (is_scalar(to) && is_scalar(from))
}

// The value, where the cast is allowed.
fn cast_value(
    alloc: Global,
    table: &TypeTable,
    to: Type,
    value: Typing,
) -> Result<Typing, AllocError>
    requires to { (t : CType) × IsType table.now to t }
    requires value { (x : rules.Typing) × Is table.now value x }
    ensures { IfOk result (λ v. (t : CType) (x : rules.Typing) → IsType table.now to t → Is table.now value x →
        Is table.now v (conversions.valued t (conversions.converted_code x.type t x.code) (constants.cast_constant t x.type x.constant))) }
{
    let constant = cast_constant(
        table,
        kind_of(table, to),
        kind_of(table, value.kind),
        value.constant,
    );
    Ok(Typing {
        kind: to,
        form: Form::Value,
        constant,
        code: converted(alloc, table, value.kind, to, value.code)?,
    })
}

fn cast_constant(table: &TypeTable, to: Shown, from: Shown, constant: Constant) -> Constant
    requires { (t : CType) × ShownAs table.now to t }
    ensures { (t u : CType) → ShownAs table.now to t → ShownAs table.now from u →
        constant_of result ≡ constants.cast_constant t u (constant_of constant) }
{
    match to {
        Shown::Kind(Kind::Integer(integer)) if is_integer(from) => integer_cast(integer, constant),
        Shown::Kind(Kind::Pointer(_)) | Shown::ToUnsized(_) => {
            pointer_cast(points_to_void(table, to), constant)
        }
        _ => Constant::None,
    }
}
