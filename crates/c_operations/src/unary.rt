// The operators of one operand, and `sizeof` (C99 6.5.3).
ghost use Rattle.std.specs.Prelude.{◌≡◌, List, [], IfOk, option_map};
ghost use Rattle.c_types.specs.declared.kind.Measure.{Measure};
ghost use Rattle.c_types.specs.Forms as forms;
ghost use Rattle.c_typing.specs.Types as types;
ghost use Rattle.c_typing.specs.Types.{CType, Layout, measure};
ghost use Rattle.c_typing.specs.Places.{Node};
ghost use Rattle.c_typing.specs.Judgements as rules;
ghost use Rattle.c_typing.specs.Judgements.{layouts};
ghost use Rattle.c_typing.specs.Constants as constants;
ghost use Rattle.c_typing.specs.Conversions as conversions;
ghost use Rattle.c_typing.specs.Expressions as expressions;
ghost use Rattle.c_type_ids.specs.Ids.{AreLaid, Grows, Known};
ghost use Rattle.c_type_ids.specs.Integers.{integer_of};
ghost use Rattle.c_values.specs.Typings.{Is, IsType};
ghost use Rattle.c_answers.specs.Answers.{Answers, Expresses};

use crate::operator_codes::{integer_in, signs};
use c_answers::Refusal;
use c_constants::{Constant, operated};
use c_type_ids::{Integer, TypeTable, promoted};
use c_types::{COp, Expr};
use c_values::{Class, Form, Operator, Type, Typing, binary, is_scalar, kind_of};
use std::alloc::{AllocError, Global};

/// `+`, `-` or `~` of an integer. The operator has this text, and stands at this node.
pub fn sign_operator(
    alloc: Global,
    table: &mut TypeTable,
    node: usize,
    text: &str,
    value: Typing,
) -> Result<Typing, Refusal>
    requires { (x : rules.Typing) × Is table.old value x }
    ensures is { (n : Node) (x : rules.Typing) → n.id ≡ node → n.label.text ≡ text.now → Is table.old value x →
        Answers (Expresses table.new 0) result (expressions.sign_operator n x) }
    ensures grows { Grows table.old table.new }
{
    match integer_in(table, value.kind) {
        Some(integer) => Ok(sign_value(alloc, table, node, text, promoted(integer), value)?),
        None => Err(Refusal::Broken { rule: 13, node }),
    }
}

// The value, which has this promoted type.
fn sign_value(
    alloc: Global,
    table: &mut TypeTable,
    node: usize,
    text: &str,
    integer: Integer,
    value: Typing,
) -> Result<Typing, AllocError>
    ensures is { IfOk result (λ v. (x : rules.Typing) → Is table.old value x →
        Is table.new v (expressions.sign_typing node (integer_of integer) text.now x)) }
    ensures grows { Grows table.old table.new }
{
    let kind = Type::Known(table.integer(integer)?);
    match text {
        "-" => negated(alloc, kind, node, integer, value),
        "~" => complement(alloc, kind, node, value),
        _ => Ok(Typing {
            kind,
            form: Form::Value,
            ..value
        }),
    }
}

// 0 minus the value.
fn negated(
    alloc: Global,
    kind: Type,
    node: usize,
    integer: Integer,
    value: Typing,
) -> Result<Typing, AllocError>
    ensures { IfOk result (λ v. (old new : Known) (o : conversions.Operator) (x : rules.Typing) → o.signed ≡ COp.SubS → o.unsigned ≡ COp.SubU →
        IsType new kind (types.integer (integer_of integer)) → Is old value x →
        Is new v (conversions.valued (types.integer (integer_of integer)) (forms.binary (conversions.signs [] (integer_of integer) o) (forms.const 0) x.code)
        (constants.operated (conversions.signs [] (integer_of integer) o) node (rules.number 0) x.constant))) }
{
    let minus = Operator {
        class: Class::Subtractive,
        signed: COp::SubS,
        unsigned: COp::SubU,
    };
    let operator = signs(integer, minus);
    Ok(Typing {
        kind,
        form: Form::Value,
        constant: operated(operator, node, Constant::Number(0), value.constant),
        code: binary(alloc, operator, Expr::Const(0), value.code)?,
    })
}

// Each bit of the value the other way round.
fn complement(alloc: Global, kind: Type, node: usize, value: Typing) -> Result<Typing, AllocError>
    ensures { IfOk result (λ v. (old new : Known) (t : CType) (x : rules.Typing) → IsType new kind t → Is old value x →
        Is new v (conversions.valued t (forms.binary COp.Xor x.code (forms.const expressions.minus_one))
        (constants.operated COp.Xor node x.constant (rules.number expressions.minus_one)))) }
{
    Ok(Typing {
        kind,
        form: Form::Value,
        constant: operated(COp::Xor, node, value.constant, Constant::Number(u32::MAX)),
        code: binary(alloc, COp::Xor, value.code, Expr::Const(u32::MAX))?,
    })
}

/// `!` of a scalar.
pub fn not_operator(
    alloc: Global,
    table: &mut TypeTable,
    node: usize,
    value: Typing,
) -> Result<Typing, Refusal>
    requires { (x : rules.Typing) × Is table.old value x }
    ensures is { (n : Node) (x : rules.Typing) → n.id ≡ node → Is table.old value x →
        Answers (Expresses table.new 0) result (expressions.not_operator n x) }
    ensures grows { Grows table.old table.new }
{
    if is_scalar(kind_of(table, value.kind)) {
        Ok(not_value(alloc, table, node, value)?)
    } else {
        Err(Refusal::Broken { rule: 13, node })
    }
}

// Whether the value is 0, as an `int`.
fn not_value(
    alloc: Global,
    table: &mut TypeTable,
    node: usize,
    value: Typing,
) -> Result<Typing, AllocError>
    ensures is { IfOk result (λ v. (x : rules.Typing) → Is table.old value x →
        Is table.new v (conversions.valued (types.integer types.int) (forms.binary COp.Eq x.code (forms.const 0))
        (constants.operated COp.Eq node x.constant (rules.number 0)))) }
    ensures grows { Grows table.old table.new }
{
    let kind = Type::Known(table.integer(Integer::Int)?);
    Ok(Typing {
        kind,
        form: Form::Value,
        constant: operated(COp::Eq, node, value.constant, Constant::Number(0)),
        code: binary(alloc, COp::Eq, value.code, Expr::Const(0))?,
    })
}

/// `sizeof`: the size of this type, which is that of the operand at this node.
pub fn measured_type(table: &mut TypeTable, kind: Type, operand: usize) -> Result<Typing, Refusal>
    requires { (t : CType) × IsType table.old kind t }
    ensures is { (js : List rules.Judgement) (t : CType) → AreLaid table.old (layouts js) → IsType table.old kind t →
        Answers (Expresses table.new 0) result (expressions.measured_type js t operand) }
    ensures grows { Grows table.old table.new }
{
    match size_of(table, kind) {
        Some(size) => Ok(number_of_type(table, Integer::UInt, size)?),
        None => Err(Refusal::Broken {
            rule: 5,
            node: operand,
        }),
    }
}

/// The size of a type, where it has one.
pub fn size_of(table: &TypeTable, kind: Type) -> Option<u32>
    requires { (t : CType) × IsType table.now kind t }
    ensures { (t : CType) (ls : List Layout) → IsType table.now kind t → AreLaid table.now ls →
        result ≡ option_map (λ (m : Measure). m.size) (measure ls t) }
{
    match kind {
        Type::Known(id) => table.size(id),
        Type::Unsized(_) => None,
        Type::ToUnsized(_) => Some(4),
    }
}

/// A constant of an integer type.
pub fn number_of_type(
    table: &mut TypeTable,
    integer: Integer,
    word: u32,
) -> Result<Typing, AllocError>
    ensures is { IfOk result (λ v. Is table.new v (expressions.number_of_type (integer_of integer) word)) }
    ensures grows { Grows table.old table.new }
{
    let kind = Type::Known(table.integer(integer)?);
    Ok(Typing {
        kind,
        form: Form::Value,
        constant: Constant::Number(word),
        code: Expr::Const(word),
    })
}
