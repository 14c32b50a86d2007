// The operators of two operands (C99 6.5.5 to 6.5.14).
ghost use Rattle.std.specs.Prelude.{◌≡◌, List, IfOk, unwrap_or};
ghost use Rattle.std.specs.Option.{is_some};
ghost use Rattle.c_typing.specs.Types.{CType, Layout};
ghost use Rattle.c_typing.specs.Places.{Node};
ghost use Rattle.c_typing.specs.Judgements as rules;
ghost use Rattle.c_typing.specs.Judgements.{layouts};
ghost use Rattle.c_typing.specs.Rules as faults;
ghost use Rattle.c_typing.specs.Constants as constants;
ghost use Rattle.c_typing.specs.Conversions as conversions;
ghost use Rattle.c_typing.specs.Expressions as expressions;
ghost use Rattle.c_type_ids.specs.Ids.{AreLaid, Grows};
ghost use Rattle.c_values.specs.Typings.{Is, IsType};
ghost use Rattle.c_values.specs.Operators.{IsOperand, Same};
ghost use Rattle.c_answers.specs.Answers.{Answers, Expresses, Settles};

use crate::operator_codes::{code_of, operator_code};
use crate::operator_constants::binary_constant;
use crate::results::{operand_of, type_of_result};
use c_answers::Refusal;
use c_type_ids::TypeTable;
use c_types::Expr;
use c_values::{Class, Form, Operand, Operator, Type, Typing, both, either, result_type};
use std::alloc::{AllocError, Global};

/// An operator with two operands, which stands at this node.
pub fn binary_by(
    alloc: Global,
    table: &mut TypeTable,
    node: usize,
    operator: Operator,
    left: Typing,
    right: Typing,
) -> Result<Typing, Refusal>
    requires left { (x : rules.Typing) × Is table.old left x }
    requires right { (y : rules.Typing) × Is table.old right y }
    ensures is { (js : List rules.Judgement) (n : Node) (x y : rules.Typing) (o : conversions.Operator) → n.id ≡ node → AreLaid table.old (layouts js) →
        Is table.old left x → Is table.old right y → Same operator o →
        Answers (Expresses table.new 0) result (expressions.binary_by js n x y o) }
    ensures grows { Grows table.old table.new }
{
    let kind = binary_type(table, node, operator, operand_of(&left), operand_of(&right))?;
    Ok(binary_value(alloc, table, node, operator, kind, left, right)?)
}

// The type of the result, where the operands are allowed.
fn binary_type(
    table: &mut TypeTable,
    node: usize,
    operator: Operator,
    left: Operand,
    right: Operand,
) -> Result<Type, Refusal>
    requires left { (t : CType) × IsType table.old left.kind t }
    requires right { (u : CType) × IsType table.old right.kind u }
    ensures is { (ls : List Layout) (x y : rules.Typing) (o : conversions.Operator) → AreLaid table.old ls →
        IsOperand table.old left x → IsOperand table.old right y → Same operator o →
        Settles (λ kind. IsType table.new kind (unwrap_or (conversions.result_type ls o.class x y) x.type)) result
        (faults.bad_operand (is_some (conversions.result_type ls o.class x y)) node) }
    ensures grows { Grows table.old table.new }
{
    let found = result_type(table, operator.class, left, right);
    type_of_result(table, found, left.kind, right.kind, node)
}

// The value, which has this type.
fn binary_value(
    alloc: Global,
    table: &TypeTable,
    node: usize,
    operator: Operator,
    kind: Type,
    left: Typing,
    right: Typing,
) -> Result<Typing, AllocError>
    requires left { (x : rules.Typing) × Is table.now left x }
    requires right { (y : rules.Typing) × Is table.now right y }
    ensures { IfOk result (λ v. (o : conversions.Operator) (t : CType) (x y : rules.Typing) (ls : List Layout) → Same operator o → AreLaid table.now ls →
        IsType table.now kind t → Is table.now left x → Is table.now right y →
        Is table.now v (conversions.valued t (expressions.binary_code ls o x y o.class)
        (constants.binary_constant ls (expressions.operator_with o o.class x.type y.type) node o.class x.type y.type x.constant y.constant))) }
{
    let constant = binary_constant(table, node, operator, operand_of(&left), operand_of(&right));
    let code = binary_code(alloc, table, operator, left, right)?;
    Ok(Typing {
        kind,
        form: Form::Value,
        constant,
        code,
    })
}

fn binary_code(
    alloc: Global,
    table: &TypeTable,
    operator: Operator,
    left: Typing,
    right: Typing,
) -> Result<Expr, AllocError>
    requires left { (x : rules.Typing) × Is table.now left x }
    requires right { (y : rules.Typing) × Is table.now right y }
    ensures { IfOk result (λ e. (o : conversions.Operator) (x y : rules.Typing) (ls : List Layout) → Same operator o → AreLaid table.now ls →
        Is table.now left x → Is table.now right y → e ≡ expressions.binary_code ls o x y o.class) }
{
    match operator.class {
        Class::AndThen => both(alloc, left.code, right.code),
        Class::OrElse => either(alloc, left.code, right.code),
        _ => operator_code(alloc, table, operator, code_of(left), code_of(right)),
    }
}
