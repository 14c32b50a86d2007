// Operators of two operands as constants (C99 6.6).
ghost use Rattle.std.specs.Prelude.{◌≡◌, List};
ghost use Rattle.c_typing.specs.Types.{CType, Layout};
ghost use Rattle.c_typing.specs.Judgements as rules;
ghost use Rattle.c_typing.specs.Constants as constants;
ghost use Rattle.c_typing.specs.Conversions as conversions;
ghost use Rattle.c_typing.specs.Expressions as expressions;
ghost use Rattle.c_type_ids.specs.Ids.{AreLaid};
ghost use Rattle.c_constants.specs.Constants.{constant_of};
ghost use Rattle.c_values.specs.Typings.{IsType};
ghost use Rattle.c_values.specs.Operators.{IsOperand, Same};
ghost use Rattle.c_operations.specs.Operations.{plain_operator};

use crate::operator_codes::{plain_operator, shift_operator, target_size};
use c_constants::{Constant, both_constant, either_constant, moved_down, moved_up, operated};
use c_type_ids::TypeTable;
use c_values::{Class, Operand, Operator};

/// What an operator with these operands is as a constant. It stands at this node.
pub fn binary_constant(
    table: &TypeTable,
    node: usize,
    operator: Operator,
    left: Operand,
    right: Operand,
) -> Constant
    requires left { (t : CType) × IsType table.now left.kind t }
    requires right { (u : CType) × IsType table.now right.kind u }
    ensures { (o : conversions.Operator) (x y : rules.Typing) (ls : List Layout) → Same operator o → AreLaid table.now ls →
        IsOperand table.now left x → IsOperand table.now right y →
        constant_of result ≡ constants.binary_constant ls (expressions.operator_with o o.class x.type y.type) node o.class x.type y.type x.constant y.constant }
{
    match operator.class {
        Class::Additive => sum_constant(table, node, operator, left, right),
        Class::Subtractive => difference_constant(table, node, operator, left, right),
        Class::AndThen => both_constant(left.constant, right.constant),
        Class::OrElse => either_constant(left.constant, right.constant),
        Class::Shift => {
            let on_words = shift_operator(table, operator, left.kind);
            operated(on_words, node, left.constant, right.constant)
        }
        _ => plain_constant(table, node, operator, left, right),
    }
}

fn plain_constant(
    table: &TypeTable,
    node: usize,
    operator: Operator,
    left: Operand,
    right: Operand,
) -> Constant
    requires left { (t : CType) × IsType table.now left.kind t }
    requires right { (u : CType) × IsType table.now right.kind u }
    ensures { (o : conversions.Operator) (x y : rules.Typing) → Same operator o → IsOperand table.now left x → IsOperand table.now right y →
        constant_of result ≡ constants.operated (plain_operator o x.type y.type) node x.constant y.constant }
{
    let on_words = plain_operator(table, operator, left.kind, right.kind);
    operated(on_words, node, left.constant, right.constant)
}

// With a pointer on one side, the other side counts elements.
fn sum_constant(
    table: &TypeTable,
    node: usize,
    operator: Operator,
    left: Operand,
    right: Operand,
) -> Constant
    requires left { (t : CType) × IsType table.now left.kind t }
    requires right { (u : CType) × IsType table.now right.kind u }
    ensures { (o : conversions.Operator) (x y : rules.Typing) (ls : List Layout) → Same operator o → AreLaid table.now ls →
        IsOperand table.now left x → IsOperand table.now right y →
        constant_of result ≡ constants.sum_constant ls (plain_operator o x.type y.type) node x.type y.type x.constant y.constant }
{
    match (
        target_size(table, left.kind),
        target_size(table, right.kind),
    ) {
        (Some(size), _) => moved_up(size, left.constant, right.constant),
        (None, Some(size)) => moved_up(size, right.constant, left.constant),
        (None, None) => plain_constant(table, node, operator, left, right),
    }
}

fn difference_constant(
    table: &TypeTable,
    node: usize,
    operator: Operator,
    left: Operand,
    right: Operand,
) -> Constant
    requires left { (t : CType) × IsType table.now left.kind t }
    requires right { (u : CType) × IsType table.now right.kind u }
    ensures { (o : conversions.Operator) (x y : rules.Typing) (ls : List Layout) → Same operator o → AreLaid table.now ls →
        IsOperand table.now left x → IsOperand table.now right y →
        constant_of result ≡ constants.difference_constant ls (plain_operator o x.type y.type) node x.type y.type x.constant y.constant }
{
    match target_size(table, left.kind) {
        Some(size) => moved_down(size, left.constant, right.constant),
        None => plain_constant(table, node, operator, left, right),
    }
}
