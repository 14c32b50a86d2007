// What an operator that writes asks of its operands.
ghost use Rattle.std.specs.Prelude.{◌≡◌, ◌&&◌, ◌++◌, List, unwrap_or, nat_lt};
ghost use Rattle.std.specs.Option.{is_some};
ghost use Rattle.c_types.specs.declared.tree.Expr.{Expr};
ghost use Rattle.c_typing.specs.Types as types;
ghost use Rattle.c_typing.specs.Types.{CType, Layout};
ghost use Rattle.c_typing.specs.Judgements as rules;
ghost use Rattle.c_typing.specs.Rules as faults;
ghost use Rattle.c_typing.specs.Conversions as conversions;
ghost use Rattle.c_type_ids.specs.Ids.{AreLaid, Grows, Known};
ghost use Rattle.c_values.specs.Typings.{Is, IsType, ShownAs, form_of};
ghost use Rattle.c_values.specs.Operators.{IsOperand, Same};
ghost use Rattle.c_answers.specs.Answers.{Allows, Settles};
ghost use Rattle.c_assignments.specs.Assignments.{assignment_faults, compound_faults, operation_type};

use c_answers::Refusal;
use c_constants::{Constant, is_null};
use c_operations::{size_of, type_of_result};
use c_type_ids::{Kind, TypeTable};
use c_values::{
    Form, Operand, Operator, Shown, Type, Typing, is_assignable, is_integer, kind_of, result_type,
};

/// An assignment at this node may write the right operand, which is at a node of its own, to the left one.
pub fn check_assignment(
    table: &TypeTable,
    node: usize,
    right_node: usize,
    left: &Typing,
    right: Operand,
) -> Result<(), Refusal>
    requires left { (x : rules.Typing) × Is table.now left.now x }
    requires right { (u : CType) × IsType table.now right.kind u }
    ensures { (ls : List Layout) (x y : rules.Typing) → AreLaid table.now ls → Is table.now left.now x → IsOperand table.now right y →
        Allows result (assignment_faults ls x y node right_node) }
{
    check_assignable(table, node, left)?;
    check_assigned(table, node, right_node, left.kind, right)
}

// An lvalue, but no array.
fn check_assignable(table: &TypeTable, node: usize, left: &Typing) -> Result<(), Refusal>
    requires { (x : rules.Typing) × Is table.now left.now x }
    ensures { (x : rules.Typing) → Is table.now left.now x → Allows result (faults.not_assignable x node) }
{
    if is_lvalue(left.form) && !is_array(kind_of(table, left.kind)) {
        Ok(())
    } else {
        Err(Refusal::Broken { rule: 12, node })
    }
}

fn is_lvalue(form: Form) -> bool
    ensures { result ≡ faults.is_lvalue (form_of form) }
{
    matches!(form, Form::InLocal(_) | Form::InMemory)
}

fn is_array(shown: Shown) -> bool
    ensures { (k : Known) (t : CType) → ShownAs k shown t → result ≡ types.is_array t }
{
    matches!(shown, Shown::Kind(Kind::Array(..)) | Shown::Unsized(_))
}

// A value that the type takes; and a struct that is not too big.
fn check_assigned(
    table: &TypeTable,
    node: usize,
    right_node: usize,
    left: Type,
    right: Operand,
) -> Result<(), Refusal>
    requires left { (t : CType) × IsType table.now left t }
    requires right { (u : CType) × IsType table.now right.kind u }
    ensures { (ls : List Layout) (t : CType) (y : rules.Typing) → AreLaid table.now ls → IsType table.now left t → IsOperand table.now right y →
        Allows result (faults.bad_conversion t y right_node ++ faults.big_struct ls t node) }
{
    if is_assignable(table, left, right.kind, is_null(right.constant)) {
        check_size(table, node, left)
    } else {
        Err(Refusal::Broken {
            rule: 14,
            node: right_node,
        })
    }
}

fn check_size(table: &TypeTable, node: usize, kind: Type) -> Result<(), Refusal>
    requires { (t : CType) × IsType table.now kind t }
    ensures { (ls : List Layout) (t : CType) → AreLaid table.now ls → IsType table.now kind t → Allows result (faults.big_struct ls t node) }
{
    if is_big_struct(table, kind) {
        Err(Refusal::Broken { rule: 27, node })
    } else {
        Ok(())
    }
}

// A struct of more than 1,024 bytes.
fn is_big_struct(table: &TypeTable, kind: Type) -> bool
    requires { (t : CType) × IsType table.now kind t }
    ensures { (ls : List Layout) (t : CType) → AreLaid table.now ls → IsType table.now kind t →
        result ≡ (types.is_struct t && nat_lt 1024 (types.size_of ls t)) }
{
    is_struct(kind_of(table, kind)) && size_of(table, kind).unwrap_or(0) > 1024
}

/// A struct.
pub fn is_struct(shown: Shown) -> bool
    ensures { (k : Known) (t : CType) → ShownAs k shown t → result ≡ types.is_struct t }
{
    matches!(shown, Shown::Kind(Kind::Struct(_)))
}

/// The type of the operation of a compound assignment at this node.
pub fn compound_type(
    table: &mut TypeTable,
    node: usize,
    operator: Operator,
    left: &Typing,
    right: Operand,
) -> Result<Type, Refusal>
    requires left { (x : rules.Typing) × Is table.old left.now x }
    requires right { (u : CType) × IsType table.old right.kind u }
    ensures is { (ls : List Layout) (o : conversions.Operator) (x y : rules.Typing) (e : Expr) → AreLaid table.old ls → Same operator o →
        Is table.old left.now x → IsOperand table.old right y →
        Settles (λ kind. IsType table.new kind (unwrap_or (operation_type ls o x.type e y) x.type)) result (compound_faults ls o x y node) }
    ensures grows { Grows table.old table.new }
{
    check_assignable(table, node, left)?;
    type_of_operation(table, node, operator, left.kind, right)
}

// The same, where the left operand may be assigned: the right one is an integer.
fn type_of_operation(
    table: &mut TypeTable,
    node: usize,
    operator: Operator,
    left: Type,
    right: Operand,
) -> Result<Type, Refusal>
    requires left { (t : CType) × IsType table.old left t }
    requires right { (u : CType) × IsType table.old right.kind u }
    ensures is { (ls : List Layout) (o : conversions.Operator) (t : CType) (y : rules.Typing) (e : Expr) → AreLaid table.old ls → Same operator o →
        IsType table.old left t → IsOperand table.old right y →
        Settles (λ kind. IsType table.new kind (unwrap_or (operation_type ls o t e y) t)) result
        (faults.bad_operand (types.is_integer y.type && is_some (operation_type ls o t e y)) node) }
    ensures grows { Grows table.old table.new }
{
    if !is_integer(kind_of(table, right.kind)) {
        return Err(Refusal::Broken { rule: 13, node });
    }
    let operand = Operand {
        kind: left,
        constant: Constant::None,
    };
    let found = result_type(table, operator.class, operand, right);
    type_of_result(table, found, left, right.kind, node)
}
