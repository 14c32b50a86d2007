// Assignments by `=` (C99 6.5.16.1).
ghost use Rattle.std.specs.Prelude.{◌≡◌, List, IfOk, Some, None};
ghost use Rattle.c_types.specs.Tables.{IsThere};
ghost use Rattle.c_typing.specs.Types as types;
ghost use Rattle.c_typing.specs.Types.{CType, Layout};
ghost use Rattle.c_typing.specs.Places.{Node, kid};
ghost use Rattle.c_typing.specs.Judgements as rules;
ghost use Rattle.c_typing.specs.Judgements.{layouts};
ghost use Rattle.c_typing.specs.Conversions as conversions;
ghost use Rattle.c_typing.specs.Expressions as expressions;
ghost use Rattle.c_type_ids.specs.Ids.{AreLaid, Names};
ghost use Rattle.c_values.specs.Typings.{Is, IsType};
ghost use Rattle.c_answers.specs.Answers.{Answers, Expresses};
ghost use Rattle.c_assignments.specs.Assignments.{struct_measure};

use crate::faults::{check_assignment, is_struct};
use crate::writes::access;
use c_answers::Refusal;
use c_constants::Constant;
use c_operations::{form_of_result, operand_of};
use c_type_ids::TypeTable;
use c_types::{Expr, Measure, TypeId};
use c_values::{Form, Type, Typing, converted, copy, kind_of, set_local, store};
use std::alloc::{AllocError, Global};

/// `=`, which stands at this node: the value of the right operand, which is at a node of its own, is written to the left one.
pub fn assignment(
    alloc: Global,
    table: &TypeTable,
    node: usize,
    right_node: usize,
    left: Typing,
    right: Typing,
) -> Result<Typing, Refusal>
    requires left { (x : rules.Typing) × Is table.now left x }
    requires right { (y : rules.Typing) × Is table.now right y }
    ensures { (js : List rules.Judgement) (n : Node) (x y : rules.Typing) → n.id ≡ node → kid n 1 ≡ right_node → AreLaid table.now (layouts js) →
        Is table.now left x → Is table.now right y → Answers (Expresses table.now 0) result (expressions.assignment js n x y) }
{
    check_assignment(table, node, right_node, &left, operand_of(&right))?;
    Ok(assigned(alloc, table, left, right)?)
}

// The value, where the assignment is allowed.
fn assigned(
    alloc: Global,
    table: &TypeTable,
    left: Typing,
    right: Typing,
) -> Result<Typing, AllocError>
    requires left { (x : rules.Typing) × Is table.now left x }
    requires right { (y : rules.Typing) × Is table.now right y }
    ensures { IfOk result (λ v. (ls : List Layout) (x y : rules.Typing) → AreLaid table.now ls → Is table.now left x → Is table.now right y →
        Is table.now v (conversions.result x.type (expressions.assigned_code ls x y x.type x.form) rules.no_constant)) }
{
    Ok(Typing {
        kind: left.kind,
        form: form_of_result(table, left.kind),
        constant: Constant::None,
        code: assigned_code(alloc, table, left, right)?,
    })
}

// A struct is copied.
fn assigned_code(
    alloc: Global,
    table: &TypeTable,
    left: Typing,
    right: Typing,
) -> Result<Expr, AllocError>
    requires left { (x : rules.Typing) × Is table.now left x }
    requires right { (y : rules.Typing) × Is table.now right y }
    ensures { IfOk result (λ e. (ls : List Layout) (x y : rules.Typing) → AreLaid table.now ls → Is table.now left x → Is table.now right y →
        e ≡ expressions.assigned_code ls x y x.type x.form) }
{
    match struct_measure(table, left.kind) {
        Some(measure) => copy(alloc, measure.size, measure.align, left.code, right.code),
        None => scalar_code(alloc, table, left, right),
    }
}

// What is no struct is converted, and written to a local or to memory.
fn scalar_code(
    alloc: Global,
    table: &TypeTable,
    left: Typing,
    right: Typing,
) -> Result<Expr, AllocError>
    requires left { (x : rules.Typing) × Is table.now left x }
    requires right { (y : rules.Typing) × Is table.now right y }
    ensures { IfOk result (λ e. (ls : List Layout) (x y : rules.Typing) → Is table.now left x → Is table.now right y → struct_measure ls x.type ≡ None →
        e ≡ expressions.assigned_code ls x y x.type x.form) }
{
    let value = converted(alloc, table, right.kind, left.kind, right.code)?;
    match left.form {
        Form::InLocal(local) => set_local(alloc, local, value),
        _ => store(alloc, access(table, left.kind), left.code, value),
    }
}

// The size and the alignment of a struct; of another type none.
fn struct_measure(table: &TypeTable, kind: Type) -> Option<Measure>
    requires { (t : CType) × IsType table.now kind t }
    ensures { (ls : List Layout) (t : CType) → AreLaid table.now ls → IsType table.now kind t → result ≡ struct_measure ls t }
{
    if is_struct(kind_of(table, kind)) {
        Some(measure_of(table, kind))
    } else {
        None
    }
}

// The size and the alignment of a type; of one without a size, 0 and 1.
fn measure_of(table: &TypeTable, kind: Type) -> Measure
    requires { (t : CType) × IsType table.now kind t }
    ensures { (ls : List Layout) (t : CType) → AreLaid table.now ls → IsType table.now kind t →
        result ≡ record { size = types.size_of ls t; align = types.align_of ls t } }
{
    match kind {
        Type::Known(id) => measure(table, id),
        Type::Unsized(_) => Measure { size: 0, align: 1 },
        Type::ToUnsized(_) => Measure { size: 4, align: 4 },
    }
}

fn measure(table: &TypeTable, id: TypeId) -> Measure
    requires { IsThere table.now.table id }
    ensures { (ls : List Layout) (t : CType) → AreLaid table.now ls → Names table.now id t →
        result ≡ record { size = types.size_of ls t; align = types.align_of ls t } }
{
    match table.size(id) {
        Some(size) => Measure {
            size,
            align: table.align(id),
        },
        None => Measure { size: 0, align: 1 },
    }
}
