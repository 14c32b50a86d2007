// The code that reads and writes an lvalue.
ghost use Rattle.std.specs.Prelude.{◌≡◌, ◌+◌, ◌<◌, ◌^◌, true, false, List, IfOk};
ghost use Rattle.c_types.specs.Forms as forms;
ghost use Rattle.c_typing.specs.Types.{CType, Layout};
ghost use Rattle.c_typing.specs.Judgements as rules;
ghost use Rattle.c_typing.specs.Conversions as conversions;
ghost use Rattle.c_typing.specs.Expressions as expressions;
ghost use Rattle.c_type_ids.specs.Ids.{AreLaid};
ghost use Rattle.c_values.specs.Typings.{Is, IsType, form_of};
ghost use Rattle.c_values.specs.Operators.{Same};
ghost use Rattle.c_assignments.specs.Assignments.{old_of, kept_of};

use c_constants::Constant;
use c_operations::{Coded, form_of_result, operator_code};
use c_type_ids::TypeTable;
use c_types::Expr;
use c_values::{
    Form, Operator, Shown, Type, Typing, access_of, converted, kind_of, load, seq, set_local, store,
};
use cp_base::Kind as Access;
use std::alloc::{AllocError, Global};

/// How many hidden locals a compound assignment, `++` or `--` takes, where its operand has this form: in memory one for the
/// address, and one for an old value that is the result.
pub fn hidden_for(form: Form, keeps_old: bool) -> usize
    ensures kept { keeps_old ≡ true → result ≡ expressions.hidden_for (form_of form) 1 }
    ensures changed { keeps_old ≡ false → result ≡ expressions.hidden_for (form_of form) 0 }
{
    match form {
        Form::InLocal(_) => usize::from(keeps_old),
        _ => 1 + usize::from(keeps_old),
    }
}

/// How a value of this type is read from memory, and written.
pub fn access(table: &TypeTable, kind: Type) -> Access
    requires { (t : CType) × IsType table.now kind t }
    ensures { (t : CType) → IsType table.now kind t → result ≡ conversions.access_of t }
{
    match kind_of(table, kind) {
        Shown::Kind(shown) => access_of(shown),
        Shown::Unsized(_) | Shown::ToUnsized(_) => Access::W32,
    }
}

/// The value that an operator changes. In memory, its address is in this hidden local.
pub fn old_value(
    alloc: Global,
    table: &TypeTable,
    hidden: usize,
    kind: Type,
    form: Form,
) -> Result<Expr, AllocError>
    requires { (t : CType) × IsType table.now kind t }
    ensures { IfOk result (λ e. (t : CType) → IsType table.now kind t → e ≡ old_of hidden t (form_of form)) }
{
    match form {
        Form::InLocal(local) => Ok(Expr::Local(local)),
        _ => load(alloc, access(table, kind), Expr::Local(hidden)),
    }
}

/// The same where it is kept in a hidden local.
pub fn kept_value(hidden: usize, form: Form) -> Expr
    requires { hidden + 1 < 2 ^ 64 }
    ensures { result ≡ kept_of hidden (form_of form) }
{
    match form {
        Form::InLocal(_) => Expr::Local(hidden),
        _ => Expr::Local(hidden + 1),
    }
}

/// The new value: that of an operation of this type, converted to the type of the left operand.
pub fn new_value(
    alloc: Global,
    table: &TypeTable,
    operator: Operator,
    kind: Type,
    left: Coded,
    right: Coded,
) -> Result<Expr, AllocError>
    requires left { (t : CType) × IsType table.now left.kind t }
    requires right { (u : CType) × IsType table.now right.kind u }
    ensures { IfOk result (λ e. (ls : List Layout) (o : conversions.Operator) (r t u : CType) → AreLaid table.now ls → Same operator o →
        IsType table.now kind r → IsType table.now left.kind t → IsType table.now right.kind u →
        e ≡ conversions.converted_code r t (conversions.operator_code ls o.class t u o left.code right.code)) }
{
    let to = left.kind;
    let code = operator_code(alloc, table, operator, left, right)?;
    converted(alloc, table, kind, to, code)
}

/// An expression that writes this value, which is the result.
pub fn written(
    alloc: Global,
    table: &TypeTable,
    hidden: usize,
    left: Typing,
    value: Expr,
) -> Result<Typing, AllocError>
    requires { (x : rules.Typing) × Is table.now left x }
    ensures { IfOk result (λ v. (x : rules.Typing) → Is table.now left x →
        Is table.now v (conversions.result x.type (expressions.written hidden x (λ old. value) x.form) rules.no_constant)) }
{
    Ok(Typing {
        kind: left.kind,
        form: form_of_result(table, left.kind),
        constant: Constant::None,
        code: written_code(alloc, access(table, left.kind), hidden, left, value)?,
    })
}

fn written_code(
    alloc: Global,
    access: Access,
    hidden: usize,
    left: Typing,
    value: Expr,
) -> Result<Expr, AllocError>
    ensures { IfOk result (λ e. (x : rules.Typing) → access ≡ conversions.access_of x.type → form_of left.form ≡ x.form → left.code ≡ x.code →
        e ≡ expressions.written hidden x (λ old. value) x.form) }
{
    match left.form {
        Form::InLocal(local) => set_local(alloc, local, value),
        _ => {
            let kept = set_local(alloc, hidden, left.code)?;
            let stored = store(alloc, access, Expr::Local(hidden), value)?;
            seq(alloc, kept, stored)
        }
    }
}

/// An expression that keeps the old value, which is the result, and writes this one.
pub fn written_before(
    alloc: Global,
    table: &TypeTable,
    hidden: usize,
    left: Typing,
    value: Expr,
) -> Result<Typing, AllocError>
    requires left { (x : rules.Typing) × Is table.now left x }
    requires room { hidden + 1 < 2 ^ 64 }
    ensures { IfOk result (λ v. (x : rules.Typing) → Is table.now left x →
        Is table.now v (conversions.result x.type (expressions.written_before hidden x (λ old. value) x.form) rules.no_constant)) }
{
    Ok(Typing {
        kind: left.kind,
        form: form_of_result(table, left.kind),
        constant: Constant::None,
        code: written_before_code(alloc, access(table, left.kind), hidden, left, value)?,
    })
}

fn written_before_code(
    alloc: Global,
    access: Access,
    hidden: usize,
    left: Typing,
    value: Expr,
) -> Result<Expr, AllocError>
    requires { hidden + 1 < 2 ^ 64 }
    ensures { IfOk result (λ e. (x : rules.Typing) → access ≡ conversions.access_of x.type → form_of left.form ≡ x.form → left.code ≡ x.code →
        e ≡ expressions.written_before hidden x (λ old. value) x.form) }
{
    match left.form {
        Form::InLocal(local) => {
            let stored = set_local(alloc, local, value)?;
            kept_before(alloc, hidden, Expr::Local(local), stored)
        }
        _ => {
            let stored = store(alloc, access, Expr::Local(hidden), value)?;
            let old = load(alloc, access, Expr::Local(hidden))?;
            kept_at(alloc, hidden, left.code, old, stored)
        }
    }
}

// A value is kept in this hidden local, is the result, and something is done before.
fn kept_before(alloc: Global, hidden: usize, old: Expr, done: Expr) -> Result<Expr, AllocError>
    ensures { IfOk result (λ e. e ≡ forms.seq (forms.set_local hidden old) (forms.seq done (forms.local hidden))) }
{
    let kept = set_local(alloc, hidden, old)?;
    let rest = seq(alloc, done, Expr::Local(hidden))?;
    seq(alloc, kept, rest)
}

// The same of a value in memory, whose address is kept too.
fn kept_at(
    alloc: Global,
    hidden: usize,
    at: Expr,
    old: Expr,
    done: Expr,
) -> Result<Expr, AllocError>
    requires { hidden + 1 < 2 ^ 64 }
    ensures { IfOk result (λ e. e ≡ forms.seq (forms.set_local hidden at) (forms.seq (forms.set_local (hidden + 1) old) (forms.seq done (forms.local (hidden + 1))))) }
{
    let placed = set_local(alloc, hidden, at)?;
    let rest = kept_before(alloc, hidden + 1, old, done)?;
    seq(alloc, placed, rest)
}
