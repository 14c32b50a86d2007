// A call, with its code (C99 6.5.2.2).
ghost use Rattle.std.specs.Prelude.{◌≡◌, ℕ, List, IfOk, Some, length, map, reverse};
ghost use Rattle.c_types.specs.Forms as forms;
ghost use Rattle.c_types.specs.Tables.{IsThere};
ghost use Rattle.c_typing.specs.Types.{CType, CTypes, function};
ghost use Rattle.c_typing.specs.Places.{Node, other_kids};
ghost use Rattle.c_typing.specs.Judgements as rules;
ghost use Rattle.c_typing.specs.Judgements.{Judgement, all_of, typing_at};
ghost use Rattle.c_typing.specs.Conversions as conversions;
ghost use Rattle.c_typing.specs.Expressions as productions;
ghost use Rattle.c_type_ids.specs.Ids.{Grows, Names};
ghost use Rattle.c_values.specs.Typings.{Is, callee_of};
ghost use Rattle.c_places.specs.Places.{IsAnswer};
ghost use Rattle.c_calls.specs.Arguments.{AreTypings, IsCallable};

use crate::arguments::pass_all;
use c_answers::Refusal;
use c_constants::Constant;
use c_type_ids::{Kind, TypeTable};
use c_types::{Expr, Exprs, TypeId};
use c_values::{Callee, Form, Type, Typing};
use sqlite_items::Boxed;
use std::alloc::{AllocError, Global};

/// A call of the name of a function. Of the arguments, each beside its node, the first one stands last.
pub fn call(
    alloc: Global,
    table: &mut TypeTable,
    node: usize,
    name: Typing,
    arguments: Vec<Typing>,
    nodes: &[usize],
) -> Result<Typing, Refusal>
    requires name { (f : rules.Typing) × Is table.old name f × IsCallable f.form f.type }
    requires arguments { (xs : List rules.Typing) × AreTypings table.old (reverse arguments.items) xs }
    requires one_each { length arguments.items ≡ length nodes.now }
    ensures is { (js : List Judgement) (n : Node) (f : rules.Typing) (xs : List rules.Typing) → n.id ≡ node → other_kids n ≡ nodes.now → all_of (map (typing_at js) (other_kids n)) ≡ Some xs →
        Is table.old name f → AreTypings table.old (reverse arguments.items) xs → IsAnswer table.new result (productions.call_by js n f f.form) }
    ensures grows { Grows table.old table.new }
{
    let Form::Callee(callee) = name.form else {
        return Err(Refusal::Broken { rule: 16, node });
    };
    let Type::Known(id) = name.kind else {
        unreachable!()
    };
    called(alloc, table, node, callee, id, arguments, nodes)
}

// The same where a function of this type is called.
fn called(
    alloc: Global,
    table: &mut TypeTable,
    node: usize,
    callee: Callee,
    id: TypeId,
    arguments: Vec<Typing>,
    nodes: &[usize],
) -> Result<Typing, Refusal>
    requires function { (r : CType) × (ts : CTypes) × Names table.old id (function r ts) }
    requires arguments { (xs : List rules.Typing) × AreTypings table.old (reverse arguments.items) xs }
    requires one_each { length arguments.items ≡ length nodes.now }
    ensures is { (js : List Judgement) (n : Node) (r : CType) (ts : CTypes) (xs : List rules.Typing) → n.id ≡ node → other_kids n ≡ nodes.now → all_of (map (typing_at js) (other_kids n)) ≡ Some xs →
        Names table.old id (function r ts) → AreTypings table.old (reverse arguments.items) xs → IsAnswer table.new result (productions.called js n (callee_of callee) (function r ts)) }
    ensures grows { Grows table.old table.new }
{
    if table.parameters(id).len() != nodes.len() {
        return Err(Refusal::Broken { rule: 15, node });
    }
    let codes = pass_all(alloc, table, id, arguments, nodes)?;
    let code = call_code(alloc, callee, codes)?;
    Ok(result_of(table, gives_of(table, id), code))
}

// The type that a function gives.
fn gives_of(table: &TypeTable, id: TypeId) -> TypeId
    requires { (r : CType) × (ts : CTypes) × Names table.now id (function r ts) }
    ensures { (r : CType) (ts : CTypes) → Names table.now id (function r ts) → Names table.now result r }
{
    match table.kind(id) {
        Kind::Function(gives) => gives,
        _ => unreachable!(),
    }
}

// The value of a call that gives this type.
fn result_of(table: &TypeTable, gives: TypeId, code: Expr) -> Typing
    requires { IsThere table.now.table gives }
    ensures { (r : CType) → Names table.now gives r → Is table.now result (conversions.result r code rules.no_constant) }
{
    let form = match table.kind(gives) {
        Kind::Struct(_) => Form::Temporary,
        _ => Form::Value,
    };
    Typing {
        kind: Type::Known(gives),
        form,
        constant: Constant::None,
        code,
    }
}

// The code of a call with these arguments.
fn call_code(alloc: Global, callee: Callee, arguments: Vec<Expr>) -> Result<Expr, AllocError>
    ensures { IfOk result (λ code. code ≡ productions.call_code (callee_of callee) arguments.items) }
{
    match callee {
        Callee::ReadsInput => Ok(Expr::GetChar),
        Callee::WritesOutput => put_char(alloc, first_of(arguments)),
        Callee::Calls(number) => Ok(Expr::Call(number, Exprs::from_vec(arguments))),
    }
}

fn put_char(alloc: Global, value: Expr) -> Result<Expr, AllocError>
    ensures { IfOk result (λ code. code ≡ forms.put_char value) }
{
    Ok(Expr::PutChar(Boxed::new(alloc, value)?))
}

// The first of some expressions; where there is none, 0.
fn first_of(mut expressions: Vec<Expr>) -> Expr
    ensures { result ≡ productions.first_or expressions.items }
{
    if expressions.is_empty() {
        Expr::Const(0)
    } else {
        expressions.swap_remove(0)
    }
}
