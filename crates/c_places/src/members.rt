// Members of structs (C99 6.5.2.3).
ghost use Rattle.std.specs.Prelude.{◌≡◌, ℕ, List};
ghost use Rattle.c_typing.specs.Types.{CType, Layout, target_of};
ghost use Rattle.c_typing.specs.Places.{Node};
ghost use Rattle.c_typing.specs.Judgements as rules;
ghost use Rattle.c_typing.specs.Judgements.{Judgement, layouts};
ghost use Rattle.c_typing.specs.Expressions as productions;
ghost use Rattle.c_type_ids.specs.Ids.{AreLaid, Grows, IsField};
ghost use Rattle.c_values.specs.Typings.{Is, ShownAs, form_of};
ghost use Rattle.c_places.specs.Places.{IsAnswer};

use crate::parts::part;
use c_answers::Refusal;
use c_constants::{Constant, part_at};
use c_type_ids::{Kind, TypeTable};
use c_types::{Expr, TypeId};
use c_values::{Form, Shown, Typing, kind_of, value_of};
use std::alloc::Global;

/// `operand.name`
pub fn dot(
    alloc: Global,
    table: &TypeTable,
    node: usize,
    operand: Typing,
    name: &str,
) -> Result<Typing, Refusal>
    requires { (x : rules.Typing) × Is table.now operand x }
    ensures { (js : List Judgement) (n : Node) (x : rules.Typing) → AreLaid table.now (layouts js) → n.id ≡ node → n.label.text ≡ name.now → Is table.now operand x →
        IsAnswer table.now result (productions.dot js n x) }
{
    match member_of(table, kind_of(table, operand.kind), name) {
        Some((offset, id)) => {
            let constant = part_at(offset, operand.constant);
            let form = member_form(operand.form);
            part(alloc, id, form, operand.code, Expr::Const(offset), constant)
        }
        None => Err(Refusal::Broken { rule: 6, node }),
    }
}

// A part of a struct that is no lvalue is none.
fn member_form(form: Form) -> Form
    ensures { form_of result ≡ productions.member_form (form_of form) }
{
    match form {
        Form::Temporary => Form::Temporary,
        _ => Form::InMemory,
    }
}

/// `operand->name`
pub fn arrow(
    alloc: Global,
    table: &mut TypeTable,
    node: usize,
    operand: Typing,
    name: &str,
) -> Result<Typing, Refusal>
    requires { (x : rules.Typing) × Is table.old operand x }
    ensures is { (js : List Judgement) (n : Node) (x : rules.Typing) → AreLaid table.old (layouts js) → n.id ≡ node → n.label.text ≡ name.now → Is table.old operand x →
        IsAnswer table.new result (productions.arrow js n x) }
    ensures grows { Grows table.old table.new }
{
    let pointer = value_of(alloc, table, operand)?;
    match pointed_member(table, kind_of(table, pointer.kind), name) {
        Some((offset, id)) => part(
            alloc,
            id,
            Form::InMemory,
            pointer.code,
            Expr::Const(offset),
            Constant::None,
        ),
        None => Err(Refusal::Broken { rule: 6, node }),
    }
}

// The offset and the type of the member of this name.
fn member_of(table: &TypeTable, shown: Shown, name: &str) -> Option<(u32, TypeId)>
    requires { (t : CType) × ShownAs table.now shown t }
    ensures { (t : CType) (ls : List Layout) → ShownAs table.now shown t → AreLaid table.now ls → IsField table.now result (productions.field_of ls t name.now) }
{
    match shown {
        Shown::Kind(Kind::Struct(s)) => table.member(s, name),
        _ => None,
    }
}

// The same of a struct that a pointer points to.
fn pointed_member(table: &TypeTable, shown: Shown, name: &str) -> Option<(u32, TypeId)>
    requires { (t : CType) × ShownAs table.now shown t }
    ensures { (t : CType) (ls : List Layout) → ShownAs table.now shown t → AreLaid table.now ls →
        IsField table.now result (productions.field_of ls (target_of t) name.now) }
{
    match shown {
        Shown::Kind(Kind::Pointer(target)) => member_of(
            table,
            Shown::Kind(table.kind(target)),
            name,
        ),
        _ => None,
    }
}
