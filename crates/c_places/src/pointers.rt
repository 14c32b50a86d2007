// Addresses, and what stands at one (C99 6.5.3.2).
ghost use Rattle.std.specs.Prelude.{◌≡◌, ℕ, List, IfOk};
ghost use Rattle.c_types.specs.declared.tree.Expr.{Expr as TypedExpr};
ghost use Rattle.c_types.specs.Tables.{IsThere};
ghost use Rattle.c_typing.specs.Types.{CType, pointer};
ghost use Rattle.c_typing.specs.Places.{Node};
ghost use Rattle.c_typing.specs.Judgements as rules;
ghost use Rattle.c_typing.specs.Judgements.{Judgement, layouts, verdict};
ghost use Rattle.c_typing.specs.Conversions as conversions;
ghost use Rattle.c_typing.specs.Rules.{incomplete_type};
ghost use Rattle.c_typing.specs.Expressions as productions;
ghost use Rattle.c_typing.specs.Expressions.{expression};
ghost use Rattle.c_type_ids.specs.Ids.{AreLaid, Grows, Names, Shows};
ghost use Rattle.c_values.specs.Typings.{HasForm, Is, IsType, form_of};
ghost use Rattle.c_answers.specs.Answers.{Answers};
ghost use Rattle.c_places.specs.Places.{IsAddressType, IsAnswer, IsPlaceType};

use c_answers::Refusal;
use c_constants::{Constant, address_constant};
use c_type_ids::{Kind, TypeTable};
use c_types::TypeId;
use c_values::{Form, Shown, Type, Typing, kind_of, value_of};
use std::alloc::{AllocError, Global};

/// `&operand`: an lvalue in memory.
pub fn address_operator(
    table: &mut TypeTable,
    node: usize,
    operand: Typing,
) -> Result<Typing, Refusal>
    requires { (x : rules.Typing) × Is table.old operand x }
    ensures is { (n : Node) (x : rules.Typing) → n.id ≡ node → Is table.old operand x → IsAnswer table.new result (productions.address_operator n x) }
    ensures grows { Grows table.old table.new }
{
    let kind = address_type(table, node, operand.form, operand.kind)?;
    Ok(Typing {
        kind,
        form: Form::Value,
        constant: address_constant(operand.constant),
        code: operand.code,
    })
}

// The type of the address of an expression that is an lvalue in memory.
fn address_type(table: &mut TypeTable, node: usize, form: Form, kind: Type) -> Result<Type, Refusal>
    requires there { (t : CType) × IsType table.old kind t }
    requires of_form { HasForm kind form }
    ensures is { (n : Node) (x : rules.Typing) → n.id ≡ node → IsType table.old kind x.type → form_of form ≡ x.form →
        Answers (IsAddressType table.new x) result (productions.address_operator n x) }
    ensures grows { Grows table.old table.new }
{
    match form {
        Form::InLocal(_) => Err(Refusal::Broken { rule: 11, node }),
        Form::InMemory => Ok(pointer_to(table, kind)?),
        _ => Err(Refusal::Broken { rule: 12, node }),
    }
}

// The type of pointers to a type that an object may have.
fn pointer_to(table: &mut TypeTable, kind: Type) -> Result<Type, AllocError>
    requires there { (t : CType) × IsType table.old kind t }
    requires of_object { HasForm kind Form.InMemory }
    ensures is { IfOk result (λ made. (t : CType) → IsType table.old kind t → IsType table.new made (pointer t)) }
    ensures grows { Grows table.old table.new }
{
    match kind {
        Type::Known(id) => Ok(Type::Known(table.pointer(id)?)),
        Type::Unsized(element) => Ok(Type::ToUnsized(element)),
        Type::ToUnsized(_) => unreachable!(),
    }
}

/// `*operand`: what a pointer points to, which has a size.
pub fn dereference(
    alloc: Global,
    table: &mut TypeTable,
    node: usize,
    operand: Typing,
) -> Result<Typing, Refusal>
    requires { (x : rules.Typing) × Is table.old operand x }
    ensures is { (js : List Judgement) (n : Node) (x : rules.Typing) → AreLaid table.old (layouts js) → n.id ≡ node → Is table.old operand x →
        IsAnswer table.new result (productions.dereference js n (conversions.value_of x).type (conversions.value_of x)) }
    ensures grows { Grows table.old table.new }
{
    let value = value_of(alloc, table, operand)?;
    let id = pointed_type(table, node, value.kind)?;
    Ok(Typing {
        kind: Type::Known(id),
        form: Form::InMemory,
        constant: Constant::None,
        code: value.code,
    })
}

// The type of what a value of this type points to.
fn pointed_type(table: &TypeTable, node: usize, kind: Type) -> Result<TypeId, Refusal>
    requires { (t : CType) × IsType table.now kind t }
    ensures { (js : List Judgement) (n : Node) (t : CType) (y : rules.Typing) → AreLaid table.now (layouts js) → n.id ≡ node → IsType table.now kind t →
        Answers (IsPlaceType table.now y.code) result (productions.dereference js n t y) }
{
    match kind_of(table, kind) {
        Shown::Kind(shown) => pointed_type_by(table, node, shown),
        Shown::ToUnsized(_) => Err(Refusal::Broken { rule: 5, node }),
        Shown::Unsized(_) => Err(Refusal::Broken { rule: 13, node }),
    }
}

fn pointed_type_by(table: &TypeTable, node: usize, shown: Kind) -> Result<TypeId, Refusal>
    requires { (t : CType) × Shows table.now shown t }
    ensures { (js : List Judgement) (n : Node) (t : CType) (y : rules.Typing) → AreLaid table.now (layouts js) → n.id ≡ node → Shows table.now shown t →
        Answers (IsPlaceType table.now y.code) result (productions.dereference js n t y) }
{
    match shown {
        Kind::Pointer(target) => sized_target(table, node, target),
        _ => Err(Refusal::Broken { rule: 13, node }),
    }
}

// The type that a pointer points to, where it has a size.
fn sized_target(table: &TypeTable, node: usize, target: TypeId) -> Result<TypeId, Refusal>
    requires { IsThere table.now.table target }
    ensures { (js : List Judgement) (t : CType) (address : TypedExpr) → AreLaid table.now (layouts js) → Names table.now target t →
        Answers (IsPlaceType table.now address) result
        (verdict (incomplete_type (layouts js) t node) (expression (record { type = t; form = rules.in_memory; code = address; constant = rules.no_constant }))) }
{
    match table.size(target) {
        Some(_) => Ok(target),
        None => Err(Refusal::Broken { rule: 5, node }),
    }
}
