// Elements of arrays (C99 6.5.2.1).
ghost use Rattle.std.specs.Prelude.{◌≡◌, ℕ, List, IfOk, if◌then◌else◌, Some, None};
ghost use Rattle.c_types.specs.declared.tree.COp.TheVariants as op;
ghost use Rattle.c_types.specs.Forms as forms;
ghost use Rattle.c_types.specs.Tables.{IsThere};
ghost use Rattle.c_typing.specs.Types as types;
ghost use Rattle.c_typing.specs.Types.{CType, IntegerType, Layout};
ghost use Rattle.c_typing.specs.Places.{Node};
ghost use Rattle.c_typing.specs.Judgements as rules;
ghost use Rattle.c_typing.specs.Judgements.{Judgement, layouts, means};
ghost use Rattle.c_typing.specs.Constants as constants;
ghost use Rattle.c_typing.specs.Expressions as productions;
ghost use Rattle.c_typing.specs.Expressions.{expression};
ghost use Rattle.c_type_ids.specs.Ids.{AreLaid, Grows, Known, Names};
ghost use Rattle.c_constants.specs.Constants.{constant_of};
ghost use Rattle.c_values.specs.Typings.{Is, IsType, ShownAs};
ghost use Rattle.c_places.specs.Places.{IsAnswer, IsElement, IsIndexed};

use crate::parts::part;
use c_answers::Refusal;
use c_constants::{Constant, element_at};
use c_type_ids::{Kind, TypeTable};
use c_types::{COp, Expr, TypeId};
use c_values::{Form, Shown, Type, Typing, binary, is_pointer, kind_of, value_of};
use std::alloc::{AllocError, Global};

/// The type of elements, with its size.
#[derive(Clone, Copy, Debug, PartialEq, Eq)]
pub struct Element {
    pub id: TypeId,
    pub size: u32,
}

/// The value of an operand of `[]`, and what this is as a constant: an array stays at its place.
#[derive(Drop)]
pub struct Indexed {
    pub value: Typing,
    pub constant: Constant,
}

/// `left[right]`: of the two, one is a pointer to a type with a size, and the other an integer.
pub fn subscript(
    alloc: Global,
    table: &mut TypeTable,
    node: usize,
    left: Typing,
    right: Typing,
) -> Result<Typing, Refusal>
    requires left { (x : rules.Typing) × Is table.old left x }
    requires right { (y : rules.Typing) × Is table.old right y }
    ensures is { (js : List Judgement) (n : Node) (x y : rules.Typing) → AreLaid table.old (layouts js) → n.id ≡ node → Is table.old left x → Is table.old right y →
        IsAnswer table.new result (productions.subscript js n x y) }
    ensures grows { Grows table.old table.new }
{
    let left = operand_of(alloc, table, left)?;
    let right = operand_of(alloc, table, right)?;
    element_by(alloc, table, node, left, right)
}

fn operand_of(alloc: Global, table: &mut TypeTable, operand: Typing) -> Result<Indexed, AllocError>
    requires { (x : rules.Typing) × Is table.old operand x }
    ensures is { IfOk result (λ found. (x : rules.Typing) → Is table.old operand x → IsIndexed table.new found x) }
    ensures grows { Grows table.old table.new }
{
    let place = operand.constant;
    let is_array = is_array(table, operand.kind);
    let value = value_of(alloc, table, operand)?;
    let constant = if is_array { place } else { value.constant };
    Ok(Indexed { value, constant })
}

fn is_array(table: &TypeTable, kind: Type) -> bool
    requires { (t : CType) × IsType table.now kind t }
    ensures { (t : CType) → IsType table.now kind t → result ≡ types.is_array t }
{
    matches!(
        kind_of(table, kind),
        Shown::Kind(Kind::Array(..)) | Shown::Unsized(_)
    )
}

// The element, by the values of both operands.
fn element_by(
    alloc: Global,
    table: &TypeTable,
    node: usize,
    left: Indexed,
    right: Indexed,
) -> Result<Typing, Refusal>
    requires left { (x : rules.Typing) × IsIndexed table.now left x }
    requires right { (y : rules.Typing) × IsIndexed table.now right y }
    ensures { (js : List Judgement) (n : Node) (x y : rules.Typing) → AreLaid table.now (layouts js) → n.id ≡ node → IsIndexed table.now left x → IsIndexed table.now right y →
        IsAnswer table.now result (productions.subscript js n x y) }
{
    let left_kind = kind_of(table, left.value.kind);
    let right_kind = kind_of(table, right.value.kind);
    match element_type(table, left_kind, right_kind) {
        None => Err(Refusal::Broken { rule: 13, node }),
        Some(element) => {
            if is_pointer(right_kind) {
                index_first(alloc, element, left, right)
            } else {
                pointer_first(alloc, element, left, right)
            }
        }
    }
}

// An index, and then a pointer.
fn index_first(
    alloc: Global,
    element: Element,
    index: Indexed,
    pointer: Indexed,
) -> Result<Typing, Refusal>
    ensures { (k : Known) (t : CType) → Names k element.id t →
        IsAnswer k result (means (expression (record { type = t; form = rules.in_memory; code = forms.binary op.AddU (forms.binary op.MulU index.value.code (forms.const element.size)) pointer.value.code; constant = constants.element_at element.size (constant_of pointer.constant) (constant_of index.constant) }))) }
{
    let constant = element_at(element.size, pointer.constant, index.constant);
    let offset = binary(
        alloc,
        COp::MulU,
        index.value.code,
        Expr::Const(element.size),
    )?;
    part(
        alloc,
        element.id,
        Form::InMemory,
        offset,
        pointer.value.code,
        constant,
    )
}

// A pointer, and then an index.
fn pointer_first(
    alloc: Global,
    element: Element,
    pointer: Indexed,
    index: Indexed,
) -> Result<Typing, Refusal>
    ensures { (k : Known) (t : CType) → Names k element.id t →
        IsAnswer k result (means (expression (record { type = t; form = rules.in_memory; code = forms.binary op.AddU pointer.value.code (forms.binary op.MulU index.value.code (forms.const element.size)); constant = constants.element_at element.size (constant_of pointer.constant) (constant_of index.constant) }))) }
{
    let constant = element_at(element.size, pointer.constant, index.constant);
    let offset = binary(
        alloc,
        COp::MulU,
        index.value.code,
        Expr::Const(element.size),
    )?;
    part(
        alloc,
        element.id,
        Form::InMemory,
        pointer.value.code,
        offset,
        constant,
    )
}

fn element_type(table: &TypeTable, left: Shown, right: Shown) -> Option<Element>
    requires left { (t : CType) × ShownAs table.now left t }
    requires right { (u : CType) × ShownAs table.now right u }
    ensures { (t u : CType) (ls : List Layout) → ShownAs table.now left t → ShownAs table.now right u → AreLaid table.now ls →
        IsElement table.now ls result (productions.element_type ls t u) }
{
    match left {
        Shown::Kind(Kind::Pointer(target)) => behind_pointer(table, target, right),
        Shown::Kind(Kind::Integer(_)) => behind_index(table, right),
        _ => None,
    }
}

// Behind a pointer stands an index.
fn behind_pointer(table: &TypeTable, target: TypeId, index: Shown) -> Option<Element>
    requires { IsThere table.now.table target }
    ensures { (t u : CType) (ls : List Layout) → Names table.now target t → ShownAs table.now index u → AreLaid table.now ls →
        IsElement table.now ls result (productions.element_type ls (types.pointer t) u) }
{
    match index {
        Shown::Kind(Kind::Integer(_)) => sized(table, target),
        _ => None,
    }
}

// Behind an index stands a pointer.
fn behind_index(table: &TypeTable, pointer: Shown) -> Option<Element>
    requires { (u : CType) × ShownAs table.now pointer u }
    ensures { (i : IntegerType) (u : CType) (ls : List Layout) → ShownAs table.now pointer u → AreLaid table.now ls →
        IsElement table.now ls result (productions.element_type ls (types.integer i) u) }
{
    match pointer {
        Shown::Kind(Kind::Pointer(target)) => sized(table, target),
        _ => None,
    }
}

// A type, where it has a size.
fn sized(table: &TypeTable, id: TypeId) -> Option<Element>
    requires { IsThere table.now.table id }
    ensures { (t : CType) (ls : List Layout) → Names table.now id t → AreLaid table.now ls →
        IsElement table.now ls result (if types.has_size ls t then Some t else None) }
{
    match table.size(id) {
        Some(size) => Some(Element { id, size }),
        None => None,
    }
}
