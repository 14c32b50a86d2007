// `return` (C99 6.8.6.4).
ghost use Rattle.std.specs.Prelude.{◌≡◌, ◌∷◌, [], Some, None, false};
ghost use Rattle.c_types.specs.Forms as forms;
ghost use Rattle.c_typing.specs.Types as types;
ghost use Rattle.c_typing.specs.Places.{Node, kid};
ghost use Rattle.c_typing.specs.Judgements as rules;
ghost use Rattle.c_typing.specs.Rules as faults;
ghost use Rattle.c_typing.specs.Conversions as conversions;
ghost use Rattle.c_typing.specs.Statements as statements;
ghost use Rattle.c_type_ids.specs.Ids.{Names};
ghost use Rattle.c_values.specs.Typings.{Is};
ghost use Rattle.c_answers.specs.Answers.{Allows, Settles};

use crate::forms::return_of;
use c_answers::Refusal;
use c_constants::is_null;
use c_type_ids::TypeTable;
use c_types::{Stmts, TypeId};
use c_values::{Type, Typing, converted, is_assignable, is_void};
use std::alloc::Global;

/// Returns a value, which stands at a node of its own, from a function that gives this type.
pub fn return_value(
    alloc: Global,
    table: &TypeTable,
    gives: TypeId,
    value: Typing,
    value_node: usize,
    node: usize,
) -> Result<Stmts, Refusal>
    requires gives { (t : types.CType) × Names table.now gives t }
    requires value { (x : rules.Typing) × Is table.now value x }
    ensures { (t : types.CType) (x : rules.Typing) (n : Node) → Names table.now gives t → Is table.now value x → n.id ≡ node → kid n 0 ≡ value_node →
        Settles (λ ss. ss ≡ forms.return_with (Some (conversions.converted_to t x)) ∷ []) result (statements.return_faults t x n) }
{
    check_value(table, gives, &value, value_node, node)?;
    let code = converted(alloc, table, value.kind, Type::Known(gives), value.code)?;
    Ok(return_of(alloc, Some(code))?)
}

// A value may be returned.
fn check_value(
    table: &TypeTable,
    gives: TypeId,
    value: &Typing,
    value_node: usize,
    node: usize,
) -> Result<(), Refusal>
    requires gives { (t : types.CType) × Names table.now gives t }
    requires value { (x : rules.Typing) × Is table.now value.now x }
    ensures { (t : types.CType) (x : rules.Typing) (n : Node) → Names table.now gives t → Is table.now value.now x → n.id ≡ node → kid n 0 ≡ value_node →
        Allows result (statements.return_faults t x n) }
{
    if is_void(table, gives) {
        return Err(Refusal::Broken { rule: 18, node });
    }
    if !is_assignable(
        table,
        Type::Known(gives),
        value.kind,
        is_null(value.constant),
    ) {
        return Err(Refusal::Broken {
            rule: 14,
            node: value_node,
        });
    }
    Ok(())
}

/// Returns nothing from a function that gives this type.
pub fn return_nothing(
    alloc: Global,
    table: &TypeTable,
    gives: TypeId,
    node: usize,
) -> Result<Stmts, Refusal>
    requires { (t : types.CType) × Names table.now gives t }
    ensures { (t : types.CType) → Names table.now gives t →
        Settles (λ ss. ss ≡ forms.return_with None ∷ []) result (faults.bad_return false t node) }
{
    if !is_void(table, gives) {
        return Err(Refusal::Broken { rule: 18, node });
    }
    Ok(return_of(alloc, None)?)
}
