// Operators with an assignment, as `+=` (C99 6.5.16.2).
ghost use Rattle.std.specs.Prelude.{◌≡◌, List, IfOk, unwrap_or};
ghost use Rattle.c_typing.specs.Types.{CType, Layout};
ghost use Rattle.c_typing.specs.Places.{Node};
ghost use Rattle.c_typing.specs.Names.{Places};
ghost use Rattle.c_typing.specs.Judgements as rules;
ghost use Rattle.c_typing.specs.Judgements.{layouts};
ghost use Rattle.c_typing.specs.Conversions as conversions;
ghost use Rattle.c_typing.specs.Expressions as expressions;
ghost use Rattle.c_type_ids.specs.Ids.{AreLaid, Grows};
ghost use Rattle.c_values.specs.Typings.{Is, IsType};
ghost use Rattle.c_values.specs.Operators.{Same};
ghost use Rattle.c_answers.specs.Answers.{Answers, Expresses};
ghost use Rattle.c_assignments.specs.Assignments.{old_of, operation_type};

use crate::faults::compound_type;
use crate::writes::{new_value, old_value, written};
use c_answers::Refusal;
use c_operations::{Coded, code_of, operand_of};
use c_type_ids::TypeTable;
use c_values::{Operator, Type, Typing};
use std::alloc::{AllocError, Global};

/// An operator with an assignment, which stands at this node. The first of its hidden locals has this number.
pub fn compound_by(
    alloc: Global,
    table: &mut TypeTable,
    node: usize,
    hidden: usize,
    operator: Operator,
    left: Typing,
    right: Typing,
) -> Result<Typing, Refusal>
    requires left { (x : rules.Typing) × Is table.old left x }
    requires right { (y : rules.Typing) × Is table.old right y }
    ensures is { (p : Places) (js : List rules.Judgement) (n : Node) (o : conversions.Operator) (x y : rules.Typing) → n.id ≡ node →
        expressions.hidden_before p js ≡ hidden → AreLaid table.old (layouts js) → Same operator o → Is table.old left x → Is table.old right y →
        Answers (Expresses table.new (expressions.hidden_for x.form 0)) result (expressions.compound_by p js n x y o) }
    ensures grows { Grows table.old table.new }
{
    let kind = compound_type(table, node, operator, &left, operand_of(&right))?;
    Ok(compound_value(alloc, table, hidden, operator, kind, left, code_of(right))?)
}

// The value, where the operation has this type.
fn compound_value(
    alloc: Global,
    table: &TypeTable,
    hidden: usize,
    operator: Operator,
    kind: Type,
    left: Typing,
    right: Coded,
) -> Result<Typing, AllocError>
    requires left { (x : rules.Typing) × Is table.now left x }
    requires right { (u : CType) × IsType table.now right.kind u }
    ensures { IfOk result (λ v. (ls : List Layout) (o : conversions.Operator) (x y : rules.Typing) → AreLaid table.now ls → Same operator o →
        IsType table.now kind (unwrap_or (operation_type ls o x.type (old_of hidden x.type x.form) y) x.type) →
        Is table.now left x → IsType table.now right.kind y.type → right.code ≡ y.code →
        Is table.now v (conversions.result x.type (expressions.written hidden x (expressions.compound_new ls o x y) x.form) rules.no_constant)) }
{
    let old = Coded {
        kind: left.kind,
        code: old_value(alloc, table, hidden, left.kind, left.form)?,
    };
    let value = new_value(alloc, table, operator, kind, old, right)?;
    written(alloc, table, hidden, left, value)
}
