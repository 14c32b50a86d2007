// Statements without parts that are statements (C99 6.8.3).
ghost use Rattle.std.specs.Prelude.{◌≡◌, ◌<◌, ◌∷◌, [], IfOk, length};
ghost use Rattle.c_syntax.specs.declared.kind.SynKind.TheVariants as kind;
ghost use Rattle.c_typing.specs.Statements.{empty_statement};
ghost use Rattle.c_meanings.specs.Meanings.{IsReady, IsRow, node_in};

use c_answers::Refusal;
use c_judgements::Judged;
use c_meanings::{Meanings, performed};
use c_nodes::Nodes;
use c_statements as statements;
use c_statements::{as_one, one};
use c_types::Stmts;
use cp_base::Items;
use std::alloc::{AllocError, Global};

/// Nothing, or an absent part of `for`.
pub fn empty(
    alloc: Global,
    nodes: &Nodes,
    node: usize,
    meanings: &Meanings,
) -> Result<Judged, Refusal>
    requires within { node < length nodes.now }
    requires kind { (node_in nodes.now node).label.kind ≡ kind.Empty }
    requires ready { IsReady nodes.now node 0 meanings.now }
    ensures { IsRow nodes.now node meanings.now meanings.now result }
{
    performed(nothing(alloc))
}

/// The statement that does nothing.
pub(crate) fn nothing(alloc: Global) -> Result<Stmts, AllocError>
    ensures { IfOk result (λ ss. ss ≡ empty_statement ∷ []) }
{
    one(alloc, as_one(Items::new(alloc)))
}

/// An expression whose value is dropped.
pub fn expression(
    alloc: Global,
    nodes: &Nodes,
    node: usize,
    meanings: &mut Meanings,
) -> Result<Judged, Refusal>
    requires within { node < length nodes.now }
    requires kind { (node_in nodes.now node).label.kind ≡ kind.ExprStmt }
    requires ready { IsReady nodes.now node 0 meanings.old }
    ensures { IsRow nodes.now node meanings.old meanings.new result }
{
    if meanings.operand_at(nodes, node, 0).is_none() {
        return Ok(Judged::Waits);
    }
    let value = meanings.take_value(alloc, nodes, node, 0)?;
    performed(statements::expression(alloc, value.code))
}
