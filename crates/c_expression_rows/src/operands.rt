// The first two kids of a node as its operands (C99 6.5).
ghost use Rattle.std.specs.Prelude.{◌≡◌, ◌<◌, ℕ, IfOk, Some, length, is_some, ◌&&◌, true, false};
ghost use Rattle.c_typing.specs.Places.{is_braces};
ghost use Rattle.c_typing.specs.Judgements as rules;
ghost use Rattle.c_typing.specs.Judgements.{typing_at};
ghost use Rattle.c_typing.specs.Conversions.{value_of};
ghost use Rattle.c_type_ids.specs.Ids.{Grows};
ghost use Rattle.c_values.specs.Typings.{Is};
ghost use Rattle.c_meanings.specs.Meanings.{AreLeft, HasKids, IsReady, judged_to, kid_in, node_in};

use c_meanings::Meanings;
use c_nodes::Nodes;
use c_values::Typing;
use std::alloc::{AllocError, Global};

/// The first two kids are expressions with a meaning.
pub(crate) fn are_operands(nodes: &Nodes, node: usize, meanings: &Meanings) -> bool
    requires within { node < length nodes.now }
    requires kids { HasKids nodes.now node 2 }
    requires ready { IsReady nodes.now node 0 meanings.now }
    ensures { result ≡ (is_some (typing_at (judged_to nodes.now node) (kid_in nodes.now node 0)) && is_some (typing_at (judged_to nodes.now node) (kid_in nodes.now node 1))) }
{
    meanings.operand_at(nodes, node, 0).is_some() && meanings.operand_at(nodes, node, 1).is_some()
}

/// The values of the first two kids, which are parts of the node from now on.
pub(crate) fn take_values(
    alloc: Global,
    nodes: &Nodes,
    node: usize,
    meanings: &mut Meanings,
) -> Result<(Typing, Typing), AllocError>
    requires within { node < length nodes.now }
    requires kids { HasKids nodes.now node 2 }
    requires other { is_braces (node_in nodes.now node).label.kind ≡ false }
    requires ready { IsReady nodes.now node 0 meanings.old }
    requires there { (is_some (typing_at (judged_to nodes.now node) (kid_in nodes.now node 0)) && is_some (typing_at (judged_to nodes.now node) (kid_in nodes.now node 1))) ≡ true }
    ensures is { IfOk result (λ values. (x y : rules.Typing) → typing_at (judged_to nodes.now node) (kid_in nodes.now node 0) ≡ Some x → typing_at (judged_to nodes.now node) (kid_in nodes.now node 1) ≡ Some y →
        Is meanings.new.types values.0 (value_of x) × Is meanings.new.types values.1 (value_of y)) }
    ensures ready { (low : ℕ) × IsReady nodes.now node low meanings.new }
    ensures left { AreLeft nodes.now node meanings.old meanings.new }
    ensures grows { Grows meanings.old.types meanings.new.types }
{
    let left = meanings.take_value(alloc, nodes, node, 0)?;
    let right = meanings.take_value(alloc, nodes, node, 1)?;
    Ok((left, right))
}
