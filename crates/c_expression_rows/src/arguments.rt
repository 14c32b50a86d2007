// The arguments of a call, which are its kids behind the first (C99 6.5.2.2).
ghost use Rattle.std.specs.Prelude.{◌≡◌, ◌<◌, ◌++◌, ◌∷◌, ◌+◌, ℕ, [], suc, IfOk, List, OnOk, Some, length, is_some, reverse, true, false};
ghost use Rattle.c_typing.specs.Places.{is_braces, other_kids};
ghost use Rattle.c_typing.specs.Judgements as rules;
ghost use Rattle.c_typing.specs.Judgements.{typing_at};
ghost use Rattle.c_values.specs.Typings.{Is};
ghost use Rattle.c_values.specs.declared.typings.Typing.{Typing};
ghost use Rattle.c_calls.specs.Arguments.{AreTypings};
ghost use Rattle.c_meanings.specs.Meanings.{AreLeft, HasKids, IsReady, MayTake, judged_to, kid_in, node_in};
ghost use Rattle.c_expression_rows.specs.Calls.{AreOf, arguments_of};

use c_meanings::Meanings;
use c_nodes::Nodes;
use c_values::Typing;
use std::alloc::{AllocError, Global};

/// Each argument has a meaning.
pub(crate) fn are_arguments(nodes: &Nodes, node: usize, meanings: &Meanings) -> bool
    requires within { node < length nodes.now }
    requires ready { IsReady nodes.now node 0 meanings.now }
    ensures { result ≡ is_some (arguments_of nodes.now node) }
{
    for index in 1..nodes.kids(node).len() {
        if meanings.operand_at(nodes, node, index).is_none() {
            return false;
        }
    }
    true
}

/// How many arguments there are.
pub(crate) fn argument_count(nodes: &Nodes, node: usize) -> usize
    requires within { node < length nodes.now }
    requires kids { HasKids nodes.now node 1 }
    ensures { result ≡ length (other_kids (node_in nodes.now node)) }
{
    nodes.kids(node).len() - 1
}

/// The nodes of the arguments.
pub(crate) fn argument_nodes(
    alloc: Global,
    nodes: &Nodes,
    node: usize,
) -> Result<Vec<usize>, AllocError>
    requires { node < length nodes.now }
    ensures { IfOk result (λ found. found.items ≡ other_kids (node_in nodes.now node)) }
{
    let mut found = Vec::new(alloc);
    for index in 1..nodes.kids(node).len() {
        found.push(nodes.kid(node, index))?;
    }
    Ok(found)
}

/// The arguments, which are parts of the node from now on; the first one stands last.
pub(crate) fn take_arguments(
    alloc: Global,
    nodes: &Nodes,
    node: usize,
    meanings: &mut Meanings,
) -> Result<Vec<Typing>, AllocError>
    requires within { node < length nodes.now }
    requires kids { HasKids nodes.now node 1 }
    requires other { is_braces (node_in nodes.now node).label.kind ≡ false }
    requires ready { IsReady nodes.now node (kid_in nodes.now node 0 + 1) meanings.old }
    requires there { is_some (arguments_of nodes.now node) ≡ true }
    ensures are { IfOk result (λ found. (xs : List rules.Typing) → arguments_of nodes.now node ≡ Some xs → AreTypings meanings.new.types (reverse found.items) xs) }
    ensures one_each { IfOk result (λ found. length found.items ≡ length (other_kids (node_in nodes.now node))) }
    ensures ready { (low : ℕ) × IsReady nodes.now node low meanings.new }
    ensures left { AreLeft nodes.now node meanings.old meanings.new }
    ensures types { meanings.new.types ≡ meanings.old.types }
{
    let mut arguments = Vec::new(alloc);
    put_arguments(nodes, node, meanings, &mut arguments)?;
    arguments.reverse();
    Ok(arguments)
}

// Puts them behind each other, the first one first.
fn put_arguments(
    nodes: &Nodes,
    node: usize,
    meanings: &mut Meanings,
    arguments: &mut Vec<Typing>,
) -> Result<(), AllocError>
    requires within { node < length nodes.now }
    requires kids { HasKids nodes.now node 1 }
    requires other { is_braces (node_in nodes.now node).label.kind ≡ false }
    requires ready { IsReady nodes.now node (kid_in nodes.now node 0 + 1) meanings.old }
    requires there { is_some (arguments_of nodes.now node) ≡ true }
    requires none { arguments.old.items ≡ [] }
    ensures are { OnOk result (AreOf meanings.new.types (judged_to nodes.now node) arguments.new.items (other_kids (node_in nodes.now node))) }
    ensures one_each { OnOk result (length arguments.new.items ≡ length (other_kids (node_in nodes.now node))) }
    ensures ready { (low : ℕ) × IsReady nodes.now node low meanings.new }
    ensures left { AreLeft nodes.now node meanings.old meanings.new }
    ensures types { meanings.new.types ≡ meanings.old.types }
{
    for index in 1..nodes.kids(node).len() {
        put_argument(nodes, node, index, meanings, arguments)?;
    }
    Ok(())
}

// Puts the one that is the kid of this index.
fn put_argument(
    nodes: &Nodes,
    node: usize,
    index: usize,
    meanings: &mut Meanings,
    arguments: &mut Vec<Typing>,
) -> Result<(), AllocError>
    requires within { node < length nodes.now }
    requires kids { HasKids nodes.now node (suc index) }
    requires other { is_braces (node_in nodes.now node).label.kind ≡ false }
    requires ready { MayTake nodes.now node index meanings.old }
    requires there { is_some (typing_at (judged_to nodes.now node) (kid_in nodes.now node index)) ≡ true }
    ensures is { OnOk result ((argument : Typing) × (arguments.new.items ≡ arguments.old.items ++ argument ∷ []) × ((y : rules.Typing) → typing_at (judged_to nodes.now node) (kid_in nodes.now node index) ≡ Some y → Is meanings.new.types argument y)) }
    ensures ready { IsReady nodes.now node (kid_in nodes.now node index + 1) meanings.new }
    ensures left { AreLeft nodes.now node meanings.old meanings.new }
    ensures types { meanings.new.types ≡ meanings.old.types }
{
    let argument = meanings.take_operand(nodes, node, index);
    arguments.push(argument)?;
    Ok(())
}
