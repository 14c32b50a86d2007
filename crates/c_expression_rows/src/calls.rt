// Calls of functions (C99 6.5.2.2).
ghost use Rattle.std.specs.Prelude.{◌≡◌, ◌<◌, length};
ghost use Rattle.c_syntax.specs.declared.kind.SynKind.TheVariants as kind;
ghost use Rattle.c_meanings.specs.Meanings.{HasKids, IsReady, IsRow, node_in};
ghost use Rattle.c_expression_rows.specs.Calls.{IsCalledAt};

use crate::arguments::{are_arguments, argument_count, argument_nodes, take_arguments};
use crate::callees::{Called, called_of};
use c_answers::Refusal;
use c_calls as calls;
use c_judgements::Judged;
use c_meanings::{Meanings, expressed};
use c_nodes::Nodes;
use std::alloc::Global;

/// A call: the name of a function, with as many arguments as it has parameters.
pub fn call(
    alloc: Global,
    nodes: &Nodes,
    node: usize,
    meanings: &mut Meanings,
) -> Result<Judged, Refusal>
    requires within { node < length nodes.now }
    requires kind { (node_in nodes.now node).label.kind ≡ kind.Call }
    requires ready { IsReady nodes.now node 0 meanings.old }
    ensures { IsRow nodes.now node meanings.old meanings.new result }
{
    match called_at(nodes, node, meanings) {
        Called::Waits => return Ok(Judged::Waits),
        Called::NoFunction => return Err(Refusal::Broken { rule: 16, node }),
        Called::WrongNumber => return Err(Refusal::Broken { rule: 15, node }),
        Called::Fits => (),
    }
    let kids = argument_nodes(alloc, nodes, node)?;
    let name = meanings.take_operand(nodes, node, 0);
    let arguments = take_arguments(alloc, nodes, node, meanings)?;
    expressed(calls::call(
        alloc,
        &mut meanings.types,
        node,
        name,
        arguments,
        kids.as_slice(),
    ))
}

// What is found of the name and the arguments of a call.
fn called_at(nodes: &Nodes, node: usize, meanings: &Meanings) -> Called
    requires within { node < length nodes.now }
    requires kind { (node_in nodes.now node).label.kind ≡ kind.Call }
    requires kids { HasKids nodes.now node 1 }
    requires ready { IsReady nodes.now node 0 meanings.now }
    ensures { IsCalledAt result nodes.now node }
{
    let Some(name) = meanings.operand_at(nodes, node, 0) else {
        return Called::Waits;
    };
    match called_of(&meanings.types, name, argument_count(nodes, node)) {
        Called::Fits => {
            if are_arguments(nodes, node, meanings) {
                Called::Fits
            } else {
                Called::Waits
            }
        }
        other => other,
    }
}
