// The locals with names of the function around a node.
ghost use Rattle.std.specs.Prelude.{◌≡◌, ◌<◌, ◌^◌, get_or, length};
ghost use Rattle.c_typing.specs.Places.{node_at, nowhere};
ghost use Rattle.c_typing.specs.Names.{automatics_in, function_around, named_locals};
ghost use Rattle.c_nodes.specs.Parents.{nodes_in};
ghost use Rattle.c_nodes.specs.Declarators.{AreNext};
ghost use Rattle.c_names.specs.Denoted.{places_in};
ghost use Rattle.c_locals.specs.Locals.{AreCounts};
ghost use Rattle.c_symbols.specs.Symbols.{AreLocalsOf};

use c_locals::{automatic_count, parameters};
use c_nodes::Nodes;
use c_symbols::Locals;
use c_syntax::{SynId, SynKind};

/// How many locals with names the function around a node has.
pub(crate) fn named_around(nodes: &Nodes, locals: &Locals, number: usize) -> usize
    requires within { number < length nodes.now }
    requires locals { AreLocalsOf nodes.now locals.now }
    ensures is { result ≡ named_locals (places_in nodes.now) (function_around (places_in nodes.now) number) }
    ensures few { result < 2 ^ 61 }
{
    let function = function_at(&locals.functions, number);
    if function < nodes.len() {
        named_in(nodes, locals, function)
    } else {
        named_outside(nodes, &locals.next)
    }
}

/// The first node of the function around a node; where there is none, 1.
pub(crate) fn first_around(nodes: &Nodes, locals: &Locals, number: usize) -> usize
    requires within { number < length nodes.now }
    requires locals { AreLocalsOf nodes.now locals.now }
    ensures { result ≡ (function_around (places_in nodes.now) number).first }
{
    let function = function_at(&locals.functions, number);
    if function < nodes.len() {
        nodes.first(function)
    } else {
        1
    }
}

fn function_at(functions: &[usize], number: usize) -> usize
    requires { number < length functions.now }
    ensures { result ≡ get_or functions.now number 0 }
{
    functions[number]
}

/// How many locals with names a function has.
pub(crate) fn named_in(nodes: &Nodes, locals: &Locals, function: usize) -> usize
    requires within { function < length nodes.now }
    requires locals { AreLocalsOf nodes.now locals.now }
    ensures is { result ≡ named_locals (places_in nodes.now) (node_at (nodes_in nodes.now) function) }
    ensures few { result < 2 ^ 61 }
{
    count_of(parameters(nodes, &locals.next, function))
        + automatics_in(nodes, &locals.counts, function)
}

fn count_of(ids: &[SynId]) -> usize
    ensures is { result ≡ length ids.now }
    ensures few { result < 2 ^ 60 }
{
    ids.len()
}

fn automatics_in(nodes: &Nodes, counts: &[usize], function: usize) -> usize
    requires within { function < length nodes.now }
    requires counts { AreCounts nodes.now counts.now }
    ensures is { result ≡ length (automatics_in (places_in nodes.now) (node_at (nodes_in nodes.now) function)) }
    ensures few { result < 2 ^ 60 }
{
    automatic_count(nodes, counts, function)
}

// Outside of functions the rules count as in a function that is not there: its name is the first node, and it has no automatic
// objects.
fn named_outside(nodes: &Nodes, next: &[usize]) -> usize
    requires some { 0 < length nodes.now }
    requires next { AreNext nodes.now next.now }
    ensures is { result ≡ named_locals (places_in nodes.now) nowhere }
    ensures few { result < 2 ^ 60 }
{
    let part = function_at(next, nodes.first(0));
    match nodes.kind_at(part) {
        SynKind::Takes => count_of(nodes.kids(part)).saturating_sub(1),
        _ => 0,
    }
}
