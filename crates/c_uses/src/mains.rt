// The function that a program starts with (C99 5.1.2.2.1).
ghost use Rattle.std.specs.Prelude.{◌≡◌, ◌<◌, ◌&&◌, codes, length, is_some};
ghost use Rattle.std.specs.Str.{bytes_eq};
ghost use Rattle.c_typing.specs.Places as places;
ghost use Rattle.c_typing.specs.Places.{kind_at, node_at};
ghost use Rattle.c_typing.specs.Names.{function_number, function_text};
ghost use Rattle.c_nodes.specs.Parents.{nodes_in};
ghost use Rattle.c_names.specs.Denoted.{places_in};
ghost use Rattle.c_uses.specs.Uses.{is_main};

use crate::faults::is_named;
use c_nodes::Nodes;
use c_syntax::SynKind;

/// The unit defines a function `main`.
pub fn has_main(nodes: &Nodes) -> bool
    ensures { result ≡ is_some (function_number (places_in nodes.now) (codes "main")) }
{
    for number in 0..nodes.len() {
        if is_main(nodes, number) {
            return true;
        }
    }
    false
}

fn is_main(nodes: &Nodes, number: usize) -> bool
    requires { number < length nodes.now }
    ensures { result ≡ is_main (places_in nodes.now) (node_at (nodes_in nodes.now) number) }
{
    is_function(nodes.kind_at(number)) && is_function_named(nodes, number, "main")
}

fn is_function(kind: SynKind) -> bool
    ensures { result ≡ places.is_function kind }
{
    matches!(kind, SynKind::Function)
}

// The name of a function is this one.
fn is_function_named(nodes: &Nodes, function: usize, text: &str) -> bool
    requires { function < length nodes.now }
    ensures { result ≡ bytes_eq (function_text (places_in nodes.now) (node_at (nodes_in nodes.now) function)) text.now }
{
    is_named(nodes, nodes.first(nodes.kid(function, 1)), text)
}
