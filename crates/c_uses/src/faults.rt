// The rules that a node breaks by its place alone: a name that is used has a definition (C99 6.9), and no function is declared in a
// block.
ghost use Rattle.std.specs.Prelude.{◌≡◌, ◌<◌, ◌&&◌, ◌||◌, false, get_or, length, is_some};
ghost use Rattle.std.specs.Str.{bytes_eq};
ghost use Rattle.c_syntax.specs.declared.kind.SynKind.TheVariants as kind;
ghost use Rattle.c_typing.specs.Rules as rules;
ghost use Rattle.c_typing.specs.Places as places;
ghost use Rattle.c_typing.specs.Places.{kind_at, node_at, text_at};
ghost use Rattle.c_typing.specs.Names.{denoted, function_number};
ghost use Rattle.c_typing.specs.Declarators.{place_of_specs};
ghost use Rattle.c_typing.specs.Typing.{place_faults_by, stand_before_function};
ghost use Rattle.c_nodes.specs.Parents.{nodes_in};
ghost use Rattle.c_names.specs.Denoted.{places_in};
ghost use Rattle.c_symbols.specs.Symbols.{AreSymbols};
ghost use Rattle.c_uses.specs.Uses.{broken, is_defined, told};

use crate::names::used_name;
use c_names::Entity;
use c_nodes::Nodes;
use c_symbols::Symbols;
use c_syntax::SynKind;

/// The number of the rule that a node breaks by its place alone: 17, where what its name denotes has no definition; 2, where it is
/// specs in a block that a function is declared with.
pub fn place_fault(nodes: &Nodes, symbols: &Symbols, number: usize) -> Option<u8>
    requires within { number < length nodes.now }
    requires symbols { AreSymbols nodes.now symbols.now }
    ensures { place_faults_by (places_in nodes.now) (node_at (nodes_in nodes.now) number) (kind_at (nodes_in nodes.now) number) ≡ told result number }
{
    match nodes.kind_at(number) {
        SynKind::Var => broken(17, !has_definition(nodes, symbols, number)),
        SynKind::Specs => broken(2, is_function_in_block(nodes, symbols, number)),
        _ => None,
    }
}

fn broken(rule: u8, is_broken: bool) -> Option<u8>
    ensures { result ≡ broken rule is_broken }
{
    if is_broken { Some(rule) } else { None }
}

// What the name at a node denotes is there when the program runs; so is a name that denotes nothing, which breaks another rule.
fn has_definition(nodes: &Nodes, symbols: &Symbols, number: usize) -> bool
    requires within { number < length nodes.now }
    requires symbols { AreSymbols nodes.now symbols.now }
    requires kind { kind_at (nodes_in nodes.now) number ≡ kind.Var }
    ensures { result ≡ is_defined (places_in nodes.now) (denoted (places_in nodes.now).names number (text_at (nodes_in nodes.now) number)) }
{
    let Some(used) = used_name(nodes, symbols, number) else {
        return true;
    };
    match used.name.entity {
        Entity::Function => is_function_there(nodes, symbols, number),
        Entity::Static => is_object_there(&symbols.objects.defined, used.node),
        _ => true,
    }
}

fn is_object_there(defined: &[bool], node: usize) -> bool
    requires { node < length defined.now }
    ensures { result ≡ get_or defined.now node false }
{
    defined[node]
}

// The function with the name of a node is defined, or is one of the library's two.
fn is_function_there(nodes: &Nodes, symbols: &Symbols, number: usize) -> bool
    requires within { number < length nodes.now }
    requires symbols { AreSymbols nodes.now symbols.now }
    requires kind { kind_at (nodes_in nodes.now) number ≡ kind.Var }
    ensures { result ≡ (rules.is_getchar (text_at (nodes_in nodes.now) number) || rules.is_putchar (text_at (nodes_in nodes.now) number)
        || is_some (function_number (places_in nodes.now) (text_at (nodes_in nodes.now) number))) }
{
    is_named(nodes, number, "getchar")
        || is_named(nodes, number, "putchar")
        || symbols.names.functions[number].is_some()
}

/// The node has this text.
pub(crate) fn is_named(nodes: &Nodes, number: usize, text: &str) -> bool
    requires { number < length nodes.now }
    ensures { result ≡ bytes_eq (text_at (nodes_in nodes.now) number) text.now }
{
    nodes.node(number).text.as_slice() == text
}

// The node is specs in a block or in a `for`, and a function is declared behind it.
fn is_function_in_block(nodes: &Nodes, symbols: &Symbols, number: usize) -> bool
    requires within { number < length nodes.now }
    requires symbols { AreSymbols nodes.now symbols.now }
    ensures { result ≡ (stand_before_function (places_in nodes.now) (node_at (nodes_in nodes.now) number)
        && rules.is_inside_function (place_of_specs (places_in nodes.now) (node_at (nodes_in nodes.now) number))) }
{
    symbols.around.before_functions[number] && stands_inside(nodes, number)
}

// As specs it stands in a function.
fn stands_inside(nodes: &Nodes, number: usize) -> bool
    requires { number < length nodes.now }
    ensures { result ≡ rules.is_inside_function (place_of_specs (places_in nodes.now) (node_at (nodes_in nodes.now) number)) }
{
    let owner = nodes.parent(number);
    if owner >= nodes.len() {
        return false;
    }
    match nodes.kind_at(owner) {
        SynKind::Declaration => !is_unit(nodes.kind_at(nodes.parent(owner))),
        _ => false,
    }
}

fn is_unit(kind: SynKind) -> bool
    ensures { result ≡ places.is_unit kind }
{
    matches!(kind, SynKind::Unit)
}
