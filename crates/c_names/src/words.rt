// What the words of specifiers say.
ghost use Rattle.std.specs.Prelude.{◌≡◌, ◌<◌, ◌≤◌, codes, length};
ghost use Rattle.c_typing.specs.Names as rules;
ghost use Rattle.c_typing.specs.Places as places;
ghost use Rattle.c_typing.specs.Places.{node_at};
ghost use Rattle.c_nodes.specs.Parents.{nodes_in};
ghost use Rattle.c_names.specs.Denoted.{AreDenoted, places_in};
ghost use Rattle.c_names.specs.Names as names;
ghost use Rattle.c_names.specs.Names.{AreBegun, IsWords};

use crate::names::{DeclaredName, Entity};
use crate::scoped::ScopedNodes;
use c_syntax::SynKind;

/// What the words of specifiers say.
#[derive(Clone, Copy)]
pub(crate) struct SpecWords {
    pub(crate) is_typedef: bool,
    pub(crate) is_static: bool,
    pub(crate) is_extern: bool,
    // A typedef name of a function type is among them.
    pub(crate) is_function: bool,
}

/// What the kids of a node say as words.
pub(crate) fn words_of(
    scoped: &ScopedNodes,
    denoted: &[Option<usize>],
    found: &[Option<DeclaredName>],
    number: usize,
) -> SpecWords
    requires within { number < length scoped.now }
    requires denoted { AreDenoted scoped.now denoted.now }
    requires found { AreBegun scoped.now number found.now }
    ensures { IsWords (nodes_in scoped.now) (places_in scoped.now).names (node_at (nodes_in scoped.now) number) result }
{
    SpecWords {
        is_typedef: says(scoped, number, "typedef"),
        is_static: says(scoped, number, "static"),
        is_extern: says(scoped, number, "extern"),
        is_function: says_function(scoped, denoted, found, number),
    }
}

// A kid of the node is this word.
fn says(scoped: &ScopedNodes, number: usize, word: &str) -> bool
    requires { number < length scoped.now }
    ensures { result ≡ places.says (nodes_in scoped.now) word.now (node_at (nodes_in scoped.now) number) }
{
    for kid in scoped.kids(number) {
        if is_word(scoped.kind_at(kid.number)) && scoped.node(kid.number).text.as_slice() == word {
            return true;
        }
    }
    false
}

// A kid of the node is a typedef name of a function type.
fn says_function(
    scoped: &ScopedNodes,
    denoted: &[Option<usize>],
    found: &[Option<DeclaredName>],
    number: usize,
) -> bool
    requires within { number < length scoped.now }
    requires denoted { AreDenoted scoped.now denoted.now }
    requires found { AreBegun scoped.now number found.now }
    ensures { result ≡ rules.says_function (nodes_in scoped.now) (places_in scoped.now).names (node_at (nodes_in scoped.now) number) }
{
    for kid in scoped.kids(number) {
        if is_function_word(scoped, denoted, found, kid.number, number) {
            return true;
        }
    }
    false
}

// The node, which stands before another one, is a typedef name of a function type.
fn is_function_word(
    scoped: &ScopedNodes,
    denoted: &[Option<usize>],
    found: &[Option<DeclaredName>],
    word: usize,
    before: usize,
) -> bool
    requires order { word < before }
    requires within { before ≤ length scoped.now }
    requires denoted { AreDenoted scoped.now denoted.now }
    requires found { AreBegun scoped.now before found.now }
    ensures { result ≡ names.is_function_word (nodes_in scoped.now) (places_in scoped.now).names word }
{
    if is_word(scoped.kind_at(word)) {
        names_function_type(denoted[word], found)
    } else {
        false
    }
}

fn is_word(kind: SynKind) -> bool
    ensures { result ≡ places.is_word kind }
{
    matches!(kind, SynKind::Word)
}

// The name is a typedef name of a function type.
fn names_function_type(denoted: Option<usize>, found: &[Option<DeclaredName>]) -> bool
    ensures { result ≡ names.names_function_type denoted found.now }
{
    match denoted {
        None => false,
        Some(node) if node < found.len() => is_function_type(found[node]),
        Some(_) => false,
    }
}

fn is_function_type(name: Option<DeclaredName>) -> bool
    ensures { result ≡ names.is_function_type name }
{
    match name {
        Some(name) => matches!(name.entity, Entity::Typedef) && name.is_function,
        None => false,
    }
}
