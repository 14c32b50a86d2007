// What the nodes that declare names mean, as far as they have been judged (C99 6.2.1, 7; 6.7.8, 22).
ghost use Rattle.std.specs.Prelude.{◌≡◌, ◌<◌, ℕ, None, Some, MatchOption, length};
ghost use Rattle.c_typing.specs.Types.{CType};
ghost use Rattle.c_typing.specs.Judgements as rules;
ghost use Rattle.c_typing.specs.Expressions.{word_of_enumerator};
ghost use Rattle.c_values.specs.Typings.{IsType};
ghost use Rattle.c_meanings.specs.Meanings.{IsReady, judged_to};
ghost use Rattle.c_expression_rows.specs.Names.{declared_type};

use c_meanings::Meanings;
use c_nodes::Nodes;
use c_values::Type;

/// The value of an enumerator, where it has been judged.
pub(crate) fn word_before(
    nodes: &Nodes,
    node: usize,
    declared: usize,
    meanings: &Meanings,
) -> Option<u32>
    requires { (low : ℕ) × IsReady nodes.now node low meanings.now }
    ensures { result ≡ word_of_enumerator (rules.judgement_at (judged_to nodes.now node) declared) }
{
    if declared < node {
        meanings.judged.word_at(declared)
    } else {
        None
    }
}

/// The type that a name has: that of its declarator with its initializer, or else of its declarator.
pub(crate) fn type_of_name(
    nodes: &Nodes,
    node: usize,
    owner: usize,
    behind: usize,
    meanings: &Meanings,
) -> Option<Type>
    requires { (low : ℕ) × IsReady nodes.now node low meanings.now }
    ensures { MatchOption result (declared_type nodes.now node owner behind ≡ None)
        (λ kind. (t : CType) × (declared_type nodes.now node owner behind ≡ Some t) × IsType meanings.now.types kind t) }
{
    match type_before(nodes, node, owner, meanings) {
        Some(kind) => Some(kind),
        None => type_before(nodes, node, behind, meanings),
    }
}

// The type that a node has, where it has been judged.
fn type_before(nodes: &Nodes, node: usize, declared: usize, meanings: &Meanings) -> Option<Type>
    requires { (low : ℕ) × IsReady nodes.now node low meanings.now }
    ensures { MatchOption result (rules.type_at (judged_to nodes.now node) declared ≡ None)
        (λ kind. (t : CType) × (rules.type_at (judged_to nodes.now node) declared ≡ Some t) × IsType meanings.now.types kind t) }
{
    if declared < node {
        meanings.judged.type_at(declared)
    } else {
        None
    }
}
