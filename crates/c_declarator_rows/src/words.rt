// Words among specs (C99 6.7.1, 6.7.2, 6.7.7).
ghost use Rattle.std.specs.Prelude.{◌≡◌, ◌<◌, ◌||◌, ℕ, List, Option, None, false, get_or, length};
ghost use Rattle.c_syntax.specs.declared.syntax.SynNode.{SynNode};
ghost use Rattle.c_syntax.specs.declared.kind.SynKind.TheVariants as kind;
ghost use Rattle.c_grammar.specs.Vocabulary as vocabulary;
ghost use Rattle.c_typing.specs.Places.{Node};
ghost use Rattle.c_typing.specs.Names as names;
ghost use Rattle.c_typing.specs.Names.{Name};
ghost use Rattle.c_typing.specs.Judgements as rules;
ghost use Rattle.c_typing.specs.Expressions.{type_of_name};
ghost use Rattle.c_typing.specs.Declarators.{typedef_type};
ghost use Rattle.c_names.specs.Denoted.{AreDenoted};
ghost use Rattle.c_names.specs.Names.{AreNames, entity_of};
ghost use Rattle.c_judgements.specs.Judged.{AreJudged};
ghost use Rattle.c_meanings.specs.Meanings.{IsAnswered, IsReady, IsRow, node_in, slots_of};
ghost use Rattle.c_declarator_rows.specs.Found.{Finds, IsName, named_by};

use crate::answers::as_type;
use c_answers::Refusal;
use c_judgements::Judged;
use c_meanings::Meanings;
use c_names::{DeclaredName, Entity};
use c_nodes::Nodes;
use c_values::Type;

/// A word among specs: a keyword, or a typedef name.
pub fn word(
    nodes: &Nodes,
    node: usize,
    denoted: &[Option<usize>],
    names: &[Option<DeclaredName>],
    meanings: &Meanings,
) -> Result<Judged, Refusal>
    requires within { node < length nodes.now }
    requires kind { (node_in nodes.now node).label.kind ≡ kind.Word }
    requires denoted { AreDenoted nodes.now denoted.now }
    requires names { AreNames nodes.now names.now }
    requires ready { IsReady nodes.now node 0 meanings.now }
    ensures { IsRow nodes.now node meanings.now meanings.now result }
{
    if is_keyword(nodes.node(node).text.as_slice()) {
        return Ok(Judged::Itself);
    }
    typedef_meaning(meanings, name_at(denoted, names, node), node)
}

const TYPE_WORDS: [&str; 8] = [
    "void", "char", "short", "int", "long", "signed", "unsigned", "_Bool",
];

const STORAGE_WORDS: [&str; 6] = ["typedef", "extern", "static", "auto", "register", "const"];

fn is_type_word(text: &str) -> bool
    ensures { result ≡ vocabulary.is_type_word text.now }
{
    TYPE_WORDS.contains(&text)
}

fn is_storage_word(text: &str) -> bool
    ensures { result ≡ vocabulary.is_storage_word text.now }
{
    STORAGE_WORDS.contains(&text)
}

fn is_keyword(text: &str) -> bool
    ensures { result ≡ (vocabulary.is_storage_word text.now || vocabulary.is_type_word text.now) }
{
    is_storage_word(text) || is_type_word(text)
}

// The name that a use denotes.
fn name_at(
    denoted: &[Option<usize>],
    names: &[Option<DeclaredName>],
    node: usize,
) -> Option<DeclaredName>
    requires { node < length denoted.now }
    ensures { result ≡ named_by (get_or denoted.now node None) names.now }
{
    name_of(denoted[node], names)
}

pub(crate) fn name_of(
    denoted: Option<usize>,
    names: &[Option<DeclaredName>],
) -> Option<DeclaredName>
    ensures { result ≡ named_by denoted names.now }
{
    match denoted {
        None => None,
        Some(node) if node < names.len() => names[node],
        Some(_) => None,
    }
}

// What a word means that denotes this name.
fn typedef_meaning(
    meanings: &Meanings,
    name: Option<DeclaredName>,
    node: usize,
) -> Result<Judged, Refusal>
    ensures { (table : List SynNode) (js : List rules.Judgement) (m : Node) (e : Option Name) → AreJudged meanings.now.types (slots_of meanings.now) js → m.id ≡ node → IsName table e name →
        IsAnswered meanings.now.types result (typedef_type js m e) }
{
    let Some(name) = name else {
        return Err(Refusal::Broken { rule: 1, node });
    };
    if !is_typedef(name.entity) {
        return Err(Refusal::Broken { rule: 1, node });
    }
    Ok(as_type(type_of(meanings, name)))
}

fn is_typedef(entity: Entity) -> bool
    ensures { result ≡ names.is_typedef (entity_of entity) }
{
    matches!(entity, Entity::Typedef)
}

// The type of the name, by its declarator with its initializer or by its declarator alone.
pub(crate) fn type_of(meanings: &Meanings, name: DeclaredName) -> Option<Type>
    ensures { (table : List SynNode) (js : List rules.Judgement) (e : Name) → AreJudged meanings.now.types (slots_of meanings.now) js → IsName table (Option.Some e) (Option.Some name) →
        Finds meanings.now.types result (type_of_name js e) }
{
    match known_type(meanings, name.owner) {
        Some(kind) => Some(kind),
        None => known_type(meanings, name.behind),
    }
}

// The type of a node, where it has been judged.
fn known_type(meanings: &Meanings, node: usize) -> Option<Type>
    ensures { (js : List rules.Judgement) → AreJudged meanings.now.types (slots_of meanings.now) js → Finds meanings.now.types result (rules.type_at js node) }
{
    if node < meanings.judged.slots.len() {
        meanings.judged.type_at(node)
    } else {
        None
    }
}
