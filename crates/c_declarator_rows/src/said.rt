// Specs: their words, and what else says a type among them (C99 6.7.1, 6.7.2).
ghost use Rattle.std.specs.Prelude.{◌≡◌, ◌<◌, ◌≤◌, ◌++◌, ℕ, List, length, map};
ghost use Rattle.c_syntax.specs.declared.kind.SynKind.TheVariants as kind;
ghost use Rattle.c_types.specs.declared.kind.TypeId.{TypeId};
ghost use Rattle.c_typing.specs.Types.{CType};
ghost use Rattle.c_typing.specs.Judgements as rules;
ghost use Rattle.c_typing.specs.Judgements.{all_of, judgement_at};
ghost use Rattle.c_typing.specs.Declarators.{place_of_specs, spec_meaning};
ghost use Rattle.c_typing.specs.Places as places;
ghost use Rattle.c_nodes.specs.Parents.{nodes_in};
ghost use Rattle.c_names.specs.Denoted.{IsDerived, places_in};
ghost use Rattle.c_type_ids.specs.Ids.{Known};
ghost use Rattle.c_declared_types.specs.Words.{AreWords, place_of};
ghost use Rattle.c_judgements.specs.Judged.{AreJudged};
ghost use Rattle.c_meanings.specs.Meanings.{IsReady, IsRow, node_in, slots_of};
ghost use Rattle.c_declarator_rows.specs.Said as rules_of;
ghost use Rattle.c_declarator_rows.specs.Said.{AreSaid, Says, SaysAll, as_answer, words_in};

use c_answers::Refusal;
use c_declared_types::{Given, SpecsPlace, SpecsWords, is_bad_storage, type_of_specs};
use c_judgements::Judged;
use c_meanings::Meanings;
use c_nodes::Nodes;
use c_syntax::SynKind;
use c_types::TypeId;
use c_values::Type;

/// The types that a struct, an enum or a typedef name among specs says.
#[derive(Clone, Copy)]
pub(crate) enum Said {
    Nothing,
    One(Type),
    Many,
}

/// Specs together.
pub fn specifiers(nodes: &Nodes, node: usize, meanings: &mut Meanings) -> Result<Judged, Refusal>
    requires within { node < length nodes.now }
    requires kind { (node_in nodes.now node).label.kind ≡ kind.Specs }
    requires ready { IsReady nodes.now node 0 meanings.old }
    ensures { IsRow nodes.now node meanings.old meanings.new result }
{
    let words = words_of(nodes, node);
    if is_bad_storage(place(nodes, node), words.storage()) {
        return Err(Refusal::Broken { rule: 2, node });
    }
    match said_by(nodes, node, meanings) {
        Some(said) => {
            let found = type_of_specs(&mut meanings.types, words, given(said), node);
            typed(said, found)
        }
        None => Ok(Judged::Waits),
    }
}

// The words among the kids of a node.
fn words_of(nodes: &Nodes, node: usize) -> SpecsWords
    requires { node < length nodes.now }
    ensures { AreWords result (words_in (nodes_in nodes.now) (node_in nodes.now node).kids) }
{
    let mut words = SpecsWords::new();
    let kids = nodes.kids(node);
    for kid in kids {
        if is_word(nodes.kind_at(kid.number)) {
            words = words.with(nodes.node(kid.number).text.as_slice());
        }
    }
    words
}

pub(crate) fn is_word(kind: SynKind) -> bool
    ensures { result ≡ places.is_word kind }
{
    matches!(kind, SynKind::Word)
}

// Where specs stand.
fn place(nodes: &Nodes, node: usize) -> SpecsPlace
    requires within { node < length nodes.now }
    requires long { length (nodes_in nodes.now) ≡ length nodes.now }
    requires derived { IsDerived nodes.now }
    ensures { place_of result ≡ place_of_specs (places_in nodes.now) (node_in nodes.now node) }
{
    let owner = nodes.parent(node);
    match nodes.kind_at(owner) {
        SynKind::Function => SpecsPlace::OfDefinition,
        SynKind::Param => SpecsPlace::OfParameter,
        SynKind::Declaration => declaration_place(nodes.kind_at(nodes.parent(owner))),
        _ => SpecsPlace::OfMemberOrTypeName,
    }
}

fn declaration_place(outer: SynKind) -> SpecsPlace
    ensures { place_of result ≡ rules_of.declaration_place outer }
{
    match outer {
        SynKind::Unit => SpecsPlace::InUnit,
        SynKind::For => SpecsPlace::InFor,
        _ => SpecsPlace::InBlock,
    }
}

// The types that the kids of a node say; none where one of them has no meaning.
fn said_by(nodes: &Nodes, node: usize, meanings: &Meanings) -> Option<Said>
    requires within { node < length nodes.now }
    requires judged { node ≤ length (slots_of meanings.now) }
    ensures { (js : List rules.Judgement) → AreJudged meanings.now.types (slots_of meanings.now) js →
        SaysAll meanings.now.types result (all_of (map (λ n. spec_meaning (judgement_at js n)) (node_in nodes.now node).kids)) }
{
    let mut said = Said::Nothing;
    let kids = nodes.kids(node);
    for kid in kids {
        match said_at(meanings, kid.number) {
            Some(more) => said = joined(said, more),
            None => return None,
        }
    }
    Some(said)
}

// The types that a node says.
fn said_at(meanings: &Meanings, node: usize) -> Option<Said>
    requires { node < length (slots_of meanings.now) }
    ensures { (js : List rules.Judgement) → AreJudged meanings.now.types (slots_of meanings.now) js → Says meanings.now.types result (spec_meaning (judgement_at js node)) }
{
    match &meanings.judged.slots[node] {
        Judged::Itself => Some(Said::Nothing),
        Judged::Type(kind) => Some(Said::One(*kind)),
        Judged::Struct(id) => Some(Said::One(Type::Known(*id))),
        _ => None,
    }
}

fn joined(left: Said, right: Said) -> Said
    ensures { (k : Known) (ts us : List CType) → AreSaid k left ts → AreSaid k right us → AreSaid k result (ts ++ us) }
{
    match (left, right) {
        (Said::Nothing, other) | (other, Said::Nothing) => other,
        _ => Said::Many,
    }
}

// The same by ids alone.
fn given(said: Said) -> Given
    ensures { result ≡ rules_of.given_of said }
{
    match said {
        Said::Nothing => Given::None,
        Said::One(kind) => Given::One(id_of(kind)),
        Said::Many => Given::Many,
    }
}

fn id_of(kind: Type) -> TypeId
    ensures { result ≡ rules_of.id_of kind }
{
    match kind {
        Type::Known(id) | Type::Unsized(id) | Type::ToUnsized(id) => id,
    }
}

// A type that stands alone among specs is theirs.
fn typed(said: Said, found: Result<TypeId, Refusal>) -> Result<Judged, Refusal>
    ensures { result ≡ as_answer (rules_of.as_specs said) found }
{
    match found {
        Ok(id) => Ok(Judged::Type(kind_by(said, id))),
        Err(refusal) => Err(refusal),
    }
}

fn kind_by(said: Said, id: TypeId) -> Type
    ensures { result ≡ rules_of.kind_by said id }
{
    match said {
        Said::One(kind) => kind,
        _ => Type::Known(id),
    }
}
