// All words of specs, and the type that specs say (C99 6.7.1, 6.7.2).
ghost use Rattle.std.specs.Prelude.{◌≡◌, ◌++◌, ◌∷◌, [], ℕ, List, IfOk, filter, unwrap_or};
ghost use Rattle.c_grammar.specs.Vocabulary.{is_type_word};
ghost use Rattle.c_types.specs.Tables.{IsThere};
ghost use Rattle.c_typing.specs.Types.{CType, void};
ghost use Rattle.c_typing.specs.Declarators.{is_storage, said_type};
ghost use Rattle.c_typing.specs.Rules as faults;
ghost use Rattle.c_type_ids.specs.Ids.{Grows, Known, Names};
ghost use Rattle.c_answers.specs.Answers.{Settles};
ghost use Rattle.c_declared_types.specs.Words.{AreGiven, AreWords, IsStorage, IsWord, Says, said_of};

use crate::storage::{Storage, StorageWord};
use crate::type_words::{Base, Length, Said, Sign, TypeWords};
use c_answers::Refusal;
use c_type_ids::TypeTable;
use c_types::TypeId;

// What a word among specs is.
#[derive(Clone, Copy)]
pub(crate) enum Word {
    Base(Base),
    Length(Length),
    Sign(Sign),
    Storage(StorageWord),
    /// `const`, or a typedef name.
    Other,
}

fn word_of(text: &str) -> Word
    ensures { IsWord result text.now }
{
    match text {
        "void" => Word::Base(Base::Void),
        "_Bool" => Word::Base(Base::Bool),
        "char" => Word::Base(Base::Char),
        "int" => Word::Base(Base::Int),
        "short" => Word::Length(Length::Short),
        "long" => Word::Length(Length::Long),
        "signed" => Word::Sign(Sign::Signed),
        "unsigned" => Word::Sign(Sign::Unsigned),
        "typedef" => Word::Storage(StorageWord::Typedef),
        "extern" => Word::Storage(StorageWord::Extern),
        "static" => Word::Storage(StorageWord::Static),
        "auto" => Word::Storage(StorageWord::Auto),
        "register" => Word::Storage(StorageWord::Register),
        _ => Word::Other,
    }
}

/// The words of specs, in any order.
#[derive(Clone, Copy, Debug, PartialEq, Eq)]
pub struct SpecsWords {
    types: TypeWords,
    storage: Storage,
}

impl SpecsWords {
    /// No word.
    pub fn new() -> SpecsWords
        ensures { AreWords result [] }
    {
        SpecsWords {
            types: TypeWords::new(),
            storage: Storage::None,
        }
    }

    /// One more word.
    pub fn with(self, text: &str) -> SpecsWords
        ensures { (words : List (List ℕ)) → AreWords self words → AreWords result (words ++ text.now ∷ []) }
    {
        let SpecsWords { types, storage } = self;
        match word_of(text) {
            Word::Base(base) => SpecsWords {
                types: types.with_base(base),
                storage,
            },
            Word::Length(length) => SpecsWords {
                types: types.with_length(length),
                storage,
            },
            Word::Sign(sign) => SpecsWords {
                types: types.with_sign(sign),
                storage,
            },
            Word::Storage(word) => SpecsWords {
                types,
                storage: storage.with(word),
            },
            Word::Other => self,
        }
    }

    /// The storage words among them.
    pub fn storage(self) -> Storage
        ensures { (words : List (List ℕ)) → AreWords self words → IsStorage result (filter is_storage words) }
    {
        self.storage
    }
}

/// The types that a struct, an enum or a typedef name among specs gives.
#[derive(Clone, Copy, Debug, PartialEq, Eq)]
pub enum Given {
    None,
    One(TypeId),
    Many,
}

impl Given {
    /// One more type.
    pub fn with(self, id: TypeId) -> Given
        ensures { (k : Known) (ts : List CType) (t : CType) → AreGiven k self ts → Names k id t → AreGiven k result (ts ++ t ∷ []) }
    {
        match self {
            Given::None => Given::One(id),
            _ => Given::Many,
        }
    }
}

/// The type that specs say by their words and by what else stands among them; they may name none (rule 1).
pub fn type_of_specs(
    table: &mut TypeTable,
    words: SpecsWords,
    given: Given,
    node: usize,
) -> Result<TypeId, Refusal>
    requires { (ts : List CType) × AreGiven table.old given ts }
    ensures is { (texts : List (List ℕ)) (ts : List CType) → AreWords words texts → AreGiven table.old given ts →
        Settles (λ id. Names table.new id (unwrap_or (said_type (filter is_type_word texts) ts) void)) result
        (faults.bad_type_words (said_type (filter is_type_word texts) ts) node) }
    ensures there { IfOk result (IsThere table.new.table) }
    ensures grows { Grows table.old table.new }
{
    match given {
        Given::None => type_of_words(table, words.types, node),
        Given::One(id) => type_alone(words.types, id, node),
        Given::Many => Err(Refusal::Broken { rule: 1, node }),
    }
}

// A type beside which no word for a type stands.
fn type_alone(words: TypeWords, id: TypeId, node: usize) -> Result<TypeId, Refusal>
    ensures is { (k : Known) (texts : List (List ℕ)) (t : CType) → Says words texts → Names k id t →
        Settles (λ made. Names k made (unwrap_or (said_type texts (t ∷ [])) void)) result (faults.bad_type_words (said_type texts (t ∷ [])) node) }
    ensures same { IfOk result (λ made. made ≡ id) }
{
    if words.is_empty() {
        Ok(id)
    } else {
        Err(Refusal::Broken { rule: 1, node })
    }
}

fn type_of_words(table: &mut TypeTable, words: TypeWords, node: usize) -> Result<TypeId, Refusal>
    ensures is { (texts : List (List ℕ)) → Says words texts →
        Settles (λ id. Names table.new id (unwrap_or (said_type texts []) void)) result (faults.bad_type_words (said_type texts []) node) }
    ensures there { IfOk result (IsThere table.new.table) }
    ensures grows { Grows table.old table.new }
{
    match words.said() {
        Some(said) => type_said(table, said),
        None => Err(Refusal::Broken { rule: 1, node }),
    }
}

fn type_said(table: &mut TypeTable, said: Said) -> Result<TypeId, Refusal>
    ensures is { Settles (λ id. Names table.new id (said_of said)) result [] }
    ensures there { IfOk result (IsThere table.new.table) }
    ensures grows { Grows table.old table.new }
{
    let made = match said {
        Said::Void => table.void(),
        Said::Integer(integer) => table.integer(integer),
    };
    match made {
        Ok(id) => Ok(id),
        Err(_) => Err(Refusal::OutOfMemory),
    }
}
