// The storage words among specs (C99 6.7.1).
ghost use Rattle.std.specs.Prelude.{◌≡◌, ◌++◌, ◌∷◌, [], ℕ, List};
ghost use Rattle.c_typing.specs.Rules as faults;
ghost use Rattle.c_declared_types.specs.Words.{IsStorage, place_of, storage_text};

#[derive(Clone, Copy, Debug, PartialEq, Eq)]
pub enum StorageWord {
    Typedef,
    Extern,
    Static,
    Auto,
    Register,
}

/// The storage words among specs.
#[derive(Clone, Copy, Debug, PartialEq, Eq)]
pub enum Storage {
    None,
    One(StorageWord),
    Many,
}

impl Storage {
    pub(crate) fn with(self, word: StorageWord) -> Storage
        ensures { (words : List (List ℕ)) → IsStorage self words → IsStorage result (words ++ storage_text word ∷ []) }
    {
        match self {
            Storage::None => Storage::One(word),
            _ => Storage::Many,
        }
    }
}

/// Where specs stand.
#[derive(Clone, Copy, Debug, PartialEq, Eq)]
pub enum SpecsPlace {
    InUnit,
    OfDefinition,
    InBlock,
    InFor,
    OfParameter,
    OfMemberOrTypeName,
}

fn fits(place: SpecsPlace, word: StorageWord) -> bool
    ensures { result ≡ faults.is_one_of (faults.fitting (place_of place)) (storage_text word) }
{
    match place {
        SpecsPlace::InUnit => matches!(
            word,
            StorageWord::Typedef | StorageWord::Extern | StorageWord::Static
        ),
        SpecsPlace::OfDefinition => matches!(word, StorageWord::Extern | StorageWord::Static),
        SpecsPlace::InBlock => !matches!(word, StorageWord::Extern),
        SpecsPlace::InFor => matches!(word, StorageWord::Auto | StorageWord::Register),
        SpecsPlace::OfParameter => matches!(word, StorageWord::Register),
        SpecsPlace::OfMemberOrTypeName => false,
    }
}

/// Two storage words, or one that does not fit its place (rule 2).
pub fn is_bad_storage(place: SpecsPlace, storage: Storage) -> bool
    ensures { (words : List (List ℕ)) (n : ℕ) → IsStorage storage words → faults.bad_storage_class (place_of place) words n ≡ faults.broken_if result 2 n }
{
    match storage {
        Storage::None => false,
        Storage::One(word) => !fits(place, word),
        Storage::Many => true,
    }
}
