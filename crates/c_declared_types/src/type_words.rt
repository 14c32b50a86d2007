// The words for types among specs (C99 6.7.2).
ghost use Rattle.std.specs.Prelude.{◌≡◌, true, ◌++◌, ◌∷◌, ◌==◌, [], ℕ, List, length, option_map};
ghost use Rattle.c_typing.specs.Declarators.{said_type};
ghost use Rattle.c_declared_types.specs.Words.{Says, base_text, length_text, said_of, sign_text, texts_in};

use c_type_ids::Integer;

#[derive(Clone, Copy, Debug, PartialEq, Eq)]
pub(crate) enum Base {
    Void,
    Bool,
    Char,
    Int,
}

#[derive(Clone, Copy, Debug, PartialEq, Eq)]
pub(crate) enum Length {
    Short,
    Long,
}

#[derive(Clone, Copy, Debug, PartialEq, Eq)]
pub(crate) enum Sign {
    Signed,
    Unsigned,
}

/// The words for types, in any order: at most one of each sort, or words that name no type together.
#[derive(Clone, Copy, Debug, PartialEq, Eq)]
pub(crate) struct TypeWords {
    base: Option<Base>,
    length: Option<Length>,
    sign: Option<Sign>,
    is_bad: bool,
}

/// The type that words name.
#[derive(Clone, Copy, Debug, PartialEq, Eq)]
pub(crate) enum Said {
    Void,
    Integer(Integer),
}

impl TypeWords {
    pub(crate) fn new() -> TypeWords
        ensures { Says result [] }
    {
        TypeWords {
            base: None,
            length: None,
            sign: None,
            is_bad: false,
        }
    }

    pub(crate) fn with_base(self, base: Base) -> TypeWords
        ensures { (words : List (List ℕ)) → Says self words → Says result (words ++ base_text base ∷ []) }
    {
        match self.base {
            None => TypeWords {
                base: Some(base),
                ..self
            },
            Some(_) => self.bad(),
        }
    }

    pub(crate) fn with_length(self, length: Length) -> TypeWords
        ensures { (words : List (List ℕ)) → Says self words → Says result (words ++ length_text length ∷ []) }
    {
        match self.length {
            None => TypeWords {
                length: Some(length),
                ..self
            },
            Some(_) => self.bad(),
        }
    }

    pub(crate) fn with_sign(self, sign: Sign) -> TypeWords
        ensures { (words : List (List ℕ)) → Says self words → Says result (words ++ sign_text sign ∷ []) }
    {
        match self.sign {
            None => TypeWords {
                sign: Some(sign),
                ..self
            },
            Some(_) => self.bad(),
        }
    }

    fn bad(self) -> TypeWords
        ensures { result ≡ record self { is_bad = true } }
    {
        TypeWords {
            is_bad: true,
            ..self
        }
    }

    pub(crate) fn is_empty(self) -> bool
        ensures { (words : List (List ℕ)) → Says self words → result ≡ (length words == 0) }
    {
        if self.is_bad {
            false
        } else {
            is_blank(self.base, self.length, self.sign)
        }
    }

    /// The type that the words name, where nothing else among the specs names one.
    pub(crate) fn said(self) -> Option<Said>
        ensures { (words : List (List ℕ)) → Says self words → option_map said_of result ≡ said_type words [] }
    {
        if self.is_bad {
            None
        } else {
            named(self.base, self.length, self.sign)
        }
    }
}

fn is_blank(base: Option<Base>, size: Option<Length>, sign: Option<Sign>) -> bool
    ensures { result ≡ (length (texts_in base size sign) == 0) }
{
    matches!((base, size, sign), (None, None, None))
}

fn named(base: Option<Base>, length: Option<Length>, sign: Option<Sign>) -> Option<Said>
    ensures { option_map said_of result ≡ said_type (texts_in base length sign) [] }
{
    let integer = match (base, length, sign) {
        (Some(Base::Void), None, None) => return Some(Said::Void),
        (Some(Base::Bool), None, None) => Integer::Bool,
        (Some(Base::Char), None, None) => Integer::Char,
        (Some(Base::Char), None, Some(Sign::Signed)) => Integer::SChar,
        (Some(Base::Char), None, Some(Sign::Unsigned)) => Integer::UChar,
        (None | Some(Base::Int), Some(Length::Short), None | Some(Sign::Signed)) => Integer::Short,
        (None | Some(Base::Int), Some(Length::Short), Some(Sign::Unsigned)) => Integer::UShort,
        (None | Some(Base::Int), Some(Length::Long), None | Some(Sign::Signed)) => Integer::Long,
        (None | Some(Base::Int), Some(Length::Long), Some(Sign::Unsigned)) => Integer::ULong,
        (Some(Base::Int), None, None) => Integer::Int,
        (None | Some(Base::Int), None, Some(Sign::Signed)) => Integer::Int,
        (None | Some(Base::Int), None, Some(Sign::Unsigned)) => Integer::UInt,
        _ => return None,
    };
    Some(Said::Integer(integer))
}
