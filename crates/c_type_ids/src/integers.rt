// Integer types (C99 6.2.5, 6.3.1.1, 6.3.1.8).
ghost use Rattle.std.specs.Prelude.{◌≡◌};
ghost use Rattle.c_typing.specs.Types as types;
ghost use Rattle.c_type_ids.specs.Integers.{integer_of, kind_of, traits_told};

use c_types::TypeKind;
use cp_base::{Kind, To};

#[derive(Clone, Copy, Debug, PartialEq, Eq)]
pub enum Integer {
    Bool,
    Char,
    SChar,
    UChar,
    Short,
    UShort,
    Int,
    UInt,
    Long,
    ULong,
}

/// Size, sign, how it is read from memory, and what a word is made to be a value of the type.
#[derive(Clone, Copy, Debug, PartialEq, Eq)]
pub struct Traits {
    pub size: u32,
    pub is_signed: bool,
    pub access: Kind,
    pub narrowing: Option<To>,
}

impl Integer {
    /// The kind that a table of types has for it.
    pub fn kind(self) -> TypeKind
        ensures { result ≡ kind_of (integer_of self) }
    {
        match self {
            Integer::Bool => TypeKind::Bool,
            Integer::Char => TypeKind::Char,
            Integer::SChar => TypeKind::SChar,
            Integer::UChar => TypeKind::UChar,
            Integer::Short => TypeKind::Short,
            Integer::UShort => TypeKind::UShort,
            Integer::Int => TypeKind::Int,
            Integer::UInt => TypeKind::UInt,
            Integer::Long => TypeKind::Long,
            Integer::ULong => TypeKind::ULong,
        }
    }
}

pub fn traits_of(integer: Integer) -> Traits
    ensures { traits_told result ≡ types.traits_of (integer_of integer) }
{
    match integer {
        Integer::Bool => told(1, false, Kind::U8, Some(To::Truth)),
        Integer::Char | Integer::UChar => told(1, false, Kind::U8, Some(To::U8)),
        Integer::SChar => told(1, true, Kind::I8, Some(To::I8)),
        Integer::Short => told(2, true, Kind::I16, Some(To::I16)),
        Integer::UShort => told(2, false, Kind::U16, Some(To::U16)),
        Integer::Int | Integer::Long => told(4, true, Kind::W32, None),
        Integer::UInt | Integer::ULong => told(4, false, Kind::W32, None),
    }
}

fn told(size: u32, is_signed: bool, access: Kind, narrowing: Option<To>) -> Traits
    ensures { traits_told result ≡ types.traits size is_signed access narrowing }
{
    Traits {
        size,
        is_signed,
        access,
        narrowing,
    }
}

/// The integer promotions.
pub fn promoted(integer: Integer) -> Integer
    ensures { integer_of result ≡ types.promoted (integer_of integer) }
{
    match integer {
        Integer::UInt | Integer::Long | Integer::ULong => integer,
        _ => Integer::Int,
    }
}

/// The usual arithmetic conversions: the type that both operands are converted to.
pub fn common(left: Integer, right: Integer) -> Integer
    ensures { integer_of result ≡ types.common (integer_of left) (integer_of right) }
{
    common_of(promoted(left), promoted(right))
}

fn common_of(left: Integer, right: Integer) -> Integer
    ensures { integer_of result ≡ types.common_of (integer_of left) (integer_of right) }
{
    match (left, right) {
        (Integer::ULong, _) | (_, Integer::ULong) => Integer::ULong,
        (Integer::Long, Integer::UInt) | (Integer::UInt, Integer::Long) => Integer::ULong,
        (Integer::Long, _) | (_, Integer::Long) => Integer::Long,
        (Integer::UInt, _) | (_, Integer::UInt) => Integer::UInt,
        _ => Integer::Int,
    }
}
