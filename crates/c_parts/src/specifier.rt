// Specs, and what they say.
ghost use Rattle.std.specs.Prelude.{◌≡◌};
ghost use Rattle.c_parts.specs.Kinds.{kind_of};

use crate::part::Part;
use c_syntax::SynKind;

/// Specs, and whether `typedef` is among them.
#[derive(Clone, Copy)]
pub struct Specs {
    pub part: Part,
    pub is_typedef: bool,
}

/// One of the specs, and what it says.
#[derive(Clone, Copy)]
pub struct Specifier {
    pub part: Part,
    pub says_type: bool,
    pub is_typedef: bool,
}

/// Specs in order: the greatest of their heights, where they start, and whether `typedef` is among them.
#[derive(Clone, Copy)]
pub struct SpecifierRow {
    pub height: usize,
    pub start: usize,
    pub is_typedef: bool,
}

/// What has a tag.
#[derive(Clone, Copy)]
pub enum Tagged {
    Struct,
    Enum,
}

impl Tagged {
    pub fn kind(self) -> SynKind
        ensures { result ≡ kind_of self }
    {
        match self {
            Tagged::Struct => SynKind::StructSpec,
            Tagged::Enum => SynKind::EnumSpec,
        }
    }
}
