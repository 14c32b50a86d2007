// The kinds of types.
ghost use Rattle.std.specs.Prelude.{◌≡◌, [], ◌∷◌, ◌++◌, length, nat_eq, OnOk, OnErr};
ghost use Rattle.std.specs.Hash as fed;
ghost use Rattle.std.specs.Cmp.Lexicographic.{pointwise};
ghost use Rattle.std.specs.Ordering.{on};
ghost use Rattle.std.specs.Cmp.Rules.{comparing};
ghost use Rattle.std.specs.Hash.{items_Alike, on_Alike, same_Alike};
ghost use Rattle.std.proofs.lemmas.Bool.Decides.{Decides-eqb};
ghost use Rattle.std.proofs.Common.{rules};

use std::alloc::{AllocError, Global};
use std::hash::{Hash, Hasher};
use std::marker::Model;

/// The place of a type in its table.
#[derive(Clone, Copy, Debug, PartialEq, Eq, Hash)]
pub struct TypeId {
    pub number: usize,
}

/// The place of a struct in its table.
#[derive(Clone, Copy, Debug, PartialEq, Eq, Hash)]
pub struct StructId {
    pub number: usize,
}

/// A list of types, which contracts see as the list of their ids.
#[derive(Debug, Drop)]
pub struct TypeList {
    items: Vec<TypeId>,
}

impl Model for TypeList {
    ghost use Rattle.std.specs.Prelude.{List};
    ghost use Rattle.c_types.specs.declared.kind.TypeId.{TypeId};

    ghost Value = { List TypeId };

    ghost view = { λ l. l.items.items };
}

impl TypeList {
    pub fn new(alloc: Global) -> TypeList
        ensures { result ≡ [] }
    {
        TypeList {
            items: Vec::new(alloc),
        }
    }

    pub fn push(&mut self, item: TypeId) -> Result<(), AllocError>
        ensures ok { OnOk result (self.new ≡ self.old ++ item ∷ []) }
        ensures err { OnErr result (self.new ≡ self.old) }
    {
        self.items.push(item)?;
        Ok(())
    }

    pub fn len(&self) -> usize
        ensures { result ≡ length self.now }
    {
        self.items.len()
    }

    pub fn as_slice(&self) -> &[TypeId]
        ensures { result.now ≡ self.now }
    {
        self.items.as_slice()
    }
}

impl PartialEq for TypeList {
    ghost eq = { pointwise (on (λ x. x.number) nat_eq) };

    ghost laws = { Prim.search (comparing, rules) };

    fn eq(&self, other: &TypeList) -> bool {
        self.as_slice() == other.as_slice()
    }
}

impl Eq for TypeList {
    ghost laws = { Prim.search (comparing, rules) };
}

impl Hash for TypeList {
    ghost hash_input = { λ l. fed.slice (λ x. fed.usize x.number) l };

    ghost respects_eq = { (items_Alike (on_Alike (λ x. x.number) (same_Alike fed.usize Decides-eqb))).fed };

    fn hash<H: Hasher>(&self, state: &mut H) {
        self.as_slice().hash(state);
    }
}

/// What a type is, in terms of the types that it is made of.
#[derive(Debug, PartialEq, Eq, Hash, Drop)]
pub enum TypeKind {
    Void,
    Bool,
    Char,
    SChar,
    UChar,
    Short,
    UShort,
    Int,
    UInt,
    Long,
    ULong,
    Pointer(TypeId),
    /// The type of the elements, and how many there are.
    Array(TypeId, u32),
    Struct(StructId),
    /// What it gives, and the parameters.
    Function(TypeId, TypeList),
}

/// The size and the alignment of a type, in bytes.
#[derive(Clone, Copy, Debug, PartialEq, Eq)]
pub struct Measure {
    pub size: u32,
    pub align: u32,
}

/// The greatest size of a type or of the data, in bytes.
pub const MAX_SIZE: u32 = 16_777_216;
