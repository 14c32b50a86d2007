// The types of a unit by their ids.
ghost use Rattle.std.specs.Prelude.{◌≡◌, ◌==◌, ◌*◌, ◌<◌, ◌≤◌, ℕ, List, None, Some, Err, IfOk, IfSome, OnErr, OnOk, OnSome, length, option_and_then, option_map, replicate, slice_get};
ghost use Rattle.std.specs.List.{AllByRecursion};
ghost use Rattle.c_types.specs.declared.kind.Measure.{Measure};
ghost use Rattle.c_types.specs.declared.kind.TheConstants.{MAX_SIZE};
ghost use Rattle.c_types.specs.Sizes.{Has, IsMeasured, IsOpen, IsSized, Measures, no_types};
ghost use Rattle.c_types.specs.Tables.{Fits, IsStruct, IsThere, IsTooBig, PartsAreThere};
ghost use Rattle.c_typing.specs.Types as types;
ghost use Rattle.c_typing.specs.Types.{CType, CTypes, Layout, align_of, layout_of, measure, same};
ghost use Rattle.c_typing.specs.Expressions.{field_of};
ghost use Rattle.c_type_ids.specs.Integers.{integer_of};
ghost use Rattle.c_type_ids.specs.Ids.{AreLaid, Grows, IsClosedBy, IsField, IsTooBigBy, Names, NamesAll, Shows, shown_by, struct_by};

use crate::integers::Integer;
use crate::kinds::Kind;
use c_types::{StructId, TypeFault, TypeId, TypeKind, TypeList, Types};
use cp_base::Name;
use std::alloc::{AllocError, Global};
use std::marker::Model;

/// The types of a unit, each named by its id, and its structs by the nodes that declare them.
#[derive(Drop)]
pub struct TypeTable {
    types: Types,
    structs: Vec<Option<StructId>>,
}

impl Model for TypeTable {
    ghost use Rattle.c_type_ids.specs.Ids.{AreDistinct, Known};

    ghost Value = { Known };

    ghost view = { λ t. record { table = t.types; structs = t.structs.items } };

    ghost invariant = { λ t. AreDistinct (record { table = t.types; structs = t.structs.items }) };
}

impl TypeTable {
    /// No type and no struct, for so many nodes.
    pub fn new(alloc: Global, nodes: usize) -> Result<TypeTable, AllocError>
        ensures { IfOk result (λ t. (t.table ≡ no_types) × (t.structs ≡ replicate nodes None)) }
    {
        let mut structs = Vec::new(alloc);
        structs.resize(nodes, None)?;
        let types = Types::new(alloc);
        Ok(TypeTable { types, structs })
    }

    pub fn void(&mut self) -> Result<TypeId, AllocError>
        ensures ok { IfOk result (λ id. Names self.new id types.void) }
        ensures there { IfOk result (IsThere self.new.table) }
        ensures grows { Grows self.old self.new }
    {
        self.add_small(TypeKind::Void)
    }

    pub fn integer(&mut self, integer: Integer) -> Result<TypeId, AllocError>
        ensures ok { IfOk result (λ id. Names self.new id (types.integer (integer_of integer))) }
        ensures there { IfOk result (IsThere self.new.table) }
        ensures grows { Grows self.old self.new }
    {
        self.add_small(integer.kind())
    }

    pub fn pointer(&mut self, to: TypeId) -> Result<TypeId, AllocError>
        requires { IsThere self.old.table to }
        ensures ok { IfOk result (λ id. (t : CType) → Names self.old to t → Names self.new id (types.pointer t)) }
        ensures there { IfOk result (IsThere self.new.table) }
        ensures grows { Grows self.old self.new }
    {
        self.add_small(TypeKind::Pointer(to))
    }

    /// An array of so many elements. Its size is told where it is above the limit.
    pub fn array(&mut self, element: TypeId, count: u32) -> Result<TypeId, TypeFault>
        requires { IsSized self.old.table element }
        ensures ok { IfOk result (λ id. (t : CType) → Names self.old element t → Names self.new id (types.array t count)) }
        ensures there { IfOk result (IsThere self.new.table) }
        ensures fits { OnOk result ((m : Measure) → IsMeasured self.old.table element m → count * m.size ≤ MAX_SIZE) }
        ensures too_big { (size : ℕ) → result ≡ Err (TypeFault.TooBig size) →
            (m : Measure) × IsMeasured self.old.table element m × (size ≡ count * m.size) × IsTooBig size }
        ensures grows { Grows self.old self.new }
    {
        self.add(TypeKind::Array(element, count))
    }

    pub fn function(&mut self, gives: TypeId, takes: TypeList) -> Result<TypeId, AllocError>
        requires gives { IsThere self.old.table gives }
        requires takes { AllByRecursion (IsThere self.old.table) takes }
        ensures ok { IfOk result (λ id. (t : CType) (ts : CTypes) → Names self.old gives t → NamesAll self.old takes ts → Names self.new id (types.function t ts)) }
        ensures there { IfOk result (IsThere self.new.table) }
        ensures grows { Grows self.old self.new }
    {
        self.add_small(TypeKind::Function(gives, takes))
    }

    /// The type of the struct that this node declares.
    pub fn structure(&mut self, node: usize) -> Result<TypeId, AllocError>
        requires { node < length self.old.structs }
        ensures ok { IfOk result (λ id. Names self.new id (types.struct node)) }
        ensures there { IfOk result (IsThere self.new.table) }
        ensures grows { Grows self.old self.new }
    {
        let s = self.struct_of(node)?;
        self.add_small(TypeKind::Struct(s))
    }

    // The struct that this node declares, which is opened where it is not there yet.
    fn struct_of(&mut self, node: usize) -> Result<StructId, AllocError>
        requires { node < length self.old.structs }
        ensures ok { IfOk result (λ s. (struct_by self.new.structs node ≡ Some s) × IsStruct self.new.table s) }
        ensures grows { Grows self.old self.new }
    {
        match self.struct_at(node) {
            Some(s) => Ok(s),
            None => self.open(node),
        }
    }

    /// The struct that this node declares, where it has been named.
    pub fn struct_at(&self, node: usize) -> Option<StructId>
        requires { node < length self.now.structs }
        ensures is { result ≡ struct_by self.now.structs node }
        ensures there { IfSome result (IsStruct self.now.table) }
    {
        self.structs[node]
    }

    fn open(&mut self, node: usize) -> Result<StructId, AllocError>
        requires within { node < length self.old.structs }
        requires none { struct_by self.old.structs node ≡ None }
        ensures ok { IfOk result (λ s. (struct_by self.new.structs node ≡ Some s) × IsStruct self.new.table s) }
        ensures grows { Grows self.old self.new }
    {
        let s = self.types.open_struct()?;
        self.structs[node] = Some(s);
        Ok(s)
    }

    /// Gives a struct that has none its members. Its size is told where it is above the limit.
    pub fn close(&mut self, s: StructId, members: &[(Name, TypeId)]) -> Result<(), TypeFault>
        requires open { IsOpen self.old.table s }
        requires sized { AllByRecursion (λ m. IsSized self.old.table m.1) members.now }
        ensures laid { OnOk result (IsClosedBy self.old self.new s members.now) }
        ensures too_big { (size : ℕ) → result ≡ Err (TypeFault.TooBig size) → IsTooBigBy self.old s members.now size }
        ensures err { OnErr result (self.new ≡ self.old) }
    {
        self.types.close_struct(s, members)
    }

    /// The offset and the type of the member of this name, of a struct that a node declares.
    pub fn member(&self, s: StructId, name: &str) -> Option<(u32, TypeId)>
        requires { (node : ℕ) × (struct_by self.now.structs node ≡ Some s) }
        ensures { (node : ℕ) (layouts : List Layout) → struct_by self.now.structs node ≡ Some s → AreLaid self.now layouts →
            IsField self.now result (field_of layouts (types.struct node) name.now) }
    {
        self.types.member(s, name)
    }

    /// The offset and the type of the member of this index, of a struct that a node declares.
    pub fn part(&self, s: StructId, index: usize) -> Option<(u32, TypeId)>
        requires { (node : ℕ) × (struct_by self.now.structs node ≡ Some s) }
        ensures { (node : ℕ) (layouts : List Layout) → struct_by self.now.structs node ≡ Some s → AreLaid self.now layouts →
            IsField self.now result (option_and_then (λ (l : Layout). slice_get l.fields index) (layout_of layouts node)) }
    {
        self.types.part(s, index)
    }

    // A type that is no array, and so is within the limit.
    fn add_small(&mut self, kind: TypeKind) -> Result<TypeId, AllocError>
        requires { PartsAreThere self.old.table kind }
        ensures found { IfOk result (λ id. Has self.new.table id kind) }
        ensures there { IfOk result (IsThere self.new.table) }
        ensures grows { Grows self.old self.new }
    {
        match self.add(kind) {
            Ok(id) => Ok(id),
            Err(_) => Err(AllocError),
        }
    }

    // The type of this kind.
    fn add(&mut self, kind: TypeKind) -> Result<TypeId, TypeFault>
        requires { PartsAreThere self.old.table kind }
        ensures found { IfOk result (λ id. Has self.new.table id kind) }
        ensures there { IfOk result (IsThere self.new.table) }
        ensures fits { OnOk result (Fits self.old.table kind) }
        ensures too_big { (size : ℕ) → result ≡ Err (TypeFault.TooBig size) →
            (m : Measure) × Measures self.old.table kind m × (m.size ≡ size) × IsTooBig size }
        ensures grows { Grows self.old self.new }
    {
        self.types.add(kind)
    }

    /// What the type is.
    pub fn kind(&self, id: TypeId) -> Kind
        requires { IsThere self.now.table id }
        ensures { (t : CType) → Names self.now id t → Shows self.now result t }
    {
        shown_by(self.types.kind(id))
    }

    /// The parameters of a function; of another type none.
    pub fn parameters(&self, id: TypeId) -> &[TypeId]
        requires { IsThere self.now.table id }
        ensures { (t : CType) (ts : CTypes) → Names self.now id (types.function t ts) → NamesAll self.now result.now ts }
    {
        match self.types.kind(id) {
            TypeKind::Function(_, takes) => takes.as_slice(),
            _ => &[],
        }
    }

    /// Two types are the same, qualifiers aside.
    pub fn is_same(&self, left: TypeId, right: TypeId) -> bool
        ensures { (t u : CType) → Names self.now left t → Names self.now right u → result ≡ same t u }
    {
        // Reading the field makes the invariant of the table known to the proof.
        let _ = &self.types;
        left.number == right.number
    }

    /// Two structs are declared by one node.
    pub fn is_same_struct(&self, left: StructId, right: StructId) -> bool
        ensures { (a b : ℕ) → struct_by self.now.structs a ≡ Some left → struct_by self.now.structs b ≡ Some right → result ≡ (a == b) }
    {
        // Reading the field makes the invariant of the table known to the proof.
        let _ = &self.types;
        left.number == right.number
    }

    /// The size of a type, where it has one.
    pub fn size(&self, id: TypeId) -> Option<u32>
        requires { IsThere self.now.table id }
        ensures is { (t : CType) (layouts : List Layout) → Names self.now id t → AreLaid self.now layouts → result ≡ option_map (λ (m : Measure). m.size) (measure layouts t) }
        ensures sized { OnSome result (IsSized self.now.table id) }
    {
        self.types.size(id)
    }

    /// The alignment of a type that has a size.
    pub fn align(&self, id: TypeId) -> u32
        requires { IsSized self.now.table id }
        ensures { (t : CType) (layouts : List Layout) → Names self.now id t → AreLaid self.now layouts → result ≡ align_of layouts t }
    {
        self.types.align(id)
    }
}

fn shown_by(kind: &TypeKind) -> Kind
    ensures { result ≡ shown_by kind.now }
{
    match kind {
        TypeKind::Void => Kind::Void,
        TypeKind::Pointer(to) => Kind::Pointer(*to),
        TypeKind::Array(element, count) => Kind::Array(*element, *count),
        TypeKind::Struct(s) => Kind::Struct(*s),
        TypeKind::Function(gives, _) => Kind::Function(*gives),
        TypeKind::Bool => Kind::Integer(Integer::Bool),
        TypeKind::Char => Kind::Integer(Integer::Char),
        TypeKind::SChar => Kind::Integer(Integer::SChar),
        TypeKind::UChar => Kind::Integer(Integer::UChar),
        TypeKind::Short => Kind::Integer(Integer::Short),
        TypeKind::UShort => Kind::Integer(Integer::UShort),
        TypeKind::Int => Kind::Integer(Integer::Int),
        TypeKind::UInt => Kind::Integer(Integer::UInt),
        TypeKind::Long => Kind::Integer(Integer::Long),
        TypeKind::ULong => Kind::Integer(Integer::ULong),
    }
}
