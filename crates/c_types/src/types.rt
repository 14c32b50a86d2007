// The table of types.
ghost use Rattle.std.specs.Prelude.{◌≡◌, ◌≢◌, ◌↔◌, ◌<◌, ◌≤◌, ◌^◌, ◌-◌, ◌%◌, ℕ, List, Option, None, Some, Err, IfNone, IfOk, IfSome, OnOk, OnErr, OnSome, false, length, map, min};
ghost use Rattle.std.specs.List.{AllByRecursion, list_any};
ghost use Rattle.std.specs.Str.{bytes_eq};
ghost use Rattle.c_types.specs.InOrder.{AreAligned, offsets};
ghost use Rattle.c_types.specs.Sizes as sizes;
ghost use Rattle.c_types.specs.Sizes.{Has, HasMember, HasSize, IsClosed, IsIncomplete, IsMeasured, IsOpen, IsSized, Measures, MeasuresAll, Member, members_of, names_of, no_types, part_at};
ghost use Rattle.c_types.specs.Tables.{Fits, IsAdded, IsOpened, IsStruct, IsThere, IsTooBig, KeepsSizes, PartsAreThere, StructFits, StructIsTooBig, closed, members_from};
ghost use Rattle.c_types.specs.WellMade.{IsAlignment};
ghost use Rattle.c_types.specs.Kept as kept;
ghost use Rattle.c_types.specs.Kept.{IsKept, IsKnown, table_of};
ghost use Rattle.c_types.specs.declared.types.Body.{Body};

use crate::in_order::{end_of, greatest_align, least_multiple, offsets_of};
use crate::kind::{MAX_SIZE, Measure, StructId, TypeId, TypeKind};
use cp_base::{Items, Name};
use indexmap::IndexMap;
use std::alloc::{AllocError, Global};
use std::marker::Model;

/// Why a type is not made.
#[derive(Clone, Copy, Debug, PartialEq, Eq)]
pub enum TypeFault {
    /// Its size is above the limit. A size above the greatest `u64` is told as that.
    TooBig { size: u64 },
    OutOfMemory,
}

impl From<AllocError> for TypeFault {
    ghost use Rattle.std.specs.Prelude.{◌≡◌};
    ghost use Rattle.c_types.specs.declared.types.TypeFault.TheVariants.{OutOfMemory};

    ghost from_gives = { λ _ fault. fault ≡ OutOfMemory };

    fn from(_error: AllocError) -> TypeFault {
        TypeFault::OutOfMemory
    }
}

/// A member of a struct that is closed.
#[derive(Debug, Drop)]
pub struct Field {
    pub(crate) name: Name,
    pub(crate) kind: TypeId,
    pub(crate) offset: u32,
}

/// A struct that is closed.
#[derive(Debug, Drop)]
pub struct Body {
    pub(crate) fields: Items<Field>,
    pub(crate) measure: Measure,
}

/// A table of types, each named by its id.
#[derive(Drop)]
pub struct Types {
    alloc: Global,
    // The kind of each type, with its size and alignment where these do not wait for a struct.
    kinds: IndexMap<TypeKind, Option<Measure>>,
    // The structs; `None` is one that is open.
    structs: Vec<Option<Body>>,
}

impl Model for Types {
    ghost use Rattle.c_types.specs.Sizes.{Table};

    ghost Value = { Table };

    ghost use Rattle.c_types.specs.Kept.{IsKept, table_of};

    ghost view = { λ t. table_of t.kinds.entries t.structs.items };

    ghost invariant = { λ t. IsKept t.kinds.entries t.structs.items };
}

impl Types {
    /// No type and no struct.
    pub fn new(alloc: Global) -> Types
        ensures { result ≡ no_types }
    {
        Types {
            alloc,
            kinds: IndexMap::new(alloc),
            structs: Vec::new(alloc),
        }
    }

    /// The type of this kind; it is added where it is not there yet.
    pub fn add(&mut self, kind: TypeKind) -> Result<TypeId, TypeFault>
        requires { PartsAreThere self.old kind }
        ensures added { IfOk result (λ id. IsAdded self.old kind id self.new) }
        ensures sizes { OnOk result (KeepsSizes self.old self.new) }
        ensures fits { OnOk result (Fits self.old kind) }
        ensures too_big { (size : ℕ) → result ≡ Err (TypeFault.TooBig size) →
            (m : Measure) × Measures self.old kind m × (m.size ≡ size) × IsTooBig size }
        ensures err { OnErr result (self.new ≡ self.old) }
    {
        let known = self.known_of(&kind)?;
        let id = insert(&mut self.kinds, kind, known)?;
        Ok(id)
    }

    // The size and alignment of a kind, where these do not wait for a struct.
    fn known_of(&self, kind: &TypeKind) -> Result<Option<Measure>, TypeFault>
        requires { PartsAreThere self.now kind.now }
        ensures known { IfOk result (IsKnown self.now kind.now) }
        ensures too_big { (size : ℕ) → result ≡ Err (TypeFault.TooBig size) →
            (m : Measure) × Measures self.now kind.now m × (m.size ≡ size) × IsTooBig size }
        ensures memory { result ≢ Err TypeFault.OutOfMemory }
    {
        match kind {
            TypeKind::Array(element, count) => self.array_of(*element, *count),
            _ => Ok(basic_measure(kind)),
        }
    }

    // The same of an array.
    fn array_of(&self, element: TypeId, count: u32) -> Result<Option<Measure>, TypeFault>
        requires { IsSized self.now element }
        ensures known { IfOk result (IsKnown self.now (TypeKind.Array element count)) }
        ensures too_big { (size : ℕ) → result ≡ Err (TypeFault.TooBig size) →
            (m : Measure) × Measures self.now (TypeKind.Array element count) m × (m.size ≡ size) × IsTooBig size }
        ensures memory { result ≢ Err TypeFault.OutOfMemory }
    {
        let Measure { size, align } = self.sized(element);
        let size = u64::from(count) * u64::from(size);
        if size > u64::from(MAX_SIZE) {
            return Err(TypeFault::TooBig { size });
        }
        let size = size as u32;
        Ok(Some(Measure { size, align }))
    }

    // The size and alignment of a type, where it has them.
    fn measure_of(&self, id: TypeId) -> Option<Measure>
        requires { IsThere self.now id }
        ensures some { IfSome result (λ m. IsMeasured self.now id m × (m.size ≤ MAX_SIZE)) }
        ensures none { IfNone result (IsIncomplete self.now id) }
    {
        let (kind, known) = self.kinds.get_index(id.number)?;
        match kind {
            TypeKind::Struct(s) => self.struct_measure(*s),
            _ => *known,
        }
    }

    fn struct_measure(&self, s: StructId) -> Option<Measure>
        requires { IsStruct self.now s }
        ensures some { IfSome result (λ m. Measures self.now (TypeKind.Struct s) m × (m.size ≤ MAX_SIZE)) }
        ensures none { IfNone result (IsOpen self.now s) }
    {
        match &self.structs[s.number] {
            Some(body) => Some(body.measure),
            None => None,
        }
    }

    /// What the type is.
    pub fn kind(&self, id: TypeId) -> &TypeKind
        requires { IsThere self.now id }
        ensures kind { Has self.now id result.now }
        ensures parts { PartsAreThere self.now result.now }
    {
        &self.kinds.keys().as_slice()[id.number]
    }

    /// The size of the type, in bytes. There is none for `void`, functions and open structs.
    pub fn size(&self, id: TypeId) -> Option<u32>
        requires { IsThere self.now id }
        ensures some { (size : ℕ) → (result ≡ Some size) ↔ HasSize self.now id size }
        ensures none { (result ≡ None) ↔ IsIncomplete self.now id }
        ensures sized { OnSome result (IsSized self.now id) }
        ensures limit { IfSome result (λ size. size ≤ MAX_SIZE) }
    {
        match self.measure_of(id) {
            Some(m) => Some(m.size),
            None => None,
        }
    }

    /// The alignment of a type that has a size.
    pub fn align(&self, id: TypeId) -> u32
        requires { IsSized self.now id }
        ensures is { (m : Measure) → IsMeasured self.now id m → result ≡ m.align }
        ensures alignment { IsAlignment result }
        ensures whole { (size : ℕ) → HasSize self.now id size → size % result ≡ 0 }
    {
        self.sized(id).align
    }

    // The size and alignment of a type that has them.
    fn sized(&self, id: TypeId) -> Measure
        requires { IsSized self.now id }
        ensures { IsMeasured self.now id result }
    {
        self.measure_of(id).unwrap()
    }

    /// A new struct, whose members are not known yet.
    pub fn open_struct(&mut self) -> Result<StructId, AllocError>
        ensures opened { IfOk result (λ s. IsOpened self.old s self.new) }
        ensures sizes { OnOk result (KeepsSizes self.old self.new) }
        ensures err { OnErr result (self.new ≡ self.old) }
    {
        let number = self.structs.len();
        self.structs.push(None)?;
        Ok(StructId { number })
    }

    /// Gives a struct its members. Where two have one name, the first is the member of that name.
    pub fn close_struct(
        &mut self,
        id: StructId,
        members: &[(Name, TypeId)],
    ) -> Result<(), TypeFault>
        requires open { IsOpen self.old id }
        requires sized { AllByRecursion (λ m. IsSized self.old m.1) members.now }
        ensures closed { OnOk result (self.new ≡ closed self.old id (members_from members.now)) }
        ensures sizes { OnOk result (KeepsSizes self.old self.new) }
        ensures fits { OnOk result (StructFits self.old (members_from members.now)) }
        ensures too_big { (size : ℕ) → result ≡ Err (TypeFault.TooBig size) → StructIsTooBig self.old (members_from members.now) size }
        ensures err { OnErr result (self.new ≡ self.old) }
    {
        let body = self.body_of(members)?;
        self.structs[id.number] = Some(body);
        Ok(())
    }

    // A struct with these members.
    fn body_of(&self, members: &[(Name, TypeId)]) -> Result<Body, TypeFault>
        requires sized { AllByRecursion (λ m. IsSized self.now m.1) members.now }
        ensures laid { IfOk result (λ body. kept.IsLaid self.now (Some body)) }
        ensures members { IfOk result (λ body. kept.members_of body ≡ members_from members.now) }
        ensures too_big { (size : ℕ) → result ≡ Err (TypeFault.TooBig size) → StructIsTooBig self.now (members_from members.now) size }
    {
        let measures = self.measures_of(members)?;
        let measure = struct_measure(&measures)?;
        body_from(self.alloc, members, &measures, measure)
    }

    fn measures_of(&self, members: &[(Name, TypeId)]) -> Result<Vec<Measure>, AllocError>
        requires { AllByRecursion (λ m. IsSized self.now m.1) members.now }
        ensures { IfOk result (λ ms. MeasuresAll self.now (members_from members.now) ms.items) }
    {
        let mut measures = Vec::new(self.alloc);
        for member in members {
            measures.push(self.sized(member.1))?;
        }
        Ok(measures)
    }

    /// The offset and the type of the member of this name. An open struct has no members.
    pub fn member(&self, id: StructId, name: &str) -> Option<(u32, TypeId)>
        requires { IsStruct self.now id }
        ensures some { (offset : ℕ) (kind : TypeId) → (result ≡ Some (offset, kind)) ↔ HasMember self.now id name.now offset kind }
        ensures none { (result ≡ None) ↔ (list_any (bytes_eq name.now) (names_of (members_of self.now id)) ≡ false) }
    {
        match &self.structs[id.number] {
            Some(body) => field_named(body.fields.as_slice(), name),
            None => None,
        }
    }

    /// The offset and the type of the member of this index.
    pub fn part(&self, id: StructId, index: usize) -> Option<(u32, TypeId)>
        requires { IsStruct self.now id }
        ensures closed { (members : List Member) (ms : List Measure) → IsClosed self.now id members → MeasuresAll self.now members ms →
            result ≡ part_at index members (offsets ms) }
        ensures open { IsOpen self.now id → result ≡ None }
    {
        match &self.structs[id.number] {
            Some(body) => field_at(body.fields.as_slice(), index),
            None => None,
        }
    }
}

// The place of the kind, which is added where it is not there yet.
fn insert(
    kinds: &mut IndexMap<TypeKind, Option<Measure>>,
    kind: TypeKind,
    known: Option<Measure>,
) -> Result<TypeId, AllocError>
    ensures added { IfOk result (λ id. (structs : List (Option Body)) →
        IsAdded (table_of kinds.old.entries structs) kind id (table_of kinds.new.entries structs)) }
    ensures kept { OnOk result ((structs : List (Option Body)) → IsKept kinds.old.entries structs →
        PartsAreThere (table_of kinds.old.entries structs) kind → IsKnown (table_of kinds.old.entries structs) kind known →
        IsKept kinds.new.entries structs) }
    ensures err { OnErr result (kinds.new.entries ≡ kinds.old.entries) }
{
    let Ok((number, _)) = kinds.insert_full(kind, known) else {
        return Err(AllocError);
    };
    Ok(TypeId { number })
}

fn basic_measure(kind: &TypeKind) -> Option<Measure>
    ensures { result ≡ sizes.basic_measure kind.now }
{
    let size = match kind {
        TypeKind::Bool | TypeKind::Char | TypeKind::SChar | TypeKind::UChar => 1,
        TypeKind::Short | TypeKind::UShort => 2,
        TypeKind::Int | TypeKind::UInt | TypeKind::Long | TypeKind::ULong => 4,
        TypeKind::Pointer(_) => 4,
        _ => return None,
    };
    Some(Measure { size, align: size })
}

// The size and alignment of a struct with members of these.
fn struct_measure(measures: &[Measure]) -> Result<Measure, TypeFault>
    requires { AreAligned measures.now }
    ensures is { IfOk result (λ m. m ≡ sizes.struct_measure measures.now) }
    ensures fits { OnOk result ((sizes.struct_measure measures.now).size ≤ MAX_SIZE) }
    ensures too_big { (size : ℕ) → result ≡ Err (TypeFault.TooBig size) →
        IsTooBig (sizes.struct_measure measures.now).size × (size ≡ min (sizes.struct_measure measures.now).size (2 ^ 64 - 1)) }
{
    let align = greatest_align(measures);
    let size = least_multiple(align, end_of(measures));
    if size > u128::from(MAX_SIZE) {
        let size = told(size);
        return Err(TypeFault::TooBig { size });
    }
    let size = size as u32;
    Ok(Measure { size, align })
}

// A number, or the greatest where it is above that.
fn told(size: u128) -> u64
    ensures { result ≡ min size (2 ^ 64 - 1) }
{
    if size > u128::from(u64::MAX) {
        u64::MAX
    } else {
        size as u64
    }
}

fn body_from(
    alloc: Global,
    members: &[(Name, TypeId)],
    measures: &[Measure],
    measure: Measure,
) -> Result<Body, TypeFault>
    requires aligned { AreAligned measures.now }
    requires long { length measures.now ≡ length members.now }
    requires is { measure ≡ sizes.struct_measure measures.now }
    requires fits { measure.size ≤ MAX_SIZE }
    ensures measure { IfOk result (λ body. body.measure ≡ measure) }
    ensures members { IfOk result (λ body. kept.members_of body ≡ members_from members.now) }
    ensures offsets { IfOk result (λ body. map (λ field. field.offset) body.fields ≡ offsets measures.now) }
    ensures memory { (size : ℕ) → result ≢ Err (TypeFault.TooBig size) }
{
    let offsets = offsets_of(alloc, measures)?;
    let fields = fields_of(alloc, members, offsets.as_slice())?;
    Ok(Body { fields, measure })
}

fn fields_of(
    alloc: Global,
    members: &[(Name, TypeId)],
    offsets: &[u32],
) -> Result<Items<Field>, AllocError>
    requires { length offsets.now ≡ length members.now }
    ensures members { IfOk result (λ fields. map kept.member_of fields ≡ members_from members.now) }
    ensures offsets { IfOk result (λ fields. map (λ field. field.offset) fields ≡ offsets.now) }
{
    let mut fields = Items::new(alloc);
    for k in 0..members.len() {
        let name = copied(alloc, &members[k].0)?;
        let kind = members[k].1;
        let offset = offsets[k];
        fields.push(Field { name, kind, offset })?;
    }
    Ok(fields)
}

fn copied(alloc: Global, name: &Name) -> Result<Name, AllocError>
    ensures { IfOk result (λ copy. copy ≡ name.now) }
{
    let mut copy = Name::new(alloc);
    copy.push_all(name.as_slice())?;
    Ok(copy)
}

// The offset and the type of the field of this index.
fn field_at(fields: &[Field], index: usize) -> Option<(u32, TypeId)>
    ensures { result ≡ part_at index (map kept.member_of fields.now) (map (λ field. field.offset) fields.now) }
{
    match fields.get(index) {
        Some(field) => Some((field.offset, field.kind)),
        None => None,
    }
}

// The offset and the type of the first field of this name.
fn field_named(fields: &[Field], name: &str) -> Option<(u32, TypeId)>
    ensures { result ≡ sizes.member_of name.now (map kept.member_of fields.now) (map (λ field. field.offset) fields.now) }
{
    for field in fields {
        if name == field.name.as_slice() {
            return Some((field.offset, field.kind));
        }
    }
    None
}
