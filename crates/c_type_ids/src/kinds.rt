// What a type is.
use crate::integers::Integer;
use c_types::{StructId, TypeId};

#[derive(Clone, Copy, Debug, PartialEq, Eq)]
pub enum Kind {
    Void,
    Integer(Integer),
    Pointer(TypeId),
    /// The elements, and how many there are.
    Array(TypeId, u32),
    Struct(StructId),
    /// What it gives.
    Function(TypeId),
}
