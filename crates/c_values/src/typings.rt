// What an expression is: its type, its form, its code, and what it is as a constant.
use c_constants::Constant;
use c_types::{Expr, TypeId};

/// A type by its id; or an array whose initializer is to give its length, by the type of its elements; or a pointer to such an
/// array.
#[derive(Clone, Copy, Debug, PartialEq, Eq)]
pub enum Type {
    Known(TypeId),
    Unsized(TypeId),
    ToUnsized(TypeId),
}

/// What a name of a function calls.
#[derive(Clone, Copy, Debug, PartialEq, Eq)]
pub enum Callee {
    ReadsInput,
    WritesOutput,
    Calls(usize),
}

/// A value; an lvalue, in a local or in memory; a struct that is no lvalue, or a part of one; the name of a function.
#[derive(Clone, Copy, Debug, PartialEq, Eq)]
pub enum Form {
    Value,
    InLocal(usize),
    InMemory,
    Temporary,
    Callee(Callee),
}

/// The code of an lvalue in memory, and of a struct, is its address; that of all else is its value.
#[derive(Drop)]
pub struct Typing {
    pub kind: Type,
    pub form: Form,
    pub constant: Constant,
    pub code: Expr,
}
