// What a node has beside its kids.
use crate::kind::SynKind;
use cp_base::{Bytes, Name};

/// What a node has beside its kids.
#[derive(Debug, Drop)]
pub struct Label {
    pub kind: SynKind,
    /// An identifier, a word or an operator; empty where the kind has none.
    pub text: Name,
    /// The bytes of a string, without the zero at its end.
    pub bytes: Bytes,
    /// The value of an `Int` or `Char`; else 0.
    pub value: u32,
    /// The byte offset of its first token; for a node without one, that of the token behind its place.
    pub start: usize,
}
