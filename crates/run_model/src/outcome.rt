// How a run of a C unit comes out.

/// The outcome of a run over a number of turns, at a depth.
#[derive(Clone, Copy, Debug, PartialEq, Eq)]
pub enum Outcome {
    /// `main` returned, and this is the status.
    Ended(u8),
    /// A turn was wanted when none was left.
    Running,
    /// What came next is undefined behaviour.
    Undefined,
    /// A call would have made more active calls than the depth.
    Deep,
}
