// What a run of the machine comes to.

/// How far a run has come.
#[derive(Clone, Copy, Debug, PartialEq, Eq)]
pub enum RvOutcome {
    /// It ended with this status.
    Ended(u8),
    /// It goes on.
    Running,
    /// It cannot go on from this address.
    Stuck { pc: u32 },
}
