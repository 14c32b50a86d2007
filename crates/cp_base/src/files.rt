// Files, as a trait.
ghost use Rattle.std.specs.Prelude.{◌≡◌, ℕ, List, Option, ◌≤◌, ◌<◌, ◌⊎◌, Err};
ghost use Rattle.cp_base.specs.Outside.{Contents, Rose, Lacks, last_count};
ghost use Rattle.cp_base.specs.Taking.{AppendsFor, TakesTold};

use crate::bytes::Bytes;
use std::alloc::AllocError;

/// Why a file was not taken whole.
#[derive(Clone, Copy, Debug, PartialEq, Eq)]
pub enum TakeFault {
    /// It is not there, or could not be read.
    Failed,
    /// It has more bytes than the limit.
    TooLong,
    OutOfMemory,
}

impl From<AllocError> for TakeFault {
    ghost use Rattle.std.specs.Prelude.{◌≡◌};
    ghost use Rattle.cp_base.specs.declared.files.TakeFault.TheVariants.{OutOfMemory};

    ghost from_gives = { λ _ fault. fault ≡ OutOfMemory };

    fn from(_error: AllocError) -> TakeFault {
        TakeFault::OutOfMemory
    }
}

/// Where files are read from. The name `-` is standard input.
pub trait Files {
    /// How many reads failed so far, up to the end of a `u64`.
    ghost faults: { Self → ℕ };

    /// The files, where the object tells them.
    ghost contents: { Self → Option Contents };

    /// Appends the file of this name to `into`, whole. `limit` is the greatest number of bytes
    /// that it may have.
    ///
    /// After a refusal `into` has gained a front of the file: after `TooLong` its first `limit`
    /// bytes and one more.
    fn take(&mut self, name: &str, into: &mut Bytes, limit: usize) -> Result<(), TakeFault>
        requires { limit < usize.MAX }
        ensures count { faults self.old ≤ faults self.new }
        ensures bound { faults self.old ≤ last_count → faults self.new ≤ last_count }
        ensures contents { contents self.new ≡ contents self.old }
        ensures appends { AppendsFor result limit into.old into.new }
        // Where the contents are told, each answer but `OutOfMemory` has its cause in them or in a fault.
        ensures told { TakesTold result (contents self.old) name.now limit into.old into.new }
        ensures failed { result ≡ Err TakeFault.Failed → Rose (faults self.old) (faults self.new) ⊎ Lacks (contents self.old) name.now };
}
