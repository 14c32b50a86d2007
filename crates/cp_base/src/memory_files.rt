// Files in memory.
ghost use Rattle.std.specs.Prelude.{◌≡◌, [], ◌∷◌, ◌++◌, ◌≤◌, ◌<◌, ◌≢◌, ◌⊎◌, IsTrue, OnOk, OnErr, Err, None};
ghost use Rattle.std.specs.Option.{option_copied};
ghost use Rattle.std.specs.FinMap as map;
ghost use Rattle.cp_base.specs.Outside.{Rose, Lacks, last_count};
ghost use Rattle.cp_base.specs.Taking.{AppendsFor, TakesFile, TakesTold};
ghost use Rattle.cp_base.specs.Memory.{after_take, fails_next};

use crate::bytes::Bytes;
use crate::files::{Files, TakeFault};
use std::alloc::{AllocError, Global};
use std::collections::BTreeMap;
use std::marker::Model;

/// Files in memory, which tell their contents. A name that is not there is no fault.
#[derive(Drop)]
pub struct MemFiles {
    alloc: Global,
    files: BTreeMap<String, Bytes>,
    failing: Vec<usize>,
    calls: usize,
    faults: u64,
}

impl Model for MemFiles {
    ghost use Rattle.cp_base.specs.Memory.{FileStore, store_code, contents_of};

    ghost Value = { FileStore };

    ghost coded = { store_code };

    ghost view = { λ s. record {
      contents = contents_of s.files.entries;
      failing = s.failing.items;
      calls = s.calls;
      faults = s.faults;
    } };
}

impl MemFiles {
    /// No file.
    pub fn new(alloc: Global) -> MemFiles
        ensures { result ≡ record { contents = map.empty; failing = []; calls = 0; faults = 0 } }
    {
        MemFiles {
            alloc,
            files: BTreeMap::new(alloc),
            failing: Vec::new(alloc),
            calls: 0,
            faults: 0,
        }
    }

    /// A file of this name. One that is there gets the new bytes.
    pub fn add(&mut self, name: &str, bytes: &[u8]) -> Result<(), AllocError>
        ensures ok { OnOk result (self.new ≡ record self.old { contents = map.insert self.old.contents name.now bytes.now }) }
        ensures err { OnErr result (self.new ≡ self.old) }
    {
        let name = String::from_str(self.alloc, name)?;
        let mut file = Bytes::new(self.alloc);
        file.push_all(bytes)?;
        self.files.insert(name, file)?;
        Ok(())
    }

    /// The call of `take` of this number will fail. Calls are counted from 1 over the object's life.
    pub fn fail(&mut self, call: usize) -> Result<(), AllocError>
        ensures ok { OnOk result (self.new ≡ record self.old { failing = self.old.failing ++ call ∷ [] }) }
        ensures err { OnErr result (self.new ≡ self.old) }
    {
        self.failing.push(call)?;
        Ok(())
    }

    // Counts a call of `take`, and says whether it is one that fails, which is a fault.
    fn count_call(&mut self) -> bool
        ensures fails { result ≡ fails_next self.old.failing self.old.calls }
        ensures after { self.new ≡ after_take self.old }
        ensures rose { IsTrue result → Rose self.old.faults self.new.faults }
        ensures count { self.old.faults ≤ self.new.faults }
    {
        self.calls = self.calls.saturating_add(1);
        let fails = self.failing.contains(&self.calls);
        if fails {
            self.faults = self.faults.saturating_add(1);
        }
        fails
    }

    // The file of this name.
    fn file(&self, name: &str) -> Option<&Bytes>
        ensures { option_copied result ≡ map.get self.now.contents name.now }
    {
        self.files.get(name)
    }
}

impl Files for MemFiles {
    ghost use Rattle.std.specs.Prelude.{Some};

    ghost faults = { λ s. s.faults };

    ghost contents = { λ s. Some s.contents };

    fn take(&mut self, name: &str, into: &mut Bytes, limit: usize) -> Result<(), TakeFault>
        requires { limit < usize.MAX }
        ensures count { self.old.faults ≤ self.new.faults }
        ensures bound { self.old.faults ≤ last_count → self.new.faults ≤ last_count }
        ensures contents { Some self.new.contents ≡ Some self.old.contents }
        ensures appends { AppendsFor result limit into.old into.new }
        ensures told { TakesTold result (Some self.old.contents) name.now limit into.old into.new }
        ensures failed { result ≡ Err TakeFault.Failed → Rose self.old.faults self.new.faults ⊎ Lacks (Some self.old.contents) name.now }
        // The files stay, and the calls that fail; the call is counted, and as a fault where it fails.
        ensures after { self.new ≡ after_take self.old }
        ensures fails { IsTrue (fails_next self.old.failing self.old.calls) → (result ≡ Err TakeFault.Failed) × (into.new ≡ into.old) }
        ensures fails_only { result ≡ Err TakeFault.Failed →
            IsTrue (fails_next self.old.failing self.old.calls) ⊎ (map.get self.old.contents name.now ≡ None) }
    {
        if self.count_call() {
            return Err(TakeFault::Failed);
        }
        match self.file(name) {
            Some(file) => append_file(file.as_slice(), into, limit),
            None => Err(TakeFault::Failed),
        }
    }
}

// Appends a file that is there.
fn append_file(file: &[u8], into: &mut Bytes, limit: usize) -> Result<(), TakeFault>
    requires { limit < usize.MAX }
    ensures appends { AppendsFor result limit into.old into.new }
    ensures told { TakesFile result file.now limit into.old into.new }
    ensures not_failed { result ≢ Err TakeFault.Failed }
{
    if file.len() > limit {
        into.push_all(&file[..limit + 1])?;
        return Err(TakeFault::TooLong);
    }
    into.push_all(file)?;
    Ok(())
}
