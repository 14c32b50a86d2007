// Which nodes an end may name.
ghost use Rattle.std.specs.Prelude.{◌≡◌, ◌<◌, ℕ, true, false, length, slice_index_or, OnOk};
ghost use Rattle.firm_uses.specs.Counts.{times};
ghost use Rattle.firm_rules.specs.Rules.{uses};
ghost use Rattle.firm_tables.specs.Named.{may_name};

use firm_rules::FirmEnd;
use std::alloc::{AllocError, Global};
use std::marker::Model;

// The nodes that an end has named so far, and maybe others. Where a flag was refused, all may be named.
#[derive(Drop)]
pub(crate) struct Named {
    flags: Vec<bool>,
    all: bool,
}

impl Model for Named {
    ghost use Rattle.firm_tables.specs.Named.{Flags};

    ghost Value = { Flags };

    ghost view = { λ m. record { flags = m.flags.items; all = m.all } };
}

impl Named {
    pub(crate) fn new(alloc: Global) -> Named {
        Named {
            flags: Vec::new(alloc),
            all: false,
        }
    }

    pub(crate) fn has(&self, node: usize) -> bool
        ensures { result ≡ may_name self.now node }
    {
        if self.all {
            return true;
        }
        match self.flags.get(node) {
            Some(flag) => *flag,
            None => false,
        }
    }

    pub(crate) fn add(&mut self, node: usize)
        ensures here { may_name self.new node ≡ true }
        ensures others { (m : ℕ) → may_name self.old m ≡ true → may_name self.new m ≡ true }
    {
        if raise(&mut self.flags, node).is_err() {
            self.all = true;
        }
    }
}

fn raise(flags: &mut Vec<bool>, node: usize) -> Result<(), AllocError>
    ensures here { OnOk result (slice_index_or flags.new.items node false ≡ true) }
    ensures others { (m : ℕ) → slice_index_or flags.old.items m false ≡ true → slice_index_or flags.new.items m false ≡ true }
{
    widen(flags, node)?;
    flags[node] = true;
    Ok(())
}

fn widen(flags: &mut Vec<bool>, node: usize) -> Result<(), AllocError>
    ensures ok { OnOk result (node < length flags.new.items) }
    ensures same { (m : ℕ) → slice_index_or flags.new.items m false ≡ slice_index_or flags.old.items m false }
{
    while flags.len() <= node {
        flags.push(false)?;
    }
    Ok(())
}

// The nodes of the end are named.
pub(crate) fn name_all(named: &mut Named, end: Option<FirmEnd>)
    ensures here { (n : ℕ) → 0 < times n (uses end) → may_name named.new n ≡ true }
    ensures others { (n : ℕ) → may_name named.old n ≡ true → may_name named.new n ≡ true }
{
    match end {
        None | Some(FirmEnd::Jump(_)) => {}
        Some(FirmEnd::Branch(node, _, _)) => named.add(node.number),
        Some(FirmEnd::Return(memory, None)) => named.add(memory.number),
        Some(FirmEnd::Return(memory, Some(value))) => {
            named.add(memory.number);
            named.add(value.number);
        }
    }
}
