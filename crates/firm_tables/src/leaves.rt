// Nodes without operands, by their operations and blocks.
ghost use Rattle.std.specs.Prelude.{◌≡◌, ◌≢◌, ◌<◌, ℕ, Some, None, IfOk, OnOk, OnErr, IfSome};
ghost use Rattle.firm_uses.specs.Counts.{times};
ghost use Rattle.ssa_core.specs.Places.{found, Puts};
ghost use Rattle.firm_tables.specs.Nodes.{numbers};
ghost use Rattle.firm_tables.specs.Leaves.{code_of as op_code, IsListed};

use crate::members::Members;
use firm_rules::{NodeId, NodeOp};
use indexmap::IndexMap;
use ssa_core::Place;
use std::alloc::{AllocError, Global};
use std::marker::Model;

// For a code and a block the number of a list.
#[derive(Drop)]
pub(crate) struct Numbered {
    map: IndexMap<Place, usize>,
}

impl Model for Numbered {
    ghost use Rattle.std.specs.Prelude.{List, ℕ};
    ghost use Rattle.ssa_core.specs.declared.places.Place.{Place};

    ghost Value = { List (Place × ℕ) };

    ghost view = { λ s. s.map.entries };
}

impl Numbered {
    fn new(alloc: Global) -> Numbered {
        Numbered {
            map: IndexMap::new(alloc),
        }
    }

    fn get(&self, code: usize, block: usize) -> Option<usize>
        ensures { result ≡ found self.now code block }
    {
        match self.map.get(&Place { var: code, block }) {
            Some(list) => Some(*list),
            None => None,
        }
    }

    fn put(&mut self, code: usize, block: usize, list: usize) -> Result<(), AllocError>
        ensures puts { OnOk result (Puts self.old self.new code block list) }
        ensures err { OnErr result (self.new ≡ self.old) }
    {
        self.map.insert(Place { var: code, block }, list)?;
        Ok(())
    }

    // The number of the list, which is a new one where there was none.
    fn list_for(&mut self, code: usize, block: usize) -> Result<usize, AllocError>
        ensures ok { IfOk result (λ list. found self.new code block ≡ Some list) }
        ensures kept { (c b list : ℕ) → found self.old c b ≡ Some list → found self.new c b ≡ Some list }
    {
        if let Some(list) = self.get(code, block) {
            return Ok(list);
        }
        let list = self.map.len();
        self.put(code, block, list)?;
        Ok(list)
    }
}

// The nodes whose operations have codes.
#[derive(Drop)]
pub(crate) struct Leaves {
    numbers: Numbered,
    lists: Members,
}

impl Model for Leaves {
    ghost use Rattle.firm_tables.specs.Leaves.{LeafLists};

    ghost Value = { LeafLists };

    ghost view = { λ l. record { numbers = l.numbers; lists = l.lists } };
}

impl Leaves {
    pub(crate) fn new(alloc: Global) -> Leaves {
        Leaves {
            numbers: Numbered::new(alloc),
            lists: Members::new(alloc),
        }
    }

    // Where the operation has a code, the nodes that are listed with it in the block.
    pub(crate) fn list(&self, op: NodeOp, block: usize) -> Option<&[NodeId]>
        ensures { IfSome result (λ list. (n : ℕ) → ((code : ℕ) → op_code op ≡ Some code → IsListed self.now code block n) → 0 < times n (numbers list.now)) }
    {
        let Some(code) = code_of(op) else {
            return None;
        };
        match self.numbers.get(code, block) {
            Some(list) => Some(self.lists.list(list)),
            None => Some(&[]),
        }
    }

    // Lists the node, where its operation has a code.
    pub(crate) fn enlist(&mut self, op: NodeOp, block: usize, node: usize) -> Result<(), AllocError>
        ensures ok { OnOk result ((code : ℕ) → op_code op ≡ Some code → IsListed self.new code block node) }
        ensures kept { (code b n : ℕ) → IsListed self.old code b n → IsListed self.new code b n }
    {
        let Some(code) = code_of(op) else {
            return Ok(());
        };
        let list = self.numbers.list_for(code, block)?;
        self.lists.push(list, node)
    }

    // The node is not listed so often any more.
    pub(crate) fn strike(&mut self, op: NodeOp, block: usize, node: usize)
        requires { (code : ℕ) → op_code op ≡ Some code → IsListed self.old code block node }
        ensures { (code b n : ℕ) → n ≢ node → IsListed self.old code b n → IsListed self.new code b n }
    {
        let Some(code) = code_of(op) else {
            return;
        };
        let Some(list) = self.numbers.get(code, block) else {
            return;
        };
        self.lists.remove(list, node);
    }
}

fn code_of(op: NodeOp) -> Option<usize>
    ensures { result ≡ op_code op }
{
    match op {
        NodeOp::Unknown => Some(0),
        NodeOp::Const(number) => Some(2 * (number as usize) + 1),
        NodeOp::Addr(offset) => Some(2 * (offset as usize) + 2),
        _ => None,
    }
}
