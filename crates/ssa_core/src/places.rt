// Tables over pairs of a variable and a block.
ghost use Rattle.std.specs.Prelude.{◌≡◌, ℕ, ◌+◌, ◌^◌, ◌<◌, ◌++◌, ◌∷◌, [], List, length, Option, Some, None, IfOk, OnOk, OnErr};
ghost use Rattle.std.specs.Option.{IfSome, IfNone};
ghost use Rattle.std.specs.List.{slice_get};
ghost use Rattle.ssa_core.specs.Places.{found, place, Puts};

use indexmap::IndexMap;
use std::alloc::{AllocError, Global};
use std::marker::Model;

/// A variable in a block.
#[derive(Clone, Copy, PartialEq, Eq, Hash)]
pub struct Place {
    pub var: usize,
    pub block: usize,
}

/// A value for a variable in a block.
#[derive(Clone, Copy)]
pub struct Entry<V> {
    pub place: Place,
    pub value: V,
}

/// At most one value for each variable in each block, in the order in which they came.
#[derive(Drop)]
pub struct Places<V: Drop> {
    map: IndexMap<Place, V>,
}

impl<V: Drop> Model for Places<V> {
    ghost use Rattle.std.specs.Prelude.{List};
    ghost use Rattle.ssa_core.specs.declared.places.Place.{Place};

    ghost Value = { List (Place × V) };

    ghost view = { λ s. s.map.entries };
}

impl<V: Copy> Places<V> {
    pub fn new(alloc: Global) -> Places<V>
        ensures { result ≡ [] }
    {
        Places {
            map: IndexMap::new(alloc),
        }
    }

    pub fn len(&self) -> usize
        ensures { result ≡ length self.now }
    {
        self.map.len()
    }

    /// The value for the variable in the block.
    pub fn get(&self, var: usize, block: usize) -> Option<V>
        ensures { result ≡ found self.now var block }
    {
        match self.map.get(&Place { var, block }) {
            Some(value) => Some(*value),
            None => None,
        }
    }

    /// The entry at the index.
    pub fn at(&self, index: usize) -> Option<Entry<V>>
        ensures some { IfSome result (λ entry. slice_get self.now index ≡ Some (entry.place, entry.value)) }
        ensures none { IfNone result (slice_get self.now index ≡ None) }
        ensures more { IfSome result (λ entry. index + 1 < 2 ^ 64) }
    {
        if self.map.len() <= index {
            return None;
        }
        match self.map.get_index(index) {
            Some((place, value)) => Some(Entry {
                place: *place,
                value: *value,
            }),
            None => None,
        }
    }

    /// Makes this the value for the variable in the block.
    pub fn put(&mut self, var: usize, block: usize, value: V) -> Result<(), AllocError>
        ensures puts { OnOk result (Puts self.old self.new var block value) }
        ensures appends { OnOk result (found self.old var block ≡ None → self.new ≡ self.old ++ (place var block, value) ∷ []) }
        ensures err { OnErr result (self.new ≡ self.old) }
    {
        self.map.insert(Place { var, block }, value)?;
        Ok(())
    }
}
