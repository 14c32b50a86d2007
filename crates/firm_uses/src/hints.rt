// Hints on where users stand.
use std::alloc::{AllocError, Global};

/// For a user of a used one the place where it was last put among the users, as far as one is known. It may be wrong: who reads it
/// looks there.
#[derive(Drop)]
pub(crate) struct Hints {
    places: Vec<usize>,
}

impl Hints {
    pub(crate) fn new(alloc: Global) -> Hints {
        Hints {
            places: Vec::new(alloc),
        }
    }

    pub(crate) fn get(&self, user: usize, used: usize) -> usize {
        match self.places.get(slot(user, used)) {
            Some(place) => *place,
            None => 0,
        }
    }

    // Without memory nothing is noted.
    pub(crate) fn note(&mut self, user: usize, used: usize, place: usize) {
        let _ = put(&mut self.places, slot(user, used), place);
    }
}

// Four for each user, so that most of those that a node uses have their own.
fn slot(user: usize, used: usize) -> usize {
    user.wrapping_mul(4).wrapping_add(used % 4)
}

fn put(places: &mut Vec<usize>, slot: usize, place: usize) -> Result<(), AllocError> {
    while places.len() <= slot {
        places.push(0)?;
    }
    places[slot] = place;
    Ok(())
}

/// Notes that the users stand one after another among those of the used one.
pub(crate) fn note_all(hints: &mut Hints, users: &[usize], used: usize, first: usize) {
    let mut place = first;
    for user in users {
        hints.note(*user, used, place);
        place = place.wrapping_add(1);
    }
}
