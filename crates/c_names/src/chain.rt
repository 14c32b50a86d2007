// The names of one text in the scopes around a place, one a scope, the innermost last.
ghost use Rattle.std.specs.Prelude.{◌≡◌, ◌≢◌, true, ◌<◌, ◌≤◌, ◌++◌, ◌-◌, ℕ, false, IfNone, IfSome, List, None, OnOk, Some, drop, length, slice_index_or, take};
ghost use Rattle.std.specs.List.{AllByRecursion};
ghost use Rattle.c_typing.specs.Places as places;
ghost use Rattle.c_nodes.specs.Scopes.{scope_of};
ghost use Rattle.c_names.specs.Chains as chains;
ghost use Rattle.c_names.specs.Chains.{IsEntered, IsPut, IsVisible, end_in};

use c_nodes::Span;
use std::alloc::{AllocError, Global};

/// A name: the node that declares it, and its scope.
#[derive(Clone, Copy)]
pub(crate) struct Entry {
    pub(crate) node: usize,
    pub(crate) scope: Span,
}

fn end_of(scope: Span) -> usize
    ensures { result ≡ places.end_of (scope_of scope) }
{
    if scope.more_to == 0 {
        scope.to
    } else {
        scope.more_to
    }
}

// The node stands in the scope.
fn holds(scope: Span, number: usize) -> bool
    ensures { result ≡ places.in_scope (scope_of scope) number }
{
    (scope.from <= number && number <= scope.to)
        || (scope.more_from <= number && number <= scope.more_to)
}

// No node from this one on stands in the scope.
fn has_ended(scope: Span, number: usize) -> bool
    ensures { result ≡ chains.has_ended scope number }
{
    scope.to < number && scope.more_to < number
}

/// The last of the names whose scope has this node.
pub(crate) fn visible(chain: &[Entry], number: usize) -> Option<usize>
    ensures { IsVisible number chain.now result }
{
    let mut left = chain.len();
    while left > 0 {
        left -= 1;
        if holds(chain[left].scope, number) {
            return Some(chain[left].node);
        }
    }
    None
}

/// Enters a name at a node, and forgets names whose scopes have ended there.
pub(crate) fn enter(chain: &mut Vec<Entry>, number: usize, entry: Entry) -> Result<(), AllocError>
    ensures { OnOk result (IsEntered number entry chain.old.items chain.new.items) }
{
    let left = left_at(chain, number);
    chain.truncate(left);
    put(chain, entry)
}

// How many names are left when those at the end whose scopes have ended are dropped.
fn left_at(chain: &[Entry], number: usize) -> usize
    ensures low { result ≤ length chain.now }
    ensures ended { AllByRecursion (chains.IsEnded number) (drop result chain.now) }
{
    let mut left = chain.len();
    while left > 0 && has_ended(chain[left - 1].scope, number) {
        left -= 1;
    }
    left
}

// Puts a name before those whose scopes end before its own; of two names in one scope, the later one stays.
fn put(chain: &mut Vec<Entry>, entry: Entry) -> Result<(), AllocError>
    ensures { OnOk result (IsPut entry chain.old.items chain.new.items) }
{
    let place = place_of(chain, end_of(entry.scope));
    if is_again(chain, place, end_of(entry.scope)) {
        chain[place - 1] = later(chain[place - 1], entry);
        return Ok(());
    }
    chain.insert(place, entry)?;
    Ok(())
}

// The scope of the last name before a place ends at this node.
fn is_again(chain: &[Entry], place: usize, end: usize) -> bool
    requires { place ≤ length chain.now }
    ensures yes { (d : _) → result ≡ true → (0 < place) × (end_in (slice_index_or chain.now (place - 1) d) ≡ end) }
    ensures no { (d : _) → result ≡ false → 0 < place → end_in (slice_index_or chain.now (place - 1) d) ≢ end }
{
    place > 0 && end_of(chain[place - 1].scope) == end
}

// The place behind all names whose scopes do not end before this node.
fn place_of(chain: &[Entry], end: usize) -> usize
    ensures low { result ≤ length chain.now }
    ensures inner { AllByRecursion (λ inner. end_in inner < end) (drop result chain.now) }
    ensures outer { (d : _) → 0 < result → end ≤ end_in (slice_index_or chain.now (result - 1) d) }
{
    let mut place = chain.len();
    while place > 0 && end_of(chain[place - 1].scope) < end {
        place -= 1;
    }
    place
}

// The one whose node comes later.
fn later(before: Entry, entry: Entry) -> Entry
    ensures { result ≡ chains.later before entry }
{
    if before.node < entry.node {
        entry
    } else {
        before
    }
}
