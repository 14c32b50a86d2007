// The tags of one text whose scopes have not ended, one a scope.
ghost use Rattle.std.specs.Prelude.{◌≡◌, ◌++◌, ◌∷◌, [], OnOk, Option, Some, filter, option_map};
ghost use Rattle.c_typing.specs.Places as places;
ghost use Rattle.c_typing.specs.Places.{Node};
ghost use Rattle.c_typing.specs.Names.{Tag, fresh_tag, tag_after};
ghost use Rattle.c_nodes.specs.Scopes.{scope_of};
ghost use Rattle.c_names.specs.Chains as names;
ghost use Rattle.c_tags.specs.Chains as chains;
ghost use Rattle.c_tags.specs.Chains.{entry_of, inner_entry, is_same_span, met_of, seen_at};

use c_nodes::Span;
use std::alloc::{AllocError, Global};

/// A tag: its scope, the node that declares what it names, the scope where that is declared, and its kind.
#[derive(Clone, Copy)]
pub(crate) struct Entry {
    pub(crate) scope: Span,
    pub(crate) names: usize,
    pub(crate) home: usize,
    pub(crate) is_enum: bool,
}

/// A tag as it is met.
#[derive(Clone, Copy)]
pub(crate) struct MetTag {
    pub(crate) entry: Entry,
    pub(crate) is_new: bool,
    pub(crate) clashes: bool,
}

/// A tag of this text and kind, where the one in scope is known.
pub(crate) fn met(
    number: usize,
    is_enum: bool,
    scope: Span,
    declares: bool,
    in_scope: Option<Entry>,
) -> MetTag
    ensures { (m : Node) (e : Option Tag) → m.id ≡ number → in_scope ≡ option_map entry_of e → result ≡ met_of (tag_after m is_enum (scope_of scope) declares e) }
{
    match in_scope {
        Some(tag) => met_again(number, is_enum, scope, declares, tag),
        None => fresh(number, is_enum, scope),
    }
}

// A new one.
fn fresh(number: usize, is_enum: bool, scope: Span) -> MetTag
    ensures { (m : Node) → m.id ≡ number → result ≡ met_of (fresh_tag m is_enum (scope_of scope)) }
{
    MetTag {
        entry: Entry {
            scope,
            names: number,
            home: scope.node,
            is_enum,
        },
        is_new: true,
        clashes: false,
    }
}

// A declaration in an inner scope is new; any other tag names what the one in scope does.
fn met_again(number: usize, is_enum: bool, scope: Span, declares: bool, tag: Entry) -> MetTag
    ensures { (m : Node) (e : Tag) → m.id ≡ number → tag ≡ entry_of e → result ≡ met_of (tag_after m is_enum (scope_of scope) declares (Some e)) }
{
    if declares && tag.home != scope.node {
        return fresh(number, is_enum, scope);
    }
    MetTag {
        entry: Entry {
            scope,
            names: tag.names,
            home: tag.home,
            is_enum,
        },
        is_new: false,
        clashes: tag.is_enum != is_enum,
    }
}

fn end_of(scope: Span) -> usize
    ensures { result ≡ places.end_of (scope_of scope) }
{
    if scope.more_to == 0 {
        scope.to
    } else {
        scope.more_to
    }
}

// The node stands in the scope.
fn holds(scope: Span, number: usize) -> bool
    ensures { result ≡ places.in_scope (scope_of scope) number }
{
    (scope.from <= number && number <= scope.to)
        || (scope.more_from <= number && number <= scope.more_to)
}

// No node from this one on stands in the scope.
fn has_ended(scope: Span, number: usize) -> bool
    ensures { result ≡ names.has_ended scope number }
{
    scope.to < number && scope.more_to < number
}

fn is_same(a: Span, b: Span) -> bool
    ensures { result ≡ is_same_span a b }
{
    a.node == b.node
        && (a.from == b.from
            && (a.to == b.to && (a.more_from == b.more_from && a.more_to == b.more_to)))
}

/// The innermost of the tags whose scope has this node.
pub(crate) fn innermost(chain: &[Entry], number: usize) -> Option<Entry>
    ensures { result ≡ seen_at chain.now number }
{
    let mut best = None;
    for entry in chain {
        if holds(entry.scope, number) {
            best = Some(inner(best, *entry));
        }
    }
    best
}

// Of two tags, the one of the inner scope; of the same scope, the later one.
fn inner(best: Option<Entry>, entry: Entry) -> Entry
    ensures { Some result ≡ inner_entry best entry }
{
    match best {
        Some(best) if end_of(best.scope) < end_of(entry.scope) => best,
        _ => entry,
    }
}

// The entry can be seen from this node on, and is of another scope than the one that is entered.
fn stays(entry: Entry, number: usize, scope: Span) -> bool
    ensures { result ≡ chains.stays number scope entry }
{
    !has_ended(entry.scope, number) && !is_same(entry.scope, scope)
}

/// Enters a tag, and forgets those whose scopes have ended before this node, and those of its scope.
pub(crate) fn enter(chain: &mut Vec<Entry>, number: usize, entry: Entry) -> Result<(), AllocError>
    ensures { OnOk result (chain.new.items ≡ filter (chains.stays number entry.scope) chain.old.items ++ entry ∷ []) }
{
    chain.retain(|other| stays(*other, number, entry.scope));
    chain.push(entry)?;
    Ok(())
}
