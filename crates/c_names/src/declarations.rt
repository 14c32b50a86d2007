// What was declared before under the same name in the same scope.
ghost use Rattle.std.specs.Prelude.{◌≡◌, ◌<◌, ◌+◌, IfOk, OnOk, length, replicate};
ghost use Rattle.c_typing.specs.Places.{has_kid, node_at};
ghost use Rattle.c_nodes.specs.Parents.{nodes_in};
ghost use Rattle.c_names.specs.Names.{AreNames};
ghost use Rattle.c_names.specs.Earlier.{AreEarlier, IsStep, none_before, recorded, with_name};

use crate::names::DeclaredName;
use crate::scoped::ScopedNodes;
use indexmap::IndexMap;
use std::alloc::{AllocError, Global};

/// The declarations of a name in its scope that come before one of them.
#[derive(Clone, Copy, Debug, PartialEq, Eq)]
pub struct Earlier {
    /// The node of the last one.
    pub last: Option<usize>,
    /// One of them has an initializer or a body.
    pub is_initialized: bool,
}

impl Earlier {
    fn none() -> Earlier
        ensures { result ≡ none_before }
    {
        Earlier {
            last: None,
            is_initialized: false,
        }
    }

    // With the one at this node, too.
    fn with_name(self, node: usize, is_initialized: bool) -> Earlier
        ensures { result ≡ with_name self node is_initialized }
    {
        let last = match self.last {
            Some(last) if node < last => last,
            _ => node,
        };
        Earlier {
            last: Some(last),
            is_initialized: self.is_initialized || is_initialized,
        }
    }
}

// A name by the first node with its text, in the scope of this owner.
#[derive(Clone, Copy, PartialEq, Eq, Hash)]
struct Key {
    text: usize,
    owner: usize,
}

/// For each name, by its node, what declares it before in its scope.
pub fn earlier_declarations(
    alloc: Global,
    scoped: &ScopedNodes,
    names: &[Option<DeclaredName>],
) -> Result<Vec<Earlier>, AllocError>
    requires { AreNames scoped.now names.now }
    ensures { IfOk result (λ found. AreEarlier scoped.now found.items) }
{
    let mut found = Vec::new(alloc);
    found.resize(scoped.len(), Earlier::none())?;
    put_all(alloc, scoped, names, &mut found)?;
    Ok(found)
}

fn put_all(
    alloc: Global,
    scoped: &ScopedNodes,
    names: &[Option<DeclaredName>],
    found: &mut [Earlier],
) -> Result<(), AllocError>
    requires names { AreNames scoped.now names.now }
    requires start { found.old ≡ replicate (length scoped.now) none_before }
    ensures { OnOk result (AreEarlier scoped.now found.new) }
{
    let mut latest = IndexMap::new(alloc);
    for number in 0..scoped.len() {
        put_one(scoped, names, &mut latest, found, number)?;
    }
    Ok(())
}

// Notes the name whose scope begins behind a node.
fn put_one(
    scoped: &ScopedNodes,
    names: &[Option<DeclaredName>],
    latest: &mut IndexMap<Key, Earlier>,
    found: &mut [Earlier],
    number: usize,
) -> Result<(), AllocError>
    requires within { number < length scoped.now }
    requires names { AreNames scoped.now names.now }
    requires found { length found.old ≡ length scoped.now }
    ensures { OnOk result (IsStep scoped.now number latest.old latest.new found.old found.new) }
{
    let Some(node) = scoped.begun(number) else {
        return Ok(());
    };
    let Some(name) = names[node] else {
        return Ok(());
    };
    let key = Key {
        text: scoped.text(node),
        owner: name.scope.node,
    };
    let before = latest_of(latest, key);
    found[node] = before;
    latest.insert(key, before.with_name(node, scoped.has_kid(name.owner, 1)))?;
    Ok(())
}

fn latest_of(latest: &IndexMap<Key, Earlier>, key: Key) -> Earlier
    ensures { result ≡ recorded latest.now key.text key.owner }
{
    match latest.get(&key) {
        Some(earlier) => *earlier,
        None => Earlier::none(),
    }
}
