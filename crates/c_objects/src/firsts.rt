// The first declaration of each name.
ghost use Rattle.std.specs.Prelude.{◌≡◌, ◌<◌, ◌+◌, IfOk, None, Some, length, replicate};
ghost use Rattle.c_names.specs.Denoted.{Begins};
ghost use Rattle.c_names.specs.Earlier.{AreEarlier};
ghost use Rattle.c_objects.specs.Firsts.{AreFirsts, AreFirstsBefore, HasFirst};

use c_names::{Earlier, ScopedNodes};
use std::alloc::{AllocError, Global};

/// For each name, by its node, the node of its first declaration in its scope.
pub fn first_declarations(
    alloc: Global,
    scoped: &ScopedNodes,
    earlier: &[Earlier],
) -> Result<Vec<Option<usize>>, AllocError>
    requires { AreEarlier scoped.now earlier.now }
    ensures { IfOk result (λ found. AreFirsts scoped.now found.items) }
{
    let mut found = Vec::new(alloc);
    found.resize(scoped.len(), None)?;
    put_firsts(scoped, earlier, &mut found);
    Ok(found)
}

fn put_firsts(scoped: &ScopedNodes, earlier: &[Earlier], found: &mut [Option<usize>])
    requires earlier { AreEarlier scoped.now earlier.now }
    requires start { found.old ≡ replicate (length scoped.now) None }
    ensures { AreFirsts scoped.now found.new }
{
    for number in 0..scoped.len() {
        put_first(scoped, earlier, found, number);
    }
}

// Puts that of the name whose scope begins behind a node.
fn put_first(scoped: &ScopedNodes, earlier: &[Earlier], found: &mut [Option<usize>], number: usize)
    requires within { number < length scoped.now }
    requires earlier { AreEarlier scoped.now earlier.now }
    requires found { AreFirstsBefore scoped.now number found.old }
    ensures { AreFirstsBefore scoped.now (number + 1) found.new }
{
    if let Some(node) = scoped.begun(number) {
        found[node] = first_of(scoped, earlier, found, number, node);
    }
}

// The first declaration of the name of a node, which begins behind another one: that of the one before it.
fn first_of(
    scoped: &ScopedNodes,
    earlier: &[Earlier],
    found: &[Option<usize>],
    behind: usize,
    node: usize,
) -> Option<usize>
    requires within { behind < length scoped.now }
    requires begins { Begins scoped.now behind node }
    requires earlier { AreEarlier scoped.now earlier.now }
    requires found { AreFirstsBefore scoped.now behind found.now }
    ensures { (b : Begins scoped.now behind node) → HasFirst scoped.now (Some b.name) result }
{
    match earlier[node].last {
        Some(last) => found[last],
        None => Some(node),
    }
}
