// The specs in front of functions.
ghost use Rattle.std.specs.Prelude.{◌≡◌, ◌<◌, ◌+◌, IfOk, false, length, replicate};
ghost use Rattle.c_names.specs.Names.{AreNames};
ghost use Rattle.c_contexts.specs.Contexts.{AreFunctionSpecs, AreFunctionSpecsBefore};

use c_names::{DeclaredName, ScopedNodes};
use std::alloc::{AllocError, Global};

/// For each node that is specs, that a name of a function stands behind it.
pub fn function_specs(
    alloc: Global,
    scoped: &ScopedNodes,
    names: &[Option<DeclaredName>],
) -> Result<Vec<bool>, AllocError>
    requires { AreNames scoped.now names.now }
    ensures { IfOk result (λ found. AreFunctionSpecs scoped.now found.items) }
{
    let mut found = Vec::new(alloc);
    found.resize(scoped.len(), false)?;
    put_specs(scoped, names, &mut found);
    Ok(found)
}

fn put_specs(scoped: &ScopedNodes, names: &[Option<DeclaredName>], found: &mut [bool])
    requires names { AreNames scoped.now names.now }
    requires start { found.old ≡ replicate (length scoped.now) false }
    ensures { AreFunctionSpecs scoped.now found.new }
{
    for number in 0..scoped.len() {
        put_one(scoped, names, found, number);
    }
}

// Notes the specs of the name that a node declares.
fn put_one(scoped: &ScopedNodes, names: &[Option<DeclaredName>], found: &mut [bool], number: usize)
    requires within { number < length scoped.now }
    requires names { AreNames scoped.now names.now }
    requires found { AreFunctionSpecsBefore scoped.now number found.old }
    ensures { AreFunctionSpecsBefore scoped.now (number + 1) found.new }
{
    let Some(name) = names[number] else {
        return;
    };
    if name.is_function {
        found[scoped.specs(name.owner)] = true;
    }
}
