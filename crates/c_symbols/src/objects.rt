// The objects with names of a unit.
ghost use Rattle.std.specs.Prelude.{IfOk};
ghost use Rattle.c_objects.specs.Firsts.{AreFirsts};
ghost use Rattle.c_objects.specs.Objects.{AreDefined};
ghost use Rattle.c_symbols.specs.Symbols.{AreNamed, AreObjectsOf};

use crate::names::Names;
use c_names::ScopedNodes;
use c_objects::{declarations, defined_objects, first_declarations, object_numbers, objects};
use std::alloc::{AllocError, Global};

/// The objects that are defined, in order, and for each node what it has to do with them.
#[derive(Drop)]
pub struct Objects {
    /// One of the declarations of the name of a node defines an object.
    pub defined: Vec<bool>,
    /// The nodes of the first declarations.
    pub nodes: Vec<usize>,
    /// The number of the object that a node declares.
    pub numbers: Vec<Option<usize>>,
    /// For each object the nodes of its declarations.
    pub declarations: Vec<Vec<usize>>,
}

pub(crate) fn objects_of(
    alloc: Global,
    scoped: &ScopedNodes,
    names: &Names,
) -> Result<Objects, AllocError>
    requires { AreNamed scoped.now names.now }
    ensures { IfOk result (AreObjectsOf scoped.now) }
{
    let firsts = first_declarations(alloc, scoped, &names.earlier)?;
    let defined = defined_objects(alloc, scoped, &names.declared, &firsts)?;
    objects_with(alloc, scoped, names, &firsts, defined)
}

fn objects_with(
    alloc: Global,
    scoped: &ScopedNodes,
    names: &Names,
    firsts: &[Option<usize>],
    defined: Vec<bool>,
) -> Result<Objects, AllocError>
    requires names { AreNamed scoped.now names.now }
    requires firsts { AreFirsts scoped.now firsts.now }
    requires defined { AreDefined scoped.now defined.items }
    ensures { IfOk result (AreObjectsOf scoped.now) }
{
    let nodes = objects(alloc, scoped, &names.declared, firsts, &defined)?;
    let numbers = object_numbers(alloc, scoped, &names.declared, firsts, &defined)?;
    let declarations = declarations(alloc, scoped, &numbers, nodes.len())?;
    Ok(Objects {
        defined,
        nodes,
        numbers,
        declarations,
    })
}
