// The locals of functions.
ghost use Rattle.std.specs.Prelude.{IfOk};
ghost use Rattle.c_nodes.specs.Declarators.{AreNext};
ghost use Rattle.c_names.specs.Denoted.{IsOfTokens};
ghost use Rattle.c_locals.specs.Locals.{AreOwners};
ghost use Rattle.c_symbols.specs.Symbols.{AreLocalsOf, AreNamed};

use crate::names::Names;
use c_locals::{automatic_counts, functions_around, local_numbers};
use c_nodes::{Nodes, next_parts};
use std::alloc::{AllocError, Global};

/// For each node the function that it stands in, and the number of the local that it declares.
#[derive(Drop)]
pub struct Locals {
    /// The next part of the declarator that a node is a part of.
    pub next: Vec<usize>,
    /// The function that a node stands in, or the number of nodes.
    pub functions: Vec<usize>,
    /// How many automatic objects with names come before a node.
    pub counts: Vec<usize>,
    pub numbers: Vec<Option<usize>>,
}

pub(crate) fn locals_of(alloc: Global, nodes: &Nodes, names: &Names) -> Result<Locals, AllocError>
    requires tokens { IsOfTokens nodes.now }
    requires names { AreNamed nodes.now names.now }
    ensures { IfOk result (AreLocalsOf nodes.now) }
{
    let next = next_parts(alloc, nodes)?;
    let functions = functions_around(alloc, nodes)?;
    locals_with(alloc, nodes, names, next, functions)
}

fn locals_with(
    alloc: Global,
    nodes: &Nodes,
    names: &Names,
    next: Vec<usize>,
    functions: Vec<usize>,
) -> Result<Locals, AllocError>
    requires tokens { IsOfTokens nodes.now }
    requires names { AreNamed nodes.now names.now }
    requires next { AreNext nodes.now next.items }
    requires functions { AreOwners nodes.now functions.items }
    ensures { IfOk result (AreLocalsOf nodes.now) }
{
    let counts = automatic_counts(alloc, nodes, &names.declared)?;
    let numbers = local_numbers(alloc, nodes, &next, &functions, &counts, &names.declared)?;
    Ok(Locals {
        next,
        functions,
        counts,
        numbers,
    })
}
