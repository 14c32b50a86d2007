// All of it.
ghost use Rattle.std.specs.Prelude.{◌≡◌, IfOk};
ghost use Rattle.c_names.specs.Denoted.{IsOfTokens};
ghost use Rattle.c_symbols.specs.Symbols.{AreNamed, AreSymbols};

use crate::around::{Around, around_of};
use crate::locals::{Locals, locals_of};
use crate::names::{Names, names_of};
use crate::objects::{Objects, objects_of};
use c_names::ScopedNodes;
use c_nodes::Nodes;
use std::alloc::{AllocError, Global};

/// What is known of a tree before its types.
#[derive(Drop)]
pub struct Symbols {
    pub names: Names,
    pub objects: Objects,
    pub locals: Locals,
    pub around: Around,
}

/// All that is known of a tree that some tokens derive.
pub fn symbols_of(alloc: Global, nodes: &Nodes) -> Result<Symbols, AllocError>
    requires { IsOfTokens nodes.now }
    ensures { IfOk result (AreSymbols nodes.now) }
{
    let scoped = ScopedNodes::of(alloc, nodes)?;
    let names = names_of(alloc, &scoped)?;
    symbols_with(alloc, nodes, &scoped, names)
}

fn symbols_with(
    alloc: Global,
    nodes: &Nodes,
    scoped: &ScopedNodes,
    names: Names,
) -> Result<Symbols, AllocError>
    requires tokens { IsOfTokens nodes.now }
    requires same { scoped.now ≡ nodes.now }
    requires names { AreNamed nodes.now names }
    ensures { IfOk result (AreSymbols nodes.now) }
{
    let objects = objects_of(alloc, scoped, &names)?;
    let locals = locals_of(alloc, nodes, &names)?;
    let around = around_of(alloc, nodes, scoped, &names)?;
    Ok(Symbols {
        names,
        objects,
        locals,
        around,
    })
}
