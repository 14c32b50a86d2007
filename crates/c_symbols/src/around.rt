// What stands around nodes.
ghost use Rattle.std.specs.Prelude.{◌≡◌, IfOk};
ghost use Rattle.c_contexts.specs.Contexts.{AreCalled, AreFunctionSpecs};
ghost use Rattle.c_symbols.specs.Symbols.{AreNamed, StandAround};

use crate::names::Names;
use c_contexts::{called_nodes, function_specs};
use c_names::ScopedNodes;
use c_nodes::{Kinds, Nodes, enclosing};
use std::alloc::{AllocError, Global};

/// For each node what it stands in, and in front of.
#[derive(Drop)]
pub struct Around {
    /// The innermost loop, or the number of nodes.
    pub loops: Vec<usize>,
    /// The innermost loop or `switch`, or the number of nodes.
    pub jumps: Vec<usize>,
    /// The innermost declarator with its initializer, or the number of nodes.
    pub initialized: Vec<usize>,
    /// It is what a call calls, parentheses aside.
    pub called: Vec<bool>,
    /// A function is declared behind it as its specs.
    pub before_functions: Vec<bool>,
}

pub(crate) fn around_of(
    alloc: Global,
    nodes: &Nodes,
    scoped: &ScopedNodes,
    names: &Names,
) -> Result<Around, AllocError>
    requires same { scoped.now ≡ nodes.now }
    requires names { AreNamed nodes.now names.now }
    ensures { IfOk result (StandAround nodes.now) }
{
    let called = called_nodes(alloc, nodes)?;
    let before_functions = function_specs(alloc, scoped, &names.declared)?;
    around_with(alloc, nodes, called, before_functions)
}

fn around_with(
    alloc: Global,
    nodes: &Nodes,
    called: Vec<bool>,
    before_functions: Vec<bool>,
) -> Result<Around, AllocError>
    requires called { AreCalled nodes.now called.items }
    requires before { AreFunctionSpecs nodes.now before_functions.items }
    ensures { IfOk result (StandAround nodes.now) }
{
    let loops = enclosing(alloc, nodes, Kinds::Loop)?;
    let jumps = enclosing(alloc, nodes, Kinds::LoopOrSwitch)?;
    let initialized = enclosing(alloc, nodes, Kinds::Initialized)?;
    Ok(Around {
        loops,
        jumps,
        initialized,
        called,
        before_functions,
    })
}
