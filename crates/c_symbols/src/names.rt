// What names denote and declare.
ghost use Rattle.std.specs.Prelude.{IfOk};
ghost use Rattle.c_names.specs.Denoted.{AreDenoted};
ghost use Rattle.c_names.specs.Names.{AreNames};
ghost use Rattle.c_symbols.specs.Symbols.{AreNamed};

use c_names::{
    DeclaredName, Earlier, ScopedNodes, declared_names, denoted, earlier_declarations,
    function_numbers,
};
use std::alloc::{AllocError, Global};

/// For each node what it denotes, what it declares, and what declares that name before.
#[derive(Drop)]
pub struct Names {
    /// The node that declares what a use of a name denotes.
    pub denoted: Vec<Option<usize>>,
    pub declared: Vec<Option<DeclaredName>>,
    pub earlier: Vec<Earlier>,
    /// The number of the function that is defined with the name of a node.
    pub functions: Vec<Option<usize>>,
}

pub(crate) fn names_of(alloc: Global, scoped: &ScopedNodes) -> Result<Names, AllocError>
    ensures { IfOk result (AreNamed scoped.now) }
{
    let denoted = denoted(alloc, scoped)?;
    let declared = declared_names(alloc, scoped, &denoted)?;
    names_with(alloc, scoped, denoted, declared)
}

fn names_with(
    alloc: Global,
    scoped: &ScopedNodes,
    denoted: Vec<Option<usize>>,
    declared: Vec<Option<DeclaredName>>,
) -> Result<Names, AllocError>
    requires denoted { AreDenoted scoped.now denoted.items }
    requires declared { AreNames scoped.now declared.items }
    ensures { IfOk result (AreNamed scoped.now) }
{
    let earlier = earlier_declarations(alloc, scoped, &declared)?;
    let functions = function_numbers(alloc, scoped)?;
    Ok(Names {
        denoted,
        declared,
        earlier,
        functions,
    })
}
