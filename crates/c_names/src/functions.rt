// The numbers of the functions that a unit defines, in their order.
ghost use Rattle.std.specs.Prelude.{◌≡◌, ◌<◌, IfOk, None, length, replicate};
ghost use Rattle.c_typing.specs.Places as places;
ghost use Rattle.c_names.specs.Functions.{AreFirsts, AreNumbers, IsNumber, first_number};

use crate::scoped::ScopedNodes;
use crate::texts::has_name;
use c_syntax::SynKind;
use std::alloc::{AllocError, Global};

/// For each node with a name, the number of the first function that is defined with this name.
pub fn function_numbers(
    alloc: Global,
    scoped: &ScopedNodes,
) -> Result<Vec<Option<usize>>, AllocError>
    ensures { IfOk result (λ found. AreNumbers scoped.now found.items) }
{
    let mut firsts = Vec::new(alloc);
    firsts.resize(scoped.len(), None)?;
    put_firsts(scoped, &mut firsts);
    numbers_by(alloc, scoped, &firsts)
}

// For each text, by the first node that has it.
fn put_firsts(scoped: &ScopedNodes, firsts: &mut [Option<usize>])
    requires { firsts.old ≡ replicate (length scoped.now) None }
    ensures { AreFirsts scoped.now firsts.new }
{
    let mut count = 0;
    for number in 0..scoped.len() {
        if is_function(scoped.kind_at(number)) {
            let text = scoped.function_text(number);
            firsts[text] = first_of(firsts[text], count);
            count += 1;
        }
    }
}

// The first one stays.
fn first_of(first: Option<usize>, number: usize) -> Option<usize>
    ensures { result ≡ first_number first number }
{
    match first {
        Some(first) => Some(first),
        None => Some(number),
    }
}

fn numbers_by(
    alloc: Global,
    scoped: &ScopedNodes,
    firsts: &[Option<usize>],
) -> Result<Vec<Option<usize>>, AllocError>
    requires { AreFirsts scoped.now firsts.now }
    ensures { IfOk result (λ found. AreNumbers scoped.now found.items) }
{
    let mut found = Vec::new(alloc);
    for number in 0..scoped.len() {
        found.push(number_of(scoped, firsts, number))?;
    }
    Ok(found)
}

fn number_of(scoped: &ScopedNodes, firsts: &[Option<usize>], number: usize) -> Option<usize>
    requires within { number < length scoped.now }
    requires firsts { AreFirsts scoped.now firsts.now }
    ensures { IsNumber scoped.now number result }
{
    if has_name(scoped.kind_at(number)) {
        firsts[scoped.text(number)]
    } else {
        None
    }
}

fn is_function(kind: SynKind) -> bool
    ensures { result ≡ places.is_function kind }
{
    matches!(kind, SynKind::Function)
}
