// The innermost node of some kinds that each node stands in.
ghost use Rattle.std.specs.Prelude.{◌≡◌, ◌<◌, IfOk, length, replicate};
ghost use Rattle.c_nodes.specs.Around.{AreAround, accepts};
ghost use Rattle.c_nodes.specs.Parents.{nodes_in};

use crate::nodes::Nodes;
use crate::spans::paint;
use c_syntax::SynKind;
use std::alloc::{AllocError, Global};

/// Kinds of nodes that others stand in.
#[derive(Clone, Copy, Debug, PartialEq, Eq)]
pub enum Kinds {
    Function,
    Loop,
    LoopOrSwitch,
    Initialized,
}

impl Kinds {
    fn accepts(self, kind: SynKind) -> bool
        ensures { result ≡ accepts self kind }
    {
        match kind {
            SynKind::Function => matches!(self, Kinds::Function),
            SynKind::While | SynKind::Do | SynKind::For => {
                matches!(self, Kinds::Loop | Kinds::LoopOrSwitch)
            }
            SynKind::Switch => matches!(self, Kinds::LoopOrSwitch),
            SynKind::InitDecl => matches!(self, Kinds::Initialized),
            _ => false,
        }
    }
}

/// For each node, the innermost node of these kinds that it stands in, which may be the node itself; where there is none,
/// the number of nodes.
pub fn enclosing(alloc: Global, nodes: &Nodes, kinds: Kinds) -> Result<Vec<usize>, AllocError>
    ensures { IfOk result (λ found. AreAround kinds nodes.now found.items) }
{
    let mut found = Vec::new(alloc);
    found.resize(nodes.len(), nodes.len())?;
    put_enclosing(&mut found, nodes, kinds);
    Ok(found)
}

// Writes the outer ones first.
fn put_enclosing(found: &mut [usize], nodes: &Nodes, kinds: Kinds)
    requires { found.old ≡ replicate (length nodes.now) (length nodes.now) }
    ensures { AreAround kinds nodes.now found.new }
{
    let mut number = nodes.len();
    while number > 0 {
        number -= 1;
        if kinds.accepts(nodes.node(number).kind) {
            paint(found, nodes.first(number), number, number);
        }
    }
}
