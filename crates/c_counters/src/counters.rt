// The counters of the nodes so far.
ghost use Rattle.std.specs.Prelude.{◌≡◌, ◌<◌, ◌≤◌, ◌+◌, ◌^◌, cond, ◌++◌, ◌∷◌, List, [], IfOk, OnErr, OnOk, Some, length, slice_get};
ghost use Rattle.c_typing.specs.Places.{Node, node_at};
ghost use Rattle.c_typing.specs.Names.{Places, objects_of};
ghost use Rattle.c_typing.specs.Judgements.{Judgement, hidden_in};
ghost use Rattle.c_typing.specs.Expressions as expressions;
ghost use Rattle.c_typing.specs.Expressions.{hidden_before, literals_before};
ghost use Rattle.c_typing.specs.Typing.{locals_of};
ghost use Rattle.c_nodes.specs.Parents.{nodes_in};
ghost use Rattle.c_names.specs.Denoted.{places_in};
ghost use Rattle.c_symbols.specs.Symbols.{AreLocalsOf, AreObjectsOf};
ghost use Rattle.c_counters.specs.Counters.{AreCounted};

use crate::named::{first_around, named_around, named_in};
use crate::sums::{taken_from, whole};
use c_nodes::Nodes;
use c_symbols::{Locals, Objects};
use std::alloc::{AllocError, Global};

/// What is counted in the nodes so far.
#[derive(Drop)]
pub struct Counters {
    // For each node so far, and for their number, how many hidden locals the nodes before it take.
    sums: Vec<usize>,
    // How many string literals are objects.
    literals: usize,
}

impl Counters {
    /// Before the first node.
    pub fn new(alloc: Global) -> Result<Counters, AllocError>
        ensures { IfOk result (λ c. (p : Places) → AreCounted p [] c) }
    {
        let mut sums = Vec::new(alloc);
        sums.push(0)?;
        Ok(Counters { sums, literals: 0 })
    }

    /// Goes on behind a node that takes so many hidden locals, at most 2, and is a string literal that is an object or is not.
    pub fn push(&mut self, hidden: usize, is_literal: bool) -> Result<(), AllocError>
        requires few { hidden ≤ 2 }
        requires counted { (p : Places) × (js : List Judgement) × AreCounted p js self.old }
        ensures next { OnOk result ((p : Places) (js : List Judgement) (node : Node) (j : Judgement) → AreCounted p js self.old →
            slice_get p.nodes (length js) ≡ Some node → hidden_in j ≡ hidden → expressions.is_literal (node, j) ≡ is_literal →
            AreCounted p (js ++ j ∷ []) self.new) }
        ensures err { OnErr result ((p : Places) (js : List Judgement) → AreCounted p js self.old → AreCounted p js self.new) }
    {
        let sum = whole(&self.sums) + hidden;
        self.sums.push(sum)?;
        self.literals = literals_with(self.literals, is_literal);
        Ok(())
    }

    /// The number of the first hidden local that the next node may take, which is this one.
    pub fn first_hidden(&self, nodes: &Nodes, locals: &Locals, number: usize) -> usize
        requires within { number < length nodes.now }
        requires locals { AreLocalsOf nodes.now locals.now }
        requires counted { (js : List Judgement) × AreCounted (places_in nodes.now) js self.now }
        ensures { (js : List Judgement) → AreCounted (places_in nodes.now) js self.now → length js ≡ number → result ≡ hidden_before (places_in nodes.now) js }
    {
        named_around(nodes, locals, number)
            + taken_from(&self.sums, first_around(nodes, locals, number))
    }

    /// How many locals a function has, with those that its nodes so far take.
    pub fn locals_in(&self, nodes: &Nodes, locals: &Locals, function: usize) -> usize
        requires within { function < length nodes.now }
        requires locals { AreLocalsOf nodes.now locals.now }
        requires counted { (js : List Judgement) × AreCounted (places_in nodes.now) js self.now }
        ensures { (js : List Judgement) → AreCounted (places_in nodes.now) js self.now →
            result ≡ locals_of (places_in nodes.now) js (node_at (nodes_in nodes.now) function) }
    {
        named_in(nodes, locals, function) + taken_from(&self.sums, nodes.first(function))
    }

    /// The number of the next string literal among the objects of the unit.
    pub fn next_literal(&self, nodes: &Nodes, objects: &Objects) -> usize
        requires objects { AreObjectsOf nodes.now objects.now }
        requires counted { (js : List Judgement) × AreCounted (places_in nodes.now) js self.now }
        ensures { (js : List Judgement) → AreCounted (places_in nodes.now) js self.now →
            result ≡ length (objects_of (places_in nodes.now)) + literals_before (places_in nodes.now) js }
    {
        count_of(&objects.nodes) + literals_so_far(&self.sums, self.literals)
    }
}

// With one more, or not.
fn literals_with(literals: usize, is_literal: bool) -> usize
    requires { literals < 2 ^ 60 }
    ensures { result ≡ literals + cond is_literal 1 0 }
{
    if is_literal { literals + 1 } else { literals }
}

fn count_of(numbers: &[usize]) -> usize
    ensures is { result ≡ length numbers.now }
    ensures few { result < 2 ^ 60 }
{
    numbers.len()
}

// They are no more than there are sums.
fn literals_so_far(sums: &[usize], literals: usize) -> usize
    requires { literals < length sums.now }
    ensures is { result ≡ literals }
    ensures few { result < 2 ^ 60 }
{
    literals
}
