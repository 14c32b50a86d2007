// How a declarator makes a type, step by step from the name on outwards (C99 6.7.5).
ghost use Rattle.std.specs.Prelude.{◌++◌, ◌∷◌, [], List, OnOk, OnErr};
ghost use Rattle.c_typing.specs.Judgements as rules;
ghost use Rattle.c_type_ids.specs.Ids.{Known};
ghost use Rattle.c_declared_types.specs.Steps.{AreSteps, IsStep};

use c_types::TypeList;
use std::alloc::{AllocError, Global};

#[derive(Drop)]
pub enum Step {
    ToPointer,
    OfArray(u32),
    /// An array that is a parameter is a pointer.
    OfParameter,
    OfFunction(TypeList),
}

#[derive(Drop)]
pub(crate) struct PlacedStep {
    pub(crate) node: usize,
    pub(crate) step: Step,
}

/// The steps of a declarator; the last one takes the type of the specs.
#[derive(Drop)]
pub struct Steps {
    /// Where the name is that of an array whose initializer is to give its length: its node.
    pub(crate) without_length: Option<usize>,
    pub(crate) outer: Vec<PlacedStep>,
}

impl Steps {
    /// A name alone.
    pub fn new(alloc: Global) -> Steps
        ensures { (k : Known) → AreSteps k result [] }
    {
        Steps {
            without_length: None,
            outer: Vec::new(alloc),
        }
    }

    /// A name of an array whose initializer is to give its length.
    pub fn without_length(alloc: Global, node: usize) -> Steps
        ensures { (k : Known) → AreSteps k result (record { node = node; step = rules.of_unsized } ∷ []) }
    {
        Steps {
            without_length: Some(node),
            outer: Vec::new(alloc),
        }
    }

    /// One more step, at this node.
    pub fn push(&mut self, node: usize, step: Step) -> Result<(), AllocError>
        ensures ok { OnOk result ((k : Known) (ss : List rules.PlacedStep) (s : rules.Step) → AreSteps k self.old ss → IsStep k step s →
            AreSteps k self.new (ss ++ record { node = node; step = s } ∷ [])) }
        ensures err { OnErr result ((k : Known) (ss : List rules.PlacedStep) → AreSteps k self.old ss → AreSteps k self.new ss) }
    {
        self.outer.push(PlacedStep { node, step })?;
        Ok(())
    }
}
