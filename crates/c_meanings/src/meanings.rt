// The types and the judgements so far.
ghost use Rattle.std.specs.Prelude.{◌≡◌, ◌<◌, ◌≤◌, ◌+◌, ℕ, suc, List, [], OnOk, IfOk, MatchOption, Result, Some, None, true, false, length, is_some, get_or};
ghost use Rattle.c_syntax.specs.declared.syntax.SynNode.{SynNode};
ghost use Rattle.c_typing.specs.Types.{CType};
ghost use Rattle.c_typing.specs.Judgements as rules;
ghost use Rattle.c_typing.specs.Conversions as conversions;
ghost use Rattle.c_typing.specs.Places.{is_braces};
ghost use Rattle.c_type_ids.specs.Ids.{Grows};
ghost use Rattle.c_names.specs.Denoted.{IsDerived};
ghost use Rattle.c_values.specs.Typings.{Is, IsType};
ghost use Rattle.c_declared_types.specs.Steps.{AreSteps};
ghost use Rattle.c_answers.specs.declared.refusal.Refusal.{Refusal};
ghost use Rattle.c_judgements.specs.declared.judged.Judged.{Judged};
ghost use Rattle.c_meanings.specs.declared.meanings.Meanings.{Meanings};
ghost use Rattle.c_judgements.specs.Judged.{taken};
ghost use Rattle.c_meanings.specs.Meanings.{AreLeft, HasKids, IsReady, IsRow, IsSlot, MayTake, judged_to, kid_in, node_in};

use c_declared_types::Steps;
use c_judgements::{Judged, Judgements};
use c_nodes::Nodes;
use c_type_ids::TypeTable;
use c_types::Stmts;
use c_values::{Type, Typing, value_of};
use std::alloc::{AllocError, Global};

/// The types and the judgements of the nodes so far.
#[derive(Drop)]
pub struct Meanings {
    pub types: TypeTable,
    pub judged: Judgements,
}

impl Meanings {
    /// Before the first of the nodes.
    pub fn new(alloc: Global, nodes: &Nodes) -> Result<Meanings, AllocError>
        requires { IsDerived nodes.now }
        ensures { IfOk result (IsReady nodes.now 0 0) }
    {
        let types = TypeTable::new(alloc, nodes.len())?;
        Ok(Meanings {
            types,
            judged: Judgements::new(alloc),
        })
    }

    /// The type that the kid of this index has: specs, a declarator, a parameter or a name of a type.
    pub fn type_at(&self, nodes: &Nodes, node: usize, index: usize) -> Option<Type>
        requires within { node < length nodes.now }
        requires kids { HasKids nodes.now node (suc index) }
        requires ready { (low : ℕ) × IsReady nodes.now node low self.now }
        ensures { MatchOption result (rules.type_at (judged_to nodes.now node) (kid_in nodes.now node index) ≡ None)
            (λ kind. (t : CType) × (rules.type_at (judged_to nodes.now node) (kid_in nodes.now node index) ≡ Some t) × IsType self.now.types kind t) }
    {
        self.judged.type_at(nodes.kid(node, index))
    }

    /// The expression that the kid of this index is.
    pub fn operand_at(&self, nodes: &Nodes, node: usize, index: usize) -> Option<&Typing>
        requires within { node < length nodes.now }
        requires kids { HasKids nodes.now node (suc index) }
        requires ready { MayTake nodes.now node index self.now }
        ensures { MatchOption result (rules.typing_at (judged_to nodes.now node) (kid_in nodes.now node index) ≡ None)
            (λ x. (y : rules.Typing) × (rules.typing_at (judged_to nodes.now node) (kid_in nodes.now node index) ≡ Some y) × Is self.now.types x.now y) }
    {
        match slot(&self.judged, nodes.kid(node, index)) {
            Judged::Expresses(typing) => Some(typing),
            _ => None,
        }
    }

    /// The expression that the kid of this index is, which is a part of the node from now on.
    pub fn take_operand(&mut self, nodes: &Nodes, node: usize, index: usize) -> Typing
        requires within { node < length nodes.now }
        requires kids { HasKids nodes.now node (suc index) }
        requires other { is_braces (node_in nodes.now node).label.kind ≡ false }
        requires ready { MayTake nodes.now node index self.old }
        requires there { is_some (rules.typing_at (judged_to nodes.now node) (kid_in nodes.now node index)) ≡ true }
        ensures is { (y : rules.Typing) → rules.typing_at (judged_to nodes.now node) (kid_in nodes.now node index) ≡ Some y → Is self.new.types result y }
        ensures ready { IsReady nodes.now node (kid_in nodes.now node index + 1) self.new }
        ensures left { AreLeft nodes.now node self.old self.new }
        ensures types { self.new.types ≡ self.old.types }
    {
        match self.judged.take_typing(nodes.kid(node, index)) {
            Some(typing) => typing,
            None => unreachable!(),
        }
    }

    /// The value of the expression that the kid of this index is, which is a part of the node from now on.
    pub fn take_value(
        &mut self,
        alloc: Global,
        nodes: &Nodes,
        node: usize,
        index: usize,
    ) -> Result<Typing, AllocError>
        requires within { node < length nodes.now }
        requires kids { HasKids nodes.now node (suc index) }
        requires other { is_braces (node_in nodes.now node).label.kind ≡ false }
        requires ready { MayTake nodes.now node index self.old }
        requires there { is_some (rules.typing_at (judged_to nodes.now node) (kid_in nodes.now node index)) ≡ true }
        ensures is { IfOk result (λ x. (y : rules.Typing) → rules.typing_at (judged_to nodes.now node) (kid_in nodes.now node index) ≡ Some y → Is self.new.types x (conversions.value_of y)) }
        ensures ready { IsReady nodes.now node (kid_in nodes.now node index + 1) self.new }
        ensures left { AreLeft nodes.now node self.old self.new }
        ensures grows { Grows self.old.types self.new.types }
    {
        let operand = self.take_operand(nodes, node, index);
        value_of(alloc, &mut self.types, operand)
    }

    /// The kid of this index is a statement with a meaning.
    pub fn has_code(&self, nodes: &Nodes, node: usize, index: usize) -> bool
        requires within { node < length nodes.now }
        requires kids { HasKids nodes.now node (suc index) }
        requires ready { MayTake nodes.now node index self.now }
        ensures { result ≡ is_some (rules.code_at (judged_to nodes.now node) (kid_in nodes.now node index)) }
    {
        matches!(
            slot(&self.judged, nodes.kid(node, index)),
            Judged::Performs(_)
        )
    }

    /// What the statement does that the kid of this index is; it is a part of the node from now on.
    pub fn take_code(&mut self, nodes: &Nodes, node: usize, index: usize) -> Stmts
        requires within { node < length nodes.now }
        requires kids { HasKids nodes.now node (suc index) }
        requires other { is_braces (node_in nodes.now node).label.kind ≡ false }
        requires ready { MayTake nodes.now node index self.old }
        requires there { is_some (rules.code_at (judged_to nodes.now node) (kid_in nodes.now node index)) ≡ true }
        ensures is { rules.code_at (judged_to nodes.now node) (kid_in nodes.now node index) ≡ Some result }
        ensures ready { IsReady nodes.now node (kid_in nodes.now node index + 1) self.new }
        ensures left { AreLeft nodes.now node self.old self.new }
        ensures types { self.new.types ≡ self.old.types }
    {
        match self.judged.take_code(nodes.kid(node, index)) {
            Some(code) => code,
            None => unreachable!(),
        }
    }

    /// The steps that the first kid is, a part of a declarator; they are a part of the node from now on.
    pub fn take_steps(&mut self, nodes: &Nodes, node: usize) -> Option<Steps>
        requires within { node < length nodes.now }
        requires kids { HasKids nodes.now node 1 }
        requires other { is_braces (node_in nodes.now node).label.kind ≡ false }
        requires ready { MayTake nodes.now node 0 self.old }
        ensures is { MatchOption result (rules.steps_at (judged_to nodes.now node) (kid_in nodes.now node 0) ≡ None)
            (λ ss. (rs : List rules.PlacedStep) × (rules.steps_at (judged_to nodes.now node) (kid_in nodes.now node 0) ≡ Some rs) × AreSteps self.new.types ss rs) }
        ensures ready { IsReady nodes.now node (kid_in nodes.now node 0 + 1) self.new }
        ensures left { AreLeft nodes.now node self.old self.new }
        ensures types { self.new.types ≡ self.old.types }
    {
        self.judged.take_steps(nodes.kid(node, 0))
    }

    /// Goes on behind a node for which a row has answered this; what breaks a rule is kept as that.
    pub fn push(&mut self, node: usize, judged: Judged) -> Result<(), AllocError>
        requires { (table : List SynNode) × (old : Meanings) × (answer : Result Judged Refusal) × IsReady table node 0 old × (node < length table) × IsRow table node old self.old answer × IsSlot answer judged }
        ensures { OnOk result ((table : List SynNode) (old : Meanings) (answer : Result Judged Refusal) → IsReady table node 0 old → node < length table → IsRow table node old self.old answer → IsSlot answer judged →
            IsReady table (node + 1) 0 self.new) }
    {
        self.judged.push(judged)?;
        Ok(())
    }
}

fn slot(judged: &Judgements, node: usize) -> &Judged
    requires { node < length judged.now.slots.items }
    ensures { result.now ≡ get_or judged.now.slots.items node taken }
{
    &judged.slots[node]
}
