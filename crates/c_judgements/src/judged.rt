// The judgements of the nodes so far.
ghost use Rattle.std.specs.Prelude.{◌≡◌, ◌<◌, ◌++◌, ◌∷◌, [], ℕ, List, None, OnErr, OnOk, Some, MatchOption, false, true, map, get_or, is_some, length, slice_set};
ghost use Rattle.c_types.specs.declared.tree.Cell.{Cell};
ghost use Rattle.c_typing.specs.Types as types;
ghost use Rattle.c_typing.specs.Types.{CType, Field, Layout};
ghost use Rattle.c_typing.specs.Expressions.{word_of_enumerator};
ghost use Rattle.c_typing.specs.Declarators.{members_of};
ghost use Rattle.c_typing.specs.Typing.{defined_in};
ghost use Rattle.c_typing.specs.Judgements as rules;
ghost use Rattle.c_typing.specs.Statements as statements;
ghost use Rattle.c_type_ids.specs.Ids.{AreMembers, Known, Names};
ghost use Rattle.c_values.specs.Typings.{Is, IsType};
ghost use Rattle.c_declared_types.specs.Steps.{AreSteps};
ghost use Rattle.c_judgements.specs.Judged.{AreJudged, IsItem, IsJudged, IsLeft, has_cells, has_code, initial_in, initialized_in, is_filling, is_taken, taken, without_cells, without_code, wrapped};

use c_declared_types::Steps;
use c_types::{Cells, Func, Stmts, TypeId};
use c_values::{Type, Typing};
use cp_base::{Items, Name};
use std::alloc::{AllocError, Global};
use std::mem;

/// The members of a struct in order, or those of one declaration.
pub type Members = Items<(Name, TypeId)>;

/// What the rules say of a node: what it means, where it breaks none. Of an expression the hidden locals are counted elsewhere.
#[derive(Drop)]
pub enum Judged {
    /// All that it means stands in its text.
    Itself,
    /// Specs, their words, a name of a type.
    Type(Type),
    /// A struct with its body, which is in the table of types, by its type.
    Struct(TypeId),
    Members(Members),
    /// The value of an enumerator.
    Enumerates(u32),
    /// A part of a declarator.
    Steps(Steps),
    /// A whole declarator or a parameter.
    Declares(Type),
    Expresses(Typing),
    /// A string that initializes an array.
    FillsArray,
    /// A braced initializer: how many elements it gives an array, and its cells, with offsets modulo 2^32.
    Initial(usize, Cells),
    /// A declarator with its initializer: the type; what it does where it is reached, and the cells of a static object, until
    /// they are taken.
    Initialized(Type, Option<Stmts>, Option<Cells>),
    /// A statement, or a declaration in a block.
    Performs(Stmts),
    /// A label of a `switch`; the default has no word.
    Labels(Option<u32>),
    Defines(Func),
    BreaksRules,
    /// A part that it needs has no meaning.
    Waits,
    /// What it means is now a part of another node.
    Taken,
}

/// What stands in a `switch`.
#[derive(Drop)]
pub enum Item {
    Label(Option<u32>),
    Statements(Stmts),
}

/// The judgements of the nodes so far, in order.
#[derive(Drop)]
pub struct Judgements {
    pub slots: Vec<Judged>,
}

impl Judgements {
    pub fn new(alloc: Global) -> Judgements
        ensures { (k : Known) → AreJudged k result.slots.items [] }
    {
        Judgements {
            slots: Vec::new(alloc),
        }
    }

    /// The judgement of the next node.
    pub fn push(&mut self, judged: Judged) -> Result<(), AllocError>
        ensures slots { OnOk result (self.new.slots.items ≡ self.old.slots.items ++ judged ∷ []) }
        ensures err { OnErr result (self.new.slots.items ≡ self.old.slots.items) }
        ensures are { OnOk result ((k : Known) (js : List rules.Judgement) (j : rules.Judgement) → AreJudged k self.old.slots.items js → IsJudged k judged j →
            AreJudged k self.new.slots.items (js ++ j ∷ [])) }
    {
        self.slots.push(judged)?;
        Ok(())
    }

    /// The type that specs, a declarator, a parameter or a name of a type has.
    pub fn type_at(&self, node: usize) -> Option<Type>
        requires within { node < length self.now.slots.items }
        ensures { (k : Known) (js : List rules.Judgement) → AreJudged k self.now.slots.items js →
            MatchOption result (rules.type_at js node ≡ None) (λ kind. (t : CType) × (rules.type_at js node ≡ Some t) × IsType k kind t) }
    {
        match &self.slots[node] {
            Judged::Type(kind) | Judged::Declares(kind) | Judged::Initialized(kind, _, _) => Some(
                *kind,
            ),
            _ => None,
        }
    }

    /// The expression of a node, which is a part of another one from now on.
    pub fn take_typing(&mut self, node: usize) -> Option<Typing>
        requires within { node < length self.old.slots.items }
        requires there { is_taken (get_or self.old.slots.items node taken) ≡ false }
        ensures is { (k : Known) (js : List rules.Judgement) → AreJudged k self.old.slots.items js →
            MatchOption result (rules.typing_at js node ≡ None) (λ x. (y : rules.Typing) × (rules.typing_at js node ≡ Some y) × Is k x y) }
        ensures left { IsLeft self.old.slots.items node (is_some result) self.new.slots.items }
    {
        match mem::replace(&mut self.slots[node], Judged::Taken) {
            Judged::Expresses(typing) => Some(typing),
            other => {
                self.put_back(node, other);
                None
            }
        }
    }

    /// The steps of a part of a declarator.
    pub fn take_steps(&mut self, node: usize) -> Option<Steps>
        requires within { node < length self.old.slots.items }
        requires there { is_taken (get_or self.old.slots.items node taken) ≡ false }
        ensures is { (k : Known) (js : List rules.Judgement) → AreJudged k self.old.slots.items js →
            MatchOption result (rules.steps_at js node ≡ None) (λ ss. (rs : List rules.PlacedStep) × (rules.steps_at js node ≡ Some rs) × AreSteps k ss rs) }
        ensures left { IsLeft self.old.slots.items node (is_some result) self.new.slots.items }
    {
        match mem::replace(&mut self.slots[node], Judged::Taken) {
            Judged::Steps(steps) => Some(steps),
            other => {
                self.put_back(node, other);
                None
            }
        }
    }

    /// What a statement does.
    pub fn take_code(&mut self, node: usize) -> Option<Stmts>
        requires within { node < length self.old.slots.items }
        requires there { is_taken (get_or self.old.slots.items node taken) ≡ false }
        ensures is { (k : Known) (js : List rules.Judgement) → AreJudged k self.old.slots.items js →
            MatchOption result (rules.code_at js node ≡ None) (λ ss. rules.code_at js node ≡ Some ss) }
        ensures left { IsLeft self.old.slots.items node (is_some result) self.new.slots.items }
    {
        match mem::replace(&mut self.slots[node], Judged::Taken) {
            Judged::Performs(code) => Some(code),
            other => {
                self.put_back(node, other);
                None
            }
        }
    }

    /// The members of a declaration in a struct.
    pub fn take_members(&mut self, node: usize) -> Option<Members>
        requires within { node < length self.old.slots.items }
        requires there { is_taken (get_or self.old.slots.items node taken) ≡ false }
        ensures is { (k : Known) (js : List rules.Judgement) → AreJudged k self.old.slots.items js →
            MatchOption result (members_of (rules.judgement_at js node) ≡ None) (λ x. (fields : List Field) × (members_of (rules.judgement_at js node) ≡ Some fields) × AreMembers k x fields) }
        ensures left { IsLeft self.old.slots.items node (is_some result) self.new.slots.items }
    {
        match mem::replace(&mut self.slots[node], Judged::Taken) {
            Judged::Members(members) => Some(members),
            other => {
                self.put_back(node, other);
                None
            }
        }
    }

    /// A function that is defined.
    pub fn take_function(&mut self, node: usize) -> Option<Func>
        requires within { node < length self.old.slots.items }
        requires there { is_taken (get_or self.old.slots.items node taken) ≡ false }
        ensures is { (k : Known) (js : List rules.Judgement) → AreJudged k self.old.slots.items js →
            MatchOption result (defined_in (rules.judgement_at js node) ≡ None) (λ x. defined_in (rules.judgement_at js node) ≡ Some x) }
        ensures left { IsLeft self.old.slots.items node (is_some result) self.new.slots.items }
    {
        match mem::replace(&mut self.slots[node], Judged::Taken) {
            Judged::Defines(function) => Some(function),
            other => {
                self.put_back(node, other);
                None
            }
        }
    }

    /// The type of a struct with its body.
    pub fn struct_at(&self, node: usize) -> Option<TypeId>
        requires within { node < length self.now.slots.items }
        ensures { (k : Known) (js : List rules.Judgement) → AreJudged k self.now.slots.items js →
            MatchOption result (rules.layout_in (rules.judgement_at js node) ≡ None)
            (λ id. (l : Layout) × (rules.layout_in (rules.judgement_at js node) ≡ Some l) × Names k id (types.struct l.number)) }
    {
        match &self.slots[node] {
            Judged::Struct(id) => Some(*id),
            _ => None,
        }
    }

    /// The value of an enumerator.
    pub fn word_at(&self, node: usize) -> Option<u32>
        requires within { node < length self.now.slots.items }
        ensures { (k : Known) (js : List rules.Judgement) → AreJudged k self.now.slots.items js → result ≡ word_of_enumerator (rules.judgement_at js node) }
    {
        match &self.slots[node] {
            Judged::Enumerates(word) => Some(*word),
            _ => None,
        }
    }

    /// The node is a string that initializes an array.
    pub fn fills_array(&self, node: usize) -> bool
        requires within { node < length self.now.slots.items }
        ensures { (k : Known) (js : List rules.Judgement) → AreJudged k self.now.slots.items js → result ≡ is_filling (rules.judgement_at js node) }
    {
        matches!(&self.slots[node], Judged::FillsArray)
    }

    /// What stands in a `switch`.
    pub fn take_item(&mut self, node: usize) -> Option<Item>
        requires within { node < length self.old.slots.items }
        requires there { is_taken (get_or self.old.slots.items node taken) ≡ false }
        ensures is { (k : Known) (js : List rules.Judgement) → AreJudged k self.old.slots.items js →
            MatchOption result (statements.item_at js node ≡ None) (λ i. (r : statements.Item) × (statements.item_at js node ≡ Some r) × IsItem i r) }
        ensures left { IsLeft self.old.slots.items node (is_some result) self.new.slots.items }
    {
        match mem::replace(&mut self.slots[node], Judged::Taken) {
            Judged::Labels(word) => Some(Item::Label(word)),
            Judged::Performs(code) => Some(Item::Statements(code)),
            other => {
                self.put_back(node, other);
                None
            }
        }
    }

    /// How many elements braces give an array, and the cells.
    pub fn take_initial(&mut self, node: usize) -> Option<(usize, Cells)>
        requires within { node < length self.old.slots.items }
        requires there { is_taken (get_or self.old.slots.items node taken) ≡ false }
        ensures is { (k : Known) (js : List rules.Judgement) → AreJudged k self.old.slots.items js →
            MatchOption result (initial_in (rules.judgement_at js node) ≡ None)
            (λ i. (count : ℕ) × (cells : List Cell) × (initial_in (rules.judgement_at js node) ≡ Some (count, cells)) × (i.0 ≡ count) × (i.1 ≡ map wrapped cells)) }
        ensures left { IsLeft self.old.slots.items node (is_some result) self.new.slots.items }
    {
        match mem::replace(&mut self.slots[node], Judged::Taken) {
            Judged::Initial(count, cells) => Some((count, cells)),
            other => {
                self.put_back(node, other);
                None
            }
        }
    }

    /// What a declarator does where it is reached.
    pub fn take_declared_code(&mut self, node: usize) -> Option<Stmts>
        requires within { node < length self.old.slots.items }
        requires there { has_code (get_or self.old.slots.items node taken) ≡ true }
        ensures is { (k : Known) (js : List rules.Judgement) → AreJudged k self.old.slots.items js →
            MatchOption result (statements.declarator_code (rules.judgement_at js node) ≡ None) (λ code. statements.declarator_code (rules.judgement_at js node) ≡ Some code) }
        ensures left { self.new.slots.items ≡ slice_set self.old.slots.items node (without_code (get_or self.old.slots.items node taken)) }
    {
        match mem::replace(&mut self.slots[node], Judged::Taken) {
            Judged::Initialized(kind, code, cells) => {
                self.put_back(node, Judged::Initialized(kind, None, cells));
                code
            }
            other => {
                self.put_back(node, other);
                None
            }
        }
    }

    /// The cells that a declarator gives a static object.
    pub fn take_cells(&mut self, node: usize) -> Option<Cells>
        requires within { node < length self.old.slots.items }
        requires there { has_cells (get_or self.old.slots.items node taken) ≡ true }
        ensures is { (k : Known) (js : List rules.Judgement) → AreJudged k self.old.slots.items js →
            MatchOption result (initialized_in (rules.judgement_at js node) ≡ None)
            (λ found. (cells : List Cell) × (initialized_in (rules.judgement_at js node) ≡ Some cells) × (found ≡ map wrapped cells)) }
        ensures left { self.new.slots.items ≡ slice_set self.old.slots.items node (without_cells (get_or self.old.slots.items node taken)) }
    {
        match mem::replace(&mut self.slots[node], Judged::Taken) {
            Judged::Initialized(kind, code, cells) => {
                self.put_back(node, Judged::Initialized(kind, code, None));
                cells
            }
            other => {
                self.put_back(node, other);
                None
            }
        }
    }

    fn put_back(&mut self, node: usize, judged: Judged)
        requires { node < length self.old.slots.items }
        ensures { self.new.slots.items ≡ slice_set self.old.slots.items node judged }
    {
        self.slots[node] = judged;
    }
}
