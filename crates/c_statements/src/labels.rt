// The labels of `switch`es (C99 6.8.4.2).
ghost use Rattle.std.specs.Prelude.{◌≡◌, ◌∷◌, ◌++◌, ◌||◌, [], ℕ, List, None, Option, OnErr, OnOk, IfOk, Some, true};
ghost use Rattle.c_typing.specs.Places.{Node};
ghost use Rattle.c_typing.specs.Names.{Places};
ghost use Rattle.c_typing.specs.Judgements as rules;
ghost use Rattle.c_typing.specs.Rules as faults;
ghost use Rattle.c_typing.specs.Statements as statements;
ghost use Rattle.c_typing.specs.Declarators.{word_in};
ghost use Rattle.c_constants.specs.Constants.{constant_of};
ghost use Rattle.c_answers.specs.Answers.{Allows, Settles};
ghost use Rattle.c_statements.specs.Labels.{AreBefore, has_label, is_label};

use c_answers::Refusal;
use c_constants::Constant;
use c_declared_types::constant_word;
use indexmap::IndexSet;
use std::alloc::{AllocError, Global};
use std::marker::Model;

/// A label of the `switch` at a node: a case with its word, or the default.
#[derive(Clone, Copy, Debug, PartialEq, Eq, Hash)]
pub struct Label {
    pub switch: usize,
    pub word: Option<u32>,
}

/// The labels of all `switch`es so far.
#[derive(Drop)]
pub struct Labels {
    seen: IndexSet<Label>,
}

impl Model for Labels {
    ghost use Rattle.std.specs.Prelude.{List};
    ghost use Rattle.c_statements.specs.declared.labels.Label.{Label};

    ghost Value = { List Label };

    ghost view = { λ l. l.seen.keys };
}

impl Labels {
    pub fn new(alloc: Global) -> Labels
        ensures { result ≡ [] }
    {
        Labels {
            seen: IndexSet::new(alloc),
        }
    }

    // The label is there already; it is added.
    fn add(&mut self, label: Label) -> Result<bool, AllocError>
        ensures found { IfOk result (λ found. found ≡ has_label self.old label.switch label.word) }
        ensures added { OnOk result ((switch : ℕ) (word : Option ℕ) → has_label self.new switch word ≡ (has_label self.old switch word || is_label switch word label)) }
        ensures there { IfOk result (λ found. found ≡ true → self.new ≡ self.old) }
        ensures err { OnErr result (self.new ≡ self.old) }
    {
        match self.seen.insert(label) {
            Ok(is_new) => Ok(!is_new),
            Err(_) => Err(AllocError),
        }
    }
}

/// A case of the `switch` at this node: its word, by the constant at a node of its own (rules 8, 9 and 26). After a refusal the
/// labels are as before.
pub fn case_label(
    labels: &mut Labels,
    switch: usize,
    constant: Constant,
    constant_node: usize,
    node: usize,
) -> Result<u32, Refusal>
    ensures is { (p : Places) (js : List rules.Judgement) (n : Node) (c : rules.Constant) → n.id ≡ node → AreBefore labels.old switch p js n → constant_of constant ≡ c →
        Settles (λ w. w ≡ word_in c) result (faults.not_constant c constant_node ++ faults.out_of_range c ++ statements.repeated_case p js n c) }
    ensures added { (s : ℕ) (word : Option ℕ) → IfOk result (λ w. has_label labels.new s word ≡ (has_label labels.old s word || is_label s word (record { switch = switch; word = Some w }))) }
    ensures err { OnErr result (labels.new ≡ labels.old) }
{
    let word = constant_word(constant, constant_node)?;
    check_new(labels, switch, Some(word), node)?;
    Ok(word)
}

/// The default of the `switch` at this node (rule 26). After a refusal the labels are as before.
pub fn default_label(labels: &mut Labels, switch: usize, node: usize) -> Result<(), Refusal>
    ensures is { (p : Places) (js : List rules.Judgement) (n : Node) → n.id ≡ node → AreBefore labels.old switch p js n →
        Allows result (faults.case_twice (statements.has_before p js n None) node) }
    ensures added { (s : ℕ) (word : Option ℕ) → OnOk result (has_label labels.new s word ≡ (has_label labels.old s word || is_label s word (record { switch = switch; word = None }))) }
    ensures err { OnErr result (labels.new ≡ labels.old) }
{
    check_new(labels, switch, None, node)
}

// The label is none of these; it is added.
fn check_new(
    labels: &mut Labels,
    switch: usize,
    word: Option<u32>,
    node: usize,
) -> Result<(), Refusal>
    ensures is { Allows result (faults.case_twice (has_label labels.old switch word) node) }
    ensures added { (s : ℕ) (w : Option ℕ) → OnOk result (has_label labels.new s w ≡ (has_label labels.old s w || is_label s w (record { switch = switch; word = word }))) }
    ensures err { OnErr result (labels.new ≡ labels.old) }
{
    if labels.add(Label { switch, word })? {
        return Err(Refusal::Broken { rule: 26, node });
    }
    Ok(())
}
