// What stands in a `switch`, in groups (C99 6.8.4.2, 7).
ghost use Rattle.std.specs.Prelude.{◌≡◌, ◌∷◌, ◌++◌, [], List, OnOk, Option};
ghost use Rattle.c_typing.specs.Statements as statements;
ghost use Rattle.c_statements.specs.Groups.{AreGroups};

use c_types::{Group, Groups, Stmt};
use cp_base::Items;
use std::alloc::{AllocError, Global};

/// The groups of the labels and statements so far. What stands before the first label is in none.
#[derive(Drop)]
pub struct Grouping {
    groups: Groups,
}

impl Grouping {
    pub fn new(alloc: Global) -> Grouping
        ensures { AreGroups result.groups [] }
    {
        Grouping {
            groups: Items::new(alloc),
        }
    }

    /// A statement stands behind the last label.
    pub fn add_statement(&mut self, stmt: Stmt) -> Result<(), AllocError>
        ensures { OnOk result ((items : List statements.Item) → AreGroups self.old.groups items → AreGroups self.new.groups (items ++ statements.a_statement stmt ∷ [])) }
    {
        let Some(mut group) = self.groups.pop() else {
            return Ok(());
        };
        group.body.push(stmt)?;
        self.groups.push(group)
    }

    /// A label, which is a word or the default, begins a group, or stands beside the labels of one that has no statement yet.
    pub fn add_label(&mut self, alloc: Global, word: Option<u32>) -> Result<(), AllocError>
        ensures { OnOk result ((items : List statements.Item) → AreGroups self.old.groups items → AreGroups self.new.groups (items ++ statements.a_label word ∷ [])) }
    {
        let Some(mut group) = self.groups.pop() else {
            return self.begin(alloc, word);
        };
        if !group.body.is_empty() {
            self.groups.push(group)?;
            return self.begin(alloc, word);
        }
        match word {
            Some(word) => group.labels.push(word)?,
            None => group.other = true,
        }
        self.groups.push(group)
    }

    // A group of one label.
    fn begin(&mut self, alloc: Global, word: Option<u32>) -> Result<(), AllocError>
        ensures { OnOk result (self.new.groups ≡ self.old.groups ++ statements.label_group word [] ∷ []) }
    {
        let mut labels = Items::new(alloc);
        if let Some(word) = word {
            labels.push(word)?;
        }
        self.groups.push(Group {
            labels,
            other: word.is_none(),
            body: Items::new(alloc),
        })
    }

    pub fn finish(self) -> Groups
        ensures { result ≡ self.groups }
    {
        self.groups
    }
}
