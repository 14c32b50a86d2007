// Scopes by a log and a map.
ghost use Rattle.std.specs.Prelude.{◌≡◌, ◌<◌, ◌++◌, ◌∷◌, [], List, ℕ, drop, map, if◌then◌else◌, IfNone, IfOk, IfSome, OnErr, OnOk};
ghost use Rattle.c_grammar.specs.Scopes.{add, entry, is_typedef_name, opened};
ghost use Rattle.std.specs.Str.{bytes_eq};
ghost use Rattle.c_scopes.specs.ScopeLog.{declared_again, entry_of, innermost, recorded};

use indexmap::IndexMap;
use std::alloc::{AllocError, Global};
use std::marker::Model;

/// A name that a scope declares, as a typedef name or as something else.
#[derive(Clone, Copy, Drop)]
pub struct Declared<'a> {
    pub name: &'a str,
    pub is_typedef: bool,
}

// The innermost scope that declares a name.
#[derive(Clone, Copy)]
struct Latest {
    // The number of the scope, counted from 1 for the outermost; 0 where none declares the name.
    depth: usize,
    // One of the scope's declarations of the name is a typedef.
    is_typedef: bool,
}

impl Latest {
    // Behind one more declaration, in a scope of this depth that is the innermost.
    fn declared_again(self, depth: usize, is_typedef: bool) -> Latest
        ensures { result ≡ declared_again self depth is_typedef }
    {
        let was_typedef = self.depth == depth && self.is_typedef;
        Latest {
            depth,
            is_typedef: is_typedef || was_typedef,
        }
    }
}

// A declaration in the innermost scope.
#[derive(Drop)]
struct Addition<'a> {
    declared: Declared<'a>,
    // What the map said of the name before.
    before: Latest,
}

#[derive(Drop)]
enum Step<'a> {
    Opened,
    Added(Addition<'a>),
}

/// The scopes around a place, each with its names so far.
#[derive(Drop)]
pub struct Scopes<'a> {
    log: Vec<Step<'a>>,
    latest: IndexMap<&'a str, Latest>,
    depth: usize,
}

impl<'a> Model for Scopes<'a> {
    ghost use Rattle.c_grammar.specs.Scopes.{Names};

    ghost Value = { Names };

    ghost use Rattle.std.specs.Prelude.{reverse};
    ghost use Rattle.c_scopes.specs.ScopeLog.{IsKept, names_of};

    ghost view = { λ s. names_of (reverse s.log.items) };

    ghost invariant = { λ s. IsKept (reverse s.log.items) s.latest s.depth };
}

impl<'a> Scopes<'a> {
    /// No scope.
    pub fn new(alloc: Global) -> Scopes<'a>
        ensures { result ≡ [] }
    {
        Scopes {
            log: Vec::new(alloc),
            latest: IndexMap::new(alloc),
            depth: 0,
        }
    }

    /// A new innermost scope.
    pub fn open(&mut self) -> Result<(), AllocError>
        ensures ok { OnOk result (self.new ≡ opened self.old) }
        ensures err { OnErr result (self.new ≡ self.old) }
    {
        self.log.push(Step::Opened)?;
        self.depth += 1;
        Ok(())
    }

    /// Forgets the innermost scope, where there is one.
    pub fn close(&mut self)
        ensures { self.new ≡ drop 1 self.old }
    {
        while let Some(_) = self.take_newest() {}
    }

    /// Closes the innermost scope, and gives what it declared, in order; nothing where no scope is there.
    pub fn take_innermost(&mut self) -> Result<Vec<Declared<'a>>, AllocError>
        ensures closed { OnOk result (self.new ≡ drop 1 self.old) }
        ensures names { IfOk result (λ names. map entry_of names.items ≡ innermost self.old) }
    {
        let mut names = Vec::new(*self.log.allocator());
        while let Some(declared) = self.take_newest() {
            names.push(declared)?;
        }
        names.reverse();
        Ok(names)
    }

    // Takes the newest declaration of the innermost scope back; where it has none, closes it.
    fn take_newest(&mut self) -> Option<Declared<'a>>
        ensures taken { IfSome result (λ declared. innermost self.old ≡ innermost self.new ++ entry_of declared ∷ []) }
        ensures outer { IfSome result (λ declared. drop 1 self.new ≡ drop 1 self.old) }
        ensures empty { IfNone result (innermost self.old ≡ []) }
        ensures closed { IfNone result (self.new ≡ drop 1 self.old) }
    {
        match self.log.pop() {
            None => None,
            Some(Step::Opened) => {
                self.depth -= 1;
                None
            }
            Some(Step::Added(addition)) => {
                let declared = addition.declared;
                restore(&mut self.latest, addition);
                Some(declared)
            }
        }
    }

    /// Declares a name in the innermost scope, where there is one.
    pub fn add(&mut self, name: &'a str, is_typedef: bool) -> Result<(), AllocError>
        ensures ok { OnOk result (self.new ≡ add self.old (entry name.now is_typedef)) }
        ensures err { OnErr result (self.new ≡ self.old) }
    {
        if self.depth == 0 {
            return Ok(());
        }
        let before = latest_of(&self.latest, name);
        let declared = Declared { name, is_typedef };
        self.log.push(Step::Added(Addition { declared, before }))?;
        let now = before.declared_again(self.depth, is_typedef);
        match self.latest.insert(name, now) {
            Ok(_) => Ok(()),
            Err(_) => {
                self.log.pop();
                Err(AllocError)
            }
        }
    }

    /// Declares these names, in order, in the innermost scope, where there is one.
    pub fn add_all(&mut self, names: &[Declared<'a>]) -> Result<(), AllocError>
        ensures { OnOk result (self.new ≡ add self.old (map entry_of names.now)) }
    {
        for declared in names {
            self.add(declared.name, declared.is_typedef)?;
        }
        Ok(())
    }

    /// The innermost scope that declares the name has a typedef of it.
    pub fn is_typedef_name(&self, name: &str) -> bool
        ensures { result ≡ is_typedef_name self.now name.now }
    {
        latest_of(&self.latest, name).is_typedef
    }
}

// What the map says of a name.
fn latest_of(latest: &IndexMap<&str, Latest>, name: &str) -> Latest
    ensures { result ≡ recorded latest.now name.now }
{
    match latest.get(name) {
        Some(latest) => *latest,
        None => Latest {
            depth: 0,
            is_typedef: false,
        },
    }
}

// Makes the map say of a name what it said before it was added.
fn restore<'a>(latest: &mut IndexMap<&'a str, Latest>, addition: Addition<'a>)
    requires { 0 < (recorded latest.old addition.declared.name.now).depth }
    ensures { (name : List ℕ) → recorded latest.new name
        ≡ (if bytes_eq addition.entry.declared.name.now name then addition.entry.before else recorded latest.old name) }
{
    if let Some(latest) = latest.get_mut(addition.declared.name) {
        *latest = addition.before;
    }
}
