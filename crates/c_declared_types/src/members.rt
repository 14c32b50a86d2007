// The members of a struct (C99 6.7.2.1).
ghost use Rattle.std.specs.Prelude.{◌≡◌, ◌++◌, ◌∷◌, [], ℕ, List, IfOk, OnErr, OnOk, length, map, not, true};
ghost use Rattle.std.specs.List.{AllByRecursion, list_any};
ghost use Rattle.std.specs.Str.{bytes_eq};
ghost use Rattle.c_types.specs.Sizes.{IsOpen, IsSized};
ghost use Rattle.c_typing.specs.Types.{Field, Layout};
ghost use Rattle.c_typing.specs.Rules as faults;
ghost use Rattle.c_typing.specs.Declarators as declarators;
ghost use Rattle.c_type_ids.specs.Ids.{AreLaid, AreMembers, IsClosedBy};
ghost use Rattle.c_answers.specs.Answers.{Allows};
ghost use Rattle.c_declared_types.specs.Members.{named_by, named_in, texts_of};

use c_answers::{Refusal, too_big};
use c_type_ids::TypeTable;
use c_types::{StructId, TypeFault, TypeId};
use cp_base::Name;
use indexmap::IndexSet;
use std::alloc::{AllocError, Global};

/// No name stands twice among the members (rule 3). Each member stands beside the node of its declaration.
pub fn check_names(
    alloc: Global,
    members: &[(Name, TypeId)],
    nodes: &[usize],
) -> Result<(), Refusal>
    requires { length nodes.now ≡ length members.now }
    ensures { (groups : List (List Field)) (ns : List ℕ) → named_in members.now nodes.now ≡ named_by groups ns → Allows result (declarators.member_faults [] groups ns) }
{
    let mut names = IndexSet::new(alloc);
    for k in 0..members.len() {
        if !is_new(&mut names, members[k].0.as_slice())? {
            return Err(Refusal::Broken {
                rule: 3,
                node: nodes[k],
            });
        }
    }
    Ok(())
}

// The name is not among these yet; it is added.
fn is_new<'a>(names: &mut IndexSet<&'a str>, name: &'a str) -> Result<bool, AllocError>
    ensures new { IfOk result (λ new. new ≡ not (list_any (bytes_eq name.now) (texts_of names.old))) }
    ensures added { IfOk result (λ new. new ≡ true → texts_of names.new ≡ texts_of names.old ++ name.now ∷ []) }
{
    match names.insert(name) {
        Ok(new) => Ok(new),
        Err(_) => Err(AllocError),
    }
}

/// Gives a struct that stands at this node its members, each at its offset.
pub fn close_struct(
    table: &mut TypeTable,
    s: StructId,
    members: &[(Name, TypeId)],
    node: usize,
) -> Result<(), Refusal>
    requires open { IsOpen table.old.table s }
    requires sized { AllByRecursion (λ m. IsSized table.old.table m.1) members.now }
    ensures laid { OnOk result (IsClosedBy table.old table.new s members.now) }
    ensures fits { (k : ℕ) (ls : List Layout) (fields : List Field) → AreLaid table.old ls → AreMembers table.old members.now fields →
        Allows result (faults.size_fault (declarators.layout ls k fields).measure.size node) }
    ensures err { OnErr result (table.new ≡ table.old) }
{
    match table.close(s, members) {
        Ok(()) => Ok(()),
        Err(TypeFault::TooBig { size }) => Err(too_big(node, size)),
        Err(TypeFault::OutOfMemory) => Err(Refusal::OutOfMemory),
    }
}
