// The types of whole declarators (C99 6.7.5, 6.7.5.3, 7).
ghost use Rattle.std.specs.Prelude.{◌≡◌, [], List};
ghost use Rattle.c_typing.specs.Types.{CType, Layout};
ghost use Rattle.c_typing.specs.Places as places;
ghost use Rattle.c_typing.specs.Judgements as rules;
ghost use Rattle.c_typing.specs.Declarators as declarators;
ghost use Rattle.c_type_ids.specs.Ids.{AreLaid, Grows, Names};
ghost use Rattle.c_values.specs.Typings.{IsType};
ghost use Rattle.c_answers.specs.Answers.{Settles};
ghost use Rattle.c_declared_types.specs.Steps.{AreSteps};
ghost use Rattle.c_declarator_rows.specs.Naming as naming;

use c_answers::Refusal;
use c_declared_types::{Steps, adjusted, build};
use c_syntax::SynKind;
use c_type_ids::TypeTable;
use c_types::TypeId;
use c_values::Type;
use std::alloc::AllocError;

/// The type of a whole declarator that belongs to a node of this kind: made by these steps of the type of the specs.
pub fn built(
    owner: SynKind,
    table: &mut TypeTable,
    base: TypeId,
    steps: Steps,
) -> Result<Type, Refusal>
    requires laid { (ls : List Layout) × AreLaid table.old ls }
    requires base { (t : CType) × Names table.old base t }
    requires steps { (ss : List rules.PlacedStep) × AreSteps table.old steps ss }
    ensures is { (ls : List Layout) (t : CType) (ss : List rules.PlacedStep) → AreLaid table.old ls → Names table.old base t → AreSteps table.old steps ss →
        Settles (λ kind. IsType table.new kind (declarators.adjusted owner (declarators.build ls t ss).type)) result (declarators.build ls t ss).faults }
    ensures grows { Grows table.old table.new }
{
    match build(table, base, steps) {
        Ok(kind) => adjusted_for(owner, table, kind),
        Err(refusal) => Err(refusal),
    }
}

// The type of a parameter is a pointer where it is an array.
fn adjusted_for(owner: SynKind, table: &mut TypeTable, kind: Type) -> Result<Type, Refusal>
    requires { (t : CType) × IsType table.old kind t }
    ensures is { (t : CType) → IsType table.old kind t → Settles (λ made. IsType table.new made (declarators.adjusted owner t)) result [] }
    ensures grows { Grows table.old table.new }
{
    if !is_param(owner) {
        return Ok(kind);
    }
    match kind {
        Type::Known(id) => known(adjusted(table, id)),
        Type::Unsized(_) => Ok(kind),
        Type::ToUnsized(_) => Ok(kind),
    }
}

fn is_param(kind: SynKind) -> bool
    ensures { result ≡ places.is_param kind }
{
    matches!(kind, SynKind::Param)
}

fn known(found: Result<TypeId, AllocError>) -> Result<Type, Refusal>
    ensures { result ≡ naming.as_known found }
{
    match found {
        Ok(id) => Ok(Type::Known(id)),
        Err(_) => Err(Refusal::OutOfMemory),
    }
}
