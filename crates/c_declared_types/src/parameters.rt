// The parameters of functions (C99 6.7.5.3).
ghost use Rattle.std.specs.Prelude.{◌≡◌, ◌++◌, ◌||◌, List, IfOk, length};
ghost use Rattle.std.specs.List.{AllByRecursion};
ghost use Rattle.c_syntax.specs.declared.kind.SynKind.TheVariants as node;
ghost use Rattle.c_types.specs.Tables.{IsThere};
ghost use Rattle.c_typing.specs.Types.{CType, types_of};
ghost use Rattle.c_typing.specs.Types as types;
ghost use Rattle.c_typing.specs.Rules as faults;
ghost use Rattle.c_typing.specs.Declarators as declarators;
ghost use Rattle.c_type_ids.specs.Ids.{Grows, Names, NamesAll};
ghost use Rattle.c_answers.specs.Answers.{Allows};

use c_answers::Refusal;
use c_type_ids::{Kind, TypeTable};
use c_types::TypeId;
use std::alloc::AllocError;

/// How many parameters a function has at most.
const MAX_PARAMETERS: usize = 8;

/// A function may have these parameters: no more than 8 (rule 20), and no struct or function among them (rule 21).
pub fn check_parameters(table: &TypeTable, takes: &[TypeId], node: usize) -> Result<(), Refusal>
    requires { AllByRecursion (IsThere table.now.table) takes.now }
    ensures { (ts : List CType) → NamesAll table.now takes.now (types_of ts) → Allows result (faults.many_parameters (length ts) node ++ faults.bad_parameter ts node) }
{
    if takes.len() > MAX_PARAMETERS {
        return Err(Refusal::Broken { rule: 20, node });
    }
    for id in takes {
        if is_struct_or_function(table, *id) {
            return Err(Refusal::Broken { rule: 21, node });
        }
    }
    Ok(())
}

fn is_struct_or_function(table: &TypeTable, id: TypeId) -> bool
    requires { IsThere table.now.table id }
    ensures { (t : CType) → Names table.now id t → result ≡ (types.is_struct t || types.is_function t) }
{
    matches!(table.kind(id), Kind::Struct(_) | Kind::Function(_))
}

/// The type of a parameter that is declared with this one: an array is a pointer to its elements.
pub fn adjusted(table: &mut TypeTable, id: TypeId) -> Result<TypeId, AllocError>
    requires { (t : CType) × Names table.old id t }
    ensures is { IfOk result (λ made. (t : CType) → Names table.old id t → Names table.new made (declarators.adjusted node.Param t)) }
    ensures there { IfOk result (IsThere table.new.table) }
    ensures grows { Grows table.old table.new }
{
    match table.kind(id) {
        Kind::Array(element, _) => table.pointer(element),
        _ => Ok(id),
    }
}
