// Functions as parts of declarators (C99 6.7.5.3).
ghost use Rattle.std.specs.Prelude.{◌≡◌, ◌<◌, ◌≤◌, ◌++◌, [], List, IfOk, OnOk, false, length};
ghost use Rattle.std.specs.List.{AllByRecursion};
ghost use Rattle.c_syntax.specs.declared.kind.SynKind.TheVariants as kind;
ghost use Rattle.c_types.specs.Tables.{IsThere};
ghost use Rattle.c_typing.specs.Types.{CType, types_of};
ghost use Rattle.c_typing.specs.Places as places;
ghost use Rattle.c_typing.specs.Places.{is_whole};
ghost use Rattle.c_typing.specs.Judgements as rules;
ghost use Rattle.c_typing.specs.Rules.{bad_parameter, many_parameters};
ghost use Rattle.c_nodes.specs.Parents.{nodes_in};
ghost use Rattle.c_type_ids.specs.Ids.{NamesAll};
ghost use Rattle.c_answers.specs.Answers.{Allows};
ghost use Rattle.c_judgements.specs.Judged.{AreJudged};
ghost use Rattle.c_meanings.specs.Meanings.{IsReady, IsRow, judged_to, node_in, slots_of};
ghost use Rattle.c_declarator_rows.specs.Lengths.{KidsHaveLengths};
ghost use Rattle.c_declarator_rows.specs.Parameters.{listed, parameter_faults, types_at};

use crate::members::{id_at, other_kids};
use crate::parts::with_step;
use c_answers::Refusal;
use c_declared_types::{Step, check_parameters};
use c_judgements::Judged;
use c_meanings::Meanings;
use c_nodes::Nodes;
use c_type_ids::TypeTable;
use c_types::{TypeId, TypeList};
use std::alloc::{AllocError, Global};

/// A function as a part of a declarator.
pub fn function_part(
    alloc: Global,
    nodes: &Nodes,
    node: usize,
    meanings: &mut Meanings,
) -> Result<Judged, Refusal>
    requires within { node < length nodes.now }
    requires kind { (node_in nodes.now node).label.kind ≡ kind.Takes }
    requires part { is_whole (nodes_in nodes.now) (node_in nodes.now node) ≡ false }
    requires ready { IsReady nodes.now node 0 meanings.old }
    ensures { IsRow nodes.now node meanings.old meanings.new result }
{
    let takes = parameter_types(alloc, nodes, node, meanings)?;
    let count = other_kids(nodes, node).len();
    match check(&meanings.types, takes.as_slice(), count, node) {
        Ok(()) => function_of(nodes, node, takes, count, meanings),
        Err(refusal) => Err(refusal),
    }
}

// The types of the parameters that have one.
fn parameter_types(
    alloc: Global,
    nodes: &Nodes,
    node: usize,
    meanings: &Meanings,
) -> Result<TypeList, AllocError>
    requires within { node < length nodes.now }
    requires judged { node ≤ length (slots_of meanings.now) }
    ensures { IfOk result (λ takes. (js : List rules.Judgement) → AreJudged meanings.now.types (slots_of meanings.now) js → KidsHaveLengths js (places.other_kids (node_in nodes.now node)) →
        NamesAll meanings.now.types takes (types_of (types_at js (places.other_kids (node_in nodes.now node))))) }
{
    let mut takes = TypeList::new(alloc);
    let kids = other_kids(nodes, node);
    for kid in kids {
        push_found(&mut takes, id_at(meanings, kid.number))?;
    }
    Ok(takes)
}

fn push_found(takes: &mut TypeList, found: Option<TypeId>) -> Result<(), AllocError>
    ensures { OnOk result (takes.new ≡ takes.old ++ listed found) }
{
    if let Some(id) = found {
        takes.push(id)?;
    }
    Ok(())
}

// A function may have so many parameters, of which those with a type have these.
fn check(table: &TypeTable, takes: &[TypeId], count: usize, node: usize) -> Result<(), Refusal>
    requires there { AllByRecursion (IsThere table.now.table) takes.now }
    requires count { length takes.now ≤ count }
    ensures { (ts : List CType) → NamesAll table.now takes.now (types_of ts) → Allows result (many_parameters count node ++ bad_parameter ts node) }
{
    if count > 8 {
        return Err(Refusal::Broken { rule: 20, node });
    }
    check_parameters(table, takes, node)
}

// A function that may have these parameters.
fn function_of(
    nodes: &Nodes,
    node: usize,
    takes: TypeList,
    count: usize,
    meanings: &mut Meanings,
) -> Result<Judged, Refusal>
    requires within { node < length nodes.now }
    requires kind { (node_in nodes.now node).label.kind ≡ kind.Takes }
    requires part { is_whole (nodes_in nodes.now) (node_in nodes.now node) ≡ false }
    requires count { count ≡ length (places.other_kids (node_in nodes.now node)) }
    requires named { NamesAll meanings.old.types takes (types_of (types_at (judged_to nodes.now node) (places.other_kids (node_in nodes.now node)))) }
    requires allowed { parameter_faults nodes.now node ≡ [] }
    requires ready { IsReady nodes.now node 0 meanings.old }
    ensures { IsRow nodes.now node meanings.old meanings.new result }
{
    if takes.len() < count {
        return Ok(Judged::Waits);
    }
    match meanings.take_steps(nodes, node) {
        Some(steps) => with_step(steps, node, Step::OfFunction(takes)),
        None => Ok(Judged::Waits),
    }
}
