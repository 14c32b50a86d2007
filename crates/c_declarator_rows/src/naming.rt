// What is asked of the names that declarators declare (C99 6.7, 6.7.5).
ghost use Rattle.std.specs.Prelude.{◌≡◌, ◌<◌, ◌&&◌, not, ℕ, List, None, Option, Some, get_or, length, option_and_then};
ghost use Rattle.c_syntax.specs.declared.syntax.SynNode.{SynNode};
ghost use Rattle.c_typing.specs.Types.{CType, Layout};
ghost use Rattle.c_typing.specs.Names as rules_of;
ghost use Rattle.c_typing.specs.Names.{Name};
ghost use Rattle.c_typing.specs.Judgements as rules;
ghost use Rattle.c_typing.specs.Expressions.{type_of_name};
ghost use Rattle.c_typing.specs.Rules as faults;
ghost use Rattle.c_typing.specs.Declarators.{declared_faults, name_faults, type_before};
ghost use Rattle.c_nodes.specs.Parents.{nodes_in};
ghost use Rattle.c_names.specs.declared.names.DeclaredName.{DeclaredName};
ghost use Rattle.c_names.specs.Denoted.{IsDerived, places_in};
ghost use Rattle.c_names.specs.Names.{AreNames, entity_of};
ghost use Rattle.c_names.specs.Earlier.{AreEarlier};
ghost use Rattle.c_type_ids.specs.Ids.{AreLaid, Grows};
ghost use Rattle.c_values.specs.Typings.{IsType};
ghost use Rattle.c_answers.specs.Answers.{Allows};
ghost use Rattle.c_judgements.specs.Judged.{AreJudged};
ghost use Rattle.c_meanings.specs.Meanings.{slots_of};
ghost use Rattle.c_declarator_rows.specs.Found.{Finds, IsName};
ghost use Rattle.c_declarator_rows.specs.Naming as naming;
ghost use Rattle.c_declarator_rows.specs.Naming.{kind_faults};
ghost use Rattle.c_typing.specs.Places.{text_at};

use crate::again::is_refused;
use crate::enumerators::{earlier_at, name_at};
use crate::words::{name_of, type_of};
use c_answers::Refusal;
use c_declared_types::{
    is_array_or_struct, is_bad_library_name, is_bad_main, is_incomplete_object,
    is_incomplete_parameter,
};
use c_meanings::Meanings;
use c_names::{DeclaredName, Earlier, Entity};
use c_nodes::Nodes;
use c_type_ids::TypeTable;
use c_values::Type;
use std::alloc::Global;

/// The name of a node may be declared with this type by a declarator: it was not declared otherwise before (rule 3), and is not
/// that of a function of the library (rule 23).
pub fn check_name(
    alloc: Global,
    nodes: &Nodes,
    name_node: usize,
    node: usize,
    names: &[Option<DeclaredName>],
    earlier: &[Earlier],
    kind: Type,
    as_function: bool,
    meanings: &mut Meanings,
) -> Result<(), Refusal>
    requires within { name_node < length nodes.now }
    requires long { length (nodes_in nodes.now) ≡ length nodes.now }
    requires derived { IsDerived nodes.now }
    requires names { AreNames nodes.now names.now }
    requires earlier { AreEarlier nodes.now earlier.now }
    requires judged { (js : List rules.Judgement) × AreJudged meanings.old.types (slots_of meanings.old) js }
    requires kind { (t : CType) × IsType meanings.old.types kind t }
    requires named { (e : Name) × (rules_of.name_of (places_in nodes.now) name_node ≡ Some e) }
    ensures is { (js : List rules.Judgement) (e : Name) (t : CType) → AreJudged meanings.old.types (slots_of meanings.old) js → rules_of.name_of (places_in nodes.now) name_node ≡ Some e → IsType meanings.old.types kind t →
        Allows result (name_faults (places_in nodes.now) js e t node as_function) }
    ensures grows { Grows meanings.old.types meanings.new.types }
    ensures slots { slots_of meanings.new ≡ slots_of meanings.old }
{
    if is_declared_twice(nodes, name_node, names, earlier, kind, meanings) {
        return Err(Refusal::Broken {
            rule: 3,
            node: name_node,
        });
    }
    let text = nodes.node(name_node).text.as_slice();
    if is_bad_library_name(alloc, &mut meanings.types, text, as_function, kind)? {
        return Err(Refusal::Broken { rule: 23, node });
    }
    Ok(())
}

// The name of a node was declared otherwise before.
fn is_declared_twice(
    nodes: &Nodes,
    node: usize,
    names: &[Option<DeclaredName>],
    earlier: &[Earlier],
    kind: Type,
    meanings: &Meanings,
) -> bool
    requires within { node < length nodes.now }
    requires long { length (nodes_in nodes.now) ≡ length nodes.now }
    requires derived { IsDerived nodes.now }
    requires names { AreNames nodes.now names.now }
    requires earlier { AreEarlier nodes.now earlier.now }
    requires judged { (js : List rules.Judgement) × AreJudged meanings.now.types (slots_of meanings.now) js }
    requires kind { (t : CType) × IsType meanings.now.types kind t }
    ensures { (js : List rules.Judgement) (e : Name) (t : CType) (n : ℕ) → AreJudged meanings.now.types (slots_of meanings.now) js → rules_of.name_of (places_in nodes.now) node ≡ Some e → IsType meanings.now.types kind t →
        faults.declared_twice (places_in nodes.now) e t (type_before (places_in nodes.now) js e) n ≡ faults.broken_if result 3 n }
{
    let Some(name) = name_at(names, node) else {
        return false;
    };
    let before = earlier_at(earlier, node);
    let last = name_of(before.last, names);
    let type_before = type_before(meanings, last);
    is_refused(
        nodes,
        &meanings.types,
        name,
        kind,
        before.is_initialized,
        last,
        type_before,
    )
}

// The type that a name has, where there is one.
fn type_before(meanings: &Meanings, name: Option<DeclaredName>) -> Option<Type>
    ensures { (table : List SynNode) (js : List rules.Judgement) (a : Option Name) → AreJudged meanings.now.types (slots_of meanings.now) js → IsName table a name →
        Finds meanings.now.types result (option_and_then (type_of_name js) a) }
{
    match name {
        Some(name) => type_of(meanings, name),
        None => None,
    }
}

/// What a name is may have this type: an object has a size (rule 5), and an automatic one is scalar (rule 10).
pub fn check_kind(table: &TypeTable, entity: Entity, kind: Type, node: usize) -> Result<(), Refusal>
    requires { (t : CType) × IsType table.now kind t }
    ensures { (ls : List Layout) (t : CType) → AreLaid table.now ls → IsType table.now kind t → Allows result (kind_faults ls t node (entity_of entity)) }
{
    match entity {
        Entity::Static => refused_if(is_incomplete_object(table, kind), 5, node),
        Entity::Automatic => {
            if is_incomplete_object(table, kind) {
                return Err(Refusal::Broken { rule: 5, node });
            }
            refused_if(is_array_or_struct(table, kind), 10, node)
        }
        Entity::Parameter(_) => refused_if(is_incomplete_parameter(table, kind), 5, node),
        _ => Ok(()),
    }
}

fn refused_if(is_broken: bool, rule: u8, node: usize) -> Result<(), Refusal>
    ensures { Allows result (faults.broken_if is_broken rule node) }
{
    if is_broken {
        Err(Refusal::Broken { rule, node })
    } else {
        Ok(())
    }
}

/// A function of the name of a node may have this type: `main` is `int` without parameters (rule 22).
pub fn check_main(
    alloc: Global,
    nodes: &Nodes,
    name_node: usize,
    node: usize,
    kind: Type,
    is_function: bool,
    table: &mut TypeTable,
) -> Result<(), Refusal>
    requires { name_node < length nodes.now }
    ensures is { (t : CType) → IsType table.old kind t → Allows result (naming.main_faults (text_at (nodes_in nodes.now) name_node) t node is_function) }
    ensures grows { Grows table.old table.new }
{
    if !is_function {
        return Ok(());
    }
    let text = nodes.node(name_node).text.as_slice();
    if is_bad_main(alloc, table, text, kind)? {
        return Err(Refusal::Broken { rule: 22, node });
    }
    Ok(())
}

/// A declarator may declare the name of a node with this type: of what the name is, of the name, and of `main` (rule 22).
pub fn check_declared(
    alloc: Global,
    nodes: &Nodes,
    name_node: usize,
    node: usize,
    names: &[Option<DeclaredName>],
    earlier: &[Earlier],
    kind: Type,
    defines: bool,
    meanings: &mut Meanings,
) -> Result<(), Refusal>
    requires within { name_node < length nodes.now }
    requires long { length (nodes_in nodes.now) ≡ length nodes.now }
    requires derived { IsDerived nodes.now }
    requires names { AreNames nodes.now names.now }
    requires earlier { AreEarlier nodes.now earlier.now }
    requires judged { (js : List rules.Judgement) × AreJudged meanings.old.types (slots_of meanings.old) js }
    requires kind { (t : CType) × IsType meanings.old.types kind t }
    requires named { (e : Name) × (rules_of.name_of (places_in nodes.now) name_node ≡ Some e) }
    ensures is { (js : List rules.Judgement) (e : Name) (t : CType) → AreJudged meanings.old.types (slots_of meanings.old) js → AreLaid meanings.old.types (rules.layouts js) →
        rules_of.name_of (places_in nodes.now) name_node ≡ Some e → IsType meanings.old.types kind t → Allows result (declared_faults (places_in nodes.now) js e t node defines e.entity) }
    ensures grows { Grows meanings.old.types meanings.new.types }
    ensures slots { slots_of meanings.new ≡ slots_of meanings.old }
{
    let entity = entity_at(names, name_node);
    if is_enumerator(entity) {
        return Ok(());
    }
    if let Err(refusal) = check_kind(&meanings.types, entity, kind, node) {
        return Err(refusal);
    }
    let is_function = is_function(entity);
    let as_function = declares_alone(is_function, defines);
    match check_name(
        alloc,
        nodes,
        name_node,
        node,
        names,
        earlier,
        kind,
        as_function,
        meanings,
    ) {
        Ok(()) => check_main(
            alloc,
            nodes,
            name_node,
            node,
            kind,
            is_function,
            &mut meanings.types,
        ),
        Err(refusal) => Err(refusal),
    }
}

fn entity_at(names: &[Option<DeclaredName>], node: usize) -> Entity
    requires within { node < length names.now }
    requires named { (x : DeclaredName) × (get_or names.now node None ≡ Some x) }
    ensures { (x : DeclaredName) → get_or names.now node None ≡ Some x → result ≡ x.entity }
{
    match name_at(names, node) {
        Some(name) => name.entity,
        None => unreachable!(),
    }
}

fn is_enumerator(entity: Entity) -> bool
    ensures { result ≡ naming.is_enumerator (entity_of entity) }
{
    matches!(entity, Entity::Enumerator)
}

fn is_function(entity: Entity) -> bool
    ensures { result ≡ naming.is_function (entity_of entity) }
{
    matches!(entity, Entity::Function)
}

fn declares_alone(is_function: bool, defines: bool) -> bool
    ensures { result ≡ (is_function && not defines) }
{
    is_function && !defines
}
