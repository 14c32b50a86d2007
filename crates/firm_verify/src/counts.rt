// Rule 1.
ghost use Rattle.std.specs.Prelude.{◌≡◌, map, IfSome, IfNone, IfOk, MatchBool, Some, None, slice_index_or, length, ◌<◌, ℕ, slice_index};
ghost use Rattle.firm_rules.specs.Graphs.{memory_and_words, operands_of, mode_of as op_mode};
ghost use Rattle.firm_rules.specs.Lookups.{end_of, IsBlock};
ghost use Rattle.firm_rules.specs.Rules.{IsWhole, OperandsFit, EndFits};
ghost use Rattle.firm_tables.specs.Nodes.{numbers, node_of};
ghost use Rattle.firm_nodes.specs.Calls.{IsNode};
ghost use Rattle.firm_verify.specs.Broken.{Rule1, IsBroken, AtNodes, AtBlocks};
ghost use Rattle.firm_verify.specs.Tables.{AreNodes, AreModes, HaveFrom, FitBy, ValueFitsBy, EndFitsBy};

use crate::broken::Broken;
use crate::lists::set_at;
use cp_base::Op;
use firm_nodes::{BlockId, FirmEnd, Graph, Mode, NodeId, NodeOp};
use std::alloc::{AllocError, Global};

// The operands of nodes and ends have the modes of the table, and each block has an end.
pub(crate) fn check_counts(
    alloc: Global,
    graph: &Graph,
    nodes: &[NodeId],
) -> Result<Option<Broken>, AllocError>
    requires whole { IsWhole graph.now }
    requires nodes { AreNodes graph.now (numbers nodes.now) }
    ensures some { IfOk result (λ found. IfSome found (λ broken. IsBroken graph.now broken.rule broken.node broken.block.number)) }
    ensures some_rule { IfOk result (λ found. IfSome found (λ broken. broken.rule ≡ 1)) }
    ensures none { IfOk result (λ found. IfNone found (Rule1 graph.now)) }
{
    let modes = modes_of(alloc, graph, nodes)?;
    let found = unfit_node(graph, nodes, &modes);
    if found.is_some() {
        return Ok(found);
    }
    Ok(unfit_end(graph, &modes))
}

// The mode of each node by its number.
fn modes_of(alloc: Global, graph: &Graph, nodes: &[NodeId]) -> Result<Vec<Option<Mode>>, AllocError>
    requires nodes { AreNodes graph.now (numbers nodes.now) }
    ensures { IfOk result (λ modes. AreModes graph.now modes.items) }
{
    let mut modes = Vec::new(alloc);
    for node in nodes {
        let mode = mode_of(graph.node(*node).op);
        set_at(&mut modes, node.number, Some(mode), None)?;
    }
    Ok(modes)
}

fn unfit_node(graph: &Graph, nodes: &[NodeId], modes: &[Option<Mode>]) -> Option<Broken>
    requires whole { IsWhole graph.now }
    requires nodes { AreNodes graph.now (numbers nodes.now) }
    requires modes { AreModes graph.now modes.now }
    ensures some { IfSome result (λ broken. IsBroken graph.now broken.rule broken.node broken.block.number) }
    ensures some_rule { IfSome result (λ broken. broken.rule ≡ 1) }
    ensures none { IfNone result (AtNodes graph.now (λ n node. OperandsFit graph.now (operands_of node.op) node.operands)) }
{
    for node in nodes {
        if !operands_fit(graph, modes, *node) {
            return Some(Broken {
                rule: 1,
                node: Some(*node),
                block: graph.node(*node).block,
            });
        }
    }
    None
}

fn operands_fit(graph: &Graph, modes: &[Option<Mode>], node: NodeId) -> bool
    requires modes { AreModes graph.now modes.now }
    requires node { IsNode graph.now node.number }
    ensures { MatchBool result (OperandsFit graph.now (operands_of (node_of graph.now.nodes node.number).op) (node_of graph.now.nodes node.number).operands)
        (OperandsFit graph.now (operands_of (node_of graph.now.nodes node.number).op) (node_of graph.now.nodes node.number).operands → ⊥) }
{
    fit(modes, graph.node(node).op, graph.operands(node))
}

fn fit(modes: &[Option<Mode>], op: NodeOp, operands: &[usize]) -> bool
    ensures { MatchBool result (FitBy (λ n. slice_index_or modes.now n None) (operands_of op) operands.now)
        (FitBy (λ n. slice_index_or modes.now n None) (operands_of op) operands.now → ⊥) }
{
    match op {
        NodeOp::Start | NodeOp::Param(_) | NodeOp::Const(_) | NodeOp::Addr(_) | NodeOp::Unknown =>
            are(modes, operands, &[]),
        NodeOp::Apply(Op::Conv(_)) => are(modes, operands, &[Mode::Word]),
        NodeOp::Apply(_) => are(modes, operands, &[Mode::Word, Mode::Word]),
        NodeOp::Load(_) | NodeOp::Put => are(modes, operands, &[Mode::Memory, Mode::Word]),
        NodeOp::Store(_) => are(modes, operands, &[Mode::Memory, Mode::Word, Mode::Word]),
        NodeOp::Call(_) => begins_with_memory(modes, operands),
        NodeOp::Get => are(modes, operands, &[Mode::Memory]),
        NodeOp::ProjM | NodeOp::ProjR => are(modes, operands, &[Mode::Tuple]),
        NodeOp::Phi(mode) => mode != Mode::Tuple && have(modes, operands, 0, mode),
    }
}

// The operands have these modes, each its own.
fn are(modes: &[Option<Mode>], operands: &[usize], wanted: &[Mode]) -> bool
    ensures { MatchBool result (map (λ n. slice_index_or modes.now n None) operands.now ≡ map Some wanted.now)
        (map (λ n. slice_index_or modes.now n None) operands.now ≡ map Some wanted.now → ⊥) }
{
    if operands.len() != wanted.len() {
        return false;
    }
    for index in 0..wanted.len() {
        if !has_mode(modes, operands[index], wanted[index]) {
            return false;
        }
    }
    true
}

// A memory, and then words.
fn begins_with_memory(modes: &[Option<Mode>], operands: &[usize]) -> bool
    ensures { MatchBool result (FitBy (λ n. slice_index_or modes.now n None) memory_and_words operands.now)
        (FitBy (λ n. slice_index_or modes.now n None) memory_and_words operands.now → ⊥) }
{
    if operands.is_empty() {
        return false;
    }
    has_mode(modes, operands[0], Mode::Memory) && have(modes, operands, 1, Mode::Word)
}

// The operands from a place on have the mode.
fn have(modes: &[Option<Mode>], operands: &[usize], from: usize, mode: Mode) -> bool
    ensures { MatchBool result (HaveFrom (λ n. slice_index_or modes.now n None) mode from operands.now)
        (HaveFrom (λ n. slice_index_or modes.now n None) mode from operands.now → ⊥) }
{
    for index in from..operands.len() {
        if !has_mode(modes, operands[index], mode) {
            return false;
        }
    }
    true
}

fn has_mode(modes: &[Option<Mode>], node: usize, mode: Mode) -> bool
    ensures { MatchBool result (slice_index_or modes.now node None ≡ Some mode) (slice_index_or modes.now node None ≡ Some mode → ⊥) }
{
    if node >= modes.len() {
        return false;
    }
    is_mode(modes[node], mode)
}

fn is_mode(found: Option<Mode>, mode: Mode) -> bool
    ensures { MatchBool result (found ≡ Some mode) (found ≡ Some mode → ⊥) }
{
    let Some(found) = found else {
        return false;
    };
    found == mode
}

fn mode_of(op: NodeOp) -> Mode
    ensures { result ≡ op_mode op }
{
    match op {
        NodeOp::Start | NodeOp::Store(_) | NodeOp::ProjM => Mode::Memory,
        NodeOp::Load(_) | NodeOp::Call(_) | NodeOp::Get | NodeOp::Put => Mode::Tuple,
        NodeOp::Phi(mode) => mode,
        NodeOp::Param(_)
        | NodeOp::Const(_)
        | NodeOp::Addr(_)
        | NodeOp::Unknown
        | NodeOp::Apply(_)
        | NodeOp::ProjR => Mode::Word,
    }
}

fn unfit_end(graph: &Graph, modes: &[Option<Mode>]) -> Option<Broken>
    requires whole { IsWhole graph.now }
    requires modes { AreModes graph.now modes.now }
    ensures some { IfSome result (λ broken. IsBroken graph.now broken.rule broken.node broken.block.number) }
    ensures some_rule { IfSome result (λ broken. broken.rule ≡ 1) }
    ensures none { IfNone result (AtBlocks graph.now (λ b. EndFits graph.now (end_of graph.now b))) }
{
    for block in graph.blocks() {
        if !end_fits(modes, graph.end_of(*block)) {
            return Some(Broken {
                rule: 1,
                node: None,
                block: *block,
            });
        }
    }
    None
}

fn end_fits(modes: &[Option<Mode>], end: Option<FirmEnd>) -> bool
    ensures { MatchBool result (EndFitsBy (λ n. slice_index_or modes.now n None) end) (EndFitsBy (λ n. slice_index_or modes.now n None) end → ⊥) }
{
    let Some(end) = end else {
        return false;
    };
    match end {
        FirmEnd::Jump(_) => true,
        FirmEnd::Branch(node, _, _) => has_mode(modes, node.number, Mode::Word),
        FirmEnd::Return(memory, value) => {
            has_mode(modes, memory.number, Mode::Memory) && value_fits(modes, value)
        }
    }
}

// The value, if there is one, is a word.
fn value_fits(modes: &[Option<Mode>], value: Option<NodeId>) -> bool
    ensures { MatchBool result (ValueFitsBy (λ n. slice_index_or modes.now n None) value) (ValueFitsBy (λ n. slice_index_or modes.now n None) value → ⊥) }
{
    match value {
        Some(value) => has_mode(modes, value.number, Mode::Word),
        None => true,
    }
}
