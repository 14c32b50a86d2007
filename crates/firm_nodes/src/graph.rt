// The graph and its calls.
ghost use Rattle.std.specs.Prelude.{◌≡◌, ◌≢◌, ◌==◌, ◌<◌, ℕ, List, [], ◌∷◌, true, false, length, map, if◌then◌else◌, OnOk, OnErr, IfOk, Option, Some, None, slice_get, ◌≤◌, IfSome};
ghost use Rattle.std.specs.List.{remove, position_or_len};
ghost use Rattle.firm_uses.specs.Counts.{times};
ghost use Rattle.firm_rules.specs.declared.node.NodeOp.TheVariants.{Param, Phi};
ghost use Rattle.firm_rules.specs.Graphs.{operands_of};
ghost use Rattle.firm_rules.specs.Lookups.{IsBlock, first_of, preds_of, end_of, targets};
ghost use Rattle.firm_rules.specs.Rules.{is_phi, uses, OperandsFit};
ghost use Rattle.firm_tables.specs.Nodes.{numbers, stands_in, node_of};
ghost use Rattle.firm_tables.specs.Blocks.{block_of};
ghost use Rattle.firm_nodes.specs.Kept.{block_numbers, option_list};
ghost use Rattle.firm_nodes.specs.Calls.{entry, IsNode, IsUnused, IsAdded, first_graph, with_block, with_node, appended, with_replaced, without_node, without_block, seals, ended, end_changed, unlinked};

use crate::edges::{goes_second, lost_targets, place_of};
use crate::likes::like;
use cp_base::Name;
use firm_rules::{BlockId, FirmEnd, Mode, NodeId, NodeOp};
use firm_tables::{Blocks, Node, Nodes};
use std::alloc::{AllocError, Global};
use std::marker::Model;

/// The graph of one function.
#[derive(Drop)]
pub struct Graph {
    name: Name,
    params: usize,
    order: Vec<BlockId>,
    blocks: Blocks,
    nodes: Nodes,
}

impl Model for Graph {
    ghost use Rattle.firm_rules.specs.Graphs.{Firm};

    ghost Value = { Firm };

    ghost use Rattle.firm_nodes.specs.Kept.{graph_of, block_numbers, IsKept};

    ghost view = { λ g. graph_of g.name g.params g.order.items g.blocks g.nodes };

    ghost invariant = { λ g. IsKept (block_numbers g.order.items) g.blocks };
}

impl Graph {
    /// A graph with one block, which is sealed, and in it `Start` and then the parameters.
    pub fn new(alloc: Global, name: &str, params: usize) -> Result<Graph, AllocError>
        ensures { IfOk result (λ graph. graph ≡ first_graph name.now params) }
    {
        let mut own_name = Name::new(alloc);
        own_name.push_all(name)?;
        let mut graph = Graph {
            name: own_name,
            params,
            order: Vec::new(alloc),
            blocks: Blocks::new(alloc),
            nodes: Nodes::new(alloc),
        };
        graph.begin()?;
        Ok(graph)
    }

    // The first block and its nodes.
    fn begin(&mut self) -> Result<(), AllocError>
        requires order { self.old.order ≡ [] }
        requires blocks { self.old.blocks ≡ [] }
        requires nodes { self.old.nodes ≡ [] }
        ensures { OnOk result (self.new ≡ first_graph self.old.name self.old.params) }
    {
        let block = self.add_block()?;
        self.seal(block);
        first_nodes(&mut self.nodes, self.params)
    }

    /// A new block, which comes last in the order.
    pub fn add_block(&mut self) -> Result<BlockId, AllocError>
        ensures ok { OnOk result (self.new ≡ with_block self.old) }
        ensures number { IfOk result (λ block. block.number ≡ length self.old.blocks) }
        ensures err { OnErr result (self.new ≡ self.old) }
    {
        self.order.reserve(1)?;
        let block = BlockId {
            number: self.blocks.add()?,
        };
        let _ = self.order.push(block);
        Ok(block)
    }

    /// A node of the block. Where the operation is pure and the block has an equal node, that is answered.
    pub fn add(
        &mut self,
        block: BlockId,
        op: NodeOp,
        operands: &[NodeId],
    ) -> Result<NodeId, AllocError>
        requires block { IsBlock self.old block.number }
        requires operands { OperandsFit self.old (operands_of op) (numbers operands.now) }
        requires param { (i : ℕ) → op ≡ Param i → i < self.old.params }
        ensures ok { IfOk result (λ node. IsAdded self.old self.new op block.number (numbers operands.now) node.number) }
        ensures err { OnErr result (self.new ≡ self.old) }
    {
        if let Some(node) = like(&self.nodes, op, block.number, operands) {
            return Ok(node);
        }
        let number = self.nodes.add(op, block.number, operands)?;
        Ok(NodeId { number })
    }

    /// An empty Phi of the block.
    pub fn add_phi(&mut self, block: BlockId, mode: Mode) -> Result<NodeId, AllocError>
        requires { IsBlock self.old block.number }
        ensures ok { OnOk result (self.new ≡ with_node self.old (Phi mode) block.number []) }
        ensures number { IfOk result (λ phi. phi.number ≡ length self.old.nodes) }
        ensures err { OnErr result (self.new ≡ self.old) }
    {
        let number = self.nodes.add(NodeOp::Phi(mode), block.number, &[])?;
        Ok(NodeId { number })
    }

    /// The Phi has one operand more, last.
    pub fn append(&mut self, phi: NodeId, operand: NodeId) -> Result<(), AllocError>
        requires phi { IsNode self.old phi.number }
        requires is_phi { is_phi (node_of self.old.nodes phi.number).op ≡ true }
        requires operand { IsNode self.old operand.number }
        ensures ok { OnOk result (self.new ≡ appended self.old phi.number operand.number) }
        ensures err { OnErr result (self.new ≡ self.old) }
    {
        self.nodes.append(phi.number, operand.number)
    }

    /// Each use of `old` becomes one of `to`, and `old` is gone.
    pub fn replace(&mut self, old: NodeId, to: NodeId) -> Result<(), AllocError>
        requires old { IsNode self.old old.number }
        requires to { IsNode self.old to.number }
        requires differs { to.number ≢ old.number }
        ensures ok { OnOk result (self.new ≡ with_replaced self.old old.number to.number) }
        ensures err { OnErr result (self.new ≡ self.old) }
    {
        self.nodes.replace(old.number, to.number)?;
        self.blocks.rename(old.number, to.number);
        Ok(())
    }

    /// Ends the block. The targets gain it as their last predecessor.
    pub fn end(&mut self, block: BlockId, end: FirmEnd) -> Result<(), AllocError>
        requires block { IsBlock self.old block.number }
        requires open { end_of self.old block.number ≡ None }
        requires targets { (index to : ℕ) → slice_get (targets (Some end)) index ≡ Some to → IsBlock self.old to }
        requires uses { (index n : ℕ) → slice_get (uses (Some end)) index ≡ Some n → IsNode self.old n }
        ensures ok { OnOk result (self.new ≡ ended self.old block.number end) }
        ensures err { OnErr result (self.new ≡ self.old) }
    {
        self.blocks.link(block.number, end)?;
        self.blocks.set_end(block.number, Some(end));
        Ok(())
    }

    /// The block has another end. A target that is lost loses it as a predecessor.
    pub fn change_end(&mut self, block: BlockId, end: FirmEnd)
        requires block { IsBlock self.old block.number }
        requires ended { end_of self.old block.number ≢ None }
        requires targets { (to : ℕ) → times to (targets (Some end)) ≤ times to (targets (end_of self.old block.number)) }
        requires uses { (index n : ℕ) → slice_get (uses (Some end)) index ≡ Some n → IsNode self.old n }
        ensures { self.new ≡ end_changed self.old block.number (Some end) }
    {
        self.put_end(block.number, Some(end));
    }

    /// The block has no end any more. Its targets lose it as a predecessor.
    pub fn remove_end(&mut self, block: BlockId)
        requires block { IsBlock self.old block.number }
        requires ended { end_of self.old block.number ≢ None }
        ensures { self.new ≡ end_changed self.old block.number None }
    {
        self.put_end(block.number, None);
    }

    fn put_end(&mut self, block: usize, end: Option<FirmEnd>)
        requires block { block < length self.old.blocks }
        requires targets { (to : ℕ) → times to (targets end) ≤ times to (targets (end_of self.old block)) }
        ensures { self.new ≡ end_changed self.old block end }
    {
        let old = self.blocks.end_of(block);
        let earlier = goes_second(&self.nodes, old);
        let lost = lost_targets(old, end);
        self.blocks.set_end(block, end);
        self.unlink(block, lost.first, earlier);
        self.unlink(block, lost.second, earlier);
    }

    // A block loses a predecessor, and its Phis the operand for it.
    fn unlink(&mut self, from: usize, to: Option<usize>, earlier: bool)
        requires { IfSome to (λ block. block < length self.old.blocks) }
        ensures { self.new ≡ unlinked earlier from self.old (option_list to) }
    {
        let Some(to) = to else {
            return;
        };
        let Some(place) = place_of(self.blocks.preds(to), from, earlier) else {
            return;
        };
        self.blocks.lose(to, place);
        self.nodes.lose_operands(to, place);
    }

    /// All predecessors of the block have come.
    pub fn seal(&mut self, block: BlockId)
        requires { IsBlock self.old block.number }
        ensures { self.new ≡ seals self.old block.number }
    {
        self.blocks.seal(block.number);
    }

    /// Whether all predecessors of the block have come.
    pub fn sealed(&self, block: BlockId) -> bool
        requires { IsBlock self.now block.number }
        ensures { result ≡ (block_of self.now.blocks block.number).sealed }
    {
        self.blocks.sealed(block.number)
    }

    /// Takes away a node that nothing uses.
    pub fn remove_node(&mut self, node: NodeId)
        requires there { IsNode self.old node.number }
        requires unused { IsUnused self.old node.number }
        ensures { self.new ≡ without_node self.old node.number }
    {
        self.nodes.remove(node.number);
    }

    /// Takes away a block that has nothing and to which nothing leads.
    pub fn remove_block(&mut self, block: BlockId)
        requires there { IsBlock self.old block.number }
        requires not_first { block.number ≢ first_of self.old.order }
        requires preds { preds_of self.old block.number ≡ [] }
        requires nodes { (n : ℕ) → stands_in (node_of self.old.nodes n) block.number ≡ false }
        requires open { end_of self.old block.number ≡ None }
        ensures { self.new ≡ without_block self.old block.number }
    {
        take_out(&mut self.order, block.number);
    }

    /// The blocks that are there, in their order.
    pub fn blocks(&self) -> &[BlockId]
        ensures { block_numbers result.now ≡ self.now.order }
    {
        &self.order
    }

    /// The nodes that are there in the block, each once.
    pub fn nodes(&self, block: BlockId) -> &[NodeId]
        requires { IsBlock self.now block.number }
        ensures { (n : ℕ) → times n (numbers result.now) ≡ (if stands_in (node_of self.now.nodes n) block.number then 1 else 0) }
    {
        self.nodes.members(block.number)
    }

    /// What the node does, and its block.
    pub fn node(&self, id: NodeId) -> Node
        requires { IsNode self.now id.number }
        ensures op { result.op ≡ (node_of self.now.nodes id.number).op }
        ensures block { result.block.number ≡ (node_of self.now.nodes id.number).block }
    {
        self.nodes.node(id.number)
    }

    /// The numbers of the node's operands.
    pub fn operands(&self, id: NodeId) -> &[usize]
        requires { IsNode self.now id.number }
        ensures { result.now ≡ (node_of self.now.nodes id.number).operands }
    {
        self.nodes.operands(id.number)
    }

    /// The numbers of the nodes that have it as an operand, each as often as it has it.
    pub fn users(&self, id: NodeId) -> &[usize]
        requires { IsNode self.now id.number }
        ensures { (user : ℕ) → times user result.now ≡ times id.number (node_of self.now.nodes user).operands }
    {
        self.nodes.users(id.number)
    }

    /// The numbers of the block's predecessors.
    pub fn preds(&self, block: BlockId) -> &[usize]
        requires { IsBlock self.now block.number }
        ensures { result.now ≡ preds_of self.now block.number }
    {
        self.blocks.preds(block.number)
    }

    /// The end of the block, if it has one.
    pub fn end_of(&self, block: BlockId) -> Option<FirmEnd>
        requires { IsBlock self.now block.number }
        ensures { result ≡ end_of self.now block.number }
    {
        self.blocks.end_of(block.number)
    }

    pub fn name(&self) -> &str
        ensures { result.now ≡ self.now.name }
    {
        self.name.as_slice()
    }

    /// How many parameters the graph has.
    pub fn params(&self) -> usize
        ensures { result ≡ self.now.params }
    {
        self.params
    }
}

// `Start` and the parameters.
fn first_nodes(nodes: &mut Nodes, params: usize) -> Result<(), AllocError>
    requires { nodes.old ≡ [] }
    ensures { OnOk result (nodes.new ≡ entry params) }
{
    nodes.add(NodeOp::Start, 0, &[])?;
    for param in 0..params {
        nodes.add(NodeOp::Param(param), 0, &[])?;
    }
    Ok(())
}

// Takes the block out of the order.
fn take_out(order: &mut Vec<BlockId>, block: usize)
    requires { position_or_len (λ b. b == block) (block_numbers order.old.items) < length (block_numbers order.old.items) }
    ensures { block_numbers order.new.items ≡ remove (block_numbers order.old.items) (position_or_len (λ b. b == block) (block_numbers order.old.items)) }
{
    let mut place = 0;
    while order[place].number != block {
        place += 1;
    }
    let _ = order.remove(place);
}
