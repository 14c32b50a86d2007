// What stands in parentheses (C99 6.5.1, 6.7.5).
ghost use Rattle.std.specs.Prelude.{◌≡◌, ◌<◌, None, length, true};
ghost use Rattle.c_syntax.specs.declared.kind.SynKind.TheVariants as kind;
ghost use Rattle.c_typing.specs.Places.{is_whole};
ghost use Rattle.c_typing.specs.Judgements.{steps_at};
ghost use Rattle.c_nodes.specs.Parents.{nodes_in};
ghost use Rattle.c_meanings.specs.Meanings.{IsReady, IsRow, judged_to, kid_in, node_in};

use c_answers::Refusal;
use c_judgements::Judged;
use c_meanings::Meanings;
use c_nodes::Nodes;

/// An expression, or a part of a declarator, in parentheses; a whole declarator is judged elsewhere.
pub fn parentheses(nodes: &Nodes, node: usize, meanings: &mut Meanings) -> Result<Judged, Refusal>
    requires within { node < length nodes.now }
    requires kind { (node_in nodes.now node).label.kind ≡ kind.Paren }
    requires part { is_whole (nodes_in nodes.now) (node_in nodes.now node) ≡ true → steps_at (judged_to nodes.now node) (kid_in nodes.now node 0) ≡ None }
    requires ready { IsReady nodes.now node 0 meanings.old }
    ensures { IsRow nodes.now node meanings.old meanings.new result }
{
    if meanings.operand_at(nodes, node, 0).is_some() {
        let operand = meanings.take_operand(nodes, node, 0);
        return Ok(Judged::Expresses(operand));
    }
    match meanings.take_steps(nodes, node) {
        Some(steps) => Ok(Judged::Steps(steps)),
        None => Ok(Judged::Waits),
    }
}
