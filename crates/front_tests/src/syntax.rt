// Trees of short units as tables and as text, given to the calls of `c_syntax`.
use c_lexer::{IntType, lex};
use c_parser::parse;
use c_syntax::{Label, SynId, SynKind, SynNode, Syntax, SyntaxBuilder, tree_text};
use cp_base::{Bytes, Name};
use std::alloc::Global;
use std::test::Fail;

fn tree_of(alloc: Global, text: &[u8]) -> Option<Syntax> {
    let tokens = lex(alloc, text).ok()?;
    parse(alloc, &tokens).ok()
}

fn has_text(alloc: Global, unit: &[u8], wanted: &[u8]) -> bool {
    let Some(syntax) = tree_of(alloc, unit) else {
        return false;
    };
    matches!(tree_text(alloc, &syntax), Ok(text) if text.as_slice() == wanted)
}

#[test]
fn dumps(rt: HostRuntime) {
    let wanted = b"\
        unit\n  function\n    specs\n      word int\n    takes\n      name main\n    block\n      \
        return\n        int 7\n";
    assert!(rt; has_text(rt.alloc(), b"int main(void){return 7;}", wanted));
}

// What stands behind the words of a number, a string and a text.
#[test]
fn words_and_what_follows(rt: HostRuntime) {
    let wanted = b"\
        unit\n  function\n    specs\n      word int\n    takes\n      name f\n    block\n      \
        expr\n        string 3\n      expr\n        char 65\n      expr\n        unary ++\n          var x\n";
    assert!(rt; has_text(rt.alloc(), b"int f(){\"abc\";'A';++x;}", wanted));
}

// The nodes of `int main(void){return 7;}`: each with its start, its kids and the first node below it.
static ROW_1: [(SynKind, usize, &[usize], usize); 9] = [
    (SynKind::Word, 0, &[], 0),
    (SynKind::Specs, 0, &[0], 0),
    (SynKind::Ident, 4, &[], 2),
    (SynKind::Takes, 4, &[2], 2),
    (SynKind::Int(IntType::Int), 22, &[], 4),
    (SynKind::Return, 15, &[4], 4),
    (SynKind::Block, 14, &[5], 4),
    (SynKind::Function, 0, &[1, 3, 6], 0),
    (SynKind::Unit, 0, &[7], 0),
];

fn is_node(node: &SynNode, kind: SynKind, start: usize, kids: &[usize]) -> bool {
    let mut pairs = node.kids.as_slice().iter().zip(kids);
    node.kind == kind
        && node.start == start
        && node.kids.len() == kids.len()
        && pairs.all(|(kid, number)| kid.number == *number)
}

fn has_row(syntax: &Syntax, number: usize) -> bool {
    let (Some(node), Some(row)) = (syntax.nodes().get(number), ROW_1.get(number)) else {
        return false;
    };
    let (kind, start, kids, first) = *row;
    is_node(node, kind, start, kids) && syntax.first(SynId { number }).number == first
}

#[test]
fn table_of_row_1(rt: HostRuntime) {
    let syntax = tree_of(rt.alloc(), b"int main(void){return 7;}");
    let Some(syntax) = syntax else {
        assert!(rt; false, "no tree");
        return;
    };
    assert_eq!(rt; syntax.nodes().len(), 9);
    assert_eq!(rt; syntax.root(), SynId { number: 8 });
    assert_eq!(rt; syntax.height(), 5);
    assert!(rt; syntax.node(syntax.root()).kind == SynKind::Unit);
    for number in 0..9 {
        assert!(rt; has_row(&syntax, number), "{number}");
    }
}

// Nodes by hand: three leaves, and a node that takes two of them.
#[test]
fn nodes_by_hand(rt: HostRuntime) -> Result<(), Fail> {
    let alloc = rt.alloc();
    let mut trees = SyntaxBuilder::new(alloc);
    trees.push_text(SynKind::Var, "a", 0, 0)?;
    trees.push_constant(SynKind::Char, 65, 2)?;
    trees.push_string(Bytes::new(alloc), 6)?;
    assert_eq!(rt; trees.len(), 3);
    let label = Label {
        kind: SynKind::Index,
        text: Name::new(alloc),
        bytes: Bytes::new(alloc),
        value: 0,
        start: 2,
    };
    trees.push(label, 2)?;
    assert_eq!(rt; trees.len(), 2);
    Ok(())
}
