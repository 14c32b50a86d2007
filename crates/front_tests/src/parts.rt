// Parts put onto a builder by hand, by the calls of `c_parts`.
use c_lexer::{IntType, Punct};
use c_parts::{
    Declarator, Mode, Part, Stop, Suffix, above, above_first, above_four, above_row, above_three,
    above_two, constant, is_identifier, leaf, level_of, literal, next_lower, within,
};
use c_syntax::{SynKind, SyntaxBuilder};
use cp_base::Bytes;
use std::alloc::Global;

// A choice between a name, a string and an index.
fn choice_made(alloc: Global, trees: &mut SyntaxBuilder) -> Result<Part, Stop> {
    let condition = leaf(trees, SynKind::Var, "a", 0)?;
    let string = literal(trees, Bytes::new(alloc), 2)?;
    let array = leaf(trees, SynKind::Var, "c", 6)?;
    let one = constant(trees, SynKind::Int(IntType::Int), 1, 8)?;
    let index = above_two(trees, SynKind::Index, "", 6, array, one)?;
    above_three(trees, SynKind::Cond, 0, condition, string, index)
}

// A tree that no C has, made of rows and leaves.
fn loop_made(trees: &mut SyntaxBuilder) -> Result<Part, Stop> {
    let first = leaf(trees, SynKind::Empty, "", 0)?;
    let mark = trees.len();
    let inside = leaf(trees, SynKind::Empty, "", 1)?;
    let row = above_row(trees, SynKind::Block, "", 1, mark, inside.height)?;
    let function = leaf(trees, SynKind::Var, "f", 2)?;
    let call = above_first(trees, SynKind::Call, 2, function, trees.len(), 0)?;
    let last = leaf(trees, SynKind::Break, "", 3)?;
    above_four(trees, SynKind::For, 0, first, row, call, last)
}

#[test]
fn nodes(rt: HostRuntime) {
    let mut trees = SyntaxBuilder::new(rt.alloc());
    let choice = choice_made(rt.alloc(), &mut trees);
    assert!(rt; matches!(choice, Ok(part) if part.height == 3 && part.kind == SynKind::Cond));
    let looped = loop_made(&mut trees);
    assert!(rt; matches!(looped, Ok(part) if part.height == 3 && trees.len() == 2));
}

// A node above the last tree.
#[test]
fn node_above(rt: HostRuntime) {
    let mut trees = SyntaxBuilder::new(rt.alloc());
    let kid = leaf(&mut trees, SynKind::Var, "a", 4);
    assert!(rt; matches!(kid, Ok(kid) if kid.height == 1 && kid.start == 4));
    let Ok(kid) = kid else {
        return;
    };
    let above = above(&mut trees, SynKind::Unary, "-", 3, kid);
    assert!(rt; matches!(above, Ok(above) if above.height == 2 && trees.len() == 1));
}

// `int (*f())[3]`, the declarator.
fn declarator_made(alloc: Global) -> Result<(Declarator<'static>, usize), Stop> {
    let mut trees = SyntaxBuilder::new(alloc);
    let name = Declarator::named(&mut trees, "f", 6)?;
    let mark = trees.len();
    let takes = Declarator::suffixed(&mut trees, Suffix::Takes, name, mark, 0)?;
    let pointer = Declarator::pointer(&mut trees, 5, takes)?;
    let enclosed = Declarator::enclosed(&mut trees, 4, pointer)?;
    let mark = trees.len();
    let three = constant(&mut trees, SynKind::Int(IntType::Int), 3, 11)?;
    let array = Declarator::suffixed(&mut trees, Suffix::Array, enclosed, mark, three.height)?;
    Ok((array, trees.len()))
}

#[test]
fn declarators(rt: HostRuntime) {
    let made = declarator_made(rt.alloc());
    let Ok((array, trees)) = made else {
        assert!(rt; false, "no declarator");
        return;
    };
    assert!(rt; array.name == "f" && array.is_named && !array.is_bare && trees == 1);
    assert!(rt; array.part.kind == SynKind::ArrayOf && array.part.height == 5);
}

#[test]
fn absent_names(rt: HostRuntime) {
    let mut trees = SyntaxBuilder::new(rt.alloc());
    let absent = Declarator::absent(&mut trees, 4);
    assert!(rt; matches!(absent, Ok(absent) if absent.name.is_empty() && !absent.is_named));
    assert!(rt; Mode::Either.has_name() && !Mode::Either.needs_name());
}

#[test]
fn budgets_and_words(rt: HostRuntime) {
    assert!(rt; matches!(within(1, 2), Ok(1)) && matches!(within(2, 2), Err(Stop::Deep)));
    assert!(rt; next_lower(3) == 2 && next_lower(0) == 0);
    assert!(rt; is_identifier("integer") && !is_identifier("int"));
    assert_eq!(rt; level_of(Punct::BarBar), 10);
}
