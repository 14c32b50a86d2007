// Twelve control flows, each with its reads.
use crate::flow::{Step, reads_agree};
use std::rt::HostRuntime;

static STRAIGHT_EDGES: [(usize, usize); 3] = [(0, 1), (1, 2), (2, 3)];

static STRAIGHT_WRITES: [(usize, usize); 1] = [(0, 0)];

static STRAIGHT_STEPS: [Step; 6] = [
    Step::Seal(0),
    Step::Seal(1),
    Step::Seal(2),
    Step::Seal(3),
    Step::Read(0, 3),
    Step::Read(0, 2),
];

#[test]
fn straight(rt: HostRuntime) {
    let agree = reads_agree(
        rt.alloc(),
        4,
        &STRAIGHT_EDGES,
        &STRAIGHT_WRITES,
        &STRAIGHT_STEPS,
    );
    assert!(rt; matches!(agree, Ok(true)));
}

static DIAMOND_EDGES: [(usize, usize); 4] = [(0, 1), (0, 2), (1, 3), (2, 3)];

static DIAMOND_WRITES: [(usize, usize); 4] = [(0, 0), (0, 1), (0, 2), (1, 0)];

static DIAMOND_STEPS: [Step; 8] = [
    Step::Seal(0),
    Step::Seal(1),
    Step::Read(0, 3),
    Step::Read(1, 3),
    Step::Seal(2),
    Step::Seal(3),
    Step::Read(0, 3),
    Step::Read(1, 3),
];

#[test]
fn diamond(rt: HostRuntime) {
    let agree = reads_agree(
        rt.alloc(),
        4,
        &DIAMOND_EDGES,
        &DIAMOND_WRITES,
        &DIAMOND_STEPS,
    );
    assert!(rt; matches!(agree, Ok(true)));
}

static DIAMOND_HALF_WRITTEN_EDGES: [(usize, usize); 4] = [(0, 1), (0, 2), (1, 3), (2, 3)];

static DIAMOND_HALF_WRITTEN_WRITES: [(usize, usize); 2] = [(0, 0), (0, 1)];

static DIAMOND_HALF_WRITTEN_STEPS: [Step; 6] = [
    Step::Seal(0),
    Step::Seal(1),
    Step::Seal(2),
    Step::Seal(3),
    Step::Read(0, 3),
    Step::Read(1, 3),
];

#[test]
fn diamond_half_written(rt: HostRuntime) {
    let agree = reads_agree(
        rt.alloc(),
        4,
        &DIAMOND_HALF_WRITTEN_EDGES,
        &DIAMOND_HALF_WRITTEN_WRITES,
        &DIAMOND_HALF_WRITTEN_STEPS,
    );
    assert!(rt; matches!(agree, Ok(true)));
}

static LOOP_HEAD_EDGES: [(usize, usize); 4] = [(0, 1), (2, 1), (1, 2), (1, 3)];

static LOOP_HEAD_WRITES: [(usize, usize); 2] = [(0, 0), (0, 2)];

static LOOP_HEAD_STEPS: [Step; 6] = [
    Step::Seal(0),
    Step::Read(0, 1),
    Step::Seal(2),
    Step::Seal(1),
    Step::Seal(3),
    Step::Read(0, 3),
];

#[test]
fn loop_head(rt: HostRuntime) {
    let agree = reads_agree(
        rt.alloc(),
        4,
        &LOOP_HEAD_EDGES,
        &LOOP_HEAD_WRITES,
        &LOOP_HEAD_STEPS,
    );
    assert!(rt; matches!(agree, Ok(true)));
}

static NESTED_LOOPS_EDGES: [(usize, usize); 7] = [
    (0, 1),
    (4, 1),
    (1, 2),
    (3, 2),
    (2, 3),
    (2, 4),
    (1, 5),
];

static NESTED_LOOPS_WRITES: [(usize, usize); 3] = [(0, 0), (0, 3), (1, 4)];

static NESTED_LOOPS_STEPS: [Step; 11] = [
    Step::Seal(0),
    Step::Read(0, 2),
    Step::Read(1, 2),
    Step::Seal(3),
    Step::Read(0, 3),
    Step::Seal(2),
    Step::Seal(4),
    Step::Seal(1),
    Step::Seal(5),
    Step::Read(0, 5),
    Step::Read(1, 5),
];

#[test]
fn nested_loops(rt: HostRuntime) {
    let agree = reads_agree(
        rt.alloc(),
        6,
        &NESTED_LOOPS_EDGES,
        &NESTED_LOOPS_WRITES,
        &NESTED_LOOPS_STEPS,
    );
    assert!(rt; matches!(agree, Ok(true)));
}

static TWO_BACK_EDGES_EDGES: [(usize, usize); 6] = [(0, 1), (2, 1), (3, 1), (1, 2), (1, 3), (1, 4)];

static TWO_BACK_EDGES_WRITES: [(usize, usize); 2] = [(0, 0), (0, 2)];

static TWO_BACK_EDGES_STEPS: [Step; 7] = [
    Step::Seal(0),
    Step::Read(0, 4),
    Step::Seal(2),
    Step::Seal(3),
    Step::Seal(1),
    Step::Seal(4),
    Step::Read(0, 3),
];

#[test]
fn two_back_edges(rt: HostRuntime) {
    let agree = reads_agree(
        rt.alloc(),
        5,
        &TWO_BACK_EDGES_EDGES,
        &TWO_BACK_EDGES_WRITES,
        &TWO_BACK_EDGES_STEPS,
    );
    assert!(rt; matches!(agree, Ok(true)));
}

static ENDLESS_LOOP_EDGES: [(usize, usize); 3] = [(0, 1), (2, 1), (1, 2)];

static ENDLESS_LOOP_WRITES: [(usize, usize); 1] = [(0, 0)];

static ENDLESS_LOOP_STEPS: [Step; 5] = [
    Step::Seal(0),
    Step::Read(0, 2),
    Step::Seal(1),
    Step::Seal(2),
    Step::Read(0, 1),
];

#[test]
fn endless_loop(rt: HostRuntime) {
    let agree = reads_agree(
        rt.alloc(),
        3,
        &ENDLESS_LOOP_EDGES,
        &ENDLESS_LOOP_WRITES,
        &ENDLESS_LOOP_STEPS,
    );
    assert!(rt; matches!(agree, Ok(true)));
}

static CHAIN_WITHOUT_ENTRY_EDGES: [(usize, usize); 3] = [(1, 2), (2, 3), (3, 1)];

static CHAIN_WITHOUT_ENTRY_WRITES: [(usize, usize); 1] = [(0, 0)];

static CHAIN_WITHOUT_ENTRY_STEPS: [Step; 6] = [
    Step::Seal(0),
    Step::Seal(1),
    Step::Seal(2),
    Step::Seal(3),
    Step::Read(0, 3),
    Step::Read(0, 1),
];

#[test]
fn chain_without_entry(rt: HostRuntime) {
    let agree = reads_agree(
        rt.alloc(),
        4,
        &CHAIN_WITHOUT_ENTRY_EDGES,
        &CHAIN_WITHOUT_ENTRY_WRITES,
        &CHAIN_WITHOUT_ENTRY_STEPS,
    );
    assert!(rt; matches!(agree, Ok(true)));
}

static SEALED_CHAIN_EDGES: [(usize, usize); 5] = [(0, 1), (1, 2), (2, 3), (3, 4), (4, 5)];

static SEALED_CHAIN_WRITES: [(usize, usize); 2] = [(0, 0), (0, 2)];

static SEALED_CHAIN_STEPS: [Step; 9] = [
    Step::Seal(5),
    Step::Seal(4),
    Step::Seal(3),
    Step::Seal(2),
    Step::Seal(1),
    Step::Seal(0),
    Step::Read(0, 5),
    Step::Read(0, 1),
    Step::Read(0, 4),
];

#[test]
fn sealed_chain(rt: HostRuntime) {
    let agree = reads_agree(
        rt.alloc(),
        6,
        &SEALED_CHAIN_EDGES,
        &SEALED_CHAIN_WRITES,
        &SEALED_CHAIN_STEPS,
    );
    assert!(rt; matches!(agree, Ok(true)));
}

static SEALED_BACKWARDS_EDGES: [(usize, usize); 6] = [
    (0, 1),
    (0, 2),
    (1, 3),
    (2, 3),
    (3, 4),
    (3, 1),
];

static SEALED_BACKWARDS_WRITES: [(usize, usize); 2] = [(0, 0), (0, 2)];

static SEALED_BACKWARDS_STEPS: [Step; 9] = [
    Step::Read(0, 4),
    Step::Seal(4),
    Step::Read(0, 3),
    Step::Seal(3),
    Step::Read(0, 1),
    Step::Seal(2),
    Step::Seal(1),
    Step::Seal(0),
    Step::Read(0, 4),
];

#[test]
fn sealed_backwards(rt: HostRuntime) {
    let agree = reads_agree(
        rt.alloc(),
        5,
        &SEALED_BACKWARDS_EDGES,
        &SEALED_BACKWARDS_WRITES,
        &SEALED_BACKWARDS_STEPS,
    );
    assert!(rt; matches!(agree, Ok(true)));
}

static TWO_EDGES_BETWEEN_EDGES: [(usize, usize); 3] = [(0, 1), (0, 1), (1, 2)];

static TWO_EDGES_BETWEEN_WRITES: [(usize, usize); 1] = [(0, 0)];

static TWO_EDGES_BETWEEN_STEPS: [Step; 4] = [
    Step::Seal(0),
    Step::Seal(1),
    Step::Seal(2),
    Step::Read(0, 2),
];

#[test]
fn two_edges_between(rt: HostRuntime) {
    let agree = reads_agree(
        rt.alloc(),
        3,
        &TWO_EDGES_BETWEEN_EDGES,
        &TWO_EDGES_BETWEEN_WRITES,
        &TWO_EDGES_BETWEEN_STEPS,
    );
    assert!(rt; matches!(agree, Ok(true)));
}

static IRREDUCIBLE_EDGES: [(usize, usize); 6] = [(0, 1), (0, 2), (1, 2), (2, 1), (2, 3), (1, 4)];

static IRREDUCIBLE_WRITES: [(usize, usize); 2] = [(0, 0), (0, 1)];

static IRREDUCIBLE_STEPS: [Step; 8] = [
    Step::Seal(0),
    Step::Read(0, 3),
    Step::Read(0, 4),
    Step::Seal(2),
    Step::Seal(1),
    Step::Seal(3),
    Step::Seal(4),
    Step::Read(0, 3),
];

#[test]
fn irreducible(rt: HostRuntime) {
    let agree = reads_agree(
        rt.alloc(),
        5,
        &IRREDUCIBLE_EDGES,
        &IRREDUCIBLE_WRITES,
        &IRREDUCIBLE_STEPS,
    );
    assert!(rt; matches!(agree, Ok(true)));
}

// Where memory is refused, no other answer comes in place of the refusal.
#[test]
fn refused_memory(rt: HostRuntime) {
    let agree = reads_agree(
        rt.alloc(),
        6,
        &NESTED_LOOPS_EDGES,
        &NESTED_LOOPS_WRITES,
        &NESTED_LOOPS_STEPS,
    );
    assert!(rt; !matches!(agree, Ok(false)));
}
