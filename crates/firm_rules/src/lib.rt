// Graphs: what they are, the rules that they obey, and their run.
//
// In comes nothing and out goes nothing: the crate has the types of a graph's nodes and ends, definitions, and laws of them.
// `specs/Graphs.antt` has graphs as data, with the table of operations, and `specs/Lookups.antt` what stands where in one, and its
// shape as a target of SSA construction. `specs/Rules.antt` has the eight rules, each at a node or a block, closed programs and
// trivial Phis. `specs/Frames.antt` has the words of nodes, `specs/Runs.antt` the run, as a relation and as a function, and
// `specs/Visits.antt` the points that a call comes to; `specs/Replacing.antt` says what it is to put a node in the place of another.
//
// The idea: a graph is lists of blocks and nodes. The words of pure nodes are found by demand where a block stands; the nodes that
// take memory act in the order of their chain; an edge sets all Phis at once. The rules on memory and on what is defined speak of
// each walk from the first block.
//
// The invariant: at each point of a run a node has the word that what it means on the walk had at its visit, by `along` of
// `ssa_core` (`words_agree`). It holds of every graph; where the rules hold, the blocks that were entered are a walk.
//
// The theorem: the run is determined, and the relation and the function agree (`run_is_determined`, `run_agrees`). A closed
// program of graphs that obey the rules is stuck only at an access, at a value that is wanted and not given, or where there is no
// proper `main` (`stuck_where`). Each node has the word of its operation (`words_are_of_operations`), and each node of a block
// that takes memory acts once, in order (`chain_is_in_order`). A trivial Phi means what its other value means
// (`trivial_phi`), and putting that in its place keeps the rules and the run (`replacing_keeps`).
//
// Source: Braun, Buchwald and Zwinkau, Firm: A Graph-Based Intermediate Representation (2011). A run over a number of turns is as
// in Owens, Myreen, Kumar and Tan, Functional Big-Step Semantics (2016). Rules 5 and 6, on the order of blocks, are this project's.
#![tactic(auto)]

mod laws;
mod node;

pub use laws::{
    chain_is_in_order, replacing_keeps, run_agrees, run_grows, run_is_determined, stuck_where,
    trivial_phi, words_agree, words_are_of_operations,
};
pub use node::{BlockId, FirmEnd, Mode, NodeId, NodeOp};
