// What is counted while the checker goes from node to node: the hidden locals that expressions take, and the string literals that
// are objects.
//
// In comes, after each node, how many hidden locals it takes and whether it is such a literal: both depend on types, so no pass
// before the checker can know them. Out go the number of the first hidden local that the next node may take, how many locals a
// function has, and the number of the next literal among the objects of the unit.
//
// The idea: the rules sum what the nodes of one function take. With the sums up to each node, that is the difference of two of
// them. Hidden locals stand behind those with names, which `c_locals` counts.
//
// The invariant: the counters are those of the judgements so far (`AreCounted` of `specs/Counters.antt`).
//
// The theorem, for every tree that some tokens derive, and all judgements that were counted: `first_hidden` is `hidden_before` of
// `c_typing`, `locals_in` is `locals_of`, and `next_literal` the number that `literal` gives the object of a literal.
//
// `counters` has the counters, `sums` the sums that they keep, and `named` the locals with names.
//
// Source: C99 6.2.4, 6.4.5.
#![tactic(auto)]

mod counters;
mod named;
mod sums;

pub use counters::Counters;
