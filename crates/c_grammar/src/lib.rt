// The grammar: which syntax tree a token list has.
//
// This crate has definitions and laws, and no code that runs. The parser's contract cites the definitions,
// and the checker's will, so the crate comes before both.
//
// The idea: `Derives` has one case for each alternative of the grammar, over whole parts: it speaks of
// the tokens from one list on, up to a rest, and of the tree that they have. Whether an identifier is a
// typedef name is read from the scopes before the part; the scopes behind it are a function of its tree
// (`specs/Scopes.antt`). `specs/Reading.antt` reads trees with a budget for their height. It serves the
// laws; contracts on trees name the derivation and heights alone. `specs/Checkable.antt` has the tables
// that the checker is given: those of derived trees within the limit of heights.
//
// The theorem, on `one_tree`: two trees of one token list are equal. It rests on what `derived_is_found`
// rests on: what is derived is read within each budget that its height is in.
//
// The other laws. On `found_is_derived`: what is read within a budget is derived, and no higher than the
// budget. On `derived_is_found`: a unit's tree is read within each budget that its height is in, and the
// reading is too deep within each lower one; so what is read to be wrong has no tree of any height. On
// `cut`: where the reading of a unit is too deep, each tree of each list that begins with the tokens before
// the place is higher than the budget; where a token is wrong, no list that begins with the tokens before
// the place and then the wrong token has a tree. On `completion`: where it is too deep, the tokens before the
// place begin a list that has a tree. On `front_of_derivation`: what is derived is a front of the tokens, and
// it is derived before each rest that begins with the same token.
//
// The proofs: `proofs/Sound*.antt` take a reading apart; `proofs/Found` proves that what is derived is
// found: `Claims.antt` says what a derivation says of the reading, `Whole.antt` puts the cases together, one
// for each rule, over the steps of `proofs/Budgets.antt`. `proofs/Kept*.antt`: a reading depends on
// the tokens before its place and, unless it is too deep, on the token at the place.
// `proofs/TooDeep`: what completes the tokens before a place where the reading is too deep.
// `proofs/Derived.antt` derives short lists where a rule is easy to get wrong; `proofs/Refused.antt` says of
// parts what they cannot begin with and which trees they cannot have; `proofs/SwitchKids.antt` says how
// labels and statements stand in a `switch`.
// `proofs/Examples.antt` has short parts and their trees, for scopes and `switch`, `proofs/NoTrees.antt`
// short units without a tree, `proofs/FaultPlaces.antt` places of faults in short units.
//
// Source: C99 6.5 to 6.9 and A.2, without what docs/DECISIONS.md leaves out; chains that grow to the left
// are read as loops, as in recursive descent (Aho and others, Compilers, 4.3 and 4.4).
#![tactic(auto)]

mod laws;

pub use laws::{
    completion, cut, derived_is_found, found_is_derived, front_of_derivation, one_tree,
};
