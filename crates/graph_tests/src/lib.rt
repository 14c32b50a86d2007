// Tests of lists in one region and of graphs, over their public calls.
//
// Each crate has a module here, so that it is proved once, without its tests. The tests have what no clause says: that the
// calls succeed where there is memory, and that the clauses mean what they should. The expected values are worked by hand.
//
// `lists` has the lists of an obstack (`cp_obstack`); `uses` has rows that grow, and users with what they use (`firm_uses`).
#![tactic(auto)]

#[cfg(test)]
mod lists;
#[cfg(test)]
mod uses;
