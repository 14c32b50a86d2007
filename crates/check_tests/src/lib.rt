// Tests of the crates that the checker is made of.
//
// They call what these crates make public, and nothing else. The expected values are worked by hand.
//
// `nodes` has the nodes of a tree, its declarators and its scopes (`c_nodes`), `names` what its names denote and declare
// (`c_names`), `tags` its tags (`c_tags`), `locals` the locals of functions (`c_locals`), `objects` the objects of a unit
// (`c_objects`), `contexts` what is called and what stands before functions (`c_contexts`), `uses` what is asked of names that are
// used (`c_uses`), `values` types by their ids, values and operators (`c_type_ids`, `c_constants`, `c_values`).
#![tactic(auto)]

#[cfg(test)]
mod contexts;
#[cfg(test)]
mod locals;
#[cfg(test)]
mod names;
#[cfg(test)]
mod nodes;
#[cfg(test)]
mod objects;
#[cfg(test)]
mod tags;
#[cfg(test)]
mod uses;
#[cfg(test)]
mod values;
