// What declarations mean by types alone, without names and without the tree.
//
// In come the words of specs, the steps of a declarator, the lengths of arrays, the values of enumerators, and the members of
// structs. Out goes a type, a value, or the first fault.
//
// The idea: one function a row of the rules, over small plain values. A type is an id in a table. The words of specs are counted
// by their sorts, one by one. The steps of a declarator are a list, from whose end its type is built. The names of members go
// into a hashed set.
//
// The theorem, on each function: for every value of the rules that the given ones are, the answer is that of the definition in
// `c_typing`; a refusal is the first fault of its list (`Settles` of `c_answers`).
//
// `type_words` has the words for types, `storage` the storage words, `specs_words` all words of specs, `steps` the steps of declarators, `built` their types,
// `parameters` those of functions, `lengths` the lengths of arrays and the values of enumerators, `members` the members of
// structs, and `questions` what is asked of a declarator by its type.
//
// Source: C99 6.7.
#![tactic(auto)]

mod built;
mod lengths;
mod members;
mod parameters;
mod questions;
mod specs_words;
mod steps;
mod storage;
mod type_words;

pub use built::build;
pub use lengths::{constant_word, enumerator_after, enumerator_value, length_of};
pub use members::{check_names, close_struct};
pub use parameters::{adjusted, check_parameters};
pub use questions::{
    agree, is_array_or_struct, is_bad_library_name, is_bad_main, is_incomplete,
    is_incomplete_object, is_incomplete_parameter,
};
pub use specs_words::{Given, SpecsWords, type_of_specs};
pub use steps::{Step, Steps};
pub use storage::{SpecsPlace, Storage, StorageWord, is_bad_storage};
