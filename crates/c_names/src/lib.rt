// What the names of a syntax tree denote and declare.
//
// In comes the table of a syntax tree, with what `c_nodes` says of its nodes. Out go, for each use of a name, the node that
// declares what it denotes; for each node, the name that it declares; for each name, what declares it before in its scope;
// and the numbers of functions.
//
// The idea: passes over the table, in which a name is entered behind its declarator. For what a use denotes, each text has
// the chain of its names in the scopes that have not ended, one a scope, the innermost last; so a use looks at the last one.
// What a name declares is found from its specifiers, whose words were looked at before. What declares it before stands in a
// map from texts and scopes. Texts are numbered first, by the first node that has them, so that one look-up of a text is
// made for each node with a name.
//
// The invariant of a chain: its scopes end one before the other, and of each name that has been entered, and that can still
// be seen from somewhere, it has one that comes before it there. That of `ScopedNodes`, which contracts see as the table:
// some tokens derive the tree, and the declarators, scopes and texts of its nodes are those of the definitions.
//
// The theorem: each answer is that of the definition in `c_typing`, for every tree that some tokens derive. `denoted`:
// `denoted`. `declared_names`: `name_of`. `earlier_declarations`: `earlier`, of which it gives the last, and whether one is
// initialized. `function_numbers`: `function_number`.
//
// `texts` numbers texts, `scoped` has the nodes with their scopes, `chain` the names of one text, and `uses` what uses denote;
// `words` has what specifiers say, `names` what nodes declare, `declarations` what declares a name before, and `functions`
// the numbers of functions.
//
// Source: C99 6.2.1 to 6.2.4, 6.7.
#![tactic(auto)]

mod chain;
mod declarations;
mod functions;
mod names;
mod scoped;
mod texts;
mod uses;
mod words;

pub use declarations::{Earlier, earlier_declarations};
pub use functions::function_numbers;
pub use names::{DeclaredName, Entity, declared_names};
pub use scoped::ScopedNodes;
pub use uses::denoted;
