// Calls of functions.
//
// In come a table of types, the place of a node, the name that is called, and the arguments, each an expression that moves into
// the call. Out goes the call as an expression, or the first rule that is broken: the number of arguments, and then the
// conversion of each to its parameter's type, in order.
//
// The idea: the arguments are a stack on which the first one lies on top, so that they are taken in order.
//
// The theorem, `call`: for every node at that place, and all expressions of the rules that the name and the arguments are, the
// answer is that of the production in `c_typing`; and the table only grows.
//
// `arguments` passes arguments, `calls` has the call with its code.
//
// Source: C99 6.5.2.2.
#![tactic(auto)]

mod arguments;
mod calls;

pub use calls::call;
