// Definitions and laws: in a tree that some tokens derive, which types have arrays without a length.
//
// The idea: a type is made of that of specs by the steps of a declarator, and only the step next to a name that has an
// initializer makes an array without a length. So the types of specs, of parameters and of members have their lengths, whether
// rules are broken or not.
//
// Source: C99 6.7.5.2.
#![tactic(auto)]
