// Typing: which rules of the language a syntax tree keeps, and the typed unit of a tree that keeps them all.
//
// This crate has definitions and laws, and no code that runs. The checker's contract is to cite them.
//
// In comes a syntax tree. Out go the faults of all its nodes, each a rule that is broken at a node or a size that is above
// the limit at a node, and the typed unit.
//
// The idea: the nodes of a tree have their places in post-order, kids before their parents, so all that a node's meaning
// needs has a smaller number, and a subtree is an interval of numbers. `specs/Places.antt` has the nodes and the scopes,
// `specs/Names.antt` what an identifier or a tag names at a node, and the numbers of objects, functions and locals: counts and
// finds over the nodes, which look at no type. Each node has one judgement (`specs/Judgements.antt`): a meaning, or the rules
// that it breaks, or that it waits for a part that has no meaning. `specs/Typing.antt` has one line for each kind of node, and
// reads off the faults and the unit.
//
// `specs/Rules.antt` has one definition for each rule. `specs/Types.antt`: types, promotions, sizes. `specs/Conversions.antt`:
// values, conversions, the table of operators with their operands and their code. `specs/Constants.antt`: constants.
// `specs/Expressions.antt`, `specs/Declarators.antt`, `specs/Initializers.antt`, `specs/Statements.antt`: what these mean.
//
// The shapes (`specs/Shapes.antt`): which text and which kids a node of each kind has, by the syntactic categories of the
// kids, and how the scopes of the grammar run through a tree.
//
// The invariant: a node that breaks a rule has no meaning, and a node that needs the meaning of a part waits where that has none.
//
// The theorems, on `progress` and `made`: a tree that some token list derives is typed as exactly one unit, or breaks a rule at
// one of its nodes, or has a size above the limit at one; where no rule is broken and no size is too big, each node has a
// meaning, with the form of its category (`specs/Meant.antt`). Where the tokens are those of some bytes, the unit is well made
// (`WellMade.antt` of c_types). On `shapes`: in a tree that some token list derives, each node has its shape, and so has the
// node at each place of its table. On `parents`: which nodes a node may be a kid of. On `names`: the lowest node of a
// declarator is its name, or the place of the absent name, and that of no other tree is one, but that an `InitDecl` begins
// with its declarator. On `identifiers`: in a derived tree a word among specifiers is a keyword or a typedef name, and a name
// in an expression is no typedef name. On `nodes`: of the nodes by their places, each has its shape, its lowest node and its
// parent.
//
// The rows: `proofs/Rows*.antt` compute, from texts, the faults of units that break each rule and of their nearest neighbours that
// do not, the typed form of each conversion and operator, and whole units. `proofs/Texts.antt` reads the texts. docs/TYPING.md has
// the rules as a user meets them.
//
// The proof of progress: `proofs/ProgressAll.antt` is the induction on the numbers of nodes, over `proofs/ProgressKind.antt`, a
// line for each kind. `ProgressExpressions`, `ProgressStatements`, `ProgressDeclarators` and `ProgressNames` have a lemma for
// each definition of what a node means, and `ProgressOn*` bring the kids to them. What is wanted beside the kids:
// `ProgressOwners` and `ProgressBefore` (specs and enumerators before a node), `ProgressAround` (the function around),
// `ProgressWhole` and `ProgressDeclared` (names and their types), `ProgressTargets`, `ProgressInitial` and `ProgressInitials`
// (what strings and braces initialize). `ProgressBuilt`, `ProgressCompleted`, `ProgressSpecs` and `ProgressSizes` (the types of
// declarators), for `ProgressSized`, `ProgressObjects`, `ProgressLocals` and `ProgressUses`: what the unit is put together from is
// there. `proofs/Bounds*.antt`: all faults name rules from 1 to 27 and nodes of the tree.
//
// The proofs of the laws of shapes: `proofs/ShapesLaw.antt` is the induction on the derivation, with a case for each rule, over the
// facts of `proofs/ShapesBase.antt`; `proofs/ShapesPlaces.antt` and `proofs/ShapesTable.antt` take it to the table;
// `proofs/ShapesRows.antt` has shapes that hold and shapes that do not.
//
// The proof of `made`: `proofs/MadeUnit.antt` joins the facts. `MadeJudged` is the induction on judgements; `MadeNodes`, `MadePlaced`,
// `MadeTop` and `MadeWhole` say how nodes stand in each other, and `MadeMeant` brings the meanings of progress. `MadeForms`,
// `MadeAnything` and `MadeOthers` have what holds of all meanings of a form; `MadeStatements` and `MadeCode` all statements and
// expressions, from what names something; `MadeNames`, `MadeKept`, `MadeTyped` and `MadeScopes` names, their types and scopes.
// On these stand the facts: of functions `MadeDefined`, `MadeOnce`, `MadeTexts`, `MadeMain`, `MadeWordsNames`; of what is named
// `MadeNamed`, `MadeLocals`, `MadeCalled`; of statements `MadeJumps`, `MadeLabels`; of data `MadeSizes`, `MadeData`,
// `MadeAddresses`, `MadeCellsApart`, `MadeCellsInside`; of copies `MadeCopied`.
//
// Source: C99 6.2 to 6.9, without what docs/TYPING.md leaves out.
#![tactic(auto)]

mod laws;

pub use laws::{identifiers, made, names, nodes, parents, progress, shapes};
