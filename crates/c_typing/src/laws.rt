// What holds of all derived trees, and of their typed units.
ghost use Rattle.std.specs.Prelude.{◌≡◌, ◌⊎◌, ℕ, ◌<◌, true, List, [], length, slice_get, Some};
ghost use Rattle.std.specs.List.{list_all};
ghost use Rattle.c_lexer.specs.declared.token.Token.{Token};
ghost use Rattle.c_lexer.specs.Tokens.{HasTokens};
ghost use Rattle.c_syntax.specs.declared.kind.SynKind.{SynKind};
ghost use Rattle.c_syntax.specs.declared.syntax.SynId.{SynId};
ghost use Rattle.c_syntax.specs.declared.syntax.SynNode.{SynNode};
ghost use Rattle.c_syntax.specs.Tables.{size, table_of};
ghost use Rattle.c_syntax.specs.Trees.{Tree, one};
ghost use Rattle.c_grammar.specs.Derivation.{IsTreeOf};
ghost use Rattle.c_typing.specs.Places.{Node, nodes};
ghost use Rattle.c_typing.specs.ShapesOfNodes.{IsPlaced, HasParent};
ghost use Rattle.c_types.specs.declared.tree.Unit.{Unit};
ghost use Rattle.c_types.specs.WellMade.{IsWellMade};
ghost use Rattle.c_typing.specs.Typing.{faults, IsTyped};
ghost use Rattle.c_typing.specs.Meant.{IsMeant, IsSound, IsSized, IsUsed, IsLocal, HasOneUnit, IsBroken, IsTooBig};
ghost use Rattle.c_typing.specs.Names.{Name, places, objects_of, is_automatic};
ghost use Rattle.c_syntax.specs.declared.kind.SynKind.TheVariants as kind;
ghost use Rattle.c_typing.specs.Shapes.{Category, unit, category_of, categories_of, kids_fit, stands_in, are_shaped, IsShapedAt, Fits, lowest_kind, begins_with, IsReadByNames};

/// In a tree that some token list derives each node has its shape, and the root is a unit. So the node at each place of
/// its table is the root of a tree whose nodes have their shapes; and by the categories at their places, its text and its
/// kids are in the tables.
pub fn shapes()
    ensures nodes { (tokens : List Token) (t : Tree) → IsTreeOf tokens t → are_shaped (one t) ≡ true }
    ensures root { (tokens : List Token) (t : Tree) → IsTreeOf tokens t → category_of t ≡ unit }
    ensures places { (tokens : List Token) (t : Tree) (id : SynId)
        → IsTreeOf tokens t
        → id.number < length (table_of t)
        → IsShapedAt (table_of t) id }
    ensures table { (tokens : List Token) (t : Tree) (id : SynId) (n : SynNode)
        → IsTreeOf tokens t
        → slice_get (table_of t) id.number ≡ Some n
        → Fits (categories_of (table_of t)) id.number n }
{}

/// Kids that are in the tables stand in a node that may have them.
pub fn parents()
    ensures { (k : SynKind) (text : List ℕ) (kids : List Category)
        → kids_fit k text kids ≡ true
        → list_all (λ c. stands_in c k) kids ≡ true }
{}

/// The lowest node of a declarator is its name, or the place of the absent name, and that of no other tree is one, but
/// that an `InitDecl` begins with its declarator.
pub fn names()
    ensures { (t : Tree) → are_shaped (one t) ≡ true → begins_with (category_of t) (lowest_kind t.label.kind t.kids) ≡ true }
{}

/// In a tree that some token list derives, a word among specifiers is a keyword or a typedef name, and a name in an
/// expression is no typedef name, by the scopes of the grammar.
pub fn identifiers()
    ensures { (tokens : List Token) (t : Tree) → IsTreeOf tokens t → IsReadByNames t }
{}

/// The nodes of a derived tree by their places: each has its place as its number, its shape and its lowest node; and all
/// but the root are among the kids of their parent, which may have them.
pub fn nodes()
    ensures places { (tokens : List Token) (t : Tree) (n : ℕ) (m : Node)
        → IsTreeOf tokens t
        → slice_get (nodes t) n ≡ Some m
        → IsPlaced t n m }
    ensures parents { (tokens : List Token) (t : Tree) (n : ℕ) (m : Node)
        → IsTreeOf tokens t
        → slice_get (nodes t) n ≡ Some m
        → n < size t.kids
        → HasParent t n m }
{}

/// One typing: a tree that some token list derives is typed as exactly one unit, or breaks a rule at one of its nodes, or has a
/// size above the limit at one; and where a tree is typed, neither of the others holds. Where no rule is broken and no size is
/// above the limit, each node has a meaning, with the form of its category; each object has a type with a size; an automatic
/// one stands in a function, and has its place there; and what a name in an expression names is no type, and is defined.
pub fn progress()
    ensures one_typing { (tokens : List Token) (t : Tree) → IsTreeOf tokens t → HasOneUnit t ⊎ (IsBroken t ⊎ IsTooBig t) }
    ensures alone { (t : Tree) (u : Unit) → IsTyped t u → IsSound t }
    ensures meant { (tokens : List Token) (t : Tree) (n : ℕ) (m : Node)
        → IsTreeOf tokens t
        → faults t ≡ []
        → slice_get (nodes t) n ≡ Some m
        → IsMeant t n m }
    ensures objects { (tokens : List Token) (t : Tree) (k : ℕ) (e : Name)
        → IsTreeOf tokens t
        → faults t ≡ []
        → slice_get (objects_of (places t)) k ≡ Some e
        → IsSized t e }
    ensures locals { (tokens : List Token) (t : Tree) (k : ℕ) (e : Name)
        → IsTreeOf tokens t
        → slice_get (places t).names k ≡ Some e
        → is_automatic e.entity ≡ true
        → IsLocal t e }
    ensures uses { (tokens : List Token) (t : Tree) (n : ℕ) (m : Node)
        → IsTreeOf tokens t
        → faults t ≡ []
        → slice_get (nodes t) n ≡ Some m
        → m.label.kind ≡ kind.Var
        → IsUsed t m }
{}

/// A typed unit is well made, where the tokens are those of some bytes: all that `IsWellMade` asks of a unit holds of it.
pub fn made()
    ensures { (bytes : List ℕ) (tokens : List Token) (t : Tree) (u : Unit)
        → HasTokens bytes tokens
        → IsTreeOf tokens t
        → IsTyped t u
        → IsWellMade u }
{}
