// What holds of all derivations.
ghost use Rattle.std.specs.Prelude.{◌≡◌, ℕ, ◌≤◌, ◌<◌, List, [], ◌∷◌, ◌++◌};
ghost use Rattle.c_lexer.specs.declared.token.Token.{Token};
ghost use Rattle.c_syntax.specs.Trees.{Tree, Forest, height, forest_height};
ghost use Rattle.c_grammar.specs.Scopes.{Names};
ghost use Rattle.c_grammar.specs.Derivation.{Part, Row, Qualifiers, Literals, Derives, Lists, IsTreeOf};
ghost use Rattle.c_grammar.specs.Fronts.{IsFront};
ghost use Rattle.c_grammar.specs.Answers.{found, wrong, deep};
ghost use Rattle.c_grammar.specs.Reading.{Goal, Rows, read, read_unit};
ghost use Rattle.c_grammar.specs.Meanings.{IsTree, AreTrees};

/// What is derived is a front of the tokens, and it is derived too before each rest with the same first token.
pub fn front_of_derivation()
    ensures qualifiers { (a b : List Token) → Qualifiers a b → IsFront Qualifiers a b }
    ensures literals { (a b : List Token) (joined : List ℕ)
        → Literals a b joined
        → IsFront (λ x y. Literals x y joined) a b }
    ensures part { (names : Names) (part : Part) (a b : List Token) (t : Tree)
        → Derives names part a b t
        → IsFront (λ x y. Derives names part x y t) a b }
    ensures row { (names : Names) (row : Row) (a b : List Token) (ts : Forest)
        → Lists names row a b ts
        → IsFront (λ x y. Lists names row x y ts) a b }
{}

/// What is read within a budget is derived, and no higher than the budget.
pub fn found_is_derived()
    ensures goal { (d : ℕ) (goal : Goal) (names : Names) (a b : List Token) (t : Tree)
        → (read d).tree_of goal names a ≡ found t b
        → IsTree goal names a b t × (height t ≤ d) }
    ensures row { (d : ℕ) (row : Rows) (names : Names) (a b : List Token) (ts : Forest)
        → (read d).trees_of row names a ≡ found ts b
        → AreTrees row names a b ts × (forest_height ts ≤ d) }
    ensures unit { (d : ℕ) (a : List Token) (t : Tree)
        → read_unit d a ≡ found t []
        → IsTreeOf a t × (height t ≤ d) }
{}

/// What is derived is read within each budget that its height is in, and is too deep within each lower one. So
/// what is read to be wrong has no tree of any height.
pub fn derived_is_found()
    ensures found { (d : ℕ) (a : List Token) (t : Tree)
        → IsTreeOf a t
        → height t ≤ d
        → read_unit d a ≡ found t [] }
    ensures too_deep { (d : ℕ) (a : List Token) (t : Tree)
        → IsTreeOf a t
        → d < height t
        → (rest : List Token) × (read_unit d a ≡ deep rest) }
    ensures wrong { (d : ℕ) (a rest : List Token) (t : Tree)
        → read_unit d a ≡ wrong rest
        → IsTreeOf a t
        → ⊥ }
{}

/// Where a list is too deep at a place, each tree of each list that begins with the tokens before the place is higher
/// than the budget. Where a token is wrong, no list that begins with the tokens up to it, it included, has a tree.
pub fn cut()
    ensures deep { (d : ℕ) (pre rest other : List Token) (t : Tree)
        → read_unit d (pre ++ rest) ≡ deep rest
        → IsTreeOf (pre ++ other) t
        → d < height t }
    ensures wrong { (d : ℕ) (pre rest other : List Token) (next : Token) (t : Tree)
        → read_unit d (pre ++ next ∷ rest) ≡ wrong (next ∷ rest)
        → IsTreeOf (pre ++ next ∷ other) t
        → ⊥ }
{}

/// Where the reading is too deep, the tokens before the place begin a list that has a tree.
pub fn completion()
    ensures { (d : ℕ) (ts rest : List Token)
        → read_unit d ts ≡ deep rest
        → (pre : List Token) × (other : List Token) × (t : Tree) × (ts ≡ pre ++ rest) × IsTreeOf (pre ++ other) t }
{}

/// Two trees of one token list are equal.
pub fn one_tree()
    ensures { (a : List Token) (t u : Tree) → IsTreeOf a t → IsTreeOf a u → t ≡ u }
{}
