// Expressions. C99 6.5.
ghost use Rattle.std.specs.Prelude.{◌≡◌, ◌≤◌, ◌<◌, ◌+◌, ◌^◌, ◌-◌, ◌∷◌, true, false, suc, length, IfSome, IfNone};
ghost use Rattle.c_syntax.specs.Trees.{constant_node};
ghost use Rattle.c_grammar.specs.Answers.{ahead, found, fit};
ghost use Rattle.c_grammar.specs.Reading.{below};
ghost use Rattle.c_lexer.specs.declared.token.Punct.TheVariants.{LeftParenthesis, Question, Comma};
ghost use Rattle.c_grammar.specs.Vocabulary.{Place, is_assignment};
ghost use Rattle.c_parser.specs.Gives.{GivesPart, GivesPartOrNone, GivesLonger, GivesPartsOrNone};
ghost use Rattle.c_parser.specs.Steps.{begins_suffix, begins_string, assigns_by, no_operator, comma_at, assigned_at, choice_at, operand_at, cast_to, size_in_at, suffix_at, indexed, called, selected, primary_at, constant_at, size_of_operand, size_of_type, marked_at, operated_at};
ghost use Rattle.c_parts.specs.Nodes.{leaves_names, declares_nothing};
ghost use Rattle.c_grammar.specs.Reading as reading;
ghost use Rattle.c_grammar.specs.Vocabulary as vocabulary;

use crate::parser::Parser;
use c_lexer::{Punct, TokenKind, mark_text};
use c_parts::{
    Part, Stop, above, above_first, above_three, above_two, constant, is_assignment,
    is_unary_operator, leaf, level_of, literal, within,
};
use c_syntax::SynKind;
use cp_base::Bytes;

// The level of the binary operators that bind least.
const LOOSEST: usize = 10;

// Of the trees that `conditional` gives, those of this kind are unary expressions.
#[tactic(auto, unfolding(c_grammar::specs::Reading::is_unary_by))]
fn is_unary(kind: SynKind) -> bool
    ensures { result ≡ reading.is_unary_by kind }
{
    !matches!(kind, SynKind::Cast | SynKind::Binary | SynKind::Cond)
}

impl<'a> Parser<'a> {
    /// An expression.
    // expr = assign { "," assign }
    #[cycle(parse)]
    pub fn expression(&mut self, budget: usize) -> Result<Part, Stop>
        ensures { GivesPart (reading.expression_in budget (below budget)) budget self.old self.new result }
    {
        let mut operands = self.assignment(budget)?;
        while self.at_mark(Punct::Comma) {
            operands = self.comma(operands, budget)?;
        }
        Ok(operands)
    }

    // One comma and the operand behind it.
    #[cycle(parse)]
    fn comma(&mut self, left: Part, budget: usize) -> Result<Part, Stop>
        requires { reading.begins_with_mark Comma self.now.rest.now ≡ true }
        ensures { GivesLonger (comma_at budget (below budget)) budget left self.old self.new result }
    {
        let lower = self.enter(left.height, budget)?;
        let right = self.assignment(lower)?;
        above_two(&mut self.trees, SynKind::Comma, "", left.start, left, right)
    }

    /// An expression without a comma.
    // assign = cond | unary assignop assign
    #[cycle(parse)]
    pub fn assignment(&mut self, budget: usize) -> Result<Part, Stop>
        ensures { GivesPart (reading.assignment_in budget (below budget)) budget self.old self.new result }
    {
        let target = self.conditional(budget)?;
        match self.assignment_operator() {
            Some(mark) if is_unary(target.kind) => self.assigned(target, mark, budget),
            _ => Ok(target),
        }
    }

    // An assignment, from its operator on.
    #[cycle(parse)]
    fn assigned(&mut self, target: Part, mark: Punct, budget: usize) -> Result<Part, Stop>
        requires assigns { (is_assignment mark ≡ true) × ((at : Place) × (self.now.rest.now ≡ vocabulary.mark mark at ∷ reading.behind_one self.now.rest.now)) }
        requires unary { reading.is_unary_by target.kind ≡ true }
        ensures { GivesLonger (assigned_at budget (below budget)) budget target self.old self.new result }
    {
        let lower = self.enter(target.height, budget)?;
        let value = self.assignment(lower)?;
        let start = target.start;
        above_two(
            &mut self.trees,
            SynKind::Assign,
            mark_text(mark),
            start,
            target,
            value,
        )
    }

    /// An expression without assignments.
    // cond = binary(10) [ "?" expr ":" cond ]
    #[cycle(parse)]
    pub fn conditional(&mut self, budget: usize) -> Result<Part, Stop>
        ensures { GivesPart (reading.conditional_in budget (below budget)) budget self.old self.new result }
    {
        let condition = self.binary(LOOSEST, budget)?;
        if self.at_mark(Punct::Question) {
            return self.choice(condition, budget);
        }
        Ok(condition)
    }

    // A choice, from its mark on.
    #[cycle(parse)]
    fn choice(&mut self, condition: Part, budget: usize) -> Result<Part, Stop>
        requires { reading.begins_with_mark Question self.now.rest.now ≡ true }
        ensures { GivesLonger (choice_at budget (below budget)) budget condition self.old self.new result }
    {
        let lower = self.enter(condition.height, budget)?;
        let then = self.expression(lower)?;
        self.expect(Punct::Colon)?;
        let other = self.conditional(lower)?;
        above_three(
            &mut self.trees,
            SynKind::Cond,
            condition.start,
            condition,
            then,
            other,
        )
    }

    /// An expression of binary operators up to this level.
    // binary(n) = binary(n - 1) { operator of level n, binary(n - 1) }
    #[cycle(parse)]
    fn binary(&mut self, loosest: usize, budget: usize) -> Result<Part, Stop>
        ensures { GivesPart (reading.binary_in budget (below budget) loosest) budget self.old self.new result }
    {
        let mut operands = self.cast(budget)?;
        let mut tightest = 1;
        while let Some((mark, level)) = self.operator(tightest, loosest) {
            operands = self.operand(operands, mark, level, budget)?;
            tightest = level;
        }
        Ok(operands)
    }

    // An operator of this level, and the operand behind it.
    #[cycle(parse)]
    fn operand(
        &mut self,
        left: Part,
        mark: Punct,
        level: usize,
        budget: usize,
    ) -> Result<Part, Stop>
        requires { (1 ≤ level) × ((vocabulary.level_of mark ≡ level) × ((at : Place) × (self.now.rest.now ≡ vocabulary.mark mark at ∷ reading.behind_one self.now.rest.now))) }
        ensures { GivesLonger (operand_at budget (below budget) (level - 1)) budget left self.old self.new result }
    {
        let lower = self.enter(left.height, budget)?;
        let right = self.binary(level - 1, lower)?;
        let start = left.start;
        above_two(
            &mut self.trees,
            SynKind::Binary,
            mark_text(mark),
            start,
            left,
            right,
        )
    }

    // cast = unary | "(" type_name ")" cast
    #[cycle(parse)]
    fn cast(&mut self, budget: usize) -> Result<Part, Stop>
        ensures { GivesPart (reading.cast_in budget (below budget)) budget self.old self.new result }
    {
        if !self.at_mark(Punct::LeftParenthesis) {
            return self.unary(budget);
        }
        let (here, start) = (self.rest, self.start());
        self.advance();
        if self.begins_specifier(false) {
            return self.cast_to(start, budget);
        }
        self.rest = here;
        self.unary(budget)
    }

    // A cast, from behind its parenthesis.
    #[cycle(parse)]
    fn cast_to(&mut self, start: usize, budget: usize) -> Result<Part, Stop>
        ensures { GivesPart (cast_to budget (below budget) start) budget self.old self.new result }
    {
        let lower = within(1, budget)?;
        let target = self.type_name(lower)?;
        self.expect(Punct::RightParenthesis)?;
        let operand = self.cast(lower)?;
        above_two(&mut self.trees, SynKind::Cast, "", start, target, operand)
    }

    // unary = postfix | "++" unary | "--" unary | unop cast | "sizeof" unary | "sizeof" "(" type_name ")"
    #[cycle(parse)]
    fn unary(&mut self, budget: usize) -> Result<Part, Stop>
        ensures { GivesPart (reading.unary_in budget (below budget)) budget self.old self.new result }
    {
        let Some(token) = self.peek() else {
            return self.postfix(budget);
        };
        match &token.kind {
            TokenKind::Punct(mark) => self.prefixed(*mark, token.start, budget),
            TokenKind::Word(name) if name.as_slice() == "sizeof" => {
                let lower = self.enter(1, budget)?;
                self.size_of(token.start, lower, budget)
            }
            _ => self.postfix(budget),
        }
    }

    // What begins with this mark.
    #[cycle(parse)]
    fn prefixed(&mut self, mark: Punct, start: usize, budget: usize) -> Result<Part, Stop>
        requires { (at : Place) × ((self.now.rest.now ≡ vocabulary.mark mark at ∷ reading.behind_one self.now.rest.now) × (start ≡ at.start)) }
        ensures { GivesPart (reading.unary_in budget (below budget)) budget self.old self.new result }
    {
        match mark {
            Punct::PlusPlus => self.stepped("++", start, budget),
            Punct::MinusMinus => self.stepped("--", start, budget),
            _ => self.operated(mark, start, budget),
        }
    }

    // What begins with this mark, which is no step.
    #[cycle(parse)]
    fn operated(&mut self, mark: Punct, start: usize, budget: usize) -> Result<Part, Stop>
        ensures { GivesPart (operated_at budget (below budget) mark start) budget self.old self.new result }
    {
        if !is_unary_operator(mark) {
            return self.postfix(budget);
        }
        let lower = self.enter(1, budget)?;
        let operand = self.cast(lower)?;
        above(
            &mut self.trees,
            SynKind::Unary,
            mark_text(mark),
            start,
            operand,
        )
    }

    // A step before its operand.
    #[cycle(parse)]
    fn stepped(&mut self, text: &str, start: usize, budget: usize) -> Result<Part, Stop>
        ensures { GivesPart (marked_at budget (below budget) reading.unary text.now start) budget self.old self.new result }
    {
        let lower = self.enter(1, budget)?;
        let operand = self.unary(lower)?;
        above(&mut self.trees, SynKind::Unary, text, start, operand)
    }

    // What stands behind `sizeof`.
    #[cycle(parse)]
    fn size_of(&mut self, start: usize, lower: usize, budget: usize) -> Result<Part, Stop>
        requires { (budget ≡ suc lower) × (below budget ≡ reading.level lower (below lower)) }
        ensures { GivesPart (size_in_at budget (below budget) start) budget self.old self.new result }
    {
        if !self.at_mark(Punct::LeftParenthesis) {
            return self.size_of_operand(start, lower);
        }
        let here = self.rest;
        self.enter(2, budget)?;
        if self.begins_specifier(false) {
            return self.size_of_type(start, lower);
        }
        self.rest = here;
        self.size_of_operand(start, lower)
    }

    // The size of an operand.
    #[cycle(parse)]
    fn size_of_operand(&mut self, start: usize, lower: usize) -> Result<Part, Stop>
        requires { suc lower < 2 ^ 64 }
        ensures { GivesPart (size_of_operand (reading.level lower (below lower)) start) (suc lower) self.old self.new result }
    {
        let operand = self.unary(lower)?;
        above(&mut self.trees, SynKind::SizeExpr, "", start, operand)
    }

    // The size of a type, from behind its parenthesis.
    #[cycle(parse)]
    fn size_of_type(&mut self, start: usize, lower: usize) -> Result<Part, Stop>
        requires { suc lower < 2 ^ 64 }
        ensures { GivesPart (size_of_type (reading.level lower (below lower)) start) (suc lower) self.old self.new result }
    {
        let target = self.type_name(lower)?;
        self.expect(Punct::RightParenthesis)?;
        above(&mut self.trees, SynKind::SizeType, "", start, target)
    }

    // postfix = primary { "[" expr "]" | "(" arguments ")" | "." name | "->" name | "++" | "--" }
    #[cycle(parse)]
    fn postfix(&mut self, budget: usize) -> Result<Part, Stop>
        ensures { GivesPart (reading.postfix_in budget (below budget)) budget self.old self.new result }
    {
        let mut operand = self.primary(budget)?;
        while self.begins_suffix() {
            operand = self.suffix(operand, budget)?;
        }
        Ok(operand)
    }

    // One suffix more.
    #[cycle(parse)]
    fn suffix(&mut self, operand: Part, budget: usize) -> Result<Part, Stop>
        requires { begins_suffix (ahead self.now.rest.now) ≡ true }
        ensures { GivesLonger (suffix_at budget (below budget)) budget operand self.old self.new result }
    {
        let Some(token) = self.peek() else {
            return Err(Stop::Wrong);
        };
        let TokenKind::Punct(mark) = token.kind else {
            return Err(Stop::Wrong);
        };
        let lower = self.enter(operand.height, budget)?;
        match mark {
            Punct::LeftBracket => self.indexed(operand, lower),
            Punct::LeftParenthesis => self.called(operand, lower),
            Punct::Dot => self.selected(SynKind::Dot, operand),
            Punct::Arrow => self.selected(SynKind::Arrow, operand),
            Punct::PlusPlus => {
                above(&mut self.trees, SynKind::Post, "++", operand.start, operand)
            }
            _ => above(&mut self.trees, SynKind::Post, "--", operand.start, operand),
        }
    }

    // An index, from behind its bracket.
    #[cycle(parse)]
    fn indexed(&mut self, array: Part, lower: usize) -> Result<Part, Stop>
        requires fits { array.height ≤ lower }
        requires small { suc lower < 2 ^ 64 }
        ensures { GivesLonger (indexed (reading.level lower (below lower))) (suc lower) array self.old self.new result }
    {
        let index = self.expression(lower)?;
        self.expect(Punct::RightBracket)?;
        above_two(
            &mut self.trees,
            SynKind::Index,
            "",
            array.start,
            array,
            index,
        )
    }

    // A call, from behind its parenthesis.
    #[cycle(parse)]
    fn called(&mut self, function: Part, lower: usize) -> Result<Part, Stop>
        requires fits { function.height ≤ lower }
        requires small { suc lower < 2 ^ 64 }
        ensures { GivesLonger (called (reading.level lower (below lower))) (suc lower) function self.old self.new result }
    {
        let mark = self.trees.len();
        let height = self.arguments(lower)?;
        self.expect(Punct::RightParenthesis)?;
        above_first(
            &mut self.trees,
            SynKind::Call,
            function.start,
            function,
            mark,
            height,
        )
    }

    // A member, from behind its mark.
    fn selected(&mut self, kind: SynKind, operand: Part) -> Result<Part, Stop>
        requires small { suc operand.height < 2 ^ 64 }
        requires quiet { declares_nothing kind ≡ true }
        ensures { GivesLonger (selected kind) (suc operand.height) operand self.old self.new result }
    {
        let name = self.expect_identifier()?;
        above(&mut self.trees, kind, name, operand.start, operand)
    }

    // primary = name | number | character | string { string } | "(" expr ")"
    #[cycle(parse)]
    fn primary(&mut self, budget: usize) -> Result<Part, Stop>
        ensures { GivesPart (primary_at budget (below budget)) budget self.old self.new result }
    {
        let Some(token) = self.peek() else {
            return Err(Stop::Wrong);
        };
        match &token.kind {
            TokenKind::Word(name) => self.variable(name.as_slice(), token.start, budget),
            TokenKind::Int(value, kind) => {
                self.constant(SynKind::Int(*kind), *value, token.start, budget)
            }
            TokenKind::Char(value) => self.constant(SynKind::Char, *value, token.start, budget),
            TokenKind::Str(bytes) => self.string(bytes, token.start, budget),
            TokenKind::Punct(mark) => match mark {
                Punct::LeftParenthesis => self.parenthesized(token.start, budget),
                _ => Err(Stop::Wrong),
            },
        }
    }

    // A name that is no typedef name.
    fn variable(&mut self, text: &str, start: usize, budget: usize) -> Result<Part, Stop>
        requires { (at : Place) × ((self.now.rest.now ≡ vocabulary.word text.now at ∷ reading.behind_one self.now.rest.now) × (start ≡ at.start)) }
        ensures { GivesPart (primary_at budget (below budget)) budget self.old self.new result }
    {
        if !self.is_variable(text) {
            return Err(Stop::Wrong);
        }
        self.enter(0, budget)?;
        leaf(&mut self.trees, SynKind::Var, text, start)
    }

    // A number or a character.
    fn constant(
        &mut self,
        kind: SynKind,
        value: u32,
        start: usize,
        budget: usize,
    ) -> Result<Part, Stop>
        requires some { 1 ≤ length self.now.rest.now }
        requires leaf { leaves_names kind ≡ true }
        ensures { GivesPart (constant_at budget kind value start) budget self.old self.new result }
    {
        self.enter(0, budget)?;
        constant(&mut self.trees, kind, value, start)
    }

    // A string literal, with those next to it.
    fn string(&mut self, first: &Bytes, start: usize, budget: usize) -> Result<Part, Stop>
        requires { (at : Place) × ((self.now.rest.now ≡ vocabulary.string first.now at ∷ reading.behind_one self.now.rest.now) × (start ≡ at.start)) }
        ensures { GivesPart (primary_at budget (below budget)) budget self.old self.new result }
    {
        self.enter(0, budget)?;
        let mut bytes = Bytes::new(self.alloc);
        bytes.push_all(first.as_slice())?;
        while let Some(more) = self.string_ahead() {
            bytes.push_all(more.as_slice())?;
            self.advance();
        }
        literal(&mut self.trees, bytes, start)
    }

    // An expression in parentheses.
    #[cycle(parse)]
    fn parenthesized(&mut self, start: usize, budget: usize) -> Result<Part, Stop>
        requires { (at : Place) × ((self.now.rest.now ≡ vocabulary.mark LeftParenthesis at ∷ reading.behind_one self.now.rest.now) × (start ≡ at.start)) }
        ensures { GivesPart (primary_at budget (below budget)) budget self.old self.new result }
    {
        let lower = self.enter(1, budget)?;
        let inner = self.expression(lower)?;
        self.expect(Punct::RightParenthesis)?;
        above(&mut self.trees, SynKind::Paren, "", start, inner)
    }

    // arguments = [ assign { "," assign } ]
    #[cycle(parse)]
    fn arguments(&mut self, budget: usize) -> Result<usize, Stop>
        ensures { GivesPartsOrNone (reading.arguments_in budget (below budget)) budget self.old self.new result }
    {
        if self.at_mark(Punct::RightParenthesis) {
            return Ok(0);
        }
        let mut height = self.assignment(budget)?.height;
        while self.at_mark(Punct::Comma) {
            self.advance();
            height = height.max(self.assignment(budget)?.height);
        }
        Ok(height)
    }

    /// An expression, or nothing before `;` or `)`.
    pub fn optional_expression(&mut self, budget: usize) -> Result<Part, Stop>
        ensures { GivesPartOrNone (reading.optional_expression_in budget (below budget)) budget self.old self.new result }
    {
        if !self.at_mark(Punct::Semicolon) && !self.at_mark(Punct::RightParenthesis) {
            return self.expression(budget);
        }
        within(0, budget)?;
        let start = self.start();
        leaf(&mut self.trees, SynKind::Empty, "", start)
    }

    // The mark of an assignment, where one is ahead.
    #[tactic(auto, unfolding(c_grammar::specs::Answers::ahead, c_grammar::specs::Answers::ahead_by))]
    fn assignment_operator(&self) -> Option<Punct>
        ensures some { IfSome result (λ mark. (vocabulary.is_assignment mark ≡ true) × ((at : Place) × (self.now.rest.now ≡ vocabulary.mark mark at ∷ reading.behind_one self.now.rest.now))) }
        ensures none { IfNone result (assigns_by (ahead self.now.rest.now) ≡ false) }
    {
        let token = self.peek()?;
        match token.kind {
            TokenKind::Punct(mark) if is_assignment(mark) => Some(mark),
            _ => None,
        }
    }

    // A binary operator ahead, and its level, which is one of these.
    #[tactic(auto, unfolding(c_grammar::specs::Answers::ahead, c_grammar::specs::Answers::ahead_by))]
    fn operator(&self, tightest: usize, loosest: usize) -> Option<(Punct, usize)>
        requires { 1 ≤ tightest }
        ensures some { IfSome result (λ o. (tightest ≤ o.1) × ((o.1 ≤ loosest) × ((vocabulary.level_of o.0 ≡ o.1) × ((at : Place) × (self.now.rest.now ≡ vocabulary.mark o.0 at ∷ reading.behind_one self.now.rest.now))))) }
        ensures none { IfNone result (no_operator tightest loosest (ahead self.now.rest.now)) }
    {
        let token = self.peek()?;
        let TokenKind::Punct(mark) = token.kind else {
            return None;
        };
        let level = level_of(mark);
        if level < tightest || level > loosest {
            return None;
        }
        Some((mark, level))
    }

    // A suffix of a postfix expression is ahead.
    #[tactic(auto, unfolding(c_grammar::specs::Answers::ahead, c_grammar::specs::Answers::ahead_by))]
    fn begins_suffix(&self) -> bool
        ensures { result ≡ begins_suffix (ahead self.now.rest.now) }
    {
        let Some(token) = self.peek() else {
            return false;
        };
        matches!(
            token.kind,
            TokenKind::Punct(
                Punct::LeftBracket
                    | Punct::LeftParenthesis
                    | Punct::Dot
                    | Punct::Arrow
                    | Punct::PlusPlus
                    | Punct::MinusMinus
            )
        )
    }

    // The bytes of a string literal ahead.
    #[tactic(auto, unfolding(c_grammar::specs::Answers::ahead, c_grammar::specs::Answers::ahead_by))]
    fn string_ahead(&self) -> Option<&'a Bytes>
        ensures some { IfSome result (λ bytes. (at : Place) × (self.now.rest.now ≡ vocabulary.string bytes.now at ∷ reading.behind_one self.now.rest.now)) }
        ensures none { IfNone result (begins_string (ahead self.now.rest.now) ≡ false) }
    {
        let token = self.peek()?;
        match &token.kind {
            TokenKind::Str(bytes) => Some(bytes),
            _ => None,
        }
    }
}
