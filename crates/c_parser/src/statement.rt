// Statements. C99 6.8.
ghost use Rattle.std.specs.Prelude.{◌≡◌, ◌≤◌, ◌<◌, ◌^◌, true, false, suc, length};
ghost use Rattle.c_grammar.specs.Reading.{below};
ghost use Rattle.c_parser.specs.Gives.{GivesPart, GivesBody, GivesPartsOrNone, GivesGroups, GivesStatement, GivesBranches, GivesFor, OpensBrace};
ghost use Rattle.c_parser.specs.Steps.{body_at, block_at, items_of, item_of, keyword_of, if_of, then_of, while_of, do_of, for_of, for_parts_of, for_first_of, optional_before, condition_of, do_condition_of, return_of, switch_of, scoped_groups_of, case_of, default_of, standing_of, empty_of, jump_of, is_jump, takes_else};
ghost use Rattle.c_grammar.specs.Reading as reading;

use crate::parser::Parser;
use c_lexer::{Punct, TokenKind};
use c_parts::{
    Part, Statement, Stop, above, above_first, above_four, above_row, above_three, above_two, leaf,
    next_lower,
};
use c_syntax::SynKind;

/// A place among the groups of a `switch`: the first one, or behind a label, or behind a statement.
#[derive(Clone, Copy)]
enum Standing {
    First,
    Label,
    Statement,
}

// A statement that does not end in an `if` without an `else`.
fn closed(part: Part) -> Statement
    ensures { result ≡ record { part = part; ends_open = false } }
{
    Statement {
        part,
        ends_open: false,
    }
}

impl<'a> Parser<'a> {
    /// Statements in braces, in the scope that there is.
    // block = "{" { declaration | statement } "}"
    #[cycle(statements)]
    pub fn body(&mut self, budget: usize) -> Result<Part, Stop>
        ensures { GivesBody (body_at budget (below budget)) budget self.old self.new result }
    {
        let start = self.start();
        let lower = self.open_brace(budget)?;
        let mark = self.trees.len();
        let height = self.block_items(lower)?;
        self.expect(Punct::RightBrace)?;
        above_row(&mut self.trees, SynKind::Block, "", start, mark, height)
    }

    // Goes behind a brace, and gives the next lower budget.
    fn open_brace(&mut self, budget: usize) -> Result<usize, Stop>
        ensures { OpensBrace budget self.old self.new result }
    {
        if !self.at_mark(Punct::LeftBrace) {
            return Err(Stop::Wrong);
        }
        self.enter(0, budget)
    }

    // The declarations and statements of a block.
    #[cycle(statements)]
    fn block_items(&mut self, budget: usize) -> Result<usize, Stop>
        ensures { GivesPartsOrNone (items_of budget (below budget)) budget self.old self.new result }
    {
        let mut height = 0;
        while !self.at_mark(Punct::RightBrace) {
            height = self.block_item(budget)?.height.max(height);
        }
        Ok(height)
    }

    // One of them.
    #[cycle(statements)]
    fn block_item(&mut self, budget: usize) -> Result<Part, Stop>
        ensures { GivesPart (item_of budget (below budget)) budget self.old self.new result }
    {
        if self.begins_specifier(false) {
            return self.declaration(budget);
        }
        Ok(self.statement(budget)?.part)
    }

    /// A statement.
    #[cycle(statements)]
    fn statement(&mut self, budget: usize) -> Result<Statement, Stop>
        ensures { GivesStatement (reading.statement_in budget (below budget)) budget self.old self.new result }
    {
        let Some(token) = self.peek() else {
            return self.expression_statement(budget);
        };
        if self.at_mark(Punct::LeftBrace) {
            return self.block(budget);
        }
        if self.at_mark(Punct::Semicolon) {
            return self.empty_statement(token.start, budget);
        }
        match &token.kind {
            TokenKind::Word(name) => self.keyword(name.as_slice(), token.start, budget),
            _ => self.expression_statement(budget),
        }
    }

    // A block, with a scope of its own.
    #[cycle(statements)]
    fn block(&mut self, budget: usize) -> Result<Statement, Stop>
        ensures { GivesStatement (block_at budget (below budget)) budget self.old self.new result }
    {
        self.names.open()?;
        let block = self.body(budget)?;
        self.names.close();
        Ok(closed(block))
    }

    // `;` alone.
    fn empty_statement(&mut self, start: usize, budget: usize) -> Result<Statement, Stop>
        requires { 1 ≤ length self.now.rest.now }
        ensures { GivesStatement (empty_of budget start) budget self.old self.new result }
    {
        self.enter(0, budget)?;
        Ok(closed(leaf(&mut self.trees, SynKind::Empty, "", start)?))
    }

    // A statement that begins with this word.
    #[cycle(statements)]
    fn keyword(&mut self, text: &str, start: usize, budget: usize) -> Result<Statement, Stop>
        requires { 1 ≤ length self.now.rest.now }
        ensures { GivesStatement (keyword_of budget (below budget) text.now start) budget self.old self.new result }
    {
        if text == "if" {
            return self.if_statement(start, budget);
        }
        if text == "while" {
            return self.while_statement(start, budget);
        }
        if text == "do" {
            return self.do_statement(start, budget);
        }
        if text == "for" {
            return self.for_statement(start, budget);
        }
        if text == "return" {
            return self.return_statement(start, budget);
        }
        if text == "break" {
            return self.jump(SynKind::Break, start, budget);
        }
        if text == "continue" {
            return self.jump(SynKind::Continue, start, budget);
        }
        if text == "switch" {
            return self.switch_statement(start, budget);
        }
        self.expression_statement(budget)
    }

    // An expression in parentheses.
    fn condition(&mut self, budget: usize) -> Result<Part, Stop>
        ensures { GivesPart (condition_of (reading.level budget (below budget))) budget self.old self.new result }
    {
        self.expect(Punct::LeftParenthesis)?;
        let condition = self.expression(budget)?;
        self.expect(Punct::RightParenthesis)?;
        Ok(condition)
    }

    // An `else` that is ahead belongs to the `if` before it.
    fn takes_else(&self, then: Statement) -> bool
        ensures { result ≡ takes_else then.ends_open self.now.rest.now }
    {
        self.at_word("else") && !then.ends_open
    }

    // if = "if" "(" expr ")" statement [ "else" statement ]
    #[cycle(statements)]
    fn if_statement(&mut self, start: usize, budget: usize) -> Result<Statement, Stop>
        requires { 1 ≤ length self.now.rest.now }
        ensures { GivesStatement (if_of budget (below budget) start) budget self.old self.new result }
    {
        let lower = self.enter(1, budget)?;
        let condition = self.condition(lower)?;
        self.branches(start, condition, lower)
    }

    // The branches of an `if`, from behind its condition.
    #[cycle(statements)]
    fn branches(&mut self, start: usize, condition: Part, lower: usize) -> Result<Statement, Stop>
        requires fits { condition.height ≤ lower }
        requires small { suc lower < 2 ^ 64 }
        ensures { GivesBranches (then_of (reading.level lower (below lower)) start) (suc lower) condition self.old self.new result }
    {
        let then = self.statement(lower)?;
        if !self.takes_else(then) {
            let trees = &mut self.trees;
            let part = above_two(trees, SynKind::If, "", start, condition, then.part)?;
            let ends_open = true;
            return Ok(Statement { part, ends_open });
        }
        self.advance();
        let Statement { part, ends_open } = self.statement(lower)?;
        let part = above_three(
            &mut self.trees,
            SynKind::If,
            start,
            condition,
            then.part,
            part,
        )?;
        Ok(Statement { part, ends_open })
    }

    // while = "while" "(" expr ")" statement
    #[cycle(statements)]
    fn while_statement(&mut self, start: usize, budget: usize) -> Result<Statement, Stop>
        requires { 1 ≤ length self.now.rest.now }
        ensures { GivesStatement (while_of budget (below budget) start) budget self.old self.new result }
    {
        let lower = self.enter(1, budget)?;
        let condition = self.condition(lower)?;
        let Statement { part, ends_open } = self.statement(lower)?;
        let part = above_two(&mut self.trees, SynKind::While, "", start, condition, part)?;
        Ok(Statement { part, ends_open })
    }

    // do = "do" statement "while" "(" expr ")" ";"
    #[cycle(statements)]
    fn do_statement(&mut self, start: usize, budget: usize) -> Result<Statement, Stop>
        requires { 1 ≤ length self.now.rest.now }
        ensures { GivesStatement (do_of budget (below budget) start) budget self.old self.new result }
    {
        let lower = self.enter(1, budget)?;
        let body = self.statement(lower)?.part;
        let condition = self.do_condition(lower)?;
        let part = above_two(&mut self.trees, SynKind::Do, "", start, body, condition)?;
        Ok(closed(part))
    }

    // The condition of a `do`, from its keyword on.
    fn do_condition(&mut self, budget: usize) -> Result<Part, Stop>
        ensures { GivesPart (do_condition_of (reading.level budget (below budget))) budget self.old self.new result }
    {
        self.expect_word("while")?;
        let condition = self.condition(budget)?;
        self.expect(Punct::Semicolon)?;
        Ok(condition)
    }

    // for = "for" "(" ( declaration | [ expr ] ";" ) [ expr ] ";" [ expr ] ")" statement
    #[cycle(statements)]
    fn for_statement(&mut self, start: usize, budget: usize) -> Result<Statement, Stop>
        requires { 1 ≤ length self.now.rest.now }
        ensures { GivesStatement (for_of budget (below budget) start) budget self.old self.new result }
    {
        let lower = self.enter(1, budget)?;
        self.expect(Punct::LeftParenthesis)?;
        self.names.open()?;
        let statement = self.for_parts(start, lower)?;
        self.names.close();
        Ok(statement)
    }

    // A `for` from behind its parenthesis, in its scope.
    #[cycle(statements)]
    fn for_parts(&mut self, start: usize, lower: usize) -> Result<Statement, Stop>
        requires { suc lower < 2 ^ 64 }
        ensures { GivesFor (for_parts_of (reading.level lower (below lower)) start) (suc lower) self.old self.new result }
    {
        let first = self.for_first(lower)?;
        let condition = self.optional_before(Punct::Semicolon, lower)?;
        let step = self.optional_before(Punct::RightParenthesis, lower)?;
        let Statement { part, ends_open } = self.statement(lower)?;
        let trees = &mut self.trees;
        let part = above_four(trees, SynKind::For, start, first, condition, step, part)?;
        Ok(Statement { part, ends_open })
    }

    // The first part of a `for`.
    fn for_first(&mut self, budget: usize) -> Result<Part, Stop>
        ensures { GivesPart (for_first_of (reading.level budget (below budget))) budget self.old self.new result }
    {
        if self.begins_specifier(false) {
            return self.declaration(budget);
        }
        self.optional_before(Punct::Semicolon, budget)
    }

    // An expression or nothing, and this mark.
    fn optional_before(&mut self, mark: Punct, budget: usize) -> Result<Part, Stop>
        ensures { GivesPart (optional_before (reading.level budget (below budget)) mark) budget self.old self.new result }
    {
        let expression = self.optional_expression(budget)?;
        self.expect(mark)?;
        Ok(expression)
    }

    // return = "return" [ expr ] ";"
    fn return_statement(&mut self, start: usize, budget: usize) -> Result<Statement, Stop>
        requires { 1 ≤ length self.now.rest.now }
        ensures { GivesStatement (return_of budget (below budget) start) budget self.old self.new result }
    {
        let lower = self.enter(0, budget)?;
        if self.at_mark(Punct::Semicolon) {
            self.advance();
            return Ok(closed(leaf(&mut self.trees, SynKind::Return, "", start)?));
        }
        let value = self.expression(lower)?;
        self.expect(Punct::Semicolon)?;
        let part = above(&mut self.trees, SynKind::Return, "", start, value)?;
        Ok(closed(part))
    }

    // "break" ";" or "continue" ";"
    fn jump(&mut self, kind: SynKind, start: usize, budget: usize) -> Result<Statement, Stop>
        requires some { 1 ≤ length self.now.rest.now }
        requires jump { is_jump kind ≡ true }
        ensures { GivesStatement (jump_of budget kind start) budget self.old self.new result }
    {
        self.enter(0, budget)?;
        self.expect(Punct::Semicolon)?;
        Ok(closed(leaf(&mut self.trees, kind, "", start)?))
    }

    // switch = "switch" "(" expr ")" "{" { group } "}"
    #[cycle(statements)]
    fn switch_statement(&mut self, start: usize, budget: usize) -> Result<Statement, Stop>
        ensures { GivesStatement (switch_of budget (below budget) start) budget self.old self.new result }
    {
        let lower = self.enter(1, budget)?;
        let value = self.condition(lower)?;
        self.expect(Punct::LeftBrace)?;
        let mark = self.trees.len();
        let height = self.scoped_groups(lower)?;
        let trees = &mut self.trees;
        let part = above_first(trees, SynKind::Switch, start, value, mark, height)?;
        Ok(closed(part))
    }

    // Groups in a scope of their own, up to their closing brace.
    #[cycle(statements)]
    fn scoped_groups(&mut self, budget: usize) -> Result<usize, Stop>
        ensures { GivesGroups (scoped_groups_of budget (below budget)) budget self.old self.new result }
    {
        self.names.open()?;
        let height = self.groups(budget)?;
        self.expect(Punct::RightBrace)?;
        self.names.close();
        Ok(height)
    }

    // group = label { label } statement { statement }
    #[cycle(statements)]
    fn groups(&mut self, budget: usize) -> Result<usize, Stop>
        ensures { GivesPartsOrNone (reading.rows_in budget (below budget) reading.groups) budget self.old self.new result }
    {
        let mut height = 0;
        let mut standing = Standing::First;
        while !self.ends_groups(standing) {
            let behind = self.standing_behind();
            height = self.group_item(budget)?.height.max(height);
            standing = behind;
        }
        Ok(height)
    }

    // A label of a `switch` is ahead.
    fn begins_label(&self) -> bool
        ensures { result ≡ reading.begins_label self.now.rest.now }
    {
        self.at_word("case") || self.at_word("default")
    }

    // The groups of a `switch` end at this place.
    fn ends_groups(&self, standing: Standing) -> bool
        ensures { result ≡ reading.ends_groups (standing_of standing) self.now.rest.now }
    {
        match standing {
            Standing::First => !self.begins_label(),
            Standing::Label => false,
            Standing::Statement => self.at_mark(Punct::RightBrace),
        }
    }

    // The place behind the label or the statement that is ahead.
    fn standing_behind(&self) -> Standing
        ensures { standing_of result ≡ reading.standing_behind self.now.rest.now }
    {
        if self.begins_label() {
            return Standing::Label;
        }
        Standing::Statement
    }

    // A label or a statement among the groups of a `switch`.
    #[cycle(statements)]
    fn group_item(&mut self, budget: usize) -> Result<Part, Stop>
        ensures { GivesPart (reading.group_item_in budget (below budget)) budget self.old self.new result }
    {
        let start = self.start();
        if self.at_word("case") {
            return self.case_label(start, budget);
        }
        if self.at_word("default") {
            return self.default_label(start, budget);
        }
        Ok(self.statement(budget)?.part)
    }

    // "case" cond ":"
    fn case_label(&mut self, start: usize, budget: usize) -> Result<Part, Stop>
        ensures { GivesPart (case_of budget (below budget) start) budget self.old self.new result }
    {
        let lower = self.enter(1, budget)?;
        let value = self.conditional(lower)?;
        self.expect(Punct::Colon)?;
        above(&mut self.trees, SynKind::Case, "", start, value)
    }

    // "default" ":"
    fn default_label(&mut self, start: usize, budget: usize) -> Result<Part, Stop>
        ensures { GivesPart (default_of budget start) budget self.old self.new result }
    {
        self.enter(0, budget)?;
        self.expect(Punct::Colon)?;
        leaf(&mut self.trees, SynKind::Default, "", start)
    }

    // expr ";"
    fn expression_statement(&mut self, budget: usize) -> Result<Statement, Stop>
        ensures { GivesStatement (reading.expression_statement_in budget (below budget)) budget self.old self.new result }
    {
        let expression = self.expression(next_lower(budget))?;
        self.expect(Punct::Semicolon)?;
        let trees = &mut self.trees;
        let part = above(trees, SynKind::ExprStmt, "", expression.start, expression)?;
        Ok(closed(part))
    }
}
