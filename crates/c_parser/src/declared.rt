// Declarators. C99 6.7.5, 6.7.6.
ghost use Rattle.std.specs.Prelude.{◌≡◌, ◌≤◌, ◌<◌, ◌^◌, true, suc, length, codes, IfOk};
ghost use Rattle.c_grammar.specs.Reading.{below};
ghost use Rattle.c_parser.specs.Gives.{GivesDeclarator, GivesDeclared, GivesSuffixes, GivesSuffix, GivesPartsOrNone, GivesScoped, GivesParameter, GivesParameterRow};
ghost use Rattle.c_parser.specs.Steps.{pointer_of, enclosed_of, suffixes_at, declared_suffix_at, array_of, takes_at, void_at, parameters_at, scoped_at, named_of, nothing_at, begins_declared_suffix};
ghost use Rattle.c_parts.specs.Kinds.{mode_of};
ghost use Rattle.c_grammar.specs.Reading as reading;

use crate::parser::Parser;
use c_lexer::{Punct, TokenKind};
use c_parts::{
    Declarator, Mode, Part, Stop, Suffix, above_two, is_absent, is_identifier, next_lower, within,
};
use c_syntax::SynKind;
use std::mem;

impl<'a> Parser<'a> {
    /// A declarator; where the mode lets it, without a name, or nothing.
    // declarator = "*" { "const" } declarator | direct { suffix }
    #[cycle(parse)]
    pub fn declared(&mut self, mode: Mode, budget: usize) -> Result<Declarator<'a>, Stop>
        ensures { GivesDeclared mode (reading.declared_in budget (below budget) (mode_of mode)) budget self.old self.new result }
    {
        let Some(token) = self.peek() else {
            return self.undeclared(mode, budget);
        };
        if self.at_mark(Punct::Star) {
            return self.pointer(mode, token.start, budget);
        }
        if self.at_mark(Punct::LeftParenthesis) {
            return self.enclosed(mode, token.start, budget);
        }
        match &token.kind {
            TokenKind::Word(name) if mode.has_name() && is_identifier(name.as_slice()) => {
                self.named(name.as_slice(), token.start, budget)
            }
            _ => self.undeclared(mode, budget),
        }
    }

    // A pointer, from its mark on.
    #[cycle(parse)]
    fn pointer(&mut self, mode: Mode, start: usize, budget: usize) -> Result<Declarator<'a>, Stop>
        requires { 1 ≤ length self.now.rest.now }
        ensures { GivesDeclarator (pointer_of budget (below budget) (mode_of mode) start) budget self.old self.new result }
    {
        let lower = self.enter(1, budget)?;
        self.skip_const();
        let inner = self.declared(mode, lower)?;
        Declarator::pointer(&mut self.trees, start, inner)
    }

    // A declarator in parentheses, from these on.
    #[cycle(parse)]
    fn enclosed(&mut self, mode: Mode, start: usize, budget: usize) -> Result<Declarator<'a>, Stop>
        requires { 1 ≤ length self.now.rest.now }
        ensures { GivesDeclarator (enclosed_of budget (below budget) (mode_of mode) start) budget self.old self.new result }
    {
        let lower = self.enter(1, budget)?;
        let inner = self.declared(mode, lower)?;
        if is_absent(inner.part.kind) {
            return Err(Stop::Wrong);
        }
        self.expect(Punct::RightParenthesis)?;
        let enclosed = Declarator::enclosed(&mut self.trees, start, inner)?;
        self.declared_suffixes(enclosed, budget)
    }

    // A name, and the suffixes behind it.
    #[cycle(parse)]
    fn named(&mut self, name: &'a str, start: usize, budget: usize) -> Result<Declarator<'a>, Stop>
        requires { 1 ≤ length self.now.rest.now }
        ensures { GivesDeclarator (named_of budget (below budget) name.now start) budget self.old self.new result }
    {
        self.enter(0, budget)?;
        self.parameters.clear();
        let named = Declarator::named(&mut self.trees, name, start)?;
        self.declared_suffixes(named, budget)
    }

    // Suffixes without a name before them.
    #[cycle(parse)]
    fn undeclared(&mut self, mode: Mode, budget: usize) -> Result<Declarator<'a>, Stop>
        ensures { GivesDeclared mode (reading.undeclared_in budget (below budget) (mode_of mode)) budget self.old self.new result }
    {
        if mode.needs_name() {
            return Err(Stop::Wrong);
        }
        within(0, budget)?;
        self.parameters.clear();
        let start = self.start();
        let absent = Declarator::absent(&mut self.trees, start)?;
        self.declared_suffixes(absent, budget)
    }

    // { "[" [ cond ] "]" | "(" parameters ")" }
    #[cycle(parse)]
    fn declared_suffixes(
        &mut self,
        declarator: Declarator<'a>,
        budget: usize,
    ) -> Result<Declarator<'a>, Stop>
        requires { declarator.part.height ≤ budget }
        ensures { GivesSuffixes (suffixes_at budget (below budget)) budget declarator.entry self.old self.new result }
    {
        let mut declarator = declarator;
        while self.begins_declared_suffix(declarator.is_named) {
            declarator = self.declared_suffix(declarator, budget)?;
        }
        Ok(declarator)
    }

    // A suffix is ahead; parameters stand behind a name alone.
    fn begins_declared_suffix(&self, is_named: bool) -> bool
        ensures { result ≡ begins_declared_suffix is_named self.now.rest.now }
    {
        self.at_mark(Punct::LeftBracket) || (is_named && self.at_mark(Punct::LeftParenthesis))
    }

    // One suffix more.
    #[cycle(parse)]
    fn declared_suffix(
        &mut self,
        inner: Declarator<'a>,
        budget: usize,
    ) -> Result<Declarator<'a>, Stop>
        requires { begins_declared_suffix inner.is_named self.now.rest.now ≡ true }
        ensures gives { GivesSuffix (declared_suffix_at budget (below budget)) budget inner.entry self.old self.new result }
        ensures shorter { IfOk result (λ declarator. length self.new.rest.now < length self.old.rest.now) }
    {
        let is_array = self.at_mark(Punct::LeftBracket);
        let lower = self.enter(inner.part.height, budget)?;
        if is_array {
            return self.array(inner, lower);
        }
        self.takes(inner, budget)
    }

    // An array, from behind its bracket.
    #[cycle(parse)]
    fn array(&mut self, inner: Declarator<'a>, lower: usize) -> Result<Declarator<'a>, Stop>
        requires fits { inner.part.height ≤ lower }
        requires small { suc lower < 2 ^ 64 }
        ensures gives { GivesSuffix (array_of (reading.level lower (below lower))) (suc lower) inner.entry self.old self.new result }
        ensures shorter { IfOk result (λ declarator. length self.new.rest.now < length self.old.rest.now) }
    {
        let parameters = mem::replace(&mut self.parameters, Vec::new(self.alloc));
        let mark = self.trees.len();
        let height = self.optional_length(lower)?;
        self.expect(Punct::RightBracket)?;
        self.parameters = parameters;
        Declarator::suffixed(&mut self.trees, Suffix::Array, inner, mark, height)
    }

    // [ cond ]
    #[cycle(parse)]
    fn optional_length(&mut self, budget: usize) -> Result<usize, Stop>
        ensures { GivesPartsOrNone (reading.length_in budget (below budget)) budget self.old self.new result }
    {
        if self.at_mark(Punct::RightBracket) {
            return Ok(0);
        }
        Ok(self.conditional(budget)?.height)
    }

    // Parameters, from behind their parenthesis.
    #[cycle(parse)]
    fn takes(&mut self, inner: Declarator<'a>, budget: usize) -> Result<Declarator<'a>, Stop>
        requires { inner.part.height < budget }
        ensures gives { GivesSuffix (takes_at budget (below budget)) budget inner.entry self.old self.new result }
        ensures shorter { IfOk result (λ declarator. length self.new.rest.now < length self.old.rest.now) }
    {
        if self.at_mark(Punct::RightParenthesis) {
            return self.takes_nothing(inner);
        }
        if self.at_word("void") {
            return self.takes_void(inner, budget);
        }
        self.takes_parameters(inner, budget)
    }

    // No parameters, from their closing parenthesis on.
    fn takes_nothing(&mut self, inner: Declarator<'a>) -> Result<Declarator<'a>, Stop>
        requires small { suc inner.part.height < 2 ^ 64 }
        requires some { 1 ≤ length self.now.rest.now }
        ensures gives { GivesSuffix nothing_at (suc inner.entry.part.height) inner.entry self.old self.new result }
        ensures shorter { IfOk result (λ declarator. length self.new.rest.now < length self.old.rest.now) }
    {
        self.advance();
        let mark = self.trees.len();
        Declarator::suffixed(&mut self.trees, Suffix::Takes, inner, mark, 0)
    }

    // Parameters that begin with `void`, which may stand alone.
    #[cycle(parse)]
    fn takes_void(&mut self, inner: Declarator<'a>, budget: usize) -> Result<Declarator<'a>, Stop>
        requires fits { inner.part.height < budget }
        requires void { reading.begins_with_word (codes "void") self.now.rest.now ≡ true }
        ensures gives { GivesSuffix (void_at budget (below budget)) budget inner.entry self.old self.new result }
        ensures shorter { IfOk result (λ declarator. length self.new.rest.now < length self.old.rest.now) }
    {
        let here = self.rest;
        self.advance();
        if self.at_mark(Punct::RightParenthesis) {
            return self.takes_nothing(inner);
        }
        if !self.goes_on_behind_void() {
            return Err(Stop::Wrong);
        }
        if budget < 4 {
            self.advance();
            return Err(Stop::Deep);
        }
        self.rest = here;
        self.takes_parameters(inner, budget)
    }

    // A parameter that begins with `void` can go on here.
    #[tactic(auto, unfolding(c_grammar::specs::Answers::ahead, c_grammar::specs::Answers::ahead_by, c_grammar::specs::Reading::goes_on_behind_void_by, c_grammar::specs::Reading::begins_specifier_by))]
    fn goes_on_behind_void(&self) -> bool
        ensures { result ≡ reading.goes_on_behind_void self.now.rest.now }
    {
        let Some(token) = self.peek() else {
            return false;
        };
        match &token.kind {
            TokenKind::Word(name) => {
                self.begins_specifier(true) || is_identifier(name.as_slice())
            }
            TokenKind::Punct(mark) => matches!(
                mark,
                Punct::Star | Punct::LeftParenthesis | Punct::LeftBracket | Punct::Comma
            ),
            _ => false,
        }
    }

    // Parameters, up to their closing parenthesis; those next to a name are kept.
    #[cycle(parse)]
    fn takes_parameters(
        &mut self,
        inner: Declarator<'a>,
        budget: usize,
    ) -> Result<Declarator<'a>, Stop>
        requires { inner.part.height < budget }
        ensures gives { GivesSuffix (parameters_at budget (below budget)) budget inner.entry self.old self.new result }
        ensures shorter { IfOk result (λ declarator. length self.new.rest.now < length self.old.rest.now) }
    {
        let outer = mem::replace(&mut self.parameters, Vec::new(self.alloc));
        let mark = self.trees.len();
        let height = self.scoped_parameters(next_lower(budget))?;
        if !inner.is_bare {
            self.parameters = outer;
        }
        Declarator::suffixed(&mut self.trees, Suffix::Takes, inner, mark, height)
    }

    // Parameters in a scope of their own, and what they declare; up to their closing parenthesis.
    #[cycle(parse)]
    fn scoped_parameters(&mut self, budget: usize) -> Result<usize, Stop>
        ensures { GivesScoped (scoped_at budget (below budget)) budget self.old self.new result }
    {
        self.names.open()?;
        let height = self.parameters(budget)?;
        self.parameters = self.names.take_innermost()?;
        self.expect(Punct::RightParenthesis)?;
        Ok(height)
    }

    // parameters = parameter { "," parameter }
    #[cycle(parse)]
    fn parameters(&mut self, budget: usize) -> Result<usize, Stop>
        ensures { GivesParameterRow (reading.rows_in budget (below budget) reading.parameters) budget self.old self.new result }
    {
        let mut height = self.parameter(budget)?.height;
        while self.at_mark(Punct::Comma) {
            self.advance();
            height = height.max(self.parameter(budget)?.height);
        }
        Ok(height)
    }

    // parameter = specs [ declarator | abstract declarator ]
    #[cycle(parse)]
    fn parameter(&mut self, budget: usize) -> Result<Part, Stop>
        ensures { GivesParameter (reading.parameter_in budget (below budget)) budget self.old self.new result }
    {
        let specs = self.specs(next_lower(budget))?.part;
        let declarator = self.declared(Mode::Either, next_lower(budget))?;
        self.names.add(declarator.name, false)?;
        let (start, declared) = (specs.start, declarator.part);
        above_two(&mut self.trees, SynKind::Param, "", start, specs, declared)
    }
}
