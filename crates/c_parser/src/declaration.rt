// Declarations and functions. C99 6.7, 6.7.8, 6.9.
ghost use Rattle.std.specs.Prelude.{◌<◌, ◌≤◌, ◌+◌, ◌^◌, max, IfOk};
ghost use Rattle.c_grammar.specs.Reading.{below};
ghost use Rattle.c_parser.specs.Gives.{GivesPart, GivesParts, GivesExternalFrom, GivesInitialized, GivesInitializedFrom, GivesInitializedRow, GivesInitializedRowFrom, OpensBody};
ghost use Rattle.c_parser.specs.Steps.{function_of, declared_row_from, initialized_from, initialized_of, uninitialized_at};
ghost use Rattle.c_grammar.specs.Reading as reading;

use crate::parser::Parser;
use c_lexer::Punct;
use c_parts::{
    Declarator, Mode, Part, Specs, Stop, above, above_first, above_row, above_three, above_two,
    next_lower,
};
use c_syntax::SynKind;

impl<'a> Parser<'a> {
    /// A function or a declaration of the unit.
    // external = specs declarator block | declaration
    pub fn external(&mut self, budget: usize) -> Result<Part, Stop>
        ensures { GivesPart (reading.external_in budget (below budget)) budget self.old self.new result }
    {
        let specs = self.specs(next_lower(budget))?;
        if self.at_mark(Punct::Semicolon) {
            self.advance();
            let start = specs.part.start;
            return above(&mut self.trees, SynKind::Declaration, "", start, specs.part);
        }
        let declarator = self.declared(Mode::Named, next_lower(budget))?;
        if self.at_mark(Punct::LeftBrace) {
            return self.function(specs, declarator, budget);
        }
        self.declaration_from(specs, declarator, budget)
    }

    // A function, from its body on.
    fn function(
        &mut self,
        specs: Specs,
        declarator: Declarator<'a>,
        budget: usize,
    ) -> Result<Part, Stop>
        requires { max specs.part.height declarator.part.height < budget }
        ensures { GivesExternalFrom (function_of (below budget)) budget specs declarator.entry self.old self.new result }
    {
        self.open_body(declarator.name)?;
        let body = self.body(next_lower(budget))?;
        self.names.close();
        let (specs, declared) = (specs.part, declarator.part);
        above_three(
            &mut self.trees,
            SynKind::Function,
            specs.start,
            specs,
            declared,
            body,
        )
    }

    // The scope of a function's body, with its parameters; the function's name stands outside of it.
    fn open_body(&mut self, name: &'a str) -> Result<(), Stop>
        ensures { OpensBody name.now self.old self.new result }
    {
        self.names.add(name, false)?;
        self.names.open()?;
        self.names.add_all(self.parameters.as_slice())?;
        Ok(())
    }

    // A declaration, from behind its first declarator.
    fn declaration_from(
        &mut self,
        specs: Specs,
        declarator: Declarator<'a>,
        budget: usize,
    ) -> Result<Part, Stop>
        requires { max specs.part.height declarator.part.height < budget }
        ensures { GivesExternalFrom (reading.declaration_from budget (below budget)) budget specs declarator.entry self.old self.new result }
    {
        let mark = self.trees.len().saturating_sub(1);
        let lower = next_lower(budget);
        let height = self.init_declarators_from(specs.is_typedef, declarator, lower)?;
        self.expect(Punct::Semicolon)?;
        let (start, part) = (specs.part.start, specs.part);
        above_first(
            &mut self.trees,
            SynKind::Declaration,
            start,
            part,
            mark,
            height,
        )
    }

    // Initialized declarators, from behind the first declarator.
    fn init_declarators_from(
        &mut self,
        is_typedef: bool,
        declarator: Declarator<'a>,
        budget: usize,
    ) -> Result<usize, Stop>
        requires { declarator.part.height + 1 < 2 ^ 64 }
        ensures low { IfOk result (λ height. height ≤ budget) }
        ensures read { GivesInitializedRowFrom is_typedef (declared_row_from budget (below budget) is_typedef) budget declarator.entry self.old self.new result }
    {
        let mut height = self
            .init_declarator_from(is_typedef, declarator, budget)?
            .height;
        while self.at_mark(Punct::Comma) {
            self.advance();
            height = height.max(self.init_declarator(is_typedef, budget)?.height);
        }
        Ok(height)
    }

    // One of them, from behind its declarator.
    fn init_declarator_from(
        &mut self,
        is_typedef: bool,
        declarator: Declarator<'a>,
        budget: usize,
    ) -> Result<Part, Stop>
        requires { declarator.part.height + 1 < 2 ^ 64 }
        ensures low { IfOk result (λ part. part.height ≤ budget) }
        ensures read { GivesInitializedFrom is_typedef (initialized_from budget (below budget) is_typedef) budget declarator.entry self.old self.new result }
    {
        if self.at_mark(Punct::Equal) {
            let lower = self.enter(declarator.part.height, budget)?;
            return self.initialized(is_typedef, declarator, lower);
        }
        if !self.at_mark(Punct::Comma) && !self.at_mark(Punct::Semicolon) {
            return Err(Stop::Wrong);
        }
        if budget <= declarator.part.height {
            self.advance();
            return Err(Stop::Deep);
        }
        self.uninitialized(is_typedef, declarator)
    }

    // A declarator with its initializer, from this on.
    fn initialized(
        &mut self,
        is_typedef: bool,
        declarator: Declarator<'a>,
        budget: usize,
    ) -> Result<Part, Stop>
        requires fits { declarator.part.height ≤ budget }
        requires small { budget + 1 < 2 ^ 64 }
        ensures low { IfOk result (λ part. part.height ≤ budget + 1) }
        ensures read { GivesInitializedFrom is_typedef (initialized_of (reading.level budget (below budget)) is_typedef) (budget + 1) declarator.entry self.old self.new result }
    {
        self.names.add(declarator.name, is_typedef)?;
        let value = self.initializer(budget)?;
        let declared = declarator.part;
        above_two(
            &mut self.trees,
            SynKind::InitDecl,
            "",
            declared.start,
            declared,
            value,
        )
    }

    // A declarator without one.
    fn uninitialized(&mut self, is_typedef: bool, declarator: Declarator<'a>) -> Result<Part, Stop>
        requires { declarator.part.height + 1 < 2 ^ 64 }
        ensures low { IfOk result (λ part. part.height ≤ declarator.entry.part.height + 1) }
        ensures read { GivesInitializedFrom is_typedef uninitialized_at (declarator.entry.part.height + 1) declarator.entry self.old self.new result }
    {
        self.names.add(declarator.name, is_typedef)?;
        let declared = declarator.part;
        above(
            &mut self.trees,
            SynKind::InitDecl,
            "",
            declared.start,
            declared,
        )
    }

    /// A declaration.
    // declaration = specs [ init_declarator { "," init_declarator } ] ";"
    pub fn declaration(&mut self, budget: usize) -> Result<Part, Stop>
        ensures { GivesPart (reading.declaration_in budget (below budget)) budget self.old self.new result }
    {
        let specs = self.specs(next_lower(budget))?;
        let (start, part) = (specs.part.start, specs.part);
        if self.at_mark(Punct::Semicolon) {
            self.advance();
            return above(&mut self.trees, SynKind::Declaration, "", start, part);
        }
        let mark = self.trees.len();
        let height = self.init_declarators(specs.is_typedef, next_lower(budget))?;
        self.expect(Punct::Semicolon)?;
        above_first(
            &mut self.trees,
            SynKind::Declaration,
            start,
            part,
            mark,
            height,
        )
    }

    // The initialized declarators of a declaration.
    fn init_declarators(&mut self, is_typedef: bool, budget: usize) -> Result<usize, Stop>
        ensures { GivesInitializedRow is_typedef (reading.rows_in budget (below budget) (reading.init_declarators is_typedef)) budget self.old self.new result }
    {
        let mut height = self.init_declarator(is_typedef, budget)?.height;
        while self.at_mark(Punct::Comma) {
            self.advance();
            height = height.max(self.init_declarator(is_typedef, budget)?.height);
        }
        Ok(height)
    }

    // init_declarator = declarator [ "=" initializer ]
    fn init_declarator(&mut self, is_typedef: bool, budget: usize) -> Result<Part, Stop>
        ensures { GivesInitialized is_typedef (reading.init_declarator_in budget (below budget) is_typedef) budget self.old self.new result }
    {
        let lower = next_lower(budget);
        let declarator = self.declared(Mode::Named, lower)?;
        if !self.at_mark(Punct::Equal) {
            return self.uninitialized(is_typedef, declarator);
        }
        self.advance();
        self.initialized(is_typedef, declarator, lower)
    }

    // initializer = assign | "{" initializers "}"
    #[cycle(initialize)]
    fn initializer(&mut self, budget: usize) -> Result<Part, Stop>
        ensures { GivesPart (reading.initializer_in budget (below budget)) budget self.old self.new result }
    {
        if !self.at_mark(Punct::LeftBrace) {
            return self.assignment(budget);
        }
        let start = self.start();
        let lower = self.enter(1, budget)?;
        let mark = self.trees.len();
        let height = self.initializers(lower)?;
        self.expect(Punct::RightBrace)?;
        above_row(&mut self.trees, SynKind::Braces, "", start, mark, height)
    }

    // initializers = initializer { "," initializer } [ "," ]
    #[cycle(initialize)]
    fn initializers(&mut self, budget: usize) -> Result<usize, Stop>
        ensures { GivesParts (reading.rows_in budget (below budget) reading.initializers) budget self.old self.new result }
    {
        let mut height = self.initializer(budget)?.height;
        while self.at_mark(Punct::Comma) {
            self.advance();
            if self.at_mark(Punct::RightBrace) {
                return Ok(height);
            }
            height = height.max(self.initializer(budget)?.height);
        }
        Ok(height)
    }
}
