// Specs, structs and enums, the names of types. C99 6.7.2, 6.7.6.
ghost use Rattle.std.specs.Prelude.{◌≡◌, ◌≤◌, ◌<◌, ◌^◌, suc, length};
ghost use Rattle.c_grammar.specs.Reading.{below};
ghost use Rattle.c_parser.specs.Gives.{GivesPart, GivesParts, GivesSpecs, GivesSpecifier, GivesSpecifierRow, GivesTagged, GivesEnumerator};
ghost use Rattle.c_parser.specs.Steps.{word_at, tagged_at, tag_of, body_of, value_of, specifiers_of, members_of};
ghost use Rattle.c_parts.specs.Kinds.{kind_of, row_of};
ghost use Rattle.c_grammar.specs.Reading as reading;

use crate::parser::Parser;
use c_lexer::{Punct, TokenKind};
use c_parts::{
    Mode, Part, Specifier, SpecifierRow, Specs, Stop, Tagged, above, above_first, above_row,
    above_two, is_identifier, is_storage_word, is_type_word, leaf, next_lower, within,
};
use c_syntax::SynKind;

impl<'a> Parser<'a> {
    /// What stands before declarators: words, structs and enums.
    // specs = spec { spec }
    #[cycle(parse)]
    pub fn specs(&mut self, budget: usize) -> Result<Specs, Stop>
        ensures { GivesSpecs (reading.specifiers_in budget (below budget)) budget self.old self.new result }
    {
        let mark = self.trees.len();
        let row = self.specifier_row(next_lower(budget))?;
        let is_typedef = row.is_typedef;
        let trees = &mut self.trees;
        let part = above_row(trees, SynKind::Specs, "", row.start, mark, row.height)?;
        Ok(Specs { part, is_typedef })
    }

    // The specs in order.
    #[cycle(parse)]
    fn specifier_row(&mut self, budget: usize) -> Result<SpecifierRow, Stop>
        ensures { GivesSpecifierRow (specifiers_of budget (below budget)) budget self.old self.new result }
    {
        let first = self.specifier(false, budget)?;
        let mut typed = first.says_type;
        let mut row = SpecifierRow {
            height: first.part.height,
            start: first.part.start,
            is_typedef: first.is_typedef,
        };
        while self.begins_specifier(typed) {
            let next = self.specifier(typed, budget)?;
            typed = typed || next.says_type;
            row.height = row.height.max(next.part.height);
            row.is_typedef = row.is_typedef || next.is_typedef;
        }
        Ok(row)
    }

    // spec = word | typedef name | struct | enum
    #[cycle(parse)]
    fn specifier(&mut self, typed: bool, budget: usize) -> Result<Specifier, Stop>
        ensures { GivesSpecifier (reading.specifier_in budget (below budget) typed) budget self.old self.new result }
    {
        let Some(token) = self.peek() else {
            return Err(Stop::Wrong);
        };
        let TokenKind::Word(name) = &token.kind else {
            return Err(Stop::Wrong);
        };
        let text = name.as_slice();
        if is_type_word(text) || is_storage_word(text) {
            return self.specifier_word(text, token.start, budget);
        }
        if text == "struct" {
            return self.tagged(Tagged::Struct, token.start, budget);
        }
        if text == "enum" {
            return self.tagged(Tagged::Enum, token.start, budget);
        }
        if !typed && is_identifier(text) && self.names.is_typedef_name(text) {
            return self.specifier_word(text, token.start, budget);
        }
        Err(Stop::Wrong)
    }

    // A word, from itself on.
    fn specifier_word(&mut self, text: &str, start: usize, budget: usize) -> Result<Specifier, Stop>
        requires { 1 ≤ length self.now.rest.now }
        ensures { GivesSpecifier (word_at budget text.now start) budget self.old self.new result }
    {
        self.enter(0, budget)?;
        let part = leaf(&mut self.trees, SynKind::Word, text, start)?;
        Ok(Specifier {
            part,
            says_type: !is_storage_word(text),
            is_typedef: text == "typedef",
        })
    }

    // A struct or an enum, from its keyword on.
    #[cycle(parse)]
    fn tagged(&mut self, tagged: Tagged, start: usize, budget: usize) -> Result<Specifier, Stop>
        requires { 1 ≤ length self.now.rest.now }
        ensures { GivesSpecifier (tagged_at budget (below budget) (kind_of tagged) (row_of tagged) start) budget self.old self.new result }
    {
        self.enter(0, budget)?;
        let part = self.tag(tagged, start, budget)?;
        Ok(Specifier {
            part,
            says_type: true,
            is_typedef: false,
        })
    }

    // Its tag, and its body where it has one.
    #[cycle(parse)]
    fn tag(&mut self, tagged: Tagged, start: usize, budget: usize) -> Result<Part, Stop>
        requires { 1 ≤ budget }
        ensures { GivesTagged (kind_of tagged) (tag_of budget (below budget) (kind_of tagged) (row_of tagged) start) budget self.old self.new result }
    {
        if self.at_mark(Punct::LeftBrace) {
            self.advance();
            return self.tagged_body(tagged, "", start, budget);
        }
        let tag = self.expect_identifier()?;
        if self.at_mark(Punct::LeftBrace) {
            self.advance();
            return self.tagged_body(tagged, tag, start, budget);
        }
        leaf(&mut self.trees, tagged.kind(), tag, start)
    }

    // Its body, from behind its brace.
    #[cycle(parse)]
    fn tagged_body(
        &mut self,
        tagged: Tagged,
        tag: &str,
        start: usize,
        budget: usize,
    ) -> Result<Part, Stop>
        ensures { GivesTagged (kind_of tagged) (body_of budget (below budget) (kind_of tagged) (row_of tagged) tag.now start) budget self.old self.new result }
    {
        let lower = within(1, budget)?;
        let mark = self.trees.len();
        let height = self.tagged_row(tagged, lower)?;
        self.expect(Punct::RightBrace)?;
        above_row(&mut self.trees, tagged.kind(), tag, start, mark, height)
    }

    // What stands in its braces.
    #[cycle(parse)]
    fn tagged_row(&mut self, tagged: Tagged, budget: usize) -> Result<usize, Stop>
        ensures { GivesParts (reading.rows_in budget (below budget) (row_of tagged)) budget self.old self.new result }
    {
        match tagged {
            Tagged::Struct => self.members(budget),
            Tagged::Enum => self.enumerators(budget),
        }
    }

    // members = member { member }
    #[cycle(parse)]
    fn members(&mut self, budget: usize) -> Result<usize, Stop>
        ensures { GivesParts (members_of budget (below budget)) budget self.old self.new result }
    {
        let mut height = self.member(budget)?.height;
        while self.begins_specifier(false) {
            height = height.max(self.member(budget)?.height);
        }
        Ok(height)
    }

    // member = specs declarator { "," declarator } ";"
    #[cycle(parse)]
    fn member(&mut self, budget: usize) -> Result<Part, Stop>
        ensures { GivesPart (reading.member_in budget (below budget)) budget self.old self.new result }
    {
        let specs = self.specs(next_lower(budget))?.part;
        let mark = self.trees.len();
        let height = self.declarators(next_lower(budget))?;
        self.expect(Punct::Semicolon)?;
        above_first(
            &mut self.trees,
            SynKind::Member,
            specs.start,
            specs,
            mark,
            height,
        )
    }

    // The declarators of a member.
    #[cycle(parse)]
    fn declarators(&mut self, budget: usize) -> Result<usize, Stop>
        ensures { GivesParts (reading.rows_in budget (below budget) reading.declarators) budget self.old self.new result }
    {
        let mut height = self.declared(Mode::Named, budget)?.part.height;
        while self.at_mark(Punct::Comma) {
            self.advance();
            height = height.max(self.declared(Mode::Named, budget)?.part.height);
        }
        Ok(height)
    }

    // enumerators = enumerator { "," enumerator } [ "," ]
    #[cycle(parse)]
    fn enumerators(&mut self, budget: usize) -> Result<usize, Stop>
        ensures { GivesParts (reading.rows_in budget (below budget) reading.enumerators) budget self.old self.new result }
    {
        let mut height = self.enumerator(budget)?.height;
        while self.at_mark(Punct::Comma) {
            self.advance();
            if self.at_mark(Punct::RightBrace) {
                return Ok(height);
            }
            height = height.max(self.enumerator(budget)?.height);
        }
        Ok(height)
    }

    // enumerator = name [ "=" cond ]
    #[cycle(parse)]
    fn enumerator(&mut self, budget: usize) -> Result<Part, Stop>
        ensures { GivesPart (reading.enumerator_in budget (below budget)) budget self.old self.new result }
    {
        let start = self.start();
        let name = self.expect_identifier()?;
        within(0, budget)?;
        let part = self.enumerator_value(name, start, budget)?;
        self.names.add(name, false)?;
        Ok(part)
    }

    // An enumerator from behind its name, which it does not declare yet.
    #[cycle(parse)]
    fn enumerator_value(&mut self, name: &str, start: usize, budget: usize) -> Result<Part, Stop>
        requires { 1 ≤ budget }
        ensures { GivesEnumerator name.now (value_of budget (below budget) name.now start) budget self.old self.new result }
    {
        if !self.at_mark(Punct::Equal) {
            return leaf(&mut self.trees, SynKind::Enumer, name, start);
        }
        let lower = self.enter(1, budget)?;
        let value = self.conditional(lower)?;
        above(&mut self.trees, SynKind::Enumer, name, start, value)
    }

    /// The name of a type.
    // type_name = specs [ abstract declarator ]
    #[cycle(parse)]
    pub fn type_name(&mut self, budget: usize) -> Result<Part, Stop>
        ensures { GivesPart (reading.type_name_in budget (below budget)) budget self.old self.new result }
    {
        let specs = self.specs(next_lower(budget))?.part;
        let declarator = self.declared(Mode::Unnamed, next_lower(budget))?.part;
        above_two(
            &mut self.trees,
            SynKind::TypeName,
            "",
            specs.start,
            specs,
            declarator,
        )
    }
}
