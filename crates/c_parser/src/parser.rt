// The tokens that are left, and the scopes around their place.
#![tactic(auto, unfolding(c_grammar::specs::Answers::ahead, c_grammar::specs::Answers::ahead_by, c_grammar::specs::Answers::expect_identifier, c_grammar::specs::Answers::expect_identifier_by, c_grammar::specs::Reading::begins_specifier_by))]

ghost use Rattle.std.specs.Prelude.{◌≡◌, ◌∷◌, [], List, IfSome, IfNone};
ghost use Rattle.c_lexer.specs.declared.token.Token.{Token};
ghost use Rattle.c_grammar.specs.Vocabulary.{start_of};
ghost use Rattle.c_grammar.specs.Answers.{word_ahead};
ghost use Rattle.c_grammar.specs.Reading.{behind_one, behind_const, begins_with_mark, begins_with_word};
ghost use Rattle.c_grammar.specs.Vocabulary as vocabulary;
ghost use Rattle.c_grammar.specs.Reading as reading;
ghost use Rattle.c_parts.specs.Pushed.{Lowers};
ghost use Rattle.c_parser.specs.Gives.{Keeps, Expects, ExpectsName};

use c_lexer::{Punct, Token, TokenKind};
use c_parts::{Stop, is_identifier, is_storage_word, is_type_word, within};
use c_scopes::{Declared, Scopes};
use c_syntax::SyntaxBuilder;
use std::alloc::Global;

/// What is left of a unit, what its names mean there, and the trees so far.
#[derive(Drop)]
pub struct Parser<'a> {
    pub alloc: Global,
    pub rest: &'a [Token],
    pub names: Scopes<'a>,
    pub trees: SyntaxBuilder,
    /// What the parameters next to the name of the last declarator declare.
    pub parameters: Vec<Declared<'a>>,
}

impl<'a> Parser<'a> {
    /// The first token that is left.
    pub fn peek(&self) -> Option<&'a Token>
        ensures some { IfSome result (λ t. self.now.rest.now ≡ t.now ∷ behind_one self.now.rest.now) }
        ensures none { IfNone result (self.now.rest.now ≡ []) }
    {
        self.rest.first()
    }

    /// Goes behind the first token, where there is one.
    pub fn advance(&mut self)
        ensures rest { self.new.rest.now ≡ behind_one self.old.rest.now }
        ensures kept { Keeps self.old self.new }
    {
        if let Some((_, rest)) = self.rest.split_first() {
            self.rest = rest;
        }
    }

    /// Goes behind the first token, and gives the next lower budget where a node above a part of this height is within
    /// the budget.
    pub fn enter(&mut self, height: usize, budget: usize) -> Result<usize, Stop>
        ensures rest { self.new.rest.now ≡ behind_one self.old.rest.now }
        ensures kept { Keeps self.old self.new }
        ensures lower { Lowers height budget result }
    {
        self.advance();
        within(height, budget)
    }

    /// Where the first token begins; 0 where none is left.
    pub fn start(&self) -> usize
        ensures { result ≡ start_of self.now.rest.now }
    {
        match self.peek() {
            Some(token) => token.start,
            None => 0,
        }
    }

    /// This mark is ahead.
    pub fn at_mark(&self, mark: Punct) -> bool
        ensures { result ≡ begins_with_mark mark self.now.rest.now }
    {
        match self.peek() {
            Some(token) => match token.kind {
                TokenKind::Punct(other) => other == mark,
                _ => false,
            },
            None => false,
        }
    }

    /// This word is ahead.
    pub fn at_word(&self, text: &str) -> bool
        ensures { result ≡ begins_with_word text.now self.now.rest.now }
    {
        match self.peek() {
            Some(token) => match &token.kind {
                TokenKind::Word(other) => other.as_slice() == text,
                _ => false,
            },
            None => false,
        }
    }

    /// One of the specs is ahead; `typed` where those before it say a type.
    pub fn begins_specifier(&self, typed: bool) -> bool
        ensures { result ≡ reading.begins_specifier typed self.now.names self.now.rest.now }
    {
        match self.peek() {
            Some(token) => match &token.kind {
                TokenKind::Word(name) => self.is_specifier(typed, name.as_slice()),
                _ => false,
            },
            None => false,
        }
    }

    // The word is one of the specs.
    fn is_specifier(&self, typed: bool, text: &str) -> bool
        ensures { (at : vocabulary.Place) → (rest : List Token) → result ≡ reading.begins_specifier_by typed self.now.names (word_ahead text.now at rest) }
    {
        is_type_word(text)
            || is_storage_word(text)
            || text == "struct"
            || text == "enum"
            || (!typed && is_identifier(text) && self.names.is_typedef_name(text))
    }

    /// The word is a name, and no typedef name here.
    pub fn is_variable(&self, text: &str) -> bool
        ensures { result ≡ reading.is_variable self.now.names text.now }
    {
        is_identifier(text) && !self.names.is_typedef_name(text)
    }

    /// Goes behind this mark; without it, stops.
    pub fn expect(&mut self, mark: Punct) -> Result<(), Stop>
        ensures { Expects (begins_with_mark mark self.old.rest.now) self.old self.new result }
    {
        if !self.at_mark(mark) {
            return Err(Stop::Wrong);
        }
        self.advance();
        Ok(())
    }

    /// Goes behind this word; without it, stops.
    pub fn expect_word(&mut self, text: &str) -> Result<(), Stop>
        ensures { Expects (begins_with_word text.now self.old.rest.now) self.old self.new result }
    {
        if !self.at_word(text) {
            return Err(Stop::Wrong);
        }
        self.advance();
        Ok(())
    }

    /// Goes behind a name; without one, stops.
    pub fn expect_identifier(&mut self) -> Result<&'a str, Stop>
        ensures { ExpectsName self.old self.new result }
    {
        let Some(token) = self.peek() else {
            return Err(Stop::Wrong);
        };
        let TokenKind::Word(name) = &token.kind else {
            return Err(Stop::Wrong);
        };
        if !is_identifier(name.as_slice()) {
            return Err(Stop::Wrong);
        }
        self.advance();
        Ok(name.as_slice())
    }

    /// Goes behind all words `const` that are ahead.
    #[tactic(auto, using(crate::proofs::Tokens::behind_one_const, crate::proofs::Tokens::behind_no_const, crate::proofs::Tokens::shorter_word))]
    pub fn skip_const(&mut self)
        ensures rest { self.new.rest.now ≡ behind_const self.old.rest.now }
        ensures kept { Keeps self.old self.new }
    {
        while self.at_word("const") {
            self.advance();
        }
    }
}
