//! A place among the tokens, and what is read there.

ghost use Rattle.std.specs.Prelude.{◌+◌, ◌≤◌, length};
ghost use Rattle.par_reader.specs.declared.limit.TheConstants as limit;

use crate::error::ParseError;
use crate::language::Language;
use crate::limit::DEEPEST;
use par_grammar::par_lexer::token::Token;
use par_grammar::sort::{Sort, same, sort_of};
use std::marker::PhantomData;

/// The tokens that are left, the number of those before, and the nesting: the blocks that are open,
/// and what counts in the present expression.
#[derive(Drop)]
pub struct Cursor<'a, L> {
    pub left: &'a [Token],
    pub at: u32,
    pub blocks: u32,
    pub counted: u32,
    pub language: PhantomData<L>,
    ghost fits: { at + length left.now ≤ limit.MOST_TOKENS },
    ghost shallow: { blocks + counted ≤ limit.DEEPEST },
}

impl<'a, L: Language> Cursor<'a, L> {
    ghost use Rattle.std.specs.Prelude.{◌≡◌, ◌<◌, [], ◌∷◌, OnOk, IfOk};
    ghost use Rattle.par_grammar.specs.Sorts as spec;
    ghost use Rattle.par_grammar.specs.Derivation.{next};
    ghost use Rattle.par_grammar.specs.Grammar as symbol;
    ghost use Rattle.par_reader.specs.Reads.{Reads, Steps, IsOf, input, nothing, the_token};

    /// The sort of the next token.
    pub fn peek(&self) -> Sort
        ensures { result ≡ next (input self.now) }
    {
        match self.left {
            [] => Sort::End,
            [first, ..] => sort_of(&first.kind),
        }
    }

    /// Whether the next token is of this sort.
    pub fn sees(&self, sort: Sort) -> bool
        ensures { result ≡ spec.same (next (input self.now)) sort }
    {
        same(self.peek(), sort)
    }

    /// Takes a token of this sort.
    pub fn take(&mut self, sort: Sort) -> Result<(), ParseError>
        ensures read { Reads L.grammar L.founded (symbol.token sort ∷ []) [] nothing
            (input self.old) result (input self.new) }
        ensures shorter { OnOk result (length self.new.left.now < length self.old.left.now) }
    {
        if !self.sees(sort) {
            return Err(ParseError::Syntax(self.at));
        }
        let Some((_, left)) = self.left.split_first() else {
            return Err(ParseError::Syntax(self.at));
        };
        self.left = left;
        self.at += 1;
        Ok(())
    }

    /// Takes a token of this sort, and gives it.
    pub fn keep(&mut self, sort: Sort) -> Result<&'a Token, ParseError>
        ensures read { Reads L.grammar L.founded (symbol.kept sort ∷ []) [] (the_token L.grammar)
            (input self.old) result (input self.new) }
        ensures sort { IfOk result (λ token. IsOf sort token.now) }
        ensures shorter { OnOk result (length self.new.left.now < length self.old.left.now) }
    {
        if !self.sees(sort) {
            return Err(ParseError::Syntax(self.at));
        }
        let Some((first, left)) = self.left.split_first() else {
            return Err(ParseError::Syntax(self.at));
        };
        self.left = left;
        self.at += 1;
        Ok(first)
    }

    /// Asks that no token is left.
    pub fn finish(&self) -> Result<(), ParseError>
        ensures { Reads L.grammar L.founded (symbol.finish ∷ []) [] nothing
            (input self.now) result (input self.now) }
    {
        if self.sees(Sort::End) {
            Ok(())
        } else {
            Err(ParseError::Syntax(self.at))
        }
    }

    /// Counts the next token in its expression.
    pub fn count(&mut self) -> Result<(), ParseError>
        ensures read { Reads L.grammar L.founded (symbol.counts ∷ []) [] nothing
            (input self.old) result (input self.new) }
        ensures same { OnOk result (length self.new.left.now ≡ length self.old.left.now) }
    {
        if self.left.is_empty() {
            return Err(ParseError::Syntax(self.at));
        }
        if self.blocks + self.counted >= DEEPEST {
            return Err(ParseError::TooDeep(self.at));
        }
        self.counted += 1;
        Ok(())
    }

    /// Begins the count of an expression anew.
    pub fn restart(&mut self)
        ensures read { Steps L.grammar L.founded (symbol.restarts ∷ [])
            (input self.old) (input self.new) }
        ensures same { length self.new.left.now ≡ length self.old.left.now }
    {
        self.counted = 0;
    }

    /// Lets the next token, and those behind it, nest one deeper.
    pub fn enter(&mut self) -> Result<(), ParseError>
        ensures read { Reads L.grammar L.founded (symbol.enters ∷ []) [] nothing
            (input self.old) result (input self.new) }
        ensures same { OnOk result (length self.new.left.now ≡ length self.old.left.now) }
    {
        if self.left.is_empty() {
            return Err(ParseError::Syntax(self.at));
        }
        if self.blocks + self.counted >= DEEPEST {
            return Err(ParseError::TooDeep(self.at));
        }
        self.blocks += 1;
        Ok(())
    }

    /// Ends what `enter` began.
    pub fn leave(&mut self)
        ensures read { Steps L.grammar L.founded (symbol.leaves ∷ [])
            (input self.old) (input self.new) }
        ensures same { length self.new.left.now ≡ length self.old.left.now }
    {
        self.blocks = self.blocks.saturating_sub(1);
    }
}
