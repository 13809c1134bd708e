//! The tokens of a source, and its tree by the whole grammar.

ghost use Rattle.std.specs.Prelude.{◌≡◌, ◌≤◌, IfOk, IfErr, length};
ghost use Rattle.par_lexer.specs.Spans.{IsLaid};
ghost use Rattle.par_lexer.specs.Tokens.{HasTokens};
ghost use Rattle.par_tree.specs.Shown.{source as tree_of_program};
ghost use Rattle.par_parser.specs.Bodies.{source_size};
ghost use Rattle.par_parser.specs.Sentence.{place_of};
ghost use Rattle.par_parser.specs.Sentence as syntax;
ghost use Rattle.par_observer.specs.Judgements.{IsReadAs, IsUnread};

use crate::error::{JudgeError, broken};
use par_lexer::list::List;
use par_lexer::token::{LexError, Token};
use par_lexer::{LONGEST_SOURCE, lex};
use par_parser::{ParseError, parse};
use par_tree::decl::Program as Tree;
use std::alloc::Global;

// The rules on the tokens of a source, by their numbers.
const BAD_BYTE: u16 = 1;

const NUMBER_TOO_LARGE: u16 = 2;

const OPEN_COMMENT: u16 = 3;

const NAME_TOO_LONG: u16 = 4;

// The rules on its sentence.
const SYNTAX: u16 = 10;

const TOO_DEEP: u16 = 11;

/// The tokens of a source, or why it has none.
fn tokens_of(alloc: Global, source: &[u8]) -> Result<List<Token>, JudgeError>
    requires { length source.now ≤ LONGEST_SOURCE }
    ensures exact { IfOk result (HasTokens source.now) }
    ensures laid { IfOk result (IsLaid source.now) }
    ensures unread { IfErr result (IsUnread source.now) }
{
    match lex(alloc, source) {
        Ok(tokens) => Ok(tokens),
        Err(error) => match error {
            LexError::BadByte(at) => Err(JudgeError::Refused(broken(BAD_BYTE, at))),
            LexError::NumberTooLarge(at) => Err(JudgeError::Refused(broken(NUMBER_TOO_LARGE, at))),
            LexError::OpenComment(at) => Err(JudgeError::Refused(broken(OPEN_COMMENT, at))),
            LexError::NameTooLong(at) => Err(JudgeError::Refused(broken(NAME_TOO_LONG, at))),
            LexError::SourceTooLong(_) => unreachable!(),
            LexError::Memory => Err(JudgeError::Memory),
        },
    }
}

/// The tree of a source, or why it has none. Its tokens are dropped.
pub(crate) fn read_tree(alloc: Global, source: &[u8]) -> Result<Tree, JudgeError>
    requires { length source.now ≤ LONGEST_SOURCE }
    ensures read { IfOk result (λ tree. IsReadAs source.now (tree_of_program tree)) }
    ensures unread { IfErr result (IsUnread source.now) }
{
    let tokens = tokens_of(alloc, source)?;
    read_sentence(alloc, source, tokens.as_slice())
}

/// The tree of the tokens of a source, or why they are no sentence.
fn read_sentence(alloc: Global, source: &[u8], tokens: &[Token]) -> Result<Tree, JudgeError>
    requires short { length source.now ≤ LONGEST_SOURCE }
    requires cut { HasTokens source.now tokens.now }
    requires laid { IsLaid source.now tokens.now }
    ensures sentence { IfOk result (λ tree. syntax.HasTree tokens.now (tree_of_program tree)) }
    ensures size { IfOk result (λ tree.
        source_size (tree_of_program tree) ≤ length tokens.now) }
    ensures unread { IfErr result (IsUnread source.now) }
{
    match parse(alloc, tokens) {
        Ok(tree) => Ok(tree),
        Err(error) => match error {
            ParseError::Syntax(before) => {
                let at = position(source, tokens, before);
                Err(JudgeError::Refused(broken(SYNTAX, at)))
            }
            ParseError::TooDeep(before) => {
                let at = position(source, tokens, before);
                Err(JudgeError::Refused(broken(TOO_DEEP, at)))
            }
            ParseError::Memory => Err(JudgeError::Memory),
        },
    }
}

/// Where the token behind so many begins; behind the last one it is the end of the source.
fn position(source: &[u8], tokens: &[Token], before: u32) -> u32
    requires short { length source.now ≤ LONGEST_SOURCE }
    requires laid { IsLaid source.now tokens.now }
    ensures exact { result ≡ place_of tokens.now (length source.now) before }
    ensures within { result ≤ length source.now }
{
    match tokens.get(before as usize) {
        Some(token) => token.from,
        None => source.len() as u32,
    }
}
