ghost use Rattle.std.specs.Prelude.{◌≡◌, ◌≤◌, length, drop};
ghost use Rattle.par_reader.specs.declared.limit.TheConstants as limit;
ghost use Rattle.par_exprs.specs.Reading.{IsReading, tokens_from};

use crate::expr::expr;
use par_lexer::token::Token;
use par_reader::cursor::Cursor;
use par_reader::error::ParseError;
use par_reader::source_language::Paragon;
use par_tree::expr::Expr;
use std::alloc::Global;
use std::marker::PhantomData;

/// Reads one expression from the token `from` on, which stands at the nesting `depth`. The answer
/// has the next token, and the nesting with what counts in the expression.
pub fn parse_expr(
    alloc: Global,
    tokens: &[Token],
    from: usize,
    depth: u32,
) -> Result<(Expr, usize, u32), ParseError>
    requires within { from ≤ length tokens.now }
    requires few { length tokens.now ≤ limit.MOST_TOKENS }
    requires shallow { depth ≤ limit.DEEPEST }
    ensures { IsReading (tokens_from tokens.now from depth) result }
{
    let mut cursor: Cursor<'_, Paragon> = Cursor {
        left: rest(tokens, from),
        at: from as u32,
        blocks: depth,
        counted: 0,
        language: PhantomData,
    };
    let read = expr(alloc, &mut cursor)?;
    Ok((read, cursor.at as usize, cursor.blocks + cursor.counted))
}

/// The tokens from that one on.
fn rest(tokens: &[Token], from: usize) -> &[Token]
    requires { from ≤ length tokens.now }
    ensures { result.now ≡ drop from tokens.now }
{
    let (_, left) = tokens.split_at(from);
    left
}
