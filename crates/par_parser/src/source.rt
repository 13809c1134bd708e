//! A source as a whole.

ghost use Rattle.std.specs.Prelude.{◌≡◌, ◌≢◌, ◌≤◌, [], ◌∷◌, length, IfOk, IfErr};
ghost use Rattle.par_grammar.specs.Grammar as symbol;
ghost use Rattle.par_stmts.specs.par_reader.SourceLanguage.{Reads};
ghost use Rattle.par_stmts.specs.par_reader.declared.error.ParseError.TheVariants.{Memory};
ghost use Rattle.par_stmts.specs.par_reader.declared.limit.TheConstants as limit;
ghost use Rattle.par_stmts.specs.par_reader.Reads.{fault_of, input};
ghost use Rattle.par_tree.specs.Grammar as g;
ghost use Rattle.par_tree.specs.Plain.{Source};
ghost use Rattle.par_tree.specs.Shown.{source};
ghost use Rattle.par_parser.specs.Bodies.{source_size};
ghost use Rattle.par_parser.specs.Reads.{a_program};
ghost use Rattle.par_parser.specs.Sentence.{HasFault, HasTree};

use crate::decl::decls;
use par_lexer::token::Token;
use par_stmts::par_reader::cursor::Cursor;
use par_stmts::par_reader::error::ParseError;
use par_stmts::par_reader::source_language::Paragon;
use par_tree::decl::Program;
use std::alloc::Global;
use std::marker::PhantomData;

#[tactic(auto, using(par_tree::proofs::Rules::program_opens))]
fn program(alloc: Global, cursor: &mut Cursor<'_, Paragon>) -> Result<Program, ParseError>
    ensures { Reads (symbol.name g.Program ∷ []) [] a_program
        (input cursor.old) result (input cursor.new) }
{
    let decls = decls(alloc, cursor)?;
    cursor.finish()?;
    Ok(Program { decls })
}

/// Reads all tokens of a source. An error other than want of memory tells the first token that is
/// at fault.
pub fn parse(alloc: Global, tokens: &[Token]) -> Result<Program, ParseError>
    requires { length tokens.now ≤ limit.MOST_TOKENS }
    ensures tree { IfOk result (λ program. HasTree tokens.now (source program)) }
    ensures size { IfOk result (λ program. source_size (source program) ≤ length tokens.now) }

    // No other error than these comes, and none of them where there is a tree.
    ensures fault { IfErr result (λ error. error ≢ Memory → HasFault tokens.now (fault_of error)) }
    ensures no_tree { IfErr result (λ error.
        error ≢ Memory → (tree : Source) → HasTree tokens.now tree → ⊥) }
{
    let mut cursor = Cursor {
        left: tokens,
        at: 0,
        blocks: 0,
        counted: 0,
        language: PhantomData,
    };
    program(alloc, &mut cursor)
}
