//! The typed programs of sources, made with ample memory.

ghost use Rattle.std.specs.Prelude.{IfOk};
ghost use Rattle.std.specs.List.{AllByRecursion};
ghost use Rattle.par_program_laws.specs.WellDeclared.{IsWellDeclared};
ghost use Rattle.par_typed.specs.Shown.{bodies};
ghost use Rattle.par_typed_laws.specs.WellTyped.{IsWellTyped};
ghost use Rattle.par_program_laws.specs.Orderly.{IsOrderlyBody};

use par_lexer::lex;
use par_parser::parse;
use par_table::build;
use par_typed::program::Typed;
use par_typing::type_program;
use std::alloc::Global;
use std::test::Fail;

/// The typed program of a source.
pub fn typed(alloc: Global, source: &[u8]) -> Result<Typed, Fail>
    ensures well_typed { IfOk result (λ typed. IsWellTyped typed.table (bodies typed.bodies)) }
    ensures orderly { IfOk result
        (λ typed. AllByRecursion (IsOrderlyBody typed.table) (bodies typed.bodies)) }
    ensures declared { IfOk result (λ typed. IsWellDeclared typed.table) }
{
    let tokens = lex(alloc, source)?;
    if tokens.len() > 262_144 {
        return Err(Fail::new("too many tokens"));
    }
    let program = parse(alloc, tokens.as_slice())?;
    let table = build(alloc, &program)?;
    let typed = type_program(alloc, table, &program)?;
    Ok(typed)
}

/// The program whose source has this text in the method `main`, which stands last in it.
pub fn with_main(alloc: Global, before: &[u8], body: &[u8]) -> Result<Typed, Fail> {
    let mut source = Vec::from_slice(alloc, before)?;
    source.extend_from_slice(body)?;
    source.extend_from_slice(b"\n  }\n}\n")?;
    let typed = typed(alloc, source.as_slice());
    drop(source);
    typed
}
