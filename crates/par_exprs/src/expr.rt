//! Expressions: a function for each name of the grammar, and one for each longer alternative.

ghost use Rattle.std.specs.Prelude.{◌≡◌, ◌+◌, ◌<◌, ◌≤◌, [], ◌∷◌, length, OnOk};
ghost use Rattle.par_grammar.specs.Grammar as symbol;
ghost use Rattle.par_grammar.specs.declared.sort.Sort.TheVariants as sort;
ghost use Rattle.par_lexer.specs.declared.sign.TheConstants as signs;
ghost use Rattle.par_lexer.specs.declared.word.TheConstants as words;
ghost use Rattle.par_reader.specs.Reads.{IsOf, input};
ghost use Rattle.par_tree.specs.Grammar as g;
ghost use Rattle.par_tree.specs.Shown.{shown, all_shown};
ghost use Rattle.par_tree.specs.Values.{tok, exp, exps};
ghost use Rattle.par_reader.specs.SourceLanguage.{Reads};
ghost use Rattle.par_exprs.specs.Exprs.{tree, trees};

use crate::make;
use crate::operator::{LINES, operator};
use par_grammar::sort::Sort;
use par_lexer::list::List;
use par_lexer::operator::BinOp;
use par_lexer::token::Token;
use par_lexer::{sign, word};
use par_reader::cursor::Cursor;
use par_reader::error::ParseError;
use par_reader::source_language::Paragon;
use par_tree::expr::{Expr, ExprKind};
use std::alloc::Global;

/// An expression.
#[cycle(expr)]
pub fn expr(alloc: Global, cursor: &mut Cursor<'_, Paragon>) -> Result<Expr, ParseError>
    ensures read { Reads (symbol.name (g.Level 0) ∷ []) [] tree
        (input cursor.old) result (input cursor.new) }
    ensures shorter { OnOk result (length cursor.new.left.now < length cursor.old.left.now) }
{
    level(alloc, cursor, 0)
}

/// A binary expression of a line of operators.
#[cycle(expr)]
fn level(alloc: Global, cursor: &mut Cursor<'_, Paragon>, line: u8) -> Result<Expr, ParseError>
    requires { line ≤ g.lines }
    ensures read { Reads (symbol.name (g.Level line) ∷ []) [] tree
        (input cursor.old) result (input cursor.new) }
    ensures shorter { OnOk result (length cursor.new.left.now < length cursor.old.left.now) }
{
    if line < LINES {
        chain(alloc, cursor, line)
    } else {
        unary(alloc, cursor)
    }
}

/// An expression of the next line, and what follows it.
#[cycle(expr)]
fn chain(alloc: Global, cursor: &mut Cursor<'_, Paragon>, line: u8) -> Result<Expr, ParseError>
    requires { line < g.lines }
    ensures read { Reads (symbol.name (g.Level (line + 1)) ∷ symbol.name (g.More line) ∷ []) [] tree
        (input cursor.old) result (input cursor.new) }
    ensures shorter { OnOk result (length cursor.new.left.now < length cursor.old.left.now) }
{
    let first = level(alloc, cursor, line + 1)?;
    more(alloc, cursor, line, first)
}

/// The operators of a line that follow its first part, each with its second.
#[cycle(expr)]
fn more(
    alloc: Global,
    cursor: &mut Cursor<'_, Paragon>,
    line: u8,
    mut left: Expr,
) -> Result<Expr, ParseError>
    requires { line < g.lines }
    ensures read { Reads (symbol.name (g.More line) ∷ []) (exp (shown left) ∷ []) tree
        (input cursor.old) result (input cursor.new) }
    ensures shorter { OnOk result (length cursor.new.left.now ≤ length cursor.old.left.now) }
{
    'more: loop {
        match operator(line, cursor.peek()) {
            Some((sign, op)) => left = operation(alloc, cursor, line, sign, op, left)?,
            None => return Ok(left),
        }
    }
}

/// An operator, and its second part.
#[cycle(expr)]
#[tactic(auto, using(par_tree::proofs::Rules::run_built))]
fn operation(
    alloc: Global,
    cursor: &mut Cursor<'_, Paragon>,
    line: u8,
    sign: u8,
    op: BinOp,
    left: Expr,
) -> Result<Expr, ParseError>
    requires { line < g.lines }
    ensures read { Reads
        (symbol.counts ∷ symbol.kept (sort.Sign sign) ∷ symbol.name (g.Level (line + 1))
        ∷ symbol.builds (g.Binary op) ∷ [])
        (exp (shown left) ∷ []) tree (input cursor.old) result (input cursor.new) }
    ensures shorter { OnOk result (length cursor.new.left.now < length cursor.old.left.now) }
{
    cursor.count()?;
    let sign = cursor.keep(Sort::Sign(sign))?;
    let right = level(alloc, cursor, line + 1)?;
    make::binary(alloc, op, sign, left, right)
}

/// An expression without a binary operator of its own.
#[cycle(expr)]
fn unary(alloc: Global, cursor: &mut Cursor<'_, Paragon>) -> Result<Expr, ParseError>
    ensures read { Reads (symbol.name g.Unary ∷ []) [] tree
        (input cursor.old) result (input cursor.new) }
    ensures shorter { OnOk result (length cursor.new.left.now < length cursor.old.left.now) }
{
    if cursor.sees(Sort::Sign(sign::MINUS)) {
        negation(alloc, cursor)
    } else if cursor.sees(Sort::Sign(sign::BANG)) {
        inversion(alloc, cursor)
    } else {
        postfix(alloc, cursor)
    }
}

#[cycle(expr)]
#[tactic(auto, using(par_tree::proofs::Rules::run_built))]
fn negation(alloc: Global, cursor: &mut Cursor<'_, Paragon>) -> Result<Expr, ParseError>
    ensures read { Reads
        (symbol.counts ∷ symbol.kept (sort.Sign signs.MINUS) ∷ symbol.name g.Unary
        ∷ symbol.builds g.Negate ∷ [])
        [] tree (input cursor.old) result (input cursor.new) }
    ensures shorter { OnOk result (length cursor.new.left.now < length cursor.old.left.now) }
{
    cursor.count()?;
    let sign = cursor.keep(Sort::Sign(sign::MINUS))?;
    let of = unary(alloc, cursor)?;
    make::negated(alloc, sign, of)
}

#[cycle(expr)]
#[tactic(auto, using(par_tree::proofs::Rules::run_built))]
fn inversion(alloc: Global, cursor: &mut Cursor<'_, Paragon>) -> Result<Expr, ParseError>
    ensures read { Reads
        (symbol.counts ∷ symbol.kept (sort.Sign signs.BANG) ∷ symbol.name g.Unary
        ∷ symbol.builds g.Invert ∷ [])
        [] tree (input cursor.old) result (input cursor.new) }
    ensures shorter { OnOk result (length cursor.new.left.now < length cursor.old.left.now) }
{
    cursor.count()?;
    let sign = cursor.keep(Sort::Sign(sign::BANG))?;
    let of = unary(alloc, cursor)?;
    make::inverted(alloc, sign, of)
}

/// An expression, and the members that are selected of it.
#[cycle(expr)]
fn postfix(alloc: Global, cursor: &mut Cursor<'_, Paragon>) -> Result<Expr, ParseError>
    ensures read { Reads (symbol.name g.Primary ∷ symbol.name g.Tail ∷ []) [] tree
        (input cursor.old) result (input cursor.new) }
    ensures shorter { OnOk result (length cursor.new.left.now < length cursor.old.left.now) }
{
    let first = primary(alloc, cursor)?;
    tail(alloc, cursor, first)
}

/// The members that are selected of an expression, one after the other.
#[cycle(expr)]
fn tail(alloc: Global, cursor: &mut Cursor<'_, Paragon>, mut of: Expr) -> Result<Expr, ParseError>
    ensures read { Reads (symbol.name g.Tail ∷ []) (exp (shown of) ∷ []) tree
        (input cursor.old) result (input cursor.new) }
    ensures shorter { OnOk result (length cursor.new.left.now ≤ length cursor.old.left.now) }
{
    'more: while cursor.sees(Sort::Sign(sign::DOT)) {
        of = member(alloc, cursor, of)?;
    }
    Ok(of)
}

#[cycle(expr)]
fn member(alloc: Global, cursor: &mut Cursor<'_, Paragon>, of: Expr) -> Result<Expr, ParseError>
    ensures read { Reads
        (symbol.counts ∷ symbol.token (sort.Sign signs.DOT) ∷ symbol.kept sort.Name
        ∷ symbol.name g.Selected ∷ [])
        (exp (shown of) ∷ []) tree (input cursor.old) result (input cursor.new) }
    ensures shorter { OnOk result (length cursor.new.left.now < length cursor.old.left.now) }
{
    cursor.count()?;
    cursor.take(Sort::Sign(sign::DOT))?;
    let name = cursor.keep(Sort::Name)?;
    selected(alloc, cursor, of, name)
}

/// What a member stands for: a call where arguments follow.
#[cycle(expr)]
fn selected(
    alloc: Global,
    cursor: &mut Cursor<'_, Paragon>,
    of: Expr,
    name: &Token,
) -> Result<Expr, ParseError>
    requires { IsOf sort.Name name.now }
    ensures read { Reads (symbol.name g.Selected ∷ []) (tok name.now ∷ exp (shown of) ∷ []) tree
        (input cursor.old) result (input cursor.new) }
    ensures shorter { OnOk result (length cursor.new.left.now ≤ length cursor.old.left.now) }
{
    if cursor.sees(Sort::Sign(sign::LEFT_PAREN)) {
        call_on(alloc, cursor, of, name)
    } else {
        make::selected(alloc, of, name)
    }
}

/// A call of a member of an expression, whose name is read.
#[cycle(expr)]
#[tactic(auto, using(par_tree::proofs::Rules::run_built))]
pub fn call_on(
    alloc: Global,
    cursor: &mut Cursor<'_, Paragon>,
    of: Expr,
    name: &Token,
) -> Result<Expr, ParseError>
    requires { IsOf sort.Name name.now }
    ensures read { Reads
        (symbol.name g.Args ∷ symbol.builds g.CallOn ∷ [])
        (tok name.now ∷ exp (shown of) ∷ []) tree (input cursor.old) result (input cursor.new) }
    ensures shorter { OnOk result (length cursor.new.left.now < length cursor.old.left.now) }
{
    let args = args(alloc, cursor)?;
    make::called_on(alloc, of, name, args)
}

/// An expression that no operator or member ends.
#[cycle(expr)]
fn primary(alloc: Global, cursor: &mut Cursor<'_, Paragon>) -> Result<Expr, ParseError>
    ensures read { Reads (symbol.name g.Primary ∷ []) [] tree
        (input cursor.old) result (input cursor.new) }
    ensures shorter { OnOk result (length cursor.new.left.now < length cursor.old.left.now) }
{
    if cursor.sees(Sort::Number) {
        constant(cursor)
    } else if cursor.sees(Sort::Word(word::TRUE)) {
        truth(cursor)
    } else if cursor.sees(Sort::Word(word::FALSE)) {
        falsity(cursor)
    } else if cursor.sees(Sort::Word(word::NULL)) {
        null(cursor)
    } else if cursor.sees(Sort::Word(word::THIS)) {
        this(cursor)
    } else if cursor.sees(Sort::Word(word::NEW)) {
        creation(alloc, cursor)
    } else if cursor.sees(Sort::Name) {
        named(alloc, cursor)
    } else if cursor.sees(Sort::Sign(sign::LEFT_PAREN)) {
        in_parens(alloc, cursor)
    } else {
        Err(ParseError::Syntax(cursor.at))
    }
}

#[tactic(auto, using(par_tree::proofs::Rules::run_built))]
fn constant(cursor: &mut Cursor<'_, Paragon>) -> Result<Expr, ParseError>
    ensures read { Reads (symbol.kept sort.Number ∷ symbol.builds g.Constant ∷ []) [] tree
        (input cursor.old) result (input cursor.new) }
    ensures shorter { OnOk result (length cursor.new.left.now < length cursor.old.left.now) }
{
    let number = cursor.keep(Sort::Number)?;
    Ok(make::constant(number))
}

#[tactic(auto, using(par_tree::proofs::Rules::run_built, par_tree::proofs::Shown::shows))]
fn truth(cursor: &mut Cursor<'_, Paragon>) -> Result<Expr, ParseError>
    ensures read { Reads
        (symbol.kept (sort.Word words.TRUE) ∷ symbol.builds g.TrueExpr ∷ [])
        [] tree (input cursor.old) result (input cursor.new) }
    ensures shorter { OnOk result (length cursor.new.left.now < length cursor.old.left.now) }
{
    let word = cursor.keep(Sort::Word(word::TRUE))?;
    Ok(Expr {
        kind: ExprKind::True,
        at: word.from,
    })
}

#[tactic(auto, using(par_tree::proofs::Rules::run_built, par_tree::proofs::Shown::shows))]
fn falsity(cursor: &mut Cursor<'_, Paragon>) -> Result<Expr, ParseError>
    ensures read { Reads
        (symbol.kept (sort.Word words.FALSE) ∷ symbol.builds g.FalseExpr ∷ [])
        [] tree (input cursor.old) result (input cursor.new) }
    ensures shorter { OnOk result (length cursor.new.left.now < length cursor.old.left.now) }
{
    let word = cursor.keep(Sort::Word(word::FALSE))?;
    Ok(Expr {
        kind: ExprKind::False,
        at: word.from,
    })
}

#[tactic(auto, using(par_tree::proofs::Rules::run_built, par_tree::proofs::Shown::shows))]
fn null(cursor: &mut Cursor<'_, Paragon>) -> Result<Expr, ParseError>
    ensures read { Reads
        (symbol.kept (sort.Word words.NULL) ∷ symbol.builds g.NullExpr ∷ [])
        [] tree (input cursor.old) result (input cursor.new) }
    ensures shorter { OnOk result (length cursor.new.left.now < length cursor.old.left.now) }
{
    let word = cursor.keep(Sort::Word(word::NULL))?;
    Ok(Expr {
        kind: ExprKind::Null,
        at: word.from,
    })
}

/// The object whose method it is.
#[tactic(auto, using(par_tree::proofs::Rules::run_built, par_tree::proofs::Shown::shows))]
pub fn this(cursor: &mut Cursor<'_, Paragon>) -> Result<Expr, ParseError>
    ensures read { Reads
        (symbol.kept (sort.Word words.THIS) ∷ symbol.builds g.ThisExpr ∷ [])
        [] tree (input cursor.old) result (input cursor.new) }
    ensures shorter { OnOk result (length cursor.new.left.now < length cursor.old.left.now) }
{
    let word = cursor.keep(Sort::Word(word::THIS))?;
    Ok(Expr {
        kind: ExprKind::This,
        at: word.from,
    })
}

fn creation(alloc: Global, cursor: &mut Cursor<'_, Paragon>) -> Result<Expr, ParseError>
    ensures read { Reads
        (symbol.kept (sort.Word words.NEW) ∷ symbol.kept sort.Name ∷ symbol.name g.Created ∷ [])
        [] tree (input cursor.old) result (input cursor.new) }
    ensures shorter { OnOk result (length cursor.new.left.now < length cursor.old.left.now) }
{
    let word = cursor.keep(Sort::Word(word::NEW))?;
    let class = cursor.keep(Sort::Name)?;
    created(alloc, cursor, word, class)
}

/// The parentheses behind a class of which an object is made.
fn created(
    alloc: Global,
    cursor: &mut Cursor<'_, Paragon>,
    word: &Token,
    class: &Token,
) -> Result<Expr, ParseError>
    requires { IsOf sort.Name class.now }
    ensures read { Reads (symbol.name g.Created ∷ []) (tok class.now ∷ tok word.now ∷ []) tree
        (input cursor.old) result (input cursor.new) }
    ensures shorter { OnOk result (length cursor.new.left.now < length cursor.old.left.now) }
{
    if cursor.sees(Sort::Sign(sign::LEFT_PAREN)) {
        empty_parens(alloc, cursor, word, class)
    } else {
        Err(ParseError::Syntax(cursor.at))
    }
}

#[tactic(auto, using(par_tree::proofs::Rules::run_built))]
fn empty_parens(
    alloc: Global,
    cursor: &mut Cursor<'_, Paragon>,
    word: &Token,
    class: &Token,
) -> Result<Expr, ParseError>
    requires { IsOf sort.Name class.now }
    ensures read { Reads
        (symbol.counts ∷ symbol.token (sort.Sign signs.LEFT_PAREN)
        ∷ symbol.token (sort.Sign signs.RIGHT_PAREN) ∷ symbol.builds g.Create ∷ [])
        (tok class.now ∷ tok word.now ∷ []) tree (input cursor.old) result (input cursor.new) }
    ensures shorter { OnOk result (length cursor.new.left.now < length cursor.old.left.now) }
{
    cursor.count()?;
    cursor.take(Sort::Sign(sign::LEFT_PAREN))?;
    cursor.take(Sort::Sign(sign::RIGHT_PAREN))?;
    make::created(alloc, word, class)
}

#[cycle(expr)]
fn named(alloc: Global, cursor: &mut Cursor<'_, Paragon>) -> Result<Expr, ParseError>
    ensures read { Reads (symbol.kept sort.Name ∷ symbol.name g.Callee ∷ []) [] tree
        (input cursor.old) result (input cursor.new) }
    ensures shorter { OnOk result (length cursor.new.left.now < length cursor.old.left.now) }
{
    let name = cursor.keep(Sort::Name)?;
    callee(alloc, cursor, name)
}

/// What a name stands for: a call where arguments follow.
#[cycle(expr)]
fn callee(alloc: Global, cursor: &mut Cursor<'_, Paragon>, name: &Token) -> Result<Expr, ParseError>
    requires { IsOf sort.Name name.now }
    ensures read { Reads (symbol.name g.Callee ∷ []) (tok name.now ∷ []) tree
        (input cursor.old) result (input cursor.new) }
    ensures shorter { OnOk result (length cursor.new.left.now ≤ length cursor.old.left.now) }
{
    if cursor.sees(Sort::Sign(sign::LEFT_PAREN)) {
        call(alloc, cursor, name)
    } else {
        make::variable(alloc, name)
    }
}

/// A call without a receiver, whose name is read.
#[cycle(expr)]
#[tactic(auto, using(par_tree::proofs::Rules::run_built))]
pub fn call(
    alloc: Global,
    cursor: &mut Cursor<'_, Paragon>,
    name: &Token,
) -> Result<Expr, ParseError>
    requires { IsOf sort.Name name.now }
    ensures read { Reads
        (symbol.name g.Args ∷ symbol.builds g.CallOwn ∷ [])
        (tok name.now ∷ []) tree (input cursor.old) result (input cursor.new) }
    ensures shorter { OnOk result (length cursor.new.left.now < length cursor.old.left.now) }
{
    let args = args(alloc, cursor)?;
    make::called(alloc, name, args)
}

#[cycle(expr)]
fn in_parens(alloc: Global, cursor: &mut Cursor<'_, Paragon>) -> Result<Expr, ParseError>
    ensures read { Reads
        (symbol.counts ∷ symbol.token (sort.Sign signs.LEFT_PAREN) ∷ symbol.name (g.Level 0)
        ∷ symbol.token (sort.Sign signs.RIGHT_PAREN) ∷ [])
        [] tree (input cursor.old) result (input cursor.new) }
    ensures shorter { OnOk result (length cursor.new.left.now < length cursor.old.left.now) }
{
    cursor.count()?;
    cursor.take(Sort::Sign(sign::LEFT_PAREN))?;
    let inner = expr(alloc, cursor)?;
    cursor.take(Sort::Sign(sign::RIGHT_PAREN))?;
    Ok(inner)
}

/// The arguments of a call, with the parentheses around them.
#[cycle(expr)]
pub fn args(alloc: Global, cursor: &mut Cursor<'_, Paragon>) -> Result<List<Expr>, ParseError>
    ensures read { Reads (symbol.name g.Args ∷ []) [] trees
        (input cursor.old) result (input cursor.new) }
    ensures shorter { OnOk result (length cursor.new.left.now < length cursor.old.left.now) }
{
    if cursor.sees(Sort::Sign(sign::LEFT_PAREN)) {
        args_in_parens(alloc, cursor)
    } else {
        Err(ParseError::Syntax(cursor.at))
    }
}

#[cycle(expr)]
fn args_in_parens(alloc: Global, cursor: &mut Cursor<'_, Paragon>) -> Result<List<Expr>, ParseError>
    ensures read { Reads
        (symbol.counts ∷ symbol.token (sort.Sign signs.LEFT_PAREN) ∷ symbol.name g.ArgList
        ∷ symbol.token (sort.Sign signs.RIGHT_PAREN) ∷ [])
        [] trees (input cursor.old) result (input cursor.new) }
    ensures shorter { OnOk result (length cursor.new.left.now < length cursor.old.left.now) }
{
    cursor.count()?;
    cursor.take(Sort::Sign(sign::LEFT_PAREN))?;
    let args = arg_list(alloc, cursor)?;
    cursor.take(Sort::Sign(sign::RIGHT_PAREN))?;
    Ok(args)
}

#[cycle(expr)]
fn arg_list(alloc: Global, cursor: &mut Cursor<'_, Paragon>) -> Result<List<Expr>, ParseError>
    ensures read { Reads (symbol.name g.ArgList ∷ []) [] trees
        (input cursor.old) result (input cursor.new) }
    ensures shorter { OnOk result (length cursor.new.left.now ≤ length cursor.old.left.now) }
{
    if cursor.sees(Sort::Sign(sign::RIGHT_PAREN)) {
        Ok(List::new(alloc))
    } else {
        some_args(alloc, cursor)
    }
}

#[cycle(expr)]
fn some_args(alloc: Global, cursor: &mut Cursor<'_, Paragon>) -> Result<List<Expr>, ParseError>
    ensures read { Reads
        (symbol.builds g.NoArgs ∷ symbol.name (g.Level 0) ∷ symbol.builds g.NextArg
        ∷ symbol.name g.MoreArgs ∷ [])
        [] trees (input cursor.old) result (input cursor.new) }
    ensures shorter { OnOk result (length cursor.new.left.now < length cursor.old.left.now) }
{
    let first = first_arg(alloc, cursor)?;
    more_args(alloc, cursor, first)
}

#[cycle(expr)]
fn first_arg(alloc: Global, cursor: &mut Cursor<'_, Paragon>) -> Result<List<Expr>, ParseError>
    ensures read { Reads
        (symbol.builds g.NoArgs ∷ symbol.name (g.Level 0) ∷ symbol.builds g.NextArg ∷ [])
        [] trees (input cursor.old) result (input cursor.new) }
    ensures shorter { OnOk result (length cursor.new.left.now < length cursor.old.left.now) }
{
    let none = List::new(alloc);
    arg(alloc, cursor, none)
}

/// One more argument.
#[cycle(expr)]
#[tactic(auto, using(par_tree::proofs::Rules::run_built, par_tree::proofs::Shown::all_with))]
fn arg(
    alloc: Global,
    cursor: &mut Cursor<'_, Paragon>,
    mut found: List<Expr>,
) -> Result<List<Expr>, ParseError>
    ensures read { Reads
        (symbol.name (g.Level 0) ∷ symbol.builds g.NextArg ∷ [])
        (exps (all_shown found) ∷ []) trees (input cursor.old) result (input cursor.new) }
    ensures shorter { OnOk result (length cursor.new.left.now < length cursor.old.left.now) }
{
    let next = expr(alloc, cursor)?;
    found.push(next)?;
    Ok(found)
}

/// The arguments behind the first.
#[cycle(expr)]
fn more_args(
    alloc: Global,
    cursor: &mut Cursor<'_, Paragon>,
    mut found: List<Expr>,
) -> Result<List<Expr>, ParseError>
    ensures read { Reads (symbol.name g.MoreArgs ∷ []) (exps (all_shown found) ∷ []) trees
        (input cursor.old) result (input cursor.new) }
    ensures shorter { OnOk result (length cursor.new.left.now ≤ length cursor.old.left.now) }
{
    'more: while cursor.sees(Sort::Sign(sign::COMMA)) {
        found = next_arg(alloc, cursor, found)?;
    }
    Ok(found)
}

#[cycle(expr)]
fn next_arg(
    alloc: Global,
    cursor: &mut Cursor<'_, Paragon>,
    found: List<Expr>,
) -> Result<List<Expr>, ParseError>
    ensures read { Reads
        (symbol.token (sort.Sign signs.COMMA) ∷ symbol.name (g.Level 0)
        ∷ symbol.builds g.NextArg ∷ [])
        (exps (all_shown found) ∷ []) trees (input cursor.old) result (input cursor.new) }
    ensures shorter { OnOk result (length cursor.new.left.now < length cursor.old.left.now) }
{
    cursor.take(Sort::Sign(sign::COMMA))?;
    arg(alloc, cursor, found)
}
