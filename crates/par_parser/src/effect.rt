//! What the head of a method says behind its parameters: what it writes, which locks it expects,
//! opens and closes, and what it throws.

ghost use Rattle.std.specs.Prelude.{◌≡◌, ◌<◌, ◌≤◌, [], ◌∷◌, length, OnOk};
ghost use Rattle.par_grammar.specs.Grammar as symbol;
ghost use Rattle.par_grammar.specs.declared.sort.Sort.TheVariants as sort;
ghost use Rattle.par_stmts.specs.par_reader.SourceLanguage.{Reads};
ghost use Rattle.par_lexer.specs.declared.sign.TheConstants as signs;
ghost use Rattle.par_lexer.specs.declared.word.TheConstants as words;
ghost use Rattle.par_stmts.specs.par_reader.Reads.{input};
ghost use Rattle.par_tree.specs.Grammar as g;
ghost use Rattle.par_tree.specs.Values as value;
ghost use Rattle.par_parser.specs.Reads.{effects_of, the_effects};
ghost use Rattle.par_parser.specs.Marks.{mark_of, part};

use par_grammar::sort::{Sort, same};
use par_lexer::list::List;
use par_lexer::{sign, word};
use par_stmts::par_policy_reader::ident::ident;
use par_stmts::par_policy_reader::lock::lock;
use par_stmts::par_policy_reader::policy::policy;
use par_stmts::par_reader::cursor::Cursor;
use par_stmts::par_reader::error::ParseError;
use par_stmts::par_reader::source_language::Paragon;
use par_tree::decl::ThrowDecl;
use par_tree::policy::{LockTree, PolicyExpr};
use std::alloc::Global;

/// Effects in any order, each kind of them in the order of the source.
#[derive(Drop)]
pub struct Effects {
    pub writes: List<PolicyExpr>,
    pub expects: List<LockTree>,
    pub opens: List<LockTree>,
    pub closes: List<LockTree>,
    pub throws: List<ThrowDecl>,
}

/// What an effect begins with: `!`, `~`, `+`, `-` or `throws`.
#[derive(Clone, Copy)]
pub enum Mark {
    Write,
    Expect,
    Open,
    Close,
    Throw,
}

fn no_effects(alloc: Global) -> Effects
    ensures { effects_of result ≡ value.no_effects }
{
    Effects {
        writes: List::new(alloc),
        expects: List::new(alloc),
        opens: List::new(alloc),
        closes: List::new(alloc),
        throws: List::new(alloc),
    }
}

/// All effects of a method.
pub fn all_effects(alloc: Global, cursor: &mut Cursor<'_, Paragon>) -> Result<Effects, ParseError>
    ensures read { Reads (symbol.name g.Effects ∷ []) [] the_effects
        (input cursor.old) result (input cursor.new) }
    ensures shorter { OnOk result (length cursor.new.left.now ≤ length cursor.old.left.now) }
{
    let none = no_effects(alloc);
    more_effects(alloc, cursor, none)
}

/// The effect that a token of this sort begins.
fn mark_of(next: Sort) -> Option<Mark>
    ensures { result ≡ mark_of next }
{
    if same(next, Sort::Sign(sign::BANG)) {
        Some(Mark::Write)
    } else if same(next, Sort::Sign(sign::TILDE)) {
        Some(Mark::Expect)
    } else if same(next, Sort::Sign(sign::PLUS)) {
        Some(Mark::Open)
    } else if same(next, Sort::Sign(sign::MINUS)) {
        Some(Mark::Close)
    } else if same(next, Sort::Word(word::THROWS)) {
        Some(Mark::Throw)
    } else {
        None
    }
}

fn more_effects(
    alloc: Global,
    cursor: &mut Cursor<'_, Paragon>,
    mut found: Effects,
) -> Result<Effects, ParseError>
    ensures read { Reads (symbol.name g.MoreEffects ∷ []) (the_effects found) the_effects
        (input cursor.old) result (input cursor.new) }
    ensures shorter { OnOk result (length cursor.new.left.now ≤ length cursor.old.left.now) }
{
    'more: loop {
        match mark_of(cursor.peek()) {
            Some(mark) => effect(alloc, cursor, mark, &mut found)?,
            None => return Ok(found),
        }
    }
}

fn effect(
    alloc: Global,
    cursor: &mut Cursor<'_, Paragon>,
    mark: Mark,
    found: &mut Effects,
) -> Result<(), ParseError>
    ensures read { Reads (part mark) (the_effects found.old) (λ _. the_effects found.new)
        (input cursor.old) result (input cursor.new) }
    ensures shorter { OnOk result (length cursor.new.left.now < length cursor.old.left.now) }
{
    match mark {
        Mark::Write => write(alloc, cursor, found),
        Mark::Expect => expect(alloc, cursor, found),
        Mark::Open => open(alloc, cursor, found),
        Mark::Close => close(alloc, cursor, found),
        Mark::Throw => throw(alloc, cursor, found),
    }
}

#[tactic(auto, using(par_tree::proofs::Rules::run_built))]
fn write(
    alloc: Global,
    cursor: &mut Cursor<'_, Paragon>,
    found: &mut Effects,
) -> Result<(), ParseError>
    ensures read { Reads
        (symbol.token (sort.Sign signs.BANG) ∷ symbol.name g.Policy
        ∷ symbol.builds g.NextWrite ∷ [])
        (the_effects found.old) (λ _. the_effects found.new)
        (input cursor.old) result (input cursor.new) }
    ensures shorter { OnOk result (length cursor.new.left.now < length cursor.old.left.now) }
{
    cursor.take(Sort::Sign(sign::BANG))?;
    let policy = policy(alloc, cursor)?;
    found.writes.push(policy)?;
    Ok(())
}

#[tactic(auto, using(par_tree::proofs::Rules::run_built))]
fn expect(
    alloc: Global,
    cursor: &mut Cursor<'_, Paragon>,
    found: &mut Effects,
) -> Result<(), ParseError>
    ensures read { Reads
        (symbol.token (sort.Sign signs.TILDE) ∷ symbol.name g.Lock
        ∷ symbol.builds g.NextExpect ∷ [])
        (the_effects found.old) (λ _. the_effects found.new)
        (input cursor.old) result (input cursor.new) }
    ensures shorter { OnOk result (length cursor.new.left.now < length cursor.old.left.now) }
{
    cursor.take(Sort::Sign(sign::TILDE))?;
    let lock = lock(alloc, cursor)?;
    found.expects.push(lock)?;
    Ok(())
}

#[tactic(auto, using(par_tree::proofs::Rules::run_built))]
fn open(
    alloc: Global,
    cursor: &mut Cursor<'_, Paragon>,
    found: &mut Effects,
) -> Result<(), ParseError>
    ensures read { Reads
        (symbol.token (sort.Sign signs.PLUS) ∷ symbol.name g.Lock ∷ symbol.builds g.NextOpen ∷ [])
        (the_effects found.old) (λ _. the_effects found.new)
        (input cursor.old) result (input cursor.new) }
    ensures shorter { OnOk result (length cursor.new.left.now < length cursor.old.left.now) }
{
    cursor.take(Sort::Sign(sign::PLUS))?;
    let lock = lock(alloc, cursor)?;
    found.opens.push(lock)?;
    Ok(())
}

#[tactic(auto, using(par_tree::proofs::Rules::run_built))]
fn close(
    alloc: Global,
    cursor: &mut Cursor<'_, Paragon>,
    found: &mut Effects,
) -> Result<(), ParseError>
    ensures read { Reads
        (symbol.token (sort.Sign signs.MINUS) ∷ symbol.name g.Lock ∷ symbol.builds g.NextClose ∷ [])
        (the_effects found.old) (λ _. the_effects found.new)
        (input cursor.old) result (input cursor.new) }
    ensures shorter { OnOk result (length cursor.new.left.now < length cursor.old.left.now) }
{
    cursor.take(Sort::Sign(sign::MINUS))?;
    let lock = lock(alloc, cursor)?;
    found.closes.push(lock)?;
    Ok(())
}

#[tactic(auto, using(par_tree::proofs::Rules::run_built))]
fn throw(
    alloc: Global,
    cursor: &mut Cursor<'_, Paragon>,
    found: &mut Effects,
) -> Result<(), ParseError>
    ensures read { Reads
        (symbol.token (sort.Word words.THROWS) ∷ symbol.kept sort.Name ∷ symbol.name g.Policy
        ∷ symbol.builds g.NextThrow ∷ [])
        (the_effects found.old) (λ _. the_effects found.new)
        (input cursor.old) result (input cursor.new) }
    ensures shorter { OnOk result (length cursor.new.left.now < length cursor.old.left.now) }
{
    cursor.take(Sort::Word(word::THROWS))?;
    let name = cursor.keep(Sort::Name)?;
    let policy = policy(alloc, cursor)?;
    let class = ident(alloc, name)?;
    found.throws.push(ThrowDecl { class, policy })?;
    Ok(())
}
