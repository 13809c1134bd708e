// What a pass notes.
ghost use Rattle.std.specs.Prelude.{◌≡◌, ◌<◌, ℕ, false, [], ◌∷◌, OnOk, IfOk, length};
ghost use Rattle.par_bits.specs.Sets.{has};
ghost use Rattle.par_program_laws.specs.Lattice.{numbers};
ghost use Rattle.par_program_laws.specs.Facts.{blank};
ghost use Rattle.par_pass_laws.specs.par_except.Seen.{may_see, seen, HasLocals, MayHaveLocals};
ghost use Rattle.par_pass_laws.specs.Exits.{at};
ghost use Rattle.par_pass_laws.specs.Pass.{Row, Into};
ghost use Rattle.par_pass_laws.specs.Written.{blanks};
ghost use Rattle.par_ways.specs.Seen.{seen_exits, seen_fact, seen_facts, AreHeadsWide};
ghost use Rattle.par_ways.specs.Seen.{AreRowsWide, AreWide, IsRowWide};
ghost use Rattle.par_rounds.specs.Took.{HaveSmallLocks, Took};

use par_atoms::Atoms;
use par_base::memory::NoMemory;
use par_ways::exits::{self, Exit};
use par_ways::fact::Fact;
use par_ways::way::SharedWay;
use par_ways::ways::{may_flow, may_join, may_share};
use std::alloc::Global;

/// The head ways of the next pass, whether one of them rose, and the facts of points, where there
/// is a place for them.
#[derive(Drop)]
pub struct Notes {
    pub locals: usize,
    pub heads: Vec<Option<SharedWay>>,
    pub rose: bool,
    pub rows: Vec<Fact>,
}

impl Notes {
    /// Nothing is noted yet.
    pub fn new(
        alloc: Global,
        locals: usize,
        heads: &[Option<SharedWay>],
        points: usize,
    ) -> Result<Notes, NoMemory>
        ensures locals { IfOk result (λ n. n.locals ≡ locals) }
        ensures heads { IfOk result (λ n. n.heads.items ≡ heads.now) }
        ensures rose { IfOk result (λ n. n.rose ≡ false) }
        ensures rows { IfOk result (λ n. seen_facts n.rows.items ≡ blanks points) }
        ensures wide { IfOk result (λ n. AreRowsWide locals n.rows.items) }
    {
        let heads = copied(alloc, heads)?;
        let rows = no_rows(alloc, points)?;
        Ok(Notes {
            locals,
            heads,
            rose: false,
            rows,
        })
    }

    fn write(&mut self, point: u32, row: Fact)
        requires { IsRowWide self.old.locals row }
        ensures { Took (Row point (seen_fact row) ∷ []) self.old self.new }
    {
        let place = point as usize;
        if place < self.rows.len() {
            self.rows[place] = row;
        }
    }

    /// The point is not reached.
    pub fn blank(&mut self, alloc: Global, point: u32)
        ensures { Took (Row point (blank numbers) ∷ []) self.old self.new }
    {
        self.write(point, no_fact(alloc));
    }

    /// The fact of a point that the way enters.
    pub fn row(
        &mut self,
        alloc: Global,
        point: u32,
        entry: &SharedWay,
        value: Atoms,
        exits: &[Exit],
    ) -> Result<(), NoMemory>
        requires entry { HasLocals self.old.locals entry.now }
        requires exits { AreWide self.old.locals exits.now }
        ensures { OnOk result (Took (Row point (record {
          entry = Some (seen entry.now);
          value = has value;
          exit = at (seen_exits exits.now);
        }) ∷ []) self.old self.new) }
    {
        if (point as usize) < self.rows.len() {
            let entry = entry.share()?;
            let exits = exits::copy(alloc, exits)?;
            self.write(
                point,
                Fact {
                    entry: Some(entry),
                    value,
                    exits,
                },
            );
        }
        Ok(())
    }

    /// A way flows into a head, which rises where the way is not below it.
    pub fn flow(
        &mut self,
        alloc: Global,
        point: u32,
        way: &Option<SharedWay>,
    ) -> Result<(), NoMemory>
        requires range { point < length self.old.heads.items }
        requires heads { AreHeadsWide self.old.locals self.old.heads.items }
        requires locals { MayHaveLocals self.old.locals way.now }
        ensures { OnOk result (Took (Into point (may_see way.now) ∷ []) self.old self.new) }
    {
        let place = point as usize;
        if !may_flow(way, &self.heads[place]) {
            locks_are_small(&self.heads[place]);
            let joined = may_join(alloc, &self.heads[place], way)?;
            self.heads[place] = joined;
            self.rose = true;
        }
        Ok(())
    }
}

// A law, of which nothing runs.
fn locks_are_small(way: &Option<SharedWay>)
    ensures { HaveSmallLocks way.now }
{
    if let Some(way) = way {
        way.locks().members_are_below();
    }
}

fn no_fact(alloc: Global) -> Fact
    ensures fact { seen_fact result ≡ blank numbers }
    ensures locals { (n : ℕ) → IsRowWide n result }
{
    Fact {
        entry: None,
        value: Atoms::empty(),
        exits: Vec::new(alloc),
    }
}

fn copied(alloc: Global, heads: &[Option<SharedWay>]) -> Result<Vec<Option<SharedWay>>, NoMemory>
    ensures { IfOk result (λ copies. copies.items ≡ heads.now) }
{
    let mut copies = Vec::with_capacity(alloc, heads.len())?;
    for head in heads {
        let copy = may_share(head)?;
        copies.push(copy)?;
    }
    Ok(copies)
}

fn no_rows(alloc: Global, points: usize) -> Result<Vec<Fact>, NoMemory>
    ensures rows { IfOk result (λ rows. seen_facts rows.items ≡ blanks points) }
    ensures locals { IfOk result (λ rows. (n : ℕ) → AreRowsWide n rows.items) }
{
    let mut rows = Vec::with_capacity(alloc, points)?;
    for _ in 0..points {
        rows.push(no_fact(alloc))?;
    }
    Ok(rows)
}
