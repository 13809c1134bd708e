//! A row of numbers, each made of the one before it.

ghost use Rattle.std.specs.Prelude.{◌≡◌};
ghost use Rattle.par_sample.specs.Numbers.{next, drawn_of};

const FACTOR: u64 = 6_364_136_223_846_793_005;

const STEP: u64 = 1_442_695_040_888_963_407;

// The low digits of a number are the least mixed, and are not drawn.
const LOW_DIGITS: u32 = 33;

// What is drawn is below this.
const BOUND: u64 = 1000;

/// The numbers of the row, drawn one after another.
#[derive(Drop)]
pub(crate) struct Numbers {
    last: u64,
}

impl Numbers {
    /// The numbers behind this one.
    pub(crate) fn behind(first: u64) -> Numbers
        ensures { result.last ≡ first }
    {
        Numbers { last: first }
    }

    /// Draws from the next number.
    pub(crate) fn draw(&mut self) -> u64
        ensures last { self.new.last ≡ next self.old.last }
        ensures drawn { result ≡ drawn_of (next self.old.last) }
    {
        self.last = self.last.wrapping_mul(FACTOR).wrapping_add(STEP);
        (self.last >> LOW_DIGITS) % BOUND
    }
}
