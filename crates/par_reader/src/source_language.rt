//! The language that sources are written in.

ghost use Rattle.par_tree.specs.Grammar.{Names, Builders};
ghost use Rattle.par_tree.specs.Values.{Value, paragon};
ghost use Rattle.par_tree.proofs.Founded.{founded};

use crate::language::Language;

/// The language that a source is written in.
pub struct Paragon;

impl Language for Paragon {
    ghost Names = { Names };

    ghost Builders = { Builders };

    ghost Values = { Value };

    ghost grammar = { paragon };

    ghost founded = { founded };
}
