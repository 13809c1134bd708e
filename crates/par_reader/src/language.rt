ghost use Rattle.par_grammar.specs.Grammar.{Grammar};
ghost use Rattle.par_grammar.proofs.Total.{Founded};

/// A language, which proofs alone see: its grammar, and that each derivation of it comes to an end.
pub trait Language {
    ghost Names: { Type 0 };

    ghost Builders: { Type 0 };

    ghost Values: { Type 0 };

    ghost grammar: { Grammar Names Builders Values };

    ghost founded: { Founded grammar };
}
