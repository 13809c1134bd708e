//! The laws of the runs of plain programs. Nothing runs here: each contract is a law.

ghost use Rattle.par_code_laws.specs.EraseLaws.{PlainRunsShow, PlainFrontsAreFronts};

/// On the same lines and with the same number of steps the erased program shows what the typed one
/// shows. The locks that no `when` asks for are open in one run and not in the other, and nothing
/// else differs.
pub fn plain_runs_show()
    ensures { PlainRunsShow }
{}

/// As far as a machine's run goes, it is that of the typed program where it is that of the erased
/// one.
pub fn plain_fronts_are_fronts()
    ensures { PlainFrontsAreFronts }
{}
