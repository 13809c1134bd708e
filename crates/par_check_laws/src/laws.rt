// The laws of the verdict. Nothing runs here: each contract is a law.
ghost use Rattle.par_check_laws.specs.Laws.{ClosedFactsThatKeepAccept, LeastFactsThatFailRefuse};

/// A body is accepted where closed facts over sets of policy numbers keep all rules.
pub fn closed_facts_that_keep_accept()
    ensures { ClosedFactsThatKeepAccept }
{}

/// What the least facts fail, all closed facts fail at the same place.
pub fn least_facts_that_fail_refuse()
    ensures { LeastFactsThatFailRefuse }
{}
