ghost use Rattle.rules.specs.Theorems.{CommitIsExact, RollBackIsExact};
ghost use Rattle.rules.specs.Sound.{StaysSound};

// Theorems about the rules, for every kind of value. Each function computes nothing: its contract is the theorem.

// A commit loses exactly the jobs that precede the committed one, and in turn those that read from a lost one.
pub fn commit_is_exact<V>()
    ensures { CommitIsExact V }
{}

// Rolling back loses exactly the jobs that read from the one rolled back, and in turn those that read from a lost one.
pub fn roll_back_is_exact<V>()
    ensures { RollBackIsExact V }
{}

// Of a fresh manager, and after every call, accepted or refused, whichever conflicting accesses are admitted: no job precedes
// itself, no voted job reads from a pending one, no two voted jobs stand in either order, only jobs are pending, a job that
// has voted is pending, and both relations hold between pending jobs only.
pub fn every_call_keeps_managers_sound<V>()
    ensures { StaysSound V }
{}
