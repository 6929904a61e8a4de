// What a formula means over a transition system. The definitions stand in specs/; each function
// here has a theorem as its contract.
#![tactic(auto)]

ghost use Rattle.meaning.specs.Examples.{WorkedExamples, AgSkips};
ghost use Rattle.meaning.specs.Laws.{DeadlockTest, FullpathExists, UnlessReads, DerivedReads};
ghost use Rattle.meaning.specs.Laws.{AtDeadlock, DeadlockVerdicts};
ghost use Rattle.meaning.specs.Laws.{MarksDecide, PathsDecide, DecidingExists, ReferenceRight};

/// The test for a deadlocked state is right: no slot among the model's slots is filled exactly
/// where none at all is.
pub fn deadlock_test()
    ensures { DeadlockTest }
{}

/// From every state some fullpath goes out.
pub fn fullpath_exists()
    ensures { FullpathExists }
{}

/// W means what its reading says: it is not so that neither U holds nor every step is a first step.
pub fn unless_reads()
    ensures { UnlessReads }
{}

/// EX and AX are about the transitions of the state, EF and AF about some step of a fullpath, EG
/// and AG about all of its steps.
pub fn derived_reads()
    ensures { DerivedReads }
{}

/// In a deadlocked state W holds and U fails, for E and A alike.
pub fn at_deadlock()
    ensures { AtDeadlock }
{}

/// In a deadlocked state AX {FALSE} and EG {FALSE} hold, and EX {TRUE} and AF {TRUE} fail.
pub fn deadlock_verdicts()
    ensures { DeadlockVerdicts }
{}

/// With one transition, from 0 to 1, AG AX {FALSE} holds at 0, although AX {FALSE} fails there.
pub fn ag_skips()
    ensures { AgSkips }
{}

/// Marks that are the least sets decide an operator at every state, for E and A with U and W.
pub fn marks_decide()
    ensures { MarksDecide }
{}

/// Such marks also say where a deciding path begins.
pub fn paths_decide()
    ensures { PathsDecide }
{}

/// A deciding path begins exactly where an E formula holds, and exactly where an A formula fails.
pub fn deciding_exists()
    ensures { DecidingExists }
{}

/// The reference evaluator marks exactly the states where a formula holds.
pub fn reference_right()
    ensures { ReferenceRight }
{}

/// The worked examples come out as their table says.
pub fn worked_examples()
    ensures { WorkedExamples }
{}
