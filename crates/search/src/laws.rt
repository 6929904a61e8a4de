// Theorems about weights and deciding paths. The statements stand in specs/, and the functions do
// nothing.
ghost use Rattle.std.specs.Prelude.{ℕ, ◌↔◌, ◌<◌, None};
ghost use Rattle.meaning.specs.DecidingPaths.{DecidingWhereShown, HandedOutOf, HasToShow};
ghost use Rattle.meaning.specs.Formula.{Formula};
ghost use Rattle.meaning.specs.Lts.{Lts};
ghost use Rattle.search.specs.NoWeight.{PeakFirstFails};

use crate::weight::Weight;

/// Peak first, and airtime where the peaks are equal, is no weight: joining a step can reverse two
/// of them.
pub fn peak_first_fails()
    ensures { PeakFirstFails }
{}

/// A deciding path of a formula begins exactly where an E formula holds or an A formula fails,
/// leading NOTs set aside.
pub fn deciding_where_shown()
    ensures { DecidingWhereShown }
{}

/// And nothing is handed out exactly where neither is so.
pub fn nothing_where_not_shown<W: Weight>()
    ensures { (tariff : ℕ → ℕ) (M : Lts) (f : Formula) (s : ℕ) → s < M.states
        → HandedOutOf W.scale tariff M f s None ↔ (¬ HasToShow M f s) }
{}
