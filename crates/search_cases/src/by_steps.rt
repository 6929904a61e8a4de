ghost use Rattle.std.specs.Prelude.{◌≤◌};

use search::Weight;

// Airtime, and the number of steps where the airtimes are equal. What is past the greatest airtime
// is as heavy as can be.
#[derive(Clone, Copy)]
pub(crate) struct BySteps {
    pub(crate) ticks: u32,
    pub(crate) steps: u32,
    ghost within: { ticks ≤ 4294967295 },
    ghost few: { steps ≤ 4294967295 },
}

impl Weight for BySteps {
    ghost use Rattle.meaning.specs.Weights.{airtime};
    ghost use Rattle.meaning.proofs.Peaks.{airtime_fits, zero_fits};
    ghost use Rattle.search_cases.specs.Lexicographic.{lexicographic, steps_with};
    ghost use Rattle.search_cases.specs.LexicographicLaws.{steps_fit, laws};

    ghost scale = { record {
      at_most = λ v w. lexicographic v.ticks v.steps w.ticks w.steps;
      join = λ w c. record {
        ticks = airtime w.ticks c;
        steps = steps_with w.ticks w.steps c;
        within = airtime_fits w.ticks c;
        few = steps_fit w.ticks w.steps c;
      };
      start = record { ticks = 0; steps = 0; within = zero_fits; few = zero_fits };
    } };

    ghost laws = { laws };

    fn start() -> BySteps {
        BySteps { ticks: 0, steps: 0 }
    }

    fn at_most(&self, other: &BySteps) -> bool {
        self.ticks < other.ticks || (self.ticks == other.ticks && self.steps <= other.steps)
    }

    fn join(&self, tariff: u16) -> BySteps {
        match self.ticks.checked_add(u32::from(tariff)) {
            Some(ticks) => BySteps {
                ticks,
                steps: self.steps.saturating_add(1),
            },
            None => BySteps {
                ticks: u32::MAX,
                steps: u32::MAX,
            },
        }
    }
}
