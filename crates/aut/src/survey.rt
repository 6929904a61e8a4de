ghost use Rattle.std.specs.Prelude.{◌≡◌, ◌<◌, Some, None, MatchResult};
ghost use Rattle.base.specs.declared.refusal.Refusal.TheVariants.{Garbled};
ghost use Rattle.aut.specs.declared.survey.Fit.TheVariants.{Whole};
ghost use Rattle.aut.specs.Lines.{lines_left};
ghost use Rattle.aut.specs.Surveys.{seen, unseen, placed, noted, surveyed};
ghost use Rattle.aut.specs.Views.{line_of};

use crate::counts::Counts;
use crate::grid_shape::GridShape;
use crate::lines::Lines;
use crate::transition::Line;
use base::{Labels, Refusal};

// Whether the lines so far have room in a grid: all of them, or one finds no slot or no place for
// its label, or one has a state outside it.
#[derive(Clone, Copy, PartialEq, Eq)]
pub(crate) enum Fit {
    Whole,
    Full,
    Outside,
}

// What the first pass over the lines finds out: the label list as it would be, how many transitions
// each state has, and whether all fit.
#[derive(Drop)]
pub(crate) struct Survey {
    shape: GridShape,
    pub(crate) labels: Labels,
    counts: Counts,
    pub(crate) fit: Fit,
}

impl Survey {
    // The first pass over the lines of a text that has just these.
    pub(crate) fn from_lines(
        lines: Lines,
        labels: Labels,
        shape: GridShape,
    ) -> Result<Survey, Refusal>
        ensures { MatchResult result
            (λ s. surveyed (unseen shape labels) (lines_left lines.entry) ≡ Some (seen s))
            (λ e. (e ≡ Garbled) × (lines_left lines.entry ≡ None)) }
    {
        let mut survey = Survey {
            shape,
            labels,
            counts: Counts::new(),
            fit: Fit::Whole,
        };
        for line in lines {
            survey.note(&line?);
        }
        Ok(survey)
    }

    // One transition more at its state, if that has a free slot and the label a place.
    fn place(&mut self, line: &Line)
        requires within { line.now.from < 65536 }
        requires whole { self.old.fit ≡ Whole }
        ensures { seen self.new ≡ placed (line_of line.now) (seen self.old) }
    {
        let slot = self.counts.free_slot(line.from, self.shape.slots);
        if slot.is_some() && self.labels.add(line.label).is_ok() {
            self.counts.take_slot(line.from);
        } else {
            self.fit = Fit::Full;
        }
    }

    // One line more.
    fn note(&mut self, line: &Line)
        ensures { seen self.new ≡ noted (line_of line.now) (seen self.old) }
    {
        if !self.shape.holds(line) {
            self.fit = Fit::Outside;
        } else if self.fit == Fit::Whole {
            self.place(line);
        }
    }
}
