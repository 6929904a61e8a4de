ghost use Rattle.std.specs.Prelude.{◌≤◌};

use crate::transition::Line;

// The shape of a grid: how many states there are, and how many slots at each. A type beside a
// model's `Size`, whose fields are any two numbers: a shape is within the limits, so that its cells
// can be counted.
#[derive(Clone, Copy)]
pub(crate) struct GridShape {
    pub(crate) states: usize,
    pub(crate) slots: usize,
    ghost few: { states ≤ 65536 },
    ghost narrow: { slots ≤ 64 },
}

impl GridShape {
    ghost use Rattle.std.specs.Prelude.{◌≡◌, ◌*◌};
    ghost use Rattle.aut.specs.Surveys.{within};
    ghost use Rattle.aut.specs.Views.{line_of};

    // How many cells it takes.
    pub(crate) fn cells(self) -> usize
        ensures { result ≡ self.states * self.slots }
    {
        self.states * self.slots
    }

    // Whether both states of a line are in it.
    pub(crate) fn holds(self, line: &Line) -> bool
        ensures { result ≡ within self.states (line_of line.now) }
    {
        line.from < self.states && line.to < self.states
    }
}

// What a model may take up: the cells, the slots at each state, and the most states.
#[derive(Clone, Copy)]
pub(crate) struct Room {
    pub(crate) cells: usize,
    pub(crate) slots: usize,
    pub(crate) most: usize,
    ghost narrow: { slots ≤ 64 },
}
