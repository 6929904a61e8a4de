ghost use Rattle.std.specs.Prelude.{◌≡◌, ◌+◌, ◌<◌, length, replicate, if◌then◌else◌, Some, None, nat_lt, slice_index, slice_set};

use model::MOST_STATES;

// How many slots of each state are taken.
#[derive(Drop)]
pub(crate) struct Counts {
    taken: [u8; MOST_STATES],
    ghost rows: { length taken ≡ 65536 },
}

impl Counts {
    // None at any state.
    pub(crate) fn new() -> Counts
        ensures { result.taken ≡ replicate 65536 0 }
    {
        Counts {
            taken: [0; MOST_STATES],
        }
    }

    // The next slot of a state that has so many, unless all are taken.
    pub(crate) fn free_slot(&self, state: usize, slots: usize) -> Option<usize>
        requires { state < 65536 }
        ensures { result ≡ (if nat_lt (slice_index self.now.taken state) slots then Some
            (slice_index self.now.taken state) else None) }
    {
        let slot = usize::from(self.taken[state]);
        (slot < slots).then_some(slot)
    }

    // The next slot of a state is taken.
    pub(crate) fn take_slot(&mut self, state: usize)
        requires state { state < 65536 }
        requires free { slice_index self.old.taken state < 64 }
        ensures { self.new.taken ≡ slice_set self.old.taken state
            (slice_index self.old.taken state + 1) }
    {
        self.taken[state] += 1;
    }
}
