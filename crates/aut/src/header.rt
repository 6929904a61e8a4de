use model::Size;

// The most transitions that a text may have.
pub(crate) const MOST_TRANSITIONS: usize = 65_536;

/// What line one of a text says: the start state, how many transitions follow, and how many states
/// there are.
#[derive(Clone, Copy, PartialEq, Eq, Debug)]
pub struct Header {
    pub start: usize,
    pub transitions: usize,
    pub states: usize,
}

impl Header {
    ghost use Rattle.std.specs.Prelude.{◌≡◌};

    /// The size of the model, if each state has so many slots.
    pub fn size(self, slots: usize) -> Size
        ensures { result ≡ record { states = self.states; slots = slots } }
    {
        Size {
            states: self.states,
            slots,
        }
    }
}
