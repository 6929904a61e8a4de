use base::Name;

// A transition: from a state, by a label, to a state.
#[derive(Clone, Copy)]
pub(crate) struct Edge<L> {
    pub(crate) from: usize,
    pub(crate) label: L,
    pub(crate) to: usize,
}

// One as a line of the text has it, by a name.
pub(crate) type Line = Edge<Name>;

// One as a model has it, by an action.
pub(crate) type Move = Edge<u8>;
