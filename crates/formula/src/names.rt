use base::Labels;

// The names that a text may use.
#[derive(Clone, Copy)]
pub(crate) struct Names<'a> {
    pub(crate) labels: &'a Labels,
}
