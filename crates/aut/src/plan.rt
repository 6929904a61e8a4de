use crate::grid_shape::GridShape;
use crate::header::Header;
use base::Labels;

// What the first pass hands to the second: line one, the text after it, the shape of the grid, and
// the label list as it will be.
#[derive(Drop)]
pub(crate) struct Plan<'a> {
    pub(crate) header: Header,
    pub(crate) body: &'a [u8],
    pub(crate) shape: GridShape,
    pub(crate) labels: Labels,
}
