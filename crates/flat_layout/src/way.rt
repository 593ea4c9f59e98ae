//! Which squares cells keep.

/// Which shapes from elsewhere make a cell leave a square to the cells above: any on the layers in
/// question, or only those on a layer on which the cell has nothing there itself.
#[derive(Clone, Copy, Debug, PartialEq, Eq)]
pub enum Way {
    Disturbed,
    Covered,
}
