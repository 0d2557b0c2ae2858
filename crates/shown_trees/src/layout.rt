//! Layouts of trees.

use sqlite_trees::store::Shape;

/// The shape of a tree, and a bit for each column of type REAL.
#[derive(Clone, Copy)]
pub struct Layout {
    pub shape: Shape,
    pub reals: u64,
}
