//! What closes a leaf.
use coord_model::{Weight, Weights};

/// A leaf that is not open.
#[derive(Drop)]
pub enum Leaf {
    /// No settings of the box loosely meet every row, since drops empty it.
    Empty,
    /// The same, since these weights of rows show it.
    Void(Vec<Weight>),
    /// No settings of the box cost less than the bound that these weights give.
    Bound(Weights),
    /// The lowest settings of the box do not strictly meet this row.
    Hair { row: u16 },
}
