//! What becomes of an open box.
use crate::open_box::OpenBox;
use coord_model::{Weight, Weights};

/// What became of an open box.
#[derive(Drop)]
pub enum Handling {
    /// Drops empty it.
    Empty,
    /// These weights of rows show that no settings of it loosely meet every row.
    Void(Vec<Weight>),
    /// The bound that these weights give it reaches the cost of what is issued, less the gap.
    Bound(Weights),
    /// It has one pickup step for each relay, and its lowest settings do not strictly meet this row.
    Hair {
        row: u16,
    },
    /// Its tight box is split: a relay's pickup steps up to `at` are those of `low`, the ones above those of `high`.
    Split {
        relay: u16,
        at: u16,
        low: OpenBox,
        high: OpenBox,
    },
}
