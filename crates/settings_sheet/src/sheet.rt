//! What a settings sheet says.
use coord_model::{Choice, Ending};

/// What a settings sheet says. Cost and bound are in weighted microseconds.
#[derive(Drop)]
pub struct Sheet {
    pub ending: Ending,
    pub cost: Option<u64>,
    pub bound: Option<u64>,
    pub choice: Option<Choice>,
}
