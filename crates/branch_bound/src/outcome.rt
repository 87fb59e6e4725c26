//! What a search comes to.
use coord_model::{Choice, Ending, Node};

/// What a search came to: the ending, the issued settings with their cost, and the tree with its bound.
///
/// Cost, bound and gap are in whole weighted microseconds. `hair` is there exactly at a hairline.
#[derive(Drop)]
pub struct Outcome {
    pub ending: Ending,
    pub issued: Option<Choice>,
    pub cost: Option<u64>,
    pub bound: Option<u64>,
    pub gap: u64,
    pub budget: u32,
    pub boxes: u32,
    pub hair: Option<HairPlace>,
    pub tree: Node,
}

/// The first hair leaf of a tree: its row, and the lowest settings of its tight box, which do not strictly meet it.
#[derive(Drop)]
pub struct HairPlace {
    pub row: u16,
    pub choice: Choice,
}
