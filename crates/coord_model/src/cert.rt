//! A certificate: what a search claims, and the tree that shows it.
use crate::choice::{Choice, Ending};
use crate::tree::Node;

/// Which study a certificate belongs to: the format of its network file, and how many relays and rows it has.
#[derive(Clone, Copy, PartialEq, Eq, Debug)]
pub struct StudyHead {
    pub format: u32,
    pub relays: u32,
    pub rows: u32,
}

/// A certificate.
///
/// `gap`, `bound` and `cost` are in weighted microseconds, `budget` and `boxes` count boxes. The choice is there
/// exactly if the cost is. `study` is `None` in the first form of the text.
#[derive(Drop)]
pub struct Cert {
    pub study: Option<StudyHead>,
    pub ending: Ending,
    pub gap: u64,
    pub budget: u32,
    pub boxes: u32,
    pub bound: Option<u64>,
    pub cost: Option<u64>,
    pub choice: Option<Choice>,
    pub tree: Node,
}
