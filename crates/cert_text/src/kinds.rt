//! What the lines of a certificate are, and what its head says.
use coord_model::{Ending, NodeLine, StudyHead};

/// The kinds of lines, in the order in which they are due.
#[derive(Clone, Copy, PartialEq, Eq, Debug)]
pub enum CertKind {
    Format,
    Study,
    Ending,
    Gap,
    Budget,
    Boxes,
    Bound,
    Cost,
    Settings,
    Node,
    End,
    After,
}

/// What the lines before the settings say.
///
/// `gap`, `bound` and `cost` are in weighted microseconds, `budget` and `boxes` count boxes. `study` is `None` in the
/// first form of the text.
#[derive(Clone, Copy)]
pub struct CertHead {
    pub study: Option<StudyHead>,
    pub ending: Ending,
    pub gap: u64,
    pub budget: u32,
    pub boxes: u32,
    pub bound: Option<u64>,
    pub cost: Option<u64>,
}

/// What a line is.
#[derive(Clone, Copy)]
pub enum CertItem {
    /// A line before the nodes.
    Head,
    /// A node, whose weights are given beside it.
    Node(NodeLine),
    /// The last line.
    End,
}
