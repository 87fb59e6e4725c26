//! What can be wrong with the claim of a certificate.
use coord_model::{Ending, StudyHead};

/// What is wrong with a claim, in the order in which it is tried: what is printed, and what was found.
///
/// Costs, bounds and gaps are in weighted microseconds.
#[derive(Clone, Copy, PartialEq, Eq, Debug)]
pub enum ClaimKind {
    /// Another study; or none is printed, and the format of the network file is above 2.
    Study {
        printed: Option<StudyHead>,
        found: StudyHead,
    },
    /// The settings are for another number of relays.
    Relays {
        printed: u64,
        found: u64,
    },
    /// The first relay whose pickup isn't in the first box, or whose dial step it doesn't have.
    Step {
        relay: u16,
    },
    /// The first row that the settings don't strictly meet.
    Row {
        row: u16,
    },
    /// The settings cost something else.
    Cost {
        printed: u64,
        found: u64,
    },
    /// The tree has another number of boxes.
    Boxes {
        printed: u64,
        found: u64,
    },
    /// The tree gives another bound, or none.
    Bound {
        printed: Option<u64>,
        found: Option<u64>,
    },
    /// The gap is below the least gap.
    Gap {
        printed: u64,
        least: u64,
    },
    /// Another ending is true, or none.
    EndingIs {
        printed: Ending,
        found: Option<Ending>,
    },
}
