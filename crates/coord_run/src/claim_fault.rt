//! What can be wrong with the claim of a certificate, told by names.
use coord_model::{Ending, Name, RowKind, StudyHead};

/// What is wrong with a claim: what is printed, and what was found.
///
/// Costs, bounds and gaps are in weighted microseconds.
#[derive(Clone, Copy)]
pub enum ClaimFault {
    /// Another study; or none is printed, and the format of the network file is above 2.
    Study {
        printed: Option<StudyHead>,
        found: StudyHead,
    },
    /// The settings are for another number of relays.
    Relays {
        printed: u64,
        found: u64,
    },
    /// The pickup of the relay of this name isn't in the first box, or it doesn't have the dial step.
    Step(Name),
    /// The settings don't strictly meet this row.
    Row {
        kind: RowKind,
        fault: Name,
        backup: Name,
        primary: Name,
    },
    /// The settings cost something else.
    Cost {
        printed: u64,
        found: u64,
    },
    /// The tree has another number of boxes.
    Boxes {
        printed: u64,
        found: u64,
    },
    /// The tree gives another bound, or none.
    Bound {
        printed: Option<u64>,
        found: Option<u64>,
    },
    /// The gap is below the least gap.
    Gap {
        printed: u64,
        least: u64,
    },
    /// Another ending is true, or none.
    EndingIs {
        printed: Ending,
        found: Option<Ending>,
    },
}
