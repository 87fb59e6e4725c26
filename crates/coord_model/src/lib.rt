//! The plain types of Coord, and in `specs/` the meaning of its answers.
//!
//! Plugs are in hundredths of a secondary ampere, dials in thousandths, currents in primary amperes, the
//! coordination interval in milliseconds. Relays, lines, buses and faults are known by their numbers, from 0.
#![tactic(auto)]

mod cert;
mod choice;
mod curve;
mod ends;
mod kinds;
pub mod limits;
mod memory;
mod name;
mod order;
mod study;
mod tree;
mod weights;

pub use cert::{Cert, StudyHead};
pub use choice::{Choice, Ending};
pub use curve::{Curve, CurveForm, CurveName, form};
pub use ends::ends_between;
pub use kinds::{Key, NetKind, TableName, What};
pub use memory::NoMemory;
pub use name::Name;
pub use order::under_is_at_most_over;
pub use study::{
    Current, Currents, Exempt, Fault, Line, Pair, PairInterval, Relay, Row, RowKind, Study, Term,
};
pub use tree::{Node, NodeLine};
pub use weights::{Weight, Weights};
