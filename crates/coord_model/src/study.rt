//! What is coordinated: the network with its relays and faults, and the fault currents.
use crate::curve::CurveName;
use crate::name::Name;

/// A line between two buses, given by their numbers.
#[derive(Clone, Copy)]
pub struct Line {
    pub name: Name,
    pub from: u16,
    pub to: u16,
}

/// A directional overcurrent relay, which stands at one end of a line and looks into it.
///
/// Pickup step `s` has the plug `plug_first + s * plug_step`, in hundredths of a secondary ampere. Dial step
/// `d` has the dial `dial_first + d * dial_step`, in thousandths. The load is in primary amperes, 0 for none.
/// `least_ms` and `most_ms` bound the operating time at each primary fault, in milliseconds, 0 for no limit.
#[derive(Clone, Copy)]
pub struct Relay {
    pub name: Name,
    pub line: u16,
    pub bus: u16,
    pub curve: CurveName,
    pub ct_primary: u32,
    pub ct_secondary: u32,
    pub plug_first: u32,
    pub plug_step: u32,
    pub plug_count: u32,
    pub dial_first: u32,
    pub dial_step: u32,
    pub dial_count: u32,
    pub load_amps: u32,
    pub least_ms: u32,
    pub most_ms: u32,
}

/// A fault on a line, with the weight that its primary operating times have in the cost.
#[derive(Clone, Copy)]
pub struct Fault {
    pub name: Name,
    pub line: u16,
    pub weight: u32,
}

/// A pair of relays, by number, that needs no coordination.
#[derive(Clone, Copy)]
pub struct Exempt {
    pub backup: u16,
    pub primary: u16,
}

/// A coordination interval of a pair's own, in milliseconds. The relays are given by their numbers.
#[derive(Clone, Copy)]
pub struct PairInterval {
    pub backup: u16,
    pub primary: u16,
    pub cti_ms: u32,
}

/// A coordination study: the network, its relays and its faults.
///
/// `format` is that of its file, which only printing asks for. `cti_ms` is the coordination interval in
/// milliseconds of each pair that is not among the `intervals`. `sense` is the least multiple of pickup at which a
/// relay has to sense a current, in hundredths, and `cap` the multiple past which its time falls no further.
/// `load_percent` is the least pickup, in percent of the load. Buses are numbered by their first mention in
/// the lines, `from` before `to`.
#[derive(Drop)]
pub struct Study {
    pub format: u32,
    pub cti_ms: u32,
    pub sense: u32,
    pub cap: u32,
    pub load_percent: u32,
    pub buses: Vec<Name>,
    pub lines: Vec<Line>,
    pub relays: Vec<Relay>,
    pub faults: Vec<Fault>,
    pub exempt: Vec<Exempt>,
    pub intervals: Vec<PairInterval>,
}

/// The current that a relay carries at a fault in its tripping direction, in primary amperes; 0 for none.
#[derive(Clone, Copy, PartialEq, Eq, Debug)]
pub struct Current {
    pub fault: u16,
    pub relay: u16,
    pub amps: u32,
}

/// The currents of a study in the order of their file, zeros kept.
#[derive(Drop)]
pub struct Currents {
    pub entries: Vec<Current>,
}

/// A backup relay and the primary relay that it backs.
#[derive(Clone, Copy, PartialEq, Eq, Debug)]
pub struct Pair {
    pub backup: u16,
    pub primary: u16,
}

/// What a row asks for.
#[derive(Clone, Copy, PartialEq, Eq, Debug)]
pub enum RowKind {
    /// The backup waits the coordination interval longer than the primary.
    Interval,
    /// The primary takes at least its least time.
    Least,
    /// The primary takes at most its greatest time.
    Most,
}

/// What is asked of operating times at a fault. In a least and in a most row the backup is the primary.
#[derive(Clone, Copy, PartialEq, Eq, Debug)]
pub struct Row {
    pub kind: RowKind,
    pub fault: u16,
    pub backup: u16,
    pub primary: u16,
}

/// A fault and a primary relay whose operating time counts in the cost.
#[derive(Clone, Copy, PartialEq, Eq, Debug)]
pub struct Term {
    pub fault: u16,
    pub relay: u16,
}
