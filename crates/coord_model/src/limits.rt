//! The limits of what Coord reads, keeps and writes, which the crates above cite. The clauses of their calls and `specs/` have the figures.

/// The last format of a network file. They count from 1.
pub const LAST_FORMAT: u32 = 4;
/// The greatest coordination interval, in milliseconds.
pub const GREATEST_INTERVAL: u32 = 10_000;
/// The least sensing factor, in hundredths.
pub const LEAST_SENSE: u32 = 105;
/// The greatest sensing factor, in hundredths.
pub const GREATEST_SENSE: u32 = 500;
/// The least cap on the multiple of pickup.
pub const LEAST_CAP: u32 = 5;
/// The greatest cap on the multiple of pickup.
pub const GREATEST_CAP: u32 = 30;
/// The least pickup that the load rule asks for, in hundredths of the load.
pub const LEAST_LOAD_PERCENT: u32 = 100;
/// The greatest pickup that the load rule asks for, in hundredths of the load.
pub const GREATEST_LOAD_PERCENT: u32 = 300;

/// The most bytes of a name.
pub const LONGEST_NAME: usize = 16;
/// The most buses of a study.
pub const MOST_BUSES: u32 = 64;
/// The most lines of a study.
pub const MOST_LINES: u32 = 64;
/// The most relays of a study.
pub const MOST_RELAYS: u32 = 96;
/// The most faults of a study.
pub const MOST_FAULTS: u32 = 256;
/// The most exempt pairs of a study.
pub const MOST_EXEMPT: u32 = 1_024;
/// The most intervals of pairs of a study.
pub const MOST_INTERVALS: u32 = 1_024;
/// The most pickup steps of all relays together.
pub const MOST_PICKUP_STEPS: u32 = 3_072;
/// The most currents of a study.
pub const MOST_CURRENTS: u32 = 8_192;
/// The most rows of a study.
pub const MOST_ROWS: u32 = 4_096;

/// The greatest rated primary current of a current transformer, in amperes.
pub const GREATEST_CT_PRIMARY: u32 = 10_000;
/// The greatest plug, and the greatest step between plugs, in hundredths of a secondary ampere.
pub const GREATEST_PLUG: u32 = 10_000;
/// The most pickup steps of a relay.
pub const MOST_PLUGS: u32 = 64;
/// The greatest dial, and the greatest step between dials, in thousandths.
pub const GREATEST_DIAL: u32 = 15_000;
/// The most dial steps of a relay.
pub const MOST_DIALS: u32 = 4_000;
/// The greatest current, in primary amperes.
pub const GREATEST_AMPS: u32 = 100_000;
/// The longest operating time that may be asked for as the least, in milliseconds.
pub const GREATEST_LEAST_MS: u32 = 100_000;
/// The longest operating time that may be asked for as the greatest, in milliseconds.
pub const GREATEST_MOST_MS: u32 = 20_000_000;
/// The greatest weight of a fault.
pub const GREATEST_FAULT_WEIGHT: u32 = 1_000;

/// The greatest k of a custom curve, in ten-thousandths of a second.
pub const GREATEST_CUSTOM_K: u32 = 10_000_000;
/// The greatest c of a custom curve, in ten-thousandths of a second.
pub const GREATEST_CUSTOM_C: u32 = 1_000_000;
/// The greatest j of a custom curve, whose exponent is j/h.
pub const GREATEST_CUSTOM_J: u32 = 4;
/// The greatest h of a custom curve, whose exponent is j/h.
pub const GREATEST_CUSTOM_H: u32 = 100;

/// The most splits on a path of a tree.
pub const MOST_SPLITS: u16 = 3_072;
/// The most nodes of a tree.
pub const MOST_NODES: u32 = 400_001;
/// The most weights of a leaf.
pub const MOST_WEIGHTS: usize = 64;
/// The greatest gap, in weighted microseconds.
pub const GREATEST_GAP: u64 = 1_000_000_000_000;
/// The greatest budget, in boxes.
pub const GREATEST_BUDGET: u32 = 200_000;
/// The greatest cost, and the greatest bound, in weighted microseconds, that a sheet or a certificate has.
pub const GREATEST_COST: u64 = 9_999_999_999_999_999;

/// The fewest buses of a ring of the drill.
pub const FEWEST_RING_BUSES: u32 = 3;
/// The most buses of a ring of the drill.
pub const MOST_RING_BUSES: u32 = 48;

/// The most bytes of a network, a currents table or a sheet.
pub const MOST_FILE_BYTES: u64 = 4_194_304;
/// The most bytes of a certificate.
pub const MOST_CERT_BYTES: u64 = 536_870_912;
/// The most bytes of a line of a sheet or a certificate, without its line feed.
pub const MOST_LINE_BYTES: usize = 2_048;
