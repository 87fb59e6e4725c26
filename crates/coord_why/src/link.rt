//! The links of a chain.

/// Why a relay's dial can't lie below the step of a link. A row is given by its number.
#[derive(Clone, Copy, PartialEq, Eq)]
pub enum Reason {
    /// It is the relay's first step.
    Floor,
    /// A least time asks for it.
    Least { row: u16 },
    /// A coordination interval asks for it, with the primary at the step of the link before.
    Row { row: u16 },
}

/// A relay, the dial step that it has at least, and why.
#[derive(Clone, Copy, PartialEq, Eq)]
pub struct Link {
    pub relay: u16,
    pub step: u16,
    pub reason: Reason,
}
