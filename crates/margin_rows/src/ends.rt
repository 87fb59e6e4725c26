//! The ends of an enclosed operating time, and which of them count.

/// The ends of an operating time at dial 1, in nanoseconds: the time lies between them.
#[derive(Clone, Copy)]
pub struct Ends {
    pub lower: u64,
    pub upper: u64,
}

/// With which ends of the times a row is met: strictly with those against the settings, loosely with those in their favour.
#[derive(Clone, Copy)]
pub enum Meeting {
    Strict,
    Loose,
}
