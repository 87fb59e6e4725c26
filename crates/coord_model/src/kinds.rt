//! The words in which the faults of a network file and the limits are named.

/// What is wrong at a place of the network file.
#[derive(Clone, Copy, PartialEq, Eq, Debug)]
pub enum NetKind {
    Missing,
    WrongKind,
    OutOfRange,
    UnknownKey,
    UnknownCurve,
    UnknownName,
    DoubleName,
    LoopLine,
    NotAtLine,
    TwoRelaysAtEnd,
}

/// A table of the network file.
#[derive(Clone, Copy, PartialEq, Eq, Debug)]
pub enum TableName {
    Top,
    Study,
    Line,
    Relay,
    Fault,
    Exempt,
    Interval,
}

/// A key of the network file. Keys of one spelling in several tables are one.
#[derive(Clone, Copy, PartialEq, Eq, Debug)]
pub enum Key {
    Format,
    Study,
    Line,
    Relay,
    Fault,
    Exempt,
    Interval,
    CtiMs,
    Sense,
    Cap,
    LoadPercent,
    Name,
    From,
    To,
    Bus,
    Curve,
    CtPrimary,
    CtSecondary,
    PlugFirst,
    PlugStep,
    PlugCount,
    DialFirst,
    DialStep,
    DialCount,
    LoadAmps,
    LeastMs,
    MostMs,
    CustomK,
    CustomC,
    CustomJ,
    CustomH,
    Weight,
    Backup,
    Primary,
}

/// A quantity that has a limit.
#[derive(Clone, Copy, PartialEq, Eq, Debug)]
pub enum What {
    Lines,
    Relays,
    Faults,
    Exempt,
    Intervals,
    Buses,
    PickupSteps,
    Currents,
    Rows,
}
