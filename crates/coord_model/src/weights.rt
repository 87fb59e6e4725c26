//! What a dual value weighs: the cost and some rows.

/// The whole weight of a row's margin.
#[derive(Clone, Copy, PartialEq, Eq, Debug)]
pub struct Weight {
    pub row: u16,
    pub weight: u32,
}

/// The weights of a dual value: `lambda` for the cost, and those of the rows that have one.
#[derive(Drop)]
pub struct Weights {
    pub lambda: u32,
    pub rows: Vec<Weight>,
}
