//! A node at its place in the table.
use crate::leaf::Leaf;

/// A node, whose number is its place. The high half of a split stands after its low half.
#[derive(Drop)]
pub enum Slot<T> {
    Split { relay: u16, at: u16, low: u32 },
    Closed(Leaf),
    Open { bound: u64, value: T },
}
