//! Failures that a folder in memory is to have.
use coord_model::Name;

/// A kind of call on a folder.
#[derive(Clone, Copy, PartialEq, Eq)]
pub enum CallKind {
    ReadAt,
    Start,
    Append,
}

/// The call that is to fail: the `nth` of its kind on the file of that name, counted from 1.
#[derive(Drop)]
pub struct Fail {
    pub call: CallKind,
    pub name: Name,
    pub nth: u32,
}

/// Counts a call in each entry that speaks of it, and says whether it is to fail.
pub fn is_due(fails: &mut [Fail], call: CallKind, name: &str) -> bool {
    let mut due = false;
    for fail in fails.iter_mut() {
        if fail.call == call && fail.name.bytes() == name.as_bytes() {
            due |= counts_out(&mut fail.nth);
        }
    }
    due
}

/// Counts a call, and says whether it is the last of those that `left` counts.
pub fn counts_out(left: &mut u32) -> bool {
    if *left == 0 {
        return false;
    }
    *left -= 1;
    *left == 0
}
