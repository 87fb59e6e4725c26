//! Weighted times that are summed by hand.
use super::studies::two_faults;
use margin_rows::{BuildFault, Instance};

// 2 * 13.5/9 + 3 * 13.5/7 s at pickup 100 A, each time cut to whole nanoseconds, and 2 * 13.5/4 + 3 * 13.5/3 s at 200 A.
#[test]
fn the_terms_of_a_relay_are_summed_by_their_weights(rt: HostRuntime) -> Result<(), BuildFault> {
    let inst = two_faults(rt.alloc())?;
    assert!(rt; sums(&inst) == Some((8_785_714_284, 20_250_000_000)));
    Ok(())
}

/// The sums of relay 0 at its lowest and its highest pickup in the first box.
fn sums(inst: &Instance) -> Option<(u64, u64)> {
    if inst.study().relays.is_empty() {
        return None;
    }
    let (low, high) = inst.first_pickups(0)?;
    Some((inst.term_sum(0, low), inst.term_sum(0, high)))
}
