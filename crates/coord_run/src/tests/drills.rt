use super::*;

/// The least cost of the ring of three buses, found by another method.
const LEAST: u64 = 14_394_373;

#[test]
fn a_ring_of_three_closes_at_its_least_cost(rt: HostRuntime) -> Result<(), test::Fail> {
    let mut folder = folder_of(&rt, &[], None)?;
    let (status, out) = called(&rt, &["drill", "3"], &mut folder)?;
    assert_eq!(rt; status, 0);
    let text = str::from_utf8(out.bytes()).expect(&rt, "a text");
    let report = text
        .strip_prefix("drill 3 relays 6 rows 12\nclosed cost ")
        .expect(&rt, "a closed ring");
    let (cost, _) = report.split_once(' ').expect(&rt, "a cost");
    let cost = cost.parse::<u64>().expect(&rt, "a number");
    assert!(rt; LEAST <= cost && cost <= LEAST + 10_000, "{cost}");
    Ok(())
}

#[test]
fn a_ring_of_twelve_ends_the_same_twice(rt: HostRuntime) -> Result<(), test::Fail> {
    let mut folder = folder_of(&rt, &[], None)?;
    let (status, out) = called(&rt, &["drill", "12"], &mut folder)?;
    let (again, same) = called(&rt, &["drill", "12"], &mut folder)?;
    assert!(rt; status == 0 || status == 4);
    assert_eq!(rt; again, status);
    assert!(rt; out.bytes().starts_with(b"drill 12 relays 24 rows 48\n"));
    assert!(rt; same.bytes() == out.bytes());
    Ok(())
}
