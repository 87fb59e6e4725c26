//! How many elements an array may have, and a network.
use super::*;

/// The start of each array, the most elements that it may have, and its elements' table.
const LIMITS: [(&str, u32, What, TableName); 4] = [
    ("line = [", 64, What::Lines, TableName::Line),
    ("fault = [", 256, What::Faults, TableName::Fault),
    ("exempt = [", 1_024, What::Exempt, TableName::Exempt),
    ("interval = [", 1_024, What::Intervals, TableName::Interval),
];

/// The network with so many numbers in place of the elements of an array.
fn numbers(rt: &(impl AllocGlobal + Abort), start: &str, count: u32) -> Result<String, AllocError> {
    let mut array = String::from_str(rt.alloc(), start)?;
    for _ in 0..count {
        array.push_str("1, ")?;
    }
    array.push_str("] # ")?;
    changed(rt, TIMED, &[(start, &array)])
}

#[test]
fn elements_are_counted(rt: HostRuntime) -> Result<(), Fail> {
    for (start, limit, what, table) in &LIMITS {
        let many = NetFault::TooMany {
            what: *what,
            limit: *limit,
        };
        let text = numbers(&rt, start, *limit + 1)?;
        refuses(&rt, &text, many);
        let wrong = NetFault::At {
            kind: NetKind::WrongKind,
            table: *table,
            index: 1,
            key: None,
        };
        let text = numbers(&rt, start, *limit)?;
        refuses(&rt, &text, wrong);
    }
    Ok(())
}

/// A network with so many lines, each between two buses of its own, and a relay with so many pickup steps at
/// each end.
fn apart(rt: &impl AllocGlobal, lines: u32, steps: u32) -> Result<String, AllocError> {
    let mut text = String::from_str(rt.alloc(), "format = 1\n[study]\ncti_ms = 300\n")?;
    for n in 0..lines {
        let tables = format!(in rt.alloc();
            "[[line]]\nname = \"L{n}\"\nfrom = \"A{n}\"\nto = \"B{n}\"\n[[relay]]\nname = \"A{n}\"\nline = \"L{n}\"\nbus = \"A{n}\"\n{SET}{steps}\n[[relay]]\nname = \"B{n}\"\nline = \"L{n}\"\nbus = \"B{n}\"\n{SET}{steps}\n"
        )?;
        text.push_str(&tables)?;
    }
    Ok(text)
}

/// What is set at each relay of the network.
const SET: &str = r#"curve = "ieee-ei"
ct_primary = 400
ct_secondary = 5
plug_first = 100
dial_first = 50
plug_count = "#;

/// How many lines and pickup steps are too many, and of what.
const TOO_MANY: [(u32, u32, What, u32); 3] = [
    (33, 1, What::Buses, 64),
    (49, 1, What::Relays, 96),
    (32, 49, What::PickupSteps, 3_072),
];

#[test]
fn parts_are_counted(rt: HostRuntime) -> Result<(), Fail> {
    for (lines, steps, what, limit) in &TOO_MANY {
        let text = apart(&rt, *lines, *steps)?;
        let many = NetFault::TooMany {
            what: *what,
            limit: *limit,
        };
        refuses(&rt, &text, many);
    }
    let text = apart(&rt, 32, 48)?;
    let study = study_of(&rt, &text);
    assert_eq!(rt; study.relays.len(), 64);
    Ok(())
}
