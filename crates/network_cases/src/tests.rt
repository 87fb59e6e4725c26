//! The meaning of network files: their values, their faults, and that printing them succeeds.
mod faults;
mod limits;
mod prints;

use coord_model::{CurveName, Key, NetKind, Study, TableName, What};
use network_file::{NetFault, read_network};
use std::alloc::AllocError;
use std::process::Abort;
use std::test::Fail;

/// Two lines in a row, a relay at the near end of each, the first with a least and a greatest time, a fault on each
/// line, a pair with an interval of its own, and another that is exempt.
const TIMED: &str = r#"format = 3
study = { cti_ms = 300 }
line = [{ name = "AB", from = "A", to = "B" }, { name = "BC", from = "B", to = "C" }]
fault = [{ name = "F1", line = "BC", weight = 7 }, { name = "F2", line = "AB" }]
exempt = [{ backup = "R2", primary = "R1" }]
interval = [{ backup = "R1", primary = "R2", cti_ms = 225 }]

[[relay]]
name = "R1"
line = "AB"
bus = "A"
curve = "iec-b"
ct_primary = 100
ct_secondary = 1
plug_first = 100
plug_step = 90
plug_count = 2
dial_first = 50
dial_step = 60
dial_count = 20
load_amps = 80
least_ms = 100
most_ms = 900

[[relay]]
name = "R2"
line = "BC"
bus = "B"
curve = "ieee-vi"
ct_primary = 400
ct_secondary = 5
plug_first = 70
dial_first = 80
"#;

/// What makes that study one of format 4, in which the first relay has its curve by its constants.
const WITH_CONSTANTS: [(&str, &str); 2] = [
    ("format = 3", "format = 4"),
    (
        "curve = \"iec-b\"",
        "curve = \"custom\"\ncustom_k = 135000\ncustom_c = 0\ncustom_j = 1\ncustom_h = 1",
    ),
];

/// The text with the first of each part replaced in turn.
fn changed(
    rt: &(impl AllocGlobal + Abort),
    text: &str,
    changes: &[(&str, &str)],
) -> Result<String, AllocError> {
    let mut text = String::from_str(rt.alloc(), text)?;
    for (old, new) in changes {
        let mut made = String::new(rt.alloc());
        let Some((before, after)) = text.split_once(*old) else {
            panic!(rt; "no {old}");
        };
        made.push_str(before)?;
        made.push_str(new)?;
        made.push_str(after)?;
        text = made;
    }
    Ok(text)
}

/// The study of a text.
fn study_of(rt: &(impl AllocGlobal + Abort), text: &str) -> Study {
    let Ok(study) = read_network(rt.alloc(), text.as_bytes()) else {
        panic!(rt; "refused: {text}");
    };
    study
}

/// Asserts that the text is refused for this fault.
fn refuses(rt: &(impl AllocGlobal + Abort), text: &str, fault: NetFault) {
    match read_network(rt.alloc(), text.as_bytes()) {
        Ok(_) => panic!(rt; "accepted: {text}"),
        Err(found) => assert_eq!(rt; found, fault, "{text}"),
    }
}

#[test]
fn reads_each_key(rt: HostRuntime) -> Result<(), Fail> {
    let study = study_of(&rt, TIMED);
    assert_eq!(rt; (study.format, study.cti_ms), (3, 300));
    assert_eq!(rt;
        (study.sense, study.cap, study.load_percent),
        (110, 20, 120)
    );
    let (Some(first), Some(relay)) = (study.relays.first(), study.relays.get(1)) else {
        panic!(rt; "there are two relays");
    };
    assert_eq!(rt;
        (first.line, first.bus, first.curve),
        (0, 0, CurveName::IecB)
    );
    assert_eq!(rt;
        (first.ct_primary, first.ct_secondary, first.load_amps),
        (100, 1, 80)
    );
    assert_eq!(rt;
        (first.plug_first, first.plug_step, first.plug_count),
        (100, 90, 2)
    );
    assert_eq!(rt;
        (first.dial_first, first.dial_step, first.dial_count),
        (50, 60, 20)
    );
    assert_eq!(rt; (first.least_ms, first.most_ms), (100, 900));
    assert_eq!(rt;
        (relay.line, relay.bus, relay.curve),
        (1, 1, CurveName::IeeeVi)
    );
    assert_eq!(rt;
        (relay.ct_primary, relay.ct_secondary, relay.load_amps),
        (400, 5, 0)
    );
    assert_eq!(rt;
        (relay.plug_first, relay.plug_step, relay.plug_count),
        (70, 1, 1)
    );
    assert_eq!(rt;
        (relay.dial_first, relay.dial_step, relay.dial_count),
        (80, 1, 1)
    );
    assert_eq!(rt; (relay.least_ms, relay.most_ms), (0, 0));
    let (Some(fault), Some(light)) = (study.faults.first(), study.faults.get(1)) else {
        panic!(rt; "there are two faults");
    };
    assert_eq!(rt; (fault.line, fault.weight), (1, 7));
    assert_eq!(rt; (light.line, light.weight), (0, 1));
    let (Some(pair), Some(own)) = (study.exempt.first(), study.intervals.first()) else {
        panic!(rt; "there are an exempt pair and an interval");
    };
    assert_eq!(rt; (pair.backup, pair.primary), (1, 0));
    assert_eq!(rt; (own.backup, own.primary, own.cti_ms), (0, 1, 225));
    let (Some(line), Some(bus)) = (study.lines.get(1), study.buses.get(2)) else {
        panic!(rt; "there are two lines and three buses");
    };
    assert_eq!(rt; (line.from, line.to), (1, 2));
    assert_eq!(rt; line.name.bytes(), b"BC".as_slice());
    assert_eq!(rt; bus.bytes(), b"C".as_slice());
    Ok(())
}

#[test]
fn refuses_what_is_no_document(rt: HostRuntime) -> Result<(), Fail> {
    refuses(&rt, "format = 1\nstudy = {", NetFault::NotToml);
    match read_network(rt.alloc(), &[102, 255, 34]) {
        Ok(_) => panic!(rt; "no UTF-8 was accepted"),
        Err(found) => assert_eq!(rt; found, NetFault::NotText),
    }
    Ok(())
}

#[test]
fn a_curve_is_read_by_its_constants(rt: HostRuntime) -> Result<(), Fail> {
    let text = changed(&rt, TIMED, &WITH_CONSTANTS)?;
    let slowest = changed(&rt, &text, &[("custom_k = 135000", "custom_k = 549755")])?;
    let rooted = [
        ("custom_c = 0", "custom_c = 12"),
        ("custom_j = 1", "custom_j = 3"),
        ("custom_h = 1", "custom_h = 2"),
    ];
    let rooted = changed(&rt, &text, &rooted)?;
    let cases = [
        (&text, (135_000, 0, 1, 1)),
        (&slowest, (549_755, 0, 1, 1)),
        (&rooted, (135_000, 12, 3, 2)),
    ];
    for (text, (k4, c4, e, h)) in &cases {
        let study = study_of(&rt, text);
        let curve = study.relays.first().map(|relay| relay.curve);
        let expected = CurveName::Custom {
            k4: *k4,
            c4: *c4,
            e: *e,
            h: *h,
        };
        assert_eq!(rt; curve, Some(expected), "{text}");
    }
    Ok(())
}
