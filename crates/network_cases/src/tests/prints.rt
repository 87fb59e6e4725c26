//! Printing succeeds for studies of each format and size, and prints what it reads again.
use super::*;
use network_file::print_network;

/// Two lines in a row, a relay at the near end of each, and a fault on each.
const ROW: &str = r#"format = 1
study = { cti_ms = 300 }
line = [{ name = "AB", from = "A", to = "B" }, { name = "BC", from = "B", to = "C" }]
fault = [{ name = "F1", line = "BC" }, { name = "F2", line = "AB" }]

[[relay]]
name = "R1"
line = "AB"
bus = "A"
curve = "iec-b"
ct_primary = 100
ct_secondary = 1
plug_first = 100
plug_step = 100
plug_count = 1
dial_first = 50
dial_step = 50
dial_count = 20

[[relay]]
name = "R2"
line = "BC"
bus = "B"
curve = "iec-b"
ct_primary = 100
ct_secondary = 1
plug_first = 100
plug_step = 100
plug_count = 1
dial_first = 50
dial_step = 50
dial_count = 20
"#;

/// One relay with a single dial on one line, and a fault there.
const ALONE: &str = r#"format = 1
study = { cti_ms = 300 }
line = [{ name = "AB", from = "A", to = "B" }]
fault = [{ name = "F1", line = "AB" }]

[[relay]]
name = "R1"
line = "AB"
bus = "A"
curve = "iec-b"
ct_primary = 100
ct_secondary = 1
plug_first = 100
plug_step = 1
plug_count = 2
dial_first = 50
dial_step = 50
dial_count = 1
load_amps = 0
"#;

/// What is changed in these texts to make other studies of few relays.
const CHANGES: [(&str, &[(&str, &str)]); 10] = [
    (ROW, &[]),
    (ROW, &[("dial_count = 20", "dial_count = 4")]),
    (
        ROW,
        &[
            ("300", "270"),
            (", { name = \"F2\", line = \"AB\" }", ""),
            (
                "50\ndial_step = 50\ndial_count = 20",
                "140\ndial_step = 140\ndial_count = 2",
            ),
            (
                "50\ndial_step = 50\ndial_count = 20",
                "140\ndial_step = 140\ndial_count = 2",
            ),
        ],
    ),
    (
        ROW,
        &[
            ("300", "270"),
            (
                "50\ndial_step = 50\ndial_count = 20",
                "140\ndial_step = 140\ndial_count = 3",
            ),
            (
                "50\ndial_step = 50\ndial_count = 20",
                "140\ndial_step = 140\ndial_count = 2",
            ),
        ],
    ),
    (ROW, &[("plug_count = 1", "plug_count = 2")]),
    (ALONE, &[]),
    (ALONE, &[("plug_step = 1", "plug_step = 100")]),
    (
        ALONE,
        &[
            ("plug_step = 1", "plug_step = 100"),
            ("load_amps = 0", "load_amps = 500"),
        ],
    ),
    (
        ROW,
        &[
            ("format = 1", "format = 2"),
            ("curve", "most_ms = 150\nleast_ms = 100\ncurve"),
        ],
    ),
    (TIMED, &[]),
];

/// Three lines in a triangle, with a relay at both ends of each.
const TRIANGLE: &str = r#"format = 1
study = { cti_ms = 300 }
line = [
    { name = "AB", from = "A", to = "B" },
    { name = "BC", from = "B", to = "C" },
    { name = "CA", from = "C", to = "A" },
]
relay = [
    { name = "R1", line = "AB", bus = "A", curve = "iec-a", ct_primary = 400, ct_secondary = 1, plug_first = 50, plug_step = 25, plug_count = 3, dial_first = 50, dial_step = 10, dial_count = 96, load_amps = 150 },
    { name = "R2", line = "AB", bus = "B", curve = "iec-a", ct_primary = 400, ct_secondary = 1, plug_first = 50, plug_step = 25, plug_count = 3, dial_first = 50, dial_step = 10, dial_count = 96, load_amps = 150 },
    { name = "R3", line = "BC", bus = "B", curve = "iec-a", ct_primary = 400, ct_secondary = 1, plug_first = 50, plug_step = 25, plug_count = 3, dial_first = 50, dial_step = 10, dial_count = 96, load_amps = 150 },
    { name = "R4", line = "BC", bus = "C", curve = "iec-a", ct_primary = 400, ct_secondary = 1, plug_first = 50, plug_step = 25, plug_count = 3, dial_first = 50, dial_step = 10, dial_count = 96, load_amps = 150 },
    { name = "R5", line = "CA", bus = "C", curve = "iec-a", ct_primary = 400, ct_secondary = 1, plug_first = 50, plug_step = 25, plug_count = 3, dial_first = 50, dial_step = 10, dial_count = 96, load_amps = 150 },
    { name = "R6", line = "CA", bus = "A", curve = "iec-a", ct_primary = 400, ct_secondary = 1, plug_first = 50, plug_step = 25, plug_count = 3, dial_first = 50, dial_step = 10, dial_count = 96, load_amps = 150 },
]
fault = [{ name = "M1", line = "AB" }, { name = "M2", line = "BC" }, { name = "M3", line = "CA" }]
"#;

/// Two parallel lines and one after them, without faults.
const PARALLEL_LINES: &str = r#"format = 1
study = { cti_ms = 300 }
line = [
    { name = "AB1", from = "A", to = "B" },
    { name = "AB2", from = "A", to = "B" },
    { name = "BC", from = "B", to = "C" },
]
relay = [
    { name = "P1", line = "AB1", bus = "A", curve = "iec-b", ct_primary = 100, ct_secondary = 1, plug_first = 100, plug_step = 100, dial_first = 50, dial_step = 50, dial_count = 20 },
    { name = "Q1", line = "AB1", bus = "B", curve = "iec-b", ct_primary = 100, ct_secondary = 1, plug_first = 100, plug_step = 100, dial_first = 50, dial_step = 50, dial_count = 20 },
    { name = "P2", line = "AB2", bus = "A", curve = "iec-b", ct_primary = 100, ct_secondary = 1, plug_first = 100, plug_step = 100, dial_first = 50, dial_step = 50, dial_count = 20 },
    { name = "Q2", line = "AB2", bus = "B", curve = "iec-b", ct_primary = 100, ct_secondary = 1, plug_first = 100, plug_step = 100, dial_first = 50, dial_step = 50, dial_count = 20 },
    { name = "S", line = "BC", bus = "B", curve = "iec-b", ct_primary = 100, ct_secondary = 1, plug_first = 100, plug_step = 100, dial_first = 50, dial_step = 50, dial_count = 20 },
]
"#;

/// Two parallel lines, a relay at the front of one and at the far end of the other, and a fault on each.
const CROSSED: &str = r#"format = 1
study = { cti_ms = 324 }
line = [{ name = "L1", from = "A", to = "B" }, { name = "L2", from = "A", to = "B" }]
relay = [
    { name = "X", line = "L1", bus = "A", curve = "iec-b", ct_primary = 100, ct_secondary = 1, plug_first = 100, plug_step = 100, plug_count = 2, dial_first = 2, dial_step = 2, dial_count = 100, load_amps = 0 },
    { name = "Y", line = "L2", bus = "B", curve = "iec-b", ct_primary = 100, ct_secondary = 1, plug_first = 100, plug_step = 100, plug_count = 2, dial_first = 2, dial_step = 2, dial_count = 100, load_amps = 0 },
]
fault = [{ name = "F1", line = "L1" }, { name = "F2", line = "L2" }]
"#;

/// Eight pairs of parallel lines like that.
fn eight_pairs(rt: &impl AllocGlobal) -> Result<String, AllocError> {
    let mut text = String::from_str(rt.alloc(), "format = 1\n[study]\ncti_ms = 324\n")?;
    for n in 1..9 {
        let tables = format!(in rt.alloc();
            "[[line]]\nname = \"L{n}\"\nfrom = \"A{n}\"\nto = \"B{n}\"\n[[line]]\nname = \"M{n}\"\nfrom = \"A{n}\"\nto = \"B{n}\"\n[[relay]]\nname = \"X{n}\"\nline = \"L{n}\"\nbus = \"A{n}\"\n{FINE_DIALS}[[relay]]\nname = \"Y{n}\"\nline = \"M{n}\"\nbus = \"B{n}\"\n{FINE_DIALS}[[fault]]\nname = \"F{n}\"\nline = \"L{n}\"\n[[fault]]\nname = \"G{n}\"\nline = \"M{n}\"\n"
        )?;
        text.push_str(&tables)?;
    }
    Ok(text)
}

/// What is set at each relay of the pairs.
const FINE_DIALS: &str = r#"curve = "iec-b"
ct_primary = 100
ct_secondary = 1
plug_first = 100
plug_step = 100
plug_count = 2
dial_first = 2
dial_step = 2
dial_count = 100
"#;

/// A star of 48 lines from one bus, with a relay at both ends of each, and 88 heavy faults.
fn star(rt: &impl AllocGlobal) -> Result<String, AllocError> {
    let mut text = String::from_str(rt.alloc(), "format = 1\n[study]\ncti_ms = 300\n")?;
    for n in 1..49 {
        let tables = format!(in rt.alloc();
            "[[line]]\nname = \"K{n}\"\nfrom = \"H\"\nto = \"E{n}\"\n[[relay]]\nname = \"H{n}\"\nline = \"K{n}\"\nbus = \"H\"\n{ONE_DIAL}[[relay]]\nname = \"W{n}\"\nline = \"K{n}\"\nbus = \"E{n}\"\n{ONE_DIAL}"
        )?;
        text.push_str(&tables)?;
    }
    heavy_faults(rt, &mut text)?;
    Ok(text)
}

/// What is set at each relay of the star.
const ONE_DIAL: &str = r#"curve = "iec-c"
ct_primary = 100
ct_secondary = 1
plug_first = 100
dial_first = 15000
"#;

fn heavy_faults(rt: &impl AllocGlobal, text: &mut String) -> Result<(), AllocError> {
    for fault in 0..88 {
        let table = format!(in rt.alloc();
            "[[fault]]\nname = \"Z{}\"\nline = \"K{}\"\nweight = 1000\n",
            fault + 1,
            fault % 48 + 1
        )?;
        text.push_str(&table)?;
    }
    Ok(())
}

/// What is printed of a text's study.
fn printed(rt: &(impl AllocGlobal + Abort), text: &[u8]) -> Vec<u8> {
    let Ok(study) = read_network(rt.alloc(), text) else {
        panic!(rt; "the text is refused");
    };
    let Ok(printed) = print_network(rt.alloc(), &study) else {
        panic!(rt; "memory ran out");
    };
    printed
}

/// Asserts that what is printed of the text's study is printed again of what it reads as.
fn prints_again(rt: &(impl AllocGlobal + Abort), text: &str) {
    let first = printed(rt, text.as_bytes());
    let second = printed(rt, &first);
    assert_eq!(rt; second.as_slice(), first.as_slice(), "{text}");
}

#[test]
fn reads_what_it_prints(rt: HostRuntime) -> Result<(), Fail> {
    for (text, changes) in &CHANGES {
        let text = changed(&rt, text, changes)?;
        prints_again(&rt, &text);
    }
    let custom = changed(&rt, TIMED, &WITH_CONSTANTS)?;
    prints_again(&rt, &custom);
    let rooted = changed(&rt, &custom, &[("custom_h = 1", "custom_h = 2")])?;
    prints_again(&rt, &rooted);
    prints_again(&rt, TRIANGLE);
    prints_again(&rt, PARALLEL_LINES);
    prints_again(&rt, CROSSED);
    let pairs = eight_pairs(&rt)?;
    prints_again(&rt, &pairs);
    let star = star(&rt)?;
    prints_again(&rt, &star);
    Ok(())
}
