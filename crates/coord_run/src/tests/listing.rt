use super::*;

/// Two parallel lines from A to B with a relay at each end, and a line from B to C with one at B.
const PARALLEL: &str = r#"format = 1
[study]
cti_ms = 300
[[line]]
name = "AB1"
from = "A"
to = "B"
[[line]]
name = "AB2"
from = "A"
to = "B"
[[line]]
name = "BC"
from = "B"
to = "C"
"#;

const RELAYS: [(&str, &str, &str); 5] = [
    ("P1", "AB1", "A"),
    ("Q1", "AB1", "B"),
    ("P2", "AB2", "A"),
    ("Q2", "AB2", "B"),
    ("S", "BC", "B"),
];

/// The network of the parallel lines, and what follows it.
fn parallel(rt: &(impl AllocGlobal + Abort), more: &str) -> Result<String, AllocError> {
    let mut text = String::from_str(rt.alloc(), PARALLEL)?;
    for (name, line, bus) in &RELAYS {
        text.push_str("[[relay]]\nname = \"")?;
        text.push_str(name)?;
        text.push_str("\"\nline = \"")?;
        text.push_str(line)?;
        text.push_str("\"\nbus = \"")?;
        text.push_str(bus)?;
        text.push_str(
            "\"\ncurve = \"iec-b\"\nct_primary = 100\nct_secondary = 1\nplug_first = 100\ndial_first = 50\n",
        )?;
    }
    text.push_str(more)?;
    Ok(text)
}

#[test]
fn pairs_are_listed_by_primary(rt: HostRuntime) -> Result<(), test::Fail> {
    for (more, text) in &LISTS {
        let network = parallel(&rt, more)?;
        answers(
            &rt,
            &["pairs", "n"],
            &[("n", network.as_str())],
            None,
            0,
            text,
            &[],
        )?;
    }
    Ok(())
}

/// What follows the network, and its pairs.
const LISTS: [(&str, &str); 2] = [
    (
        "",
        "primary P1 backup Q2
primary Q1 backup P2
primary P2 backup Q1
primary Q2 backup P1
primary S backup P1
primary S backup P2
pairs 6
",
    ),
    (
        "[[exempt]]\nbackup = \"P1\"\nprimary = \"S\"\n",
        "primary P1 backup Q2
primary Q1 backup P2
primary P2 backup Q1
primary Q2 backup P1
primary S backup P2
pairs 5
",
    ),
];
