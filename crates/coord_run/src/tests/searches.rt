use super::endings::ALONE;
use super::*;
use crate::solve::solve_with;
use lp_advice::{Adviser, NullAdviser};

/// Two parallel lines with a relay at one end of each, which back each other.
const PARALLEL: &str = r#"format = 1
[study]
cti_ms = 324
[[line]]
name = "L1"
from = "A"
to = "B"
[[line]]
name = "L2"
from = "A"
to = "B"
[[relay]]
name = "X"
line = "L1"
bus = "A"
curve = "iec-b"
ct_primary = 100
ct_secondary = 1
plug_first = 100
plug_step = 100
plug_count = 2
dial_first = 2
dial_step = 2
dial_count = 100
[[relay]]
name = "Y"
line = "L2"
bus = "B"
curve = "iec-b"
ct_primary = 100
ct_secondary = 1
plug_first = 100
plug_step = 100
plug_count = 2
dial_first = 2
dial_step = 2
dial_count = 100
[[fault]]
name = "F1"
line = "L1"
[[fault]]
name = "F2"
line = "L2"
"#;

const CROSSED: &str = "fault,relay,amps\nF1,X,1000\nF1,Y,400\nF2,Y,1000\nF2,X,400\n";

/// A search: the network with parts of it replaced, the table, the gap, the budget, the status, and how the report begins.
type Search = (
    (&'static str, &'static [(&'static str, &'static str)]),
    &'static str,
    (Option<u64>, u32),
    (u8, &'static str),
);

/// Asserts that the searches without advice end so.
fn found(rt: &(impl AllocGlobal + Abort), searches: &[Search]) -> Result<(), AllocError> {
    for ((network, changes), currents, (gap, budget), (status, report)) in searches {
        let network = edited(rt, network, changes)?;
        let files = (network.as_str(), *currents);
        finds(
            rt,
            &mut NullAdviser,
            files,
            *gap,
            *budget,
            (*status, *report),
        )?;
    }
    Ok(())
}

/// Asserts that a search with this advice ends so: its status, and how its report begins.
pub fn finds<A: Adviser>(
    rt: &(impl AllocGlobal + Abort),
    adviser: &mut A,
    (network, currents): (&str, &str),
    gap: Option<u64>,
    budget: u32,
    (status, report): (u8, &str),
) -> Result<(), AllocError> {
    let mut folder = folder_of(rt, &[("n", network), ("t", currents)], None)?;
    let mut out = MemSink::new(rt.alloc(), Vec::new(rt.alloc()));
    let asked = gap.unwrap_or(1) <= 1_000_000_000_000
        && gap != Some(0)
        && 1 <= budget
        && budget <= 200_000;
    assert!(rt; asked);
    let ended = solve_with(
        rt.alloc(),
        &mut folder,
        &mut out,
        "n",
        "t",
        "s",
        "c",
        gap,
        budget,
        adviser,
    );
    assert_eq!(rt; ended, status, "{report}");
    assert!(rt;
        out.bytes().starts_with(report.as_bytes()),
        "not printed: {report}"
    );
    Ok(())
}

/// R1 with dials from 0.050 to 1.000 and two plugs.
pub const TWO_PLUGS: &[(&str, &str)] = &[
    (
        "plug_count = 1\ndial_first = 250\ndial_step = 50\ndial_count = 1\n",
        "plug_count = 2\ndial_first = 50\ndial_step = 50\ndial_count = 20\n",
    ),
    ("dial_count = 1\n", "dial_count = 20\n"),
];

const SEARCHES: [Search; 5] = [
    // at plug 2.00 R1 needs 0.150, which costs 313,235 at least: the first half is closed by its own cost
    (
        (NETWORK, TWO_PLUGS),
        CURRENTS,
        (None, 20_000),
        (0, "closed cost 262500 bound 262500 boxes 3\n"),
    ),
    // both plugs are capped at 20 times pickup, so the first closes all
    (
        (
            ALONE,
            &[("dial_first", "plug_step = 100\nplug_count = 2\ndial_first")],
        ),
        "fault,relay,amps\nF1,R1,100000\n",
        (None, 20_000),
        (0, "closed cost 35527 bound 35526 boxes 1\n"),
    ),
    // the lowest plugs need 0.108, and 2.00 for both needs 0.032
    (
        (PARALLEL, &[]),
        CROSSED,
        (None, 1),
        (4, "budget spent cost 324000 bound 84000 boxes 1\n"),
    ),
    (
        (
            PARALLEL,
            &[
                ("dial_count = 100", "dial_count = 50"),
                ("dial_count = 100", "dial_count = 50"),
            ],
        ),
        CROSSED,
        (None, 1),
        (5, "budget spent cost none bound 84000 boxes 1\n"),
    ),
    (
        (PARALLEL, &[]),
        CROSSED,
        (None, 20_000),
        (0, "closed cost 216000 bound "),
    ),
];

#[test]
fn a_search_ends_by_its_pickups_and_its_budget(rt: HostRuntime) -> Result<(), test::Fail> {
    Ok(found(&rt, &SEARCHES)?)
}

/// The interval of 270 ms at 8 times pickup, where the enclosures are 1 ns wide.
pub const BY_A_HAIR: &[(&str, &str)] = &[
    ("cti_ms = 300", "cti_ms = 270"),
    (
        "dial_first = 250\ndial_step = 50\ndial_count = 1\n",
        "dial_first = 140\ndial_step = 140\ndial_count = 2\n",
    ),
    (
        "dial_first = 50\ndial_step = 50\ndial_count = 1\n",
        "dial_first = 140\ndial_step = 140\ndial_count = 2\n",
    ),
    (
        "\n[[fault]]\nname = \"F2\"\nline = \"AB\"\nweight = 1\n",
        "",
    ),
];

const GAPS: [Search; 2] = [
    // 280 thousandths times 1 ns is 280 ps, rounded up to a microsecond, and one more
    (
        (NETWORK, BY_A_HAIR),
        "fault,relay,amps\nF1,R2,800\nF1,R1,800\n",
        (Some(1), 20_000),
        (16, "gap too small: 1 least 2\n"),
    ),
    (
        (NETWORK, BY_A_HAIR),
        "fault,relay,amps\nF1,R2,800\nF1,R1,800\n",
        (Some(2), 20_000),
        (7, "hairline cost none bound 269999 boxes 1\n"),
    ),
];

#[test]
fn a_gap_below_the_least_is_refused(rt: HostRuntime) -> Result<(), test::Fail> {
    Ok(found(&rt, &GAPS)?)
}

// The linear programme's weights are 1 for each row at lambda 3: they close the first box at 216,000.
#[test]
fn the_programme_closes_parallel_lines_in_one_box(rt: HostRuntime) -> Result<(), test::Fail> {
    let mut folder = folder_of(&rt, &[("n", PARALLEL), ("t", CROSSED)], None)?;
    let (status, out) = called(&rt, &SOLVE, &mut folder)?;
    assert_eq!(rt; status, 0);
    assert!(rt; out.bytes().starts_with(b"closed cost 216000 bound 21"));
    assert!(rt; out.bytes().ends_with(b" boxes 1\n"));
    let settings = b"relay X plug 2.00 dial 0.032\nrelay Y plug 2.00 dial 0.032\nend\n";
    assert!(rt;
        folder
            .bytes("s")
            .is_some_and(|sheet| sheet.ends_with(settings))
    );
    Ok(())
}
