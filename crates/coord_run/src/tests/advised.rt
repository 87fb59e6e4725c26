//! What the advice of the linear programme is worth: without it these studies need more boxes.
use super::endings::ALONE;
use super::searches::finds;
use super::*;
use lp_advice::{LpAdviser, NullAdviser};

/// Two parallel lines that share nothing with other copies; `#` is the number of the copy.
const COPY: &str = r#"[[line]]
name = "L#"
from = "A#"
to = "B#"
[[line]]
name = "M#"
from = "A#"
to = "B#"
[[relay]]
name = "X#"
line = "L#"
bus = "A#"
curve = "iec-b"
ct_primary = 100
ct_secondary = 1
plug_first = 100
plug_step = 100
plug_count = 2
dial_first = 2
dial_step = 2
dial_count = 100
[[relay]]
name = "Y#"
line = "M#"
bus = "B#"
curve = "iec-b"
ct_primary = 100
ct_secondary = 1
plug_first = 100
plug_step = 100
plug_count = 2
dial_first = 2
dial_step = 2
dial_count = 100
[[fault]]
name = "F#"
line = "L#"
[[fault]]
name = "G#"
line = "M#"
"#;

const COPY_CURRENTS: &str = "F#,X#,1000\nF#,Y#,400\nG#,Y#,1000\nG#,X#,400\n";

/// The head and eight copies of the text.
fn eight(rt: &(impl AllocGlobal + Abort), head: &str, copy: &str) -> Result<String, AllocError> {
    let mut text = String::from_str(rt.alloc(), head)?;
    for digit in "12345678".chars() {
        for letter in copy.chars() {
            text.push(if letter == '#' { digit } else { letter })?;
        }
    }
    Ok(text)
}

// Each copy costs 216,000 with 2.00 and 0.032 for both relays, 324,000 with its lowest pickups, and 84,000 at its plain
// bound; the weights 1 at lambda 3 bound each copy by 216,000.
#[test]
fn eight_copies_close_in_one_box_by_advice_alone(rt: HostRuntime) -> Result<(), test::Fail> {
    let network = eight(&rt, "format = 1\n[study]\ncti_ms = 324\n", COPY)?;
    let currents = eight(&rt, "fault,relay,amps\n", COPY_CURRENTS)?;
    let files = (network.as_str(), currents.as_str());
    let advised = (0, "closed cost 1728000 bound 172");
    finds(&rt, &mut LpAdviser::new(), files, None, 1, advised)?;
    let alone = (4, "budget spent cost 2592000 bound 672000 boxes 1\n");
    finds(&rt, &mut NullAdviser, files, None, 1, alone)?;
    Ok(())
}

/// Three relays in a chain, with two pickups for the first two. The first may take 81 ms, the last takes 1,500 ms.
const CHAIN: &str = r#"format = 2
[study]
cti_ms = 30
[[line]]
name = "AB"
from = "A"
to = "B"
[[line]]
name = "BC"
from = "B"
to = "C"
[[line]]
name = "CD"
from = "C"
to = "D"
[[relay]]
name = "R1"
line = "AB"
bus = "A"
curve = "iec-b"
ct_primary = 100
ct_secondary = 1
plug_first = 100
plug_step = 100
plug_count = 2
dial_first = 2
dial_step = 2
dial_count = 500
most_ms = 81
[[relay]]
name = "R2"
line = "BC"
bus = "B"
curve = "iec-b"
ct_primary = 100
ct_secondary = 1
plug_first = 100
plug_step = 100
plug_count = 2
dial_first = 2
dial_step = 2
dial_count = 500
[[relay]]
name = "R3"
line = "CD"
bus = "C"
curve = "iec-b"
ct_primary = 100
ct_secondary = 1
plug_first = 100
dial_first = 1000
[[fault]]
name = "F1"
line = "CD"
[[fault]]
name = "F2"
line = "BC"
[[fault]]
name = "F3"
line = "AB"
"#;

const CHAIN_CURRENTS: &str =
    "fault,relay,amps\nF1,R3,1000\nF1,R2,400\nF2,R2,1000\nF2,R1,400\nF3,R1,1000\n";

/// A study that advice ends in one box: the network with parts of it replaced, the table, how it ends, and how it ends
/// within so many boxes without advice.
type OneBox = (
    (&'static str, &'static [(&'static str, &'static str)]),
    &'static str,
    (u8, &'static str),
    (u32, u8, &'static str),
);

const ONE_BOX: [OneBox; 2] = [
    // R2 takes 1,530 ms or more as backup, and a quarter of that or more as primary, 382.5 ms; R1 takes 412.5 ms or more
    // as backup, and a quarter of that or more as primary. The weights 1, 4 and 16 of the rows show it at once.
    (
        (CHAIN, &[]),
        CHAIN_CURRENTS,
        (3, "no settings boxes 1\n"),
        (20_000, 3, "no settings boxes 3\n"),
    ),
    // at 10 times pickup the dial is 0.067, at 5 times 0.030: 0.067 * 1.5 s or 0.030 * 3.375 s, where 0.030 * 1.5 s is
    // the plain bound; the weight 1 of the least time gives the bound 100 ms
    (
        (
            ALONE,
            &[
                ("format = 1", "format = 2"),
                (
                    "dial_first = 50\n",
                    "plug_step = 100\nplug_count = 2\ndial_first = 1\ndial_count = 100\nleast_ms = 100\n",
                ),
            ],
        ),
        "fault,relay,amps\nF1,R1,1000\n",
        (0, "closed cost 100500 bound 100000 boxes 1\n"),
        (1, 4, "budget spent cost 100500 bound 45000 boxes 1\n"),
    ),
];

#[test]
fn the_rows_of_limits_have_weights(rt: HostRuntime) -> Result<(), test::Fail> {
    for ((network, changes), currents, advised, (budget, status, alone)) in &ONE_BOX {
        let network = edited(&rt, network, changes)?;
        let files = (network.as_str(), *currents);
        finds(&rt, &mut LpAdviser::new(), files, None, 1, *advised)?;
        finds(
            &rt,
            &mut NullAdviser,
            files,
            None,
            *budget,
            (*status, *alone),
        )?;
    }
    Ok(())
}

/// Three buses in a ring.
const RING: &str = r#"format = 2
[study]
cti_ms = 300
[[line]]
name = "AB"
from = "A"
to = "B"
[[line]]
name = "BC"
from = "B"
to = "C"
[[line]]
name = "CA"
from = "C"
to = "A"
[[fault]]
name = "M1"
line = "AB"
[[fault]]
name = "M2"
line = "BC"
[[fault]]
name = "M3"
line = "CA"
"#;

/// Names of a relay, its line and its bus.
const RING_RELAYS: [[&str; 3]; 6] = [
    ["R1", "AB", "A"],
    ["R2", "AB", "B"],
    ["R3", "BC", "B"],
    ["R4", "BC", "C"],
    ["R5", "CA", "C"],
    ["R6", "CA", "A"],
];

const RING_CURRENTS: &str = "fault,relay,amps
M1,R1,2400\nM1,R2,2000\nM1,R5,900\nM1,R4,800
M2,R3,2200\nM2,R4,2100\nM2,R1,850\nM2,R6,900
M3,R5,2500\nM3,R6,1900\nM3,R3,950\nM3,R2,800
";

/// The ring with its relays, which have this limit.
fn ring(rt: &(impl AllocGlobal + Abort), limit: &str) -> Result<String, AllocError> {
    let mut text = String::from_str(rt.alloc(), RING)?;
    for names in &RING_RELAYS {
        for (key, name) in ["[[relay]]\nname", "line", "bus"].iter().zip(names) {
            text.push_str(key)?;
            text.push_str(" = \"")?;
            text.push_str(name)?;
            text.push_str("\"\n")?;
        }
        text.push_str(
            "curve = \"iec-a\"\nct_primary = 400\nct_secondary = 1\nplug_first = 50\nplug_step = 25\nplug_count = 3
dial_first = 50\ndial_step = 10\ndial_count = 96\nload_amps = 150\n",
        )?;
        text.push_str(limit)?;
    }
    Ok(text)
}

/// What the program prints when it is called with these words.
fn printed(
    rt: &(impl AllocGlobal + Abort),
    folder: &mut MemFolder,
    words: &[&str],
) -> Result<MemSink, AllocError> {
    let mut owned = Vec::new(rt.alloc());
    for word in words {
        owned.push(String::from_str(rt.alloc(), word)?)?;
    }
    let mut out = MemSink::new(rt.alloc(), Vec::new(rt.alloc()));
    assert_eq!(rt; run(rt.alloc(), owned.as_slice(), folder, &mut out), 0);
    Ok(out)
}

// 729 pickup choices need at most 1,457 boxes. A prototype of the adviser in another language needed 63; with its weights
// alone and the first split that there is, it takes more.
#[test]
fn a_ring_closes_within_its_boxes(rt: HostRuntime) -> Result<(), test::Fail> {
    let network = ring(&rt, "")?;
    let files = (network.as_str(), RING_CURRENTS);
    let closed = (0, "closed cost 1712330 bound 171");
    finds(&rt, &mut LpAdviser::new(), files, None, 63, closed)?;
    finds(&rt, &mut NullAdviser, files, None, 1_457, closed)?;
    // the greatest time binds no relay
    let network = ring(&rt, "most_ms = 20000000\n")?;
    let files = (network.as_str(), RING_CURRENTS);
    finds(&rt, &mut LpAdviser::new(), files, None, 63, closed)?;
    Ok(())
}

// 1,712,330 is the least cost by two general solvers and by dynamic programming.
#[test]
fn a_ring_closes_at_its_least_cost_and_its_certificate_is_accepted(
    rt: HostRuntime,
) -> Result<(), test::Fail> {
    let network = ring(&rt, "")?;
    let mut folder = folder_of(&rt, &[("n", network.as_str()), ("t", RING_CURRENTS)], None)?;
    let solved = printed(&rt, &mut folder, &SOLVE)?;
    assert!(rt; solved.bytes().starts_with(b"closed cost 1712330 bound 171"));
    let checked = printed(&rt, &mut folder, &["check", "n", "t", "c"])?;
    assert!(rt; checked.bytes().strip_prefix(b"accepted ".as_slice()) == Some(solved.bytes()));
    Ok(())
}
