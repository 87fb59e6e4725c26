use super::*;

/// One relay on one line.
pub const ALONE: &str = r#"format = 1
[study]
cti_ms = 300
[[line]]
name = "AB"
from = "A"
to = "B"
[[relay]]
name = "R1"
line = "AB"
bus = "A"
curve = "iec-b"
ct_primary = 100
ct_secondary = 1
plug_first = 100
dial_first = 50
[[fault]]
name = "F1"
line = "AB"
"#;

/// The fault on the first line, alone.
const SECOND_FAULT: &str = r#"
[[fault]]
name = "F2"
line = "AB"
weight = 1
"#;

/// A study and how it ends: the network with parts of it replaced, the table, the status, the report and the sheet.
pub struct Ending {
    pub network: &'static str,
    pub changes: &'static [(&'static str, &'static str)],
    pub currents: &'static str,
    pub status: u8,
    pub report: &'static str,
    pub sheet: &'static str,
}

/// Asserts that the studies end so.
pub fn end(rt: &(impl AllocGlobal + Abort), endings: &[Ending]) -> Result<(), AllocError> {
    for ending in endings {
        let network = edited(rt, ending.network, ending.changes)?;
        ends(
            rt,
            network.as_str(),
            ending.currents,
            ending.status,
            ending.report,
            ending.sheet,
        )?;
    }
    Ok(())
}

/// Asserts that the network and the currents end so: the status, what is printed, and the sheet.
pub fn ends<'x>(
    rt: &(impl AllocGlobal + Abort),
    network: &'x str,
    currents: &'x str,
    status: u8,
    report: &str,
    sheet: &str,
) -> Result<(), AllocError> {
    let files = [("n", network), ("t", currents), ("s", OLD_SHEET)];
    answers(rt, &SOLVE, &files, None, status, report, &[("s", sheet)])
}

const BY_DIALS: [Ending; 6] = [
    Ending {
        network: NETWORK,
        changes: &[],
        currents: CURRENTS,
        status: 0,
        report: REPORT,
        sheet: SHEET,
    },
    // 0.3 s at F1, 0.225 s more than R2
    Ending {
        network: NETWORK,
        changes: &[("dial_first = 250", "dial_first = 200")],
        currents: CURRENTS,
        status: 3,
        report: "no settings boxes 1\n",
        sheet: NO_SETTINGS,
    },
    // 600 A of load with its reserve, above the pickup of 100 A
    Ending {
        network: NETWORK,
        changes: &[("load_amps = 0", "load_amps = 500")],
        currents: CURRENTS,
        status: 3,
        report: "no settings boxes 1\n",
        sheet: NO_SETTINGS,
    },
    // R2 at 0.050 takes 75 ms at F1, so R1 needs 375 ms, which is 0.250
    Ending {
        network: WITH_DIALS,
        changes: &[],
        currents: CURRENTS,
        status: 0,
        report: REPORT,
        sheet: SHEET,
    },
    // with 0.200 at most it takes 300 ms, 225 ms more than R2
    Ending {
        network: WITH_DIALS,
        changes: &[("dial_count = 20", "dial_count = 4")],
        currents: CURRENTS,
        status: 3,
        report: "no settings boxes 1\n",
        sheet: NO_SETTINGS,
    },
    // the table in another form
    Ending {
        network: NETWORK,
        changes: &[],
        currents: "\u{feff}\"fault\",relay,amps\nF1,\"R2\",1000\n\"F1\",R1,\"1000\"\nF2,R1,001900\nF2,R2,0\n",
        status: 0,
        report: REPORT,
        sheet: SHEET,
    },
];

#[test]
fn two_relays_in_line_end_by_their_dials(rt: HostRuntime) -> Result<(), test::Fail> {
    Ok(end(&rt, &BY_DIALS)?)
}

const BY_CURVES: [Ending; 3] = [
    // At 5 times pickup extremely inverse of IEEE takes 28.2/24 + 0.1217 s, which the dial multiplies as a whole: 2.5934 s at
    // 2.000. That is 2.5184 s more than the very inverse relay of IEC at 10 times pickup, which takes 13.5/9 s times 0.050.
    Ending {
        network: NETWORK,
        changes: &[
            ("iec-b", "ieee-ei"),
            ("dial_first = 250", "dial_first = 2000"),
        ],
        currents: "fault,relay,amps\nF1,R2,1000\nF1,R1,500\nF2,R1,500\n",
        status: 0,
        report: "closed cost 2668400 bound 2668400 boxes 1\n",
        sheet: "coord-sheet 1
ending closed
cost 2668400
bound 2668400
relay R1 plug 1.00 dial 2.000
relay R2 plug 1.00 dial 0.050
end
",
    },
    // Inverse of IEC at 10 times pickup: 0.14/(10^0.02 - 1) is 2.970598624.. s, times 0.250 and 0.050 and a second time 0.250
    // for the other fault. Its ends are at most 100 ns apart, so that the sum lies between two microseconds.
    Ending {
        network: NETWORK,
        changes: &[("iec-b", "iec-a"), ("iec-b", "iec-a")],
        currents: "fault,relay,amps\nF1,R2,1000\nF1,R1,1000\nF2,R1,1000\n",
        status: 0,
        report: "closed cost 891180 bound 891179 boxes 1\n",
        sheet: "coord-sheet 1
ending closed
cost 891180
bound 891179
relay R1 plug 1.00 dial 0.250
relay R2 plug 1.00 dial 0.050
end
",
    },
    // extremely inverse at 3 times pickup: 10 s at dial 1, so 0.8 s and 0.5 s lie 0.3 s apart
    Ending {
        network: NETWORK,
        changes: &[
            ("iec-b", "iec-c"),
            ("iec-b", "iec-c"),
            ("dial_first = 250", "dial_first = 80"),
        ],
        currents: "fault,relay,amps\nF1,R2,300\nF1,R1,300\nF2,R1,300\n",
        status: 0,
        report: "closed cost 1300000 bound 1300000 boxes 1\n",
        sheet: "coord-sheet 1\nending closed\ncost 1300000\nbound 1300000\nrelay R1 plug 1.00 dial 0.080\nrelay R2 plug 1.00 dial 0.050\nend\n",
    },
];

#[test]
fn relays_of_both_standards_end_by_their_curves(rt: HostRuntime) -> Result<(), test::Fail> {
    Ok(end(&rt, &BY_CURVES)?)
}

const BY_MULTIPLES: [Ending; 5] = [
    // sensed from 1.1 times pickup on, where the time is 135 s times the dial
    Ending {
        network: ALONE,
        changes: &[],
        currents: "fault,relay,amps\nF1,R1,110\n",
        status: 0,
        report: "closed cost 6750000 bound 6750000 boxes 1\n",
        sheet: "coord-sheet 1\nending closed\ncost 6750000\nbound 6750000\nrelay R1 plug 1.00 dial 0.050\nend\n",
    },
    Ending {
        network: ALONE,
        changes: &[],
        currents: "fault,relay,amps\nF1,R1,109\n",
        status: 3,
        report: "no settings boxes 1\n",
        sheet: NO_SETTINGS,
    },
    // capped at 20 times pickup: 13.5/19 s times the dial, the cost rounded up and the bound down
    Ending {
        network: ALONE,
        changes: &[],
        currents: "fault,relay,amps\nF1,R1,100000\n",
        status: 0,
        report: "closed cost 35527 bound 35526 boxes 1\n",
        sheet: "coord-sheet 1\nending closed\ncost 35527\nbound 35526\nrelay R1 plug 1.00 dial 0.050\nend\n",
    },
    // 110 A is 1.10 times 1.00 A and less than 1.10 times 1.01 A, so one plug is left
    Ending {
        network: ALONE,
        changes: &[("dial_first", "plug_step = 1\nplug_count = 2\ndial_first")],
        currents: "fault,relay,amps\nF1,R1,110\n",
        status: 0,
        report: "closed cost 6750000 bound 6750000 boxes 1\n",
        sheet: "coord-sheet 1\nending closed\ncost 6750000\nbound 6750000\nrelay R1 plug 1.00 dial 0.050\nend\n",
    },
    // a load of 500 A needs 600 A, and the pickup is 200 A at most
    Ending {
        network: ALONE,
        changes: &[(
            "dial_first",
            "plug_step = 100\nplug_count = 2\nload_amps = 500\ndial_first",
        )],
        currents: "fault,relay,amps\nF1,R1,1000\n",
        status: 3,
        report: "no settings boxes 1\n",
        sheet: NO_SETTINGS,
    },
];

#[test]
fn one_relay_ends_by_its_multiple(rt: HostRuntime) -> Result<(), test::Fail> {
    Ok(end(&rt, &BY_MULTIPLES)?)
}

// 270 ms is 0.140 times 13.5/7 s, the time at 8 times pickup: R2 at 0.140 and R1 at 0.280 lie that far apart exactly, but
// their enclosures do not show it.
const AT_HAIRLINES: [Ending; 2] = [
    Ending {
        network: NETWORK,
        changes: &[
            ("cti_ms = 300", "cti_ms = 270"),
            (
                "dial_first = 250\ndial_step = 50\ndial_count = 1\n",
                "dial_first = 140\ndial_step = 140\ndial_count = 2\n",
            ),
            (
                "dial_first = 50\ndial_step = 50\ndial_count = 1\n",
                "dial_first = 140\ndial_step = 140\ndial_count = 2\n",
            ),
            (SECOND_FAULT, ""),
        ],
        currents: "fault,relay,amps\nF1,R2,800\nF1,R1,800\n",
        status: 7,
        report: "hairline cost none bound 269999 boxes 1
row F1 R1 R2 loose 200 strict -220
relay R1 plug 1.00 dial 0.280
relay R2 plug 1.00 dial 0.140
",
        sheet: "coord-sheet 1\nending hairline\ncost none\nbound 269999\nend\n",
    },
    // with 0.420 for R1 there are settings, but they cost 0.14 * 1.5 s more
    Ending {
        network: NETWORK,
        changes: &[
            ("cti_ms = 300", "cti_ms = 270"),
            (
                "dial_first = 250\ndial_step = 50\ndial_count = 1\n",
                "dial_first = 140\ndial_step = 140\ndial_count = 3\n",
            ),
            (
                "dial_first = 50\ndial_step = 50\ndial_count = 1\n",
                "dial_first = 140\ndial_step = 140\ndial_count = 2\n",
            ),
        ],
        currents: "fault,relay,amps\nF1,R2,800\nF1,R1,800\nF2,R1,1000\n",
        status: 6,
        report: "hairline cost 900001 bound 689999 boxes 1
row F1 R1 R2 loose 200 strict -220
relay R1 plug 1.00 dial 0.280
relay R2 plug 1.00 dial 0.140
",
        sheet: "coord-sheet 1
ending hairline
cost 900001
bound 689999
relay R1 plug 1.00 dial 0.420
relay R2 plug 1.00 dial 0.140
end
",
    },
];

#[test]
fn a_hairline_ends_with_and_without_settings(rt: HostRuntime) -> Result<(), test::Fail> {
    Ok(end(&rt, &AT_HAIRLINES)?)
}
