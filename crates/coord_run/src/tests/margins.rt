use super::*;

/// A sheet over a study and what `margins` answers: the network and the sheet with parts of them replaced.
struct Margins {
    network: &'static [(&'static str, &'static str)],
    currents: &'static str,
    sheet: &'static [(&'static str, &'static str)],
    status: u8,
    text: &'static str,
}

/// Asserts that the sheets are answered so.
fn report(rt: &(impl AllocGlobal + Abort), cases: &[Margins]) -> Result<(), AllocError> {
    for case in cases {
        let network = edited(rt, NETWORK, case.network)?;
        let sheet = edited(rt, SHEET, case.sheet)?;
        reports(
            rt,
            network.as_str(),
            case.currents,
            sheet.as_str(),
            case.status,
            case.text,
        )?;
    }
    Ok(())
}

/// Asserts that the sheet over these inputs is answered by this status and text.
fn reports<'x>(
    rt: &(impl AllocGlobal + Abort),
    network: &'x str,
    currents: &'x str,
    sheet: &'x str,
    status: u8,
    text: &str,
) -> Result<(), AllocError> {
    let files = [("n", network), ("t", currents), ("s", sheet)];
    answers(rt, &MARGINS, &files, None, status, text, &[])
}

const ROWS: [Margins; 7] = [
    // R1 at 0.250 waits 0.3 s longer than R2
    Margins {
        network: &[],
        currents: CURRENTS,
        sheet: &[],
        status: 0,
        text: "row F1 R1 R2 loose 0 strict 0\nrows 1 kept 1\n",
    },
    // R1 takes 0.3 s at F1, 0.225 s more than R2. At 5 times pickup it takes 13.5/4 s times 0.200, 0.6 s more than R2.
    Margins {
        network: &[
            ("dial_first = 250", "dial_first = 200"),
            (
                "[[fault]]",
                "[[fault]]\nname = \"F0\"\nline = \"BC\"\n[[fault]]",
            ),
        ],
        currents: "fault,relay,amps\nF0,R2,1000\nF0,R1,500\nF1,R2,1000\nF1,R1,1000\nF2,R1,1900\n",
        sheet: &[("dial 0.250", "dial 0.200")],
        status: 0,
        text: "row F0 R1 R2 loose 300000000000 strict 300000000000
row F1 R1 R2 loose -75000000000 strict -75000000000
rows 2 kept 1
",
    },
    // met exactly, but the enclosures do not show it
    Margins {
        network: &[
            ("cti_ms = 300", "cti_ms = 270"),
            ("dial_first = 250", "dial_first = 280"),
            ("dial_first = 50", "dial_first = 140"),
        ],
        currents: "fault,relay,amps\nF1,R2,800\nF1,R1,800\nF2,R1,800\n",
        sheet: &[("dial 0.250", "dial 0.280"), ("dial 0.050", "dial 0.140")],
        status: 0,
        text: "row F1 R1 R2 loose 200 strict -220\nrows 1 kept 0\n",
    },
    // at plug 2.00 the current of 1,000 A is 5 times pickup: R1 takes 13.5/4 s times 0.250, 0.76875 s more than R2
    Margins {
        network: &[("plug_count = 1", "plug_count = 2")],
        currents: CURRENTS,
        sheet: &[("plug 1.00", "plug 2.00")],
        status: 0,
        text: "row F1 R1 R2 loose 468750000000 strict 468750000000\nrows 1 kept 1\n",
    },
    // R2 takes 150 ms at dial 0.100, 50 ms more than it has to, and R1 450 ms at 0.300
    Margins {
        network: &[
            ("format = 1", "format = 2"),
            ("dial_first = 250", "dial_first = 300"),
            ("dial_first = 50", "least_ms = 100\ndial_first = 100"),
        ],
        currents: CURRENTS,
        sheet: &[("dial 0.250", "dial 0.300"), ("dial 0.050", "dial 0.100")],
        status: 0,
        text: "row F1 R1 R2 loose 0 strict 0
least F1 R2 loose 50000000000 strict 50000000000
rows 2 kept 2
",
    },
    // an interval of 225 ms, and 187.5 ms of R1 at F2, half a millisecond more than it may
    Margins {
        network: &[
            ("format = 1", "format = 3"),
            ("dial_first = 250", "most_ms = 187\ndial_first = 250"),
            (
                "[[fault]]",
                "[[interval]]\nbackup = \"R1\"\nprimary = \"R2\"\ncti_ms = 225\n[[fault]]",
            ),
        ],
        currents: CURRENTS,
        sheet: &[],
        status: 0,
        text: "row F1 R1 R2 loose 75000000000 strict 75000000000
most F2 R1 loose -500000000 strict -500000000
rows 2 kept 1
",
    },
    Margins {
        network: &[],
        currents: CURRENTS,
        sheet: &[(SHEET, NO_SETTINGS)],
        status: 0,
        text: "no settings\n",
    },
];

#[test]
fn rows_are_reported_with_their_margins(rt: HostRuntime) -> Result<(), test::Fail> {
    Ok(report(&rt, &ROWS)?)
}

const REFUSED: [Margins; 5] = [
    Margins {
        network: &[],
        currents: CURRENTS,
        sheet: &[("dial 0.250", "dial 0.260")],
        status: 20,
        text: "sheet: line 5 relay\n",
    },
    Margins {
        network: &[],
        currents: CURRENTS,
        sheet: &[("end\n", "end\nend\n")],
        status: 20,
        text: "sheet: line 8 after\n",
    },
    // R1 clears its load, R2 does not
    Margins {
        network: &[
            ("load_amps = 0", "load_amps = 80"),
            ("load_amps = 0", "load_amps = 500"),
        ],
        currents: CURRENTS,
        sheet: &[],
        status: 22,
        text: "sheet: pickup R2\n",
    },
    // the inputs are refused before the sheet
    Margins {
        network: &[("format = 1\n", "")],
        currents: "",
        sheet: &[(SHEET, "")],
        status: 13,
        text: "network: missing top 0 format\n",
    },
    Margins {
        network: &[],
        currents: "",
        sheet: &[(SHEET, "")],
        status: 14,
        text: "currents: bad-header\n",
    },
];

#[test]
fn a_sheet_is_refused_after_the_inputs(rt: HostRuntime) -> Result<(), test::Fail> {
    Ok(report(&rt, &REFUSED)?)
}
