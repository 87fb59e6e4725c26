//! What the formats after the first add: least and greatest times, intervals of pairs, and curves with constants of
//! their own.
use super::endings::{ALONE, Ending, end};
use super::*;

const BY_LIMITS: [Ending; 5] = [
    // R2 takes 0.1 s from dial 0.067 on, which is 0.100: 150 ms. R1 waits until 450 ms, at dial 0.300, which is 225 ms at F2.
    Ending {
        network: WITH_DIALS,
        changes: &[
            ("format = 1", "format = 2"),
            ("bus = \"B\"", "bus = \"B\"\nleast_ms = 100"),
        ],
        currents: CURRENTS,
        status: 0,
        report: "closed cost 375000 bound 375000 boxes 1\n",
        sheet: "coord-sheet 1
ending closed
cost 375000
bound 375000
relay R1 plug 1.00 dial 0.300
relay R2 plug 1.00 dial 0.100
end
",
    },
    // R1 needs 187.5 ms at F2
    Ending {
        network: WITH_DIALS,
        changes: &[
            ("format = 1", "format = 2"),
            ("bus = \"A\"", "bus = \"A\"\nmost_ms = 150"),
        ],
        currents: CURRENTS,
        status: 3,
        report: "no settings boxes 1\n",
        sheet: NO_SETTINGS,
    },
    // 300 ms at F1 at dial 0.200 is 225 ms more than R2, and 150 ms at F2
    Ending {
        network: WITH_DIALS,
        changes: &[
            ("format = 1", "format = 3"),
            (
                "[[fault]]",
                "[[interval]]\nbackup = \"R1\"\nprimary = \"R2\"\ncti_ms = 225\n[[fault]]",
            ),
        ],
        currents: CURRENTS,
        status: 0,
        report: "closed cost 225000 bound 225000 boxes 1\n",
        sheet: "coord-sheet 1
ending closed
cost 225000
bound 225000
relay R1 plug 1.00 dial 0.200
relay R2 plug 1.00 dial 0.050
end
",
    },
    // all three: 150 ms of R2, 225 ms more of R1 at dial 0.250, and 187.5 ms at F2, within 188
    Ending {
        network: WITH_DIALS,
        changes: &[
            ("format = 1", "format = 3"),
            ("bus = \"A\"", "bus = \"A\"\nmost_ms = 188"),
            ("bus = \"B\"", "bus = \"B\"\nleast_ms = 100"),
            (
                "[[fault]]",
                "[[interval]]\nbackup = \"R1\"\nprimary = \"R2\"\ncti_ms = 225\n[[fault]]",
            ),
        ],
        currents: CURRENTS,
        status: 0,
        report: "closed cost 337500 bound 337500 boxes 1\n",
        sheet: "coord-sheet 1
ending closed
cost 337500
bound 337500
relay R1 plug 1.00 dial 0.250
relay R2 plug 1.00 dial 0.100
end
",
    },
    // and not within 187
    Ending {
        network: WITH_DIALS,
        changes: &[
            ("format = 1", "format = 3"),
            ("bus = \"A\"", "bus = \"A\"\nmost_ms = 187"),
            ("bus = \"B\"", "bus = \"B\"\nleast_ms = 100"),
            (
                "[[fault]]",
                "[[interval]]\nbackup = \"R1\"\nprimary = \"R2\"\ncti_ms = 225\n[[fault]]",
            ),
        ],
        currents: CURRENTS,
        status: 3,
        report: "no settings boxes 1\n",
        sheet: NO_SETTINGS,
    },
];

#[test]
fn times_and_intervals_of_their_own_are_kept(rt: HostRuntime) -> Result<(), test::Fail> {
    Ok(end(&rt, &BY_LIMITS)?)
}

// 270 ms is 0.140 times 13.5/7 s, the time at 8 times pickup, which is no whole number of nanoseconds.
const AT_A_LEAST_TIME: [Ending; 1] = [Ending {
    network: ALONE,
    changes: &[
        ("format = 1", "format = 2"),
        ("dial_first = 50", "dial_first = 140\nleast_ms = 270"),
    ],
    currents: "fault,relay,amps\nF1,R1,800\n",
    status: 7,
    report: "hairline cost none bound 269999 boxes 1
least F1 R1 loose 60 strict -80
relay R1 plug 1.00 dial 0.140
",
    sheet: "coord-sheet 1\nending hairline\ncost none\nbound 269999\nend\n",
}];

#[test]
fn a_hairline_of_a_least_time_is_named(rt: HostRuntime) -> Result<(), test::Fail> {
    Ok(end(&rt, &AT_A_LEAST_TIME)?)
}

/// The curve B of R1, or of both relays, as one of its own constants.
const CURVE_B: &str = "\"custom\"\ncustom_k = 135000\ncustom_c = 0\ncustom_j = 1\ncustom_h = 1";

const BY_CONSTANTS: [Ending; 3] = [
    Ending {
        network: WITH_DIALS,
        changes: &[
            ("format = 1", "format = 4"),
            ("\"iec-b\"", CURVE_B),
            ("\"iec-b\"", CURVE_B),
        ],
        currents: CURRENTS,
        status: 0,
        report: REPORT,
        sheet: SHEET,
    },
    // 54.9755/9 s at F1: 305 ms at dial 0.050 is too soon, so R1 stands at 0.100. At F2 it takes 305.4194.. ms, beside a
    // curve B of IEC.
    Ending {
        network: WITH_DIALS,
        changes: &[
            ("format = 1", "format = 4"),
            (
                "\"iec-b\"",
                "\"custom\"\ncustom_k = 549755\ncustom_c = 0\ncustom_j = 1\ncustom_h = 1",
            ),
        ],
        currents: CURRENTS,
        status: 0,
        report: "closed cost 380420 bound 380419 boxes 1\n",
        sheet: "coord-sheet 1
ending closed
cost 380420
bound 380419
relay R1 plug 1.00 dial 0.100
relay R2 plug 1.00 dial 0.050
end
",
    },
    // 1/(4^(1/2) - 1) + 0.5 s: 1.5 s at 4 times pickup, so that R1 waits until 375 ms at F1, and F2 costs 375 ms
    Ending {
        network: WITH_DIALS,
        changes: &[
            ("format = 1", "format = 4"),
            (
                "\"iec-b\"",
                "\"custom\"\ncustom_k = 10000\ncustom_c = 5000\ncustom_j = 1\ncustom_h = 2",
            ),
        ],
        currents: "fault,relay,amps\nF1,R2,1000\nF1,R1,400\nF2,R1,400\n",
        status: 0,
        report: "closed cost 450000 bound 450000 boxes 1\n",
        sheet: "coord-sheet 1
ending closed
cost 450000
bound 450000
relay R1 plug 1.00 dial 0.250
relay R2 plug 1.00 dial 0.050
end
",
    },
];

#[test]
fn curves_with_constants_of_their_own_end_beside_named_ones(
    rt: HostRuntime,
) -> Result<(), test::Fail> {
    Ok(end(&rt, &BY_CONSTANTS)?)
}
