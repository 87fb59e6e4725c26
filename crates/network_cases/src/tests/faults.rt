//! The faults of a network file, one row for each rule.
use super::*;
use Key::*;
use NetKind::*;

/// What is changed in the network, and the fault that it makes: its kind, its table, the index there and the key.
type Row = (
    &'static [(&'static str, &'static str)],
    NetKind,
    TableName,
    u16,
    Option<Key>,
);

/// Asserts that the text with each row's changes is refused for the row's fault.
fn refuses_each(
    rt: &(impl AllocGlobal + Abort),
    text: &str,
    rows: &[Row],
) -> Result<(), AllocError> {
    for (changes, kind, table, index, key) in rows {
        let text = changed(rt, text, changes)?;
        let fault = NetFault::At {
            kind: *kind,
            table: *table,
            index: *index,
            key: *key,
        };
        refuses(rt, &text, fault);
    }
    Ok(())
}

/// Faults of the top, of the study, and of the elements of arrays by themselves.
const OF_TABLES: [Row; 27] = [
    (
        &[("format = 3", "")],
        Missing,
        TableName::Top,
        0,
        Some(Format),
    ),
    (
        &[("format = 3", "format = 5\nbus = 1")],
        OutOfRange,
        TableName::Top,
        0,
        Some(Format),
    ),
    (
        &[("format = 3", "format = 2")],
        UnknownKey,
        TableName::Top,
        0,
        None,
    ),
    (
        &[("study =", "# study =")],
        Missing,
        TableName::Top,
        0,
        Some(Key::Study),
    ),
    (
        &[("line =", "line = [] #")],
        Missing,
        TableName::Top,
        0,
        Some(Key::Line),
    ),
    (
        &[("line =", "line = [1] #")],
        WrongKind,
        TableName::Line,
        1,
        None,
    ),
    (
        &[("fault =", "fault = 1 #")],
        WrongKind,
        TableName::Top,
        0,
        Some(Key::Fault),
    ),
    (
        &[("interval =", "interval = [[]] #")],
        WrongKind,
        TableName::Interval,
        1,
        None,
    ),
    (
        &[("cti_ms = 300", "cti_ms = 300, cti = 1")],
        UnknownKey,
        TableName::Study,
        0,
        None,
    ),
    (
        &[("cti_ms = 300", "cti_ms = 10001")],
        OutOfRange,
        TableName::Study,
        0,
        Some(CtiMs),
    ),
    (
        &[("from = \"A\"", "from = 1, via = 1"), ("\"C\"", "1")],
        UnknownKey,
        TableName::Line,
        1,
        None,
    ),
    (
        &[("name = \"BC\", ", "")],
        Missing,
        TableName::Line,
        2,
        Some(Key::Name),
    ),
    (
        &[("to = \"C\"", "to = \"C1234567890123456\"")],
        OutOfRange,
        TableName::Line,
        2,
        Some(To),
    ),
    (
        &[("to = \"C\"", "to = \"C D\"")],
        OutOfRange,
        TableName::Line,
        2,
        Some(To),
    ),
    (
        &[("load_amps", "amps")],
        UnknownKey,
        TableName::Relay,
        1,
        None,
    ),
    (
        &[("bus = \"B\"", "")],
        Missing,
        TableName::Relay,
        2,
        Some(Bus),
    ),
    (
        &[("\"iec-b\"", "1")],
        WrongKind,
        TableName::Relay,
        1,
        Some(Curve),
    ),
    (
        &[("\"iec-b\"", "\"iec-d\"")],
        UnknownCurve,
        TableName::Relay,
        1,
        Some(Curve),
    ),
    (
        &[("ct_secondary = 1", "ct_secondary = 2")],
        OutOfRange,
        TableName::Relay,
        1,
        Some(CtSecondary),
    ),
    (
        &[("plug_count = 2", "plug_count = 65")],
        OutOfRange,
        TableName::Relay,
        1,
        Some(PlugCount),
    ),
    (
        &[("dial_count = 20", "dial_count = 4001")],
        OutOfRange,
        TableName::Relay,
        1,
        Some(DialCount),
    ),
    (
        &[("load_amps = 80", "load_amps = -1")],
        OutOfRange,
        TableName::Relay,
        1,
        Some(LoadAmps),
    ),
    (
        &[("least_ms = 100", "least_ms = 100001")],
        OutOfRange,
        TableName::Relay,
        1,
        Some(LeastMs),
    ),
    (
        &[("most_ms = 900", "most_ms = 20000001")],
        OutOfRange,
        TableName::Relay,
        1,
        Some(MostMs),
    ),
    (
        &[("weight = 7", "weight = 1001")],
        OutOfRange,
        TableName::Fault,
        1,
        Some(Weight),
    ),
    (
        &[(", primary = \"R1\"", "")],
        Missing,
        TableName::Exempt,
        1,
        Some(Primary),
    ),
    (
        &[("cti_ms = 225", "cti_ms = 0")],
        OutOfRange,
        TableName::Interval,
        1,
        Some(CtiMs),
    ),
];

/// The faults between tables, in the order in which they are looked for.
const BETWEEN_TABLES: [Row; 20] = [
    (
        &[("\"BC\"", "\"AB\"")],
        DoubleName,
        TableName::Line,
        2,
        Some(Key::Name),
    ),
    (
        &[("\"C\"", "\"B\"")],
        LoopLine,
        TableName::Line,
        2,
        Some(To),
    ),
    (
        &[("\"C\"", "\"B\""), ("weight = 7", "weight = 0")],
        OutOfRange,
        TableName::Fault,
        1,
        Some(Weight),
    ),
    (
        &[("name = \"R2\"", "name = \"R1\"")],
        DoubleName,
        TableName::Relay,
        2,
        Some(Key::Name),
    ),
    (
        &[(
            "[[relay]]\nname = \"R1\"\nline = \"AB\"",
            "[[relay]]\nname = \"R1\"\nline = \"CD\"",
        )],
        UnknownName,
        TableName::Relay,
        1,
        Some(Key::Line),
    ),
    (
        &[("bus = \"B\"", "bus = \"A\"")],
        NotAtLine,
        TableName::Relay,
        2,
        Some(Bus),
    ),
    (
        &[("bus = \"B\"", "bus = \"D\"")],
        NotAtLine,
        TableName::Relay,
        2,
        Some(Bus),
    ),
    (
        &[("line = \"BC\"\nbus = \"B\"", "line = \"AB\"\nbus = \"A\"")],
        TwoRelaysAtEnd,
        TableName::Relay,
        2,
        Some(Bus),
    ),
    (
        &[("plug_step = 90", "plug_step = 9901")],
        OutOfRange,
        TableName::Relay,
        1,
        Some(PlugCount),
    ),
    (
        &[("dial_step = 60", "dial_step = 787")],
        OutOfRange,
        TableName::Relay,
        1,
        Some(DialCount),
    ),
    (
        &[("most_ms = 900", "most_ms = 99")],
        OutOfRange,
        TableName::Relay,
        1,
        Some(MostMs),
    ),
    (
        &[("\"F2\"", "\"F1\"")],
        DoubleName,
        TableName::Fault,
        2,
        Some(Key::Name),
    ),
    (
        &[("\"F1\", line = \"BC\"", "\"F1\", line = \"R1\"")],
        UnknownName,
        TableName::Fault,
        1,
        Some(Key::Line),
    ),
    (
        &[("backup = \"R2\"", "backup = \"R3\"")],
        UnknownName,
        TableName::Exempt,
        1,
        Some(Backup),
    ),
    (
        &[("primary = \"R1\"", "primary = \"AB\"")],
        UnknownName,
        TableName::Exempt,
        1,
        Some(Primary),
    ),
    (
        &[("backup = \"R1\"", "backup = \"R3\"")],
        UnknownName,
        TableName::Interval,
        1,
        Some(Backup),
    ),
    (
        &[("primary = \"R2\"", "primary = \"R3\"")],
        UnknownName,
        TableName::Interval,
        1,
        Some(Primary),
    ),
    (
        &[(
            "225 }",
            "225 }, { backup = \"R1\", primary = \"R2\", cti_ms = 225 }",
        )],
        DoubleName,
        TableName::Interval,
        2,
        Some(Primary),
    ),
    (
        &[("most_ms = 900", "most_ms = 99"), ("\"F2\"", "\"F1\"")],
        OutOfRange,
        TableName::Relay,
        1,
        Some(MostMs),
    ),
    (
        &[
            ("backup = \"R2\"", "backup = \"R3\""),
            ("backup = \"R1\"", "backup = \"R3\""),
        ],
        UnknownName,
        TableName::Exempt,
        1,
        Some(Backup),
    ),
];

#[test]
fn faults_are_named(rt: HostRuntime) -> Result<(), Fail> {
    refuses_each(&rt, TIMED, &OF_TABLES)?;
    refuses_each(&rt, TIMED, &BETWEEN_TABLES)?;
    Ok(())
}

/// In format 1 a relay has no least and no greatest time, not even 0.
#[test]
fn times_are_unknown_in_format_1(rt: HostRuntime) -> Result<(), Fail> {
    let rows: [Row; 1] = [(
        &[("format = 3", "format = 1"), ("interval", "# interval")],
        UnknownKey,
        TableName::Relay,
        1,
        None,
    )];
    refuses_each(&rt, TIMED, &rows)?;
    Ok(())
}

/// Faults of the curve with constants of its own.
const OF_CONSTANTS: [Row; 11] = [
    // its name and its keys come with format 4
    (
        &[("format = 4", "format = 3")],
        UnknownKey,
        TableName::Relay,
        1,
        None,
    ),
    // they are no keys of a relay with another curve, or with none
    (
        &[("\"custom\"", "\"iec-b\"")],
        UnknownKey,
        TableName::Relay,
        1,
        None,
    ),
    (
        &[("curve = \"custom\"", "")],
        UnknownKey,
        TableName::Relay,
        1,
        None,
    ),
    (
        &[("dial_first = 80", "dial_first = 80\ncustom_c = 0")],
        UnknownKey,
        TableName::Relay,
        2,
        None,
    ),
    // all four are asked for, in their order
    (
        &[("custom_k = 135000\ncustom_c = 0\n", "")],
        Missing,
        TableName::Relay,
        1,
        Some(CustomK),
    ),
    (
        &[("custom_h = 1\n", "")],
        Missing,
        TableName::Relay,
        1,
        Some(CustomH),
    ),
    (
        &[("custom_c = 0", "custom_c = 1000001")],
        OutOfRange,
        TableName::Relay,
        1,
        Some(CustomC),
    ),
    (
        &[("custom_h = 1", "custom_h = 101")],
        OutOfRange,
        TableName::Relay,
        1,
        Some(CustomH),
    ),
    // the power is at most 3/2 with a root, 3 without
    (
        &[("custom_j = 1", "custom_j = 4")],
        OutOfRange,
        TableName::Relay,
        1,
        Some(CustomH),
    ),
    (
        &[
            ("custom_j = 1", "custom_j = 4"),
            ("custom_h = 1", "custom_h = 2"),
        ],
        OutOfRange,
        TableName::Relay,
        1,
        Some(CustomH),
    ),
    // 54.9756/0.05 s at 1.05 times pickup is the first time of 2^40 ns or more; 54.9755/0.05 s is below
    (
        &[("custom_k = 135000", "custom_k = 549756")],
        OutOfRange,
        TableName::Relay,
        1,
        Some(CustomK),
    ),
];

#[test]
fn constants_are_refused_for_their_first_fault(rt: HostRuntime) -> Result<(), Fail> {
    let text = changed(&rt, TIMED, &WITH_CONSTANTS)?;
    refuses_each(&rt, &text, &OF_CONSTANTS)?;
    Ok(())
}
