use super::*;

/// What a relay has beside its names.
const REST: &str =
    "curve = \"iec-c\"\nct_primary = 100\nct_secondary = 1\nplug_first = 100\ndial_first = 15000\n";

/// The lines, and the faults on them in turn.
const LINES: u32 = 48;

const FAULTS: u32 = 88;

/// 48 lines from one bus with a relay at both ends, and 88 faults on the lines in turn.
fn star(rt: &impl AllocGlobal) -> Result<String, AllocError> {
    let mut text = String::from_str(rt.alloc(), "format = 1\n[study]\ncti_ms = 300\n")?;
    for j in 1..LINES + 1 {
        push_line(rt, &mut text, j)?;
        push_relay(rt, &mut text, "H", j, "H")?;
        let far = format!(in rt.alloc(); "E{j}")?;
        push_relay(rt, &mut text, "W", j, &far)?;
    }
    for i in 1..FAULTS + 1 {
        let line = line_of(i);
        let fault = format!(in rt.alloc();
            "[[fault]]\nname = \"Z{i}\"\nline = \"K{line}\"\nweight = 1000\n"
        )?;
        text.push_str(&fault)?;
    }
    Ok(text)
}

/// Adds a line from the bus H.
fn push_line(rt: &impl AllocGlobal, text: &mut String, j: u32) -> Result<(), AllocError> {
    let line = format!(in rt.alloc(); "[[line]]\nname = \"K{j}\"\nfrom = \"H\"\nto = \"E{j}\"\n")?;
    text.push_str(&line)
}

/// Adds a relay on a line.
fn push_relay(
    rt: &impl AllocGlobal,
    text: &mut String,
    letter: &str,
    j: u32,
    bus: &str,
) -> Result<(), AllocError> {
    let relay = format!(in rt.alloc();
        "[[relay]]\nname = \"{letter}{j}\"\nline = \"K{j}\"\nbus = \"{bus}\"\n"
    )?;
    text.push_str(&relay)?;
    text.push_str(REST)
}

/// The line of a fault.
fn line_of(fault: u32) -> u32 {
    fault.saturating_sub(1) % LINES + 1
}

/// The currents of the star: at each fault both relays of its line, and the far relays of the others that back the near
/// one. At the last fault only the first `last` of them.
fn star_currents(rt: &impl AllocGlobal, last: u32) -> Result<String, AllocError> {
    let mut text = String::from_str(rt.alloc(), "fault,relay,amps\n")?;
    for i in 1..FAULTS + 1 {
        let line = line_of(i);
        let own = format!(in rt.alloc(); "Z{i},H{line},2000\nZ{i},W{line},200\n")?;
        text.push_str(&own)?;
        push_others(
            rt,
            &mut text,
            i,
            line,
            if i == FAULTS { last } else { LINES },
        )?;
    }
    Ok(text)
}

/// Adds the currents at a fault of the far relays of the lines up to `last`, other than its own line.
fn push_others(
    rt: &impl AllocGlobal,
    text: &mut String,
    fault: u32,
    line: u32,
    last: u32,
) -> Result<(), AllocError> {
    for k in (1..LINES + 1).filter(|k| *k != line && *k <= last) {
        let entry = format!(in rt.alloc(); "Z{fault},W{k},200\n")?;
        text.push_str(&entry)?;
    }
    Ok(())
}

#[test]
fn a_network_past_its_limit_is_refused(rt: HostRuntime) -> Result<(), test::Fail> {
    let mut long = String::from_str(rt.alloc(), NETWORK)?;
    for _ in NETWORK.len()..4_194_305 {
        long.push_str("#")?;
    }
    let text = "too long: n 4194304\n";
    Ok(ends_over(&rt, &SOLVE, long.as_str(), CURRENTS, 12, text)?)
}

// 96 entries at each fault: 8,448
#[test]
fn currents_past_their_limit_are_refused(rt: HostRuntime) -> Result<(), test::Fail> {
    let entries = all_currents(&rt)?;
    Ok(ends_star(
        &rt,
        &SOLVE,
        entries.as_str(),
        15,
        "too many: currents 8192\n",
    )?)
}

/// Entries of both relays of each line at each fault.
fn all_currents(rt: &impl AllocGlobal) -> Result<String, AllocError> {
    let mut entries = String::from_str(rt.alloc(), "fault,relay,amps\n")?;
    for i in 1..FAULTS + 1 {
        push_all(rt, &mut entries, i)?;
    }
    Ok(entries)
}

/// Adds the entries at a fault.
fn push_all(rt: &impl AllocGlobal, text: &mut String, fault: u32) -> Result<(), AllocError> {
    for j in 1..LINES + 1 {
        push_both(rt, text, fault, j)?;
    }
    Ok(())
}

/// Adds the currents at a fault of both relays of a line.
fn push_both(
    rt: &impl AllocGlobal,
    text: &mut String,
    fault: u32,
    line: u32,
) -> Result<(), AllocError> {
    let both = format!(in rt.alloc(); "Z{fault},H{line},200\nZ{fault},W{line},200\n")?;
    text.push_str(&both)
}

// At 20 and 2 times pickup the times at dial 1 are 80/399 and 80/3 s: 88 faults of weight 1,000 at dial 15 cost the upper
// ends, rounded up, and are bounded by the lower ends. The last fault is on line 40. With seven rows at it there are
// 87 * 47 + 7 = 4,096; one row more is one too many.
#[test]
fn as_many_rows_as_may_be_are_coordinated(rt: HostRuntime) -> Result<(), test::Fail> {
    let text = "closed cost 35464661655720 bound 35464661653080 boxes 1\n";
    let currents = star_currents(&rt, 7)?;
    Ok(ends_star(&rt, &SOLVE, currents.as_str(), 0, text)?)
}

#[test]
fn a_row_more_is_one_too_many(rt: HostRuntime) -> Result<(), test::Fail> {
    let currents = star_currents(&rt, 8)?;
    Ok(ends_star(&rt, &SOLVE, currents.as_str(), 15, "too many: rows 4096\n")?)
}

/// Asserts how the program ends over the star with these currents.
fn ends_star(
    rt: &(impl AllocGlobal + Abort),
    words: &[&str],
    currents: &str,
    status: u8,
    text: &str,
) -> Result<(), AllocError> {
    let network = star(rt)?;
    ends_over(rt, words, network.as_str(), currents, status, text)
}

/// Asserts how the program ends over these inputs.
fn ends_over<'x>(
    rt: &(impl AllocGlobal + Abort),
    words: &[&str],
    network: &'x str,
    currents: &'x str,
    status: u8,
    text: &str,
) -> Result<(), AllocError> {
    let files = [("n", network), ("t", currents)];
    answers(rt, words, &files, None, status, text, &[])
}

// Both times have ends that lie a nanosecond apart: 176 of them, of weight 1,000 at dial 15, are 2,640 microseconds.
#[test]
fn the_least_gap_of_many_wide_times_is_their_sum(rt: HostRuntime) -> Result<(), test::Fail> {
    let words = ["solve", "n", "t", "s", "c", "--gap", "2640"];
    let currents = star_currents(&rt, 7)?;
    let text = "gap too small: 2640 least 2641\n";
    Ok(ends_star(&rt, &words, currents.as_str(), 16, text)?)
}
