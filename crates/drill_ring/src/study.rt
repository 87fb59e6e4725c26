//! The buses, lines, relays and faults of a ring.
ghost use Rattle.std.specs.Prelude.{◌≡◌, ◌≤◌, IfOk, map};
ghost use Rattle.std.specs.List.{flat_map};
ghost use Rattle.coord_model.specs.StudyData.{study_data};
ghost use Rattle.drill_ring.specs.Drill.{bus_of, line_of, relay_of, relays_of, fault_of, faults_of, numbers, drill_data};

use crate::names::{after, name};
use coord_model::{CurveName, Fault, Line, Name, NoMemory, Relay, Study};
use std::alloc::Global;

/// The study of a ring of `n` buses.
pub fn study(alloc: Global, n: u16) -> Result<Study, NoMemory>
    requires { n ≤ 48 }
    ensures { IfOk result (λ study. study_data study ≡ drill_data n) }
{
    Ok(Study {
        format: 1,
        cti_ms: 300,
        sense: 110,
        cap: 20,
        load_percent: 120,
        buses: buses(alloc, n)?,
        lines: lines(alloc, n)?,
        relays: relays(alloc, n)?,
        faults: faults(alloc, n)?,
        exempt: Vec::new(alloc),
        intervals: Vec::new(alloc),
    })
}

fn buses(alloc: Global, n: u16) -> Result<Vec<Name>, NoMemory>
    requires { n ≤ 48 }
    ensures { IfOk result (λ buses. buses.items ≡ map bus_of (numbers n)) }
{
    let mut buses = Vec::new(alloc);
    for k in 1..n + 1 {
        buses.push(name(b'B', k))?;
    }
    Ok(buses)
}

fn lines(alloc: Global, n: u16) -> Result<Vec<Line>, NoMemory>
    requires { n ≤ 48 }
    ensures { IfOk result (λ lines. lines.items ≡ map (line_of n) (numbers n)) }
{
    let mut lines = Vec::new(alloc);
    for k in 1..n + 1 {
        lines.push(line(n, k))?;
    }
    Ok(lines)
}

/// Line `k`, from its bus to the one after it.
fn line(n: u16, k: u16) -> Line
    requires { (1 ≤ k) × (k ≤ 48) }
    ensures { result ≡ line_of n k }
{
    Line {
        name: name(b'L', k),
        from: k - 1,
        to: after(n, k) - 1,
    }
}

fn relays(alloc: Global, n: u16) -> Result<Vec<Relay>, NoMemory>
    requires { n ≤ 48 }
    ensures { IfOk result (λ relays. relays.items ≡ flat_map (relays_of n) (numbers n)) }
{
    let mut relays = Vec::new(alloc);
    for k in 1..n + 1 {
        relays.extend_from_slice(&relays_of(n, k))?;
    }
    Ok(relays)
}

/// The relays at both ends of line `k`.
fn relays_of(n: u16, k: u16) -> [Relay; 2]
    requires { (1 ≤ k) × (k ≤ 48) }
    ensures { result ≡ relays_of n k }
{
    [
        relay(name(b'F', k), k, k),
        relay(name(b'G', k), k, after(n, k)),
    ]
}

/// A relay on line `k` at bus `j`.
fn relay(name: Name, k: u16, j: u16) -> Relay
    requires line { 1 ≤ k }
    requires bus { 1 ≤ j }
    ensures { result ≡ relay_of name k j }
{
    Relay {
        name,
        line: k - 1,
        bus: j - 1,
        curve: CurveName::IecA,
        ct_primary: 400,
        ct_secondary: 1,
        plug_first: 60,
        plug_step: 20,
        plug_count: 3,
        dial_first: 50,
        dial_step: 10,
        dial_count: 96,
        load_amps: 180,
        least_ms: 0,
        most_ms: 0,
    }
}

fn faults(alloc: Global, n: u16) -> Result<Vec<Fault>, NoMemory>
    requires { n ≤ 48 }
    ensures { IfOk result (λ faults. faults.items ≡ flat_map faults_of (numbers n)) }
{
    let mut faults = Vec::new(alloc);
    for k in 1..n + 1 {
        faults.extend_from_slice(&faults_of(k))?;
    }
    Ok(faults)
}

/// The faults on line `k`.
fn faults_of(k: u16) -> [Fault; 2]
    requires { (1 ≤ k) × (k ≤ 48) }
    ensures { result ≡ faults_of k }
{
    [fault(name(b'X', k), k), fault(name(b'Y', k), k)]
}

/// A fault on line `k`.
fn fault(name: Name, k: u16) -> Fault
    requires { 1 ≤ k }
    ensures { result ≡ fault_of name k }
{
    Fault {
        name,
        line: k - 1,
        weight: 1 + u32::from(k % 3),
    }
}
