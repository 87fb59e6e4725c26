//! The currents of a ring.
ghost use Rattle.std.specs.Prelude.{◌≡◌, ◌≤◌, IfOk};
ghost use Rattle.coord_model.specs.StudyData.{entries_of};
ghost use Rattle.drill_ring.specs.DrillCurrents.{first, second, variation, current_of, currents_at, at_x, at_y, drill_currents};

use crate::names::{after, before};
use coord_model::{Current, Currents, NoMemory};
use std::alloc::Global;

/// The currents of a ring of `n` buses, line by line.
pub fn currents(alloc: Global, n: u16) -> Result<Currents, NoMemory>
    requires { n ≤ 48 }
    ensures { IfOk result (λ currents. entries_of currents ≡ drill_currents n) }
{
    let mut entries = Vec::new(alloc);
    for k in 1..n + 1 {
        entries.extend_from_slice(&at_x(n, k))?;
        entries.extend_from_slice(&at_y(n, k))?;
    }
    Ok(Currents { entries })
}

/// The currents at the first fault of line `k`.
fn at_x(n: u16, k: u16) -> [Current; 4]
    requires line { (1 ≤ k) × (k ≤ n) }
    requires ring { n ≤ 48 }
    ensures { result ≡ at_x n k }
{
    currents_at(
        first(k),
        first(k),
        first(before(n, k)),
        second(k),
        second(after(n, k)),
        variation(k),
    )
}

/// The currents at the second fault of line `k`.
fn at_y(n: u16, k: u16) -> [Current; 4]
    requires line { (1 ≤ k) × (k ≤ n) }
    requires ring { n ≤ 48 }
    ensures { result ≡ at_y n k }
{
    currents_at(
        second(k),
        second(k),
        second(after(n, k)),
        first(k),
        first(before(n, k)),
        variation(k),
    )
}

/// The currents at a fault, in primary amperes: of the relay near it and of its backup, of the relay at the far end of the
/// line and of its backup.
fn currents_at(
    fault: u16,
    near: u16,
    near_backup: u16,
    far: u16,
    far_backup: u16,
    v: u32,
) -> [Current; 4]
    requires { v ≤ 10 }
    ensures { result ≡ currents_at fault near near_backup far far_backup v }
{
    [
        current(fault, near, 4_000 + 50 * v),
        current(fault, near_backup, 1_600 + 25 * v),
        current(fault, far, 2_200 + 50 * v),
        current(fault, far_backup, 1_200 + 25 * v),
    ]
}

fn current(fault: u16, relay: u16, amps: u32) -> Current
    ensures { result ≡ current_of fault relay amps }
{
    Current { fault, relay, amps }
}

/// The number of relay `F` of line `k` in the study, and of fault `X`.
fn first(k: u16) -> u16
    requires { (1 ≤ k) × (k ≤ 49) }
    ensures { result ≡ first k }
{
    2 * (k - 1)
}

/// The number of relay `G` of line `k` in the study, and of fault `Y`.
fn second(k: u16) -> u16
    requires { (1 ≤ k) × (k ≤ 49) }
    ensures { result ≡ second k }
{
    2 * (k - 1) + 1
}

/// How the currents differ from line to line.
fn variation(k: u16) -> u32
    requires { k ≤ 48 }
    ensures exact { result ≡ variation k }
    ensures small { result ≤ 10 }
{
    u32::from(7 * k % 11)
}
