//! The names of an entry as numbers, by the rules that tie the tables together.
ghost use Rattle.std.specs.Prelude.{◌≡◌, ◌+◌, ◌-◌, ◌*◌, ◌^◌, ◌<◌, ◌≤◌, [], ◌∷◌, ◌++◌, length, slice_get, false, IfOk, OnOk, IsTrue};
ghost use Rattle.coord_model.specs.PartLimits.{FitsCurve, FitsLine, FitsRelay, FitsFault};
ghost use Rattle.coord_model.specs.Pairs.{ends_at};
ghost use Rattle.network_file.specs.Curves.{has_exponent, has_small_time, KeepsCurve};
ghost use Rattle.network_file.specs.EntryLimits.{RelayKeeps, FaultKeeps};
ghost use Rattle.network_file.specs.Fault.{Gives};
ghost use Rattle.network_file.specs.Fits.{study_with};
ghost use Rattle.network_file.specs.Names.{line_names};
ghost use Rattle.network_file.specs.Numbered.{line_in, within_curve, relay_at, is_taken, relay_in, fault_on};

use crate::entries::{FaultEntry, LineEntry, RelayEntry};
use crate::fault::{NetFault, Place};
use crate::names::{Names, add_new, number_in};
use coord_model::limits::{GREATEST_DIAL, GREATEST_PLUG};
use coord_model::{CurveForm, CurveName, Fault, Key, Line, NetKind, Relay};
use curve_custom::CustomCurve;

/// The buses and the lines of a study, and the numbers of their names.
#[derive(Drop)]
pub(crate) struct Grid {
    pub buses: Names,
    pub line_names: Names,
    pub lines: Vec<Line>,
}

/// A line with its buses' numbers.
#[tactic(auto, unfolding(crate::specs::Numbered::line_in))]
pub(crate) fn line_in(
    buses: &Names,
    place: Place,
    names: &mut Names,
    entry: LineEntry,
) -> Result<Line, NetFault>
    requires { length buses.now.keys ≤ 2 ^ 16 }
    ensures exact { Gives (λ line. line) result (line_in buses.now.keys place names.old.keys entry) }
    ensures added { IfOk result (λ line. names.new.keys ≡ names.old.keys ++ line.name ∷ []) }
    ensures fits { IfOk result (FitsLine (study_with buses.now.keys [] [])) }
{
    add_new(names, place, entry.name)?;
    if entry.from == entry.to {
        return Err(place.fault(NetKind::LoopLine, Key::To));
    }
    let Some(from) = number_in(buses, entry.from) else {
        return Err(place.fault(NetKind::UnknownName, Key::From));
    };
    let Some(to) = number_in(buses, entry.to) else {
        return Err(place.fault(NetKind::UnknownName, Key::To));
    };
    Ok(Line {
        name: entry.name,
        from,
        to,
    })
}

/// A relay with its line's and its bus's numbers, after the relays before it.
#[tactic(auto, unfolding(crate::specs::Numbered::relay_in))]
pub(crate) fn relay_in(
    grid: &Grid,
    place: Place,
    names: &mut Names,
    before: &[Relay],
    entry: RelayEntry,
) -> Result<Relay, NetFault>
    requires buses { length grid.now.buses.keys ≤ 64 }
    requires lines { length grid.now.line_names.keys ≤ 64 }
    requires named { grid.now.line_names.keys ≡ line_names grid.now.lines.items }
    requires keeps { RelayKeeps entry }
    ensures exact { Gives (λ relay. relay) result
        (relay_in grid.now.buses.keys grid.now.line_names.keys grid.now.lines.items place names.old.keys before.now entry) }
    ensures added { IfOk result (λ relay. names.new.keys ≡ names.old.keys ++ relay.name ∷ []) }
    ensures fits { IfOk result (FitsRelay (study_with grid.now.buses.keys grid.now.lines.items [])) }
    ensures free { IfOk result (λ relay. is_taken before.now relay.line relay.bus ≡ false) }
{
    add_new(names, place, entry.name)?;
    let Some(line) = number_in(&grid.line_names, entry.line) else {
        return Err(place.fault(NetKind::UnknownName, Key::Line));
    };
    let Some(bus) = number_in(&grid.buses, entry.bus) else {
        return Err(place.fault(NetKind::NotAtLine, Key::Bus));
    };
    if !ends_at(&grid.lines, line, bus) {
        return Err(place.fault(NetKind::NotAtLine, Key::Bus));
    }
    if is_taken(before, line, bus) {
        return Err(place.fault(NetKind::TwoRelaysAtEnd, Key::Bus));
    }
    within_curve(place, entry.curve)?;
    if last(entry.plug_first, entry.plug_step, entry.plug_count) > GREATEST_PLUG as u64 {
        return Err(place.fault(NetKind::OutOfRange, Key::PlugCount));
    }
    if last(entry.dial_first, entry.dial_step, entry.dial_count) > GREATEST_DIAL as u64 {
        return Err(place.fault(NetKind::OutOfRange, Key::DialCount));
    }
    if entry.most_ms > 0 && entry.most_ms < entry.least_ms {
        return Err(place.fault(NetKind::OutOfRange, Key::MostMs));
    }
    Ok(relay_at(entry, line, bus))
}

/// Whether the line has an end at the bus.
fn ends_at(lines: &[Line], line: u16, bus: u16) -> bool
    ensures { result ≡ ends_at (slice_get lines.now line) bus }
{
    match lines.get(usize::from(line)) {
        Some(line) => line.from == bus || line.to == bus,
        None => false,
    }
}

/// Whether one of the relays stands at this end of the line.
fn is_taken(relays: &[Relay], line: u16, bus: u16) -> bool
    ensures { result ≡ is_taken relays.now line bus }
{
    relays
        .iter()
        .any(|relay| relay.line == line && relay.bus == bus)
}

/// Refuses the constants of a curve that has its own if its exponent is not allowed or its time is too long.
#[tactic(auto, using(crate::proofs::CurveFits::curve_fits), unfolding(crate::specs::Numbered::within_curve))]
fn within_curve(place: Place, curve: CurveName) -> Result<(), NetFault>
    requires { KeepsCurve curve }
    ensures exact { result ≡ within_curve place curve }
    ensures fits { OnOk result (FitsCurve curve) }
{
    if !has_exponent(curve) {
        return Err(place.fault(NetKind::OutOfRange, Key::CustomH));
    }
    if !has_small_time(curve) {
        return Err(place.fault(NetKind::OutOfRange, Key::CustomK));
    }
    Ok(())
}

/// Whether the exponent is one that a curve of its own constants may have.
fn has_exponent(curve: CurveName) -> bool
    requires { KeepsCurve curve }
    ensures { result ≡ has_exponent curve }
{
    match curve {
        CurveName::Custom { e, h: 1, .. } => e <= 3,
        CurveName::Custom { e, h, .. } => 2 * e <= 3 * h,
        _ => true,
    }
}

/// Whether the time of a curve of its own constants is below 2^40 ns at 1.05 times pickup.
fn has_small_time(curve: CurveName) -> bool
    requires keeps { KeepsCurve curve }
    requires exponent { IsTrue (has_exponent curve) }
    ensures { result ≡ has_small_time curve }
{
    match curve {
        CurveName::Custom { k4, c4, e, h } => {
            CustomCurve::new(CurveForm { k4, c4, e, h }).is_some()
        }
        _ => true,
    }
}

/// The value at the last of the steps.
fn last(first: u32, step: u32, count: u32) -> u64
    requires { 1 ≤ count }
    ensures { result ≡ first + (count - 1) * step }
{
    u64::from(first) + u64::from(count - 1) * u64::from(step)
}

fn relay_at(entry: RelayEntry, line: u16, bus: u16) -> Relay
    ensures { result ≡ relay_at entry line bus }
{
    Relay {
        name: entry.name,
        line,
        bus,
        curve: entry.curve,
        ct_primary: entry.ct_primary,
        ct_secondary: entry.ct_secondary,
        plug_first: entry.plug_first,
        plug_step: entry.plug_step,
        plug_count: entry.plug_count,
        dial_first: entry.dial_first,
        dial_step: entry.dial_step,
        dial_count: entry.dial_count,
        load_amps: entry.load_amps,
        least_ms: entry.least_ms,
        most_ms: entry.most_ms,
    }
}

/// A fault with its line's number.
#[tactic(auto, unfolding(crate::specs::Numbered::fault_on))]
pub(crate) fn fault_on(
    grid: &Grid,
    place: Place,
    names: &mut Names,
    entry: FaultEntry,
) -> Result<Fault, NetFault>
    requires lines { length grid.now.line_names.keys ≤ 64 }
    requires named { grid.now.line_names.keys ≡ line_names grid.now.lines.items }
    requires keeps { FaultKeeps entry }
    ensures exact { Gives (λ fault. fault) result (fault_on grid.now.line_names.keys place names.old.keys entry) }
    ensures added { IfOk result (λ fault. names.new.keys ≡ names.old.keys ++ fault.name ∷ []) }
    ensures fits { IfOk result (FitsFault (study_with grid.now.buses.keys grid.now.lines.items [])) }
{
    add_new(names, place, entry.name)?;
    let Some(line) = number_in(&grid.line_names, entry.line) else {
        return Err(place.fault(NetKind::UnknownName, Key::Line));
    };
    Ok(Fault {
        name: entry.name,
        line,
        weight: entry.weight,
    })
}
