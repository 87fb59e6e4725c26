//! Dials that rise from their first steps until they loosely meet every row.
//!
//! Each raise is kept with the number of the one that it rests on. Of two rows that ask for the same step the one that
//! asks first is kept; rows are asked in the order of their numbers, round by round.
ghost use Rattle.std.specs.Prelude.{◌≡◌, ◌<◌, length, IfOk, IsFalse, IsTrue, OnOk};
ghost use Rattle.coord_model.specs.Choice.{choice_data};
ghost use Rattle.coord_why.specs.Climbs.{IsLooseChoice, IsClimb, IsTop, IsRaiseFor, IsAdded};
ghost use Rattle.coord_why.specs.Raises.{AreFloors, AreNumbers};
ghost use Rattle.margin_rows.specs.Case.{FitsCase, rows_in, row_at};
ghost use Rattle.margin_rows.specs.Margin.{MeetsLoosely};
ghost use Rattle.margin_rows.specs.Raised.{step_sum};

use crate::link::{Link, Reason};
use coord_model::{Choice, NoMemory, RowKind};
use margin_rows::{Instance, loose_row, loose_step};
use std::alloc::Global;

/// A dial rose to the step of a link.
#[derive(Clone, Copy)]
pub struct Raise {
    pub link: Link,
    /// The number of the raise of the primary that the link rests on. `None`: the link stands alone.
    pub rests: Option<usize>,
}

/// Dials on their way up.
#[derive(Drop)]
pub struct Climb {
    /// The pickups, and the dials so far.
    pub low: Choice,
    /// The raises in their order. The first ones are the first steps of the relays.
    pub raises: Vec<Raise>,
    /// The number of each relay's last raise.
    pub latest: Vec<usize>,
}

/// The dials that no settings with the pickups of a choice undercut, if they loosely meet every row.
pub fn raise_all(alloc: Global, inst: &Instance, choice: &Choice) -> Result<Climb, NoMemory>
    requires loose { IsLooseChoice inst.now (choice_data choice.now) }

    ensures climb { IfOk result (IsClimb inst.now (choice_data choice.now)) }
    ensures top { IfOk result (IsTop inst.now) }
    ensures fits { FitsCase inst.now }
{
    let mut climb = foot(alloc, inst, choice)?;
    loop {
        if !raise_round(inst, choice, &mut climb)? {
            return Ok(climb);
        }
    }
}

/// The first dial step of each relay.
fn foot(alloc: Global, inst: &Instance, choice: &Choice) -> Result<Climb, NoMemory>
    requires loose { IsLooseChoice inst.now (choice_data choice.now) }
    ensures climb { IfOk result (IsClimb inst.now (choice_data choice.now)) }
    ensures fits { FitsCase inst.now }
{
    let relays = inst.study().relays.len();
    let pickup = choice.pickup.clone()?;
    let dial = vec![in alloc; 0; relays]?;
    Ok(Climb {
        low: Choice { pickup, dial },
        raises: floors(alloc, relays as u16)?,
        latest: numbers(alloc, relays)?,
    })
}

/// The first dial step of each of so many relays.
fn floors(alloc: Global, relays: u16) -> Result<Vec<Raise>, NoMemory>
    ensures { IfOk result (λ raises. AreFloors relays raises.items) }
{
    let mut raises = Vec::new(alloc);
    for relay in 0..relays {
        let link = Link {
            relay,
            step: 0,
            reason: Reason::Floor,
        };
        raises.push(Raise { link, rests: None })?;
    }
    Ok(raises)
}

/// The numbers below a count.
fn numbers(alloc: Global, count: usize) -> Result<Vec<usize>, NoMemory>
    ensures { IfOk result (λ numbers. AreNumbers count numbers.items) }
{
    let mut numbers = Vec::new(alloc);
    for number in 0..count {
        numbers.push(number)?;
    }
    Ok(numbers)
}

/// Raises the dial of the backup of each row once. Answers whether a dial rose.
fn raise_round(inst: &Instance, choice: &Choice, climb: &mut Climb) -> Result<bool, NoMemory>
    requires loose { IsLooseChoice inst.now (choice_data choice.now) }
    requires climb { IsClimb inst.now (choice_data choice.now) climb.old }

    ensures climb { OnOk result (IsClimb inst.now (choice_data choice.now) climb.new) }
    ensures top { IfOk result (λ rose. IsFalse rose → IsTop inst.now climb.new) }
    ensures higher { IfOk result (λ rose. IsTrue rose → step_sum climb.old.low.dial.items < step_sum climb.new.low.dial.items) }
{
    let mut rose = false;
    for row in 0..inst.rows().len() as u16 {
        if raise_row(inst, choice, climb, row)? {
            rose = true;
        }
    }
    Ok(rose)
}

/// Raises the dial of a row's backup if it is too low to meet the row loosely. Answers whether it was.
fn raise_row(
    inst: &Instance,
    choice: &Choice,
    climb: &mut Climb,
    row: u16,
) -> Result<bool, NoMemory>
    requires loose { IsLooseChoice inst.now (choice_data choice.now) }
    requires climb { IsClimb inst.now (choice_data choice.now) climb.old }
    requires row { row < length (rows_in inst.now) }

    ensures climb { OnOk result (IsClimb inst.now (choice_data choice.now) climb.new) }
    ensures kept { IfOk result (λ rose. IsFalse rose → climb.new ≡ climb.old) }
    ensures met { IfOk result (λ rose. IsFalse rose → MeetsLoosely inst.now (choice_data climb.new.low) (row_at inst.now row)) }
    ensures higher { IfOk result (λ rose. IsTrue rose → step_sum climb.old.low.dial.items < step_sum climb.new.low.dial.items) }
{
    if loose_row(inst, &climb.low, row) >= 0 {
        return Ok(false);
    }
    let raise = raise_for(inst, choice, climb, row);
    add(climb, raise)?;
    Ok(true)
}

/// The raise that a row asks for which is not loosely met. The choice, whose dials are no lower, meets it.
fn raise_for(inst: &Instance, choice: &Choice, climb: &Climb, row: u16) -> Raise
    requires loose { IsLooseChoice inst.now (choice_data choice.now) }
    requires climb { IsClimb inst.now (choice_data choice.now) climb.now }
    requires row { row < length (rows_in inst.now) }
    requires short { ¬ (MeetsLoosely inst.now (choice_data climb.now.low) (row_at inst.now row)) }

    ensures { IsRaiseFor inst.now (choice_data choice.now) climb.now result }
{
    let at = inst.row(row);
    let primary = usize::from(at.primary);
    let step = loose_step(
        inst,
        climb.low.pickup.as_slice(),
        row,
        climb.low.dial[primary],
    )
    .unwrap();
    match at.kind {
        RowKind::Interval => Raise {
            link: Link {
                relay: at.backup,
                step,
                reason: Reason::Row { row },
            },
            rests: Some(climb.latest[primary]),
        },
        RowKind::Least | RowKind::Most => Raise {
            link: Link {
                relay: at.backup,
                step,
                reason: Reason::Least { row },
            },
            rests: None,
        },
    }
}

/// Raises a dial to the step of a link.
fn add(climb: &mut Climb, raise: Raise) -> Result<(), NoMemory>
    requires dial { raise.link.relay < length climb.old.low.dial.items }
    requires latest { raise.link.relay < length climb.old.latest.items }

    ensures { OnOk result (IsAdded raise climb.old climb.new) }
{
    let place = usize::from(raise.link.relay);
    climb.latest[place] = climb.raises.len();
    climb.low.dial[place] = raise.link.step;
    climb.raises.push(raise)?;
    Ok(())
}
