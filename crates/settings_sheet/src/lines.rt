//! The lines of the relays.
ghost use Rattle.std.specs.Prelude.{◌≡◌, ◌+◌, ◌*◌, ◌<◌, ◌++◌, codes, OnOk};
ghost use Rattle.coord_model.specs.Allowed.{AreOnSteps, IsOnSteps};
ghost use Rattle.coord_model.specs.Choice.{choice_data};
ghost use Rattle.coord_model.specs.Limits.{FitsStudy};
ghost use Rattle.coord_model.specs.PartLimits.{FitsRelay};
ghost use Rattle.coord_model.specs.StudyData.{study_data};
ghost use Rattle.coord_text.specs.Claims.{ended};
ghost use Rattle.settings_sheet.specs.SheetLines.{relay_words};
ghost use Rattle.settings_sheet.specs.SheetText.{relay_lines};

use coord_model::{Choice, NoMemory, Relay, Study};
use coord_text::push_fixed;

/// Adds the line of each relay, with its settings. After `NoMemory` some of it is at the end of the text.
pub fn push_relay_lines(out: &mut Vec<u8>, study: &Study, choice: &Choice) -> Result<(), NoMemory>
    requires fits { FitsStudy (study_data study.now) }
    requires on_steps { AreOnSteps (study_data study.now) (choice_data choice.now) }
    ensures { OnOk result (out.new.items ≡ out.old.items ++ relay_lines (study_data study.now) (choice_data choice.now)) }
{
    for i in 0..study.relays.len() {
        push_relay_line(out, &study.relays[i], choice.pickup[i], choice.dial[i])?;
    }
    Ok(())
}

/// Adds the line of one relay.
fn push_relay_line(out: &mut Vec<u8>, relay: &Relay, pickup: u16, dial: u16) -> Result<(), NoMemory>
    requires plug { relay.now.plug_first + pickup * relay.now.plug_step < 10001 }
    requires dial { relay.now.dial_first + dial * relay.now.dial_step < 15001 }
    ensures { OnOk result (out.new.items ≡ out.old.items ++ ended (relay_words relay.now pickup dial)) }
{
    let plug = relay.plug_first + u32::from(pickup) * relay.plug_step;
    let dial = relay.dial_first + u32::from(dial) * relay.dial_step;
    out.extend_from_slice(b"relay ")?;
    out.extend_from_slice(relay.name.bytes())?;
    out.extend_from_slice(b" plug ")?;
    push_fixed(out, u64::from(plug), 2)?;
    out.extend_from_slice(b" dial ")?;
    push_fixed(out, u64::from(dial), 3)?;
    out.extend_from_slice(b"\n")?;
    Ok(())
}
