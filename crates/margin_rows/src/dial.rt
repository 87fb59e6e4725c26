//! The dials of the relays.
ghost use Rattle.std.specs.Prelude.{◌≡◌, ◌<◌, ◌≤◌};
ghost use Rattle.coord_model.specs.Dial.{dial_at_step};
ghost use Rattle.margin_rows.specs.Box.{IsDialStep};

use crate::instance::Instance;

/// The dial of a relay at a dial step, in thousandths.
pub fn dial_at(inst: &Instance, relay: u16, step: u16) -> u64
    requires { IsDialStep inst.now relay step }

    ensures exact { result ≡ dial_at_step inst.now.study relay step }
    ensures some { 0 < result }
    ensures small { result ≤ 15000 }
{
    let relay = &inst.study().relays[usize::from(relay)];
    u64::from(relay.dial_first) + u64::from(step) * u64::from(relay.dial_step)
}
