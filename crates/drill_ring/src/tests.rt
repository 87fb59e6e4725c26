//! Rings of three and of 48 buses, worked out by hand.
use crate::drill_study;
use coord_model::{Current, NoMemory};

// Of 7, 14 and 21, 7, 3 and 10 are left over 11.
#[test]
fn three_buses(rt: HostRuntime) -> Result<(), NoMemory> {
    let (study, currents) = drill_study(rt.alloc(), 3)?;
    assert!(rt; study.buses.len() == 3 && study.lines.len() == 3);
    assert!(rt; study.relays.len() == 6 && study.faults.len() == 6);
    assert!(rt; study.buses[0].bytes() == b"B1".as_slice());
    assert!(rt; study.lines[2].name.bytes() == b"L3".as_slice());
    assert!(rt; study.lines[2].from == 2 && study.lines[2].to == 0);
    assert!(rt; study.relays[4].name.bytes() == b"F3".as_slice());
    assert!(rt; study.relays[4].line == 2 && study.relays[4].bus == 2);
    assert!(rt; study.relays[5].name.bytes() == b"G3".as_slice());
    assert!(rt; study.relays[5].line == 2 && study.relays[5].bus == 0);
    assert!(rt; study.faults[4].name.bytes() == b"X3".as_slice());
    assert!(rt; study.faults[0].weight == 2 && study.faults[1].weight == 2);
    assert!(rt; study.faults[2].weight == 3 && study.faults[4].weight == 1);
    let entries = [
        at(0, 0, 4_350),
        at(0, 4, 1_775),
        at(0, 1, 2_550),
        at(0, 3, 1_375),
        at(1, 1, 4_350),
        at(1, 3, 1_775),
        at(1, 0, 2_550),
        at(1, 4, 1_375),
        at(2, 2, 4_150),
        at(2, 0, 1_675),
        at(2, 3, 2_350),
        at(2, 5, 1_275),
        at(3, 3, 4_150),
        at(3, 5, 1_675),
        at(3, 2, 2_350),
        at(3, 0, 1_275),
        at(4, 4, 4_500),
        at(4, 2, 1_850),
        at(4, 5, 2_700),
        at(4, 1, 1_450),
        at(5, 5, 4_500),
        at(5, 1, 1_850),
        at(5, 4, 2_700),
        at(5, 2, 1_450),
    ];
    assert!(rt; currents.entries.as_slice() == entries.as_slice());
    Ok(())
}

#[test]
fn forty_eight_buses(rt: HostRuntime) -> Result<(), NoMemory> {
    let (study, currents) = drill_study(rt.alloc(), 48)?;
    assert!(rt; study.buses.len() == 48 && study.lines.len() == 48);
    assert!(rt; study.relays.len() == 96 && study.faults.len() == 96);
    assert!(rt; currents.entries.len() == 384);
    assert!(rt; study.lines[47].from == 47 && study.lines[47].to == 0);
    assert!(rt; study.relays[95].name.bytes() == b"G48".as_slice() && study.relays[95].bus == 0);
    Ok(())
}

fn at(fault: u16, relay: u16, amps: u32) -> Current {
    Current { fault, relay, amps }
}
