//! The lines that begin a settings sheet.
ghost use Rattle.std.specs.Prelude.{IfErr, IfOk};
ghost use Rattle.coord_model.specs.Limits.{FitsStudy};
ghost use Rattle.coord_model.specs.StudyData.{StudyData};
ghost use Rattle.settings_sheet.specs.SheetFaults.{IsRefusalOf};
ghost use Rattle.settings_sheet.specs.Stages.{HasHead};

use crate::elements::{read_bound, read_cost, read_ending, read_format};
use crate::refusal::{SheetKind, SheetRefusal, fault};
use coord_model::Ending;

/// What the lines before the settings say.
#[derive(Clone, Copy)]
pub struct Head {
    pub ending: Ending,
    pub cost: Option<u64>,
    pub bound: Option<u64>,
}

/// The head of a sheet, and what follows it.
pub fn read_head(bytes: &[u8]) -> Result<(Head, &[u8]), SheetRefusal>
    ensures said { IfOk result (λ read. HasHead bytes.now read.0 read.1.now) }
    ensures stops { IfErr result (λ refusal. (study : StudyData) → FitsStudy study → IsRefusalOf study bytes.now refusal) }
{
    let Some(left) = read_format(bytes) else {
        return Err(fault(1, SheetKind::Format));
    };
    let Some((ending, left)) = read_ending(left) else {
        return Err(fault(2, SheetKind::Ending));
    };
    let Some((cost, left)) = read_cost(left, ending) else {
        return Err(fault(3, SheetKind::Cost));
    };
    let Some((bound, left)) = read_bound(left, ending) else {
        return Err(fault(4, SheetKind::Bound));
    };
    let head = Head {
        ending,
        cost,
        bound,
    };
    Ok((head, left))
}
