//! The settings that a sheet gives a case.
ghost use Rattle.std.specs.Prelude.{◌<◌, length, IfOk, IfErr};
ghost use Rattle.std.specs.Option.{option_map};
ghost use Rattle.coord_model.specs.Choice.{choice_data};
ghost use Rattle.coord_io.specs.Outside.{IsReadAlone, Told};
ghost use Rattle.coord_run.specs.Settings.{FitFirstBox, GivesSettings, IsSheetFile, NamesRelay, SettingsCause};
ghost use Rattle.coord_run.specs.Stops.{StopsFor};
ghost use Rattle.settings_sheet.specs.SheetText.{IsSheet, sheet_data};

use crate::inputs::read_file;
use crate::refusal::{File, Refusal, Stop};
use coord_io::Folder;
use coord_model::{Choice, Name};
use margin_rows::{Instance, first_outside};
use settings_sheet::{Sheet, SheetRefusal, read_sheet};
use std::alloc::Global;

/// The settings of a sheet of the case, in the first box. `None`: the sheet has no settings.
pub fn read_settings<F: Folder>(
    alloc: Global,
    folder: &mut F,
    name: &str,
    inst: &Instance,
) -> Result<Option<Choice>, Stop>
    ensures read { IfOk result (λ choice. Told (F.state folder.old) (F.state folder.new)
        (λ m. GivesSettings m name.now inst.now (option_map choice_data choice))) }
    ensures fit { IfOk result (λ choice. FitFirstBox inst.now (option_map choice_data choice)) }
    ensures stopped { IfErr result (λ stop. StopsFor stop (SettingsCause (F.state folder.old) (F.state folder.new) name.now inst.now)) }
    ensures alone { IsReadAlone (F.state folder.old) (F.state folder.new) }
{
    let sheet = read_sheet_file(alloc, folder, name, inst)?;
    let Some(choice) = sheet.choice else {
        return Ok(None);
    };
    match first_outside(inst, &choice) {
        Some(relay) => Err(Stop::Refused(Refusal::SheetPickup(name_of(inst, relay)))),
        None => Ok(Some(choice)),
    }
}

/// The sheet of the case in the file of this name.
fn read_sheet_file<F: Folder>(
    alloc: Global,
    folder: &mut F,
    name: &str,
    inst: &Instance,
) -> Result<Sheet, Stop>
    ensures read { IfOk result (λ sheet. Told (F.state folder.old) (F.state folder.new) (λ m. IsSheetFile m name.now inst.now.study (sheet_data sheet))) }
    ensures is { IfOk result (λ sheet. IsSheet inst.now.study (sheet_data sheet)) }
    ensures stopped { IfErr result (λ stop. StopsFor stop (SettingsCause (F.state folder.old) (F.state folder.new) name.now inst.now)) }
    ensures alone { IsReadAlone (F.state folder.old) (F.state folder.new) }
{
    let bytes = read_file(alloc, folder, name, File::Sheet)?;
    match read_sheet(alloc, inst.study(), bytes.as_slice()) {
        Ok(sheet) => Ok(sheet),
        Err(SheetRefusal::Fault { line, kind }) => {
            Err(Stop::Refused(Refusal::SheetLine { line, kind }))
        }
        Err(SheetRefusal::NoMemory) => Err(Stop::NoMemory),
    }
}

/// The name of a relay.
fn name_of(inst: &Instance, relay: u16) -> Name
    requires { relay < length inst.now.study.relays }
    ensures { NamesRelay inst.now.study relay result }
{
    inst.study().relays[usize::from(relay)].name
}
