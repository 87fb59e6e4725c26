//! A certificate's file, written in pieces as its lines are printed.
ghost use Rattle.std.specs.Prelude.{◌≡◌, ◌≤◌, ◌++◌, [], length, vec_capacity, OnErr, OnOk};
ghost use Rattle.std.specs.Option.{ForSome};
ghost use Rattle.coord_io.specs.Faults.{Rose};
ghost use Rattle.coord_io.specs.Files.{Becomes, Gains, GainsPart, HasFile, StaysOrPart};
ghost use Rattle.coord_io.specs.Outside.{Changes};
ghost use Rattle.coord_text.specs.Claims.{text_of};
ghost use Rattle.coord_run.specs.Pieces.{LeavesRest};

use cert_text::CertPrinter;
use coord_io::{Failed, Folder, PIECE, append_whole};

/// Starts the file of that name and writes the lines that the printer has still to print, gathered in `room`.
///
/// It takes no memory. After `Failed` the file is as before or a front of the text, and all other files are as before.
pub fn put_lines<F: Folder>(
    folder: &mut F,
    name: &str,
    printer: &mut CertPrinter<'_>,
    room: &mut Vec<u8>,
) -> Result<(), Failed>
    requires empty { room.now.items ≡ [] }
    requires room { 65536 ≤ vec_capacity room.now }
    ensures whole { OnOk result (Changes (F.state folder.old) (F.state folder.new) (Becomes name.now (text_of printer.old.left))) }
    ensures part { OnErr result (Changes (F.state folder.old) (F.state folder.new) (StaysOrPart name.now (text_of printer.old.left))) }
    ensures failed { OnErr result (Rose (F.state folder.old).writes (F.state folder.new).writes) }
    ensures writes_counted { (F.state folder.old).writes ≤ (F.state folder.new).writes }
    ensures reads_left { (F.state folder.new).reads ≡ (F.state folder.old).reads }
{
    folder.start(name)?;
    append_lines(folder, name, printer, room)
}

/// Adds the lines that the printer has still to print to the end of the file of that name.
fn append_lines<F: Folder>(
    folder: &mut F,
    name: &str,
    printer: &mut CertPrinter<'_>,
    room: &mut Vec<u8>,
) -> Result<(), Failed>
    requires there { ForSome (F.state folder.old).files (λ m. HasFile m name.now) }
    requires empty { room.now.items ≡ [] }
    requires room { 65536 ≤ vec_capacity room.now }
    ensures added { OnOk result (Changes (F.state folder.old) (F.state folder.new) (Gains name.now (text_of printer.old.left))) }
    ensures part { OnErr result (Changes (F.state folder.old) (F.state folder.new) (GainsPart name.now (text_of printer.old.left))) }
    ensures failed { OnErr result (Rose (F.state folder.old).writes (F.state folder.new).writes) }
    ensures writes_counted { (F.state folder.old).writes ≤ (F.state folder.new).writes }
    ensures reads_left { (F.state folder.new).reads ≡ (F.state folder.old).reads }
{
    while printer.next() {
        put_line(folder, name, room, printer.piece())?;
    }
    append_whole(folder, name, room)
}

/// Gathers a line in the room; if it doesn't fit, what was gathered and the line go to the file.
fn put_line<F: Folder>(
    folder: &mut F,
    name: &str,
    room: &mut Vec<u8>,
    line: &[u8],
) -> Result<(), Failed>
    requires there { ForSome (F.state folder.old).files (λ m. HasFile m name.now) }
    requires few { length room.now.items ≤ 65536 }
    requires room { 65536 ≤ vec_capacity room.now }
    ensures left { OnOk result (LeavesRest name.now (room.old.items ++ line.now) room.new.items (F.state folder.old) (F.state folder.new)) }
    ensures few { length room.new.items ≤ 65536 }
    ensures room { 65536 ≤ vec_capacity room.new }
    ensures part { OnErr result (Changes (F.state folder.old) (F.state folder.new) (GainsPart name.now (room.old.items ++ line.now))) }
    ensures failed { OnErr result (Rose (F.state folder.old).writes (F.state folder.new).writes) }
    ensures writes_counted { (F.state folder.old).writes ≤ (F.state folder.new).writes }
    ensures reads_left { (F.state folder.new).reads ≡ (F.state folder.old).reads }
{
    if line.len() <= PIECE - room.len() {
        let _ = room.extend_from_slice(line);
        return Ok(());
    }
    append_whole(folder, name, room)?;
    room.clear();
    append_whole(folder, name, line)
}
