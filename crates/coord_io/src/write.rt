//! Handing over all bytes.
ghost use Rattle.std.specs.Prelude.{◌≡◌, ◌≤◌, OnOk, OnErr};
ghost use Rattle.std.specs.Option.{ForSome};
ghost use Rattle.coord_io.specs.Faults.{Rose};
ghost use Rattle.coord_io.specs.Files.{Becomes, Gains, GainsPart, HasFile, StaysOrPart};
ghost use Rattle.coord_io.specs.Outside.{Changes, Takes};
ghost use Rattle.coord_io.specs.Written.{Gained, GainedPart};

use crate::{Failed, Folder, Sink};

/// Adds all the bytes to the end of the file of that name. It takes no memory.
///
/// After `Failed` the file has gained a front of them.
pub fn append_whole<F: Folder>(folder: &mut F, name: &str, bytes: &[u8]) -> Result<(), Failed>
    requires { ForSome (F.state folder.old).files (λ m. HasFile m name.now) }

    ensures added { OnOk result (Changes (F.state folder.old) (F.state folder.new) (Gains name.now bytes.now)) }
    ensures part { OnErr result (Changes (F.state folder.old) (F.state folder.new) (GainsPart name.now bytes.now)) }
    ensures failed { OnErr result (Rose (F.state folder.old).writes (F.state folder.new).writes) }

    ensures writes_counted { (F.state folder.old).writes ≤ (F.state folder.new).writes }
    ensures reads_left { (F.state folder.new).reads ≡ (F.state folder.old).reads }
{
    let mut rest = bytes;
    while !rest.is_empty() {
        let count = folder.append(name, rest)?;
        rest = &rest[count..];
    }
    Ok(())
}

/// Starts the file of that name and writes it whole. It takes no memory.
///
/// After `Failed` the file is as before or a front of the bytes, and all other files are as before.
pub fn put_whole<F: Folder>(folder: &mut F, name: &str, bytes: &[u8]) -> Result<(), Failed>
    ensures whole { OnOk result (Changes (F.state folder.old) (F.state folder.new) (Becomes name.now bytes.now)) }
    ensures part { OnErr result (Changes (F.state folder.old) (F.state folder.new) (StaysOrPart name.now bytes.now)) }
    ensures failed { OnErr result (Rose (F.state folder.old).writes (F.state folder.new).writes) }

    ensures writes_counted { (F.state folder.old).writes ≤ (F.state folder.new).writes }
    ensures reads_left { (F.state folder.new).reads ≡ (F.state folder.old).reads }
{
    folder.start(name)?;
    append_whole(folder, name, bytes)
}

/// Hands all the bytes to the sink. It takes no memory.
///
/// After `Failed` the sink has gained a front of them.
pub fn write_whole<K: Sink>(out: &mut K, bytes: &[u8]) -> Result<(), Failed>
    ensures added { OnOk result (Takes (K.state out.old) (K.state out.new) (Gained bytes.now)) }
    ensures part { OnErr result (Takes (K.state out.old) (K.state out.new) (GainedPart bytes.now)) }
    ensures failed { OnErr result (Rose (K.state out.old).faults (K.state out.new).faults) }
    ensures counted { (K.state out.old).faults ≤ (K.state out.new).faults }
{
    let mut rest = bytes;
    while !rest.is_empty() {
        let count = out.write(rest)?;
        rest = &rest[count..];
    }
    Ok(())
}
