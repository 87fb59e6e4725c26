//! What no clause says: that calls succeed, which planned call fails, and that a real file is read as written.
use coord_io::{
    CallKind, DiskFolder, Fail, Folder, MemFile, MemFolder, MemSink, QuietFile, QuietFolder,
    QuietSink, ReadFail, ReadRefusal, Sink, append_whole, are_quiet, names_differ, put_whole,
    read_whole, write_whole,
};
use coord_model::Name;
use std::os::unix::fs::symlink;
use std::process::Abort;
use std::{fs, test};

fn fail_at(rt: &impl Abort, call: CallKind, nth: u32) -> Fail {
    let name = Name::new(b"net").expect(rt, "a name");
    Fail { call, name, nth }
}

/// A folder with the file `net` of six bytes.
fn folder_of(rt: &(impl Abort + AllocGlobal), fails: Vec<Fail>) -> Result<MemFolder, test::Fail> {
    let file = MemFile {
        name: String::from_str(rt.alloc(), "net")?,
        bytes: Vec::from_slice(rt.alloc(), b"abcdef")?,
    };
    let files = vec![in rt.alloc(); file]?;
    assert!(rt; names_differ(&files));
    Ok(MemFolder::new(rt.alloc(), files, fails))
}

#[test]
fn a_folder_in_memory_keeps_what_is_written(rt: HostRuntime) -> Result<(), test::Fail> {
    let alloc = rt.alloc();
    let mut folder = folder_of(&rt, Vec::new(alloc))?;
    put_whole(&mut folder, "sheet", b"ok\nend\n")?;
    put_whole(&mut folder, "net", b"xyz")?;
    assert_eq!(rt; folder.bytes("net"), Some(b"xyz".as_slice()));
    assert!(rt; folder.bytes("other").is_none());

    let sheet = read_whole(alloc, &mut folder, "sheet", 7)?;
    assert_eq!(rt; sheet.as_slice(), b"ok\nend\n".as_slice());
    let long = read_whole(alloc, &mut folder, "sheet", 6);
    assert!(rt; matches!(long, Err(ReadRefusal::TooLong { limit: 6 })));
    let none = read_whole(alloc, &mut folder, "other", 6);
    assert!(rt; matches!(none, Err(ReadRefusal::Missing)));
    Ok(())
}

#[test]
fn the_planned_calls_fail(rt: HostRuntime) -> Result<(), test::Fail> {
    let fails = vec![in rt.alloc();
        fail_at(&rt, CallKind::ReadAt, 2),
        fail_at(&rt, CallKind::Start, 1),
        fail_at(&rt, CallKind::Append, 1),
    ]?;
    let mut folder = folder_of(&rt, fails)?;
    let mut buf = [0; 4];
    assert!(rt; matches!(folder.read_at("net", 0, &mut buf), Ok(4)));
    assert!(rt; matches!(folder.read_at("net", 4, &mut buf), Err(ReadFail::Failed)));
    assert!(rt; matches!(folder.read_at("net", 4, &mut buf), Ok(2)));
    assert_eq!(rt; buf.as_slice(), b"efcd".as_slice());
    assert!(rt; matches!(folder.read_at("net", 6, &mut buf), Ok(0)));

    for (kept, fails) in [(b"abcdef".as_slice(), true), (b"", true), (b"xyz", false)] {
        assert_eq!(rt; put_whole(&mut folder, "net", b"xyz").is_err(), fails);
        assert_eq!(rt; folder.bytes("net"), Some(kept));
    }
    Ok(())
}

#[test]
fn a_sink_fails_at_its_first_write_alone(rt: HostRuntime) -> Result<(), test::Fail> {
    let alloc = rt.alloc();
    let mut out = MemSink::new(alloc, vec![in alloc; 1]?);
    assert!(rt; write_whole(&mut out, b"closed").is_err());
    assert_eq!(rt; out.bytes(), b"".as_slice());
    write_whole(&mut out, b"write fault: sheet\n")?;
    assert_eq!(rt; out.bytes(), b"write fault: sheet\n".as_slice());
    Ok(())
}

#[test]
fn a_file_of_the_disk_is_read_as_written(rt: HostRuntime) -> Result<(), test::Fail> {
    let mut folder = DiskFolder::new(&rt);
    put_whole(&mut folder, "coord_io_sheet", b"no settings\n")?;
    let sheet = read_whole(rt.alloc(), &mut folder, "coord_io_sheet", 12)?;
    fs::remove_file(&rt, "coord_io_sheet")?;
    assert_eq!(rt; sheet.as_slice(), b"no settings\n".as_slice());
    let none = read_whole(rt.alloc(), &mut folder, "coord_io_sheet", 12);
    assert!(rt; matches!(none, Err(ReadRefusal::Missing)));
    Ok(())
}

#[test]
fn pieces_of_the_disk_are_those_of_their_file(rt: HostRuntime) -> Result<(), test::Fail> {
    let mut folder = DiskFolder::new(&rt);
    put_whole(&mut folder, "coord_io_a", b"abcdef")?;
    put_whole(&mut folder, "coord_io_b", b"uvwxyz")?;
    let pieces: [(&str, u64, &[u8]); 5] = [
        ("coord_io_a", 0, b"abcd"),
        ("coord_io_a", 4, b"ef"),
        ("coord_io_b", 4, b"yz"),
        ("coord_io_a", 6, b""),
        ("coord_io_a", 1, b"bcde"),
    ];
    for (name, place, piece) in &pieces {
        let mut buf = [0; 4];
        let count = folder.read_at(name, *place, &mut buf)?;
        assert_eq!(rt; &buf[..count], *piece, "{name} at {place}");
    }
    fs::remove_file(&rt, "coord_io_a")?;
    fs::remove_file(&rt, "coord_io_b")?;
    Ok(())
}

fn quiet_file(
    rt: &(impl Abort + AllocGlobal),
    name: &[u8],
    bytes: &[u8],
    room: u32,
) -> Result<QuietFile, test::Fail> {
    let bytes = Vec::from_slice(rt.alloc(), bytes)?;
    let name = Name::new(name).expect(rt, "a name");
    Ok(QuietFile { name, bytes, room })
}

/// A quiet folder with the files `net` of six bytes and `sheet` of none, each with a room of eight.
fn quiet_folder(rt: &(impl Abort + AllocGlobal)) -> Result<QuietFolder, test::Fail> {
    let net = quiet_file(rt, b"net", b"abcdef", 8)?;
    let sheet = quiet_file(rt, b"sheet", b"", 8)?;
    let files = vec![in rt.alloc(); net, sheet]?;
    assert!(rt; are_quiet(&files));
    Ok(QuietFolder::new(files)?)
}

#[test]
#[tactic(auto, using(coord_io::proofs::Changes::started_there))]
fn a_quiet_folder_tells_what_is_within_its_rooms(rt: HostRuntime) -> Result<(), test::Fail> {
    let mut folder = quiet_folder(&rt)?;
    let mut buf = [0; 4];
    put_whole(&mut folder, "sheet", b"ok\n")?;
    append_whole(&mut folder, "sheet", b"end 1")?;
    assert_eq!(rt; folder.bytes("sheet"), Some(b"ok\nend 1".as_slice()));
    assert!(rt; matches!(folder.read_at("sheet", 6, &mut buf), Ok(2)));
    assert_eq!(rt; &buf[..2], b" 1".as_slice());
    assert!(rt; matches!(folder.read_at("other", 0, &mut buf), Err(ReadFail::Missing)));
    put_whole(&mut folder, "sheet", b"")?;
    assert_eq!(rt; folder.bytes("sheet"), Some(b"".as_slice()));
    assert_eq!(rt; folder.bytes("net"), Some(b"abcdef".as_slice()));
    assert!(rt; folder.bytes("other").is_none());
    Ok(())
}

#[test]
fn a_quiet_folder_tells_nothing_after_a_piece_outgrew_its_room(
    rt: HostRuntime,
) -> Result<(), test::Fail> {
    let mut folder = quiet_folder(&rt)?;
    let mut buf = [0; 4];
    put_whole(&mut folder, "net", b"abcdefghi")?;
    assert!(rt; folder.bytes("net").is_none());
    assert!(rt; folder.bytes("sheet").is_none());
    assert!(rt; matches!(folder.read_at("net", 0, &mut buf), Ok(0)));
    assert!(rt; matches!(folder.read_at("other", 0, &mut buf), Ok(0)));
    put_whole(&mut folder, "net", b"x")?;
    assert!(rt; folder.bytes("net").is_none());
    Ok(())
}

#[test]
fn a_quiet_folder_tells_nothing_after_another_file_is_started(
    rt: HostRuntime,
) -> Result<(), test::Fail> {
    let mut folder = quiet_folder(&rt)?;
    put_whole(&mut folder, "other", b"longer than any room")?;
    assert!(rt; folder.bytes("net").is_none());
    assert!(rt; read_whole(rt.alloc(), &mut folder, "other", 99)?.is_empty());
    Ok(())
}

#[test]
fn files_past_their_room_or_of_one_name_are_not_quiet(rt: HostRuntime) -> Result<(), test::Fail> {
    let rows: [(&[u8], &[u8], u32, bool); 4] = [
        (b"net", b"", 0, true),
        (b"net", b"abc", 3, true),
        (b"net", b"abc", 2, false),
        (b"sheet", b"", 8, false),
    ];
    for (name, bytes, room, quiet) in &rows {
        let first = quiet_file(&rt, name, bytes, *room)?;
        let second = quiet_file(&rt, b"sheet", b"", 8)?;
        let files = vec![in rt.alloc(); first, second]?;
        assert_eq!(rt; are_quiet(&files), *quiet);
    }
    Ok(())
}

#[test]
fn a_quiet_sink_tells_what_is_within_its_room(rt: HostRuntime) -> Result<(), test::Fail> {
    let mut out = QuietSink::new(rt.alloc(), 5)?;
    write_whole(&mut out, b"abc")?;
    write_whole(&mut out, b"de")?;
    assert_eq!(rt; out.bytes(), Some(b"abcde".as_slice()));
    assert!(rt; matches!(out.write(b"f"), Ok(1)));
    assert!(rt; out.bytes().is_none());
    write_whole(&mut out, b"")?;
    assert!(rt; out.bytes().is_none());
    Ok(())
}

#[test]
fn a_folder_of_the_disk_has_no_bytes_and_a_missing_file_is_missing(
    rt: HostRuntime,
) -> Result<(), test::Fail> {
    let mut folder = DiskFolder::new(&rt);
    let mut buf = [0; 4];
    assert!(rt; matches!(folder.read_at(".", 0, &mut buf), Err(ReadFail::Failed)));
    assert!(rt;
        matches!(
            folder.read_at("coord_io_none", 0, &mut buf),
            Err(ReadFail::Missing)
        )
    );
    assert!(rt;
        matches!(
            folder.read_at("coord_io_none/sheet", 0, &mut buf),
            Err(ReadFail::Missing)
        )
    );
    Ok(())
}

#[test]
fn a_file_of_the_disk_that_was_read_is_not_started(rt: HostRuntime) -> Result<(), test::Fail> {
    let mut folder = DiskFolder::new(&rt);
    let mut buf = [0; 8];
    put_whole(&mut folder, "coord_io_network", b"abcdef")?;
    fs::hard_link(&rt, "coord_io_network", "coord_io_hard")?;
    symlink(&rt, "coord_io_network", "coord_io_soft")?;
    assert!(rt; matches!(folder.read_at("coord_io_network", 0, &mut buf), Ok(6)));

    for name in &[
        "coord_io_network",
        "./coord_io_network",
        "coord_io_hard",
        "coord_io_soft",
    ] {
        assert!(rt; folder.start(name).is_err(), "{name}");
    }
    assert!(rt; matches!(folder.read_at("coord_io_hard", 0, &mut buf), Ok(6)));
    assert!(rt; folder.start("coord_io_sheet").is_ok());
    for name in &[
        "coord_io_soft",
        "coord_io_hard",
        "coord_io_network",
        "coord_io_sheet",
    ] {
        fs::remove_file(&rt, name)?;
    }
    Ok(())
}

#[test]
fn a_file_of_the_disk_is_not_started_under_two_names(rt: HostRuntime) -> Result<(), test::Fail> {
    let mut folder = DiskFolder::new(&rt);
    let mut buf = [0; 8];
    put_whole(&mut folder, "coord_io_cert", b"abcdef")?;
    fs::hard_link(&rt, "coord_io_cert", "coord_io_cert_hard")?;
    symlink(&rt, "coord_io_cert", "coord_io_cert_soft")?;
    for name in &[
        "./coord_io_cert",
        "coord_io_cert_hard",
        "coord_io_cert_soft",
    ] {
        assert!(rt; folder.start(name).is_err(), "{name}");
    }
    put_whole(&mut folder, "coord_io_cert", b"abc")?;
    assert!(rt; matches!(folder.read_at("coord_io_cert_soft", 0, &mut buf), Ok(3)));
    for name in &["coord_io_cert_soft", "coord_io_cert_hard", "coord_io_cert"] {
        fs::remove_file(&rt, name)?;
    }
    Ok(())
}

#[test]
fn after_a_fifth_file_was_read_none_is_started(rt: HostRuntime) -> Result<(), test::Fail> {
    let mut folder = DiskFolder::new(&rt);
    let mut buf = [0; 4];
    let rows = [
        ("coord_io_1", true),
        ("coord_io_2", true),
        ("coord_io_3", true),
        ("coord_io_4", true),
        ("coord_io_5", false),
    ];
    for (name, _) in &rows {
        put_whole(&mut folder, name, b"abc")?;
    }
    for (name, starts) in &rows {
        folder.read_at(name, 0, &mut buf)?;
        assert_eq!(rt; folder.start("coord_io_sixth").is_ok(), *starts, "{name}");
    }
    for (name, _) in &rows {
        fs::remove_file(&rt, name)?;
    }
    fs::remove_file(&rt, "coord_io_sixth")?;
    Ok(())
}
