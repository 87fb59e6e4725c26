//! Certificates both ways, and where texts stop being one.
use cert_text::{CertKind, CertRefusal, cert_bytes, read_cert};
use coord_model::NoMemory;
use std::alloc::Global;

/// A certificate of one box.
const ONE_BOX: &[u8] = b"coord-certificate 1\nending closed\ngap 1000\nbudget 20000\nboxes 1\n\
    bound 262500\ncost 262500\nsettings 0:4 0:0\nB 1\nend\n";

/// A certificate whose first box is split.
const SPLIT: &[u8] = b"coord-certificate 1\nending closed\ngap 1000\nbudget 20000\nboxes 3\n\
    bound 262500\ncost 262500\nsettings 0:4 0:0\nS 0 0\nB 1\nB 1\nend\n";

/// A certificate with weights.
const WEIGHTS: &[u8] = b"coord-certificate 1\nending closed\ngap 1000\nbudget 20000\nboxes 1\n\
    bound 216000\ncost 216000\nsettings 1:15 1:15\nB 3 0:1 1:1\nend\n";

/// A certificate that names its study.
const WITH_STUDY: &[u8] =
    b"coord-certificate 2\nstudy 3 2 1\nending closed\ngap 1000\nbudget 20000\n\
    boxes 1\nbound 225000\ncost 225000\nsettings 0:3 0:0\nB 1\nend\n";

/// A certificate with each kind of node, splits below either half, and the largest numbers.
const EACH_NODE: &[u8] = b"coord-certificate 2\nstudy 4 96 4096\nending budget-spent\n\
    gap 1000000000000\nbudget 200000\nboxes 200000\nbound 9999999999999999\ncost none\n\
    settings none\nS 95 63\nS 0 0\nE\nV 0:1 4095:4294967295\nS 1 1\nH 4095\nS 2 2\n\
    B 4294967295\nO 1 7:9\nend\n";

/// A certificate without settings.
const NO_SETTINGS: &[u8] = b"coord-certificate 1\nending no-settings\ngap 1\nbudget 1\nboxes 1\n\
    bound none\ncost none\nsettings none\nE\nend\n";

/// The text of the certificate whose text this is.
fn again(alloc: Global, text: &[u8]) -> Result<Vec<u8>, CertRefusal> {
    let cert = read_cert(alloc, text)?;
    Ok(cert_bytes(alloc, &cert)?)
}

#[test]
fn prints_what_it_reads(rt: HostRuntime) -> Result<(), CertRefusal> {
    for text in &[ONE_BOX, SPLIT, WEIGHTS, WITH_STUDY, EACH_NODE, NO_SETTINGS] {
        let printed = again(rt.alloc(), text)?;
        assert!(rt; printed.as_slice() == *text);
    }
    Ok(())
}

/// Why the two texts together are no certificate.
fn stop(alloc: Global, front: &[u8], rest: &[u8]) -> Result<Option<CertRefusal>, NoMemory> {
    let mut text = Vec::from_slice(alloc, front)?;
    text.extend_from_slice(rest)?;
    Ok(read_cert(alloc, &text).err())
}

/// A text, the line at which it stops being a certificate, and what is due there.
type Row = (&'static [u8], u32, CertKind);

/// Texts that stop before the line of the boxes.
const HEADS: [Row; 16] = [
    (b"", 1, CertKind::Format),
    (b"coord-certificate 3\n", 1, CertKind::Format),
    (b"coord-certificate 1", 1, CertKind::Format),
    (b"coord-certificate 1\r\n", 1, CertKind::Format),
    (b"coord-certificate 2\nending closed\n", 2, CertKind::Study),
    (b"coord-certificate 2\nstudy 0 2 1\n", 2, CertKind::Study),
    (b"coord-certificate 2\nstudy 5 2 1\n", 2, CertKind::Study),
    (b"coord-certificate 2\nstudy 3 97 1\n", 2, CertKind::Study),
    (b"coord-certificate 2\nstudy 3 2 4097\n", 2, CertKind::Study),
    (b"coord-certificate 2\nstudy 3 2 1\n", 3, CertKind::Ending),
    (b"coord-certificate 1\nstudy 3 2 1\n", 2, CertKind::Ending),
    (b"coord-certificate 1\nending open\n", 2, CertKind::Ending),
    (
        b"coord-certificate 1\nending closed\ngap 01000\n",
        3,
        CertKind::Gap,
    ),
    (
        b"coord-certificate 1\nending closed\ngap 0\n",
        3,
        CertKind::Gap,
    ),
    (
        b"coord-certificate 1\nending closed\ngap 1000000000001\n",
        3,
        CertKind::Gap,
    ),
    (
        b"coord-certificate 1\nending closed\ngap 1\nbudget 200001\n",
        4,
        CertKind::Budget,
    ),
];

/// What follows `FRONT` in texts that stop before the nodes.
const CLAIMS: [Row; 9] = [
    (b"boxes 0\n", 5, CertKind::Boxes),
    (b"boxes 1\nbound none\n", 6, CertKind::Bound),
    (b"boxes 1\nbound 10000000000000000\n", 6, CertKind::Bound),
    (b"boxes 1\nbound 1\ncost none\n", 7, CertKind::Cost),
    (
        b"boxes 1\nbound 1\ncost 1\nsettings none\n",
        8,
        CertKind::Settings,
    ),
    (
        b"boxes 1\nbound 1\ncost 1\nsettings\n",
        8,
        CertKind::Settings,
    ),
    (
        b"boxes 1\nbound 1\ncost 1\nsettings 64:0\n",
        8,
        CertKind::Settings,
    ),
    (
        b"boxes 1\nbound 1\ncost 1\nsettings 0:4000\n",
        8,
        CertKind::Settings,
    ),
    (
        b"boxes 1\nbound 1\ncost 1\nsettings 0:0 \n",
        8,
        CertKind::Settings,
    ),
];

/// The lines before that of the boxes.
const FRONT: &[u8] = b"coord-certificate 1\nending closed\ngap 1000\nbudget 20000\n";

/// The lines before the nodes.
const HEAD: &[u8] = b"coord-certificate 1\nending closed\ngap 1000\nbudget 20000\nboxes 3\n\
    bound 262500\ncost 262500\nsettings 0:4 0:0\n";

/// What follows `HEAD` in texts that stop behind it.
const NODES: [Row; 21] = [
    (b"", 9, CertKind::Node),
    (b"B 1", 9, CertKind::Node),
    (b"end\n", 9, CertKind::Node),
    (b"V\n", 9, CertKind::Node),
    (b"V 1:1 0:1\n", 9, CertKind::Node),
    (b"V 0:1 0:1\n", 9, CertKind::Node),
    (b"V 0:0\n", 9, CertKind::Node),
    (b"V 0:4294967296\n", 9, CertKind::Node),
    (b"V 4096:1\n", 9, CertKind::Node),
    (b"B 0\n", 9, CertKind::Node),
    (b"B 01\n", 9, CertKind::Node),
    (b"S 96 0\n", 9, CertKind::Node),
    (b"S 0 64\n", 9, CertKind::Node),
    (b"H 4096\n", 9, CertKind::Node),
    (b"E \n", 9, CertKind::Node),
    (b"S 0 0\nE\n", 11, CertKind::Node),
    (b"B 1\nB 1\n", 10, CertKind::End),
    (b"B 1\n", 10, CertKind::End),
    (b"B 1\nend", 10, CertKind::End),
    (b"B 1\nend\nend\n", 11, CertKind::After),
    (b"B 1\nend\n ", 11, CertKind::After),
];

#[test]
fn names_the_first_line_that_stops(rt: HostRuntime) -> Result<(), NoMemory> {
    for (front, rows) in [
        (b"".as_slice(), HEADS.as_slice()),
        (FRONT, &CLAIMS),
        (HEAD, &NODES),
    ] {
        for (rest, line, kind) in rows {
            let (line, kind) = (*line, *kind);
            assert_eq!(rt;
                stop(rt.alloc(), front, rest)?,
                Some(CertRefusal::Fault { line, kind })
            );
        }
    }
    Ok(())
}

/// A leaf with 64 weights.
const MOST_WEIGHTS: &[u8] =
    b"V 0:1 1:1 2:1 3:1 4:1 5:1 6:1 7:1 8:1 9:1 10:1 11:1 12:1 13:1 14:1 15:1 16:1 17:1 18:1 19:1 \
    20:1 21:1 22:1 23:1 24:1 25:1 26:1 27:1 28:1 29:1 30:1 31:1 32:1 33:1 34:1 35:1 36:1 37:1 38:1 \
    39:1 40:1 41:1 42:1 43:1 44:1 45:1 46:1 47:1 48:1 49:1 50:1 51:1 52:1 53:1 54:1 55:1 56:1 57:1 \
    58:1 59:1 60:1 61:1 62:1 63:1";

#[test]
fn takes_64_weights(rt: HostRuntime) -> Result<(), NoMemory> {
    let mut text = Vec::from_slice(rt.alloc(), HEAD)?;
    text.extend_from_slice(MOST_WEIGHTS)?;
    assert_eq!(rt; stop(rt.alloc(), &text, b"\nend\n")?, None);
    let (line, kind) = (9, CertKind::Node);
    assert_eq!(rt;
        stop(rt.alloc(), &text, b" 64:1\nend\n")?,
        Some(CertRefusal::Fault { line, kind })
    );
    Ok(())
}

/// A certificate whose tree has splits below one another, each with an empty high half.
fn with_splits(alloc: Global, count: u32) -> Result<Vec<u8>, NoMemory> {
    let mut text = Vec::from_slice(alloc, HEAD)?;
    push_lines(&mut text, b"S 0 0\n", count)?;
    push_lines(&mut text, b"E\n", count)?;
    text.extend_from_slice(b"E\nend\n")?;
    Ok(text)
}

/// Adds lines several times.
fn push_lines(text: &mut Vec<u8>, lines: &[u8], count: u32) -> Result<(), NoMemory> {
    for _ in 0..count {
        text.extend_from_slice(lines)?;
    }
    Ok(())
}

#[test]
fn takes_3072_splits_on_a_path(rt: HostRuntime) -> Result<(), NoMemory> {
    assert_eq!(rt;
        stop(rt.alloc(), &with_splits(rt.alloc(), 3072)?, b"")?,
        None
    );
    let (line, kind) = (3081, CertKind::Node);
    assert_eq!(rt;
        stop(rt.alloc(), &with_splits(rt.alloc(), 3073)?, b"")?,
        Some(CertRefusal::Fault { line, kind })
    );
    Ok(())
}

/// The lines of a tree with this many splits above each leaf.
fn full_tree(alloc: Global, height: u32) -> Result<Vec<u8>, NoMemory> {
    let mut tree = Vec::from_slice(alloc, b"E\n")?;
    for _ in 0..height {
        let mut next = Vec::from_slice(alloc, b"S 0 0\n")?;
        next.extend_from_slice(&tree)?;
        next.extend_from_slice(&tree)?;
        tree = next;
    }
    Ok(tree)
}

/// A certificate of 399,873 nodes, and of two more for each of `more`.
fn with_nodes(alloc: Global, more: u32) -> Result<Vec<u8>, NoMemory> {
    let mut text = Vec::from_slice(alloc, HEAD)?;
    let mut part = Vec::from_slice(alloc, b"S 0 0\n")?;
    part.extend_from_slice(&full_tree(alloc, 7)?)?;
    push_lines(&mut text, &part, 1562)?;
    push_lines(&mut text, b"S 0 0\nE\n", more)?;
    text.extend_from_slice(b"E\nend\n")?;
    Ok(text)
}

#[test]
fn takes_400001_nodes(rt: HostRuntime) -> Result<(), NoMemory> {
    assert_eq!(rt; stop(rt.alloc(), &with_nodes(rt.alloc(), 64)?, b"")?, None);
    let (line, kind) = (400_009, CertKind::Node);
    assert_eq!(rt;
        stop(rt.alloc(), &with_nodes(rt.alloc(), 65)?, b"")?,
        Some(CertRefusal::Fault { line, kind })
    );
    Ok(())
}

#[test]
fn refuses_a_line_above_2048_bytes(rt: HostRuntime) -> Result<(), NoMemory> {
    let (line, kind) = (9, CertKind::Node);
    assert_eq!(rt;
        stop(rt.alloc(), HEAD, &[b'1'; 2100])?,
        Some(CertRefusal::Fault { line, kind })
    );
    Ok(())
}

/// What stands at the lines of `SPLIT`.
const KINDS: [CertKind; 12] = [
    CertKind::Format,
    CertKind::Ending,
    CertKind::Gap,
    CertKind::Budget,
    CertKind::Boxes,
    CertKind::Bound,
    CertKind::Cost,
    CertKind::Settings,
    CertKind::Node,
    CertKind::Node,
    CertKind::Node,
    CertKind::End,
];

#[test]
fn names_the_line_at_which_a_text_is_cut(rt: HostRuntime) {
    let mut line = 1;
    for cut in 0..SPLIT.len() {
        let kind = KINDS[line - 1];
        assert_eq!(rt;
            read_cert(rt.alloc(), &SPLIT[..cut]).err(),
            Some(CertRefusal::Fault {
                line: line as u32,
                kind
            })
        );
        if SPLIT[cut] == b'\n' && line < KINDS.len() {
            line += 1;
        }
    }
}
