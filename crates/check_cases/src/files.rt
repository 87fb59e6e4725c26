//! Certificates of studies that are worked out by hand, read whole and a byte at a time.
ghost use Rattle.std.specs.Prelude.{◌≡◌, None};

use cert_check::{CheckRefusal, Claim, ClaimKind, check};
use cert_text::CertKind;
use cert_tree::NodeKind;
use coord_io::{Failed, Folder, ReadFail};
use coord_model::{Ending, NoMemory, StudyHead};
use hand_studies::{Limits, parallel_lines, two_lines, two_pickups};
use margin_rows::{BuildFault, Instance};
use std::alloc::Global;
use std::process::Abort;

/// One file, which gives at most so many bytes at a time. It tells nothing.
#[derive(Drop)]
struct Drip<'a> {
    bytes: &'a [u8],
    most: usize,
    write_faults: u64,
}

impl<'a> Folder for Drip<'a> {
    ghost use Rattle.std.specs.Prelude.{None};

    ghost state = { λ s. record { files = None; reads = 0; writes = s.write_faults } };

    fn read_at(&mut self, _name: &str, place: u64, buf: &mut [u8]) -> Result<usize, ReadFail> {
        let from = self.bytes.len().min(place as usize);
        let left = &self.bytes[from..];
        let count = self.most.min(left.len()).min(buf.len());
        buf[..count].copy_from_slice(&left[..count]);
        Ok(count)
    }

    fn start(&mut self, _name: &str) -> Result<(), Failed> {
        self.write_faults = self.write_faults.saturating_add(1);
        Err(Failed)
    }

    fn append(&mut self, _name: &str, _piece: &[u8]) -> Result<usize, Failed> {
        self.write_faults = self.write_faults.saturating_add(1);
        Err(Failed)
    }
}

/// A file of one byte, again and again without an end. It tells nothing.
#[derive(Drop)]
struct Endless {
    write_faults: u64,
}

impl Folder for Endless {
    ghost use Rattle.std.specs.Prelude.{None};

    ghost state = { λ s. record { files = None; reads = 0; writes = s.write_faults } };

    fn read_at(&mut self, _name: &str, _place: u64, buf: &mut [u8]) -> Result<usize, ReadFail> {
        buf.fill(b'x');
        Ok(buf.len())
    }

    fn start(&mut self, _name: &str) -> Result<(), Failed> {
        self.write_faults = self.write_faults.saturating_add(1);
        Err(Failed)
    }

    fn append(&mut self, _name: &str, _piece: &[u8]) -> Result<usize, Failed> {
        self.write_faults = self.write_faults.saturating_add(1);
        Err(Failed)
    }
}

/// What is answered of a file that gives at most so many bytes at a time.
fn told(alloc: Global, inst: &Instance, bytes: &[u8], most: usize) -> Result<Claim, CheckRefusal> {
    let mut folder = Drip {
        bytes,
        most,
        write_faults: 0,
    };
    check(alloc, inst, &mut folder, "c")
}

/// A certificate, and what is answered of it.
type Row = (&'static [u8], Result<Claim, CheckRefusal>);

const NO_LIMITS: Limits = Limits {
    least_ms: 0,
    most_ms: 0,
};

const fn closed(boxes: u32, cost: u64) -> Result<Claim, CheckRefusal> {
    Ok(Claim {
        ending: Ending::Closed,
        gap: 1_000,
        budget: 20_000,
        boxes,
        bound: Some(cost),
        cost: Some(cost),
    })
}

const fn cert(line: u32, kind: CertKind) -> Result<Claim, CheckRefusal> {
    Err(CheckRefusal::Cert { line, kind })
}

const fn tree(number: u32, kind: NodeKind) -> Result<Claim, CheckRefusal> {
    Err(CheckRefusal::Tree { number, kind })
}

const NONE_CLAIMED: &[u8] =
    b"coord-certificate 1\nending no-settings\ngap 1000\nbudget 20000\nboxes 1\nbound none\ncost none\nsettings none\nE\nend\n";

const ONE_LEAF: &[u8] =
    b"coord-certificate 1\nending closed\ngap 1000\nbudget 20000\nboxes 1\nbound 262500\ncost 262500\nsettings 0:4 0:0\nB 1\nend\n";

/// A split and two leaves, of the study with two pickups.
const THREE_BOXES: &[u8] =
    b"coord-certificate 1\nending closed\ngap 1000\nbudget 20000\nboxes 3\nbound 262500\ncost 262500\nsettings 0:4 0:0\nS 0 0\nB 1\nB 1\nend\n";

/// Walks the rows, with each file whole and a byte at a time.
fn agree(rt: &(impl Abort + AllocGlobal), inst: &Instance, rows: &[Row]) {
    for (bytes, answer) in rows {
        assert!(rt; told(rt.alloc(), inst, bytes, 1) == *answer);
        assert!(rt; told(rt.alloc(), inst, bytes, 65_536) == *answer);
    }
}

// The cheapest dials are 0.250 and 0.050: 187.5 ms and 75 ms.
#[test]
fn one_leaf_is_accepted(rt: HostRuntime) -> Result<(), BuildFault> {
    let inst = two_lines(rt.alloc(), 20, 0, NO_LIMITS)?;
    let rows: &[Row] = &[
        (ONE_LEAF, closed(1, 262_500)),
        (NONE_CLAIMED, tree(1, NodeKind::NotEmpty)),
    ];
    agree(&rt, &inst, rows);
    Ok(())
}

// With dials up to 0.200 the first relay can't wait 300 ms for the second.
#[test]
fn no_settings_are_accepted(rt: HostRuntime) -> Result<(), BuildFault> {
    let inst = two_lines(rt.alloc(), 4, 0, NO_LIMITS)?;
    let claim = Claim {
        ending: Ending::NoSettings,
        gap: 1_000,
        budget: 20_000,
        boxes: 1,
        bound: None,
        cost: None,
    };
    agree(&rt, &inst, &[(NONE_CLAIMED, Ok(claim))]);
    Ok(())
}

// The rows weigh 648 ms together, and each relay's least part is 0: 648,000,000 us over lambda 3.
#[test]
fn a_leaf_with_weights_is_accepted(rt: HostRuntime) -> Result<(), BuildFault> {
    let inst = parallel_lines(rt.alloc(), 100)?;
    agree(
        &rt,
        &inst,
        &[(
            b"coord-certificate 1\nending closed\ngap 1000\nbudget 20000\nboxes 1\nbound 216000\ncost 216000\nsettings 1:15 1:15\nB 3 0:1 1:1\nend\n",
            closed(1, 216_000),
        )],
    );
    Ok(())
}

// Plug 1.00 gives 262,500 and plug 2.00 313,235. With row 0 at weight 1 the dual value of the first leaf is below 0.
#[test]
fn a_split_is_accepted_or_refused_at_its_place(rt: HostRuntime) -> Result<(), BuildFault> {
    let inst = two_pickups(rt.alloc())?;
    let bound = ClaimKind::Bound {
        printed: Some(262_500),
        found: Some(0),
    };
    let study = ClaimKind::Study {
        printed: Some(StudyHead {
            format: 3,
            relays: 2,
            rows: 1,
        }),
        found: StudyHead {
            format: 2,
            relays: 2,
            rows: 1,
        },
    };
    let rows: &[Row] = &[
        (THREE_BOXES, closed(3, 262_500)),
        (
            b"coord-certificate 2\nstudy 2 2 1\nending closed\ngap 1000\nbudget 20000\nboxes 3\nbound 262500\ncost 262500\nsettings 0:4 0:0\nS 0 0\nB 1\nB 1\nend\n",
            closed(3, 262_500),
        ),
        (
            b"coord-certificate 2\nstudy 3 2 1\nending closed\ngap 1000\nbudget 20000\nboxes 3\nbound 262500\ncost 262500\nsettings 0:4 0:0\nS 0 0\nB 1\nB 1\nend\n",
            Err(CheckRefusal::Claim(study)),
        ),
        (
            b"coord-certificate 1\nending closed\ngap 1000\nbudget 20000\nboxes 3\nbound 262500\ncost 262500\nsettings 0:4 0:0\nS 0 0\nB 1 0:1\nB 1\nend\n",
            Err(CheckRefusal::Claim(bound)),
        ),
        (
            b"coord-certificate 1\nending closed\ngap 1000\nbudget 20000\nboxes 3\nbound 262500\ncost 262500\nsettings 0:4 0:0\nS 0 0\nB 1\nend\n",
            cert(11, CertKind::Node),
        ),
        (
            b"coord-certificate 1\nending closed\ngap 1000\nbudget 20000\nboxes 3\nbound 262500\ncost 262500\nsettings 0:4 0:0\nS 0 1\nB 1\nB 1\nend\n",
            tree(1, NodeKind::SplitAt),
        ),
        (
            b"coord-certificate 1\nending closed\ngap 01000\nbudget 20000\nboxes 3\nbound 262500\ncost 262500\nsettings 0:4 0:0\nS 0 0\nB 1\nB 1\nend\n",
            cert(3, CertKind::Gap),
        ),
        (
            b"coord-certificate 1\nending closed\ngap 1000\nbudget 20000\nboxes 3\nbound 262500\ncost 262500\nsettings 0:4 0:0\nS 0 0\nB 1\nB 1\nend",
            cert(12, CertKind::End),
        ),
        (
            b"coord-certificate 1\nending closed\ngap 1000\nbudget 20000\nboxes 3\nbound 262500\ncost 262500\nsettings 0:4 0:0\nS 0 0\nB 1\nB 1\nend\nend\n",
            cert(13, CertKind::After),
        ),
        (
            b"coord-certificate 1\nending closed\ngap 1000\nbudget 20000\nboxes 3\nbound 262500\ncost 262500\nsettings 0:4 0:0\nB 1 0:1 0:1\nend\n",
            cert(9, CertKind::Node),
        ),
        (
            b"coord-certificate 1\nending closed\ngap 1000\nbudget 20000\nboxes 3\nbound 262500\ncost 262500\nsettings 0:4 0:0\nB 1 4000:1\nend\n",
            tree(1, NodeKind::RowNumber),
        ),
        (
            b"coord-certificate 1\nending closed\ngap 1000\nbudget 20000\nboxes 3\nbound 262500\ncost 262500\nsettings 0:4 0:0\nB 1 4000:1\nfin\n",
            cert(10, CertKind::End),
        ),
    ];
    agree(&rt, &inst, rows);
    Ok(())
}

/// The kinds of the lines of three boxes.
const KINDS: [CertKind; 12] = [
    CertKind::Format,
    CertKind::Ending,
    CertKind::Gap,
    CertKind::Budget,
    CertKind::Boxes,
    CertKind::Bound,
    CertKind::Cost,
    CertKind::Settings,
    CertKind::Node,
    CertKind::Node,
    CertKind::Node,
    CertKind::End,
];

#[test]
fn a_front_of_a_certificate_is_none(rt: HostRuntime) -> Result<(), BuildFault> {
    let inst = two_pickups(rt.alloc())?;
    for count in 0..THREE_BOXES.len() {
        let front = &THREE_BOXES[..count];
        let lines = front.iter().filter(|byte| **byte == b'\n').count();
        let answer = match KINDS.get(lines) {
            Some(kind) => cert(lines as u32 + 1, *kind),
            None => closed(3, 262_500),
        };
        assert!(rt; told(rt.alloc(), &inst, front, 65_536) == answer);
    }
    Ok(())
}

#[test]
fn a_file_without_an_end_is_too_long(rt: HostRuntime) -> Result<(), BuildFault> {
    let inst = two_pickups(rt.alloc())?;
    let mut folder = Endless { write_faults: 0 };
    let answer = check(rt.alloc(), &inst, &mut folder, "c");
    let limit = 536_870_912;
    assert!(rt; answer == Err(CheckRefusal::TooLong { limit }));
    Ok(())
}

/// A text with a line after it, as many times.
fn repeated(alloc: Global, head: &[u8], line: &[u8], times: u32) -> Result<Vec<u8>, NoMemory> {
    let mut bytes = Vec::from_slice(alloc, head)?;
    for _ in 0..times {
        bytes.extend_from_slice(line)?;
    }
    Ok(bytes)
}

// The second split is wrong already, and 3,073 splits can't stand on one path.
#[test]
fn a_bad_line_comes_before_a_wrong_node(rt: HostRuntime) -> Result<(), BuildFault> {
    let inst = two_pickups(rt.alloc())?;
    let head =
        b"coord-certificate 1\nending closed\ngap 1000\nbudget 20000\nboxes 3\nbound 262500\ncost 262500\nsettings 0:4 0:0\n";
    let bytes = repeated(rt.alloc(), head, b"S 0 0\n", 3_073)?;
    assert!(rt; told(rt.alloc(), &inst, &bytes, 65_536) == cert(3_081, CertKind::Node));
    Ok(())
}
