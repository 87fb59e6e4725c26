//! Certificates printed, whole and line by line.
ghost use Rattle.std.specs.Prelude.{◌≡◌, [], ◌∷◌, IfOk};
ghost use Rattle.coord_model.specs.Tree.{bound, shape};
ghost use Rattle.cert_text.specs.CertData.{IsCert, cert_data};

use cert_text::{CertPrinter, cert_bytes};
use coord_model::{Cert, Choice, Ending, NoMemory, Node, Weights};
use std::alloc::Global;
use std::boxed::Box;

/// Whether the certificate's lines with their line feeds are these, and no more.
fn prints(alloc: Global, cert: &Cert, lines: &[&[u8]]) -> Result<bool, NoMemory>
    requires { IsCert (cert_data cert.now) }
{
    let mut printer = CertPrinter::new(alloc, cert)?;
    for i in 0..lines.len() {
        if !printer.next() {
            return Ok(false);
        }
        if printer.piece() != lines[i] {
            return Ok(false);
        }
    }
    Ok(!printer.next())
}

/// The settings of two relays, whose first dial is on step 4.
fn settings(alloc: Global) -> Result<Choice, NoMemory>
    ensures { IfOk result (λ choice. (choice.pickup.items ≡ 0 ∷ 0 ∷ []) × (choice.dial.items ≡ 4 ∷ 0 ∷ [])) }
{
    let pickup = vec![in alloc; 0; 2]?;
    let mut dial = vec![in alloc; 0; 2]?;
    dial[0] = 4;
    Ok(Choice { pickup, dial })
}

/// A leaf with the bound of the least cost.
fn leaf(alloc: Global) -> Node
    ensures { shape result ≡ bound 1 [] }
{
    Node::Bound(Weights {
        lambda: 1,
        rows: Vec::new(alloc),
    })
}

/// A certificate of two relays whose first box was split over two leaves.
fn split_once(alloc: Global) -> Result<Cert, NoMemory>
    ensures { IfOk result (λ cert. IsCert (cert_data cert)) }
{
    Ok(Cert {
        study: None,
        ending: Ending::Closed,
        gap: 1000,
        budget: 20_000,
        boxes: 3,
        bound: Some(262_500),
        cost: Some(262_500),
        choice: Some(settings(alloc)?),
        tree: Node::Split {
            relay: 0,
            at: 0,
            low: Box::new(alloc, leaf(alloc))?,
            high: Box::new(alloc, leaf(alloc))?,
        },
    })
}

#[test]
fn prints_a_certificate(rt: HostRuntime) -> Result<(), NoMemory> {
    let cert = split_once(rt.alloc())?;
    let lines: [&[u8]; 12] = [
        b"coord-certificate 1\n",
        b"ending closed\n",
        b"gap 1000\n",
        b"budget 20000\n",
        b"boxes 3\n",
        b"bound 262500\n",
        b"cost 262500\n",
        b"settings 0:4 0:0\n",
        b"S 0 0\n",
        b"B 1\n",
        b"B 1\n",
        b"end\n",
    ];
    assert!(rt; prints(rt.alloc(), &cert, &lines)?);
    let text = cert_bytes(rt.alloc(), &cert)?;
    assert_eq!(rt;
        text.as_slice(),
        b"coord-certificate 1\nending closed\ngap 1000\nbudget 20000\nboxes 3\nbound 262500\n\
          cost 262500\nsettings 0:4 0:0\nS 0 0\nB 1\nB 1\nend\n"
            .as_slice()
    );
    Ok(())
}
