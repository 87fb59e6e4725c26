//! How every command ends: it hands over what came of its work.
ghost use Rattle.std.specs.Prelude.{◌≡◌, Some, IfOk, IfErr, OnOk};
ghost use Rattle.coord_run.specs.End.{AreWritten};
ghost use Rattle.coord_run.specs.Handing.{AreWritable, Delivers, HandsOver, IsUnwritten, IsWritable, both_texts};
ghost use Rattle.coord_run.specs.Names.{names_data};

use crate::pieces::put_lines;
use crate::printing::{print, refuse};
use crate::refusal::Stop;
use crate::refusal_line::refusal_line;
use crate::status::{NO_MEMORY, WRITE_FAULT, refusal_status};
use crate::words::Names;
use cert_text::CertPrinter;
use coord_io::{Failed, Folder, PIECE, Sink, put_whole};
use coord_model::Cert;
use std::alloc::Global;

/// A file to be written, with the line for the case that writing it fails.
#[derive(Drop)]
pub struct NewFile<'a> {
    pub name: &'a str,
    pub text: Vec<u8>,
    pub fault_line: Vec<u8>,
}

/// A certificate to be written, with the line for the case that writing it fails.
#[derive(Drop)]
pub struct NewCert<'a> {
    pub name: &'a str,
    pub cert: Cert,
    pub fault_line: Vec<u8>,
}

/// The files that `solve` writes, in this order.
#[derive(Drop)]
pub struct NewFiles<'a> {
    pub cert: NewCert<'a>,
    pub sheet: NewFile<'a>,
}

/// What a command hands over: files, if it writes any, and the report with its status.
#[derive(Drop)]
pub struct Output<'a> {
    pub files: Option<NewFiles<'a>>,
    pub report: Vec<u8>,
    pub status: u8,
}

/// Why files were not written.
#[derive(Clone, Copy)]
enum Unwritten {
    /// Memory ran out before the certificate was started.
    NoMemory,
    /// Writing the certificate failed.
    Cert,
    /// Writing the sheet failed, after the certificate was whole.
    Sheet,
}

/// Writes the files and prints the report, or prints the line of a refusal. The answer is the status.
pub fn hand_over<F: Folder, K: Sink>(
    alloc: Global,
    folder: &mut F,
    out: &mut K,
    names: &Names<'_>,
    work: Result<Output<'_>, Stop>,
) -> u8
    requires { IfOk work IsWritable }
    ensures { HandsOver (names_data names.now) work.entry (F.state folder.old) (F.state folder.new)
        (K.state out.old) (K.state out.new) result }
{
    match work {
        Ok(output) => deliver(alloc, folder, out, &output),
        Err(Stop::Refused(refusal)) => {
            let line = refusal_line(alloc, names, &refusal);
            refuse(out, line, refusal_status(&refusal))
        }
        Err(Stop::NoMemory) => NO_MEMORY,
    }
}

/// Writes the files and prints the report, or the line of a write fault.
fn deliver<F: Folder, K: Sink>(
    alloc: Global,
    folder: &mut F,
    out: &mut K,
    output: &Output<'_>,
) -> u8
    requires { IsWritable output.now }
    ensures { Delivers output.now (F.state folder.old) (F.state folder.new) (K.state out.old) (K.state out.new) result }
{
    let Some(files) = &output.files else {
        return print(out, &output.report, output.status);
    };
    match put_files(alloc, folder, files) {
        Ok(()) => print(out, &output.report, output.status),
        Err(Unwritten::Cert) => print(out, &files.cert.fault_line, WRITE_FAULT),
        Err(Unwritten::Sheet) => print(out, &files.sheet.fault_line, WRITE_FAULT),
        Err(Unwritten::NoMemory) => NO_MEMORY,
    }
}

/// Writes the certificate whole, and then the sheet. All memory is taken before the certificate is started.
fn put_files<F: Folder>(
    alloc: Global,
    folder: &mut F,
    files: &NewFiles<'_>,
) -> Result<(), Unwritten>
    requires { AreWritable files.now }
    ensures written { OnOk result (AreWritten (both_texts files.now) (F.state folder.old) (F.state folder.new)) }
    ensures unwritten { IfErr result (IsUnwritten files.now (F.state folder.old) (F.state folder.new)) }
{
    let Ok(mut printer) = CertPrinter::new(alloc, &files.cert.cert) else {
        return Err(Unwritten::NoMemory);
    };
    let Ok(mut room) = Vec::with_capacity(alloc, PIECE) else {
        return Err(Unwritten::NoMemory);
    };
    let Ok(()) = put_lines(folder, files.cert.name, &mut printer, &mut room) else {
        return Err(Unwritten::Cert);
    };
    match put_whole(folder, files.sheet.name, &files.sheet.text) {
        Ok(()) => Ok(()),
        Err(Failed) => Err(Unwritten::Sheet),
    }
}
