//! The two files that a coordination is worked out from, and the case that they make.
ghost use Rattle.std.specs.Prelude.{◌≡◌, ◌<◌, ◌≤◌, Some, ℕ, length, IfOk, IfErr};
ghost use Rattle.coord_io.specs.Files.{held};
ghost use Rattle.coord_model.specs.Limits.{FitsCurrents, FitsStudy};
ghost use Rattle.coord_model.specs.StudyData.{entries_of, study_data};
ghost use Rattle.coord_run.specs.Causes.{CaseCause, FileCause, InputsCause, IsTableRefusal, NetworkCause, TableCause, network_refusal};
ghost use Rattle.coord_run.specs.FileLimits.{most_bytes_of};
ghost use Rattle.coord_run.specs.Inputs.{AreInputs, IsNetwork, IsTable};
ghost use Rattle.coord_io.specs.Outside.{IsReadAlone, Told};
ghost use Rattle.coord_run.specs.Stops.{StopsFor};
ghost use Rattle.margin_rows.specs.Case.{FitsCase};

use crate::refusal::{File, Refusal, Stop};
use coord_io::{Folder, ReadRefusal, read_whole};
use coord_model::limits::{MOST_CERT_BYTES, MOST_FILE_BYTES, MOST_ROWS};
use coord_model::{Currents, Study, What};
use fault_table::{TableFault, read_currents};
use margin_rows::{BuildFault, Instance, build};
use network_file::{NetFault, read_network};
use std::alloc::Global;

/// The most bytes of a file.
pub fn most_bytes(file: File) -> u64
    ensures { result ≡ most_bytes_of file }
{
    match file {
        File::Network | File::Currents | File::Sheet => MOST_FILE_BYTES,
        File::Cert => MOST_CERT_BYTES,
    }
}

/// The instance of the study and its currents, read from their files.
pub fn read_case<F: Folder>(
    alloc: Global,
    folder: &mut F,
    network: &str,
    currents: &str,
) -> Result<Instance, Stop>
    ensures read { IfOk result (λ inst. Told (F.state folder.old) (F.state folder.new)
        (λ m. AreInputs m network.now currents.now inst.study inst.currents)) }
    ensures fits { IfOk result FitsCase }
    ensures stopped { IfErr result (λ stop. StopsFor stop (CaseCause (F.state folder.old) (F.state folder.new) network.now currents.now)) }
    ensures alone { IsReadAlone (F.state folder.old) (F.state folder.new) }
{
    let (study, currents) = read_inputs(alloc, folder, network, currents)?;
    match build(alloc, study, currents) {
        Ok(inst) => Ok(inst),
        Err(BuildFault::TooManyRows { .. }) => {
            Err(Stop::Refused(Refusal::TooMany {
                what: What::Rows,
                limit: MOST_ROWS,
            }))
        },
        Err(BuildFault::NoMemory) => Err(Stop::NoMemory),
    }
}

/// The study and its currents, read from their files.
fn read_inputs<F: Folder>(
    alloc: Global,
    folder: &mut F,
    network: &str,
    currents: &str,
) -> Result<(Study, Currents), Stop>
    ensures read { IfOk result (λ read. Told (F.state folder.old) (F.state folder.new)
        (λ m. AreInputs m network.now currents.now (study_data read.0) (entries_of read.1))) }
    ensures fits { IfOk result (λ read. FitsStudy (study_data read.0) × FitsCurrents (study_data read.0) (entries_of read.1)) }
    ensures stopped { IfErr result (λ stop. StopsFor stop (InputsCause (F.state folder.old) (F.state folder.new) network.now currents.now)) }
    ensures alone { IsReadAlone (F.state folder.old) (F.state folder.new) }
{
    let study = read_study(alloc, folder, network)?;
    let currents = read_table(alloc, folder, currents, &study)?;
    Ok((study, currents))
}

/// The study of the network file.
pub fn read_study<F: Folder>(alloc: Global, folder: &mut F, name: &str) -> Result<Study, Stop>
    ensures read { IfOk result (λ study. Told (F.state folder.old) (F.state folder.new) (λ m. IsNetwork m name.now (study_data study))) }
    ensures fits { IfOk result (λ study. FitsStudy (study_data study)) }
    ensures stopped { IfErr result (λ stop. StopsFor stop (NetworkCause (F.state folder.old) (F.state folder.new) name.now)) }
    ensures alone { IsReadAlone (F.state folder.old) (F.state folder.new) }
{
    let bytes = read_file(alloc, folder, name, File::Network)?;
    match read_network(alloc, bytes.as_slice()) {
        Ok(study) => Ok(study),
        Err(fault) => Err(network_stop(fault)),
    }
}

/// Why a fault of the network file stops the work.
fn network_stop(fault: NetFault) -> Stop
    ensures { StopsFor result (λ refusal. network_refusal fault ≡ Some refusal) }
{
    match fault {
        NetFault::NotText => Stop::Refused(Refusal::NotText),
        NetFault::NotToml => Stop::Refused(Refusal::NotToml),
        NetFault::At {
            kind,
            table,
            index,
            key,
        } => Stop::Refused(Refusal::Network {
            kind,
            table,
            index,
            key,
        }),
        NetFault::TooMany { what, limit } => Stop::Refused(Refusal::TooMany { what, limit }),
        NetFault::NoMemory => Stop::NoMemory,
    }
}

/// The currents of the currents table of a study.
fn read_table<F: Folder>(
    alloc: Global,
    folder: &mut F,
    name: &str,
    study: &Study,
) -> Result<Currents, Stop>
    requires { FitsStudy (study_data study.now) }
    ensures read { IfOk result (λ currents. Told (F.state folder.old) (F.state folder.new)
        (λ m. IsTable m name.now (study_data study.now) (entries_of currents))) }
    ensures fits { IfOk result (λ currents. FitsCurrents (study_data study.now) (entries_of currents)) }
    ensures stopped { IfErr result (λ stop. StopsFor stop (TableCause (F.state folder.old) (F.state folder.new) name.now (study_data study.now))) }
    ensures alone { IsReadAlone (F.state folder.old) (F.state folder.new) }
{
    let bytes = read_file(alloc, folder, name, File::Currents)?;
    match read_currents(alloc, study, bytes.as_slice()) {
        Ok(currents) => Ok(currents),
        Err(fault) => Err(table_stop(study, fault)),
    }
}

/// Why a fault of the currents table stops the work.
fn table_stop(study: &Study, fault: TableFault) -> Stop
    requires { (number : ℕ) → fault ≡ TableFault.NoPrimary number → number < length (study_data study.now).faults }
    ensures { StopsFor result (IsTableRefusal (study_data study.now) fault) }
{
    match fault {
        TableFault::BadHeader => Stop::Refused(Refusal::BadHeader),
        TableFault::BadRecord { n } => Stop::Refused(Refusal::BadRecord { n }),
        TableFault::UnknownFault { n } => Stop::Refused(Refusal::UnknownFault { n }),
        TableFault::UnknownRelay { n } => Stop::Refused(Refusal::UnknownRelay { n }),
        TableFault::BadAmps { n } => Stop::Refused(Refusal::BadAmps { n }),
        TableFault::DoubleEntry { n } => Stop::Refused(Refusal::DoubleEntry { n }),
        TableFault::TooMany { limit } => Stop::Refused(Refusal::TooMany {
            what: What::Currents,
            limit,
        }),
        TableFault::NoPrimary { fault } => {
            let fault = &study.faults[usize::from(fault)];
            Stop::Refused(Refusal::NoPrimary(fault.name))
        }
        TableFault::NoMemory => Stop::NoMemory,
    }
}

/// The bytes of a file, at most as many as it may have.
pub fn read_file<F: Folder>(
    alloc: Global,
    folder: &mut F,
    name: &str,
    file: File,
) -> Result<Vec<u8>, Stop>
    ensures within { IfOk result (λ bytes. length bytes.items ≤ most_bytes_of file) }
    ensures read { IfOk result (λ bytes. Told (F.state folder.old) (F.state folder.new) (λ m. held m name.now ≡ Some bytes.items)) }
    ensures stopped { IfErr result (λ stop. StopsFor stop (FileCause (F.state folder.old) (F.state folder.new) name.now file)) }
    ensures alone { IsReadAlone (F.state folder.old) (F.state folder.new) }
{
    match read_whole(alloc, folder, name, most_bytes(file)) {
        Ok(bytes) => Ok(bytes),
        Err(ReadRefusal::Missing) => Err(Stop::Refused(Refusal::Missing(file))),
        Err(ReadRefusal::Failed) => Err(Stop::Refused(Refusal::ReadFault(file))),
        Err(ReadRefusal::TooLong { .. }) => Err(Stop::Refused(Refusal::TooLong(file))),
        Err(ReadRefusal::NoMemory) => Err(Stop::NoMemory),
    }
}
