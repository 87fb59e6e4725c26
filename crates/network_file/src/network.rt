//! A network file as a study.
ghost use Rattle.std.specs.Prelude.{◌≡◌, IfOk};
ghost use Rattle.coord_model.specs.Limits.{FitsStudy};
ghost use Rattle.coord_model.specs.StudyData.{study_data};
ghost use Rattle.network_file.specs.Fault.{Gives, Reads};
ghost use Rattle.network_file.specs.Network.{text_of, document_of, network_of};
ghost use Rattle.network_file.specs.Rules.{IsNamed, IsInFormat};
ghost use Rattle.toml.specs.Errors.{IsMemory};
ghost use Rattle.toml.specs.View.{table_view};

use crate::fault::NetFault;
use crate::study::study_of;
use crate::told::told_in;
use coord_model::Study;
use std::alloc::Global;
use std::str;
use toml::Table;

/// The study that the bytes of a network file tell, or the first fault in them.
///
/// Buses are numbered by their first mention in the lines, `from` before `to`; lines, relays and faults by
/// their place in the file.
#[tactic(auto, unfolding(crate::specs::Network::network_of))]
pub fn read_network(alloc: Global, bytes: &[u8]) -> Result<Study, NetFault>
    // The study or the fault is that of the definition; want of memory alone may come at any bytes.
    ensures exact { Gives study_data result (network_of bytes.now) }
    ensures fits { IfOk result (λ study. FitsStudy (study_data study)) }
    ensures named { IfOk result (λ study. IsNamed (study_data study)) }
    ensures in_format { IfOk result (λ study. IsInFormat (study_data study)) }
{
    let text = text_of(bytes)?;
    let document = document_of(alloc, text)?;
    let told = told_in(alloc, &document)?;
    study_of(alloc, &told)
}

/// The bytes as text.
#[tactic(auto, using(crate::proofs::Utf8::is_text, crate::proofs::Utf8::is_no_text), unfolding(crate::specs::Network::text_of))]
fn text_of(bytes: &[u8]) -> Result<&str, NetFault>
    ensures { Reads (λ text. text.now) result (text_of bytes.now) }
{
    match str::from_utf8(bytes) {
        Ok(text) => Ok(text),
        Err(_) => Err(NetFault::NotText),
    }
}

/// The text as a TOML document.
fn document_of(alloc: Global, text: &str) -> Result<Table, NetFault>
    ensures { Gives table_view result (document_of text.now) }
{
    match toml::table_from_str(alloc, text) {
        Ok(document) => Ok(document),
        Err(error) => Err(refusal(error)),
    }
}

/// Why a document is refused: for want of memory, or for its text.
fn refusal(error: toml::de::Error) -> NetFault
    ensures memory { IsMemory error → result ≡ NetFault.NoMemory }
    ensures text { ¬ (IsMemory error) → result ≡ NetFault.NotToml }
{
    if error.is_memory() {
        NetFault::NoMemory
    } else {
        NetFault::NotToml
    }
}
