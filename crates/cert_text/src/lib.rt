//! Certificates as texts: read and printed, whole or a line at a time.
//!
//! Costs, bounds and gaps are in weighted microseconds; nodes stand in pre-order, one a line.
#![tactic(auto)]

mod dues;
mod growth;
mod head;
mod kinds;
mod lines;
mod nodes;
mod numbers;
mod printer;
mod reading;
mod refusal;
mod scan;
mod settings;
mod text;
mod tree;

pub use kinds::{CertHead, CertItem, CertKind};
pub use printer::CertPrinter;
pub use reading::read_cert;
pub use refusal::CertRefusal;
pub use scan::CertScan;
pub use text::{cert_bytes, each_text_fits};
