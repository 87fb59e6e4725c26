//! The words of keys and curves, and the format from which each key is there.
ghost use Rattle.std.specs.Prelude.{◌≡◌, false, IfSome};
ghost use Rattle.coord_model.specs.Form.{is_custom};
ghost use Rattle.network_file.specs.Words.{word_of, has_key, curve_named, curve_word};

use coord_model::{CurveName, Key};

/// The word of a key, as a network file and a fault's text spell it.
pub fn word(key: Key) -> &'static str
    ensures { result.now ≡ word_of key }
{
    match key {
        Key::Format => "format",
        Key::Study => "study",
        Key::Line => "line",
        Key::Relay => "relay",
        Key::Fault => "fault",
        Key::Exempt => "exempt",
        Key::Interval => "interval",
        Key::CtiMs => "cti_ms",
        Key::Sense => "sense",
        Key::Cap => "cap",
        Key::LoadPercent => "load_percent",
        Key::Name => "name",
        Key::From => "from",
        Key::To => "to",
        Key::Bus => "bus",
        Key::Curve => "curve",
        Key::CtPrimary => "ct_primary",
        Key::CtSecondary => "ct_secondary",
        Key::PlugFirst => "plug_first",
        Key::PlugStep => "plug_step",
        Key::PlugCount => "plug_count",
        Key::DialFirst => "dial_first",
        Key::DialStep => "dial_step",
        Key::DialCount => "dial_count",
        Key::LoadAmps => "load_amps",
        Key::LeastMs => "least_ms",
        Key::MostMs => "most_ms",
        Key::CustomK => "custom_k",
        Key::CustomC => "custom_c",
        Key::CustomJ => "custom_j",
        Key::CustomH => "custom_h",
        Key::Weight => "weight",
        Key::Backup => "backup",
        Key::Primary => "primary",
    }
}

/// Whether the format has the key.
pub(crate) fn has_key(format: u32, key: Key) -> bool
    ensures { result ≡ has_key format key }
{
    match key {
        Key::LeastMs | Key::MostMs => format >= 2,
        Key::Interval => format >= 3,
        Key::CustomK | Key::CustomC | Key::CustomJ | Key::CustomH => format >= 4,
        _ => true,
    }
}

/// The curve of the standards with this name.
#[tactic(auto, unfolding(crate::specs::Words::curve_named))]
pub(crate) fn curve_named(name: &str) -> Option<CurveName>
    ensures exact { result ≡ curve_named name.now }
    ensures named { IfSome result (λ curve. is_custom curve ≡ false) }
{
    match name {
        "iec-a" => Some(CurveName::IecA),
        "iec-b" => Some(CurveName::IecB),
        "iec-c" => Some(CurveName::IecC),
        "ieee-mi" => Some(CurveName::IeeeMi),
        "ieee-vi" => Some(CurveName::IeeeVi),
        "ieee-ei" => Some(CurveName::IeeeEi),
        _ => None,
    }
}

/// The name of a curve.
pub(crate) fn curve_word(curve: CurveName) -> &'static str
    ensures { result.now ≡ curve_word curve }
{
    match curve {
        CurveName::IecA => "iec-a",
        CurveName::IecB => "iec-b",
        CurveName::IecC => "iec-c",
        CurveName::IeeeMi => "ieee-mi",
        CurveName::IeeeVi => "ieee-vi",
        CurveName::IeeeEi => "ieee-ei",
        CurveName::Custom { .. } => "custom",
    }
}
