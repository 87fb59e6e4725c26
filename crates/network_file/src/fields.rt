//! The values of a table, each read at its key.
ghost use Rattle.std.specs.Prelude.{◌≡◌, ◌<◌, false, option_map, string_bytes, IfOk};
ghost use Rattle.std.specs.List.{list_all};
ghost use Rattle.std.specs.Map.{keys_of};
ghost use Rattle.coord_model.specs.PartLimits.{IsBetween};
ghost use Rattle.coord_model.specs.Form.{is_custom};
ghost use Rattle.network_file.specs.Curves.{constants_at, is_custom_at, known_curve, relay_curve, KeepsCurve};
ghost use Rattle.network_file.specs.Tables.{only, is_word_of};
ghost use Rattle.network_file.specs.Values.{name_of, number_of, curve_of, name_at, number_at, number_or, curve_at};
ghost use Rattle.network_file.specs.Words.{word_of};
ghost use Rattle.toml.specs.Data.{get_member};
ghost use Rattle.toml.specs.View.{view, table_view};

use crate::fault::{NetFault, Place};
use crate::words::{curve_named, has_key, word};
use coord_model::limits::{
    GREATEST_CUSTOM_C, GREATEST_CUSTOM_H, GREATEST_CUSTOM_J, GREATEST_CUSTOM_K,
};
use coord_model::{CurveName, Key, Name, NetKind};
use toml::{Table, Value};

/// A table of the network file, and its place.
#[derive(Clone, Copy)]
pub(crate) struct Fields<'a> {
    pub table: &'a Table,
    pub place: Place,
}

impl<'a> Fields<'a> {
    /// Refuses a table that has another key than these, or one of them that the format lacks.
    #[tactic(auto, using(crate::proofs::KnownKeys::same_keys), unfolding(crate::specs::Tables::only))]
    pub(crate) fn only(self, format: u32, keys: &[Key]) -> Result<(), NetFault>
        ensures { result ≡ only format self.entry.place keys.now (table_view self.entry.table.now) }
    {
        if !has_only(self.table, format, keys) {
            return Err(self.place.whole_fault(NetKind::UnknownKey));
        }
        Ok(())
    }

    /// The name at a key.
    #[tactic(auto, unfolding(crate::specs::Values::name_at))]
    pub(crate) fn name(self, key: Key) -> Result<Name, NetFault>
        ensures { result ≡ name_at self.entry.place key (table_view self.entry.table.now) }
    {
        match member(self.table, key) {
            Some(value) => name_of(value, self.place, key),
            None => Err(self.place.fault(NetKind::Missing, key)),
        }
    }

    /// The number at a key, from `low` to `high`.
    #[tactic(auto, unfolding(crate::specs::Values::number_at))]
    pub(crate) fn number(self, key: Key, low: u32, high: u32) -> Result<u32, NetFault>
        ensures exact { result ≡ number_at self.entry.place key low high (table_view self.entry.table.now) }
        ensures between { IfOk result (λ n. IsBetween low n high) }
    {
        match member(self.table, key) {
            Some(value) => number_of(value, self.place, key, low, high),
            None => Err(self.place.fault(NetKind::Missing, key)),
        }
    }

    /// The number at a key, from `low` to `high`, or the default where the key isn't there.
    #[tactic(auto, unfolding(crate::specs::Values::number_or))]
    pub(crate) fn number_or(
        self,
        key: Key,
        default: u32,
        low: u32,
        high: u32,
    ) -> Result<u32, NetFault>
        requires { IsBetween low default high }
        ensures exact { result ≡ number_or self.entry.place key default low high (table_view self.entry.table.now) }
        ensures between { IfOk result (λ n. IsBetween low n high) }
    {
        match member(self.table, key) {
            Some(value) => number_of(value, self.place, key, low, high),
            None => Ok(default),
        }
    }

    /// Whether the relay's curve has constants of its own, and the format has such curves.
    pub(crate) fn is_custom(self, format: u32) -> bool
        ensures { result ≡ is_custom_at format (table_view self.entry.table.now) }
    {
        match member(self.table, Key::Curve) {
            Some(value) => value.as_str() == Some("custom") && format >= 4,
            None => false,
        }
    }

    /// Refuses a curve that is not there or that the format does not have.
    #[tactic(auto, unfolding(crate::specs::Curves::known_curve))]
    pub(crate) fn known_curve(self, format: u32) -> Result<(), NetFault>
        ensures { result ≡ known_curve format self.entry.place (table_view self.entry.table.now) }
    {
        if self.is_custom(format) {
            return Ok(());
        }
        let _curve = self.curve()?;
        Ok(())
    }

    /// The relay's curve, with its constants.
    #[tactic(auto, unfolding(crate::specs::Curves::relay_curve))]
    pub(crate) fn relay_curve(self, format: u32) -> Result<CurveName, NetFault>
        ensures exact { result ≡ relay_curve format self.entry.place (table_view self.entry.table.now) }
        ensures keeps { IfOk result KeepsCurve }
        ensures named { IfOk result (λ curve. format < 4 → is_custom curve ≡ false) }
    {
        if self.is_custom(format) {
            self.constants()
        } else {
            self.curve()
        }
    }

    /// The constants of a curve.
    #[tactic(auto, unfolding(crate::specs::Curves::constants_at))]
    fn constants(self) -> Result<CurveName, NetFault>
        ensures exact { result ≡ constants_at self.entry.place (table_view self.entry.table.now) }
        ensures keeps { IfOk result KeepsCurve }
    {
        Ok(CurveName::Custom {
            k4: self.number(Key::CustomK, 1, GREATEST_CUSTOM_K)?,
            c4: self.number(Key::CustomC, 0, GREATEST_CUSTOM_C)?,
            e: self.number(Key::CustomJ, 1, GREATEST_CUSTOM_J)?,
            h: self.number(Key::CustomH, 1, GREATEST_CUSTOM_H)?,
        })
    }

    /// The curve of the standards at the key curve.
    #[tactic(auto, unfolding(crate::specs::Values::curve_at))]
    fn curve(self) -> Result<CurveName, NetFault>
        ensures exact { result ≡ curve_at self.entry.place (table_view self.entry.table.now) }
        ensures named { IfOk result (λ curve. is_custom curve ≡ false) }
    {
        match member(self.table, Key::Curve) {
            Some(value) => curve_of(value, self.place),
            None => Err(self.place.fault(NetKind::Missing, Key::Curve)),
        }
    }
}

/// Whether each key of the table is one of the keys, and the format has it.
fn has_only(table: &Table, format: u32, keys: &[Key]) -> bool
    ensures { result ≡ list_all (λ text. is_word_of format keys.now (string_bytes text)) (keys_of table.now.entries) }
{
    for text in table.keys() {
        if !is_word_of(format, keys, text.as_str()) {
            return false;
        }
    }
    true
}

/// Whether the text is the word of one of the keys, and the format has it.
fn is_word_of(format: u32, keys: &[Key], text: &str) -> bool
    ensures { result ≡ is_word_of format keys.now text.now }
{
    keys.iter()
        .any(|key| has_key(format, *key) && text == word(*key))
}

/// The value at a key.
pub(crate) fn member(table: &Table, key: Key) -> Option<&Value>
    ensures { option_map (λ value. view value.now) result ≡ get_member (word_of key) (table_view table.now) }
{
    table.get(word(key))
}

#[tactic(auto, unfolding(crate::specs::Values::name_of))]
fn name_of(value: &Value, place: Place, key: Key) -> Result<Name, NetFault>
    ensures { result ≡ name_of place key (view value.now) }
{
    let Some(text) = value.as_str() else {
        return Err(place.fault(NetKind::WrongKind, key));
    };
    match Name::new(text.as_bytes()) {
        Some(name) => Ok(name),
        None => Err(place.fault(NetKind::OutOfRange, key)),
    }
}

#[tactic(auto, unfolding(crate::specs::Values::number_of))]
fn number_of(value: &Value, place: Place, key: Key, low: u32, high: u32) -> Result<u32, NetFault>
    ensures exact { result ≡ number_of place key low high (view value.now) }
    ensures between { IfOk result (λ n. IsBetween low n high) }
{
    let Some(number) = value.as_integer() else {
        return Err(place.fault(NetKind::WrongKind, key));
    };
    match u32::try_from(number) {
        Ok(number) if low <= number && number <= high => Ok(number),
        _ => Err(place.fault(NetKind::OutOfRange, key)),
    }
}

#[tactic(auto, unfolding(crate::specs::Values::curve_of))]
fn curve_of(value: &Value, place: Place) -> Result<CurveName, NetFault>
    ensures exact { result ≡ curve_of place (view value.now) }
    ensures named { IfOk result (λ curve. is_custom curve ≡ false) }
{
    let Some(text) = value.as_str() else {
        return Err(place.fault(NetKind::WrongKind, Key::Curve));
    };
    match curve_named(text) {
        Some(curve) => Ok(curve),
        None => Err(place.fault(NetKind::UnknownCurve, Key::Curve)),
    }
}
