//! Tables of the network file, made key by key.
ghost use Rattle.std.specs.Prelude.{◌≡◌, pos, OnOk};
ghost use Rattle.coord_model.specs.Name.{IsName};
ghost use Rattle.network_file.specs.Printed.{put, put_known, with_constants};
ghost use Rattle.coord_model.specs.declared.kinds.Key.TheVariants.{Curve};
ghost use Rattle.network_file.specs.Words.{word_of, curve_word};
ghost use Rattle.toml.specs.Data.{no_members, string, integer};
ghost use Rattle.toml.specs.View.{view, table_view};

use crate::words::{curve_word, has_key, word};
use coord_model::{CurveName, Key, Name};
use std::alloc::{AllocError, Global};
use std::str;
use toml::{Table, Value};

/// A table that is made key by key.
#[derive(Drop)]
pub(crate) struct NewTable {
    alloc: Global,
    table: Table,
}

impl NewTable {
    /// A table without keys.
    pub(crate) fn new(alloc: Global) -> NewTable
        ensures { table_view result.table ≡ no_members }
    {
        NewTable {
            alloc,
            table: Table::new(alloc),
        }
    }

    /// Puts a value at a key.
    pub(crate) fn put(&mut self, key: Key, value: Value) -> Result<(), AllocError>
        ensures { OnOk result (table_view self.new.table ≡ put (word_of key) (view value) (table_view self.old.table)) }
    {
        let word = String::from_str(self.alloc, word(key))?;
        let _ = self.table.insert(word, value)?;
        Ok(())
    }

    /// Puts a value at a key, if the format has the key.
    pub(crate) fn put_known(
        &mut self,
        format: u32,
        key: Key,
        value: Value,
    ) -> Result<(), AllocError>
        ensures { OnOk result (table_view self.new.table ≡ put_known format key (view value) (table_view self.old.table)) }
    {
        if !has_key(format, key) {
            return Ok(());
        }
        self.put(key, value)
    }

    /// Puts a name at a key.
    pub(crate) fn name(&mut self, key: Key, name: Name) -> Result<(), AllocError>
        ensures put { OnOk result (table_view self.new.table ≡ put (word_of key) (string name) (table_view self.old.table)) }
        ensures name { IsName name }
    {
        let value = Value::string(self.alloc, text_of(&name))?;
        self.put(key, value)
    }

    /// Puts a number at a key.
    pub(crate) fn number(&mut self, key: Key, number: u32) -> Result<(), AllocError>
        ensures { OnOk result (table_view self.new.table ≡ put (word_of key) (integer (pos number)) (table_view self.old.table)) }
    {
        self.put(key, Value::from(number))
    }

    /// Puts a curve at the key curve.
    pub(crate) fn curve(&mut self, curve: CurveName) -> Result<(), AllocError>
        ensures { OnOk result (table_view self.new.table ≡ put (word_of Curve) (string (curve_word curve)) (table_view self.old.table)) }
    {
        let value = Value::string(self.alloc, curve_word(curve))?;
        self.put(Key::Curve, value)
    }

    /// Puts the constants of a curve that has its own, if the format has such curves.
    pub(crate) fn constants(&mut self, format: u32, curve: CurveName) -> Result<(), AllocError>
        ensures { OnOk result (table_view self.new.table ≡ with_constants format curve (table_view self.old.table)) }
    {
        let CurveName::Custom { k4, c4, e, h } = curve else {
            return Ok(());
        };
        self.put_known(format, Key::CustomK, Value::from(k4))?;
        self.put_known(format, Key::CustomC, Value::from(c4))?;
        self.put_known(format, Key::CustomJ, Value::from(e))?;
        self.put_known(format, Key::CustomH, Value::from(h))
    }

    /// The table.
    pub(crate) fn done(self) -> Table
        ensures { result ≡ self.table }
    {
        self.table
    }
}

/// The text of a name.
#[tactic(auto, using(crate::proofs::NameText::name_is_text))]
fn text_of(name: &Name) -> &str
    ensures text { result.now ≡ name.now }
    ensures name { IsName name.now }
{
    match str::from_utf8(name.bytes()) {
        Ok(text) => text,
        Err(_) => unreachable!(),
    }
}
