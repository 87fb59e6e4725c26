//! The tables of the network file as they are told, with names where a study has numbers.
ghost use Rattle.std.specs.Prelude.{◌≡◌, ◌⊎◌, ℕ, Result, IfOk};
ghost use Rattle.network_file.specs.Entries.{study_entry, line_entry, fault_entry, exempt_entry, interval_entry};
ghost use Rattle.network_file.specs.RelayEntries.{keys_of_relay, secondary_at, relay_entry};
ghost use Rattle.network_file.specs.Curves.{is_custom_at};
ghost use Rattle.network_file.specs.Tables.{only};
ghost use Rattle.network_file.specs.EntryLimits.{StudyKeeps, LineKeeps, RelaySuits, FaultKeeps, ExemptKeeps, IntervalKeeps};
ghost use Rattle.network_file.specs.declared.fault.NetFault.{NetFault};
ghost use Rattle.network_file.specs.declared.fault.Place.{Place};
ghost use Rattle.network_file.specs.Printed.{ReadsAs, IsPlain};
ghost use Rattle.toml.specs.Data.{Members};
ghost use Rattle.toml.specs.View.{table_view};

use crate::fault::NetFault;
use crate::fields::Fields;
use crate::new_table::NewTable;
use coord_model::limits::{
    GREATEST_AMPS, GREATEST_CAP, GREATEST_CT_PRIMARY, GREATEST_DIAL, GREATEST_FAULT_WEIGHT,
    GREATEST_INTERVAL, GREATEST_LEAST_MS, GREATEST_LOAD_PERCENT, GREATEST_MOST_MS, GREATEST_PLUG,
    GREATEST_SENSE, LEAST_CAP, LEAST_LOAD_PERCENT, LEAST_SENSE, MOST_DIALS, MOST_PLUGS,
};
use coord_model::{CurveName, Key, Name, NetKind};
use std::alloc::{AllocError, Global};
use toml::{Table, Value};

/// A table that is read key by key.
pub(crate) trait Entry: Copy {
    /// What it is read as, by the file's format, its place and its members.
    ghost entry_of: { ℕ → Place → Members → Result Self NetFault };

    /// Its numbers are within their limits, by the file's format.
    ghost Keeps: { ℕ → Self → Type 0 };

    fn read(format: u32, fields: Fields) -> Result<Self, NetFault>
        ensures exact { result ≡ entry_of format fields.entry.place (table_view fields.entry.table.now) }
        ensures keeps { IfOk result (Keeps format) };

    /// A table that reads as the entry, with each of its keys that the format has.
    fn table(&self, alloc: Global, format: u32) -> Result<Table, AllocError>
        requires { Keeps format self.now }
        ensures reads { IfOk result (λ table. ReadsAs (entry_of format) (table_view table) self.now) }
        ensures plain { IfOk result (λ table. IsPlain 0 (table_view table)) };
}

/// The study, in the units of `Study`.
#[derive(Clone, Copy)]
pub(crate) struct StudyEntry {
    pub cti_ms: u32,
    pub sense: u32,
    pub cap: u32,
    pub load_percent: u32,
}

/// A line between two buses.
#[derive(Clone, Copy)]
pub(crate) struct LineEntry {
    pub name: Name,
    pub from: Name,
    pub to: Name,
}

/// A relay, in the units of `Relay`.
#[derive(Clone, Copy)]
pub(crate) struct RelayEntry {
    pub name: Name,
    pub line: Name,
    pub bus: Name,
    pub curve: CurveName,
    pub ct_primary: u32,
    pub ct_secondary: u32,
    pub plug_first: u32,
    pub plug_step: u32,
    pub plug_count: u32,
    pub dial_first: u32,
    pub dial_step: u32,
    pub dial_count: u32,
    pub load_amps: u32,
    pub least_ms: u32,
    pub most_ms: u32,
}

/// A fault on a line.
#[derive(Clone, Copy)]
pub(crate) struct FaultEntry {
    pub name: Name,
    pub line: Name,
    pub weight: u32,
}

/// A pair of relays that needs no coordination.
#[derive(Clone, Copy)]
pub(crate) struct ExemptEntry {
    pub backup: Name,
    pub primary: Name,
}

/// A pair's own coordination interval, in milliseconds.
#[derive(Clone, Copy)]
pub(crate) struct IntervalEntry {
    pub backup: Name,
    pub primary: Name,
    pub cti_ms: u32,
}

impl Entry for StudyEntry {
    ghost entry_of = { study_entry };

    ghost Keeps = { λ format. StudyKeeps };

    #[tactic(auto, unfolding(crate::specs::Entries::study_entry))]
    fn read(format: u32, fields: Fields) -> Result<StudyEntry, NetFault> {
        fields.only(
            format,
            &[Key::CtiMs, Key::Sense, Key::Cap, Key::LoadPercent],
        )?;
        Ok(StudyEntry {
            cti_ms: fields.number(Key::CtiMs, 1, GREATEST_INTERVAL)?,
            sense: fields.number_or(Key::Sense, 110, LEAST_SENSE, GREATEST_SENSE)?,
            cap: fields.number_or(Key::Cap, 20, LEAST_CAP, GREATEST_CAP)?,
            load_percent: fields.number_or(
                Key::LoadPercent,
                120,
                LEAST_LOAD_PERCENT,
                GREATEST_LOAD_PERCENT,
            )?,
        })
    }

    fn table(&self, alloc: Global, _format: u32) -> Result<Table, AllocError> {
        let mut table = NewTable::new(alloc);
        table.number(Key::CtiMs, self.cti_ms)?;
        table.number(Key::Sense, self.sense)?;
        table.number(Key::Cap, self.cap)?;
        table.number(Key::LoadPercent, self.load_percent)?;
        Ok(table.done())
    }
}

impl Entry for LineEntry {
    ghost entry_of = { line_entry };

    ghost Keeps = { λ format. LineKeeps };

    #[tactic(auto, unfolding(crate::specs::Entries::line_entry))]
    fn read(format: u32, fields: Fields) -> Result<LineEntry, NetFault> {
        fields.only(format, &[Key::Name, Key::From, Key::To])?;
        Ok(LineEntry {
            name: fields.name(Key::Name)?,
            from: fields.name(Key::From)?,
            to: fields.name(Key::To)?,
        })
    }

    fn table(&self, alloc: Global, _format: u32) -> Result<Table, AllocError> {
        let mut table = NewTable::new(alloc);
        table.name(Key::Name, self.name)?;
        table.name(Key::From, self.from)?;
        table.name(Key::To, self.to)?;
        Ok(table.done())
    }
}

impl Entry for RelayEntry {
    ghost entry_of = { relay_entry };

    ghost Keeps = { RelaySuits };

    #[tactic(auto, unfolding(crate::specs::RelayEntries::relay_entry))]
    fn read(format: u32, fields: Fields) -> Result<RelayEntry, NetFault> {
        only_relay(fields, format)?;
        let name = fields.name(Key::Name)?;
        let line = fields.name(Key::Line)?;
        let bus = fields.name(Key::Bus)?;
        fields.known_curve(format)?;
        Ok(RelayEntry {
            name,
            line,
            bus,
            ct_primary: fields.number(Key::CtPrimary, 1, GREATEST_CT_PRIMARY)?,
            ct_secondary: secondary(fields)?,
            plug_first: fields.number(Key::PlugFirst, 1, GREATEST_PLUG)?,
            plug_step: fields.number_or(Key::PlugStep, 1, 1, GREATEST_PLUG)?,
            plug_count: fields.number_or(Key::PlugCount, 1, 1, MOST_PLUGS)?,
            dial_first: fields.number(Key::DialFirst, 1, GREATEST_DIAL)?,
            dial_step: fields.number_or(Key::DialStep, 1, 1, GREATEST_DIAL)?,
            dial_count: fields.number_or(Key::DialCount, 1, 1, MOST_DIALS)?,
            load_amps: fields.number_or(Key::LoadAmps, 0, 0, GREATEST_AMPS)?,
            least_ms: fields.number_or(Key::LeastMs, 0, 0, GREATEST_LEAST_MS)?,
            most_ms: fields.number_or(Key::MostMs, 0, 0, GREATEST_MOST_MS)?,
            curve: fields.relay_curve(format)?,
        })
    }

    fn table(&self, alloc: Global, format: u32) -> Result<Table, AllocError> {
        let mut table = NewTable::new(alloc);
        table.name(Key::Name, self.name)?;
        table.name(Key::Line, self.line)?;
        table.name(Key::Bus, self.bus)?;
        table.curve(self.curve)?;
        table.number(Key::CtPrimary, self.ct_primary)?;
        table.number(Key::CtSecondary, self.ct_secondary)?;
        table.number(Key::PlugFirst, self.plug_first)?;
        table.number(Key::PlugStep, self.plug_step)?;
        table.number(Key::PlugCount, self.plug_count)?;
        table.number(Key::DialFirst, self.dial_first)?;
        table.number(Key::DialStep, self.dial_step)?;
        table.number(Key::DialCount, self.dial_count)?;
        table.number(Key::LoadAmps, self.load_amps)?;
        table.put_known(format, Key::LeastMs, Value::from(self.least_ms))?;
        table.put_known(format, Key::MostMs, Value::from(self.most_ms))?;
        table.constants(format, self.curve)?;
        Ok(table.done())
    }
}

/// The keys of each relay, in the order in which they are tried.
const RELAY_KEYS: [Key; 15] = [
    Key::Name,
    Key::Line,
    Key::Bus,
    Key::Curve,
    Key::CtPrimary,
    Key::CtSecondary,
    Key::PlugFirst,
    Key::PlugStep,
    Key::PlugCount,
    Key::DialFirst,
    Key::DialStep,
    Key::DialCount,
    Key::LoadAmps,
    Key::LeastMs,
    Key::MostMs,
];

/// The same with the keys of a curve's own constants.
const CUSTOM_RELAY_KEYS: [Key; 19] = [
    Key::Name,
    Key::Line,
    Key::Bus,
    Key::Curve,
    Key::CtPrimary,
    Key::CtSecondary,
    Key::PlugFirst,
    Key::PlugStep,
    Key::PlugCount,
    Key::DialFirst,
    Key::DialStep,
    Key::DialCount,
    Key::LoadAmps,
    Key::LeastMs,
    Key::MostMs,
    Key::CustomK,
    Key::CustomC,
    Key::CustomJ,
    Key::CustomH,
];

/// Refuses a relay that has a key which its curve and the format do not have.
fn only_relay(fields: Fields, format: u32) -> Result<(), NetFault>
    ensures { let members = table_view fields.entry.table.now in
        result ≡ only format fields.entry.place (keys_of_relay (is_custom_at format members)) members }
{
    if fields.is_custom(format) {
        fields.only(format, &CUSTOM_RELAY_KEYS)
    } else {
        fields.only(format, &RELAY_KEYS)
    }
}

/// The rated secondary current of a current transformer, 1 or 5 amperes.
#[tactic(auto, unfolding(crate::specs::RelayEntries::secondary_at))]
fn secondary(fields: Fields) -> Result<u32, NetFault>
    ensures exact { result ≡ secondary_at fields.entry.place (table_view fields.entry.table.now) }
    ensures rated { IfOk result (λ amps. (amps ≡ 1) ⊎ (amps ≡ 5)) }
{
    let amps = fields.number(Key::CtSecondary, 1, 5)?;
    if amps == 1 || amps == 5 {
        Ok(amps)
    } else {
        Err(fields.place.fault(NetKind::OutOfRange, Key::CtSecondary))
    }
}

impl Entry for FaultEntry {
    ghost entry_of = { fault_entry };

    ghost Keeps = { λ format. FaultKeeps };

    #[tactic(auto, unfolding(crate::specs::Entries::fault_entry))]
    fn read(format: u32, fields: Fields) -> Result<FaultEntry, NetFault> {
        fields.only(format, &[Key::Name, Key::Line, Key::Weight])?;
        Ok(FaultEntry {
            name: fields.name(Key::Name)?,
            line: fields.name(Key::Line)?,
            weight: fields.number_or(Key::Weight, 1, 1, GREATEST_FAULT_WEIGHT)?,
        })
    }

    fn table(&self, alloc: Global, _format: u32) -> Result<Table, AllocError> {
        let mut table = NewTable::new(alloc);
        table.name(Key::Name, self.name)?;
        table.name(Key::Line, self.line)?;
        table.number(Key::Weight, self.weight)?;
        Ok(table.done())
    }
}

impl Entry for ExemptEntry {
    ghost entry_of = { exempt_entry };

    ghost Keeps = { λ format. ExemptKeeps };

    #[tactic(auto, unfolding(crate::specs::Entries::exempt_entry))]
    fn read(format: u32, fields: Fields) -> Result<ExemptEntry, NetFault> {
        fields.only(format, &[Key::Backup, Key::Primary])?;
        Ok(ExemptEntry {
            backup: fields.name(Key::Backup)?,
            primary: fields.name(Key::Primary)?,
        })
    }

    fn table(&self, alloc: Global, _format: u32) -> Result<Table, AllocError> {
        let mut table = NewTable::new(alloc);
        table.name(Key::Backup, self.backup)?;
        table.name(Key::Primary, self.primary)?;
        Ok(table.done())
    }
}

impl Entry for IntervalEntry {
    ghost entry_of = { interval_entry };

    ghost Keeps = { λ format. IntervalKeeps };

    #[tactic(auto, unfolding(crate::specs::Entries::interval_entry))]
    fn read(format: u32, fields: Fields) -> Result<IntervalEntry, NetFault> {
        fields.only(format, &[Key::Backup, Key::Primary, Key::CtiMs])?;
        Ok(IntervalEntry {
            backup: fields.name(Key::Backup)?,
            primary: fields.name(Key::Primary)?,
            cti_ms: fields.number(Key::CtiMs, 1, GREATEST_INTERVAL)?,
        })
    }

    fn table(&self, alloc: Global, _format: u32) -> Result<Table, AllocError> {
        let mut table = NewTable::new(alloc);
        table.name(Key::Backup, self.backup)?;
        table.name(Key::Primary, self.primary)?;
        table.number(Key::CtiMs, self.cti_ms)?;
        Ok(table.done())
    }
}
