ghost use Rattle.std.specs.Prelude.{◌≡◌, IfOk, flat_map, slice_get};
ghost use Rattle.std.specs.Option.{option_map};
ghost use Rattle.zk_typed.specs.LogCalls as spec;
ghost use Rattle.zk_typed.specs.Making.{field_named};
ghost use Rattle.zk_typed.specs.Resolving as resolving;
ghost use Rattle.zk_scope.specs.FieldPlaces.{AreFields, field_places};
ghost use Rattle.zk_scope.specs.Fields.{field_found, field_of, fields_lent};
ghost use Rattle.zk_scope.specs.Scripted.{scripts_in};
ghost use Rattle.zk_scope.specs.Streams.{AreTypes, stated_created};

use crate::created::all_created;
use crate::field::FieldInfo;
use crate::field_places::FieldPlace;
use crate::fielding::{add_placed, placed_field};
use crate::fields::Fields;
use crate::known::Names;
use crate::log_types::LogTypes;
use sqlite_items::at;
use std::alloc::Global;
use zk_base::{Mem, RecordNo};
use zk_typed::script::FieldNo;

/// What all scripts declare, with the fields of their record types and the record types of their logs.
#[derive(Drop)]
pub struct Scripts<'a> {
    pub names: Names<'a>,
    fields: Fields,
    logs: LogTypes,
    ghost placed: { AreFields fields (scripts_in names) },
    ghost told: { AreTypes logs (flat_map (stated_created (scripts_in names)) (scripts_in names).stated) },
}

/// A field that is found, with its number.
fn numbered(number: u32, found: Option<FieldInfo<'_>>) -> Option<(u32, FieldInfo<'_>)>
    ensures { option_map field_found result ≡ option_map (λ one. (number, one)) (option_map field_of found.entry) }
{
    match found {
        Some(field) => Some((number, field)),
        None => None,
    }
}

/// The record types of the logs of scripts with these names.
fn log_types(alloc: Global, names: &Names<'_>) -> Result<LogTypes, Mem>
    ensures { IfOk result (λ logs. AreTypes logs (flat_map (stated_created (scripts_in names.now)) (scripts_in names.now).stated)) }
{
    let created = all_created(alloc, names)?;
    let logs = LogTypes::of(alloc, &created)?;
    Ok(logs)
}

/// The fields of the record types, and the record types of the logs, of scripts with these names.
fn fields_and_logs(alloc: Global, names: &Names<'_>) -> Result<(Fields, LogTypes), Mem>
    ensures placed { IfOk result (λ both. AreFields both.0 (scripts_in names.now)) }
    ensures told { IfOk result (λ both. AreTypes both.1 (flat_map (stated_created (scripts_in names.now)) (scripts_in names.now).stated)) }
{
    let fields = Fields::of(alloc, names)?;
    let logs = log_types(alloc, names)?;
    Ok((fields, logs))
}

impl<'a> Scripts<'a> {
    /// What scripts with these names declare.
    pub fn new(alloc: Global, names: Names<'a>) -> Result<Scripts<'a>, Mem>
        ensures { IfOk result (λ scripts. scripts_in scripts.names ≡ scripts_in names.entry) }
    {
        match fields_and_logs(alloc, &names) {
            Ok((fields, logs)) => Ok(Scripts {
                names,
                fields,
                logs,
            }),
            Err(refusal) => {
                drop(names);
                Err(refusal)
            }
        }
    }

    /// Where the fields of a record type stand.
    fn places(&self, number: RecordNo) -> &[FieldPlace]
        ensures { result.now ≡ field_places (scripts_in self.now.names) number.0 }
    {
        match at(&self.fields.records, number.0 as usize) {
            Some(one) => &one.places,
            None => &[],
        }
    }

    /// The fields of a record type, those of `redef record` last.
    pub fn fields_of(&self, alloc: Global, number: RecordNo) -> Result<Vec<FieldInfo<'a>>, Mem>
        ensures { IfOk result (λ fields. fields_lent fields.items ≡ resolving.fields_of (scripts_in self.now.names) number.0) }
    {
        let mut all = Vec::new(alloc);
        add_placed(alloc, &self.names, number.0, self.places(number), &mut all)?;
        Ok(all)
    }

    /// The field of a number.
    pub fn field_at(&self, alloc: Global, one: FieldNo) -> Result<Option<FieldInfo<'a>>, Mem>
        ensures { IfOk result (λ field. option_map field_of field ≡ slice_get (resolving.fields_of (scripts_in self.now.names) one.«record».0) one.field) }
    {
        match at(self.places(one.record), one.field as usize) {
            Some(place) => {
                let made = placed_field(alloc, &self.names, one.record.0, *place)?;
                Ok(made)
            }
            None => Ok(None),
        }
    }

    /// The field of a name in a record type, and its number.
    pub fn field_named(
        &self,
        alloc: Global,
        number: RecordNo,
        name: &[u8],
    ) -> Result<Option<(u32, FieldInfo<'a>)>, Mem>
        ensures { IfOk result (λ found. option_map field_found found ≡ field_named name.now 0 (resolving.fields_of (scripts_in self.now.names) number.0)) }
    {
        let Some(fields) = at(&self.fields.records, number.0 as usize) else {
            return Ok(None);
        };
        let field = fields.number(alloc, name)?;
        let one = FieldNo {
            record: number,
            field,
        };
        let found = self.field_at(alloc, one)?;
        Ok(numbered(field, found))
    }

    /// The record type of a log by the log's whole name: None where the log has no stream or streams of
    /// different types, and a type that isn't known where its streams are broken.
    pub fn log_type(&self, alloc: Global, word: &[u8]) -> Result<Option<Option<RecordNo>>, Mem>
        ensures { IfOk result (λ told. told ≡ spec.log_type (scripts_in self.now.names) word.now) }
    {
        let told = self.logs.log_type(alloc, word)?;
        Ok(told)
    }
}
