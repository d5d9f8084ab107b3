ghost use Rattle.std.specs.Prelude.{◌≡◌, ◌++◌, slice_get, OnOk};
ghost use Rattle.std.specs.Option.{option_map};
ghost use Rattle.zk_scope.specs.Fields.{field_of, fields_lent, known_lent, known_of, predefined_fields};

use crate::field::FieldInfo;
use crate::home::Home;
use sqlite_items::at;
use zk_base::{Mem, RecordNo};
use zk_typed::script::{SimpleType, ValueType};

/// The type of a predefined field.
#[derive(Clone, Copy)]
pub enum KnownType {
    Simple(SimpleType),
    /// A predefined record type, by its number.
    Record(u32),
}

/// A field of a predefined record type.
#[derive(Clone, Copy)]
pub struct KnownField {
    pub name: &'static [u8],
    pub field_type: KnownType,
    pub log: bool,
    pub wire: bool,
}

const CONN_ID: [KnownField; 4] = [
    KnownField {
        name: b"orig_h",
        field_type: KnownType::Simple(SimpleType::Addr),
        log: true,
        wire: false,
    },
    KnownField {
        name: b"orig_p",
        field_type: KnownType::Simple(SimpleType::Port),
        log: true,
        wire: false,
    },
    KnownField {
        name: b"resp_h",
        field_type: KnownType::Simple(SimpleType::Addr),
        log: true,
        wire: false,
    },
    KnownField {
        name: b"resp_p",
        field_type: KnownType::Simple(SimpleType::Port),
        log: true,
        wire: false,
    },
];

const ENDPOINT: [KnownField; 3] = [
    KnownField {
        name: b"size",
        field_type: KnownType::Simple(SimpleType::Count),
        log: false,
        wire: false,
    },
    KnownField {
        name: b"num_pkts",
        field_type: KnownType::Simple(SimpleType::Count),
        log: false,
        wire: true,
    },
    KnownField {
        name: b"num_bytes_ip",
        field_type: KnownType::Simple(SimpleType::Count),
        log: false,
        wire: true,
    },
];

const CONNECTION: [KnownField; 9] = [
    KnownField {
        name: b"id",
        field_type: KnownType::Record(0),
        log: false,
        wire: false,
    },
    KnownField {
        name: b"orig",
        field_type: KnownType::Record(1),
        log: false,
        wire: false,
    },
    KnownField {
        name: b"resp",
        field_type: KnownType::Record(1),
        log: false,
        wire: false,
    },
    KnownField {
        name: b"start_time",
        field_type: KnownType::Simple(SimpleType::Time),
        log: false,
        wire: false,
    },
    KnownField {
        name: b"duration",
        field_type: KnownType::Simple(SimpleType::Interval),
        log: false,
        wire: false,
    },
    KnownField {
        name: b"proto",
        field_type: KnownType::Simple(SimpleType::Enum(0)),
        log: false,
        wire: false,
    },
    KnownField {
        name: b"uid",
        field_type: KnownType::Simple(SimpleType::String),
        log: false,
        wire: false,
    },
    KnownField {
        name: b"conn_state",
        field_type: KnownType::Simple(SimpleType::String),
        log: false,
        wire: false,
    },
    KnownField {
        name: b"history",
        field_type: KnownType::Simple(SimpleType::String),
        log: false,
        wire: true,
    },
];

const HTTP_MESSAGE_STAT: [KnownField; 3] = [
    KnownField {
        name: b"body_length",
        field_type: KnownType::Simple(SimpleType::Count),
        log: false,
        wire: false,
    },
    KnownField {
        name: b"header_length",
        field_type: KnownType::Simple(SimpleType::Count),
        log: false,
        wire: false,
    },
    KnownField {
        name: b"content_gap_length",
        field_type: KnownType::Simple(SimpleType::Count),
        log: false,
        wire: false,
    },
];

const DNS_MSG: [KnownField; 12] = [
    KnownField {
        name: b"id",
        field_type: KnownType::Simple(SimpleType::Count),
        log: false,
        wire: false,
    },
    KnownField {
        name: b"opcode",
        field_type: KnownType::Simple(SimpleType::Count),
        log: false,
        wire: false,
    },
    KnownField {
        name: b"rcode",
        field_type: KnownType::Simple(SimpleType::Count),
        log: false,
        wire: false,
    },
    KnownField {
        name: b"QR",
        field_type: KnownType::Simple(SimpleType::Bool),
        log: false,
        wire: false,
    },
    KnownField {
        name: b"AA",
        field_type: KnownType::Simple(SimpleType::Bool),
        log: false,
        wire: false,
    },
    KnownField {
        name: b"TC",
        field_type: KnownType::Simple(SimpleType::Bool),
        log: false,
        wire: false,
    },
    KnownField {
        name: b"RD",
        field_type: KnownType::Simple(SimpleType::Bool),
        log: false,
        wire: false,
    },
    KnownField {
        name: b"RA",
        field_type: KnownType::Simple(SimpleType::Bool),
        log: false,
        wire: false,
    },
    KnownField {
        name: b"num_queries",
        field_type: KnownType::Simple(SimpleType::Count),
        log: false,
        wire: false,
    },
    KnownField {
        name: b"num_answers",
        field_type: KnownType::Simple(SimpleType::Count),
        log: false,
        wire: false,
    },
    KnownField {
        name: b"num_auth",
        field_type: KnownType::Simple(SimpleType::Count),
        log: false,
        wire: false,
    },
    KnownField {
        name: b"num_addl",
        field_type: KnownType::Simple(SimpleType::Count),
        log: false,
        wire: false,
    },
];

const DNS_ANSWER: [KnownField; 4] = [
    KnownField {
        name: b"query",
        field_type: KnownType::Simple(SimpleType::String),
        log: false,
        wire: false,
    },
    KnownField {
        name: b"qtype",
        field_type: KnownType::Simple(SimpleType::Count),
        log: false,
        wire: false,
    },
    KnownField {
        name: b"qclass",
        field_type: KnownType::Simple(SimpleType::Count),
        log: false,
        wire: false,
    },
    KnownField {
        name: b"TTL",
        field_type: KnownType::Simple(SimpleType::Interval),
        log: false,
        wire: false,
    },
];

const DNS_SOA: [KnownField; 7] = [
    KnownField {
        name: b"mname",
        field_type: KnownType::Simple(SimpleType::String),
        log: false,
        wire: false,
    },
    KnownField {
        name: b"rname",
        field_type: KnownType::Simple(SimpleType::String),
        log: false,
        wire: false,
    },
    KnownField {
        name: b"serial",
        field_type: KnownType::Simple(SimpleType::Count),
        log: false,
        wire: false,
    },
    KnownField {
        name: b"refresh",
        field_type: KnownType::Simple(SimpleType::Interval),
        log: false,
        wire: false,
    },
    KnownField {
        name: b"retry",
        field_type: KnownType::Simple(SimpleType::Interval),
        log: false,
        wire: false,
    },
    KnownField {
        name: b"expire",
        field_type: KnownType::Simple(SimpleType::Interval),
        log: false,
        wire: false,
    },
    KnownField {
        name: b"minimum",
        field_type: KnownType::Simple(SimpleType::Interval),
        log: false,
        wire: false,
    },
];

const FILTER: [KnownField; 2] = [
    KnownField {
        name: b"name",
        field_type: KnownType::Simple(SimpleType::String),
        log: false,
        wire: false,
    },
    KnownField {
        name: b"path",
        field_type: KnownType::Simple(SimpleType::String),
        log: false,
        wire: false,
    },
];

/// The fields of a predefined record type.
pub fn known_fields(number: u32) -> Option<&'static [KnownField]>
    ensures { option_map (λ fields. known_lent fields.now) result ≡ predefined_fields number }
{
    match number {
        0 => Some(&CONN_ID),
        1 => Some(&ENDPOINT),
        2 => Some(&CONNECTION),
        3 => Some(&HTTP_MESSAGE_STAT),
        4 => Some(&DNS_MSG),
        5 => Some(&DNS_ANSWER),
        6 => Some(&DNS_SOA),
        7 => Some(&FILTER),
        _ => None,
    }
}

/// A predefined field.
fn known_field(field: KnownField) -> FieldInfo<'static>
    ensures { field_of result ≡ known_of field }
{
    let field_type = match field.field_type {
        KnownType::Simple(simple) => ValueType::Simple(simple),
        KnownType::Record(number) => ValueType::Record(RecordNo(number)),
    };
    FieldInfo {
        name: field.name,
        field_type: Some(field_type),
        log: field.log,
        wire: field.wire,
        optional: field.name == b"size".as_slice(),
        default: None,
        home: Home {
            file: 0,
            module_name: &[],
            exported: true,
        },
    }
}

/// Adds predefined fields.
pub fn add_known(fields: &'static [KnownField], all: &mut Vec<FieldInfo<'_>>) -> Result<(), Mem>
    ensures { OnOk result (fields_lent all.new.items ≡ fields_lent all.old.items ++ known_lent fields.now) }
{
    for field in fields {
        all.push(known_field(*field))?;
    }
    Ok(())
}

/// The predefined field at a place.
#[tactic(auto, using(crate::proofs::IndexLaws::get_of_map))]
pub fn known_at(fields: &'static [KnownField], place: usize) -> Option<FieldInfo<'static>>
    ensures { option_map field_of result ≡ slice_get (known_lent fields.now) place }
{
    match at(fields, place) {
        Some(field) => Some(known_field(*field)),
        None => None,
    }
}
