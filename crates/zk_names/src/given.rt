ghost use Rattle.std.specs.Prelude.{◌≡◌, [], ◌∷◌, ◌++◌, map, IfOk, OnOk};
ghost use Rattle.zk_typed.specs.Declaring.{built_ins, everywhere, predefined_names};
ghost use Rattle.zk_typed.specs.View.{type_of};
ghost use Rattle.zk_names.specs.Given.{built_in_of, event_of, events, log_of, named_type, named_types, type_name_of, type_names, word_of, words};
ghost use Rattle.zk_scope.specs.Lent.{declared_lent, meant_of};

use sqlite_items::Boxed;
use std::alloc::Global;
use zk_base::{Mem, RecordNo};
use zk_scope::{Declared, LogFunction, Meant, Signature, Table, Whole};
use zk_typed::script::{BuiltIn, SimpleType, ValueType};

/// The type of a predefined name or parameter.
#[derive(Clone, Copy)]
pub enum NamedType {
    Simple(SimpleType),
    /// A predefined record type, by its number.
    Record(u32),
    /// A vector of strings.
    Strings,
}

/// A predefined event: its name, and the types of its parameters.
#[derive(Clone, Copy)]
pub struct EventRow {
    pub name: &'static [u8],
    pub params: &'static [NamedType],
}

const TYPE_NAMES: [(&[u8], NamedType); 12] = [
    (b"transport_proto", NamedType::Simple(SimpleType::Enum(0))),
    (b"string_vec", NamedType::Strings),
    (b"conn_id", NamedType::Record(0)),
    (b"endpoint", NamedType::Record(1)),
    (b"connection", NamedType::Record(2)),
    (b"http_message_stat", NamedType::Record(3)),
    (b"dns_msg", NamedType::Record(4)),
    (b"dns_answer", NamedType::Record(5)),
    (b"dns_soa", NamedType::Record(6)),
    (b"Log::ID", NamedType::Simple(SimpleType::Enum(1))),
    (b"Reporter::Level", NamedType::Simple(SimpleType::Enum(2))),
    (b"Log::Filter", NamedType::Record(7)),
];

const WORDS: [(&[u8], u32); 3] = [(b"tcp", 0), (b"udp", 0), (b"Reporter::ERROR", 2)];

const EVENTS: [EventRow; 29] = [
    EventRow {
        name: b"zeek_init",
        params: &[],
    },
    EventRow {
        name: b"zeek_done",
        params: &[],
    },
    EventRow {
        name: b"packet_seen",
        params: &[
            NamedType::Simple(SimpleType::Time),
            NamedType::Simple(SimpleType::Count),
            NamedType::Simple(SimpleType::Count),
        ],
    },
    EventRow {
        name: b"new_connection",
        params: &[NamedType::Record(2)],
    },
    EventRow {
        name: b"connection_established",
        params: &[NamedType::Record(2)],
    },
    EventRow {
        name: b"connection_reset",
        params: &[NamedType::Record(2)],
    },
    EventRow {
        name: b"connection_state_remove",
        params: &[NamedType::Record(2)],
    },
    EventRow {
        name: b"content_gap",
        params: &[
            NamedType::Record(2),
            NamedType::Simple(SimpleType::Bool),
            NamedType::Simple(SimpleType::Count),
            NamedType::Simple(SimpleType::Count),
        ],
    },
    EventRow {
        name: b"connection_EOF",
        params: &[NamedType::Record(2), NamedType::Simple(SimpleType::Bool)],
    },
    EventRow {
        name: b"stream_gave_up",
        params: &[NamedType::Record(2), NamedType::Simple(SimpleType::Bool)],
    },
    EventRow {
        name: b"http_request",
        params: &[
            NamedType::Record(2),
            NamedType::Simple(SimpleType::String),
            NamedType::Simple(SimpleType::String),
            NamedType::Simple(SimpleType::String),
            NamedType::Simple(SimpleType::String),
        ],
    },
    EventRow {
        name: b"http_reply",
        params: &[
            NamedType::Record(2),
            NamedType::Simple(SimpleType::String),
            NamedType::Simple(SimpleType::Count),
            NamedType::Simple(SimpleType::String),
        ],
    },
    EventRow {
        name: b"http_header",
        params: &[
            NamedType::Record(2),
            NamedType::Simple(SimpleType::Bool),
            NamedType::Simple(SimpleType::String),
            NamedType::Simple(SimpleType::String),
            NamedType::Simple(SimpleType::String),
        ],
    },
    EventRow {
        name: b"http_message_done",
        params: &[
            NamedType::Record(2),
            NamedType::Simple(SimpleType::Bool),
            NamedType::Record(3),
        ],
    },
    EventRow {
        name: b"http_tunnel",
        params: &[NamedType::Record(2)],
    },
    EventRow {
        name: b"http_violation",
        params: &[
            NamedType::Record(2),
            NamedType::Simple(SimpleType::Bool),
            NamedType::Simple(SimpleType::Count),
        ],
    },
    EventRow {
        name: b"dns_message",
        params: &[
            NamedType::Record(2),
            NamedType::Simple(SimpleType::Bool),
            NamedType::Record(4),
            NamedType::Simple(SimpleType::Count),
        ],
    },
    EventRow {
        name: b"dns_request",
        params: &[
            NamedType::Record(2),
            NamedType::Record(4),
            NamedType::Simple(SimpleType::String),
            NamedType::Simple(SimpleType::Count),
            NamedType::Simple(SimpleType::Count),
        ],
    },
    EventRow {
        name: b"dns_end",
        params: &[NamedType::Record(2), NamedType::Record(4)],
    },
    EventRow {
        name: b"dns_A_reply",
        params: &[
            NamedType::Record(2),
            NamedType::Record(4),
            NamedType::Record(5),
            NamedType::Simple(SimpleType::Addr),
        ],
    },
    EventRow {
        name: b"dns_AAAA_reply",
        params: &[
            NamedType::Record(2),
            NamedType::Record(4),
            NamedType::Record(5),
            NamedType::Simple(SimpleType::Addr),
        ],
    },
    EventRow {
        name: b"dns_NS_reply",
        params: &[
            NamedType::Record(2),
            NamedType::Record(4),
            NamedType::Record(5),
            NamedType::Simple(SimpleType::String),
        ],
    },
    EventRow {
        name: b"dns_CNAME_reply",
        params: &[
            NamedType::Record(2),
            NamedType::Record(4),
            NamedType::Record(5),
            NamedType::Simple(SimpleType::String),
        ],
    },
    EventRow {
        name: b"dns_PTR_reply",
        params: &[
            NamedType::Record(2),
            NamedType::Record(4),
            NamedType::Record(5),
            NamedType::Simple(SimpleType::String),
        ],
    },
    EventRow {
        name: b"dns_MX_reply",
        params: &[
            NamedType::Record(2),
            NamedType::Record(4),
            NamedType::Record(5),
            NamedType::Simple(SimpleType::String),
            NamedType::Simple(SimpleType::Count),
        ],
    },
    EventRow {
        name: b"dns_TXT_reply",
        params: &[
            NamedType::Record(2),
            NamedType::Record(4),
            NamedType::Record(5),
            NamedType::Strings,
        ],
    },
    EventRow {
        name: b"dns_SOA_reply",
        params: &[
            NamedType::Record(2),
            NamedType::Record(4),
            NamedType::Record(5),
            NamedType::Record(6),
        ],
    },
    EventRow {
        name: b"dns_unknown_reply",
        params: &[
            NamedType::Record(2),
            NamedType::Record(4),
            NamedType::Record(5),
        ],
    },
    EventRow {
        name: b"dns_violation",
        params: &[
            NamedType::Record(2),
            NamedType::Simple(SimpleType::Bool),
            NamedType::Simple(SimpleType::Count),
        ],
    },
];

const BUILT_INS: [(&[u8], BuiltIn); 12] = [
    (b"fmt", BuiltIn::Fmt),
    (b"cat", BuiltIn::Cat),
    (b"to_lower", BuiltIn::ToLower),
    (b"to_upper", BuiltIn::ToUpper),
    (b"sub_bytes", BuiltIn::SubBytes),
    (b"strstr", BuiltIn::Strstr),
    (b"to_count", BuiltIn::ToCount),
    (b"starts_with", BuiltIn::StartsWith),
    (b"join_string_vec", BuiltIn::JoinStringVec),
    (b"addr_to_counts", BuiltIn::AddrToCounts),
    (b"network_time", BuiltIn::NetworkTime),
    (b"copy", BuiltIn::Copy),
];

const LOGS: [(&[u8], LogFunction); 5] = [
    (b"Log::create_stream", LogFunction::CreateStream),
    (b"Log::add_filter", LogFunction::AddFilter),
    (b"Log::remove_filter", LogFunction::RemoveFilter),
    (
        b"Log::remove_default_filter",
        LogFunction::RemoveDefaultFilter,
    ),
    (b"Log::write", LogFunction::Write),
];

/// A predefined type.
fn named_type(alloc: Global, one: NamedType) -> Result<ValueType, Mem>
    ensures { IfOk result (λ made. type_of made ≡ named_type one) }
{
    match one {
        NamedType::Simple(simple) => Ok(ValueType::Simple(simple)),
        NamedType::Record(number) => Ok(ValueType::Record(RecordNo(number))),
        NamedType::Strings => {
            let item = Boxed::new(alloc, ValueType::Simple(SimpleType::String))?;
            Ok(ValueType::Vector { item })
        }
    }
}

/// Predefined types.
fn named_types(alloc: Global, types: &[NamedType]) -> Result<Vec<ValueType>, Mem>
    ensures { IfOk result (λ made. map type_of made.items ≡ named_types types.now) }
{
    let mut made = Vec::new(alloc);
    for one in types {
        let one = named_type(alloc, *one)?;
        made.push(one)?;
    }
    Ok(made)
}

/// Adds a name that is seen everywhere.
fn add_one<'a>(
    alloc: Global,
    name: &[u8],
    meant: Meant<'a>,
    table: &mut Table<'a>,
) -> Result<(), Mem>
    ensures { OnOk result (declared_lent table.new.names.items ≡ declared_lent table.old.names.items ++ everywhere name.now (meant_of meant.entry) ∷ []) }
{
    match Whole::copy_of(alloc, name) {
        Ok(name) => {
            let one = Declared {
                name: name.into_vec(),
                exported: true,
                meant,
            };
            table.add(alloc, one)?;
            Ok(())
        }
        Err(refusal) => {
            drop(meant);
            Err(refusal)
        }
    }
}

/// Adds predefined types.
fn add_types(alloc: Global, names: &[(&[u8], NamedType)], table: &mut Table<'_>) -> Result<(), Mem>
    ensures { OnOk result (declared_lent table.new.names.items ≡ declared_lent table.old.names.items ++ map type_name_of names.now) }
{
    for one in names {
        let known = named_type(alloc, one.1)?;
        add_one(alloc, one.0, Meant::KnownType { known }, table)?;
    }
    Ok(())
}

/// Adds predefined words.
fn add_words(alloc: Global, words: &[(&[u8], u32)], table: &mut Table<'_>) -> Result<(), Mem>
    ensures { OnOk result (declared_lent table.new.names.items ≡ declared_lent table.old.names.items ++ map word_of words.now) }
{
    for one in words {
        add_one(alloc, one.0, Meant::Word { number: one.1 }, table)?;
    }
    Ok(())
}

/// Adds predefined events.
fn add_events(alloc: Global, events: &[EventRow], table: &mut Table<'_>) -> Result<(), Mem>
    ensures { OnOk result (declared_lent table.new.names.items ≡ declared_lent table.old.names.items ++ map event_of events.now) }
{
    for one in events {
        let params = named_types(alloc, one.params)?;
        let signature = Signature::Known { params };
        add_one(alloc, one.name, Meant::Event { signature }, table)?;
    }
    Ok(())
}

/// Adds predefined functions.
fn add_built_ins(
    alloc: Global,
    functions: &[(&[u8], BuiltIn)],
    table: &mut Table<'_>,
) -> Result<(), Mem>
    ensures { OnOk result (declared_lent table.new.names.items ≡ declared_lent table.old.names.items ++ map built_in_of functions.now) }
{
    for one in functions {
        let meant = Meant::BuiltInFunction { function: one.1 };
        add_one(alloc, one.0, meant, table)?;
    }
    Ok(())
}

/// Adds predefined functions.
fn add_logs(
    alloc: Global,
    functions: &[(&[u8], LogFunction)],
    table: &mut Table<'_>,
) -> Result<(), Mem>
    ensures { OnOk result (declared_lent table.new.names.items ≡ declared_lent table.old.names.items ++ map log_of functions.now) }
{
    for one in functions {
        add_one(alloc, one.0, Meant::Log { function: one.1 }, table)?;
    }
    Ok(())
}

/// Adds all predefined types.
fn add_type_names(alloc: Global, table: &mut Table<'_>) -> Result<(), Mem>
    ensures { OnOk result (declared_lent table.new.names.items ≡ declared_lent table.old.names.items ++ type_names) }
{
    add_types(alloc, &TYPE_NAMES, table)?;
    Ok(())
}

/// Adds all predefined words.
fn add_all_words(alloc: Global, table: &mut Table<'_>) -> Result<(), Mem>
    ensures { OnOk result (declared_lent table.new.names.items ≡ declared_lent table.old.names.items ++ words) }
{
    add_words(alloc, &WORDS, table)?;
    Ok(())
}

/// Adds all predefined events.
fn add_all_events(alloc: Global, table: &mut Table<'_>) -> Result<(), Mem>
    ensures { OnOk result (declared_lent table.new.names.items ≡ declared_lent table.old.names.items ++ events) }
{
    add_events(alloc, &EVENTS, table)?;
    Ok(())
}

/// Adds all predefined functions, those of the log framework last.
fn add_functions(alloc: Global, table: &mut Table<'_>) -> Result<(), Mem>
    ensures { OnOk result (declared_lent table.new.names.items ≡ declared_lent table.old.names.items ++ built_ins) }
{
    add_built_ins(alloc, &BUILT_INS, table)?;
    add_logs(alloc, &LOGS, table)?;
    Ok(())
}

/// Adds all predefined names.
pub fn add_predefined(alloc: Global, table: &mut Table<'_>) -> Result<(), Mem>
    ensures { OnOk result (declared_lent table.new.names.items ≡ declared_lent table.old.names.items ++ predefined_names) }
{
    add_type_names(alloc, table)?;
    add_all_words(alloc, table)?;
    add_all_events(alloc, table)?;
    add_functions(alloc, table)?;
    Ok(())
}
