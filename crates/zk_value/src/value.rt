use crate::address::SharedAddr;
use crate::shared::SharedBytes;
use std::alloc::AllocError;
use std::hash::{Hash, Hasher};
use std::mem::size_of;
use zk_base::{Moment, ObjectNo, Proto, Span};

/// A value that a script computes with (Zeek manual, Types). It takes 16 bytes: what is larger stands behind
/// a handle.
#[derive(Debug, PartialEq, Eq, Drop)]
pub enum Value {
    /// `T` or `F`.
    Bool(bool),
    /// A number from 0 to 2^64 - 1.
    Count(u64),
    /// A number from -2^63 to 2^63 - 1.
    Int(i64),
    /// Bytes of any kind.
    String(SharedBytes),
    /// A point in time, in microseconds since the epoch.
    Time(Moment),
    /// A length of time, in microseconds.
    Interval(Span),
    /// An address of an internet host.
    Addr(SharedAddr),
    /// A port of a transport protocol.
    Port { port: u16, proto: Proto },
    /// An IPv4 prefix, as the number that its bytes make in network order, and its width in bits.
    Subnet { prefix: u32, width: u8 },
    /// A word of an enum, by its name as `print` writes it.
    Enum(SharedBytes),
    /// A record, a vector, a set or a table.
    Object(ObjectNo),
}

const _: () = prove!(size_of::<Value>() == 16);

/// Another handle to the same value.
impl Clone for Value {
    ghost use Rattle.std.specs.Prelude.{◌≡◌};

    ghost is_clone = { λ value copy. copy ≡ value };

    fn clone(&self) -> Result<Value, AllocError> {
        Ok(match self {
            Value::Bool(truth) => Value::Bool(*truth),
            Value::Count(count) => Value::Count(*count),
            Value::Int(int) => Value::Int(*int),
            Value::String(bytes) => Value::String(bytes.clone()?),
            Value::Time(moment) => Value::Time(*moment),
            Value::Interval(span) => Value::Interval(*span),
            Value::Addr(address) => Value::Addr(address.clone()?),
            Value::Port { port, proto } => Value::Port {
                port: *port,
                proto: *proto,
            },
            Value::Subnet { prefix, width } => Value::Subnet {
                prefix: *prefix,
                width: *width,
            },
            Value::Enum(word) => Value::Enum(word.clone()?),
            Value::Object(number) => Value::Object(*number),
        })
    }
}

impl Hash for Value {
    ghost use Rattle.std.specs.Hash.{same_Alike};
    ghost use Rattle.std.specs.Cmp.Rules.{hashing};
    ghost use Rattle.std.proofs.Common.{rules};
    ghost use Rattle.zk_value.specs.Hashed.{hashed};

    ghost hash_input = { hashed };

    ghost respects_eq = { Prim.search (hashing, rules) };

    fn hash<H: Hasher>(&self, state: &mut H) {
        match self {
            Value::Bool(truth) => truth.hash(state),
            Value::Count(count) => count.hash(state),
            Value::Int(int) => int.hash(state),
            Value::String(bytes) => state.write(bytes.as_slice()),
            Value::Time(moment) => moment.0.hash(state),
            Value::Interval(span) => span.0.hash(state),
            Value::Addr(address) => address.hash(state),
            Value::Port { port, proto } => {
                port.hash(state);
                proto.hash(state);
            }
            Value::Subnet { prefix, width } => {
                prefix.hash(state);
                width.hash(state);
            }
            Value::Enum(word) => state.write(word.as_slice()),
            Value::Object(number) => number.0.hash(state),
        }
    }
}
