ghost use Rattle.std.specs.Prelude.{◌≡◌, map};
ghost use Rattle.zk_typed.specs.LogCalls as logs;
ghost use Rattle.zk_typed.specs.Operations as spec;
ghost use Rattle.zk_typed.specs.Types.{Simple};
ghost use Rattle.zk_typed.specs.View.{type_of};

use zk_typed::script::{SimpleType, ValueType};

/// A number for each type without parts.
fn simple_number(one: SimpleType) -> u64
    ensures { result ≡ spec.simple_number one }
{
    match one {
        SimpleType::Bool => 0,
        SimpleType::Count => 1,
        SimpleType::Int => 2,
        SimpleType::String => 3,
        SimpleType::Time => 4,
        SimpleType::Interval => 5,
        SimpleType::Addr => 6,
        SimpleType::Port => 7,
        SimpleType::Subnet => 8,
        SimpleType::Enum(number) => u64::from(number) + 9,
    }
}

/// Whether two types without parts are the same.
pub fn same_simple(a: SimpleType, b: SimpleType) -> bool
    ensures { result ≡ spec.same_simple a b }
{
    simple_number(a) == simple_number(b)
}

/// Whether a type is the one without parts that is named.
pub fn is_simple(one: &ValueType, simple: SimpleType) -> bool
    ensures { result ≡ spec.same_type (type_of one.now) (Simple simple) }
{
    match one {
        ValueType::Simple(own) => same_simple(*own, simple),
        ValueType::Record(_)
        | ValueType::Table { .. }
        | ValueType::Set { .. }
        | ValueType::Vector { .. } => false,
    }
}

/// Whether the types of two keys are the same.
pub fn same_keys(a: &[SimpleType], b: &[SimpleType]) -> bool
    ensures { result ≡ spec.same_keys a.now b.now }
{
    let mut others = b;
    for key in a {
        match others.split_first() {
            None => return false,
            Some((first, rest)) => {
                if !same_simple(*key, *first) {
                    return false;
                }
                others = rest;
            }
        }
    }
    others.is_empty()
}

/// Whether two types are the same; a record type is the same only as itself.
pub fn same_type(a: &ValueType, b: &ValueType) -> bool
    ensures { result ≡ spec.same_type (type_of a.now) (type_of b.now) }
{
    match a {
        ValueType::Simple(one) => match b {
            ValueType::Simple(other) => same_simple(*one, *other),
            ValueType::Record(_)
            | ValueType::Table { .. }
            | ValueType::Set { .. }
            | ValueType::Vector { .. } => false,
        },
        ValueType::Record(one) => match b {
            ValueType::Record(other) => one.0 == other.0,
            ValueType::Simple(_)
            | ValueType::Table { .. }
            | ValueType::Set { .. }
            | ValueType::Vector { .. } => false,
        },
        ValueType::Table { keys, value } => match b {
            ValueType::Table {
                keys: others,
                value: other,
            } => same_keys(keys.as_slice(), others.as_slice())
                && same_type(value.get(), other.get()),
            ValueType::Simple(_)
            | ValueType::Record(_)
            | ValueType::Set { .. }
            | ValueType::Vector { .. } => false,
        },
        ValueType::Set { keys } => match b {
            ValueType::Set { keys: others } => same_keys(keys.as_slice(), others.as_slice()),
            ValueType::Simple(_)
            | ValueType::Record(_)
            | ValueType::Table { .. }
            | ValueType::Vector { .. } => false,
        },
        ValueType::Vector { item } => match b {
            ValueType::Vector { item: other } => same_type(item.get(), other.get()),
            ValueType::Simple(_)
            | ValueType::Record(_)
            | ValueType::Table { .. }
            | ValueType::Set { .. } => false,
        },
    }
}

/// Whether types are the same, one by one.
pub fn same_types(some: &[ValueType], others: &[ValueType]) -> bool
    ensures { result ≡ logs.same_types (map type_of some.now) (map type_of others.now) }
{
    let mut left = others;
    for one in some {
        match left.split_first() {
            None => return false,
            Some((first, rest)) => {
                if !same_type(one, first) {
                    return false;
                }
                left = rest;
            }
        }
    }
    left.is_empty()
}
