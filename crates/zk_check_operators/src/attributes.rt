ghost use Rattle.std.specs.Prelude.{◌≡◌, bytes_eq};
ghost use Rattle.zk_typed.specs.Declarations as spec;
ghost use Rattle.zk_typed.specs.View.{type_of};
ghost use Rattle.zk_check_operators.specs.Attributes.{counted};

use crate::same::is_simple;
use zk_tree::{Container, Expr, Init};
use zk_typed::script::{SimpleType, ValueType};

/// Whether two names are the same.
pub fn is_name(one: &[u8], other: &[u8]) -> bool
    ensures { result ≡ bytes_eq one.now other.now }
{
    one == other
}

/// Whether an attribute says when entries expire.
pub fn is_expiry(name: &[u8]) -> bool
    ensures { result ≡ spec.is_expiry name.now }
{
    is_name(b"create_expire", name)
        || is_name(b"read_expire", name)
        || is_name(b"write_expire", name)
}

/// Whether an attribute has a value.
pub fn with_value(name: &[u8]) -> bool
    ensures { result ≡ spec.with_value name.now }
{
    is_name(b"default", name)
        || is_name(b"create_expire", name)
        || is_name(b"read_expire", name)
        || is_name(b"write_expire", name)
        || is_name(b"expire_func", name)
        || is_name(b"priority", name)
}

/// Whether a column can be of a type: one without parts, a record, a set of one key, a vector of values
/// without parts.
pub fn is_column(one: &ValueType) -> bool
    ensures { result ≡ spec.is_column (type_of one.now) }
{
    match one {
        ValueType::Simple(_) | ValueType::Record(_) => true,
        ValueType::Set { keys } => match keys.as_slice().split_first() {
            Some((_, others)) => others.is_empty(),
            None => false,
        },
        ValueType::Vector { item } => match item.get() {
            ValueType::Simple(_) => true,
            ValueType::Record(_)
            | ValueType::Table { .. }
            | ValueType::Set { .. }
            | ValueType::Vector { .. } => false,
        },
        ValueType::Table { .. } => false,
    }
}

/// Whether a value of a type can count packets: a number or a text.
fn is_counted(one: &ValueType) -> bool
    ensures { result ≡ counted (type_of one.now) }
{
    is_simple(one, SimpleType::Count) || is_simple(one, SimpleType::String)
}

/// Whether an attribute may stand at a field of a type.
pub fn field_attribute(one: &ValueType, name: &[u8]) -> bool
    ensures { result ≡ spec.field_attribute (type_of one.now) name.now }
{
    is_name(name, b"optional")
        || is_name(name, b"default")
        || (is_name(name, b"log") && is_column(one))
        || (is_name(name, b"wire") && is_counted(one))
}

/// Whether a type is that of tables.
fn is_table(one: &ValueType) -> bool
    ensures { result ≡ spec.is_table (type_of one.now) }
{
    match one {
        ValueType::Table { .. } => true,
        ValueType::Simple(_)
        | ValueType::Record(_)
        | ValueType::Set { .. }
        | ValueType::Vector { .. } => false,
    }
}

/// Whether the values of a type have keys.
fn has_keys(one: &ValueType) -> bool
    ensures { result ≡ spec.has_keys (type_of one.now) }
{
    match one {
        ValueType::Table { .. } | ValueType::Set { .. } => true,
        ValueType::Simple(_) | ValueType::Record(_) | ValueType::Vector { .. } => false,
    }
}

/// Whether an attribute may stand at a global of a type; `made` says whether each value that it is given
/// makes a table or a set.
pub fn global_attribute(made: bool, one: &ValueType, name: &[u8]) -> bool
    ensures { result ≡ spec.global_attribute made (type_of one.now) name.now }
{
    is_name(name, b"redef")
        || (is_name(name, b"default") && is_table(one) && made)
        || ((is_expiry(name) || is_name(name, b"expire_func")) && has_keys(one) && made)
}

/// Whether an initial value makes a table or a set.
pub fn is_made(init: &Init) -> bool
    ensures { result ≡ spec.is_made init.now }
{
    match init {
        Init::Braces { .. } => true,
        Init::Value { value } => match value {
            Expr::Make { container, .. } => match container {
                Container::Table | Container::Set => true,
                Container::Vector => false,
            },
            Expr::Assign { .. }
            | Expr::Choice { .. }
            | Expr::Chain { .. }
            | Expr::Compare { .. }
            | Expr::Unary { .. }
            | Expr::Post { .. }
            | Expr::Number { .. }
            | Expr::Interval { .. }
            | Expr::Literal { .. }
            | Expr::Truth { .. }
            | Expr::Name { .. }
            | Expr::Parenthesis { .. }
            | Expr::Size { .. }
            | Expr::List { .. }
            | Expr::Hook { .. } => false,
        },
    }
}
