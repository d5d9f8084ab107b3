ghost use Rattle.std.specs.Prelude.{◌≡◌, IfOk};
ghost use Rattle.zk_typed.specs.View as view;
ghost use Rattle.zk_value.specs.Plain.{value_of};

use std::alloc::Global;
use zk_base::{Bytes, Mem, Sequence};
use zk_typed::script::{DefaultValue, Literal, LogCall, Names, Primitive, Shape};
use zk_value::{SharedAddr, SharedBytes, Value};

/// The value that a literal names.
pub fn literal_value(alloc: Global, literal: &Literal) -> Result<Value, Mem>
    ensures { IfOk result (λ value. value_of value ≡ view.literal_value literal.now) }
{
    Ok(match literal {
        Literal::Bool(truth) => Value::Bool(*truth),
        Literal::Count(count) => Value::Count(*count),
        Literal::String(bytes) => Value::String(SharedBytes::copy_of(alloc, bytes.as_slice())?),
        Literal::Interval(span) => Value::Interval(*span),
        Literal::Addr(address) => Value::Addr(SharedAddr::of(alloc, *address)?),
        Literal::Port { port, proto } => Value::Port {
            port: *port,
            proto: *proto,
        },
        Literal::Subnet { prefix, width } => Value::Subnet {
            prefix: *prefix,
            width: *width,
        },
        Literal::Enum(word) => Value::Enum(SharedBytes::copy_of(alloc, word.as_slice())?),
    })
}

/// A copy of some numbers.
fn numbers_copy(alloc: Global, numbers: &Sequence<u32>) -> Result<Sequence<u32>, Mem>
    ensures { IfOk result (λ copy. copy ≡ numbers.now) }
{
    Ok(Sequence::from(Vec::from_slice(alloc, numbers.as_slice())?))
}

/// A copy of a literal.
fn literal_copy(alloc: Global, literal: &Literal) -> Result<Literal, Mem>
    ensures { IfOk result (λ copy. copy ≡ literal.now) }
{
    Ok(match literal {
        Literal::Bool(truth) => Literal::Bool(*truth),
        Literal::Count(count) => Literal::Count(*count),
        Literal::String(bytes) => Literal::String(Bytes::copy_of(alloc, bytes.as_slice())?),
        Literal::Interval(span) => Literal::Interval(*span),
        Literal::Addr(address) => Literal::Addr(*address),
        Literal::Port { port, proto } => Literal::Port {
            port: *port,
            proto: *proto,
        },
        Literal::Subnet { prefix, width } => Literal::Subnet {
            prefix: *prefix,
            width: *width,
        },
        Literal::Enum(word) => Literal::Enum(Bytes::copy_of(alloc, word.as_slice())?),
    })
}

/// A copy of what a field begins with.
pub fn default_copy(alloc: Global, default: &DefaultValue) -> Result<DefaultValue, Mem>
    ensures { IfOk result (λ copy. copy ≡ default.now) }
{
    Ok(match default {
        DefaultValue::Literal { literal, sign } => DefaultValue::Literal {
            literal: literal_copy(alloc, literal)?,
            sign: *sign,
        },
        DefaultValue::EmptyTable => DefaultValue::EmptyTable,
        DefaultValue::EmptyVector => DefaultValue::EmptyVector,
    })
}

/// A copy of what may be there to begin with.
pub fn begins_copy(
    alloc: Global,
    default: &Option<DefaultValue>,
) -> Result<Option<DefaultValue>, Mem>
    ensures { IfOk result (λ copy. copy ≡ default.now) }
{
    match default {
        Some(default) => Ok(Some(default_copy(alloc, default)?)),
        None => Ok(None),
    }
}

fn shape_copy(alloc: Global, shape: &Shape) -> Result<Shape, Mem>
    ensures { IfOk result (λ copy. copy ≡ shape.now) }
{
    Ok(Shape {
        keys: shape.keys,
        expiry: shape.expiry,
        default: begins_copy(alloc, &shape.default)?,
    })
}

/// A copy of the locals of a loop.
pub fn names_copy(alloc: Global, names: &Names) -> Result<Names, Mem>
    ensures { IfOk result (λ copy. copy ≡ names.now) }
{
    Ok(Names {
        keys: numbers_copy(alloc, &names.keys)?,
        value: names.value,
    })
}

fn path_copy(alloc: Global, path: &Option<Bytes>) -> Result<Option<Bytes>, Mem>
    ensures { IfOk result (λ copy. copy ≡ path.now) }
{
    match path {
        Some(path) => Ok(Some(Bytes::copy_of(alloc, path.as_slice())?)),
        None => Ok(None),
    }
}

fn log_call_copy(alloc: Global, call: &LogCall) -> Result<LogCall, Mem>
    ensures { IfOk result (λ copy. copy ≡ call.now) }
{
    Ok(match call {
        LogCall::Create {
            log,
            event,
            path,
            policy,
            columns,
        } => LogCall::Create {
            log: *log,
            event: *event,
            path: Bytes::copy_of(alloc, path.as_slice())?,
            policy: *policy,
            columns: numbers_copy(alloc, columns)?,
        },
        LogCall::AddFilter {
            log,
            name,
            path,
            policy,
            columns,
        } => LogCall::AddFilter {
            log: *log,
            name: Bytes::copy_of(alloc, name.as_slice())?,
            path: path_copy(alloc, path)?,
            policy: *policy,
            columns: numbers_copy(alloc, columns)?,
        },
        LogCall::RemoveFilter { log, name } => LogCall::RemoveFilter {
            log: *log,
            name: Bytes::copy_of(alloc, name.as_slice())?,
        },
    })
}

/// A copy of a primitive.
pub fn primitive_copy(alloc: Global, primitive: &Primitive) -> Result<Primitive, Mem>
    ensures { IfOk result (λ copy. copy ≡ primitive.now) }
{
    Ok(match primitive {
        Primitive::Unary(operator) => Primitive::Unary(*operator),
        Primitive::Binary(operator) => Primitive::Binary(*operator),
        Primitive::Compare(relation) => Primitive::Compare(*relation),
        Primitive::HasKey => Primitive::HasKey,
        Primitive::HasText => Primitive::HasText,
        Primitive::HasAddress => Primitive::HasAddress,
        Primitive::HasIndex => Primitive::HasIndex,
        Primitive::Size => Primitive::Size,
        Primitive::Field(field) => Primitive::Field(*field),
        Primitive::HasField(field) => Primitive::HasField(*field),
        Primitive::Element => Primitive::Element,
        Primitive::Item => Primitive::Item,
        Primitive::NewTable(shape) => Primitive::NewTable(shape_copy(alloc, shape)?),
        Primitive::NewSet(shape) => Primitive::NewSet(shape_copy(alloc, shape)?),
        Primitive::NewVector => Primitive::NewVector,
        Primitive::Step { left, by } => Primitive::Step {
            left: *left,
            by: *by,
        },
        Primitive::BuiltIn(function) => Primitive::BuiltIn(*function),
        Primitive::Log(call) => Primitive::Log(log_call_copy(alloc, call)?),
    })
}
