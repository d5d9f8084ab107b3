ghost use Rattle.std.specs.Prelude.{◌≡◌, codes, Some, IfOk};
ghost use Rattle.std.specs.Option.{option_map};
ghost use Rattle.zk_scope.specs.Lent.{home_of};
ghost use Rattle.zk_typed.specs.declared.script.literal.DefaultValue.TheVariants as default;
ghost use Rattle.zk_typed.specs.declared.script.literal.Literal.TheVariants as literal;
ghost use Rattle.zk_typed.specs.Programs as spec;
ghost use Rattle.zk_typed.specs.Names.{look_up};
ghost use Rattle.zk_typed.specs.Resolving.{Scripts, attr_value};
ghost use Rattle.zk_typed.specs.Typing.{is_function, number_among};
ghost use Rattle.zk_typed.specs.View.{expr_of, type_of};
ghost use Rattle.zk_check.specs.Globals.{first_expiry, primitive_shaped, span_in, span_of};
ghost use Rattle.zk_check_declarations.specs.Sources.{scripts_from};

use crate::program::bodies::value_of;
use std::alloc::Global;
use zk_base::{Mem, Span};
use zk_check_declarations::Source;
use zk_scope::{Home, Kind, attr_value};
use zk_tree::{Attr, Expiry, Expr as Syntax, Name};
use zk_typed::script::{
    DefaultValue, Expr, Literal, Primitive, Shape, Sign, SimpleType, ValueType,
};

const INTERVAL: ValueType = ValueType::Simple(SimpleType::Interval);

/// A length of time with its sign. One that no interval holds is more than memory holds.
fn signed_span(span: Span, sign: Sign) -> Result<Span, Mem>
    ensures { IfOk result (λ made. made ≡ span_in (default.Literal (literal.Interval span) sign)) }
{
    match sign {
        Sign::Negated => {
            let negated = span.0.checked_neg().ok_or(Mem)?;
            Ok(Span(negated))
        }
        Sign::Plain => Ok(span),
        Sign::Converted => Ok(span),
    }
}

/// The length of time that a literal is.
fn literal_span(literal: Literal, sign: Sign) -> Result<Span, Mem>
    ensures { IfOk result (λ span. span ≡ span_in (default.Literal literal sign)) }
{
    match literal {
        Literal::Interval(span) => signed_span(span, sign),
        Literal::Bool(_) => Ok(Span(0)),
        Literal::Count(_) => Ok(Span(0)),
        Literal::String(_) => Ok(Span(0)),
        Literal::Addr(_) => Ok(Span(0)),
        Literal::Port { .. } => Ok(Span(0)),
        Literal::Subnet { .. } => Ok(Span(0)),
        Literal::Enum(_) => Ok(Span(0)),
    }
}

/// The length of time that a value is.
fn span_in(one: DefaultValue) -> Result<Span, Mem>
    ensures { IfOk result (λ span. span ≡ span_in one) }
{
    match one {
        DefaultValue::Literal { literal, sign } => literal_span(literal, sign),
        DefaultValue::EmptyTable => Ok(Span(0)),
        DefaultValue::EmptyVector => Ok(Span(0)),
    }
}

/// The value of an attribute that is a length of time.
fn span_of(alloc: Global, home: Home<'_>, attrs: &[Attr], name: &[u8]) -> Result<Option<Span>, Mem>
    ensures { (scripts : Scripts) → IfOk result (λ span. span ≡ span_of scripts (home_of home.entry) attrs.now name.now) }
{
    match value_of(alloc, home, attrs, name, &INTERVAL)? {
        Some(given) => Ok(Some(span_in(given)?)),
        None => Ok(None),
    }
}

/// When entries expire, by the first of three lengths of time.
fn first_expiry(create: Option<Span>, read: Option<Span>, write: Option<Span>) -> Option<Expiry>
    ensures { result ≡ first_expiry create read write }
{
    match create {
        Some(span) => Some(Expiry::Create(span)),
        None => match read {
            Some(span) => Some(Expiry::Read(span)),
            None => match write {
                Some(span) => Some(Expiry::Write(span)),
                None => None,
            },
        },
    }
}

/// When the entries of a global expire, where they do.
pub fn expiry_of(alloc: Global, home: Home<'_>, attrs: &[Attr]) -> Result<Option<Expiry>, Mem>
    ensures { (scripts : Scripts) → IfOk result (λ expiry. expiry ≡ spec.expiry_of scripts (home_of home.entry) attrs.now) }
{
    let create = span_of(alloc, home, attrs, b"create_expire")?;
    let read = span_of(alloc, home, attrs, b"read_expire")?;
    let write = span_of(alloc, home, attrs, b"write_expire")?;
    Ok(first_expiry(create, read, write))
}

/// The type that the value of `&default` is to have.
fn default_type(one: &ValueType) -> &ValueType
    ensures { type_of result.now ≡ spec.default_type (type_of one.now) }
{
    match one {
        ValueType::Table { value, .. } => value.get(),
        ValueType::Simple(_) => one,
        ValueType::Record(_) => one,
        ValueType::Set { .. } => one,
        ValueType::Vector { .. } => one,
    }
}

/// The value of `&default` of a global, where it has one.
pub fn default_of(
    alloc: Global,
    home: Home<'_>,
    one: &ValueType,
    attrs: &[Attr],
) -> Result<Option<DefaultValue>, Mem>
    ensures { (scripts : Scripts) → IfOk result (λ made. made ≡ spec.default_of scripts (home_of home.entry) (type_of one.now) attrs.now) }
{
    value_of(alloc, home, attrs, b"default", default_type(one))
}

/// The number of the function that a name means.
fn function_of(source: &Source<'_>, home: Home<'_>, name: &Name) -> Result<Option<u32>, Mem>
    ensures { IfOk result (λ number. number ≡ option_map (number_among is_function (scripts_from source.now)) (look_up (scripts_from source.now).names home.entry.module_name.now name.now.text)) }
{
    let names = &source.scripts.names;
    match names.look_up(source.alloc, home.module_name, name.text.as_slice())? {
        Some(one) => Ok(Some(names.number_among(Kind::Function, one)?)),
        None => Ok(None),
    }
}

/// The number of the function that an expression names.
fn function_named(source: &Source<'_>, home: Home<'_>, one: &Syntax) -> Result<Option<u32>, Mem>
    ensures { IfOk result (λ number. number ≡ spec.function_number (scripts_from source.now) (home_of home.entry) (Some one.now)) }
{
    match one {
        Syntax::Name { name } => function_of(source, home, name),
        Syntax::Assign { .. }
        | Syntax::Choice { .. }
        | Syntax::Chain { .. }
        | Syntax::Compare { .. }
        | Syntax::Unary { .. }
        | Syntax::Post { .. }
        | Syntax::Number { .. }
        | Syntax::Interval { .. }
        | Syntax::Literal { .. }
        | Syntax::Truth { .. }
        | Syntax::Parenthesis { .. }
        | Syntax::Size { .. }
        | Syntax::List { .. }
        | Syntax::Make { .. }
        | Syntax::Hook { .. } => Ok(None),
    }
}

/// The function of `&expire_func`, by its number.
pub fn expire_func_of(
    source: &Source<'_>,
    home: Home<'_>,
    attrs: &[Attr],
) -> Result<Option<u32>, Mem>
    ensures { IfOk result (λ number. number ≡ spec.function_number (scripts_from source.now) (home_of home.entry) (attr_value (codes "expire_func") attrs.now)) }
{
    match attr_value(attrs, b"expire_func") {
        Some(one) => function_named(source, home, one),
        None => Ok(None),
    }
}

/// What a table or set is made with that has the expiry and the default of its global.
fn with_shape(expiry: Option<Expiry>, default: Option<DefaultValue>, shape: Shape) -> Shape
    ensures { result ≡ spec.with_shape expiry default shape }
{
    Shape {
        keys: shape.keys,
        expiry,
        default,
    }
}

/// What makes a table or a set, with the expiry and the default of its global.
fn primitive_shaped(
    expiry: Option<Expiry>,
    default: Option<DefaultValue>,
    primitive: Primitive,
) -> Primitive
    ensures { result ≡ primitive_shaped expiry default primitive }
{
    match primitive {
        Primitive::NewTable(shape) => Primitive::NewTable(with_shape(expiry, default, shape)),
        Primitive::NewSet(shape) => Primitive::NewSet(with_shape(expiry, default, shape)),
        other => other,
    }
}

/// A table or set that is made, with the expiry and the default of its global.
#[tactic(auto, using(crate::proofs::ProgramLaws::shaped_apply, zk_check_operators::proofs::Forms::apply_is))]
pub fn shaped(expiry: Option<Expiry>, default: Option<DefaultValue>, one: Expr) -> Expr
    ensures { expr_of result ≡ spec.shaped expiry default (expr_of one) }
{
    match one {
        Expr::Apply {
            primitive,
            operands,
        } => Expr::Apply {
            primitive: primitive_shaped(expiry, default, primitive),
            operands,
        },
        other => other,
    }
}
