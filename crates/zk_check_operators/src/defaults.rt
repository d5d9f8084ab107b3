ghost use Rattle.std.specs.Prelude.{◌≡◌, IfOk};
ghost use Rattle.std.specs.Option.{option_map};
ghost use Rattle.zk_typed.specs.Declarations as spec;
ghost use Rattle.zk_typed.specs.Tells.{Tells};
ghost use Rattle.zk_typed.specs.Typing.{Env};
ghost use Rattle.zk_typed.specs.View.{type_of};
ghost use Rattle.zk_check_operators.specs.Literals.{literal_with_type, empty_where, default_of};

use crate::literals::interval_of;
use crate::same::{is_simple, same_simple};
use std::alloc::Global;
use zk_base::{Addr, Bytes, Mem};
use zk_tree::{Container, Expr, Literal as Token, Place, Prefix};
use zk_typed::script::{DefaultValue, Literal, Sign, SimpleType, ValueType};
use zk_typed::{Refusal, Rule, one_broken};

/// A string, a port, an address or a subnet, with its type.
fn token_of(alloc: Global, token: &Token) -> Result<(Literal, SimpleType), Mem>
    ensures { IfOk result (λ found. found ≡ literal_with_type token.now) }
{
    match token {
        Token::String(bytes) => {
            let copy = Bytes::copy_of(alloc, bytes.as_slice())?;
            Ok((Literal::String(copy), SimpleType::String))
        }
        Token::Port { port, proto } => Ok((
            Literal::Port {
                port: *port,
                proto: *proto,
            },
            SimpleType::Port,
        )),
        Token::Address(address) => Ok((Literal::Addr(Addr::V4(*address)), SimpleType::Addr)),
        Token::Subnet { prefix, width } => Ok((
            Literal::Subnet {
                prefix: *prefix,
                width: *width,
            },
            SimpleType::Subnet,
        )),
    }
}

/// A literal that an attribute takes, with its type.
fn literal_of(alloc: Global, one: &Expr) -> Result<Option<(Literal, SimpleType)>, Mem>
    ensures { IfOk result (λ found. found ≡ spec.literal_of one.now) }
{
    match one {
        Expr::Number { number, .. } => { Ok(Some((Literal::Count(*number), SimpleType::Count))) }
        Expr::Interval { number, unit, .. } => {
            let span = interval_of(*number, *unit);
            Ok(Some((Literal::Interval(span), SimpleType::Interval)))
        }
        Expr::Literal { literal, .. } => Ok(Some(token_of(alloc, literal)?)),
        Expr::Truth { truth, .. } => Ok(Some((Literal::Bool(*truth), SimpleType::Bool))),
        Expr::Assign { .. }
        | Expr::Choice { .. }
        | Expr::Chain { .. }
        | Expr::Compare { .. }
        | Expr::Unary { .. }
        | Expr::Post { .. }
        | Expr::Name { .. }
        | Expr::Parenthesis { .. }
        | Expr::Size { .. }
        | Expr::List { .. }
        | Expr::Make { .. }
        | Expr::Hook { .. } => Ok(None),
    }
}

/// The operand of a minus sign.
fn minus_operand(one: &Expr) -> Option<&Expr>
    ensures { option_map (λ operand. operand.now) result ≡ spec.minus_operand one.now }
{
    match one {
        Expr::Unary {
            operator,
            operand,
            ..
        } => match operator {
            Prefix::Negate => Some(operand.get()),
            Prefix::Not | Prefix::Increment | Prefix::Decrement => None,
        },
        Expr::Assign { .. }
        | Expr::Choice { .. }
        | Expr::Chain { .. }
        | Expr::Compare { .. }
        | Expr::Post { .. }
        | Expr::Number { .. }
        | Expr::Interval { .. }
        | Expr::Literal { .. }
        | Expr::Truth { .. }
        | Expr::Name { .. }
        | Expr::Parenthesis { .. }
        | Expr::Size { .. }
        | Expr::List { .. }
        | Expr::Make { .. }
        | Expr::Hook { .. } => None,
    }
}

/// A literal where a type is wanted.
fn literal_default(
    alloc: Global,
    place: Place,
    wanted: &ValueType,
    literal: Literal,
    simple: SimpleType,
) -> Result<DefaultValue, Refusal>
    ensures { Tells (λ made. made) result (spec.literal_default place (type_of wanted.now) (literal, simple)) }
{
    if is_simple(wanted, simple) {
        return Ok(DefaultValue::Literal {
            literal,
            sign: Sign::Plain,
        });
    }
    if is_simple(wanted, SimpleType::Int) && same_simple(simple, SimpleType::Count) {
        return Ok(DefaultValue::Literal {
            literal,
            sign: Sign::Converted,
        });
    }
    drop(literal);
    Err(Refusal::Broken(one_broken(alloc, Rule::WrongType, place)?))
}

/// The negative of a literal where a type is wanted.
fn negative_default(
    alloc: Global,
    place: Place,
    wanted: &ValueType,
    literal: Literal,
    simple: SimpleType,
) -> Result<DefaultValue, Refusal>
    ensures { Tells (λ made. made) result (spec.negative_default place (type_of wanted.now) (literal, simple)) }
{
    let counts = is_simple(wanted, SimpleType::Int) && same_simple(simple, SimpleType::Count);
    let spans = is_simple(wanted, SimpleType::Interval)
        && same_simple(simple, SimpleType::Interval);
    if counts || spans {
        return Ok(DefaultValue::Literal {
            literal,
            sign: Sign::Negated,
        });
    }
    drop(literal);
    Err(Refusal::Broken(one_broken(alloc, Rule::WrongType, place)?))
}

/// The container that is made without items.
fn empty_container(one: &Expr) -> Option<Container>
    ensures { result ≡ spec.empty_container one.now }
{
    match one {
        Expr::Make {
            container,
            items,
            ..
        } => {
            if items.is_empty() {
                Some(*container)
            } else {
                None
            }
        }
        Expr::Assign { .. }
        | Expr::Choice { .. }
        | Expr::Chain { .. }
        | Expr::Compare { .. }
        | Expr::Unary { .. }
        | Expr::Post { .. }
        | Expr::Number { .. }
        | Expr::Interval { .. }
        | Expr::Literal { .. }
        | Expr::Truth { .. }
        | Expr::Name { .. }
        | Expr::Parenthesis { .. }
        | Expr::Size { .. }
        | Expr::List { .. }
        | Expr::Hook { .. } => None,
    }
}

/// A new empty container of a kind, where it has the type that is wanted.
fn empty_default(wanted: &ValueType, made: Container) -> Option<DefaultValue>
    ensures { result ≡ empty_where (type_of wanted.now) made }
{
    match wanted {
        ValueType::Table { .. } => match made {
            Container::Table => Some(DefaultValue::EmptyTable),
            Container::Set | Container::Vector => None,
        },
        ValueType::Set { .. } => match made {
            Container::Set => Some(DefaultValue::EmptyTable),
            Container::Table | Container::Vector => None,
        },
        ValueType::Vector { .. } => match made {
            Container::Vector => Some(DefaultValue::EmptyVector),
            Container::Table | Container::Set => None,
        },
        ValueType::Simple(_) | ValueType::Record(_) => None,
    }
}

/// What a container that is made without items is where a type is wanted.
#[tactic(auto, using(crate::proofs::Containers::container_is))]
fn container_default(
    alloc: Global,
    place: Place,
    wanted: &ValueType,
    made: Container,
) -> Result<DefaultValue, Refusal>
    ensures { Tells (λ made. made) result (spec.container_default place (type_of wanted.now) made) }
{
    match empty_default(wanted, made) {
        Some(value) => Ok(value),
        None => Err(Refusal::Broken(one_broken(alloc, Rule::WrongType, place)?)),
    }
}

/// The value of `&default` where it isn't a literal by itself: one with a minus sign, or an empty
/// container.
fn other_default(
    alloc: Global,
    place: Place,
    wanted: &ValueType,
    one: &Expr,
) -> Result<DefaultValue, Refusal>
    ensures { Tells (λ made. made) result (default_of place (type_of wanted.now) (spec.minus_operand one.now) (spec.empty_container one.now)) }
{
    if let Some(operand) = minus_operand(one) {
        return match literal_of(alloc, operand)? {
            Some((literal, simple)) => negative_default(alloc, place, wanted, literal, simple),
            None => Err(Refusal::Broken(one_broken(alloc, Rule::NotConst, place)?)),
        };
    }
    match empty_container(one) {
        Some(made) => container_default(alloc, place, wanted, made),
        None => Err(Refusal::Broken(one_broken(alloc, Rule::NotConst, place)?)),
    }
}

/// The value of `&default`, of `&priority` and of an expiry, where a type is wanted: a literal with at
/// most one minus sign, or an empty container. The expression stands in the file of this number, and keeps
/// the rules of expressions.
pub fn constant_typed(
    alloc: Global,
    file: usize,
    wanted: &ValueType,
    one: &Expr,
) -> Result<DefaultValue, Refusal>
    ensures { (env : Env) → env.home.file ≡ file → Tells (λ made. made) result (spec.constant_typed env (type_of wanted.now) one.now) }
{
    let place = Place {
        file,
        byte: one.place(),
    };
    match literal_of(alloc, one)? {
        Some((literal, simple)) => literal_default(alloc, place, wanted, literal, simple),
        None => other_default(alloc, place, wanted, one),
    }
}
