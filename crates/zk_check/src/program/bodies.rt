ghost use Rattle.std.specs.Prelude.{◌≡◌, pos, neg_ℤ, Some, IfOk};
ghost use Rattle.std.specs.Option.{option_map};
ghost use Rattle.zk_scope.specs.Lent.{home_of};
ghost use Rattle.zk_typed.specs.declared.script.literal.DefaultValue.TheVariants as default;
ghost use Rattle.zk_typed.specs.declared.script.literal.Literal.TheVariants as literal;
ghost use Rattle.zk_typed.specs.Errors as errors;
ghost use Rattle.zk_typed.specs.Programs as spec;
ghost use Rattle.zk_typed.specs.Resolving.{Scripts};
ghost use Rattle.zk_typed.specs.Statements as statement;
ghost use Rattle.zk_check_statements.specs.Bodies.{within_of};
ghost use Rattle.zk_check_declarations.specs.Sources.{IsSource, scripts_from};
ghost use Rattle.zk_check.specs.Judging.{IsJudged};
ghost use Rattle.zk_typed.specs.View.{stmt_of, type_of};
ghost use Rattle.zk_check.specs.Programming.{IsBody, IsChecked, priority_in, stmts_or, value_of};

use crate::judged::{Judged, body_made, function_body_made};
use std::alloc::Global;
use zk_base::Mem;
use zk_check_declarations::Source;
use zk_check_operators::constant_typed;
use zk_check_statements::{Within, no_stmt};
use zk_scope::{Home, attr_value};
use zk_tree::{Attr, Block, Param, Type};
use zk_typed::Refusal;
use zk_typed::script::{DefaultValue, Literal, Sign, SimpleType, Stmt, ValueType};

const INT: ValueType = ValueType::Simple(SimpleType::Int);

/// A body of a program, and how many parameters and locals it has.
#[derive(Drop)]
pub struct Body {
    pub locals: u32,
    pub body: Stmt,
}

/// What was checked, where no rule is broken in it.
pub fn if_checked<T: Drop>(given: Result<T, Refusal>) -> Result<Option<T>, Mem>
    ensures { IsChecked given result }
{
    match given {
        Ok(one) => Ok(Some(one)),
        Err(Refusal::Broken(_)) => Ok(None),
        Err(Refusal::NoMemory) => Err(Mem),
    }
}

/// The value of an attribute where a type is wanted, where it is right.
pub fn value_of(
    alloc: Global,
    home: Home<'_>,
    attrs: &[Attr],
    name: &[u8],
    wanted: &ValueType,
) -> Result<Option<DefaultValue>, Mem>
    ensures { (scripts : Scripts) → IfOk result (λ made. made ≡ value_of scripts (home_of home.entry) attrs.now name.now (type_of wanted.now)) }
{
    match attr_value(attrs, name) {
        None => Ok(None),
        Some(one) => if_checked(constant_typed(alloc, home.file, wanted, one)),
    }
}

/// Statements that were found right; none stand for others.
fn stmts_or(alloc: Global, found: Option<Stmt>) -> Stmt
    ensures { stmt_of result ≡ stmts_or (option_map stmt_of found) }
{
    match found {
        Some(body) => body,
        None => no_stmt(alloc),
    }
}

/// A value, and how many names it has. More than their number can be are more than memory holds.
fn counted<T: Drop>(count: usize, one: T) -> Result<(u32, T), Mem>
    ensures { IfOk result (λ pair. (pair.0 ≡ count) × (pair.1 ≡ one)) }
{
    match u32::try_from(count) {
        Ok(count) => Ok((count, one)),
        Err(_) => Err(Mem),
    }
}

/// A body with so many names.
fn with_count(locals: usize, body: Stmt) -> Result<Body, Mem>
    ensures { IfOk result (λ made. (made.locals ≡ locals) × (made.body ≡ body)) }
{
    let (locals, body) = counted(locals, body)?;
    Ok(Body { locals, body })
}

/// A body that was judged; no statements stand for one that breaks rules.
fn body_of(alloc: Global, judged: Judged) -> Result<Body, Mem>
    ensures { (wanted : statement.Stated) → IsJudged judged wanted → IfOk result (λ made. IsBody made wanted) }
{
    let found = if_checked(judged.made)?;
    with_count(judged.locals, stmts_or(alloc, found))
}

/// A body of a hook or a handler, by its parameters and its statements.
pub fn body_in<'a>(
    source: &Source<'a>,
    home: Home<'a>,
    within: Within<'_>,
    params: &'a [Param],
    block: &'a Block,
) -> Result<Body, Mem>
    requires { IsSource source.now }
    ensures { IfOk result (λ made. IsBody made (errors.body_made (scripts_from source.now) (home_of home.entry) (within_of within.entry) params.now block.now)) }
{
    let judged = body_made(source, home, within, params, block);
    body_of(source.alloc, judged)
}

/// A body of a function, by its parameters, its result and its statements.
pub fn function_body_in<'a>(
    source: &Source<'a>,
    home: Home<'a>,
    params: &'a [Param],
    result_type: &'a Option<Type>,
    block: &'a Block,
) -> Result<Body, Mem>
    requires { IsSource source.now }
    ensures { IfOk result (λ made. IsBody made (errors.body_made (scripts_from source.now) (home_of home.entry) (statement.InFunction (errors.result_wanted (scripts_from source.now) (home_of home.entry) result_type.now)) params.now block.now)) }
{
    let judged = function_body_made(source, home, params, result_type, block);
    body_of(source.alloc, judged)
}

/// The int of a count below 0. One past the least int is more than memory holds.
fn negated(number: u64) -> Result<i64, Mem>
    ensures { IfOk result (λ made. made ≡ neg_ℤ (pos number)) }
{
    0_i64.checked_sub_unsigned(number).ok_or(Mem)
}

/// The int of a count. One past the greatest int is more than memory holds.
fn int_of(number: u64) -> Result<i64, Mem>
    ensures { IfOk result (λ made. made ≡ pos number) }
{
    0_i64.checked_add_unsigned(number).ok_or(Mem)
}

/// A count with its sign, as an int.
fn signed_count(number: u64, sign: Sign) -> Result<i64, Mem>
    ensures { IfOk result (λ made. made ≡ priority_in (Some (default.Literal (literal.Count number) sign))) }
{
    match sign {
        Sign::Negated => negated(number),
        Sign::Plain => int_of(number),
        Sign::Converted => int_of(number),
    }
}

/// The number that a literal is, as an int.
fn literal_number(literal: Literal, sign: Sign) -> Result<i64, Mem>
    ensures { IfOk result (λ number. number ≡ priority_in (Some (default.Literal literal sign))) }
{
    match literal {
        Literal::Count(number) => signed_count(number, sign),
        Literal::Bool(_) => Ok(0),
        Literal::String(_) => Ok(0),
        Literal::Interval(_) => Ok(0),
        Literal::Addr(_) => Ok(0),
        Literal::Port { .. } => Ok(0),
        Literal::Subnet { .. } => Ok(0),
        Literal::Enum(_) => Ok(0),
    }
}

/// The number that a value is, as an int.
fn number_of(one: DefaultValue) -> Result<i64, Mem>
    ensures { IfOk result (λ number. number ≡ priority_in (Some one)) }
{
    match one {
        DefaultValue::Literal { literal, sign } => literal_number(literal, sign),
        DefaultValue::EmptyTable => Ok(0),
        DefaultValue::EmptyVector => Ok(0),
    }
}

/// The value of `&priority` of a body, which is 0 where it has none.
pub fn priority_of(alloc: Global, home: Home<'_>, attrs: &[Attr]) -> Result<i64, Mem>
    ensures { (scripts : Scripts) → IfOk result (λ number. number ≡ spec.priority_of scripts (home_of home.entry) attrs.now) }
{
    match value_of(alloc, home, attrs, b"priority", &INT)? {
        Some(given) => number_of(given),
        None => Ok(0),
    }
}
