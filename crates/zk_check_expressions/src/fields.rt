ghost use Rattle.std.specs.Prelude.{◌≡◌, ◌∷◌, ◌≤◌, ◌^◌, [], false, length, IfOk, OnErr, MatchResult};
ghost use Rattle.std.specs.Option.{option_map};
ghost use Rattle.zk_scope.specs.Fields.{field_found as owned_found, fields_lent, known_or};
ghost use Rattle.zk_check_operators.specs.Views.{typed_of};
ghost use Rattle.zk_typed.specs.declared.script.expr.Expr.TheVariants as expr;
ghost use Rattle.zk_typed.specs.declared.script.primitive.Primitive.TheVariants as primitive;
ghost use Rattle.zk_typed.specs.Making as making;
ghost use Rattle.zk_typed.specs.Tells.{Tells};
ghost use Rattle.zk_typed.specs.View.{type_of};
ghost use Rattle.zk_check_expressions.specs.Envs.{env_of};
ghost use Rattle.zk_check_expressions.specs.declared.fields.Read.TheVariants as read;
ghost use Rattle.zk_check_expressions.specs.Fields.{IsRead, field_found, typed_field, field_among, is_lone};

use crate::env::Env;
use sqlite_items::Items;
use std::alloc::Global;
use zk_base::{Mem, RecordNo};
use zk_check_operators::Typed;
use zk_scope::FieldInfo;
use zk_tree::{Name, Place};
use zk_typed::script::{Expr, FieldNo, Primitive, ValueType};
use zk_typed::{Refusal, Rule, copied_type, one_broken};

/// A value, by where it is read.
#[derive(Debug, Drop)]
pub enum Read {
    /// From a field marked `&wire` of a record.
    Wire { from: Expr, read: FieldNo },
    /// Not from such a field: the expression as it was.
    Whole(Expr),
}

/// The field of a name among some, and its number. More fields than numbers are more than memory holds.
pub fn field_named<'a, 'b>(
    fields: &'b [FieldInfo<'a>],
    name: &[u8],
) -> Result<Option<(u32, &'b FieldInfo<'a>)>, Mem>
    ensures found { IfOk result (λ found. option_map field_found found ≡ making.field_named name.now 0 (fields_lent fields.entry.now)) }
    ensures err { OnErr result (2 ^ 32 ≤ length fields.entry.now) }
{
    for (number, field) in fields.iter().enumerate() {
        if field.name == name {
            return match u32::try_from(number) {
                Ok(number) => Ok(Some((number, field))),
                Err(_) => Err(Mem),
            };
        }
    }
    Ok(None)
}

/// A type that is known where its declaration isn't broken.
pub fn known_type(alloc: Global, one: &Option<ValueType>) -> Result<ValueType, Refusal>
    ensures { Tells type_of result (known_or (option_map type_of one.now)) }
{
    match one {
        None => Err(Refusal::Broken(Items::new(alloc))),
        Some(one) => Ok(copied_type(alloc, one)?),
    }
}

/// A field that was found in a record type, and its type.
#[tactic(auto, using(crate::proofs::Steps::type_passed))]
fn field_in(
    alloc: Global,
    place: Place,
    number: RecordNo,
    found: Option<(u32, FieldInfo<'_>)>,
) -> Result<(FieldNo, ValueType), Refusal>
    ensures { Tells typed_field result (field_among place number (option_map owned_found found.entry)) }
{
    match found {
        None => Err(Refusal::Broken(one_broken(alloc, Rule::Field, place)?)),
        Some((field, one)) => match known_type(alloc, &one.field_type) {
            Ok(value_type) => Ok((
                FieldNo {
                    record: number,
                    field,
                },
                value_type,
            )),
            Err(refusal) => Err(refusal),
        },
    }
}

/// The field of a record that a name names, and its type; its place is that of the whole expression.
#[tactic(auto, using(crate::proofs::FoundFields::field_is))]
pub fn field_of(
    alloc: Global,
    env: &Env<'_>,
    place: Place,
    name: &Name,
    one: &Typed,
) -> Result<(FieldNo, ValueType), Refusal>
    ensures { Tells typed_field result (making.field_of (env_of env.now) place name.now (typed_of one.now)) }
{
    match &one.value_type {
        ValueType::Record(record) => {
            let text = name.text.as_slice();
            let found = env.scripts.field_named(alloc, *record, text)?;
            field_in(alloc, place, *record, found)
        }
        ValueType::Simple(_)
        | ValueType::Table { .. }
        | ValueType::Set { .. }
        | ValueType::Vector { .. } => {
            Err(Refusal::Broken(one_broken(alloc, Rule::WrongType, place)?))
        }
    }
}

/// Whether a field is marked `&wire`.
#[tactic(auto, using(crate::proofs::FoundFields::wire_found))]
pub fn is_wire(alloc: Global, env: &Env<'_>, one: FieldNo) -> Result<bool, Mem>
    ensures { IfOk result (λ wire. wire ≡ making.is_wire (env_of env.now) one) }
{
    match env.scripts.field_at(alloc, one)? {
        None => Ok(false),
        Some(field) => Ok(field.wire),
    }
}

/// The operand that is alone, or the operands as they were.
#[tactic(auto, using(crate::proofs::WireLaws::last_alone))]
fn alone(mut operands: Items<Expr>) -> Result<Expr, Items<Expr>>
    ensures { MatchResult result (λ one. operands ≡ one ∷ []) (λ all. (all ≡ operands) × (is_lone operands ≡ false)) }
{
    if operands.len() != 1 {
        return Err(operands);
    }
    match operands.pop() {
        Some(one) => Ok(one),
        None => Err(operands),
    }
}

/// What reads a field of its operands, as the expression that it is.
fn whole(field: FieldNo, operands: Items<Expr>) -> Read
    ensures { result ≡ read.Whole (expr.Apply (primitive.Field field) operands) }
{
    Read::Whole(Expr::Apply {
        primitive: Primitive::Field(field),
        operands,
    })
}

/// What reads a field of its operands, by that field where it is marked `&wire`.
#[tactic(auto, using(crate::proofs::WireLaws::wire_is, crate::proofs::WireLaws::unmarked_is, crate::proofs::WireLaws::several_is))]
fn field_read(
    alloc: Global,
    env: &Env<'_>,
    field: FieldNo,
    operands: Items<Expr>,
) -> Result<Read, Mem>
    ensures { IfOk result (λ made. IsRead (env_of env.now) (expr.Apply (primitive.Field field) operands) made) }
{
    if !is_wire(alloc, env, field)? {
        return Ok(whole(field, operands));
    }
    match alone(operands) {
        Ok(from) => Ok(Read::Wire { from, read: field }),
        Err(operands) => Ok(whole(field, operands)),
    }
}

/// A value that is read from a field marked `&wire`, by that field.
pub fn wire_read(alloc: Global, env: &Env<'_>, one: Expr) -> Result<Read, Mem>
    ensures { IfOk result (λ read. IsRead (env_of env.now) one read) }
{
    match one {
        Expr::Apply {
            primitive: Primitive::Field(read),
            operands,
        } => field_read(alloc, env, read, operands),
        other => Ok(Read::Whole(other)),
    }
}
