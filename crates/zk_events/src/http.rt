ghost use Rattle.std.specs.Prelude.{◌≡◌, ◌∷◌, [], fold, map, OnOk, IfOk};
ghost use Rattle.std.specs.Char.{to_ascii_uppercase};
ghost use Rattle.percent_encoding.specs.Percent.{percent_decode};
ghost use Rattle.zk_events.specs.Becomes.{Becomes};
ghost use Rattle.zk_events.specs.Http.{head_raises, header_raises, reason_number, start_raises, unit_raises, version};
ghost use Rattle.zk_http.specs.declared.units.UnitKind.TheVariants.{Done};
ghost use Rattle.zk_tree.specs.Value as plain;
ghost use Rattle.zk_value.specs.Plain.{value_of};

use crate::numbers::{
    HTTP_HEADER, HTTP_MESSAGE_DONE, HTTP_MESSAGE_STAT, HTTP_REPLY, HTTP_REQUEST, HTTP_TUNNEL,
    HTTP_VIOLATION,
};
use crate::sealed::SealedMachine;
use crate::values::{is_orig, text};
use percent_encoding::percent_decode;
use std::alloc::Global;
use zk_base::{Bytes, Mem, ObjectNo, Side};
use zk_http::{Head, Reason, Start, UnitKind};
use zk_value::{SharedBytes, Value};

// The fields of `http_message_stat`.
const BODY_LENGTH: u32 = 0;

const HEADER_LENGTH: u32 = 1;

const CONTENT_GAP_LENGTH: u32 = 2;

/// Queues the events of a part of a message of HTTP (Zeek manual, HTTP events).
pub fn raise_unit(
    alloc: Global,
    machine: &mut SealedMachine,
    c: ObjectNo,
    side: Side,
    unit: &UnitKind,
) -> Result<(), Mem>
    ensures { OnOk result (Becomes machine.old machine.new (λ program. unit_raises program c side unit.now)) }
{
    match unit {
        UnitKind::Head(head) => raise_head(alloc, machine, c, side, head),
        UnitKind::Done { body, head, gap } => {
            raise_done(alloc, machine, c, side, *body, *head, *gap)
        }
        UnitKind::Tunnel => machine.queue(HTTP_TUNNEL, vec![in alloc; Value::Object(c)]?),
        UnitKind::Violation(reason) => {
            let reason = Value::Count(reason_number(*reason));
            let args = vec![in alloc; Value::Object(c), is_orig(side), reason]?;
            machine.queue(HTTP_VIOLATION, args)
        }
    }
}

fn raise_head(
    alloc: Global,
    machine: &mut SealedMachine,
    c: ObjectNo,
    side: Side,
    head: &Head,
) -> Result<(), Mem>
    ensures { OnOk result (Becomes machine.old machine.new (λ program. head_raises c side head.now)) }
{
    raise_start(alloc, machine, c, &head.start)?;
    for header in head.headers.as_slice() {
        raise_header(alloc, machine, c, side, header)?;
    }
    Ok(())
}

fn raise_start(
    alloc: Global,
    machine: &mut SealedMachine,
    c: ObjectNo,
    start: &Start,
) -> Result<(), Mem>
    ensures { OnOk result (Becomes machine.old machine.new (λ program. start_raises c start.now)) }
{
    match start {
        Start::Request {
            method,
            target,
            minor,
        } => {
            let method = text(alloc, method.as_slice())?;
            let original = text(alloc, target.as_slice())?;
            let unescaped = unescaped(alloc, target.as_slice())?;
            let version = text(alloc, version(*minor))?;
            let args = vec![in alloc; Value::Object(c), method, original, unescaped, version]?;
            machine.queue(HTTP_REQUEST, args)
        }
        Start::Response {
            minor,
            code,
            reason,
        } => {
            let version = text(alloc, version(*minor))?;
            let code = Value::Count(u64::from(*code));
            let reason = text(alloc, reason.as_slice())?;
            machine.queue(
                HTTP_REPLY,
                vec![in alloc; Value::Object(c), version, code, reason]?,
            )
        }
    }
}

fn raise_header(
    alloc: Global,
    machine: &mut SealedMachine,
    c: ObjectNo,
    side: Side,
    header: &(Bytes, Bytes),
) -> Result<(), Mem>
    ensures { OnOk result (Becomes machine.old machine.new (λ program world. header_raises c side world header.now)) }
{
    let original = text(alloc, header.0.as_slice())?;
    let name = capitals(alloc, header.0.as_slice())?;
    let value = text(alloc, header.1.as_slice())?;
    let args = vec![in alloc; Value::Object(c), is_orig(side), original, name, value]?;
    machine.queue(HTTP_HEADER, args)
}

/// The end of a message: the lengths of its body, of its head and of the gaps in its body.
fn raise_done(
    alloc: Global,
    machine: &mut SealedMachine,
    c: ObjectNo,
    side: Side,
    body: u64,
    head: u32,
    gap: u64,
) -> Result<(), Mem>
    ensures { OnOk result (Becomes machine.old machine.new (λ program. unit_raises program c side (Done body head gap))) }
{
    let lengths = vec![in alloc;
        (BODY_LENGTH, Value::Count(body)),
        (HEADER_LENGTH, Value::Count(u64::from(head))),
        (CONTENT_GAP_LENGTH, Value::Count(gap)),
    ]?;
    let stat = machine.fresh_object(HTTP_MESSAGE_STAT, lengths)?;
    let args = vec![in alloc; Value::Object(c), is_orig(side), Value::Object(stat)]?;
    machine.queue(HTTP_MESSAGE_DONE, args)
}

/// The version of a message, by its minor number.
fn version(minor: u8) -> &'static [u8]
    ensures { result.now ≡ version minor }
{
    if minor == 0 { b"1.0" } else { b"1.1" }
}

/// A request target with each `%HH` replaced by its byte (RFC 3986, section 2.1).
fn unescaped(alloc: Global, target: &[u8]) -> Result<Value, Mem>
    ensures { IfOk result (λ value. value_of value ≡ plain.String (percent_decode target.now)) }
{
    let mut bytes = Vec::new(alloc);
    percent_decode(target).append_to(&mut bytes)?;
    Ok(Value::String(SharedBytes::of(Bytes::from(bytes))?))
}

/// A text with its small ASCII letters made capitals.
fn capitals(alloc: Global, name: &[u8]) -> Result<Value, Mem>
    ensures { IfOk result (λ value. value_of value ≡ plain.String (map to_ascii_uppercase name.now)) }
{
    let bytes: Vec<u8> = name
        .iter()
        .map(|byte| byte.to_ascii_uppercase())
        .collect(alloc)?;
    Ok(Value::String(SharedBytes::of(Bytes::from(bytes))?))
}

/// The number of the reason of a violation.
pub fn reason_number(reason: Reason) -> u64
    ensures { result ≡ reason_number reason }
{
    match reason {
        Reason::HeadTooLong => 1,
        Reason::HeadBad => 2,
        Reason::TooManyHeaders => 3,
        Reason::LengthBad => 4,
        Reason::CodingBad => 5,
        Reason::ChunkBad => 6,
        Reason::Unpaired => 7,
        Reason::Gap => 8,
    }
}
