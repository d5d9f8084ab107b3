ghost use Rattle.std.specs.Prelude.{◌≡◌, ◌∷◌, ◌++◌, [], fold, map, slice_index, OnOk, IfOk};
ghost use Rattle.zk_events.specs.Becomes.{Becomes, Makes};
ghost use Rattle.zk_events.specs.Dns.{answer_fields, answer_raises, content_raises, fault_raises, kind_raises, message_fields, message_raises, name_raises, question_raises, soa_fields, vector_of};
ghost use Rattle.zk_events.specs.Numbers as number;
ghost use Rattle.zk_events.specs.Raising.{made};
ghost use Rattle.zk_tree.specs.Value as plain;
ghost use Rattle.zk_value.specs.Plain.{key_of, value_of};

use crate::numbers::{
    DNS_A_REPLY, DNS_AAAA_REPLY, DNS_ANSWER, DNS_CNAME_REPLY, DNS_END, DNS_MESSAGE, DNS_MSG,
    DNS_MX_REPLY, DNS_NS_REPLY, DNS_PTR_REPLY, DNS_REQUEST, DNS_SOA, DNS_SOA_REPLY, DNS_TXT_REPLY,
    DNS_UNKNOWN_REPLY, DNS_VIOLATION,
};
use crate::sealed::SealedMachine;
use crate::values::{address, is_orig, seconds, text};
use std::alloc::Global;
use zk_base::{Addr, Bytes, Mem, ObjectNo, Side};
use zk_dns::{Answer, AnswerKind, DnsRecord, Question};
use zk_value::Value;

// The types of records whose data is a name (RFC 1035, section 3.2.2).
const NS: u16 = 2;

const CNAME: u16 = 5;

const PTR: u16 = 12;

/// Queues the events of a message of DNS that has so many bytes (Zeek manual, DNS events).
pub fn raise_message(
    alloc: Global,
    machine: &mut SealedMachine,
    c: ObjectNo,
    side: Side,
    len: u32,
    message: &DnsRecord,
) -> Result<(), Mem>
    ensures { OnOk result (Becomes machine.old machine.new (λ program. message_raises program c side len message.now)) }
{
    let msg = make_message(alloc, machine, message)?;
    let len = Value::Count(u64::from(len));
    let args = vec![in alloc; Value::Object(c), is_orig(side), Value::Object(msg), len]?;
    machine.queue(DNS_MESSAGE, args)?;
    if message.qr {
        raise_answers(alloc, machine, c, msg, message.answers.as_slice())?;
    } else {
        raise_questions(alloc, machine, c, msg, message.questions.as_slice())?;
    }
    machine.queue(
        DNS_END,
        vec![in alloc; Value::Object(c), Value::Object(msg)]?,
    )
}

/// Queues the event of bytes that are no message, by the number of their fault.
pub fn raise_fault(
    alloc: Global,
    machine: &mut SealedMachine,
    c: ObjectNo,
    side: Side,
    fault: u8,
) -> Result<(), Mem>
    ensures { OnOk result (Becomes machine.old machine.new (λ program. fault_raises c side fault)) }
{
    let fault = Value::Count(u64::from(fault));
    machine.queue(
        DNS_VIOLATION,
        vec![in alloc; Value::Object(c), is_orig(side), fault]?,
    )
}

/// Makes the `dns_msg` of a message.
fn make_message(
    alloc: Global,
    machine: &mut SealedMachine,
    message: &DnsRecord,
) -> Result<ObjectNo, Mem>
    ensures { IfOk result (λ one. Makes machine.old machine.new one (λ program. made program number.dns_msg (message_fields message.now))) }
{
    let [questions, answers, authority, additional] = message.counts;
    let fields = vec![in alloc;
        (0, Value::Count(u64::from(message.id))),
        (1, Value::Count(u64::from(message.opcode))),
        (2, Value::Count(u64::from(message.rcode))),
        (3, Value::Bool(message.qr)),
        (4, Value::Bool(message.aa)),
        (5, Value::Bool(message.tc)),
        (6, Value::Bool(message.rd)),
        (7, Value::Bool(message.ra)),
        (8, Value::Count(u64::from(questions))),
        (9, Value::Count(u64::from(answers))),
        (10, Value::Count(u64::from(authority))),
        (11, Value::Count(u64::from(additional))),
    ]?;
    machine.fresh_object(DNS_MSG, fields)
}

fn raise_questions(
    alloc: Global,
    machine: &mut SealedMachine,
    c: ObjectNo,
    msg: ObjectNo,
    questions: &[Question],
) -> Result<(), Mem>
    ensures { OnOk result (Becomes machine.old machine.new (λ program world. fold (question_raises c msg) world questions.now)) }
{
    for question in questions {
        raise_question(alloc, machine, c, msg, question)?;
    }
    Ok(())
}

fn raise_question(
    alloc: Global,
    machine: &mut SealedMachine,
    c: ObjectNo,
    msg: ObjectNo,
    question: &Question,
) -> Result<(), Mem>
    ensures { OnOk result (Becomes machine.old machine.new (λ program world. question_raises c msg world question.now)) }
{
    let name = text(alloc, question.name.as_slice())?;
    let qtype = Value::Count(u64::from(question.qtype));
    let qclass = Value::Count(u64::from(question.qclass));
    let args = vec![in alloc; Value::Object(c), Value::Object(msg), name, qtype, qclass]?;
    machine.queue(DNS_REQUEST, args)
}

fn raise_answers(
    alloc: Global,
    machine: &mut SealedMachine,
    c: ObjectNo,
    msg: ObjectNo,
    answers: &[Answer],
) -> Result<(), Mem>
    ensures { OnOk result (Becomes machine.old machine.new (λ program world. fold (answer_raises program c msg) world answers.now)) }
{
    for answer in answers {
        raise_answer(alloc, machine, c, msg, answer)?;
    }
    Ok(())
}

/// Queues the event of a record of an answer section, with a `dns_answer` of its own.
fn raise_answer(
    alloc: Global,
    machine: &mut SealedMachine,
    c: ObjectNo,
    msg: ObjectNo,
    answer: &Answer,
) -> Result<(), Mem>
    ensures { OnOk result (Becomes machine.old machine.new (λ program world. answer_raises program c msg world answer.now)) }
{
    let fields = vec![in alloc;
        (0, text(alloc, answer.name.as_slice())?),
        (1, Value::Count(u64::from(answer.rtype))),
        (2, Value::Count(u64::from(answer.rclass))),
        (3, seconds(answer.ttl)),
    ]?;
    let ans = machine.fresh_object(DNS_ANSWER, fields)?;
    let args = vec![in alloc; Value::Object(c), Value::Object(msg), Value::Object(ans)]?;
    raise_kind(alloc, machine, answer.rtype, &answer.what, args)
}

/// Queues the event of what the data of a record says. It is given what each such event is given, and then
/// what the data says.
fn raise_kind(
    alloc: Global,
    machine: &mut SealedMachine,
    rtype: u16,
    kind: &AnswerKind,
    mut args: Vec<Value>,
) -> Result<(), Mem>
    ensures { OnOk result (Becomes machine.old machine.new (λ program. kind_raises program rtype kind.now (key_of args.items))) }
{
    match kind {
        AnswerKind::A(host) => {
            args.push(address(alloc, Addr::V4(*host))?)?;
            machine.queue(DNS_A_REPLY, args)
        }
        AnswerKind::Aaaa(host) => {
            args.push(address(alloc, Addr::V6(*host))?)?;
            machine.queue(DNS_AAAA_REPLY, args)
        }
        AnswerKind::Name(name) => raise_name(alloc, machine, rtype, name.as_slice(), args),
        AnswerKind::Mx { preference, name } => {
            args.push(text(alloc, name.as_slice())?)?;
            args.push(Value::Count(u64::from(*preference)))?;
            machine.queue(DNS_MX_REPLY, args)
        }
        AnswerKind::Txt(texts) => {
            let strings = make_strings(alloc, machine, texts.as_slice())?;
            args.push(Value::Object(strings))?;
            machine.queue(DNS_TXT_REPLY, args)
        }
        AnswerKind::Soa {
            mname,
            rname,
            serial,
            refresh,
            retry,
            expire,
            minimum,
        } => {
            let times = [*refresh, *retry, *expire, *minimum];
            let soa = make_soa(alloc, machine, mname, rname, *serial, times)?;
            args.push(Value::Object(soa))?;
            machine.queue(DNS_SOA_REPLY, args)
        }
        AnswerKind::Other => machine.queue(DNS_UNKNOWN_REPLY, args),
    }
}

/// Queues the event of a record whose data is a name.
fn raise_name(
    alloc: Global,
    machine: &mut SealedMachine,
    rtype: u16,
    name: &[u8],
    mut args: Vec<Value>,
) -> Result<(), Mem>
    ensures { OnOk result (Becomes machine.old machine.new (λ program. name_raises rtype name.now (key_of args.items))) }
{
    let event = match rtype {
        NS => DNS_NS_REPLY,
        CNAME => DNS_CNAME_REPLY,
        PTR => DNS_PTR_REPLY,
        _ => return machine.queue(DNS_UNKNOWN_REPLY, args),
    };
    args.push(text(alloc, name)?)?;
    machine.queue(event, args)
}

/// Makes a vector of texts.
fn make_strings(
    alloc: Global,
    machine: &mut SealedMachine,
    texts: &[Bytes],
) -> Result<ObjectNo, Mem>
    ensures { IfOk result (λ one. Makes machine.old machine.new one (λ program. vector_of (map plain.String texts.now))) }
{
    let mut strings = Vec::new(alloc);
    for string in texts {
        strings.push(text(alloc, string.as_slice())?)?;
    }
    machine.fresh_vector(strings)
}

/// Makes the `dns_soa` of a start of authority, whose times are those of refreshing, retrying and expiring,
/// and the least time to live (RFC 1035, section 3.3.13).
fn make_soa(
    alloc: Global,
    machine: &mut SealedMachine,
    mname: &Bytes,
    rname: &Bytes,
    serial: u32,
    times: [u32; 4],
) -> Result<ObjectNo, Mem>
    ensures { IfOk result (λ one. Makes machine.old machine.new one (λ program. made program number.dns_soa (soa_fields mname.now rname.now serial times))) }
{
    let [refresh, retry, expire, minimum] = times;
    let fields = vec![in alloc;
        (0, text(alloc, mname.as_slice())?),
        (1, text(alloc, rname.as_slice())?),
        (2, Value::Count(u64::from(serial))),
        (3, seconds(refresh)),
        (4, seconds(retry)),
        (5, seconds(expire)),
        (6, seconds(minimum)),
    ]?;
    machine.fresh_object(DNS_SOA, fields)
}
