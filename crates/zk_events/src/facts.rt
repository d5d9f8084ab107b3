ghost use Rattle.std.specs.Prelude.{◌≡◌, IfOk, OnErr, OnOk};
ghost use Rattle.zk_events.specs.Becomes.{Becomes};
ghost use Rattle.zk_events.specs.Facts.{connection_fields, duration, end_fields, id_fields};
ghost use Rattle.zk_events.specs.Raising.{with_fields};
ghost use Rattle.zk_events.specs.Texts.{AreTexts};
ghost use Rattle.zk_events.specs.Turns.{with_facts};

use crate::connections::Objects;
use crate::sealed::SealedMachine;
use crate::values::{address, state_name, text, uid, word};
use std::alloc::Global;
use zk_base::{ConnNo, Mem, ObjectNo, Span};
use zk_conn::{EndFacts, Facts};
use zk_text::proto_name;
use zk_value::Value;

// The fields of `conn_id`.
const ORIG_H: u32 = 0;

const ORIG_P: u32 = 1;

const RESP_H: u32 = 2;

const RESP_P: u32 = 3;

// The fields of `endpoint`.
const SIZE: u32 = 0;

const NUM_PKTS: u32 = 1;

const NUM_BYTES_IP: u32 = 2;

// The fields of `connection`.
const ID: u32 = 0;

const ORIG: u32 = 1;

const RESP: u32 = 2;

const START_TIME: u32 = 3;

const DURATION: u32 = 4;

const PROTO: u32 = 5;

const UID: u32 = 6;

const CONN_STATE: u32 = 7;

const HISTORY: u32 = 8;

/// Writes what is known of a connection anew into its objects. `Mem`: memory was wanting for a text, and
/// nothing is written.
pub fn renew(
    alloc: Global,
    machine: &mut SealedMachine,
    objects: &Objects,
    conn: ConnNo,
    facts: &Facts,
) -> Result<(), Mem>
    ensures ok { OnOk result (Becomes machine.old machine.new (λ program. with_facts conn facts.now objects.now)) }
    ensures err { OnErr result (machine.new ≡ machine.old) }
{
    let texts = Texts::of(alloc, conn, facts)?;
    renew_id(alloc, machine, objects.id, facts)?;
    renew_end(machine, objects.orig, &facts.orig);
    renew_end(machine, objects.resp, &facts.resp);
    renew_connection(machine, objects, facts, texts);
    Ok(())
}

/// The texts among what is known of a connection, as values.
#[derive(Debug, Drop)]
struct Texts {
    proto: Value,
    uid: Value,
    state: Value,
    history: Value,
}

impl Texts {
    fn of(alloc: Global, conn: ConnNo, facts: &Facts) -> Result<Texts, Mem>
        ensures { IfOk result (AreTexts conn facts.now) }
    {
        Ok(Texts {
            proto: word(alloc, proto_name(facts.proto))?,
            uid: uid(alloc, conn)?,
            state: text(alloc, state_name(facts.state))?,
            history: text(alloc, facts.history.as_bytes())?,
        })
    }
}

fn renew_id(
    alloc: Global,
    machine: &mut SealedMachine,
    id: ObjectNo,
    facts: &Facts,
) -> Result<(), Mem>
    ensures ok { OnOk result (Becomes machine.old machine.new (λ program. with_fields id 0 (id_fields facts.now))) }
    ensures err { OnErr result (machine.new ≡ machine.old) }
{
    let orig_h = address(alloc, facts.orig_h)?;
    let resp_h = address(alloc, facts.resp_h)?;
    let orig_p = Value::Port {
        port: facts.orig_p,
        proto: facts.proto,
    };
    let resp_p = Value::Port {
        port: facts.resp_p,
        proto: facts.proto,
    };
    machine.renew_object(id, ORIG_H, Some(orig_h));
    machine.renew_object(id, ORIG_P, Some(orig_p));
    machine.renew_object(id, RESP_H, Some(resp_h));
    machine.renew_object(id, RESP_P, Some(resp_p));
    Ok(())
}

fn renew_end(machine: &mut SealedMachine, end: ObjectNo, facts: &EndFacts)
    ensures { Becomes machine.old machine.new (λ program. with_fields end 0 (end_fields facts.now)) }
{
    machine.renew_object(end, SIZE, facts.size.map(Value::Count));
    machine.renew_object(end, NUM_PKTS, Some(Value::Count(facts.pkts)));
    machine.renew_object(end, NUM_BYTES_IP, Some(Value::Count(facts.ip_bytes)));
}

/// How long the connection lasts so far, as far as an interval goes.
fn duration(facts: &Facts) -> Span
    ensures { result ≡ duration facts.now }
{
    Span(facts.last.0.saturating_sub(facts.start.0))
}

fn renew_connection(machine: &mut SealedMachine, objects: &Objects, facts: &Facts, texts: Texts)
    ensures { (conn : ConnNo) → AreTexts conn facts.now texts
        → Becomes machine.old machine.new (λ program. with_fields objects.now.connection 0 (connection_fields conn objects.now facts.now)) }
{
    let c = objects.connection;
    machine.renew_object(c, ID, Some(Value::Object(objects.id)));
    machine.renew_object(c, ORIG, Some(Value::Object(objects.orig)));
    machine.renew_object(c, RESP, Some(Value::Object(objects.resp)));
    machine.renew_object(c, START_TIME, Some(Value::Time(facts.start)));
    machine.renew_object(c, DURATION, Some(Value::Interval(duration(facts))));
    machine.renew_object(c, PROTO, Some(texts.proto));
    machine.renew_object(c, UID, Some(texts.uid));
    machine.renew_object(c, CONN_STATE, Some(texts.state));
    machine.renew_object(c, HISTORY, Some(texts.history));
}
