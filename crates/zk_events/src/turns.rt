ghost use Rattle.std.specs.Prelude.{◌≡◌, IfOk, OnOk};
ghost use Rattle.std.specs.Option.{option_map};
ghost use Rattle.zk_events.specs.Becomes.{Becomes};
ghost use Rattle.zk_events.specs.Holding.{known_in};
ghost use Rattle.zk_events.specs.Known.{knowing};
ghost use Rattle.zk_events.specs.Raises.{Holds, Raises};
ghost use Rattle.zk_events.specs.Turns.{new_objects, objects_of, removal, subject, subject_of, what_raises};

use crate::connections::{Connections, Objects};
use crate::dns::{raise_fault, raise_message};
use crate::facts::renew;
use crate::http::raise_unit;
use crate::numbers::{
    CONN_ID, CONNECTION, CONNECTION_EOF, CONNECTION_ESTABLISHED, CONNECTION_RESET,
    CONNECTION_STATE_REMOVE, CONTENT_GAP, ENDPOINT, NEW_CONNECTION, PACKET_SEEN, STREAM_GAVE_UP,
};
use crate::sealed::SealedMachine;
use crate::values::is_orig;
use std::alloc::Global;
use zk_base::{ConnNo, Mem, ObjectNo};
use zk_conn::Facts;
use zk_traffic::What;
use zk_value::Value;

/// Renews the facts of an item's connection in its own objects, and queues the item's events.
pub fn raise(
    alloc: Global,
    machine: &mut SealedMachine,
    connections: &mut Connections,
    what: &What,
) -> Result<(), Mem>
    ensures { OnOk result (Raises what.now machine.old (known_in connections.old) machine.new (known_in connections.new)) }
{
    let Some((conn, facts)) = subject(what) else {
        return raise_events(alloc, machine, ObjectNo(0), what);
    };
    let objects = objects_of(alloc, machine, connections, conn)?;
    renew(alloc, machine, &objects, conn, facts)?;
    raise_events(alloc, machine, objects.connection, what)?;
    if let Some(removed) = removal(what) {
        connections.forget(removed);
    }
    Ok(())
}

/// The connection that is removed.
fn removal(what: &What) -> Option<ConnNo>
    ensures { result ≡ removal what.now }
{
    match what {
        What::Removed { conn, .. } => Some(*conn),
        What::Seen { .. }
        | What::Opened { .. }
        | What::Established { .. }
        | What::Gap { .. }
        | What::Http { .. }
        | What::Dns { .. }
        | What::DnsBad { .. }
        | What::Ended { .. }
        | What::GaveUp { .. }
        | What::Reset { .. } => None,
    }
}

/// The connection of an item, with its facts.
fn subject(what: &What) -> Option<(ConnNo, &Facts)>
    ensures { option_map (λ one. subject one.0 one.1.now) result ≡ subject_of what.now }
{
    match what {
        What::Seen { .. } => None,
        What::Opened { conn, facts } => Some((*conn, facts)),
        What::Established { conn, facts } => Some((*conn, facts)),
        What::Gap { conn, facts, .. } => Some((*conn, facts)),
        What::Http { conn, facts, .. } => Some((*conn, facts)),
        What::Dns { conn, facts, .. } => Some((*conn, facts)),
        What::DnsBad { conn, facts, .. } => Some((*conn, facts)),
        What::Ended { conn, facts, .. } => Some((*conn, facts)),
        What::GaveUp { conn, facts, .. } => Some((*conn, facts)),
        What::Reset { conn, facts } => Some((*conn, facts)),
        What::Removed { conn, facts } => Some((*conn, facts)),
    }
}

/// The objects of an instance: those that it has, or new ones.
fn objects_of(
    alloc: Global,
    machine: &mut SealedMachine,
    connections: &mut Connections,
    conn: ConnNo,
) -> Result<Objects, Mem>
    ensures held { IfOk result (λ objects. Holds machine.old machine.new objects (λ program. objects_of program (known_in connections.old conn.0))) }
    ensures known { IfOk result (λ objects. known_in connections.new ≡ knowing conn.0 objects (known_in connections.old)) }
{
    if let Some(objects) = connections.get(conn) {
        return Ok(objects);
    }
    let objects = new_objects(alloc, machine)?;
    connections.set(conn, objects)?;
    Ok(objects)
}

/// Makes the objects of an instance. Each field begins as in a constructor to which no field is given.
fn new_objects(alloc: Global, machine: &mut SealedMachine) -> Result<Objects, Mem>
    ensures { IfOk result (λ objects. Holds machine.old machine.new objects new_objects) }
{
    let id = machine.fresh_object(CONN_ID, Vec::new(alloc))?;
    let orig = machine.fresh_object(ENDPOINT, Vec::new(alloc))?;
    let resp = machine.fresh_object(ENDPOINT, Vec::new(alloc))?;
    let connection = machine.fresh_object(CONNECTION, Vec::new(alloc))?;
    Ok(Objects {
        connection,
        id,
        orig,
        resp,
    })
}

/// Queues the events of an item, of whose connection this is the object (Zeek manual, Events).
fn raise_events(
    alloc: Global,
    machine: &mut SealedMachine,
    c: ObjectNo,
    what: &What,
) -> Result<(), Mem>
    ensures { OnOk result (Becomes machine.old machine.new (λ program. what_raises program c what.now)) }
{
    let object = Value::Object(c);
    match what {
        What::Seen { own, caplen, len } => {
            let own = Value::Time(*own);
            let caplen = Value::Count(u64::from(*caplen));
            let len = Value::Count(u64::from(*len));
            machine.queue(PACKET_SEEN, vec![in alloc; own, caplen, len]?)
        }
        What::Opened { .. } => machine.queue(NEW_CONNECTION, vec![in alloc; object]?),
        What::Established { .. } => {
            machine.queue(CONNECTION_ESTABLISHED, vec![in alloc; object]?)
        }
        What::Gap {
            side,
            from,
            length,
            ..
        } => {
            let from = Value::Count(*from);
            let length = Value::Count(*length);
            machine.queue(
                CONTENT_GAP,
                vec![in alloc; object, is_orig(*side), from, length]?,
            )
        }
        What::Http { side, unit, .. } => raise_unit(alloc, machine, c, *side, &unit.what),
        What::Dns {
            side,
            len,
            message,
            ..
        } => raise_message(alloc, machine, c, *side, *len, message),
        What::DnsBad { side, fault, .. } => raise_fault(alloc, machine, c, *side, *fault),
        What::Ended { side, .. } => {
            machine.queue(CONNECTION_EOF, vec![in alloc; object, is_orig(*side)]?)
        }
        What::GaveUp { side, .. } => {
            machine.queue(STREAM_GAVE_UP, vec![in alloc; object, is_orig(*side)]?)
        }
        What::Reset { .. } => machine.queue(CONNECTION_RESET, vec![in alloc; object]?),
        What::Removed { .. } => { machine.queue(CONNECTION_STATE_REMOVE, vec![in alloc; object]?) }
    }
}
