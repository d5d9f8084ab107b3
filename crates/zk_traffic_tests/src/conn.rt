use std::alloc::Global;
use std::process::Abort;
use std::test::Fail;
use zk_base::{Addr, ConnNo, Moment, Proto, Side};
use zk_conn::{ConnState, Conns, Facts, L4View, Removed, Touched};
use zk_l4::flags::{ACK, FIN, RST, SYN};

const MILLISECOND: i64 = 1_000;

const SECOND: i64 = 1_000_000;

/// One thing that connections are told of the one connection of a row.
#[derive(Clone, Copy)]
enum Told {
    /// The client sends a packet of this many payload bytes, so many milliseconds after the start.
    Client(i64, u8, u32),
    /// The server does.
    Server(i64, u8, u32),
    Front(Side, u64),
    Reached(Side),
}

use Told::{Client, Front, Reached, Server};

/// A connection as it was told, and what has to be known of it then.
#[derive(Clone, Copy)]
struct Row<'a> {
    proto: Proto,
    told: &'a [Told],
    state: ConnState,
    history: &'a [u8],
    sizes: [Option<u64>; 2],
    /// In milliseconds after the start.
    removal: i64,
}

/// A packet between 10.0.0.1:40001 and 10.0.0.80:80, of which the first is the client.
fn view(proto: Proto, from_client: bool, flags: u8, payload_len: u32) -> L4View {
    let client = (Addr::V4(0x0a00_0001), 40_001);
    let server = (Addr::V4(0x0a00_0050), 80);
    let (from, to) = if from_client {
        (client, server)
    } else {
        (server, client)
    };
    L4View {
        src: from.0,
        dst: to.0,
        sport: from.1,
        dport: to.1,
        proto,
        flags,
        seq: 0,
        payload_len,
        ip_len: 40,
    }
}

/// Connections of which nothing is told.
fn no_conns(alloc: Global) -> Result<Box<Conns>, Fail> {
    Ok(Box::new(alloc, Conns::new(alloc))?)
}

/// Tells connections one thing of instance 1.
fn tell(rt: &impl Abort, conns: &mut Conns, proto: Proto, told: Told) -> Option<Touched> {
    let (moment, packet) = match told {
        Client(at, flags, payload) => (at, view(proto, true, flags, payload)),
        Server(at, flags, payload) => (at, view(proto, false, flags, payload)),
        Front(side, front) => {
            assert!(rt; conns.is_live(ConnNo(1)));
            conns.front(ConnNo(1), side, front);
            return None;
        }
        Reached(side) => {
            assert!(rt; conns.is_live(ConnNo(1)));
            conns.fin_reached(ConnNo(1), side);
            return None;
        }
    };
    assert!(rt; 0 <= moment && moment <= 1_000_000);
    Some(
        conns
            .packet(Moment(moment * MILLISECOND), &packet)
            .expect(rt, "memory suffices"),
    )
}

/// What is told of a connection, with the state, the facts and the removal that it then has.
const STATES: [Row; 15] = [
    Row {
        proto: Proto::Tcp,
        told: &[Client(0, SYN, 0)],
        state: ConnState::S0,
        history: b"S",
        sizes: [Some(0), None],
        removal: 300_000,
    },
    Row {
        proto: Proto::Tcp,
        told: &[
            Client(0, SYN, 0),
            Server(10, SYN | ACK, 0),
            Client(20, ACK, 0),
        ],
        state: ConnState::S1,
        history: b"ShA",
        sizes: [Some(0), Some(0)],
        removal: 300_020,
    },
    Row {
        proto: Proto::Tcp,
        told: &[
            Client(0, SYN, 0),
            Server(10, SYN | ACK, 0),
            Client(20, FIN | ACK, 0),
            Reached(Side::Orig),
        ],
        state: ConnState::S2,
        history: b"ShF",
        sizes: [Some(0), Some(0)],
        removal: 300_020,
    },
    Row {
        proto: Proto::Tcp,
        told: &[
            Client(0, SYN, 0),
            Server(10, SYN | ACK, 0),
            Server(20, FIN | ACK, 0),
            Reached(Side::Resp),
        ],
        state: ConnState::S3,
        history: b"Shf",
        sizes: [Some(0), Some(0)],
        removal: 300_020,
    },
    Row {
        proto: Proto::Tcp,
        told: &[
            Client(0, SYN, 0),
            Server(10, SYN | ACK, 0),
            Client(20, ACK, 32),
            Front(Side::Orig, 32),
            Server(30, ACK, 40),
            Front(Side::Resp, 40),
            Client(40, FIN | ACK, 0),
            Reached(Side::Orig),
            Server(50, FIN | ACK, 0),
            Reached(Side::Resp),
            Client(60, ACK, 0),
        ],
        state: ConnState::SF,
        history: b"ShDdFfA",
        sizes: [Some(32), Some(40)],
        removal: 5_060,
    },
    Row {
        proto: Proto::Tcp,
        told: &[Client(0, SYN, 0), Server(10, RST | ACK, 0)],
        state: ConnState::REJ,
        history: b"Sr",
        sizes: [Some(0), None],
        removal: 5_010,
    },
    Row {
        proto: Proto::Tcp,
        told: &[Client(0, SYN, 0), Client(10, RST, 0)],
        state: ConnState::RSTOS0,
        history: b"SR",
        sizes: [Some(0), None],
        removal: 5_010,
    },
    Row {
        proto: Proto::Tcp,
        told: &[Server(0, SYN | ACK, 0), Server(10, RST, 0)],
        state: ConnState::RSTRH,
        history: b"hr",
        sizes: [None, Some(0)],
        removal: 5_010,
    },
    Row {
        proto: Proto::Tcp,
        told: &[
            Client(0, SYN, 0),
            Server(10, SYN | ACK, 0),
            Client(20, RST, 0),
        ],
        state: ConnState::RSTO,
        history: b"ShR",
        sizes: [Some(0), Some(0)],
        removal: 5_020,
    },
    Row {
        proto: Proto::Tcp,
        told: &[
            Client(0, SYN, 0),
            Server(10, SYN | ACK, 0),
            Server(20, RST, 0),
        ],
        state: ConnState::RSTR,
        history: b"Shr",
        sizes: [Some(0), Some(0)],
        removal: 5_020,
    },
    Row {
        proto: Proto::Tcp,
        told: &[
            Client(0, SYN, 0),
            Client(10, FIN | ACK, 0),
            Reached(Side::Orig),
        ],
        state: ConnState::SH,
        history: b"SF",
        sizes: [Some(0), None],
        removal: 300_010,
    },
    Row {
        proto: Proto::Tcp,
        told: &[
            Server(0, SYN | ACK, 0),
            Server(10, FIN | ACK, 0),
            Reached(Side::Resp),
        ],
        state: ConnState::SHR,
        history: b"hf",
        sizes: [None, Some(0)],
        removal: 300_010,
    },
    Row {
        proto: Proto::Tcp,
        told: &[Client(0, ACK, 5), Server(10, ACK, 0)],
        state: ConnState::OTH,
        history: b"Da",
        sizes: [None, None],
        removal: 300_010,
    },
    Row {
        proto: Proto::Udp,
        told: &[Client(0, 0, 0)],
        state: ConnState::S0,
        history: b"D",
        sizes: [Some(0), None],
        removal: 60_000,
    },
    Row {
        proto: Proto::Udp,
        told: &[Client(0, FIN | SYN | RST, 33), Server(20, RST, 63)],
        state: ConnState::SF,
        history: b"Dd",
        sizes: [Some(33), Some(63)],
        removal: 60_020,
    },
];

/// Connections that were told what a row says.
fn told_of(rt: &impl Abort, alloc: Global, row: &Row) -> Result<Box<Conns>, Fail> {
    let mut conns = no_conns(alloc)?;
    for told in row.told {
        tell(rt, &mut conns, row.proto, *told);
    }
    Ok(conns)
}

/// Whether what was known of a connection that is removed is what its row says.
fn is_as(row: &Row, removed: &Option<Removed>) -> bool {
    match removed {
        Some(removed) => are_as(row, &removed.facts),
        None => false,
    }
}

fn are_as(row: &Row, facts: &Facts) -> bool {
    facts.state == row.state
        && facts.history.as_bytes() == row.history
        && [facts.orig.size, facts.resp.size] == row.sizes
}

/// Whether a connection is due when its row says, and is then known as it says.
fn is_removed_as(row: &Row, conns: &mut Conns, removal: Moment) -> bool {
    conns.due() == Some((removal, ConnNo(1))) && is_as(row, &conns.remove_due(removal))
}

#[test]
fn each_state_has_its_facts_and_its_removal(rt: HostRuntime) -> Result<(), Fail> {
    for (n, row) in STATES.iter().enumerate() {
        let mut conns = told_of(&rt, rt.alloc(), row)?;
        assert!(rt; 0 <= row.removal && row.removal <= 1_000_000);
        let removal = Moment(row.removal * MILLISECOND);
        assert!(rt; is_removed_as(row, &mut conns, removal), "in row {n}");
    }
    Ok(())
}

/// A packet of the key of a client's port.
fn from_port(port: u16, flags: u8) -> L4View {
    L4View {
        sport: port,
        ..view(Proto::Tcp, true, flags, 0)
    }
}

/// The moment of a packet, the client's port, the control bits, the instance, and whether it was opened and
/// reset. Ports 1, 2 and 3 begin; 3 is reset, and 1 goes on.
const PORTS: [(i64, u16, u8, u64, bool, bool); 6] = [
    (0, 1, SYN, 1, true, false),
    (0, 2, SYN, 2, true, false),
    (SECOND, 3, SYN, 3, true, false),
    (2 * SECOND, 3, RST, 3, false, true),
    (3 * SECOND, 1, ACK, 1, false, false),
    (6 * SECOND, 2, ACK, 2, false, false),
];

/// Whether this instance was removed at this moment.
fn is_removed(removed: &Option<Removed>, conn: u64, at: Moment) -> bool {
    match removed {
        Some(removed) => (removed.conn, removed.at) == (ConnNo(conn), at),
        None => false,
    }
}

/// Connections that were told the packets of `PORTS`.
fn with_ports(rt: &impl Abort, alloc: Global) -> Result<Box<Conns>, Fail> {
    let mut conns = no_conns(alloc)?;
    for (n, (at, port, flags, conn, opened, reset)) in PORTS.iter().enumerate() {
        assert!(rt; 0 <= *at && *at <= 10 * SECOND);
        let touched = conns.packet(Moment(*at), &from_port(*port, *flags))?;
        let wanted = Touched {
            conn: ConnNo(*conn),
            side: Side::Orig,
            opened: *opened,
            established: false,
            reset: *reset,
            ended: false,
        };
        assert!(rt; touched == wanted, "in row {n}");
    }
    Ok(conns)
}

#[test]
fn instances_are_numbered_as_they_begin_and_removed_by_moment_and_number(
    rt: HostRuntime,
) -> Result<(), Fail> {
    let mut conns = with_ports(&rt, rt.alloc())?;
    let first = Moment(7 * SECOND);
    assert!(rt; conns.due() == Some((first, ConnNo(3))));
    assert!(rt; is_removed(&conns.remove_due(first), 3, first));
    // a packet at the removal moment begins the next instance of its key
    let again = conns.packet(first, &from_port(3, SYN))?;
    assert!(rt; (again.conn, again.opened) == (ConnNo(4), true));
    let next = Moment(303 * SECOND);
    assert!(rt; is_removed(&conns.remove_due(next), 1, next));
    let end = Moment(304 * SECOND);
    assert!(rt; is_removed(&conns.end(end), 2, end));
    Ok(())
}
