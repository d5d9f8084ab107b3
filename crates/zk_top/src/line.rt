ghost use Rattle.std.specs.Prelude.{◌≡◌, ◌<◌, ◌≤◌, ◌+◌, ◌*◌, ℕ, List, ◌∷◌, ◌++◌, codes, decimal, drop, length, take, OnOk};
ghost use Rattle.zk_events.specs.Facts.{state_name};
ghost use Rattle.zk_io.specs.Said.{line_end};
ghost use Rattle.zk_text.specs.Address.{addr_text};
ghost use Rattle.zk_text.specs.Span.{span_decimal};
ghost use Rattle.zk_text.specs.declared.times.TheConstants.{SPAN_TEXT_MAX};
ghost use Rattle.zk_top.specs.declared.line.TheConstants.{LINE_MAX};
ghost use Rattle.zk_top.specs.Line.{conn_fields, ends_fields, field, fields_of, line_of, message_fields, side_name, unit_fields};
ghost use Rattle.zk_traffic.specs.declared.item.What.TheVariants.{Seen, Opened};

use itoa::write_digits;
use std::alloc::AllocError;
use std::marker::Model;
use zk_base::{Addr, ConnNo, Moment, Side};
use zk_conn::{ConnState, Facts};
use zk_events::{reason_number, state_name};
use zk_http::{Unit, UnitKind};
use zk_text::{ADDR_TEXT_MAX, COUNT_TEXT_MAX, SPAN_TEXT_MAX, addr_text, proto_name, write_span};
use zk_traffic::{Item, What};

/// The most bytes of a name and its tab: `established` is the longest one.
const NAME_MAX: usize = 12;

/// The most bytes of a number and its tab.
const NUMBER_MAX: usize = 1 + COUNT_TEXT_MAX;

/// The most bytes of an address, a port and their tabs.
const END_MAX: usize = 1 + ADDR_TEXT_MAX + NUMBER_MAX;

/// The most bytes of a name, a number and their tabs.
const NAMED_MAX: usize = NAME_MAX + NUMBER_MAX;

/// The most bytes of the fields of an item, which are those of a connection that opens.
const FIELDS_MAX: usize = NAMED_MAX + NAME_MAX + 2 * END_MAX;

/// The most bytes of a line.
const LINE_MAX: usize = SPAN_TEXT_MAX + FIELDS_MAX + 1;

/// What stands before a packet's own time.
const PACKET: &[u8; 8] = b"\tpacket\t";

/// Adds the line of an item.
pub fn push_item_line(out: &mut Vec<u8>, item: &Item) -> Result<(), AllocError>
    ensures ok { OnOk result (out.new.items ≡ out.old.items ++ line_of item.now) }
{
    let mut line = LineText::new();
    line.put_item(item.moment, &item.what);
    out.extend_from_slice(line.as_slice())
}

/// The end of a line. It grows to the front, from the last field to the first: so a number, whose digits
/// come about from the last to the first, is written at its place in the line, and not counted or moved.
/// Contracts see its bytes.
#[derive(Debug, Drop)]
struct LineText {
    bytes: [u8; LINE_MAX],
    start: usize,
}

impl Model for LineText {
    ghost Value = { List ℕ };

    ghost view = { λ line. drop line.start line.bytes };

    ghost invariant = { λ line. line.start ≤ LINE_MAX };
}

impl LineText {
    /// A line's end, with no field before it.
    fn new() -> LineText
        ensures { result ≡ line_end }
    {
        let mut bytes = [0; LINE_MAX];
        bytes[LINE_MAX - 1] = b'\n';
        LineText {
            bytes,
            start: LINE_MAX - 1,
        }
    }

    fn as_slice(&self) -> &[u8]
        ensures { result.now ≡ self.now }
    {
        &self.bytes[self.start..]
    }

    /// Puts a text.
    fn put(&mut self, text: &[u8])
        requires { length text.now + length self.old ≤ LINE_MAX }
        ensures { self.new ≡ text.now ++ self.old }
    {
        let start = self.start - text.len();
        self.bytes[start..self.start].copy_from_slice(text);
        self.start = start;
    }

    fn put_tab(&mut self)
        requires { length self.old < LINE_MAX }
        ensures { self.new ≡ 9 ∷ self.old }
    {
        self.start -= 1;
        self.bytes[self.start] = b'\t';
    }

    /// Puts a text behind a tab.
    fn put_field(&mut self, text: &[u8])
        requires { length text.now + length self.old < LINE_MAX }
        ensures text { self.new ≡ field text.now ++ self.old }
        ensures len { length self.new ≡ 1 + length text.now + length self.old }
    {
        self.put(text);
        self.put_tab();
    }

    /// Puts the decimal digits of a number behind a tab.
    fn put_number(&mut self, n: u64)
        requires { NUMBER_MAX + length self.old ≤ LINE_MAX }
        ensures text { self.new ≡ field (decimal n) ++ self.old }
        ensures len { length self.new ≤ NUMBER_MAX + length self.old }
    {
        self.start = write_digits(n, &mut self.bytes, self.start);
        self.put_tab();
    }

    /// Puts a moment: its seconds with six decimals.
    fn put_moment(&mut self, moment: Moment)
        requires { SPAN_TEXT_MAX + length self.old ≤ LINE_MAX }
        ensures text { self.new ≡ span_decimal moment.0 ++ self.old }
        ensures len { length self.new ≤ SPAN_TEXT_MAX + length self.old }
    {
        self.start = write_span(moment.0, &mut self.bytes, self.start);
    }

    /// Puts the text of a moment once more, which are so many of the bytes behind the first ones. As many
    /// are copied as the longest text has, and what is too much is cut off: a known length needs no call.
    fn put_again(&mut self, behind: usize, count: usize)
        requires there { behind + count ≤ length self.old }
        requires short { count ≤ SPAN_TEXT_MAX }
        requires room { SPAN_TEXT_MAX + length self.old ≤ LINE_MAX }
        ensures { self.new ≡ take count (drop behind self.old) ++ self.old }
    {
        let end = self.start + behind + count;
        let mut copy = [0; SPAN_TEXT_MAX];
        copy.copy_from_slice(&self.bytes[end - SPAN_TEXT_MAX..end]);
        self.put(&copy);
        self.start += SPAN_TEXT_MAX - count;
    }

    /// Puts an address behind a tab.
    fn put_addr(&mut self, addr: Addr)
        requires { ADDR_TEXT_MAX + length self.old < LINE_MAX }
        ensures text { self.new ≡ field (addr_text addr) ++ self.old }
        ensures len { length self.new ≤ 1 + ADDR_TEXT_MAX + length self.old }
    {
        let mut text = [0; ADDR_TEXT_MAX];
        let Ok(len) = addr_text(addr, &mut text) else {
            unreachable!()
        };
        self.put_field(&text[..len]);
    }
}

impl LineText {
    /// Puts a moment, and what an item is that happens then.
    fn put_item(&mut self, now: Moment, what: &What)
        requires { SPAN_TEXT_MAX + FIELDS_MAX + length self.old ≤ LINE_MAX }
        ensures { self.new ≡ (span_decimal now.0 ++ fields_of what.now) ++ self.old }
    {
        if let What::Seen { own, caplen, len } = what {
            self.put_packet(now, *own, *caplen, *len);
        } else {
            self.put_fields(what);
            self.put_moment(now);
        }
    }

    /// Puts a packet. Its own time is mostly the network time that it makes: that one's text is there then.
    fn put_packet(&mut self, now: Moment, own: Moment, caplen: u32, len: u32)
        requires { SPAN_TEXT_MAX + FIELDS_MAX + length self.old ≤ LINE_MAX }
        ensures { self.new ≡ (span_decimal now.0 ++ fields_of (Seen own caplen len)) ++ self.old }
    {
        let own_len = self.put_seen(own, caplen, len);
        if own == now {
            self.put_again(PACKET.len(), own_len);
        } else {
            self.put_moment(now);
        }
    }

    /// Puts what an item is, and its fields.
    fn put_fields(&mut self, what: &What)
        requires { FIELDS_MAX + length self.old ≤ LINE_MAX }
        ensures text { self.new ≡ fields_of what.now ++ self.old }
        ensures len { length self.new ≤ FIELDS_MAX + length self.old }
    {
        match what {
            What::Seen { own, caplen, len } => {
                self.put_seen(*own, *caplen, *len);
            }
            What::Opened { conn, facts } => self.put_opened(*conn, facts),
            What::Established { conn, facts: _ } => self.put_named(b"established", conn.0),
            What::Gap {
                conn,
                facts: _,
                side,
                from,
                length,
            } => self.put_gap(*conn, *side, *from, *length),
            What::Http {
                conn,
                facts: _,
                side,
                unit,
            } => self.put_unit(*conn, *side, unit),
            What::Dns {
                conn,
                facts: _,
                side,
                len,
                message,
            } => self.put_message(b"dns", *conn, *side, message.id, *len),
            What::DnsBad {
                conn,
                facts: _,
                side,
                fault,
                len,
            } => self.put_message(b"dnsbad", *conn, *side, u16::from(*fault), *len),
            What::Ended {
                conn,
                facts: _,
                side,
            } => self.put_side(b"ended", *conn, *side),
            What::GaveUp {
                conn,
                facts: _,
                side,
            } => self.put_side(b"gaveup", *conn, *side),
            What::Reset { conn, facts: _ } => self.put_named(b"reset", conn.0),
            What::Removed { conn, facts } => self.put_removed(*conn, facts.state),
        }
    }

    /// Puts the fields of a packet, and answers how many bytes its own time has.
    fn put_seen(&mut self, own: Moment, caplen: u32, len: u32) -> usize
        requires { FIELDS_MAX + length self.old ≤ LINE_MAX }
        ensures own { result ≡ length (span_decimal own.0) }
        ensures short { result ≤ SPAN_TEXT_MAX }
        ensures text { self.new ≡ fields_of (Seen own caplen len) ++ self.old }
        ensures len { length self.new ≤ FIELDS_MAX + length self.old }
    {
        self.put_number(u64::from(len));
        self.put_number(u64::from(caplen));
        let end = self.start;
        self.put_moment(own);
        let start = self.start;
        self.put(PACKET);
        end - start
    }

    fn put_opened(&mut self, conn: ConnNo, facts: &Facts)
        requires { FIELDS_MAX + length self.old ≤ LINE_MAX }
        ensures text { self.new ≡ fields_of (Opened conn facts.now) ++ self.old }
        ensures len { length self.new ≤ FIELDS_MAX + length self.old }
    {
        self.put_ends(facts);
        self.put_named(b"opened", conn.0);
    }

    /// Puts the protocol and both ends of a connection.
    fn put_ends(&mut self, facts: &Facts)
        requires { NAME_MAX + 2 * END_MAX + length self.old ≤ LINE_MAX }
        ensures text { self.new ≡ ends_fields facts.now ++ self.old }
        ensures len { length self.new ≤ NAME_MAX + 2 * END_MAX + length self.old }
    {
        self.put_number(u64::from(facts.resp_p));
        self.put_addr(facts.resp_h);
        self.put_number(u64::from(facts.orig_p));
        self.put_addr(facts.orig_h);
        self.put_field(proto_name(facts.proto));
    }

    fn put_gap(&mut self, conn: ConnNo, side: Side, from: u64, missing: u64)
        requires { FIELDS_MAX + length self.old ≤ LINE_MAX }
        ensures text { self.new ≡ (conn_fields (codes "gap") conn ++ field (side_name side) ++ field (decimal from) ++ field (decimal missing)) ++ self.old }
        ensures len { length self.new ≤ FIELDS_MAX + length self.old }
    {
        self.put_number(missing);
        self.put_number(from);
        self.put_side(b"gap", conn, side);
    }

    /// Puts a unit of HTTP.
    fn put_unit(&mut self, conn: ConnNo, side: Side, unit: &Unit)
        requires { FIELDS_MAX + length self.old ≤ LINE_MAX }
        ensures text { self.new ≡ (conn_fields (codes "http") conn ++ field (side_name side) ++ unit_fields unit.now.place unit.now.what) ++ self.old }
        ensures len { length self.new ≤ FIELDS_MAX + length self.old }
    {
        self.put_unit_kind(unit);
        self.put_side(b"http", conn, side);
    }

    /// Puts what a unit of HTTP is, its place, and what more there is to it.
    fn put_unit_kind(&mut self, unit: &Unit)
        requires { NAMED_MAX + NUMBER_MAX + length self.old ≤ LINE_MAX }
        ensures text { self.new ≡ unit_fields unit.now.place unit.now.what ++ self.old }
        ensures len { length self.new ≤ NAMED_MAX + NUMBER_MAX + length self.old }
    {
        match &unit.what {
            UnitKind::Head(_) => self.put_named(b"head", unit.place),
            UnitKind::Done {
                body,
                head: _,
                gap: _,
            } => {
                self.put_number(*body);
                self.put_named(b"done", unit.place);
            }
            UnitKind::Tunnel => self.put_named(b"tunnel", unit.place),
            UnitKind::Violation(reason) => {
                self.put_number(reason_number(*reason));
                self.put_named(b"violation", unit.place);
            }
        }
    }

    /// Puts a message of DNS by its identifier, or bytes that are none by the number of their fault.
    fn put_message(&mut self, name: &[u8], conn: ConnNo, side: Side, number: u16, len: u32)
        requires name { length name.now < NAME_MAX }
        requires room { FIELDS_MAX + length self.old ≤ LINE_MAX }
        ensures text { self.new ≡ message_fields name.now conn side number len ++ self.old }
        ensures len { length self.new ≤ FIELDS_MAX + length self.old }
    {
        self.put_number(u64::from(len));
        self.put_number(u64::from(number));
        self.put_side(name, conn, side);
    }

    /// Puts what happens to a side of a connection.
    fn put_side(&mut self, name: &[u8], conn: ConnNo, side: Side)
        requires name { length name.now < NAME_MAX }
        requires room { NAMED_MAX + NAME_MAX + length self.old ≤ LINE_MAX }
        ensures text { self.new ≡ (conn_fields name.now conn ++ field (side_name side)) ++ self.old }
        ensures len { length self.new ≤ NAMED_MAX + NAME_MAX + length self.old }
    {
        self.put_field(side_name(side));
        self.put_named(name, conn.0);
    }

    fn put_removed(&mut self, conn: ConnNo, state: ConnState)
        requires { FIELDS_MAX + length self.old ≤ LINE_MAX }
        ensures text { self.new ≡ (conn_fields (codes "removed") conn ++ field (state_name state)) ++ self.old }
        ensures len { length self.new ≤ FIELDS_MAX + length self.old }
    {
        self.put_field(state_name(state));
        self.put_named(b"removed", conn.0);
    }

    /// Puts a name and a number, as those of a connection and of what happens to it.
    fn put_named(&mut self, name: &[u8], number: u64)
        requires name { length name.now < NAME_MAX }
        requires room { NAMED_MAX + length self.old ≤ LINE_MAX }
        ensures text { self.new ≡ (field name.now ++ field (decimal number)) ++ self.old }
        ensures len { length self.new ≤ NAMED_MAX + length self.old }
    {
        self.put_number(number);
        self.put_field(name);
    }
}

fn side_name(side: Side) -> &'static [u8]
    ensures name { result.now ≡ side_name side }
    ensures len { length result.now < NAME_MAX }
{
    match side {
        Side::Orig => b"orig",
        Side::Resp => b"resp",
    }
}
