use zk_base::{Bytes, Sequence};

/// What a message says: its header, its questions and its answers. Names are text: their labels in ASCII
/// lower case, joined by dots; the root is a dot.
#[derive(Debug, Drop)]
pub struct DnsRecord {
    /// The number by which a reply is matched with its query.
    pub id: u16,
    /// The kind of query; 0 is a standard one.
    pub opcode: u8,
    /// How the query went; 0 is no error.
    pub rcode: u8,
    /// The message is a reply.
    pub qr: bool,
    /// The server is an authority for the name.
    pub aa: bool,
    /// The message was cut.
    pub tc: bool,
    /// Recursion is desired.
    pub rd: bool,
    /// Recursion is available.
    pub ra: bool,
    /// The numbers of questions, answers, authority records and additional records.
    pub counts: [u16; 4],
    /// The question section.
    pub questions: Sequence<Question>,
    /// The answer section.
    pub answers: Sequence<Answer>,
}

/// A question (RFC 1035, section 4.1.2).
#[derive(Debug, Drop)]
pub struct Question {
    /// The name that is asked for.
    pub name: Bytes,
    /// The type of records that is asked for.
    pub qtype: u16,
    /// Their class; 1 is the Internet.
    pub qclass: u16,
}

/// A resource record of the answer section (RFC 1035, section 4.1.3).
#[derive(Debug, Drop)]
pub struct Answer {
    /// The name that the record belongs to.
    pub name: Bytes,
    /// The type of the record.
    pub rtype: u16,
    /// Its class; 1 is the Internet.
    pub rclass: u16,
    /// For how many seconds it may be kept.
    pub ttl: u32,
    /// What its data says.
    pub what: AnswerKind,
}

/// What the data of a record says (RFC 1035, sections 3.3 and 3.4; RFC 3596, section 2.2).
#[derive(Debug, Drop)]
pub enum AnswerKind {
    /// A: an IPv4 address, as the number that its bytes make.
    A(u32),
    /// AAAA: an IPv6 address, as the number that its bytes make.
    Aaaa(u128),
    /// NS, CNAME or PTR: a name.
    Name(Bytes),
    /// MX: a mail exchange, and how much it is preferred: a lower number is better.
    Mx {
        preference: u16,
        name: Bytes,
    },
    /// TXT: one or more strings.
    Txt(Sequence<Bytes>),
    /// SOA: where a zone of authority begins.
    Soa {
        mname: Bytes,
        rname: Bytes,
        serial: u32,
        refresh: u32,
        retry: u32,
        expire: u32,
        minimum: u32,
    },
    /// Another type or another class than 1: the data is passed over.
    Other,
}
