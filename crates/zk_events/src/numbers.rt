use zk_base::{EventNo, RecordNo};

// The events that items raise, by their numbers among those that every program has (Zeek manual, Events).
pub const PACKET_SEEN: EventNo = EventNo(2);

pub const NEW_CONNECTION: EventNo = EventNo(3);

pub const CONNECTION_ESTABLISHED: EventNo = EventNo(4);

pub const CONNECTION_RESET: EventNo = EventNo(5);

pub const CONNECTION_STATE_REMOVE: EventNo = EventNo(6);

pub const CONTENT_GAP: EventNo = EventNo(7);

pub const CONNECTION_EOF: EventNo = EventNo(8);

pub const STREAM_GAVE_UP: EventNo = EventNo(9);

pub const HTTP_REQUEST: EventNo = EventNo(10);

pub const HTTP_REPLY: EventNo = EventNo(11);

pub const HTTP_HEADER: EventNo = EventNo(12);

pub const HTTP_MESSAGE_DONE: EventNo = EventNo(13);

pub const HTTP_TUNNEL: EventNo = EventNo(14);

pub const HTTP_VIOLATION: EventNo = EventNo(15);

pub const DNS_MESSAGE: EventNo = EventNo(16);

pub const DNS_REQUEST: EventNo = EventNo(17);

pub const DNS_END: EventNo = EventNo(18);

pub const DNS_A_REPLY: EventNo = EventNo(19);

pub const DNS_AAAA_REPLY: EventNo = EventNo(20);

pub const DNS_NS_REPLY: EventNo = EventNo(21);

pub const DNS_CNAME_REPLY: EventNo = EventNo(22);

pub const DNS_PTR_REPLY: EventNo = EventNo(23);

pub const DNS_MX_REPLY: EventNo = EventNo(24);

pub const DNS_TXT_REPLY: EventNo = EventNo(25);

pub const DNS_SOA_REPLY: EventNo = EventNo(26);

pub const DNS_UNKNOWN_REPLY: EventNo = EventNo(27);

pub const DNS_VIOLATION: EventNo = EventNo(28);

// The record types, by theirs (Zeek manual, Predefined types).
pub const CONN_ID: RecordNo = RecordNo(0);

pub const ENDPOINT: RecordNo = RecordNo(1);

pub const CONNECTION: RecordNo = RecordNo(2);

pub const HTTP_MESSAGE_STAT: RecordNo = RecordNo(3);

pub const DNS_MSG: RecordNo = RecordNo(4);

pub const DNS_ANSWER: RecordNo = RecordNo(5);

pub const DNS_SOA: RecordNo = RecordNo(6);
