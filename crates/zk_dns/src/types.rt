//! The types and the class of records whose data is read (RFC 1035, section 3.2; RFC 3596, section 2.1).

/// The class of the Internet.
pub const INTERNET: u16 = 1;

pub const A: u16 = 1;

pub const NS: u16 = 2;

pub const CNAME: u16 = 5;

pub const SOA: u16 = 6;

pub const PTR: u16 = 12;

pub const MX: u16 = 15;

pub const TXT: u16 = 16;

pub const AAAA: u16 = 28;
