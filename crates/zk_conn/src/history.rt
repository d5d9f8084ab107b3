ghost use Rattle.std.specs.Prelude.{◌≡◌, ◌∷◌, true, nat_eq, [], filter, fold, IfNone, IfSome};
ghost use Rattle.std.specs.List.{list_any};
ghost use Rattle.zk_conn.specs.History.{letter_code, letters_of, shows, added, all_codes, all_letters};
ghost use Rattle.zk_conn.specs.Segment.{is_plain};

use crate::view::L4View;
use std::marker::Model;
use zk_base::{Proto, Side};
use zk_l4::flags::{ACK, FIN, RST, SYN};

/// What a packet can show.
#[derive(Clone, Copy, Debug, PartialEq, Eq)]
pub enum Letter {
    /// A SYN without ACK.
    Syn,
    /// A SYN with ACK.
    SynAck,
    /// A payload without RST. Each UDP packet shows it, also one without payload.
    Data,
    /// An ACK without payload, SYN, FIN and RST.
    Ack,
    /// A FIN.
    Fin,
    /// An RST.
    Rst,
}

/// The letters in the order in which one packet gives them.
const LETTERS: [Letter; 6] = [
    Letter::Syn,
    Letter::SynAck,
    Letter::Data,
    Letter::Ack,
    Letter::Fin,
    Letter::Rst,
];

impl Letter {
    /// The letter's byte: in upper case for the originator.
    fn code(self, side: Side) -> u8
        ensures { result ≡ letter_code side self }
    {
        match (side, self) {
            (Side::Orig, Letter::Syn) => b'S',
            (Side::Orig, Letter::SynAck) => b'H',
            (Side::Orig, Letter::Data) => b'D',
            (Side::Orig, Letter::Ack) => b'A',
            (Side::Orig, Letter::Fin) => b'F',
            (Side::Orig, Letter::Rst) => b'R',
            (Side::Resp, Letter::Syn) => b's',
            (Side::Resp, Letter::SynAck) => b'h',
            (Side::Resp, Letter::Data) => b'd',
            (Side::Resp, Letter::Ack) => b'a',
            (Side::Resp, Letter::Fin) => b'f',
            (Side::Resp, Letter::Rst) => b'r',
        }
    }

    /// Whether a packet shows this.
    fn shown_by(self, p: &L4View) -> bool
        ensures { result ≡ shows p.now self }
    {
        match self {
            Letter::Syn => p.has(SYN) && !p.has(ACK),
            Letter::SynAck => p.has(SYN) && p.has(ACK),
            Letter::Data => p.proto == Proto::Udp || p.payload_len > 0 && !p.has(RST),
            Letter::Ack => p.has(ACK)
                && p.payload_len == 0
                && !p.has(SYN)
                && !p.has(FIN)
                && !p.has(RST),
            Letter::Fin => p.has(FIN),
            Letter::Rst => p.has(RST),
        }
    }

    /// The one thing that a packet without SYN, FIN and RST may show.
    fn of_plain(p: &L4View) -> Option<Letter>
        requires { is_plain p.now ≡ true }
        ensures some { IfSome result (λ letter. filter (shows p.now) all_letters ≡ letter ∷ []) }
        ensures none { IfNone result (filter (shows p.now) all_letters ≡ []) }
    {
        if p.proto == Proto::Udp || p.payload_len > 0 {
            Some(Letter::Data)
        } else if p.has(ACK) {
            Some(Letter::Ack)
        } else {
            None
        }
    }
}

/// What a connection's packets showed: a letter for each thing that a side did, at the first time
/// that it did it. The letters are those of Zeek's connection history: s a SYN, h a SYN with ACK, d
/// a payload, a an ACK alone, f a FIN, r an RST, in upper case where the originator did it.
/// Contracts see it as the list of its letters.
#[derive(Debug, Drop)]
pub struct History {
    bytes: [u8; 12],
    len: usize,
}

impl Model for History {
    ghost use Rattle.std.specs.Prelude.{List, ℕ, take};
    ghost use Rattle.zk_conn.specs.History.{IsHistory};

    ghost Value = { List ℕ };

    ghost view = { λ h. take h.len h.bytes };

    ghost invariant = { λ h. IsHistory h.bytes h.len };
}

impl History {
    /// No letters.
    pub(crate) fn new() -> History
        ensures { result ≡ [] }
    {
        History {
            bytes: [0; 12],
            len: 0,
        }
    }

    /// The letters in their order.
    pub fn as_bytes(&self) -> &[u8]
        ensures { result.now ≡ self.now }
    {
        &self.bytes[..self.len]
    }

    /// A copy of the letters.
    pub(crate) fn copy(&self) -> History
        ensures { result ≡ self.now }
    {
        History {
            bytes: self.bytes,
            len: self.len,
        }
    }

    /// Adds a letter where it isn't there.
    fn add(&mut self, letter: u8)
        requires { list_any (nat_eq letter) all_codes ≡ true }
        ensures { self.new ≡ added self.old letter }
    {
        if !self.as_bytes().contains(&letter) {
            self.bytes[self.len] = letter;
            self.len += 1;
        }
    }

    /// Adds what a packet of this side shows.
    pub(crate) fn note(&mut self, side: Side, p: &L4View)
        ensures { self.new ≡ fold added self.old (letters_of side p.now) }
    {
        for letter in LETTERS {
            if letter.shown_by(p) {
                self.add(letter.code(side));
            }
        }
    }

    /// Adds what a packet of this side shows that has no SYN, FIN and RST.
    pub(crate) fn note_plain(&mut self, side: Side, p: &L4View)
        requires { is_plain p.now ≡ true }
        ensures { self.new ≡ fold added self.old (letters_of side p.now) }
    {
        if let Some(letter) = Letter::of_plain(p) {
            self.add(letter.code(side));
        }
    }
}
