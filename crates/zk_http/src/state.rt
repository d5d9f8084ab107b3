ghost use Rattle.std.specs.Prelude.{◌≡◌, ◌+◌, ◌<◌, ◌≤◌, ◌^◌};
ghost use Rattle.zk_http.specs.Reading.{bound_in, is_data, seen_in};
ghost use Rattle.zk_http.specs.Starts.{IsStart, state_behind};

use crate::body::Body;
use crate::search::Search;
use crate::{Reason, UnitKind};

/// What a side reads.
#[derive(Clone, Copy, Debug)]
pub enum State {
    /// Nothing: it stands between two messages.
    Between,
    /// The head of a message with the empty lines before it.
    Head(Search),
    /// What follows the head of a message.
    Body(Reading),
    /// Nothing more: a violation or a tunnel stands before.
    Over,
}

/// The part of a message that is read behind its head.
#[derive(Clone, Copy, Debug)]
pub enum Part {
    /// A body of which so many places are left.
    Places(u64),
    /// A body that goes on to the end of the stream.
    ToEnd,
    /// The line before a chunk.
    Size(Search),
    /// A chunk of which so many places are left.
    Chunk(u64),
    /// The CR behind a chunk.
    Return,
    /// The LF behind a chunk.
    Feed,
    /// The lines behind the last chunk.
    Trailer(Search),
    /// No message: the head has made the connection a tunnel.
    Tunnel,
    /// No message: the head does not say how long the body is.
    Unknown(Reason),
}

/// What is read behind a head, and what is known of the message.
#[derive(Clone, Copy, Debug)]
pub struct Reading {
    pub part: Part,
    /// How many bytes the lines of the head have.
    pub header: u32,
    /// How many places of the body were read.
    pub body: u64,
    /// How many of these are gaps.
    pub gap: u64,
}

impl State {
    /// What is read behind a unit; of a head, whose lines have so many bytes, an empty body.
    pub fn behind(header: u32, what: &UnitKind) -> State
        ensures { result ≡ state_behind header what.now }
    {
        match what {
            UnitKind::Head(_) => State::Body(Reading::new(Part::Places(0), header)),
            UnitKind::Done { .. } => State::Between,
            UnitKind::Tunnel | UnitKind::Violation(_) => State::Over,
        }
    }
}

impl Part {
    /// What is read behind a head with this body.
    pub fn behind(body: Body) -> Part
        ensures start { IsStart body result }
        ensures nothing { seen_in result ≡ 0 }
        ensures bound { 0 < bound_in result }
    {
        match body {
            Body::Empty => Part::Places(0),
            Body::Length(places) => Part::Places(places),
            Body::Chunked => Part::Size(Search::new()),
            Body::ToEnd => Part::ToEnd,
            Body::Tunnels => Part::Tunnel,
            Body::Unknown(why) => Part::Unknown(why),
        }
    }

    /// Whether the part holds the body itself, and no line of it.
    pub fn is_data(self) -> bool
        ensures { result ≡ is_data self }
    {
        matches!(self, Part::Places(_) | Part::ToEnd | Part::Chunk(_))
    }
}

impl Reading {
    /// Behind a head whose lines have so many bytes.
    pub fn new(part: Part, header: u32) -> Reading
        ensures { result ≡ record { part = part; header = header; body = 0; gap = 0 } }
    {
        Reading {
            part,
            header,
            body: 0,
            gap: 0,
        }
    }

    /// The same, where another part is read.
    pub fn at(self, part: Part) -> Reading
        ensures { result ≡ record { part = part; header = self.header; body = self.body; gap = self.gap } }
    {
        Reading { part, ..self }
    }

    /// The same behind so many more places of the body, so many of them gaps.
    pub fn behind(self, places: u64, gaps: u64) -> Reading
        requires places { self.body + places < 2 ^ 64 }
        requires gaps { self.gap + gaps < 2 ^ 64 }
        ensures { result ≡ record { part = self.part; header = self.header; body = self.body + places; gap = self.gap + gaps } }
    {
        Reading {
            body: self.body + places,
            gap: self.gap + gaps,
            ..self
        }
    }

    /// The end of the message.
    pub fn done(self) -> UnitKind
        ensures { result ≡ UnitKind.Done self.body self.header self.gap }
    {
        UnitKind::Done {
            body: self.body,
            head: self.header,
            gap: self.gap,
        }
    }
}
