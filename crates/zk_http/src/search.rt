ghost use Rattle.std.specs.Prelude.{◌≡◌, ℕ, ◌+◌, ◌<◌, ◌≤◌, false, List, length, take, IfNone, IfSome, MatchOption};
ghost use Rattle.zk_http.specs.Lines.{line_of};
ghost use Rattle.zk_http.specs.declared.search.Ending.{Ending as EndingData};

use memchr::memchr;

const LINE_FEED: u8 = b'\n';

const CARRIAGE_RETURN: u8 = b'\r';

/// What bytes end in that are looked for.
#[derive(Clone, Copy, Debug, PartialEq, Eq)]
pub enum Ending {
    /// A line end.
    Line,
    /// An empty line.
    Section,
    /// An empty line behind one that is not empty.
    Head,
}

impl Ending {
    ghost use Rattle.zk_http.specs.Found.{limit_of};

    /// How many bytes count at most: those of the longest chunk line, trailer and head.
    fn limit(self) -> usize
        ensures { result ≡ limit_of self }
    {
        match self {
            Ending::Line => 4_096,
            Ending::Section => 65_536,
            Ending::Head => 65_536,
        }
    }
}

/// What a search comes to in the bytes that are there.
#[derive(Clone, Copy, Debug)]
pub enum Found {
    /// The first bytes, so many of them, end so.
    Ends { search: Search, len: usize },
    /// As many bytes as count at most don't.
    TooLong { limit: usize },
    /// More bytes have to come.
    Waits { search: Search },
}

/// The line that stands before a line feed: a CR at its end is no part of it (RFC 9112, section 2.2).
#[tactic(auto, using(crate::proofs::LineLaws::line_of_cr, crate::proofs::LineLaws::line_of_other))]
fn line_of(raw: &[u8]) -> &[u8]
    ensures { result.now ≡ line_of raw.now }
{
    if !raw.is_empty() && raw[raw.len() - 1] == CARRIAGE_RETURN {
        &raw[..raw.len() - 1]
    } else {
        raw
    }
}

/// How far bytes were looked through, so that no byte is looked at again when more have come.
#[derive(Clone, Copy, Debug)]
pub struct Search {
    /// How many bytes were looked at.
    pub seen: usize,
    /// Where the line begins whose end is looked for.
    pub line: usize,
    /// How many lines stand before it, from the first on that is not empty.
    pub lines: usize,
    /// How many bytes the lines before it have, without their line ends.
    pub text: usize,
    ghost ordered: { line ≤ seen },
    ghost few_lines: { lines ≤ line },
    ghost short: { text ≤ line },
}

impl Search {
    ghost use Rattle.zk_http.specs.Found.{IsFound, IsWithin, limit_of};
    ghost use Rattle.zk_http.specs.Search.{Knows, KnowsAll, FindsAt, PassesLine, is_end};

    /// Nothing was looked at.
    pub fn new() -> Search
        ensures knows { (ending : EndingData) (bytes : List ℕ) → Knows result ending bytes }
        ensures nothing { result.seen ≡ 0 }
    {
        Search {
            seen: 0,
            line: 0,
            lines: 0,
            text: 0,
        }
    }

    /// Where bytes first end so, which begin with those that were looked at. Then `lines` and `text`
    /// count the lines up to there.
    fn find(self, ending: Ending, bytes: &[u8]) -> (Search, Option<usize>)
        requires { self.seen ≤ length bytes.now }
        ensures found { Knows self ending bytes.now → MatchOption result.1 (KnowsAll result.0 ending bytes.now) (FindsAt result.0 ending bytes.now) }
        ensures all { IfNone result.1 (result.0.seen ≡ length bytes.now) }
        ensures within { IfSome result.1 (λ end. (0 < end) × (end ≤ length bytes.now) × (result.0.line ≡ end)) }
    {
        let mut search = self;
        while let Some(ahead) = memchr(LINE_FEED, &bytes[search.seen..]) {
            let end = search.seen + ahead;
            let line = line_of(&bytes[search.line..end]);
            search = search.behind_line(line.len(), end + 1);
            if search.is_end(ending, line.is_empty()) {
                return (search, Some(end + 1));
            }
        }
        search.seen = bytes.len();
        (search, None)
    }

    /// Where bytes first end so, of which only so many count.
    #[tactic(auto, using(std::proofs::lemmas::List::take_min))]
    pub fn find_within(self, ending: Ending, bytes: &[u8]) -> Found
        requires seen { self.seen ≤ length bytes.now }
        requires most { self.seen ≤ limit_of ending }
        ensures found { Knows self ending (take (limit_of ending) bytes.now) → IsFound result ending (take (limit_of ending) bytes.now) }
        ensures within { IsWithin result ending (length bytes.now) }
    {
        let limit = ending.limit();
        let within = &bytes[..limit.min(bytes.len())];
        let (search, end) = self.find(ending, within);
        match end {
            Some(len) => Found::Ends { search, len },
            None if within.len() == limit => Found::TooLong { limit },
            None => Found::Waits { search },
        }
    }

    /// What is known behind one more line.
    fn behind_line(self, len: usize, end: usize) -> Search
        requires lines { self.lines < end }
        requires text { self.text + len < end }
        ensures { PassesLine self result len end }
    {
        let counts = self.lines > 0 || len > 0;
        Search {
            seen: end,
            line: end,
            lines: if counts { self.lines + 1 } else { 0 },
            text: self.text + len,
        }
    }

    /// Whether the line that was passed last, which is empty or not, is the end.
    fn is_end(&self, ending: Ending, is_empty: bool) -> bool
        ensures { result ≡ is_end ending self.now.lines is_empty }
    {
        match ending {
            Ending::Line => true,
            Ending::Section => is_empty,
            Ending::Head => is_empty && self.lines > 1,
        }
    }
}
