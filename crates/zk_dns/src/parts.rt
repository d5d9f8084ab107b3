ghost use Rattle.std.specs.Prelude.{◌≡◌, ◌+◌, ◌≤◌, length, Ok, IfOk, IsOk};
ghost use Rattle.zk_dns.specs.Name.{name_at, whole};
ghost use Rattle.zk_dns.specs.Ends.{all_end, name_end_at};
ghost use Rattle.zk_dns.specs.Skips.{AreSkips};
ghost use Rattle.zk_dns.specs.Sections.{data_len, question_at, resource_at};

use crate::DnsFault;
use crate::bound::Bound;
use crate::data::judge;
use crate::name::{behind_ending, name_end, run_end};
use crate::numbers::{u16_at, u32_at};

/// The length of a question's fields behind its name: type and class (RFC 1035, section 4.1.2).
const QUESTION_FIELDS_LEN: usize = 4;

/// The length of a record's fields behind its name: type, class, TTL and the length of its data (RFC
/// 1035, section 4.1.3).
const RECORD_FIELDS_LEN: usize = 10;

// Places of these fields, behind the type.
const CLASS: usize = 2;

const TTL: usize = 4;

const DATA_LENGTH: usize = 8;

/// A question as it stands in a message.
#[derive(Clone, Copy, Debug, PartialEq, Eq)]
pub struct QuestionPart {
    /// The place of the name that is asked for.
    pub name: usize,
    /// The type of records that is asked for.
    pub qtype: u16,
    /// Their class.
    pub qclass: u16,
}

/// A resource record as it stands in a message.
#[derive(Clone, Copy, Debug)]
pub struct AnswerPart<'a> {
    /// The place of the name that the record belongs to.
    pub name: usize,
    /// The type of the record.
    pub rtype: u16,
    /// Its class.
    pub rclass: u16,
    /// For how many seconds it may be kept.
    pub ttl: u32,
    /// The place of its data.
    pub at: usize,
    /// Its data, the very slice of the message.
    pub bytes: &'a [u8],
}

/// A part of which a section has several, one behind another.
pub trait Part {
    ghost use Rattle.std.specs.Prelude.{List, ℕ, Result};
    ghost use Rattle.zk_dns.specs.declared.fault.DnsFault.{DnsFault};

    /// The place behind the part at a place, or its first fault.
    ghost ends: { List ℕ → ℕ → Result ℕ DnsFault };

    fn end(bytes: &[u8], skips: &[u16], place: usize) -> Result<usize, DnsFault>
        requires { AreSkips bytes.now skips.now }
        ensures exact { result ≡ ends bytes.now place }
        ensures within { IfOk result (λ next. next ≤ length bytes.now) };
}

impl Part for QuestionPart {
    ghost use Rattle.zk_dns.specs.Ends.{question_end};

    ghost ends = { question_end };

    fn end(bytes: &[u8], skips: &[u16], place: usize) -> Result<usize, DnsFault>
        requires { AreSkips bytes.now skips.now }
        ensures exact { result ≡ question_end bytes.now place }
        ensures within { IfOk result (λ next. next ≤ length bytes.now) }
    {
        let bound = Bound::whole(bytes);
        let fields = name_end(bytes, skips, bound, place)?;
        if bytes.len() - fields < QUESTION_FIELDS_LEN {
            return Err(bound.fault);
        }
        Ok(fields + QUESTION_FIELDS_LEN)
    }
}

impl<'a> Part for AnswerPart<'a> {
    ghost use Rattle.zk_dns.specs.Ends.{resource_end};

    ghost ends = { resource_end };

    fn end(bytes: &[u8], skips: &[u16], place: usize) -> Result<usize, DnsFault>
        requires { AreSkips bytes.now skips.now }
        ensures exact { result ≡ resource_end bytes.now place }
        ensures within { IfOk result (λ next. next ≤ length bytes.now) }
    {
        let bound = Bound::whole(bytes);
        let fields = name_end(bytes, skips, bound, place)?;
        if bytes.len() - fields < RECORD_FIELDS_LEN {
            return Err(bound.fault);
        }
        let at = fields + RECORD_FIELDS_LEN;
        let len = usize::from(u16_at(bytes, fields + DATA_LENGTH));
        if bytes.len() - at < len {
            return Err(bound.fault);
        }
        let end = at + len;
        judge(
            bytes,
            skips,
            u16_at(bytes, fields),
            u16_at(bytes, fields + CLASS),
            at,
            end,
        )?;
        Ok(end)
    }
}

/// The place behind a number of parts, which stand one behind another from a place on, or the first fault
/// of them.
pub fn section_end<P: Part>(
    bytes: &[u8],
    skips: &[u16],
    count: u16,
    start: usize,
) -> Result<usize, DnsFault>
    requires start { start ≤ length bytes.now }
    requires skips { AreSkips bytes.now skips.now }
    ensures exact { result ≡ all_end (P.ends bytes.now) count start }
    ensures within { IfOk result (λ next. next ≤ length bytes.now) }
{
    let mut place = start;
    for _ in 0..count {
        place = P::end(bytes, skips, place)?;
    }
    Ok(place)
}

/// The place behind the own bytes of a name that can be read.
pub fn own_end(bytes: &[u8], place: usize) -> usize
    requires { IsOk (name_at bytes.now (whole bytes.now) place) }
    ensures { name_end_at bytes.now (whole bytes.now) place ≡ Ok result }
{
    match run_end(bytes, Bound::whole(bytes), 0, place) {
        Ok(run) => behind_ending(bytes, run.place),
        Err(_) => unreachable!(),
    }
}

/// The place of a question's fields, where the question can be read.
fn question_fields(bytes: &[u8], place: usize) -> usize
    requires { IsOk (question_at bytes.now place) }
    ensures exact { name_end_at bytes.now (whole bytes.now) place ≡ Ok result }
    ensures within { result + QUESTION_FIELDS_LEN ≤ length bytes.now }
{
    own_end(bytes, place)
}

/// The place of a record's fields, where the record can be read.
fn record_fields(bytes: &[u8], place: usize) -> usize
    requires { IsOk (resource_at bytes.now place) }
    ensures exact { name_end_at bytes.now (whole bytes.now) place ≡ Ok result }
    ensures within { result + RECORD_FIELDS_LEN + data_len bytes.now result ≤ length bytes.now }
{
    own_end(bytes, place)
}

impl QuestionPart {
    ghost use Rattle.std.specs.Prelude.{ℕ};
    ghost use Rattle.zk_dns.specs.Sections.{Asked};
    ghost use Rattle.zk_dns.specs.Parts.{question_part};

    /// The question at a place, and the place behind it.
    pub fn read(bytes: &[u8], place: usize) -> (QuestionPart, usize)
        requires { IsOk (question_at bytes.now place) }
        ensures { (asked : Asked) (next : ℕ) → question_at bytes.now place ≡ Ok (asked, next)
            → (result.0 ≡ question_part asked) × (result.1 ≡ next) }
    {
        let fields = question_fields(bytes, place);
        let part = QuestionPart {
            name: place,
            qtype: u16_at(bytes, fields),
            qclass: u16_at(bytes, fields + CLASS),
        };
        (part, fields + QUESTION_FIELDS_LEN)
    }
}

impl<'a> AnswerPart<'a> {
    ghost use Rattle.std.specs.Prelude.{ℕ};
    ghost use Rattle.zk_dns.specs.Sections.{Resource};
    ghost use Rattle.zk_dns.specs.Parts.{answer_part};

    /// The record at a place, and the place behind it.
    pub fn read(bytes: &'a [u8], place: usize) -> (AnswerPart<'a>, usize)
        requires { IsOk (resource_at bytes.now place) }
        ensures { (resource : Resource) (next : ℕ) → resource_at bytes.now place ≡ Ok (resource, next)
            → (result.0 ≡ answer_part bytes.entry resource) × (result.1 ≡ next) }
    {
        let fields = record_fields(bytes, place);
        let at = fields + RECORD_FIELDS_LEN;
        let end = at + usize::from(u16_at(bytes, fields + DATA_LENGTH));
        let part = AnswerPart {
            name: place,
            rtype: u16_at(bytes, fields),
            rclass: u16_at(bytes, fields + CLASS),
            ttl: u32_at(bytes, fields + TTL),
            at,
            bytes: &bytes[at..end],
        };
        (part, end)
    }
}
