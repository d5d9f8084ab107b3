ghost use Rattle.std.specs.Prelude.{◌≡◌, ◌+◌, ◌≤◌, ℕ, List, true, length, map, Ok, Some, IfOk, IsOk, is_ok};
ghost use Rattle.zk_dns.specs.Data.{data_at, data_of, number_at, soa_at, strings_of};
ghost use Rattle.zk_dns.specs.Skips.{AreSkips};
ghost use Rattle.zk_dns.specs.Text.{HasName, text_at};
ghost use Rattle.zk_dns.specs.Sections.{Asked, Resource, question_at, resource_at, several};
ghost use Rattle.zk_dns.specs.Record.{answer_of, question_of};
ghost use Rattle.zk_dns.specs.Parts.{parts_of};
ghost use Rattle.zk_dns.specs.Ends.{are_strings};

use crate::data::PREFERENCE_LEN;
use crate::numbers::{u16_at, u32_at};
use crate::parts::{AnswerPart, QuestionPart, own_end};
use crate::text::name_text;
use crate::{Answer, AnswerKind, Question, types};
use byteorder::{BigEndian, ByteOrder};
use std::alloc::Global;
use zk_base::{Bytes, Mem, Sequence};

// Places of the numbers of a zone of authority, behind the serial number.
const REFRESH: usize = 4;

const RETRY: usize = 8;

const EXPIRE: usize = 12;

const MINIMUM: usize = 16;

/// The questions that stand one behind another from a place on.
pub fn questions(
    alloc: Global,
    bytes: &[u8],
    skips: &[u16],
    count: u16,
    start: usize,
) -> Result<Sequence<Question>, Mem>
    requires skips { AreSkips bytes.now skips.now }
    requires read { is_ok (several (question_at bytes.now) count start) ≡ true }
    ensures { IfOk result (λ questions. questions ≡ map question_of (parts_of (several (question_at bytes.now) count start))) }
{
    let mut questions = Vec::new(alloc);
    let mut place = start;
    for _ in 0..count {
        let (question, behind) = question(alloc, bytes, skips, place)?;
        questions.push(question)?;
        place = behind;
    }
    Ok(Sequence::from(questions))
}

/// The records that stand one behind another from a place on.
pub fn answers(
    alloc: Global,
    bytes: &[u8],
    skips: &[u16],
    count: u16,
    start: usize,
) -> Result<Sequence<Answer>, Mem>
    requires skips { AreSkips bytes.now skips.now }
    requires read { is_ok (several (resource_at bytes.now) count start) ≡ true }
    ensures { IfOk result (λ answers. answers ≡ map answer_of (parts_of (several (resource_at bytes.now) count start))) }
{
    let mut answers = Vec::new(alloc);
    let mut place = start;
    for _ in 0..count {
        let (answer, behind) = answer(alloc, bytes, skips, place)?;
        answers.push(answer)?;
        place = behind;
    }
    Ok(Sequence::from(answers))
}

/// The question at a place, and the place behind it.
fn question(
    alloc: Global,
    bytes: &[u8],
    skips: &[u16],
    place: usize,
) -> Result<(Question, usize), Mem>
    requires skips { AreSkips bytes.now skips.now }
    requires read { IsOk (question_at bytes.now place) }
    ensures { IfOk result (λ found. (asked : Asked) (next : ℕ) → question_at bytes.now place ≡ Ok (asked, next)
        → (found.0 ≡ question_of asked) × (found.1 ≡ next)) }
{
    let (part, behind) = QuestionPart::read(bytes, place);
    let question = Question {
        name: name_text(alloc, bytes, skips, place)?,
        qtype: part.qtype,
        qclass: part.qclass,
    };
    Ok((question, behind))
}

/// The record at a place, and the place behind it.
fn answer(alloc: Global, bytes: &[u8], skips: &[u16], place: usize) -> Result<(Answer, usize), Mem>
    requires skips { AreSkips bytes.now skips.now }
    requires read { IsOk (resource_at bytes.now place) }
    ensures { IfOk result (λ found. (resource : Resource) (next : ℕ) → resource_at bytes.now place ≡ Ok (resource, next)
        → (found.0 ≡ answer_of resource) × (found.1 ≡ next)) }
{
    let (part, behind) = AnswerPart::read(bytes, place);
    let answer = Answer {
        name: name_text(alloc, bytes, skips, place)?,
        rtype: part.rtype,
        rclass: part.rclass,
        ttl: part.ttl,
        what: what(
            alloc,
            bytes,
            skips,
            part.rtype,
            part.rclass,
            part.at,
            part.bytes.len(),
        )?,
    };
    Ok((answer, behind))
}

/// What data says that can be read.
fn what(
    alloc: Global,
    bytes: &[u8],
    skips: &[u16],
    rtype: u16,
    rclass: u16,
    at: usize,
    len: usize,
) -> Result<AnswerKind, Mem>
    requires whole { at + len ≤ length bytes.now }
    requires skips { AreSkips bytes.now skips.now }
    requires read { IsOk (data_at bytes.now rtype rclass at len) }
    ensures { IfOk result (λ what. data_at bytes.now rtype rclass at len ≡ Ok what) }
{
    if rclass == types::INTERNET {
        what_by_type(alloc, bytes, skips, rtype, at, len)
    } else {
        Ok(AnswerKind::Other)
    }
}

/// What data of class 1 says that can be read.
fn what_by_type(
    alloc: Global,
    bytes: &[u8],
    skips: &[u16],
    rtype: u16,
    at: usize,
    len: usize,
) -> Result<AnswerKind, Mem>
    requires whole { at + len ≤ length bytes.now }
    requires skips { AreSkips bytes.now skips.now }
    requires read { IsOk (data_of bytes.now rtype at len) }
    ensures { IfOk result (λ what. data_of bytes.now rtype at len ≡ Ok what) }
{
    match rtype {
        types::A => Ok(AnswerKind::A(u32_at(bytes, at))),
        types::AAAA => Ok(AnswerKind::Aaaa(BigEndian::read_u128(&bytes[at..]))),
        types::NS | types::CNAME | types::PTR => {
            Ok(AnswerKind::Name(name_text(alloc, bytes, skips, at)?))
        }
        types::MX => Ok(AnswerKind::Mx {
            preference: u16_at(bytes, at),
            name: name_text(alloc, bytes, skips, at + PREFERENCE_LEN)?,
        }),
        types::TXT => Ok(AnswerKind::Txt(strings(alloc, &bytes[at..at + len])?)),
        types::SOA => soa(alloc, bytes, skips, at, len),
        _ => Ok(AnswerKind::Other),
    }
}

/// What the data of a zone of authority says, where it can be read.
fn soa(alloc: Global, bytes: &[u8], skips: &[u16], at: usize, len: usize) -> Result<AnswerKind, Mem>
    requires whole { at + len ≤ length bytes.now }
    requires skips { AreSkips bytes.now skips.now }
    requires read { IsOk (soa_at bytes.now at (at + len)) }
    ensures { IfOk result (λ what. soa_at bytes.now at (at + len) ≡ Ok what) }
{
    let (between, numbers) = soa_places(bytes, at, len);
    Ok(AnswerKind::Soa {
        mname: name_text(alloc, bytes, skips, at)?,
        rname: name_text(alloc, bytes, skips, between)?,
        serial: u32_at(bytes, numbers),
        refresh: u32_at(bytes, numbers + REFRESH),
        retry: u32_at(bytes, numbers + RETRY),
        expire: u32_at(bytes, numbers + EXPIRE),
        minimum: u32_at(bytes, numbers + MINIMUM),
    })
}

/// The places of the second name and of the numbers of a zone of authority.
fn soa_places(bytes: &[u8], at: usize, len: usize) -> (usize, usize)
    requires whole { at + len ≤ length bytes.now }
    requires read { IsOk (soa_at bytes.now at (at + len)) }
    ensures first { HasName bytes.now at }
    ensures second { HasName bytes.now result.0 }
    ensures within { result.1 + 20 ≤ length bytes.now }
    ensures says { (mname rname : List ℕ) → text_at bytes.now at ≡ Ok mname → text_at bytes.now result.0 ≡ Ok rname
        → soa_at bytes.now at (at + len) ≡ Ok (AnswerKind.Soa mname rname
        (number_at 4 bytes.now result.1) (number_at 4 bytes.now (result.1 + 4)) (number_at 4 bytes.now (result.1 + 8))
        (number_at 4 bytes.now (result.1 + 12)) (number_at 4 bytes.now (result.1 + 16))) }
{
    let between = own_end(bytes, at);
    (between, own_end(bytes, between))
}

/// The strings that data is.
fn strings(alloc: Global, bytes: &[u8]) -> Result<Sequence<Bytes>, Mem>
    requires { are_strings bytes.now ≡ true }
    ensures { IfOk result (λ strings. strings_of (length bytes.now) bytes.now ≡ Some strings) }
{
    let mut strings = Vec::new(alloc);
    let mut rest = bytes;
    while let Some((len, behind)) = rest.split_first() {
        let len = usize::from(*len);
        strings.push(Bytes::copy_of(alloc, &behind[..len])?)?;
        rest = &behind[len..];
    }
    Ok(Sequence::from(strings))
}
