ghost use Rattle.std.proofs.Props.{props};
ghost use Rattle.std.specs.Prelude.{◌≡◌, ◌+◌, ◌≤◌, ◌↔◌, length, Ok, Err, All, IfOk, IsOk, MatchResult};
ghost use Rattle.zk_dns.specs.Ends.{sections_end};
ghost use Rattle.zk_dns.specs.Skips.{AreSkips};
ghost use Rattle.zk_dns.specs.Record.{record_with};

use crate::bound::Bound;
use crate::content::{answers, questions};
use crate::numbers::u16_at;
use crate::parts::{AnswerPart, QuestionPart, section_end};
use crate::skips::{TARGETS_END, fill};
use crate::text::name_text;
use crate::{Answer, Answers, DnsFault, DnsRecord, Question, Questions};
use std::alloc::Global;
use zk_base::{Bytes, Mem, Sequence};

/// The length of the header (RFC 1035, section 4.1.1).
pub const HEADER_LEN: usize = 12;

// Places of its fields.
const ID: usize = 0;

const FLAGS: usize = 2;

const QUESTION_COUNT: usize = 4;

const ANSWER_COUNT: usize = 6;

const AUTHORITY_COUNT: usize = 8;

const ADDITIONAL_COUNT: usize = 10;

/// The longest message over UDP (RFC 1035, section 2.3.4). In a longer one chains of pointers are cut
/// short.
const UDP_MAX: usize = 512;

// Flags in the first byte of their field.
const QR: u8 = 0x80;

const AA: u8 = 0x04;

const TC: u8 = 0x02;

const RD: u8 = 0x01;

/// A flag in the second byte.
const RA: u8 = 0x80;

/// A DNS message, judged once: afterwards its parts can be asked for without a fault.
#[derive(Clone, Copy, Debug)]
pub struct Message<'a> {
    bytes: &'a [u8],
    answers: usize,
    ghost read: { sections_end bytes.now ≡ Ok answers } by { Prim.hlevel props },
}

impl<'a> Message<'a> {
    ghost use Rattle.zk_dns.specs.declared.record.DnsRecord.{DnsRecord as Told};
    ghost use Rattle.zk_dns.specs.Iterators.{answers_left, questions_left};
    ghost use Rattle.zk_dns.specs.Parts.{answers_in, questions_in};
    ghost use Rattle.zk_dns.specs.Record.{IsMessage, record_of};
    ghost use Rattle.zk_dns.specs.Sections.{answer_count, question_count, sections_of};
    ghost use Rattle.zk_dns.specs.Text.{HasDataNames, HasName, text_at};
    ghost use Rattle.zk_dns.specs.Views.{message_bytes};

    /// Reads a message (RFC 1035, section 4.1; RFC 3596): a header of 12 bytes, the questions, and the
    /// records of three sections, to the end of the bytes. The first thing that fails from the front
    /// is the fault. No memory is taken.
    pub fn read(bytes: &'a [u8]) -> Result<Message<'a>, DnsFault>
        ensures fault { MatchResult result (λ _. IsOk (record_of bytes.now)) (λ fault. record_of bytes.now ≡ Err fault) }
        // The bytes are a message that says what their record says, and no other record, or they are none.
        ensures meaning { (told : Told) → (IsMessage bytes.now told) ↔ (record_of bytes.now ≡ Ok told) }
        ensures bytes { IfOk result (λ message. message_bytes message ≡ bytes.entry) }
    {
        let answers = answers_place(bytes)?;
        Ok(Message { bytes, answers })
    }

    /// The questions, one behind another. No memory is taken.
    pub fn questions(&self) -> Questions<'a>
        ensures parts { questions_left result ≡ questions_in (sections_of (message_bytes self.now).now) }
        ensures names { All (λ part. HasName (message_bytes self.now).now part.name) (questions_left result) }
    {
        Questions::new(self.bytes, HEADER_LEN, self.question_count())
    }

    /// The records of the answer section, one behind another. Each lends its data. No memory is taken.
    pub fn answers(&self) -> Answers<'a>
        ensures parts { answers_left result ≡ answers_in (message_bytes self.now) (sections_of (message_bytes self.now).now) }
        ensures names { All (λ part. HasName (message_bytes self.now).now part.name) (answers_left result) }
        ensures data_names { All (HasDataNames (message_bytes self.now).now) (answers_left result) }
    {
        Answers::new(self.bytes, self.answers, self.answer_count())
    }

    /// The name at a place as text: its labels in ASCII lower case, joined by dots; the root is a dot.
    /// A part's `name` is such a place, and so is the place of a name in its data.
    pub fn name_out(&self, alloc: Global, place: usize) -> Result<Bytes, Mem>
        requires { HasName (message_bytes self.now).now place }
        ensures { IfOk result (λ text. text_at (message_bytes self.now).now place ≡ Ok text) }
    {
        name_text(alloc, self.bytes, &[], place)
    }

    /// What the message says: its record.
    pub fn to_record(&self, alloc: Global) -> Result<DnsRecord, Mem>
        ensures record { IfOk result (λ told. record_of (message_bytes self.now).now ≡ Ok told) }
        ensures meaning { IfOk result (λ told. IsMessage (message_bytes self.now).now told) }
    {
        if self.bytes.len() <= UDP_MAX {
            return self.record_by(alloc, &[]);
        }
        let mut skips = [0; TARGETS_END];
        fill(self.bytes, &mut skips);
        self.record_by(alloc, &skips)
    }

    /// The same, where chains of pointers are cut short.
    fn record_by(&self, alloc: Global, skips: &[u16]) -> Result<DnsRecord, Mem>
        requires { AreSkips (message_bytes self.now).now skips.now }
        ensures record { IfOk result (λ told. record_of (message_bytes self.now).now ≡ Ok told) }
        ensures meaning { IfOk result (λ told. IsMessage (message_bytes self.now).now told) }
    {
        let questions = questions(alloc, self.bytes, skips, self.question_count(), HEADER_LEN)?;
        let answers = answers(alloc, self.bytes, skips, self.answer_count(), self.answers)?;
        Ok(record_with(self.bytes, questions, answers))
    }

    fn question_count(&self) -> u16
        ensures { result ≡ question_count (message_bytes self.now).now }
    {
        u16_at(self.bytes, QUESTION_COUNT)
    }

    fn answer_count(&self) -> u16
        ensures { result ≡ answer_count (message_bytes self.now).now }
    {
        u16_at(self.bytes, ANSWER_COUNT)
    }
}

/// The record of a message with these questions and answers.
fn record_with(bytes: &[u8], questions: Sequence<Question>, answers: Sequence<Answer>) -> DnsRecord
    requires { 12 ≤ length bytes.now }
    ensures { result ≡ record_with bytes.now questions answers }
{
    let flags = bytes[FLAGS];
    let more_flags = bytes[FLAGS + 1];
    DnsRecord {
        id: u16_at(bytes, ID),
        opcode: flags >> 3 & 0x0f,
        rcode: more_flags & 0x0f,
        qr: flags & QR != 0,
        aa: flags & AA != 0,
        tc: flags & TC != 0,
        rd: flags & RD != 0,
        ra: more_flags & RA != 0,
        counts: [
            u16_at(bytes, QUESTION_COUNT),
            u16_at(bytes, ANSWER_COUNT),
            u16_at(bytes, AUTHORITY_COUNT),
            u16_at(bytes, ADDITIONAL_COUNT),
        ],
        questions,
        answers,
    }
}

/// The place where the answers begin, or the first fault of all sections.
fn answers_place(bytes: &[u8]) -> Result<usize, DnsFault>
    ensures { result ≡ sections_end bytes.now }
{
    if bytes.len() <= UDP_MAX {
        return answers_place_by(bytes, &[]);
    }
    let mut skips = [0; TARGETS_END];
    fill(bytes, &mut skips);
    answers_place_by(bytes, &skips)
}

/// The same, where chains of pointers are cut short.
fn answers_place_by(bytes: &[u8], skips: &[u16]) -> Result<usize, DnsFault>
    requires { AreSkips bytes.now skips.now }
    ensures { result ≡ sections_end bytes.now }
{
    if bytes.len() < HEADER_LEN {
        return Err(Bound::whole(bytes).fault);
    }
    let count = u16_at(bytes, QUESTION_COUNT);
    let answers = section_end::<QuestionPart>(bytes, skips, count, HEADER_LEN)?;
    let count = u16_at(bytes, ANSWER_COUNT);
    let authority = section_end::<AnswerPart<'_>>(bytes, skips, count, answers)?;
    let count = u16_at(bytes, AUTHORITY_COUNT);
    let additional = section_end::<AnswerPart<'_>>(bytes, skips, count, authority)?;
    let count = u16_at(bytes, ADDITIONAL_COUNT);
    let end = section_end::<AnswerPart<'_>>(bytes, skips, count, additional)?;
    if end != bytes.len() {
        return Err(DnsFault::Trailing { place: end });
    }
    Ok(answers)
}
