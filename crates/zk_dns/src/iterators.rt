ghost use Rattle.std.specs.Prelude.{◌≡◌, true, is_ok, map};
ghost use Rattle.zk_dns.specs.Sections.{question_at, resource_at, several};

use crate::parts::{AnswerPart, QuestionPart};

/// The questions of a message, one behind another.
#[derive(Clone, Copy, Debug)]
pub struct Questions<'a> {
    bytes: &'a [u8],
    place: usize,
    left: u16,
    ghost stand: { is_ok (several (question_at bytes.now) left place) ≡ true },
}

impl<'a> Questions<'a> {
    ghost use Rattle.zk_dns.specs.Iterators.{questions_left};
    ghost use Rattle.zk_dns.specs.Parts.{parts_of, question_part};

    /// The questions that stand one behind another from a place on.
    pub fn new(bytes: &'a [u8], place: usize, left: u16) -> Questions<'a>
        requires { is_ok (several (question_at bytes.now) left place) ≡ true }
        ensures { questions_left result ≡ map question_part (parts_of (several (question_at bytes.now) left place)) }
    {
        Questions { bytes, place, left }
    }
}

impl<'a> Iterator for Questions<'a> {
    ghost use Rattle.std.specs.Iterator.{YieldsFirst, item_count};
    ghost use Rattle.zk_dns.specs.Iterators.{questions_left};

    type Item = QuestionPart;

    ghost next_gives = { YieldsFirst questions_left };

    ghost remaining = { item_count questions_left };

    fn next(&mut self) -> Option<QuestionPart> {
        if self.left == 0 {
            return None;
        }
        let (part, behind) = QuestionPart::read(self.bytes, self.place);
        self.left -= 1;
        self.place = behind;
        Some(part)
    }
}

/// The records of the answer section of a message, one behind another.
#[derive(Clone, Copy, Debug)]
pub struct Answers<'a> {
    bytes: &'a [u8],
    place: usize,
    left: u16,
    ghost stand: { is_ok (several (resource_at bytes.now) left place) ≡ true },
}

impl<'a> Answers<'a> {
    ghost use Rattle.zk_dns.specs.Iterators.{answers_left};
    ghost use Rattle.zk_dns.specs.Parts.{answer_part, parts_of};

    /// The records that stand one behind another from a place on.
    pub fn new(bytes: &'a [u8], place: usize, left: u16) -> Answers<'a>
        requires { is_ok (several (resource_at bytes.now) left place) ≡ true }
        ensures { answers_left result ≡ map (answer_part bytes.entry) (parts_of (several (resource_at bytes.now) left place)) }
    {
        Answers { bytes, place, left }
    }
}

impl<'a> Iterator for Answers<'a> {
    ghost use Rattle.std.specs.Iterator.{YieldsFirst, item_count};
    ghost use Rattle.zk_dns.specs.Iterators.{answers_left};

    type Item = AnswerPart<'a>;

    ghost next_gives = { YieldsFirst answers_left };

    ghost remaining = { item_count answers_left };

    fn next(&mut self) -> Option<AnswerPart<'a>> {
        if self.left == 0 {
            return None;
        }
        let (part, behind) = AnswerPart::read(self.bytes, self.place);
        self.left -= 1;
        self.place = behind;
        Some(part)
    }
}
