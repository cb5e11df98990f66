// The question record of a file: its fields, the one function that reads them from its 32 bytes, and the lengths that a
// file has. It knows no calendar: what a field means is for the answer to say.
#![tactic(auto)]

ghost use Rattle.std.specs.Prelude.{◌≡◌, ◌+◌, ◌≤◌, length};
ghost use Rattle.fragesatz.specs.Record.{date_at, question_of};
ghost use Rattle.fragesatz.specs.File.{is_file};

use datum::Date;

pub mod theorems;

/// The length of a question in bytes, and so of its answer.
pub const QUESTION_BYTES: usize = 32;

/// The most bytes of a file: 2,048 questions.
const MOST_BYTES: usize = 65536;

/// The fields of a question, in the order of their bytes. Bytes 2 and 3 are named by their place, and have to be zero.
#[derive(Clone, Copy)]
pub struct Question {
    pub operation: u8,
    pub code: u8,
    pub byte2: u8,
    pub byte3: u8,
    pub count: u32,
    pub count2: u32,
    pub transmission: Date,
    pub anchor: Date,
    pub seconds: i64,
    pub nanos: u32,
}

/// The date of the four bytes that start at a place, "year 2 bytes, month, day": of the bytes ea 07 04 07 it is 7 April
/// 2026 at 0. Any four bytes are read; whether there is such a date is for the answer to say.
pub fn date_at(bytes: &[u8], at: usize) -> Date
    requires { at + 4 ≤ length bytes.now }
    ensures { result ≡ date_at bytes.now at }
{
    Date {
        year: zahlen::u16_at(bytes, at),
        month: bytes[at + 2],
        day: bytes[at + 3],
    }
}

/// The question of 32 bytes. Any bytes are one: 32 times 00 is a CONTRL of the Regelfall, received at the beginning of
/// 1970, which is refused with 4.
#[tactic(auto, unfolding(crate::specs::Record::question_of))]
pub fn question_of(bytes: &[u8]) -> Question
    requires { length bytes.now ≡ 32 }
    ensures { result ≡ question_of bytes.now }
{
    Question {
        operation: bytes[0],
        code: bytes[1],
        byte2: bytes[2],
        byte3: bytes[3],
        count: zahlen::u32_at(bytes, 4),
        count2: zahlen::u32_at(bytes, 8),
        transmission: date_at(bytes, 12),
        anchor: date_at(bytes, 16),
        seconds: zahlen::i64_at(bytes, 20),
        nanos: zahlen::u32_at(bytes, 28),
    }
}

/// Whether a file may have these lengths. It may not "if the question bytes are no multiple of 32 or exceed 65,536, or
/// the answers differ in length". A file of no questions is one.
#[tactic(auto, unfolding(crate::specs::File::is_file))]
pub fn is_file(questions: usize, answers: usize) -> bool
    ensures { result ≡ is_file questions answers }
{
    questions.is_multiple_of(QUESTION_BYTES) && questions <= MOST_BYTES && answers == questions
}
