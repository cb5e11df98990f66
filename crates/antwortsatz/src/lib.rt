// The answer of a host call: its refusals, its fields, its 32 bytes, and the one function that writes them. It knows no
// calendar.
#![tactic(auto)]

ghost use Rattle.std.specs.Prelude.{◌≡◌, Result};
ghost use Rattle.antwortsatz.specs.declared.Answer.{Answer};
ghost use Rattle.antwortsatz.specs.declared.Refusal.{Refusal};
ghost use Rattle.antwortsatz.specs.Refusals.{number};
ghost use Rattle.antwortsatz.specs.Bytes.{numbered_bytes, bytes_of, reply, numbered_reply};
ghost use Rattle.antwortsatz.specs.Answers.{date_word, filled, of_kind, counted, dated, at_instant, judged, spanned};

use datum::Date;

pub mod theorems;

/// The refusals of document 01, "Host calls and their refusals", and of document 02, by the host's names and numbers.
#[derive(Clone, Copy, PartialEq, Eq)]
pub enum Refusal {
    /// The answer isn't 32 bytes long.
    AnswerLength = 1,
    /// A code is unknown.
    UnknownCode = 2,
    /// A given date is no date of the range.
    NoDate = 3,
    /// An instant lies outside its limits.
    InstantOutside = 4,
    /// Hour over 23, minute or second over 59, nanoseconds over 999,999,999.
    NoClock = 5,
    /// The local time is absent.
    LocalTimeAbsent = 6,
    /// The instant is not the beginning of a day in that Sparte.
    NoBeginning = 7,
    /// A result leaves the calendar.
    LeavesCalendar = 8,
    /// The questions are no multiple of 32 bytes or exceed 65,536, or the answers differ in length.
    FileLength = 9,
    /// The three lists of a portfolio differ in length or have over 4,096 entries.
    ListLength = 10,
}

impl Refusal {
    /// The number that a host call returns and has in byte 0: that of `NoDate` is 3.
    pub fn number(self) -> u8
        ensures { result ≡ number self }
    {
        self as u8
    }
}

/// The answer's length in bytes.
pub const ANSWER_BYTES: usize = 32;

/// The fields of an answer, in the order of their bytes. The kind is a number: each call has kinds of its own, and the
/// C interface has a byte for them. A field that a call does not use is 0, as all are by default.
/// Bytes 20 to 31 are three words, named by their first byte: a date is one, and a number, a signed one's bits or an
/// instant have room there too.
#[derive(Clone, Copy, Default)]
pub struct Answer {
    pub kind: u8,
    pub count: u32,
    pub seconds: i64,
    pub nanos: u32,
    pub word20: u32,
    pub word24: u32,
    pub word28: u32,
}

/// An answer of all its fields, in the order of their bytes, under the definition's name: each answer below fills the
/// fields that it has by name. The day test of 3 April 2026, Karfreitag, is `filled(17, 0, 0, 0, 0, 0, 0)`.
pub fn filled(
    kind: u8,
    count: u32,
    seconds: i64,
    nanos: u32,
    word20: u32,
    word24: u32,
    word28: u32,
) -> Answer
    ensures { result ≡ filled kind count seconds nanos word20 word24 word28 }
{
    Answer {
        kind,
        count,
        seconds,
        nanos,
        word20,
        word24,
        word28,
    }
}

/// A date as a word: "year 2 bytes, month, day", from the lowest byte up. 7 April 2026 is 0x070407ea: bytes ea 07 04
/// 07.
pub fn date_word(date: Date) -> u32
    ensures { result ≡ date_word date }
{
    let [low, high] = date.year.to_le_bytes();
    u32::from_le_bytes([low, high, date.month, date.day])
}

/// A kind alone: the reason of a day ("0 Werktag, 1 Saturday, 2 Sunday, 3 to 22 the holidays"), "a deregistration
/// reason the code of its case". 3 April 2026, Karfreitag, is `of_kind(17)`; `of_kind(0)` is all zero, and an answer.
#[tactic(auto, unfolding(crate::specs::Answers::of_kind))]
pub fn of_kind(kind: u8) -> Answer
    ensures { result ≡ of_kind kind }
{
    Answer {
        kind,
        ..Answer::default()
    }
}

/// A count, and the days that were tested for it: "a count [fills] the count", "how many days it tested, in bytes 24 to
/// 27". The Werktage from 2 to 8 April 2026 are `counted(2, 190)`. `counted(0, 0)` is all zero, and an answer.
#[tactic(auto, unfolding(crate::specs::Answers::counted))]
pub fn counted(count: u32, tested: u32) -> Answer
    ensures { result ≡ counted count tested }
{
    Answer {
        count,
        word24: tested,
        ..Answer::default()
    }
}

/// A date alone: "A step fills the date". 2 April 2026 plus 1 Werktag is `dated` of 7 April.
#[tactic(auto, unfolding(crate::specs::Answers::dated))]
pub fn dated(date: Date) -> Answer
    ensures { result ≡ dated date }
{
    Answer {
        word20: date_word(date),
        ..Answer::default()
    }
}

/// An instant beside a kind: a clock on a date, a due instant. "A Gas due instant [has] kind 1 for the initial process,
/// else 0", as has every other instant. The Gas day 29 March 2026 begins `at_instant(0, 1774756800, 0)`.
#[tactic(auto, unfolding(crate::specs::Answers::at_instant))]
pub fn at_instant(kind: u8, seconds: i64, nanos: u32) -> Answer
    ensures { result ≡ at_instant kind seconds nanos }
{
    Answer {
        kind,
        seconds,
        nanos,
        ..Answer::default()
    }
}

/// A kind, a count of Werktage, a date and a margin: "A verdict has its Werktage in the count and its earliest date in
/// the date", "Bytes 28 to 31 of a verdict's answer become a signed number". What a verdict has no date for is zero.
/// `LatestWerktageBefore(1)`, 10 January 2026 against the 12th, is `judged(1, 0, Some(..), -1)` of the 12th: bytes 28
/// to 31 are ff.
#[tactic(auto, using(zahlen::proofs::Std::word_std), unfolding(crate::specs::Answers::judged))]
pub fn judged(kind: u8, count: u32, date: Option<Date>, margin: i32) -> Answer
    ensures { result ≡ judged kind count date margin }
{
    Answer {
        kind,
        count,
        word20: date.map_or(0, date_word),
        word28: margin.cast_unsigned(),
        ..Answer::default()
    }
}

/// A kind and two dates: a span, "24 to 27 the span's last date", zero where it has none. `LatestWerktageBefore(1)` for
/// 10 January 2026 is `spanned(0, .., None)` of 13 January.
#[tactic(auto, unfolding(crate::specs::Answers::spanned))]
pub fn spanned(kind: u8, first: Date, last: Option<Date>) -> Answer
    ensures { result ≡ spanned kind first last }
{
    Answer {
        kind,
        word20: date_word(first),
        word24: last.map_or(0, date_word),
        ..Answer::default()
    }
}

/// The 32 bytes of any number beside any fields, "little-endian, no header", with the number in byte 0. Those of 3
/// beside `Answer::default()` are 03 and 31 times 00; those of 200 beside `of_kind(17)` are c8 11 and 30 times 00. Any
/// number is taken: `bytes_of` writes the refusals that there are.
#[tactic(auto, using(crate::proofs::Rules::fields_rules))]
pub fn numbered_bytes(number: u8, fields: Answer) -> [u8; 32]
    ensures { result ≡ numbered_bytes number fields }
{
    let mut bytes = [0; 32];
    bytes[0] = number;
    bytes[1] = fields.kind;
    bytes[4..8].copy_from_slice(&fields.count.to_le_bytes());
    bytes[8..16].copy_from_slice(&fields.seconds.to_le_bytes());
    bytes[16..20].copy_from_slice(&fields.nanos.to_le_bytes());
    bytes[20..24].copy_from_slice(&fields.word20.to_le_bytes());
    bytes[24..28].copy_from_slice(&fields.word24.to_le_bytes());
    bytes[28..32].copy_from_slice(&fields.word28.to_le_bytes());
    bytes
}

/// The 32 bytes of an answer, "little-endian, no header": 0 beside its fields. "A refusal leaves bytes 1 to 31 zero":
/// those of `Err(Refusal::NoDate)` are 03 and 31 times 00.
#[tactic(auto, using(crate::proofs::Rules::bytes_rules))]
pub fn bytes_of(a: Result<Answer, Refusal>) -> [u8; 32]
    ensures { result ≡ bytes_of a }
{
    match a {
        Ok(a) => numbered_bytes(0, a),
        Err(r) => numbered_bytes(r.number(), Answer::default()),
    }
}

/// Writes the answer and returns its refusal number, or 0, if the slice has 32 bytes; else returns 1, "which leaves the
/// slice untouched", as one of 31 bytes. A number and no `Result`: that is what a host call returns.
pub fn reply(answer: &mut [u8], a: Result<Answer, Refusal>) -> u8
    ensures { (result, answer.new) ≡ reply answer.old a }
{
    reply_with(answer, || a)
}

/// Asks for an answer and writes it, as `reply`; where the slice has another length than 32 it does not ask: "which
/// leaves the slice untouched", and costs no answer. The one writer: no host call fills an answer without it.
#[tactic(auto, using(crate::proofs::Rules::reply_rules))]
pub fn reply_with<F: FnOnce() -> Result<Answer, Refusal>>(answer: &mut [u8], ask: F) -> u8
    requires { F.IsAlwaysCallable ask }
    ensures { (a : Result Answer Refusal) → ((r : Result Answer Refusal) → F.post ask r → r ≡ a) →
        (result, answer.new) ≡ reply answer.old a }
{
    if answer.len() != ANSWER_BYTES {
        return Refusal::AnswerLength.number();
    }
    let bytes = bytes_of(ask());
    answer.copy_from_slice(&bytes);
    bytes[0]
}

/// Writes any number beside any fields and returns the number, if the slice has 32 bytes; else returns 1, "which leaves
/// the slice untouched", as one of 31 bytes. With 200 and `of_kind(17)` it returns 200, which is the first of the 32
/// bytes.
#[tactic(auto, using(crate::proofs::Rules::numbered_rules))]
pub fn numbered_reply(answer: &mut [u8], number: u8, fields: Answer) -> u8
    ensures { (result, answer.new) ≡ numbered_reply answer.old number fields }
{
    // Through the one writer, which leaves 0 in byte 0 of an answer.
    let refusal = reply(answer, Ok(fields));
    if refusal != 0 {
        return refusal;
    }
    answer[0] = number;
    number
}
