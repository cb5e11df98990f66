// Replays stored answers: reads questions with the answers that are expected, asks the host calls, and prints the
// number of each line whose answer differs, then how many answers there were and how many were equal.
//
// A line is 128 lower-case hexadecimal digits of a question, a space, 64 of its answer, and a line end. A question has
// 64 bytes, its numbers little-endian: 0 the call; 1 a code; 2 and 3 zero; 4 to 7 a date (year 2 bytes, month, day); 8
// to 11 a second date, or a clock's nanoseconds; 12 to 15 a count; 16 to 23 seconds, signed; 24 to 27 nanoseconds; 28
// to 30 hour, minute and second of a clock; 31 zero; 32 to 35 a second count; 36 to 43 and 44 to 47 a second instant;
// 48 a second code; 49 the length of a reason and 50 to 63 its bytes. A line of another form counts as different.
#![tactic(auto)]

ghost use Rattle.std.specs.Prelude.{true, ◌≡◌, ◌↔◌, ◌+◌, ◌*◌, ◌<◌, ◌≤◌, [], ◌∷◌, get_or, option_map};
ghost use Rattle.std.specs.Prelude.{IfSome, IfNone, IsSome, IsTrue, IfOk, OnOk};
ghost use Rattle.std.specs.Io.KnownBytes.{Consumes, IsAtEnd};
ghost use Rattle.antwortsatz.specs.Bytes.{reply};
ghost use Rattle.vektoren.specs.Hex.{digit, bytes_at};
ghost use Rattle.vektoren.specs.Asked.{stored_question, stored_reason, stored_answer};
ghost use Rattle.vektoren.specs.Line.{line_case, IsEqualLine};
ghost use Rattle.vektoren.specs.Input.{still_to_come, ReplaysLine};

use std::io;
use std::io::Read;
use wiedergabe::Replayed;

// A line's bytes, its end left out.
const LINE_BYTES: usize = 193;

const QUESTION_BYTES: usize = 64;

const ANSWER_BYTES: usize = 32;

// Where in a line the space and the answer stand.
const SPACE_AT: usize = 128;

const ANSWER_AT: usize = 129;

// Where in a question the bytes of a reason start, and how many have room.
const REASON_AT: usize = 50;

const REASON_BYTES: usize = 14;

// What each byte of an answer is before the call, so that one that the call leaves out is seen.
const UNWRITTEN: u8 = 170;

// How many bytes are read at a time.
const BLOCK_BYTES: usize = 4096;

// The value of a lower-case hexadecimal digit; none for any other byte.
#[tactic(auto, unfolding(crate::specs::Hex::digit))]
fn digit(b: u8) -> Option<u8>
    ensures value { result ≡ digit b }
    ensures bound { IfSome result (λ d. d < 16) }
{
    match b {
        b'0'..=b'9' => Some(b - b'0'),
        b'a'..=b'f' => Some(b - b'a' + 10),
        _ => None,
    }
}

// The bytes whose digits start at `from`; none where one of them is no digit.
#[tactic(auto, using(crate::proofs::Rules::hex_rules))]
fn read_hex<const N: usize>(line: &[u8; LINE_BYTES], from: usize) -> Option<[u8; N]>
    requires { from + 2 * N ≤ 193 }
    ensures { result ≡ bytes_at line.now from N }
{
    let (pairs, _) = line[from..].as_chunks::<2>();
    let mut bytes = [0u8; N];
    // By index: of what is written through a `zip` over `iter_mut` a proof knows no values.
    for (i, byte) in bytes.iter_mut().enumerate() {
        let [high, low] = pairs[i];
        *byte = digit(high)? * 16 + digit(low)?;
    }
    Some(bytes)
}

// A question's fields, each of the bytes named above. What a call has no use for is read all the same.
#[derive(Clone, Copy)]
struct Question {
    call: u8,
    code: u8,
    year: u16,
    month: u8,
    day: u8,
    year2: u16,
    month2: u8,
    day2: u8,
    nanos_of_second: u32,
    count: u32,
    seconds: i64,
    nanos: u32,
    hour: u8,
    minute: u8,
    second: u8,
    count2: u32,
    seconds2: i64,
    nanos2: u32,
    code2: u8,
    reason_bytes: u8,
    reason: [u8; REASON_BYTES],
}

// The question of its 64 bytes.
#[tactic(auto, unfolding(crate::specs::Asked::stored_question))]
fn question_of(bytes: &[u8; QUESTION_BYTES]) -> Question
    ensures { result ≡ stored_question bytes.now }
{
    Question {
        call: bytes[0],
        code: bytes[1],
        year: zahlen::u16_at(bytes, 4),
        month: bytes[6],
        day: bytes[7],
        year2: zahlen::u16_at(bytes, 8),
        month2: bytes[10],
        day2: bytes[11],
        nanos_of_second: zahlen::u32_at(bytes, 8),
        count: zahlen::u32_at(bytes, 12),
        seconds: zahlen::i64_at(bytes, 16),
        nanos: zahlen::u32_at(bytes, 24),
        hour: bytes[28],
        minute: bytes[29],
        second: bytes[30],
        count2: zahlen::u32_at(bytes, 32),
        seconds2: zahlen::i64_at(bytes, 36),
        nanos2: zahlen::u32_at(bytes, 44),
        code2: bytes[48],
        reason_bytes: bytes[49],
        reason: zahlen::bytes_at(bytes, REASON_AT),
    }
}

// The bytes of a question's reason; none where it is longer than its place.
fn reason_of(q: &Question) -> Option<&[u8]>
    ensures { option_map (λ r. r.now) result ≡ stored_reason q.now }
{
    q.reason.get(..usize::from(q.reason_bytes))
}

// Asks a calendar step or count.
#[tactic(auto, unfolding(crate::specs::Asked::stored_answer))]
fn ask_kalender(q: &Question, answer: &mut [u8]) -> Option<u8>
    requires { q.now.call ≤ 6 }
    ensures { option_map (λ n. (n, answer.new)) result ≡ option_map (reply answer.old) (stored_answer q.now) }
{
    let call = q.call;
    match call {
        0 => Some(mako_fristen::mf_is_werktag(q.year, q.month, q.day, answer)),
        1 => Some(mako_fristen::mf_next_werktag(q.year, q.month, q.day, answer)),
        2 => Some(mako_fristen::mf_add_werktage(q.year, q.month, q.day, q.count, answer)),
        3 => Some(mako_fristen::mf_sub_werktage(q.year, q.month, q.day, q.count, answer)),
        4 => Some(mako_fristen::mf_werktage_between(
            q.year, q.month, q.day, q.year2, q.month2, q.day2, answer,
        )),
        5 => Some(mako_fristen::mf_add_months(q.year, q.month, q.day, q.count, answer)),
        6 => Some(mako_fristen::mf_subtract_months(q.year, q.month, q.day, q.count, answer)),
        _ => unreachable!(),
    }
}

// Asks a clock on a date, or the day of an instant.
#[tactic(auto, unfolding(crate::specs::Asked::stored_answer))]
fn ask_uhrzeit(q: &Question, answer: &mut [u8]) -> Option<u8>
    requires { (7 ≤ q.now.call) × (q.now.call ≤ 12) }
    ensures { option_map (λ n. (n, answer.new)) result ≡ option_map (reply answer.old) (stored_answer q.now) }
{
    let call = q.call;
    match call {
        7 => Some(mako_fristen::mf_berlin_at(
            q.year,
            q.month,
            q.day,
            q.hour,
            q.minute,
            q.second,
            q.nanos_of_second,
            answer,
        )),
        8 => Some(mako_fristen::mf_berlin_midnight(q.year, q.month, q.day, answer)),
        9 => Some(mako_fristen::mf_end_of_day_berlin(q.year, q.month, q.day, answer)),
        10 => Some(mako_fristen::mf_tagesbeginn_utc(q.year, q.month, q.day, q.code, answer)),
        11 => Some(mako_fristen::mf_berlin_date(q.seconds, q.nanos, answer)),
        12 => Some(mako_fristen::mf_tag_des_beginns(q.seconds, q.nanos, q.code, answer)),
        _ => unreachable!(),
    }
}

// Asks a due instant.
#[tactic(auto, unfolding(crate::specs::Asked::stored_answer))]
fn ask_frist(q: &Question, answer: &mut [u8]) -> Option<u8>
    requires { (13 ≤ q.now.call) × (q.now.call ≤ 24) }
    ensures { option_map (λ n. (n, answer.new)) result ≡ option_map (reply answer.old) (stored_answer q.now) }
{
    let call = q.call;
    match call {
        13 => Some(mako_fristen::mf_contrl_due_at(q.seconds, q.nanos, q.code, answer)),
        14 => Some(mako_fristen::mf_aperak_strom_due_at(q.seconds, q.nanos, answer)),
        15 => Some(mako_fristen::mf_aperak_strom_allgemein_due_at(q.seconds, q.nanos, answer)),
        16 => Some(mako_fristen::mf_aperak_gas_folgeprozess_due_at(q.seconds, q.nanos, answer)),
        17 => Some(mako_fristen::mf_aperak_gas_initialprozess_due_at(q.seconds, q.nanos, answer)),
        18 => Some(mako_fristen::mf_aperak_gas_due_at(q.count, q.seconds, q.nanos, answer)),
        19 => Some(mako_fristen::mf_add_hours(q.seconds, q.nanos, q.count, answer)),
        20 => Some(mako_fristen::mf_deadline_at_werktage(q.seconds, q.nanos, q.count, answer)),
        21 => Some(mako_fristen::mf_end_of_werktag_after(q.seconds, q.nanos, q.count, answer)),
        22 => Some(mako_fristen::mf_next_werktag_at(
            q.seconds,
            q.nanos,
            q.hour,
            q.minute,
            q.second,
            q.nanos_of_second,
            answer,
        )),
        23 => Some(mako_fristen::mf_nth_werktag_at(
            q.seconds,
            q.nanos,
            q.count,
            q.hour,
            q.minute,
            q.second,
            q.nanos_of_second,
            answer,
        )),
        24 => Some(mako_fristen::mf_frist_due_at(
            q.code,
            q.count,
            q.hour,
            q.minute,
            q.second,
            q.nanos_of_second,
            q.seconds,
            q.nanos,
            answer,
        )),
        _ => unreachable!(),
    }
}

// Asks a verdict, a span, a deregistration or an announcement.
#[tactic(auto, unfolding(crate::specs::Asked::stored_answer))]
fn ask_vorlauf(q: &Question, answer: &mut [u8]) -> Option<u8>
    requires { (25 ≤ q.now.call) × (q.now.call ≤ 30) }
    ensures { option_map (λ n. (n, answer.new)) result ≡ option_map (reply answer.old) (stored_answer q.now) }
{
    let call = q.call;
    match call {
        25 => Some(mako_fristen::mf_vorlauf_check(
            q.code, q.count, q.count2, q.year, q.month, q.day, q.year2, q.month2, q.day2, answer,
        )),
        26 => Some(mako_fristen::mf_vorlauf_check_at(
            q.code, q.count, q.count2, q.seconds, q.nanos, q.seconds2, q.nanos2, q.code2, answer,
        )),
        27 => Some(mako_fristen::mf_vorlauf_span(
            q.code, q.count, q.count2, q.year, q.month, q.day, answer,
        )),
        28 => Some(mako_fristen::mf_abmeldung_fuer(reason_of(q)?, q.code, answer)),
        29 => Some(mako_fristen::mf_abmeldung_check(
            reason_of(q)?,
            q.code,
            q.year,
            q.month,
            q.day,
            q.year2,
            q.month2,
            q.day2,
            answer,
        )),
        30 => Some(mako_fristen::mf_eog_ankuendigung_fristgerecht(
            q.seconds, q.nanos, q.year, q.month, q.day, answer,
        )),
        _ => unreachable!(),
    }
}

// Asks the call that a question names, and returns what the call returns; none where no call has the number, or a
// reason is longer than its place.
#[tactic(auto, unfolding(crate::specs::Asked::stored_answer))]
fn ask(q: &Question, answer: &mut [u8]) -> Option<u8>
    ensures { option_map (λ n. (n, answer.new)) result ≡ option_map (reply answer.old) (stored_answer q.now) }
{
    // The numbers of the stored file, each with parameters of its own.
    let call = q.call;
    match call {
        0..=6 => ask_kalender(q, answer),
        7..=12 => ask_uhrzeit(q, answer),
        13..=24 => ask_frist(q, answer),
        25..=30 => ask_vorlauf(q, answer),
        // A CONTRL with a change day.
        31 => Some(mako_fristen::mf_contrl_due_at_change(
            q.seconds, q.nanos, q.code, q.year, q.month, q.day, answer,
        )),
        _ => None,
    }
}

// Whether a call left the bytes that are expected, all 32 of them, and returned the first.
fn is_expected(number: u8, answer: &[u8; ANSWER_BYTES], expected: &[u8; ANSWER_BYTES]) -> bool
    ensures { IsTrue result ↔ ((answer.now ≡ expected.now) × (number ≡ get_or expected.now 0 0)) }
{
    number == expected[0] && answer == expected
}

// Whether a line's question has the answer that the line expects; none where the line has another form.
#[tactic(auto, unfolding(crate::specs::Line::line_case))]
fn is_equal(line: &[u8; LINE_BYTES]) -> Option<bool>
    ensures form { IsSome result ↔ IsSome (line_case line.now) }
    ensures equal { (result ≡ Some true) ↔ IsEqualLine line.now }
{
    let question: [u8; QUESTION_BYTES] = read_hex(line, 0)?;
    let expected: [u8; ANSWER_BYTES] = read_hex(line, ANSWER_AT)?;
    // These bytes no call reads.
    let is_spare_zero = question[2] == 0 && question[3] == 0 && question[31] == 0;
    if line[SPACE_AT] != b' ' || !is_spare_zero {
        return None;
    }
    let mut answer = [UNWRITTEN; ANSWER_BYTES];
    let number = ask(&question_of(&question), &mut answer)?;
    Some(is_expected(number, &answer, &expected))
}

// An input's bytes, one after the other. They are read in blocks: from `at` to `end` of this one are still to come. No
// `BufReader`: that has its block on the heap.
#[derive(Drop)]
struct Bytes<R> {
    input: R,
    block: [u8; BLOCK_BYTES],
    at: usize,
    end: usize,
    ghost within: { (at ≤ end) × (end ≤ 4096) },
}

impl<R: Read> Bytes<R> {
    // Reads the next block where all of this one has come.
    #[tactic(auto, using(crate::proofs::Blocks::block_rules))]
    fn fill(&mut self) -> io::Result<()>
        ensures none_lost { OnOk result (Consumes
            (still_to_come (R.remaining self.old.input) self.old.block self.old.at self.old.end)
            (still_to_come (R.remaining self.new.input) self.new.block self.new.at self.new.end) []) }
        ensures end { OnOk result (self.new.at ≡ self.new.end → IsAtEnd
            (still_to_come (R.remaining self.new.input) self.new.block self.new.at self.new.end)) }
    {
        if self.at < self.end {
            return Ok(());
        }
        // Nothing is left of the block, also if the read fails.
        self.at = 0;
        self.end = 0;
        self.end = eingabe::read_full(&mut self.input, &mut self.block)?;
        Ok(())
    }

    // The next byte; none where the input has ended.
    #[tactic(auto, using(crate::proofs::Blocks::block_rules))]
    fn next(&mut self) -> io::Result<Option<u8>>
        ensures byte { IfOk result (λ next. IfSome next (λ byte. Consumes
            (still_to_come (R.remaining self.old.input) self.old.block self.old.at self.old.end)
            (still_to_come (R.remaining self.new.input) self.new.block self.new.at self.new.end) (byte ∷ []))) }
        ensures none { IfOk result (λ next. IfNone next (Consumes
            (still_to_come (R.remaining self.old.input) self.old.block self.old.at self.old.end)
            (still_to_come (R.remaining self.new.input) self.new.block self.new.at self.new.end) []
            × IsAtEnd (still_to_come (R.remaining self.new.input) self.new.block self.new.at self.new.end))) }
    {
        self.fill()?;
        if self.at == self.end {
            return Ok(None);
        }
        let byte = self.block[self.at];
        self.at += 1;
        Ok(Some(byte))
    }
}

// Whether a line of some length is equal: its bytes, or the first of them where it has more.
fn is_equal_line(line: &[u8; LINE_BYTES], length: usize) -> bool
    ensures { IsTrue result ↔ ((length ≡ 193) × IsEqualLine line.now) }
{
    length == LINE_BYTES && is_equal(line) == Some(true)
}

// Reads the next line, and asks its question.
#[tactic(auto, using(crate::proofs::Held::held_rules))]
fn replay_next<R: Read>(bytes: &mut Bytes<R>) -> io::Result<Option<Replayed>>
    ensures { let old = bytes.old in let new = bytes.new in IfOk result (ReplaysLine
        (still_to_come (R.remaining old.input) old.block old.at old.end)
        (still_to_come (R.remaining new.input) new.block new.at new.end)) }
{
    let mut line = [0u8; LINE_BYTES];
    // A proved loop has to end, and nothing says that a line does.
    for held in 0..usize::MAX {
        let Some(byte) = bytes.next()? else {
            if held == 0 {
                return Ok(None);
            }
            // A last line without its end is of another form.
            return Ok(Some(Replayed::Unreadable));
        };
        if byte == b'\n' {
            return Ok(Some(Replayed::from(is_equal_line(&line, held))));
        }
        if held < LINE_BYTES {
            line[held] = byte;
        }
    }
    Ok(Some(Replayed::Unreadable))
}

fn main(rt: HostRuntime) -> io::Result<()> {
    let mut bytes = Bytes {
        input: rt.stdin(),
        block: [0u8; BLOCK_BYTES],
        at: 0,
        end: 0,
    };
    let counts = wiedergabe::replay_all(&rt, || replay_next(&mut bytes))?;
    println!(rt; "{} answers, {} equal", counts.total, counts.equal)
}
