// The worked cases A to M, by calling the library: a line for each, the letter, a space, `ok` or `no`.
#![tactic(auto)]

ghost use Rattle.std.specs.Prelude.{◌≡◌, ◌↔◌, ◌≤◌, IsTrue, OnOk};
ghost use Rattle.std.specs.Io.KnownBytes.{Appends};
ghost use Rattle.faelle.specs.Answered.{line_of, IsEaster, IsClosed, IsAdded, IsGasBeginning, IsSameDayDue};
ghost use Rattle.faelle.specs.Answered.{day_2026, left_by, IsJudged, IsSpanned, IsContrlDue, IsHalfPastTwo};
ghost use Rattle.faelle.specs.Answered.{IsAnnounced, AnswersA, AnswersB, AnswersC, AnswersD, AnswersE, AnswersF};
ghost use Rattle.faelle.specs.Answered.{AnswersG, AnswersH, AnswersI, AnswersJ, AnswersK, AnswersL, AnswersM};

mod theorems;

use antwortsatz::{Answer, Refusal};
use datum::Date;
use std::io;
use std::io::Write;
use werktag::Reason;

// Berlin times of 2026, in seconds since 1970-01-01T00:00Z.
const MARCH_31_11_59_59: i64 = 1774951199;

const MARCH_31_12_00: i64 = 1774951200;

const MARCH_31_17_59_59: i64 = 1774972799;

const APRIL_2: i64 = 1775080800;

const OCTOBER_25_02_30: i64 = 1792888200;

const MARCH_29_06_00: i64 = 1774756800;

const JANUARY_9_12_00: i64 = 1767956400;

const JANUARY_9_13_00: i64 = 1767960000;

const JANUARY_12: i64 = 1768172400;

const JANUARY_12_12_00: i64 = 1768215600;

// Codes, in the Rust's order of its cases: numbers, since those are what the C interface takes.
const LATEST_WERKTAGE_BEFORE: u8 = 0;

const WINDOW_WERKTAGE_BEFORE: u8 = 1;

const TAG_VOR_DEM_LETZTEN_WERKTAG_VOR: u8 = 5;

const LATEST_MONATE_BEFORE: u8 = 6;

const SAME_DAY_AT: u8 = 2;

const REGELFALL: u8 = 0;

const GAS: u8 = 1;

// What an answer's place holds before the call, so that a byte that the call leaves out is seen.
const UNWRITTEN: [u8; 32] = [1; 32];

fn on(month: u8, day: u8) -> Date
    ensures { result ≡ day_2026 month day }
{
    Date {
        year: 2026,
        month,
        day,
    }
}

// Whether a call returned the number of this answer or refusal, and left its bytes.
fn leaves(number: u8, left: &[u8; 32], a: Result<Answer, Refusal>) -> bool
    ensures { IsTrue result ↔ ((number, left.now) ≡ left_by a) }
{
    let mut expected = UNWRITTEN;
    antwortsatz::reply(&mut expected, a) == number && *left == expected
}

// Whether the verdict of a shape on two dates is this answer.
fn is_judged(shape: u8, count: u32, transmission: Date, anchor: Date, a: Answer) -> bool
    ensures { IsTrue result ↔ IsJudged shape count transmission anchor a }
{
    let mut left = UNWRITTEN;
    let number = mako_fristen::mf_vorlauf_check(
        shape,
        count,
        0,
        transmission.year,
        transmission.month,
        transmission.day,
        anchor.year,
        anchor.month,
        anchor.day,
        &mut left,
    );
    leaves(number, &left, Ok(a))
}

// Whether the span of a shape for a date is this answer.
fn is_spanned(shape: u8, count: u32, count2: u32, transmission: Date, a: Answer) -> bool
    ensures { IsTrue result ↔ IsSpanned shape count count2 transmission a }
{
    let mut left = UNWRITTEN;
    let number = mako_fristen::mf_vorlauf_span(
        shape,
        count,
        count2,
        transmission.year,
        transmission.month,
        transmission.day,
        &mut left,
    );
    leaves(number, &left, Ok(a))
}

// Whether a CONTRL of the Regelfall that is received at an instant has this answer.
fn is_contrl_due(received: i64, a: Answer) -> bool
    ensures { IsTrue result ↔ IsContrlDue received a }
{
    let mut left = UNWRITTEN;
    let number = mako_fristen::mf_contrl_due_at(received, 0, REGELFALL, &mut left);
    leaves(number, &left, Ok(a))
}

// Whether half past two on a date is this answer or refusal.
fn is_half_past_two(month: u8, day: u8, a: Result<Answer, Refusal>) -> bool
    ensures { IsTrue result ↔ IsHalfPastTwo month day a }
{
    let mut left = UNWRITTEN;
    let number = mako_fristen::mf_berlin_at(2026, month, day, 2, 30, 0, 0, &mut left);
    leaves(number, &left, a)
}

// Whether the announcement for 12 January at an instant has an answer of this kind.
fn is_announced(seconds: i64, nanos: u32, kind: u8) -> bool
    ensures { IsTrue result ↔ IsAnnounced seconds nanos kind }
{
    let mut left = UNWRITTEN;
    let number = mako_fristen::mf_eog_ankuendigung_fristgerecht(
        seconds, nanos, 2026, 1, 12, &mut left,
    );
    leaves(number, &left, Ok(antwortsatz::of_kind(kind)))
}

// Whether Easter Sunday of a year is this date.
fn is_easter(year: u16, date: Date) -> bool
    requires from { 1996 ≤ year }
    requires to { year ≤ 2899 }
    ensures { IsTrue result ↔ IsEaster year date }
{
    datum::date_of(werktag::easter_sunday(year)) == date
}

// Whether a date is closed by this reason.
fn is_closed(month: u8, day: u8, reason: Reason) -> bool
    ensures { IsTrue result ↔ IsClosed month day reason }
{
    let mut left = UNWRITTEN;
    let number = mako_fristen::mf_is_werktag(2026, month, day, &mut left);
    leaves(number, &left, Ok(antwortsatz::of_kind(reason.number())))
}

// Whether so many Werktage lead from a date to another.
fn is_added(from: Date, count: u32, to: Date) -> bool
    ensures { IsTrue result ↔ IsAdded from count to }
{
    let mut left = UNWRITTEN;
    let number = mako_fristen::mf_add_werktage(from.year, from.month, from.day, count, &mut left);
    leaves(number, &left, Ok(antwortsatz::dated(to)))
}

// Whether the Gas day of a date begins at an instant.
fn is_gas_beginning(date: Date, beginning: i64) -> bool
    ensures { IsTrue result ↔ IsGasBeginning date beginning }
{
    let mut left = UNWRITTEN;
    let number = mako_fristen::mf_tagesbeginn_utc(date.year, date.month, date.day, GAS, &mut left);
    leaves(number, &left, Ok(antwortsatz::at_instant(0, beginning, 0)))
}

// Whether `SameDayAt` some full hour, received at an instant, has this answer.
fn is_same_day_due(hour: u8, received: i64, a: Answer) -> bool
    ensures { IsTrue result ↔ IsSameDayDue hour received a }
{
    let mut left = UNWRITTEN;
    let number = mako_fristen::mf_frist_due_at(
        SAME_DAY_AT,
        0,
        hour,
        0,
        0,
        0,
        received,
        0,
        &mut left,
    );
    leaves(number, &left, Ok(a))
}

// Easter is 5 April.
fn case_a() -> bool
    ensures { IsTrue result ↔ AnswersA }
{
    is_easter(2026, on(4, 5))
}

// 18 November is no Werktag: Buß- und Bettag.
fn case_b() -> bool
    ensures { IsTrue result ↔ AnswersB }
{
    is_closed(11, 18, Reason::BussUndBettag)
}

// 2 April plus 1 Werktag is 7 April.
fn case_c() -> bool
    ensures { IsTrue result ↔ AnswersC }
{
    is_added(on(4, 2), 1, on(4, 7))
}

// 4 April plus 0 is 4 April.
fn case_d() -> bool
    ensures { IsTrue result ↔ AnswersD }
{
    is_added(on(4, 4), 0, on(4, 4))
}

// 10 January against 12 January: TooLate, 0, 12 January, margin -1; span from 13 January.
fn case_e() -> bool
    ensures { IsTrue result ↔ AnswersE }
{
    let shape = LATEST_WERKTAGE_BEFORE;
    let verdict = antwortsatz::judged(1, 0, Some(on(1, 12)), -1);
    let span = antwortsatz::spanned(0, on(1, 13), None);
    is_judged(shape, 1, on(1, 10), on(1, 12), verdict) && is_spanned(shape, 1, 0, on(1, 10), span)
}

// 8 January: 9 January TooLate, 1, 10 January, margin -1; 10 January Ok, margin 0.
fn case_f() -> bool
    ensures { IsTrue result ↔ AnswersF }
{
    let shape = TAG_VOR_DEM_LETZTEN_WERKTAG_VOR;
    let too_late = antwortsatz::judged(1, 1, Some(on(1, 10)), -1);
    let ok = antwortsatz::judged(0, 0, None, 0);
    is_judged(shape, 0, on(1, 8), on(1, 9), too_late)
        && is_judged(shape, 0, on(1, 8), on(1, 10), ok)
}

// 31 January: 28 February TooLate, 2, 28 February, margin -3; span from 1 March.
fn case_g() -> bool
    ensures { IsTrue result ↔ AnswersG }
{
    let shape = LATEST_MONATE_BEFORE;
    let verdict = antwortsatz::judged(1, 2, Some(on(2, 28)), -3);
    let span = antwortsatz::spanned(0, on(3, 1), None);
    is_judged(shape, 1, on(1, 31), on(2, 28), verdict) && is_spanned(shape, 1, 0, on(1, 31), span)
}

// Window 1 and 1 from 10 January: empty.
fn case_h() -> bool
    ensures { IsTrue result ↔ AnswersH }
{
    is_spanned(
        WINDOW_WERKTAGE_BEFORE,
        1,
        1,
        on(1, 10),
        antwortsatz::of_kind(2),
    )
}

// Received 31 March 11:59:59 is due 17:59:59; received 12:00:00, 2 April 00:00.
fn case_i() -> bool
    ensures { IsTrue result ↔ AnswersI }
{
    let evening = antwortsatz::at_instant(0, MARCH_31_17_59_59, 0);
    let midnight = antwortsatz::at_instant(0, APRIL_2, 0);
    is_contrl_due(MARCH_31_11_59_59, evening) && is_contrl_due(MARCH_31_12_00, midnight)
}

// 29 March 02:30 is absent; 25 October 02:30 is 00:30 UTC.
fn case_j() -> bool
    ensures { IsTrue result ↔ AnswersJ }
{
    let earlier = antwortsatz::at_instant(0, OCTOBER_25_02_30, 0);
    is_half_past_two(3, 29, Err(Refusal::LocalTimeAbsent)) && is_half_past_two(10, 25, Ok(earlier))
}

// Gas day 29 March begins 04:00 UTC.
fn case_k() -> bool
    ensures { IsTrue result ↔ AnswersK }
{
    is_gas_beginning(on(3, 29), MARCH_29_06_00)
}

// `SameDayAt` 12:00 received 9 January 12:00: 12 January 12:00.
fn case_l() -> bool
    ensures { IsTrue result ↔ AnswersL }
{
    let monday = antwortsatz::at_instant(0, JANUARY_12_12_00, 0);
    is_same_day_due(12, JANUARY_9_12_00, monday)
}

// Announcement for 12 January: 9 January 13:00 yes, a nanosecond later no, 12 January 00:00 neither.
fn case_m() -> bool
    ensures { IsTrue result ↔ AnswersM }
{
    is_announced(JANUARY_9_13_00, 0, 1)
        && is_announced(JANUARY_9_13_00, 1, 0)
        && is_announced(JANUARY_12, 0, 2)
}

// A case's line: its letter, a space, `ok` or `no`, and the line end.
fn line(letter: u8, ok: bool) -> [u8; 5]
    ensures { result ≡ line_of letter ok }
{
    if ok {
        [letter, b' ', b'o', b'k', b'\n']
    } else {
        [letter, b' ', b'n', b'o', b'\n']
    }
}

// Writes a case's line. After an error nothing is said of what was written.
fn write_line<W: Write>(output: &mut W, letter: u8, ok: bool) -> io::Result<()>
    ensures { OnOk result (Appends (W.contents output.old) (W.contents output.new) (line_of letter ok)) }
{
    output.write_all(&line(letter, ok))
}

fn main(rt: HostRuntime) -> io::Result<()> {
    theorems::call_all();
    let cases = [
        (b'A', case_a()),
        (b'B', case_b()),
        (b'C', case_c()),
        (b'D', case_d()),
        (b'E', case_e()),
        (b'F', case_f()),
        (b'G', case_g()),
        (b'H', case_h()),
        (b'I', case_i()),
        (b'J', case_j()),
        (b'K', case_k()),
        (b'L', case_l()),
        (b'M', case_m()),
    ];
    let mut output = io::writer(&rt);
    for (letter, ok) in cases {
        write_line(&mut output, letter, ok)?;
    }
    Ok(())
}
