// Instants, the Berlin clock by the rule of Directive 2000/84/EC, and the instants at which days begin.
//
// Document 01, lib.rs (Berlin) and tagesbeginn.rs. A host's signed seconds are taken apart once, at the edge; behind it
// an instant is its UTC day, counted from 1 January 1970 as its seconds are, and the second of that day. A day of the
// calendar is its index from 1 January 1996: the two differ by `CALENDAR_START`, which stands where the clock meets the
// calendar.
#![tactic(auto)]

ghost use Rattle.std.specs.Prelude.{◌≡◌, ◌+◌, ◌-◌, ◌*◌, ◌%◌, ◌≤◌, ◌<◌, pos, IfSome};
ghost use Rattle.zaehlung.specs.Walk.{last};
ghost use Rattle.datum.specs.Calendar.{weekday};
ghost use Rattle.datum.specs.Floor.{floor_div, floor_mod};
ghost use Rattle.berlin.specs.Berlin.{day_seconds, first_second, hours, o_clock, day_start, moment_of, seconds_of};
ghost use Rattle.berlin.specs.Berlin.{is_before, is_by_last, in_limits, read_instant, read_clock, last_sunday};
ghost use Rattle.berlin.specs.Berlin.{offset_at, berlin_date, berlin_at, berlin_midnight, end_of_day_berlin};
ghost use Rattle.berlin.specs.Berlin.{tagesbeginn_utc, tag_des_beginns};
ghost use Rattle.berlin.specs.Inside.{Proper, guessed_year};

use datum::{Date, FIRST_YEAR};
use std::marker::Model;
use zaehlung::LAST;

pub mod theorems;

/// An instant: its UTC day, counted from 1 January 1970, the second of that day and the nanoseconds.
///
/// 1 January 2026 00:00 in Berlin, 31 December 23:00 UTC, is day 20,453 and second 82,800.
#[derive(Clone, Copy, PartialEq, Eq, PartialOrd, Ord)]
pub struct Moment {
    pub utcday: u32,
    pub second: u32,
    pub nanos: u32,
}

impl Model for Moment {
    ghost use Rattle.berlin.specs.Instant.{Instant};

    ghost Value = { Instant };

    ghost use Rattle.berlin.specs.Inside.{Proper};

    ghost view = { λ m. record { utcday = m.utcday; second = m.second; nanos = m.nanos } };

    ghost invariant = { λ m. Proper (record { utcday = m.utcday; second = m.second; nanos = m.nanos }) };

    ghost inverse = { λ m. record { utcday = m.utcday; second = m.second; nanos = m.nanos } };
}

/// A local time: the second of the day and the nanoseconds. 13:00 is second 46,800.
#[derive(Clone, Copy, PartialEq, Eq)]
pub struct Clock {
    pub second: u32,
    pub nanos: u32,
}

impl Model for Clock {
    ghost use Rattle.berlin.specs.Instant.{TimeOfDay};

    ghost Value = { TimeOfDay };

    ghost use Rattle.berlin.specs.Inside.{ProperClock};

    ghost view = { λ c. record { second = c.second; nanos = c.nanos } };

    ghost invariant = { λ c. ProperClock (record { second = c.second; nanos = c.nanos }) };

    ghost inverse = { λ c. record { second = c.second; nanos = c.nanos } };
}

/// What the Berlin clock shows: the day, counted from 1 January 1970 too, and the second of that day.
#[derive(Clone, Copy)]
pub struct Local {
    pub berlinday: u32,
    pub second: u32,
}

/// It decides where the day begins: 'Strom begins at 00:00, Gas at 06:00 Berlin'.
#[derive(Clone, Copy, PartialEq, Eq)]
pub enum Sparte {
    Strom,
    Gas,
}

/// The seconds of a minute.
pub const MINUTE: u32 = 60;

/// The seconds of an hour.
pub const HOUR: u32 = 60 * MINUTE;

/// The seconds of a day.
pub const DAY: u32 = 24 * HOUR;

/// The same, for sums that don't fit 32 bits, and for seconds before 1970.
const DAY_64: u64 = DAY as u64;

const DAY_SIGNED: i64 = DAY as i64;

/// 'nanoseconds 0 to 999,999,999'.
const MOST_NANOS: u32 = 999999999;

/// Days from 1 January 1970 to 1 January 1996, the day with index 0.
const CALENDAR_START: u32 = 9496;

/// The calendar's first day begins in Berlin at 23:00 UTC of the day before, and its last ends at 23:00 UTC.
const FIRST_UTC_DAY: u64 = (CALENDAR_START - 1) as u64;

const LAST_UTC_DAY: u64 = (CALENDAR_START + LAST) as u64;

const EDGE: u64 = (23 * HOUR) as u64;

/// How far Berlin is ahead of UTC. Numbers and no enum: they are added to the seconds of a day and taken off them.
const WINTER: u32 = HOUR;

const SUMMER: u32 = 2 * HOUR;

/// In March the clock jumps from 02:00 to 03:00, in October from 03:00 to 02:00.
const TWO: u32 = 2 * HOUR;

const THREE: u32 = 3 * HOUR;

/// 06:00: 'the beginning of the Gastag in gesetzlicher deutscher Zeit'.
const GASTAG_BEGINN: u32 = 6;

/// The full hour of the clock: 13 is 13:00:00. From 0, midnight, to 23; 13 is second 46,800.
pub fn o_clock(hour: u32) -> Clock
    requires { hour ≤ 23 }
    ensures { result ≡ o_clock hour }
{
    Clock {
        second: hour * HOUR,
        nanos: 0,
    }
}

/// Whether an instant is earlier than another: 'instants are compared', to the nanosecond. It is the derived order,
/// under the definition's name.
///
/// Two equal instants: no, either way. 9 January 2026 13:00 is before a nanosecond later.
#[tactic(auto, unfolding(crate::specs::Berlin::is_before))]
pub fn is_before(a: Moment, b: Moment) -> bool
    ensures { result ≡ is_before a b }
{
    // Reading a field says that the instant is inside its limits, so that a day more is more than any second.
    let _ = &a.second;
    let _ = &b.second;
    a < b
}

/// Whether an instant is earlier than another, of any two, inside the calendar or not: each by its UTC day, the second
/// of that day and the nanoseconds. Numbers and no struct: nothing else is asked of such an instant.
///
/// Day 9,495 is before the calendar until second 82,800: (9,495, 0, 7) is before (9,495, 1, 0).
#[tactic(auto, unfolding(crate::specs::Berlin::is_before))]
pub fn is_before_by_parts(one: (u32, u32, u32), other: (u32, u32, u32)) -> bool
    requires { (one.1 < day_seconds) × (other.1 < day_seconds) }
    ensures { result ≡ is_before (record { utcday = one.0; second = one.1; nanos = one.2 })
        (record { utcday = other.0; second = other.1; nanos = other.2 }) }
{
    one < other
}

/// Days since 1970, below zero too, and the second of the day.
#[derive(Clone, Copy)]
pub struct Split {
    pub utcday: i64,
    pub second: i64,
}

/// Division that rounds down, of any seconds: one second before 1970 is the last second of day -1.
///
/// 820,450,800, the first instant of the calendar, is second 82,800 of day 9,495.
#[tactic(auto, unfolding(datum::specs::Floor::floor_div, datum::specs::Floor::floor_mod))]
pub fn split_instant(s: i64) -> Split
    ensures { (result.utcday ≡ floor_div s day_seconds) × (result.second ≡ floor_mod s day_seconds) }
{
    Split {
        utcday: s.div_euclid(DAY_SIGNED),
        second: s.rem_euclid(DAY_SIGNED),
    }
}

/// Whether an instant, by its UTC day and second, is not after the calendar's last, 31 December 2899 23:00 UTC less a
/// nanosecond. Two numbers and no struct: a sum may lie behind the last, and only the test says whether it is an
/// instant.
///
/// Day 339,675 counts up to second 82,799.
pub fn is_by_last(utcday: u64, second: u64) -> bool
    requires { second < day_seconds }
    ensures { result ≡ is_by_last (utcday * day_seconds + second) }
{
    (utcday, second) < (LAST_UTC_DAY, EDGE)
}

/// Whether an instant, by its UTC day and second, has a Berlin day of the calendar: day 9,495 counts from second 82,800
/// on, 31 December 1995 23:00 UTC. Two numbers here too: of a host's seconds only this test says whether they are an
/// instant.
#[tactic(auto, unfolding(crate::specs::Berlin::in_limits))]
fn in_limits(utcday: u64, second: u64) -> bool
    requires { second < day_seconds }
    ensures { result ≡ in_limits (utcday * day_seconds + second) }
{
    // Every instant of a UTC day between the first and the last is inside: one comparison for nearly all calls.
    FIRST_UTC_DAY < utcday && utcday < LAST_UTC_DAY
        || (FIRST_UTC_DAY, EDGE) <= (utcday, second) && is_by_last(utcday, second)
}

/// The instant of a host's numbers: 'signed whole seconds since 1970-01-01T00:00Z and nanoseconds 0 to 999,999,999;
/// seconds from 820,450,800 to 29,348,002,799'.
///
/// Seconds of any sign are split first, and the limits are tested on day and second: -1 is second 86,399 of day -1, so
/// none, which is refusal 4. 1,767,956,400 is 9 January 2026 11:00 UTC.
#[tactic(auto, using(crate::proofs::Rules::read_rules))]
pub fn read_instant(seconds: i64, nanos: u32) -> Option<Moment>
    ensures { result ≡ read_instant seconds nanos }
{
    let at = split_instant(seconds);
    if at.utcday < 0 {
        return None;
    }
    let utcday = at.utcday as u64;
    let second = at.second as u64;
    if !in_limits(utcday, second) || nanos > MOST_NANOS {
        return None;
    }
    Some(Moment {
        utcday: utcday as u32,
        second: second as u32,
        nanos,
    })
}

/// The time of day of a host's numbers: '5, hour over 23, minute or second over 59, nanoseconds over 999,999,999'.
///
/// 23:59:59 is second 86,399; 24:00 is no time of day, which is refusal 5.
#[tactic(auto, unfolding(crate::specs::Berlin::read_clock))]
pub fn read_clock(hour: u8, minute: u8, second: u8, nanos: u32) -> Option<Clock>
    ensures { result ≡ read_clock hour minute second nanos }
{
    if hour > 23 || minute > 59 || second > 59 || nanos > MOST_NANOS {
        return None;
    }
    Some(Clock {
        second: (hour as u32) * HOUR + (minute as u32) * MINUTE + (second as u32),
        nanos,
    })
}

/// The seconds of an instant since 1970-01-01T00:00Z, as a host's numbers have them: the inverse of `read_instant`.
///
/// Day 20,462 and second 39,600, 9 January 2026 11:00 UTC: 1,767,956,400.
pub fn seconds_of(at: Moment) -> i64
    ensures { result ≡ pos (seconds_of at) }
{
    (at.utcday as i64) * DAY_SIGNED + (at.second as i64)
}

/// The Sunday on or before a day.
fn sunday_by(day: u32) -> u32
    requires { 6 ≤ day }
    ensures { (result ≡ day - (weekday day + 1) % 7) × (result ≤ day) }
{
    day - (datum::weekday(day) + 1) % 7
}

/// The days on which the clock changes.
#[derive(Clone, Copy)]
struct Switches {
    march: u32,
    october: u32,
}

const CALENDAR_YEAR: u32 = FIRST_YEAR as u32;

/// 400 years of the Gregorian calendar, and their days.
const CYCLE_YEARS: u32 = 400;

const CYCLE_DAYS: u32 = 146097;

/// From the last day of March to the last of October.
const MARCH_TO_OCTOBER: u32 = 214;

/// The last Sundays of March and October. The year is guessed by the average length of a year. Near the turn of a year
/// the guess can be the year beside: there it is winter by either.
#[tactic(auto, using(crate::proofs::Rules::switch_rules))]
fn switches_by(day: u32) -> Switches
    requires { day ≤ last }
    ensures { (result.march ≡ last_sunday (guessed_year day) 3) × (result.october ≡ last_sunday (guessed_year day) 10) }
{
    let year = CALENDAR_YEAR + day * CYCLE_YEARS / CYCLE_DAYS;
    let end = datum::days_before(Date {
        year: year as u16,
        month: 3,
        day: 31,
    });
    Switches {
        march: sunday_by(end),
        october: sunday_by(end + MARCH_TO_OCTOBER),
    }
}

/// What a clock shows, in seconds since it showed the calendar's first midnight.
fn since_start(day: u32, second: u32) -> u64
    ensures { result ≡ day * day_seconds + second }
{
    (day as u64) * DAY_64 + (second as u64)
}

/// What a clock shows that is so many seconds ahead of UTC.
fn on_clock(at: Moment, ahead: u32) -> Local
    requires { (hours 1 ≤ ahead) × (ahead ≤ hours 2) }
    ensures shown { (result.berlinday * day_seconds + result.second ≡ seconds_of at + ahead)
        × (result.second < day_seconds) }
    ensures limits { Proper at }
{
    let second = at.second + ahead;
    if second < DAY {
        return Local {
            berlinday: at.utcday,
            second,
        };
    }
    Local {
        berlinday: at.utcday + 1,
        second: second - DAY,
    }
}

/// How far Berlin is ahead of UTC when a clock that never goes over to summer time shows a second of a day.
#[tactic(auto, using(crate::proofs::Rules::offset_rules))]
fn offset_at(day: u32, second: u32) -> u32
    requires { (day ≤ last) × (second < day_seconds) }
    ensures { (result ≡ offset_at (day_start day + second - hours 1)) × (hours 1 ≤ result) × (result ≤ hours 2) }
{
    let shown = since_start(day, second);
    let sundays = switches_by(day);
    if shown < since_start(sundays.march, TWO) {
        return WINTER;
    }
    if shown < since_start(sundays.october, TWO) {
        return SUMMER;
    }
    WINTER
}

/// The Berlin day of an instant, by its index: never its UTC day, which is the day before for one or two hours a night.
///
/// 31 January 2026 23:30 UTC: 1 February. By the clock that never goes over to summer time it is the same day, or in
/// the hour before its midnight the day before.
#[tactic(auto, using(crate::proofs::Rules::date_rules))]
pub fn berlin_date(at: Moment) -> u32
    ensures { (result ≡ berlin_date at) × (result ≤ last) }
{
    let winter = on_clock(at, WINTER);
    let day = winter.berlinday - CALENDAR_START;
    let ahead = offset_at(day, winter.second) - WINTER;
    if winter.second + ahead < DAY {
        return day;
    }
    day + 1
}

/// The instant at which a clock that is so many seconds ahead of UTC shows a time. By summer time it is no earlier than
/// the calendar's first.
fn behind(day: u32, at: Clock, ahead: u32) -> Moment
    requires { (day ≤ last) × (hours 1 ≤ ahead) × (ahead ≤ hours 2)
        × (first_second ≤ day_start day + at.second - ahead) }
    ensures { result ≡ moment_of (day_start day + at.second - ahead) at.nanos }
{
    let since_1970 = day + CALENDAR_START;
    if at.second < ahead {
        return Moment {
            utcday: since_1970 - 1,
            second: at.second + DAY - ahead,
            nanos: at.nanos,
        };
    }
    Moment {
        utcday: since_1970,
        second: at.second - ahead,
        nanos: at.nanos,
    }
}

/// The instant at which the Berlin clock shows a time of a day, or none.
///
/// 'A repeated local time means its earlier instant': 25 October 2026 02:30 is 00:30 UTC. 'An absent one, where the
/// Rust panics, is refusal 6': 29 March 2026 02:30.
#[tactic(auto, using(crate::proofs::Rules::at_rules))]
pub fn berlin_at(day: u32, at: Clock) -> Option<Moment>
    requires { day ≤ last }
    ensures { result ≡ berlin_at day at }
{
    let shown = since_start(day, at.second);
    let sundays = switches_by(day);
    if shown < since_start(sundays.march, TWO) {
        return Some(behind(day, at, WINTER));
    }
    if shown < since_start(sundays.march, THREE) {
        return None;
    }
    if shown < since_start(sundays.october, THREE) {
        return Some(behind(day, at, SUMMER));
    }
    Some(behind(day, at, WINTER))
}

/// The instant at which a day begins in Berlin. The clock changes at 02:00 or 03:00, so midnight is never absent.
///
/// 1 July 2027: 30 June 22:00 UTC.
#[tactic(auto, using(crate::proofs::Proper::begin_rules))]
pub fn berlin_midnight(day: u32) -> Moment
    requires { day ≤ last }
    ensures { result ≡ berlin_midnight day }
{
    berlin_at(day, o_clock(0)).unwrap()
}

/// The last instant of a day in Berlin: 'An end of day is 23:59:59.999999999.'
///
/// 31 December 2026: 22:59:59.999999999 UTC.
#[tactic(auto, using(crate::proofs::Proper::begin_rules))]
pub fn end_of_day_berlin(day: u32) -> Moment
    requires { day ≤ last }
    ensures { result ≡ end_of_day_berlin day }
{
    let end = Clock {
        second: DAY - 1,
        nanos: MOST_NANOS,
    };
    berlin_at(day, end).unwrap()
}

/// The instant at which a day begins in a Sparte: 'Strom begins at 00:00, Gas at 06:00 Berlin.'
///
/// The Gas day 29 March 2026, on which the clock is put forward, begins at 04:00 UTC.
#[tactic(auto, using(crate::proofs::Proper::begin_rules), unfolding(crate::specs::Berlin::tagesbeginn_utc))]
pub fn tagesbeginn_utc(day: u32, sparte: Sparte) -> Moment
    requires { day ≤ last }
    ensures { result ≡ tagesbeginn_utc day sparte }
{
    match sparte {
        Sparte::Strom => berlin_midnight(day),
        Sparte::Gas => berlin_at(day, o_clock(GASTAG_BEGINN)).unwrap(),
    }
}

/// The day that an instant begins in a Sparte: the inverse of `tagesbeginn_utc`. An instant that begins none is
/// refused with 7, never rounded.
///
/// 31 December 2026 23:00 UTC begins 1 January 2027 in Strom; a nanosecond later begins no day.
#[tactic(auto, unfolding(crate::specs::Berlin::tag_des_beginns))]
pub fn tag_des_beginns(at: Moment, sparte: Sparte) -> Option<u32>
    ensures { (result ≡ tag_des_beginns at sparte) × IfSome result (λ i. i ≤ last) }
{
    let day = berlin_date(at);
    let begin = tagesbeginn_utc(day, sparte);
    if begin != at {
        return None;
    }
    Some(day)
}
