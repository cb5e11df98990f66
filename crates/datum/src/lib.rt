// Dates from 1 January 1996 to 31 December 2899, their indexes 0 to 330,179, and shifts by months.
//
// Document 01, lib.rs (calendar). Inside, a day is its index; a date stands at the edge.
#![tactic(auto)]

ghost use Rattle.std.specs.Prelude.{true, Some, ◌≡◌, ◌+◌, ◌-◌, ◌*◌, ◌/◌, ◌≤◌, ◌<◌, pos};
ghost use Rattle.zaehlung.specs.Walk.{last, bit};
ghost use Rattle.datum.specs.Calendar.{is_leap, year_start, year_of, days_in_month, month_start, month_of};
ghost use Rattle.datum.specs.Calendar.{first_year, last_year, is_date, days_before, index_of, date_of, weekday};
ghost use Rattle.datum.specs.Number.{number_of, parts_of};
ghost use Rattle.datum.specs.Floor.{floor_div, floor_mod};
ghost use Rattle.datum.specs.MonthShift.{ordinal_of, in_month, on_month, add_months, subtract_months};

pub mod monate;
pub mod tage;
pub mod theorems;

/// The calendar's first year and its last.
pub const FIRST_YEAR: u16 = 1996;

pub const LAST_YEAR: u16 = 2899;

/// The months of a year; and the widths in which months and years are counted.
const MONTHS: u8 = 12;

const MONTHS_32: u32 = MONTHS as u32;

const MONTHS_64: i64 = MONTHS as i64;

const FIRST_YEAR_32: u32 = FIRST_YEAR as u32;

const FIRST_YEAR_64: i64 = FIRST_YEAR as i64;

const LAST_YEAR_64: i64 = LAST_YEAR as i64;

/// Every month has these days: a date with no later day needs no look at its month's length.
const SHORTEST_MONTH: u8 = 28;

/// The days of December.
const DECEMBER_DAYS: u8 = 31;

/// The days of February in a leap year.
const LEAP_FEBRUARY: u8 = SHORTEST_MONTH + 1;

/// The days of a week; Monday is 0.
pub const WEEK: u32 = 7;

/// A date by value. Any three numbers may stand in it; `index_of` says which are a date of the range.
#[derive(Clone, Copy, PartialEq, Eq)]
pub struct Date {
    pub year: u16,
    pub month: u8,
    pub day: u8,
}

/// Whether a year has a 29 February: every fourth year, of the full hundreds every fourth. Of the years that 25 divides
/// only those are multiples of 4 that are full hundreds, and of these every fourth is one that 16 divides.
///
/// 2024 and 2000 are leap years, 2023 and 2100 are none.
pub fn is_leap(year: u16) -> bool
    ensures { result ≡ is_leap year }
{
    if year % 25 == 0 {
        return year % 16 == 0;
    }
    year % 4 == 0
}

/// The days of a month, January being 1, in a leap or a common year.
///
/// Months 0 and above 12 have no days. The odd months up to July have 31, and from August on the even ones.
///
/// February of 2024 has 29 days, of 2026 it has 28, and April always 30.
pub fn days_in_month(leap: bool, month: u8) -> u8
    ensures { (result ≡ days_in_month leap month) × (result ≤ 31) }
{
    if month < 1 {
        return 0;
    }
    if MONTHS < month {
        return 0;
    }
    if month == 2 {
        if leap {
            return LEAP_FEBRUARY;
        }
        return SHORTEST_MONTH;
    }
    30 + (month + month / 8) % 2
}

/// Days of the year before a month; month 13 stands for the year's end. If February had 30 days, a year of 367 days
/// would spread over its months evenly but for rounding.
#[tactic(auto, using(crate::proofs::Rules::start_rules))]
fn month_start(leap: bool, month: u32) -> u32
    requires { (1 ≤ month) × (month ≤ 13) }
    ensures { (result ≡ month_start leap month) × (result ≤ 366) }
{
    let days = (367 * month - 362) / 12;
    if month < 3 {
        return days;
    }
    if leap {
        return days - 1;
    }
    days - 2
}

/// The year before the calendar's first, and the leap days of the years up to it.
const YEAR_BEFORE: u32 = FIRST_YEAR_32 - 1;

const LEAP_DAYS_BEFORE: u32 = YEAR_BEFORE / 4 + YEAR_BEFORE / 400 - YEAR_BEFORE / 100;

/// The index of 1 January of the year 1996 + k, without a loop.
///
/// 0 for 1996, 10,958 for 2026; 2900, past the calendar, has 330,180.
pub fn year_start(k: u32) -> u32
    requires { k ≤ 904 }
    ensures { (result ≡ year_start k) × (result ≤ 331000) }
{
    let y = k + YEAR_BEFORE;
    365 * k + (y / 4 + y / 400 - y / 100) - LEAP_DAYS_BEFORE
}

/// A year, counted from 1996, and a day of it, counted from 0. Both are numbers, as is a year by its own number: they
/// are added and compared, and types of them would be taken apart at each use.
#[derive(Clone, Copy)]
pub struct YearDay {
    pub year: u32,
    pub day: u32,
}

/// The year of a day. The guess, 146,097 days in 400 years, is never proved to be good: the two loops set it right.
///
/// Day 59, 29 February 1996, is day 59 of year 0; day 366, 1 January 1997, is day 0 of year 1.
#[tactic(auto, using(crate::proofs::Rules::year_rules))]
pub fn year_of(index: u32) -> YearDay
    requires { index ≤ last }
    ensures { (result.year ≡ (year_of index).0) × (result.day ≡ (year_of index).1) × (result.year ≤ 903) }
{
    let mut k = index * 400 / 146097;
    // No iterator: each loop takes a step where the guess is wrong, and mostly none.
    while index < year_start(k) {
        k -= 1;
    }
    while year_start(k + 1) <= index {
        k += 1;
    }
    YearDay {
        year: k,
        day: index - year_start(k),
    }
}

/// The month of a day in the year of 367 days in which February has 30.
fn month_in_367(day: u32) -> u32
    requires { day ≤ 366 }
    ensures { result ≡ (12 * day + 373) / 367 }
{
    (12 * day + 373) / 367
}

/// The month of a day of the year. After February the day of the year of 367 days is one or two later.
fn month_of(leap: bool, day: u32) -> u32
    requires { day < 365 + bit leap }
    ensures { (result ≡ (month_of leap day).0) × (1 ≤ result) × (result ≤ 12) }
{
    if leap {
        if day < 60 {
            return month_in_367(day);
        }
        return month_in_367(day + 1);
    }
    if day < 59 {
        return month_in_367(day);
    }
    month_in_367(day + 2)
}

/// The index of a date of the range: the days of the years, of the months and of the month before it.
///
/// Only a date of the range may be given; `index_of` takes any three numbers.
///
/// 1 January 1996 is 0, 1 March 2026 is 11,017, 31 December 2899 is 330,179.
#[tactic(auto, using(crate::proofs::Rules::days_rules))]
pub fn days_before(date: Date) -> u32
    requires { is_date date ≡ true }
    ensures { (result ≡ days_before date) × (result ≤ last) }
{
    // Asked, and no type made of it: most callers write the date down, and would prove the same there.
    let k = (date.year - FIRST_YEAR) as u32;
    let leap = is_leap(date.year);
    let month = date.month as u32;
    let day = date.day as u32;
    year_start(k) + month_start(leap, month) + (day - 1)
}

/// Whether three numbers are a date from 1 January 1996 to 31 December 2899.
///
/// Any numbers may be asked, 0 and 255 too.
///
/// 29 February 2024 is one, 29 February 2026 and 1 January 2900 are none.
#[tactic(auto, using(crate::proofs::Rules::in_every_month), unfolding(crate::specs::Calendar::is_date))]
pub fn is_date(date: Date) -> bool
    ensures { result ≡ is_date date }
{
    let Date { year, month, day } = date;
    (FIRST_YEAR..=LAST_YEAR).contains(&year)
        && (1..=MONTHS).contains(&month)
        && 1 <= day
        && (day <= SHORTEST_MONTH || day <= days_in_month(is_leap(year), month))
}

/// The index of a date, counted from 1 January 1996.
///
/// `None` for three numbers that are no date of the range, as 29 February 2026.
///
/// 1 January 1996 is 0, 31 December 2899 is 330,179.
#[tactic(auto, using(crate::proofs::Rules::index_rules))]
pub fn index_of(date: Date) -> Option<u32>
    ensures { result ≡ index_of date }
{
    if is_date(date) {
        return Some(days_before(date));
    }
    None
}

/// The parts of an index's date: its year, the month in it and the day in that.
#[tactic(auto, using(crate::proofs::Rules::date_rules))]
fn date_parts(index: u32) -> Date
    requires { index ≤ last }
    ensures { result ≡ date_of index }
{
    let at = year_of(index);
    let year = at.year;
    let day = at.day;
    let leap = is_leap((FIRST_YEAR_32 + year) as u16);
    let month = month_of(leap, day);
    Date {
        year: (FIRST_YEAR_32 + year) as u16,
        month: month as u8,
        day: (day - month_start(leap, month) + 1) as u8,
    }
}

/// A date as one number, which a call returns in a register; three parts would go through memory. By arithmetic, as its
/// definition is: through bytes it would be as long. The word of a date in an answer is alike by chance.
#[tactic(auto, using(crate::proofs::Rules::number_rules))]
fn date_number(index: u32) -> u32
    requires { index ≤ last }
    ensures { result ≡ number_of (date_of index) }
{
    let date = date_parts(index);
    (date.year as u32) + 65536 * (date.month as u32) + 16777216 * (date.day as u32)
}

/// The date in its number.
fn date_from(number: u32) -> Date
    ensures { result ≡ parts_of number }
{
    Date {
        year: (number % 65536) as u16,
        month: (number / 65536 % 256) as u8,
        day: (number / 16777216) as u8,
    }
}

/// The date of an index of the calendar: `index_of` undoes it.
///
/// 0 is 1 January 1996, 59 is 29 February 1996, 330,179 is 31 December 2899.
#[tactic(auto, using(crate::proofs::Rules::number_rules))]
pub fn date_of(index: u32) -> Date
    requires { index ≤ last }
    ensures { result ≡ date_of index }
{
    date_from(date_number(index))
}

/// The weekday of a day given by its index, Monday 0 to Sunday 6.
///
/// Day 0, 1 January 1996, was a Monday; day 5, the Saturday after it, is 5.
pub fn weekday(index: u32) -> u32
    ensures { result ≡ weekday index }
{
    // A number and no enum: days are added to it.
    index % WEEK
}

/// A month of a year: the month is counted from 0, and either may lie before year 0.
#[derive(Clone, Copy)]
struct YearMonth {
    year: i64,
    month: i64,
}

/// The month numbered t from January of year 0: division that rounds down, below zero too.
#[tactic(auto, using(crate::proofs::FloorLaws::div_floor, crate::proofs::FloorLaws::rem_floor))]
fn split_months(t: i64) -> YearMonth
    ensures { (result.year ≡ floor_div t 12) × (result.month ≡ floor_mod t 12) }
{
    YearMonth {
        year: t.div_euclid(MONTHS_64),
        month: t.rem_euclid(MONTHS_64),
    }
}

/// The day in a month of the calendar; one that the month lacks becomes its last.
#[tactic(auto, using(crate::proofs::MonthRules::in_month_rules))]
fn in_month(year: u16, month: u8, day: u8) -> Date
    requires { (first_year ≤ year) × (year ≤ last_year) × (1 ≤ month) × (month ≤ 12) }
    ensures { Some result ≡ in_month year month day }
{
    if day <= SHORTEST_MONTH {
        return Date { year, month, day };
    }
    let longest = days_in_month(is_leap(year), month);
    Date {
        year,
        month,
        day: day.min(longest),
    }
}

/// The day in the month numbered t from January of year 0.
fn on_month(t: i64, day: u8) -> Option<Date>
    ensures { result ≡ on_month t day }
{
    let at = split_months(t);
    let year = at.year;
    let month = at.month;
    if year < FIRST_YEAR_64 {
        return None;
    }
    if LAST_YEAR_64 < year {
        return None;
    }
    Some(in_month(year as u16, (month + 1) as u8, day))
}

/// The number of a date's month, counted from January of year 0.
fn ordinal_of(date: Date) -> i64
    requires { 1 ≤ date.month }
    ensures { result ≡ pos (ordinal_of date) }
{
    let months = (date.year as u32) * MONTHS_32 + ((date.month as u32) - 1);
    months as i64
}

/// The date n months later, BGB §188: 'a day the target month lacks becomes its last'. Later and earlier are a line
/// each under the original's names; both ask for a month from 1 on and no more, so no type of a date says it.
///
/// `None` where the year passes 2899. With n = 0 the date itself.
///
/// 31 January 2026 and 1 month is 28 February 2026; 15 November 2026 and 3 months is 15 February 2027.
#[tactic(auto, using(crate::proofs::MonthRules::shift_rules))]
pub fn add_months(date: Date, n: u32) -> Option<Date>
    requires { 1 ≤ date.month }
    ensures { result ≡ add_months date n }
{
    on_month(ordinal_of(date) + (n as i64), date.day)
}

/// The date n months earlier, BGB §188: 'a day the target month lacks becomes its last'.
///
/// `None` where the year lies before 1996, or before year 0. With n = 0 the date itself.
///
/// 31 March 2024 less 1 month is 29 February 2024; 15 February 2027 less 3 months is 15 November 2026.
#[tactic(auto, using(crate::proofs::MonthRules::shift_rules))]
pub fn subtract_months(date: Date, n: u32) -> Option<Date>
    requires { 1 ≤ date.month }
    ensures { result ≡ subtract_months date n }
{
    on_month(ordinal_of(date) - (n as i64), date.day)
}
