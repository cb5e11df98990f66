// A day taken apart, its index beside its date, and a few days later or earlier without taking it apart again.
ghost use Rattle.std.specs.Prelude.{◌≡◌, ◌+◌, ◌-◌, ◌≤◌, ◌<◌};
ghost use Rattle.zaehlung.specs.Walk.{last};
ghost use Rattle.datum.specs.Calendar.{is_leap, year_of, days_in_month, index_of, date_of};

use super::{Date, YearDay};
use std::marker::Model;

/// The days that every month has: so many are counted on into the next month, or back into the one before, and no
/// further. A number of days has its bound in the contract and no type for it: each caller has a bound of its own.
const NEAR: u32 = super::SHORTEST_MONTH as u32;

/// A day of the calendar, taken apart: its index beside its date. A clause sees the index alone, which says which day
/// it is; that the date is that day's is true of every `Tag`. Days are compared by their index alone.
#[derive(Clone, Copy)]
#[derive_where(PartialEq, Eq, PartialOrd, Ord)]
pub struct Tag {
    pub index: u32,
    #[derive_where(skip(EqHashOrd))]
    pub date: Date,
}

impl Model for Tag {
    ghost use Rattle.std.specs.Prelude.{ℕ, ◌≡◌, ◌≤◌};
    ghost use Rattle.std.specs.Coded.{coded_ℕ};
    ghost use Rattle.zaehlung.specs.Walk.{last};
    ghost use Rattle.datum.specs.Calendar.{date_of};
    ghost use Rattle.std.proofs.Common.{ap, sym};

    ghost Value = { ℕ };

    ghost coded = { coded_ℕ };

    ghost view = { λ t. t.index };

    ghost invariant = { λ t. (t.date ≡ date_of t.index) × (t.index ≤ last) };

    ghost inverse = { λ i. record { index = i; date = date_of i } };

    ghost inverse_ok = { λ a h. ap (λ d. record { index = a.index; date = d }) (sym h.0) };
}

/// The day of an index, taken apart.
///
/// Of 59: index 59, 29 February 1996.
pub fn tag_at(index: u32) -> Tag
    requires { index ≤ last }
    ensures { result ≡ index }
{
    Tag {
        index,
        date: super::date_from(super::date_number(index)),
    }
}

/// The day of a date, which stands beside its index: none where there is no such date in the calendar.
///
/// Of 29 February 1996: index 59. Of 30 February: none.
pub fn tag_of(date: Date) -> Option<Tag>
    ensures { result ≡ index_of date }
{
    let index = super::index_of(date)?;
    Some(Tag { index, date })
}

/// The year of a day, counted from 1996, and the day in it, counted from 0.
///
/// Of 1 March 2026: year 30, day 59.
#[tactic(auto, using(crate::proofs::TagRules::year_rules))]
pub fn year_day(tag: Tag) -> YearDay
    ensures { (result.year ≡ (year_of tag).0) × (result.day ≡ (year_of tag).1) × (result.year ≤ 903) × (tag ≤ last) }
{
    let year = (tag.date.year - super::FIRST_YEAR) as u32;
    YearDay {
        year,
        day: tag.index - super::year_start(year),
    }
}

/// The first of January of a day's year.
pub fn new_year(tag: Tag) -> Tag
    ensures { result ≡ tag - (year_of tag).1 }
{
    Tag {
        index: tag.index - year_day(tag).day,
        date: Date {
            year: tag.date.year,
            month: 1,
            day: 1,
        },
    }
}

/// The days of a date's month.
///
/// Of 29 February 1996: 29.
#[tactic(auto, using(crate::proofs::TagRules::length_rule))]
pub fn month_length(date: Date) -> u8
    ensures { (result ≡ days_in_month (is_leap date.year) date.month) × (result ≤ 31) }
{
    super::days_in_month(super::is_leap(date.year), date.month)
}

/// The day `days` days later, in the same month.
///
/// From 28 December 2026 with 3: 31 December.
#[tactic(auto, using(crate::proofs::TagRules::later_rules))]
pub fn later_in_month(tag: Tag, days: u8) -> Tag
    requires near { (days ≤ 28) × (tag + days ≤ last) }
    requires in_month { (date_of tag).day + days ≤ days_in_month (is_leap (date_of tag).year) (date_of tag).month }
    ensures value { result ≡ tag + days }
    ensures same_month { ((date_of result).year ≡ (date_of tag).year) × ((date_of result).month ≡ (date_of tag).month) }
{
    Tag {
        index: tag.index + (days as u32),
        date: Date {
            year: tag.date.year,
            month: tag.date.month,
            day: tag.date.day + days,
        },
    }
}

/// The day `days` days later, up to four weeks, past the end of a month of `length` days: what the month lacks is
/// carried over into the next, and from December into the next year.
///
/// From 30 December 2026 with 3: 2 January 2027.
#[tactic(auto, using(crate::proofs::TagRules::later_rules))]
pub fn into_next_month(tag: Tag, length: u8, days: u8) -> Tag
    requires near { (days ≤ 28) × (tag + days ≤ last) }
    requires length_value { length ≡ days_in_month (is_leap (date_of tag).year) (date_of tag).month }
    requires past_month { length < (date_of tag).day + days }
    ensures { result ≡ tag + days }
{
    let index = tag.index + (days as u32);
    let day = tag.date.day + days - length;
    if tag.date.month < super::MONTHS {
        return Tag {
            index,
            date: Date {
                year: tag.date.year,
                month: tag.date.month + 1,
                day,
            },
        };
    }
    Tag {
        index,
        date: Date {
            year: tag.date.year + 1,
            month: 1,
            day,
        },
    }
}

/// The day `days` days earlier, in the same month.
///
/// From 4 January 2027 with 3: 1 January.
pub fn earlier_in_month(tag: Tag, days: u8) -> Tag
    requires near { (days ≤ 28) × (days ≤ tag) }
    requires in_month { days < (date_of tag).day }
    ensures value { result ≡ tag - days }
    ensures same_month { ((date_of result).year ≡ (date_of tag).year) × ((date_of result).month ≡ (date_of tag).month) }
{
    Tag {
        index: tag.index - (days as u32),
        date: Date {
            year: tag.date.year,
            month: tag.date.month,
            day: tag.date.day - days,
        },
    }
}

/// The day `days` days earlier, up to four weeks, before the month's first: counted back from the last day of the month
/// before, before January from December's.
///
/// From 2 January 2027 with 3: 30 December 2026.
pub fn into_month_before(tag: Tag, days: u8) -> Tag
    requires near { (days ≤ 28) × (days ≤ tag) }
    requires before_month { (date_of tag).day ≤ days }
    ensures { result ≡ tag - days }
{
    let index = tag.index - (days as u32);
    let year = tag.date.year;
    let month = tag.date.month;
    let day = tag.date.day;
    if 1 < month {
        let length = super::days_in_month(super::is_leap(year), month - 1);
        return Tag {
            index,
            date: Date {
                year,
                month: month - 1,
                day: length + day - days,
            },
        };
    }
    Tag {
        index,
        date: Date {
            year: year - 1,
            month: super::MONTHS,
            day: super::DECEMBER_DAYS + day - days,
        },
    }
}

/// The day `days` days later, up to four weeks.
fn later(tag: Tag, days: u8) -> Tag
    requires { (days ≤ 28) × (tag + days ≤ last) }
    ensures { result ≡ tag + days }
{
    let length = month_length(tag.date);
    if tag.date.day + days <= length {
        return later_in_month(tag, days);
    }
    into_next_month(tag, length, days)
}

/// The day `days` days earlier, up to four weeks.
fn earlier(tag: Tag, days: u8) -> Tag
    requires { (days ≤ 28) × (days ≤ tag) }
    ensures { result ≡ tag - days }
{
    if days < tag.date.day {
        return earlier_in_month(tag, days);
    }
    into_month_before(tag, days)
}

/// The day after, which the calendar must have.
///
/// After 31 December 2026: 1 January 2027.
pub fn day_after(tag: Tag) -> Tag
    requires { tag < last }
    ensures { result ≡ tag + 1 }
{
    later(tag, 1)
}

/// The day before, which the calendar must have.
///
/// Before 1 January 2027: 31 December 2026.
pub fn day_before(tag: Tag) -> Tag
    requires { 0 < tag }
    ensures { result ≡ tag - 1 }
{
    earlier(tag, 1)
}

/// The date of an index, from a day that may be near: up to four weeks from it nothing is taken apart anew. Public, and
/// asked by no step here: a step gives its day with the date beside it (docs/DECISIONS.md 96).
///
/// Of 10,961 from 30 December 2025: 4 January 2026.
#[tactic(auto, using(crate::proofs::TagRules::near_rules))]
pub fn date_near(tag: Tag, index: u32) -> Date
    requires { index ≤ last }
    ensures { result ≡ date_of index }
{
    if index < tag.index {
        let days = tag.index - index;
        if NEAR < days {
            return super::date_of(index);
        }
        return earlier(tag, days as u8).date;
    }
    let days = index - tag.index;
    if NEAR < days {
        return super::date_of(index);
    }
    later(tag, days as u8).date
}
