// Steps over Werktage and counts of Werktage from day to day. A walk takes its first day apart and from then on knows
// the next by the last: the date's parts, the weekday, the days of the month, the year's Easter. A weekend is passed
// over; the list is asked from Monday to Friday alone.
#![tactic(auto)]

ghost use Rattle.std.specs.Prelude.{ℕ, Bool, Option, MatchOption, Some, None, IfSome, ◌≡◌, ◌+◌, ◌-◌, ◌%◌, ◌≤◌, ◌<◌};
ghost use Rattle.zaehlung.specs.Walk.{last, bit, add, sub, between};
ghost use Rattle.zaehlung.proofs.Laws.{add_none, add_inside, sub_none, sub_inside};
ghost use Rattle.datum.specs.Calendar.{weekday};
ghost use Rattle.werktag.specs.declared.HolidayCalendar.{HolidayCalendar};
ghost use Rattle.werktag.specs.Werktag.{is_werktag};
ghost use Rattle.gang.specs.Stand.{to_weekday, from_weekday};

use datum::WEEK;
use datum::tage::Tag;
use std::marker::Model;
use werktag::{HolidayCalendar, Kalendertag};
use zaehlung::LAST;

/// Weekdays, Monday being 0.
const MONDAY: u32 = 0;

const FRIDAY: u32 = 4;

const SUNDAY: u32 = 6;

/// What a walk knows of the day at which it stands: the day as the list's tests need it, and the days of its month. A
/// clause sees the day's index.
#[derive(Clone, Copy)]
pub struct Stand {
    pub day: Kalendertag,
    pub length: u8,
}

impl Model for Stand {
    ghost use Rattle.std.specs.Prelude.{ℕ, ◌≡◌};
    ghost use Rattle.std.specs.Coded.{coded_ℕ};
    ghost use Rattle.datum.specs.Calendar.{is_leap, days_in_month, date_of};
    ghost use Rattle.std.proofs.Common.{ap, sym};

    ghost Value = { ℕ };

    ghost coded = { coded_ℕ };

    ghost view = { λ s. s.day };

    ghost invariant = { λ s. s.length ≡ days_in_month (is_leap (date_of s.day).year) (date_of s.day).month };

    ghost inverse = { λ i. record { day = i; length = days_in_month (is_leap (date_of i).year) (date_of i).month } };

    ghost inverse_ok = { λ a h. ap (λ n. record { day = a.day; length = n }) (sym h) };
}

impl Stand {
    /// The index of the day at which a walk stands.
    pub fn index(self) -> u32
        ensures { (result ≡ self) × (result ≤ last) }
    {
        let day = self.day;
        let tag = day.tag;
        tag.index
    }
}

/// The weekday some days later, up to a week.
///
/// A day after a Sunday: Monday, 0.
fn weekday_later(day: Kalendertag, days: u8) -> u32
    requires { days ≤ 7 }
    ensures { result ≡ weekday (day + days) }
{
    // A comparison, here and back: a remainder takes longer, and each step of a walk would wait for it.
    let later = day.wday + (days as u32);
    if later < WEEK {
        return later;
    }
    later - WEEK
}

/// The weekday some days earlier, up to a week.
///
/// A day before a Monday: Sunday, 6.
fn weekday_earlier(day: Kalendertag, days: u8) -> u32
    requires { (days ≤ 7) × (days ≤ day) }
    ensures { result ≡ weekday (day - days) }
{
    let back = days as u32;
    if day.wday < back {
        return day.wday + WEEK - back;
    }
    day.wday - back
}

/// The days to the next day from Monday to Friday: three from a Friday.
#[tactic(auto, using(crate::proofs::Rules::weekday_rules))]
pub fn to_weekday(wday: u32) -> u8
    requires { wday < 7 }
    ensures { (result ≡ to_weekday wday) × (1 ≤ result) × (result ≤ 3) }
{
    if wday < FRIDAY {
        return 1;
    }
    (WEEK - wday) as u8
}

/// The days back to the last day from Monday to Friday: three from a Monday.
#[tactic(auto, unfolding(crate::specs::Stand::from_weekday))]
fn from_weekday(day: Kalendertag) -> u8
    ensures { (result ≡ from_weekday (weekday day)) × (1 ≤ result) × (result ≤ 3) }
{
    match day.wday {
        MONDAY => 3,
        SUNDAY => 2,
        _ => 1,
    }
}

/// A walk stands at a day whose weekday is known: its month's length and its Easter are looked up.
fn stand_on(tag: Tag, wday: u32) -> Stand
    requires { wday ≡ weekday tag }
    ensures { result ≡ tag }
{
    Stand {
        day: Kalendertag::new(tag, wday),
        length: datum::tage::month_length(tag.date),
    }
}

/// A walk begins: the one time that its day's weekday, month and Easter are looked up.
pub fn stand_at(tag: Tag) -> Stand
    ensures { result ≡ tag }
{
    stand_on(tag, datum::weekday(tag.index))
}

/// Some days on, up to a week: in the month by the parts that are known, past its last day with the next month's length
/// and Easter. No type says 'up to a week': the days come from a weekday, or are 1.
#[inline(always)]
pub fn on(stand: Stand, days: u8) -> Stand
    requires { (days ≤ 7) × (stand + days ≤ last) }
    ensures { result ≡ stand + days }
{
    // In line: at a call a stand goes through memory, which the walk that tests each day would feel.
    let day = stand.day;
    let tag = day.tag;
    let wday = weekday_later(day, days);
    if tag.date.day + days <= stand.length {
        let tag = datum::tage::later_in_month(tag, days);
        return Stand {
            day: Kalendertag { tag, wday, ..day },
            ..stand
        };
    }
    let tag = datum::tage::into_next_month(tag, stand.length, days);
    stand_on(tag, wday)
}

/// Some days back, up to a week.
pub fn back(stand: Stand, days: u8) -> Stand
    requires { (days ≤ 7) × (days ≤ stand) }
    ensures { result ≡ stand - days }
{
    let day = stand.day;
    let tag = day.tag;
    let wday = weekday_earlier(day, days);
    if days < tag.date.day {
        let tag = datum::tage::earlier_in_month(tag, days);
        return Stand {
            day: Kalendertag { tag, wday, ..day },
            ..stand
        };
    }
    let tag = datum::tage::into_month_before(tag, days);
    stand_on(tag, wday)
}

/// Whether a walk stands at a Werktag.
pub fn at_werktag(stand: Stand, cal: HolidayCalendar) -> bool
    ensures { result ≡ is_werktag cal stand }
{
    let day = stand.day;
    day.wday <= FRIDAY && werktag::is_open_weekday(day, cal)
}

/// The direction of a walk over Werktage: `step` is what it reaches after a number of Werktage, and `left` the days
/// that the calendar still has in it.
pub trait Richtung {
    ghost step: { (ℕ → Bool) → ℕ → ℕ → Option ℕ };

    ghost left: { ℕ → ℕ };

    /// The next day from Monday to Friday, or none where the calendar ends before it. Between the two no day is a
    /// Werktag, so from there on a walk of any Werktage goes as from here.
    fn next_weekday(stand: Stand) -> Option<Stand>
        ensures found { IfSome result (λ s. (weekday s < 5) × (left s < left stand)) }
        ensures turn { (cal : HolidayCalendar) (m : ℕ) → 0 < m → MatchOption result
            (step (is_werktag cal) stand m ≡ None)
            (λ s. step (is_werktag cal) stand m ≡ step (is_werktag cal) s (m - bit (is_werktag cal s))) };

    // A walk of no Werktage stays where it is.
    ghost none: { (w : ℕ → Bool) (d : ℕ) → step w d 0 ≡ Some d };

    // No walk leaves the calendar and reaches a day.
    ghost within: { (w : ℕ → Bool) (d n e : ℕ) → d ≤ last → step w d n ≡ Some e → e ≤ last };
}

/// Forward: to the Werktage after a day.
pub struct Vor;

/// Back: to the Werktage before it.
pub struct Zurueck;

impl Richtung for Vor {
    ghost step = { add };

    ghost left = { λ d. last - d };

    ghost none = { add_none };

    ghost within = { add_inside };

    fn next_weekday(stand: Stand) -> Option<Stand> {
        let day = stand.day;
        let days = to_weekday(day.wday);
        let ahead = days as u32;
        if LAST - stand.index() < ahead {
            return None;
        }
        Some(on(stand, days))
    }
}

impl Richtung for Zurueck {
    ghost step = { sub };

    ghost left = { λ d. d };

    ghost none = { sub_none };

    ghost within = { sub_inside };

    fn next_weekday(stand: Stand) -> Option<Stand> {
        let day = stand.day;
        let days = from_weekday(day);
        if stand.index() < (days as u32) {
            return None;
        }
        Some(back(stand, days))
    }
}

/// The next Werktag in a direction, from weekday to weekday.
fn next_werktag<R: Richtung>(stand: Stand, cal: HolidayCalendar) -> Option<Stand>
    ensures { (m : ℕ) → 0 < m → MatchOption result (R.step (is_werktag cal) stand m ≡ None)
        (λ s. R.step (is_werktag cal) stand m ≡ R.step (is_werktag cal) s (m - 1)) }
{
    let mut at = R::next_weekday(stand)?;
    // No iterator: a step is one to three days, and the next begins where it ends.
    while !werktag::is_open_weekday(at.day, cal) {
        at = R::next_weekday(at)?;
    }
    Some(at)
}

/// The `n`-th Werktag from a day on in a direction; with `n = 0` the day itself.
///
/// Forward from Thursday 2 April 2026 with 1, over Easter: Tuesday 7 April. Back from there with 1: the Thursday.
pub fn nth_werktag<R: Richtung>(from: Tag, n: u32, cal: HolidayCalendar) -> Option<Tag>
    ensures { result ≡ R.step (is_werktag cal) from n }
{
    let mut at = stand_at(from);
    for _ in 0..n {
        at = next_werktag::<R>(at, cal)?;
    }
    let day = at.day;
    Some(day.tag)
}

/// The Werktage after `from` up to and including the day `to`, from weekday to weekday.
pub fn werktage_between(from: Tag, to: u32, cal: HolidayCalendar) -> u32
    requires { (from ≤ to) × (to ≤ last) }
    ensures { result ≡ between (is_werktag cal) from to }
{
    let mut at = stand_at(from);
    let mut count: u32 = 0;
    // No iterator: a step is one to three days, and the next begins where it ends.
    while at.index() < to {
        let day = at.day;
        let days = to_weekday(day.wday);
        if to - at.index() < (days as u32) {
            return count;
        }
        at = on(at, days);
        if werktag::is_open_weekday(at.day, cal) {
            count += 1;
        }
    }
    count
}
