// Steps over Werktage and the count of Werktage. A day is taken apart, its index from 1 January 1996 beside its date,
// and so is the day that a step reaches. What a step or a count is, is defined in zaehlung for any test of a day, day
// by day; here the test is the holiday list's. Few Werktage are walked, many are counted through the year index.
#![tactic(auto)]

ghost use Rattle.std.specs.Prelude.{◌≡◌, ◌-◌, ◌≤◌};
ghost use Rattle.zaehlung.specs.Walk.{last, bit, day_after, day_before, add, sub, next, W, between};
ghost use Rattle.werktag.specs.Werktag.{is_werktag};

pub mod index;
pub mod tested;
pub mod theorems;

use datum::tage::Tag;
use gang::{Vor, Zurueck};
use index::Gezaehlt;
use werktag::HolidayCalendar;
use zaehlung::{FIRST, LAST};

/// The day after, Werktag or not, or `None` past the calendar's last day.
///
/// After 31 December 2025: 1 January 2026.
#[tactic(auto, using(crate::proofs::Rules::edge_rules))]
pub fn day_after(day: Tag) -> Option<Tag>
    ensures { result ≡ day_after day }
{
    if LAST <= day.index {
        return None;
    }
    Some(datum::tage::day_after(day))
}

/// The day before, Werktag or not, or `None` before the calendar's first day.
///
/// Before 1 January 2026: 31 December 2025.
#[tactic(auto, using(crate::proofs::Rules::edge_rules))]
pub fn day_before(day: Tag) -> Option<Tag>
    ensures { result ≡ day_before day }
{
    if day.index <= FIRST {
        return None;
    }
    Some(datum::tage::day_before(day))
}

/// Up to so many Werktage a step is walked, and up to so many days a count. From there on the index is faster, whatever
/// the date (docs/BENCHMARKS.md).
const FEW_WERKTAGE: u32 = 60;

const FEW_DAYS: u32 = 50;

/// The `n`-th Werktag from a day on in a direction: few are walked, many counted.
fn nth_werktag<R: Gezaehlt>(from: Tag, n: u32, cal: HolidayCalendar) -> Option<Tag>
    ensures { result ≡ R.step (is_werktag cal) from n }
{
    if n <= FEW_WERKTAGE {
        return gang::nth_werktag::<R>(from, n, cal);
    }
    let day = R::nth_by_count(from, n, cal)?;
    Some(datum::tage::tag_at(day))
}

/// The `n`-th Werktag after `from`, or `None` where that would be past the calendar's last day.
///
/// GPKE (BK6-24-174) Teil 1: a Werktag is any day that is not a Saturday, a Sunday or a public holiday.
///
/// With `n = 0`: `from` unchanged, Werktag or not. The first Werktag on or after a day is `next_werktag`.
///
/// Monday 6 January 2025 and 5 Werktage: Tue 7, Wed 8, Thu 9, Fri 10, Mon 13 January. Thursday 2 April 2026 and 1
/// Werktag, over Easter: Tuesday 7 April.
pub fn add_werktage(from: Tag, n: u32, cal: HolidayCalendar) -> Option<Tag>
    ensures { result ≡ add (is_werktag cal) from n }
{
    nth_werktag::<Vor>(from, n, cal)
}

/// The `n`-th Werktag before `from`, or `None` where that would be before the calendar's first day: the mirror of
/// `add_werktage`.
///
/// This is the arithmetic behind a Vorlauffrist: 'spätester ÜT ist der n. WT vor dem gewünschten Termin'.
///
/// With `n = 0`: `from` unchanged, Werktag or not.
///
/// Monday 13 January 2025 less 5 Werktage: Fri 10, Thu 9, Wed 8, Tue 7, and past Heilige Drei Könige Fri 3 January.
pub fn sub_werktage(from: Tag, n: u32, cal: HolidayCalendar) -> Option<Tag>
    ensures { result ≡ sub (is_werktag cal) from n }
{
    nth_werktag::<Zurueck>(from, n, cal)
}

/// The Werktage after `from` up to and including `to`: the inverse of `add_werktage`, since from `from` to its `n`-th
/// Werktag this is `n`.
///
/// 0 if `to` isn't later than `from`.
///
/// From Monday 6 to Monday 13 January 2025: 5.
#[tactic(auto, using(crate::proofs::IndexRules::between_rules))]
pub fn werktage_between(from: Tag, to: Tag, cal: HolidayCalendar) -> u32
    ensures { result ≡ between (is_werktag cal) from to }
{
    if to <= from {
        return 0;
    }
    if to.index - from.index <= FEW_DAYS {
        return gang::werktage_between(from, to.index, cal);
    }
    index::werktage_between(from, to, cal)
}

/// The first Werktag on or after `from`, or `None` where no day up to the calendar's last is one.
///
/// `add_werktage` with 0 leaves a Sunday or a holiday where it is; this goes on to the next Werktag.
///
/// From Sunday 12 January 2025: Monday 13 January. From that Monday: the same Monday.
#[tactic(auto, using(crate::proofs::Rules::next_rules))]
pub fn next_werktag(from: Tag, cal: HolidayCalendar) -> Option<Tag>
    ensures { result ≡ next (is_werktag cal) from }
{
    if werktag::is_werktag(from, cal) {
        return Some(from);
    }
    gang::nth_werktag::<Vor>(from, 1, cal)
}

/// How many of `n` Werktage on or after `t` lie after it: `t` may be the first of them.
#[tactic(auto, using(crate::proofs::Rules::left_rules))]
fn after_today(t: Tag, n: u32, cal: HolidayCalendar) -> u32
    requires { 1 ≤ n }
    ensures { result ≡ n - bit (is_werktag cal t) }
{
    // At least one, asked and no type made of it: each caller has a branch of its own for 0.
    if werktag::is_werktag(t, cal) {
        return n - 1;
    }
    n
}

/// The `n`-th Werktag on or after a day, of at least one.
fn nth_on_or_after(day: Tag, n: u32, cal: HolidayCalendar) -> Option<u32>
    requires { 1 ≤ n }
    ensures { result ≡ add (is_werktag cal) day (n - bit (is_werktag cal day)) }
{
    let left = after_today(day, n, cal);
    if left == 0 {
        return Some(day.index);
    }
    let werktag = gang::nth_werktag::<Vor>(day, left, cal)?;
    Some(werktag.index)
}

/// The `n`-th Werktag after a day that is known by its index alone, as that of an instant is. For few Werktage the next
/// weekday is taken apart and not the day itself: in most cases that is the Werktag.
///
/// With `n = 0`: the day unchanged, Werktag or not.
pub fn nth_werktag_after(day: u32, n: u32, cal: HolidayCalendar) -> Option<u32>
    requires { day ≤ last }
    ensures { result ≡ add (is_werktag cal) day n }
{
    if n == 0 {
        return Some(day);
    }
    if FEW_WERKTAGE < n {
        return Vor::nth_by_count(datum::tage::tag_at(day), n, cal);
    }
    let days = gang::to_weekday(datum::weekday(day)) as u32;
    if LAST - day < days {
        return None;
    }
    nth_on_or_after(datum::tage::tag_at(day + days), n, cal)
}

/// W(n) of document 01: 't for n = 0, else the day after the n-th Werktag on or after t', or `None` where that would
/// be past the calendar's last day.
///
/// With `n = 0`: `t` unchanged, Werktag or not.
///
/// From Saturday 10 January 2026 with 1: the Werktag is Monday 12, so Tuesday 13 January. `add_werktage` reaches the
/// Monday.
pub fn day_after_werktage(t: Tag, n: u32, cal: HolidayCalendar) -> Option<Tag>
    ensures { result ≡ W (is_werktag cal) t n }
{
    if n == 0 {
        return Some(t);
    }
    let _ = &t.index;
    let werktag = add_werktage(t, after_today(t, n, cal), cal)?;
    day_after(werktag)
}
