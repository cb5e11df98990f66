// Counts and steps through the year index: the Werktage before a year, those of its first days, and back from a number
// of Werktage to the day.
ghost use Rattle.std.specs.Prelude.{◌≡◌, ◌+◌, ◌≤◌, ◌<◌};
ghost use Rattle.zaehlung.specs.Walk.{last, count, add, between};
ghost use Rattle.werktag.specs.Werktag.{is_werktag};
ghost use Rattle.jahresindex.specs.Werktage.{werktage};

use datum::WEEK;
use datum::tage::Tag;
use gang::{Richtung, Vor, Zurueck};
use jahre::WEEKDAYS;
use jahresindex::WERKTAGE;
use werktag::HolidayCalendar;

/// The Werktage of the calendar before a day, or before the day after it: `more` days on. A number and no `bool`, since
/// it is added.
///
/// 7,431 before 7 April 2026, and with 1, since that is a Werktag, 7,432.
#[tactic(auto, using(crate::proofs::IndexRules::day_rules))]
fn werktage_before(day: Tag, more: u32, cal: HolidayCalendar) -> u32
    requires { more ≤ 1 }
    ensures { (result ≡ count (is_werktag cal) (day + more)) × (result ≤ werktage) }
{
    let at = datum::tage::year_day(day);
    jahresindex::werktage_before_year(at.year, cal)
        + jahre::werktage_in_year(at.year, at.day + more, cal)
}

/// The `n`-th Werktag of the calendar: the `n`-th after 1 January 1996, which is none.
///
/// Of its year it is at most the 262nd. Five Werktage take a week or more, so as many weeks from 1 January on lead to a
/// day that is not past it, and only the days from there on are walked: those that holidays put off.
///
/// The first is 2 January 1996, the 7,432nd 7 April 2026.
#[tactic(auto, using(crate::proofs::IndexRules::nth_rules))]
fn nth_werktag(n: u32, cal: HolidayCalendar) -> Option<u32>
    requires { (1 ≤ n) × (n ≤ werktage) }
    ensures { result ≡ add (is_werktag cal) 0 n }
{
    let entry = jahresindex::year_of_werktag(n, cal);
    let rest = n - entry.before;
    let days = (rest - 1) / WEEKDAYS * WEEK;
    let passed = jahre::werktage_in_year(entry.year, days + 1, cal);
    let from = datum::tage::tag_at(datum::year_start(entry.year) + days);
    let werktag = gang::nth_werktag::<Vor>(from, rest - passed, cal)?;
    Some(werktag.index)
}

/// A direction in which the `n`-th Werktag is found by counts too. It stays a call, out of the way of the loop that
/// walks a few Werktage.
pub trait Gezaehlt: Richtung {
    /// The `n`-th Werktag in the direction, through the index.
    fn nth_by_count(from: Tag, n: u32, cal: HolidayCalendar) -> Option<u32>
        requires { 1 ≤ n }
        ensures { result ≡ Self.step (is_werktag cal) from n };
}

impl Gezaehlt for Vor {
    /// As many Werktage lie up to it as up to `from`, and `n`.
    #[inline(never)]
    #[tactic(auto, using(crate::proofs::IndexRules::step_rules))]
    fn nth_by_count(from: Tag, n: u32, cal: HolidayCalendar) -> Option<u32> {
        let through = werktage_before(from, 1, cal);
        if WERKTAGE - through < n {
            return None;
        }
        nth_werktag(through + n, cal)
    }
}

impl Gezaehlt for Zurueck {
    /// As many Werktage lie before it as before `from`, less `n`.
    #[inline(never)]
    #[tactic(auto, using(crate::proofs::IndexRules::step_rules))]
    fn nth_by_count(from: Tag, n: u32, cal: HolidayCalendar) -> Option<u32> {
        let before = werktage_before(from, 0, cal);
        if before < n {
            return None;
        }
        nth_werktag(before - n + 1, cal)
    }
}

/// The Werktage after `from` up to and including `to`: those up to `to`, less those up to `from`.
#[tactic(auto, using(crate::proofs::IndexRules::between_rules))]
pub fn werktage_between(from: Tag, to: Tag, cal: HolidayCalendar) -> u32
    requires { from < to }
    ensures { result ≡ between (is_werktag cal) from to }
{
    werktage_before(to, 1, cal) - werktage_before(from, 1, cal)
}
