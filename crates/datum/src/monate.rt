// Months before and after a day, BGB §188, and M(n, d) of document 01. Before and after are a line each, under the
// names of the original's.
ghost use Rattle.std.specs.Prelude.{true, ◌≡◌};
ghost use Rattle.datum.specs.Calendar.{is_date, days_before};
ghost use Rattle.datum.specs.Inside.{InsideShift};
ghost use Rattle.datum.specs.Monate.{to_step, months_later, months_earlier, M};

use super::Date;
use super::tage::Tag;

/// The day of the date that a shift reached.
fn to_step(shifted: Option<Date>) -> Option<Tag>
    requires { InsideShift shifted }
    ensures { result ≡ to_step shifted }
{
    let date = shifted?;
    Some(Tag {
        index: super::days_before(date),
        date,
    })
}

/// The day `n` months later: 'a day the target month lacks becomes its last (BGB §188)'.
///
/// `None` past the calendar's last day. With `n = 0` the day itself.
///
/// From 31 January 2026 with 1: 28 February 2026.
#[tactic(auto, using(crate::proofs::MonthStepRules::month_rules))]
pub fn months_later(day: Tag, n: u32) -> Option<Tag>
    ensures { result ≡ months_later day n }
{
    to_step(super::add_months(day.date, n))
}

/// The day `n` months earlier: 'a day the target month lacks becomes its last (BGB §188)'.
///
/// `None` before the calendar's first day. With `n = 0` the day itself.
///
/// From 31 March 2024 with 1: 29 February 2024.
#[tactic(auto, using(crate::proofs::MonthStepRules::month_rules))]
pub fn months_earlier(day: Tag, n: u32) -> Option<Tag>
    ensures { result ≡ months_earlier day n }
{
    to_step(super::subtract_months(day.date, n))
}

/// M(n, d) of document 01 for a date of the range: 'd plus n months, or, if the day was cut to the month's last, the
/// first of the next month'.
///
/// `None` past the calendar's last day, which the first of the next month may be where n months later is not.
///
/// 31 January 2026 and 1 month is 1 March 2026, 28 January and 1 month 28 February.
#[tactic(auto, using(crate::proofs::MonthStepRules::date_shift_rules))]
pub fn months_or_first_date(date: Date, n: u32) -> Option<Date>
    requires { is_date date ≡ true }
    ensures { (to_step result ≡ M n (days_before date)) × InsideShift result }
{
    let target = super::add_months(date, n)?;
    if date.day <= target.day {
        return Some(target);
    }
    let first = Date {
        year: target.year,
        month: target.month,
        day: 1,
    };
    super::add_months(first, 1)
}

/// M(n, d) of document 01 for a day taken apart.
///
/// `None` past the calendar's last day. With `n = 0` the day itself: nothing is cut.
///
/// From 31 January 2026 with 1: 1 March 2026. From 28 January with 1: 28 February.
pub fn months_or_first(day: Tag, n: u32) -> Option<Tag>
    ensures { result ≡ M n day }
{
    to_step(months_or_first_date(day.date, n))
}
