// Calendar steps and counts: document 01, refusals 3 and 8.
ghost use Rattle.std.specs.Prelude.{◌≡◌};
ghost use Rattle.werktag.specs.Werktag.{is_werktag};
ghost use Rattle.werktag.specs.Reason.{reason};
ghost use Rattle.antworten.specs.Reading.{step_answer, shift_answer};
ghost use Rattle.antworten.specs.Kalender.{is_werktag_answer, next_werktag_answer, add_werktage_answer};
ghost use Rattle.antworten.specs.Kalender.{sub_werktage_answer};
ghost use Rattle.antworten.specs.Kalender.{werktage_between_answer, add_months_answer, subtract_months_answer};

use antwortsatz::{Answer, Refusal};
use datum::Date;
use datum::tage::{Tag, tag_of};
use schritte::tested::count_werktage;
use werktag::{HolidayCalendar, Reason};

/// The date that a step or a shift by months reached, or refusal 8.
fn shift_answer(reached: Option<Date>) -> Result<Answer, Refusal>
    ensures { result ≡ shift_answer reached }
{
    let date = reached.ok_or(Refusal::LeavesCalendar)?;
    Ok(antwortsatz::dated(date))
}

/// The same of the day that a step reached.
fn step_answer(step: Option<Tag>) -> Result<Answer, Refusal>
    ensures { result ≡ step_answer step }
{
    shift_answer(step.map(|day| day.date))
}

/// The reason of a date as kind: "0 Werktag, 1 Saturday, 2 Sunday, 3 to 22 the holidays". Refusal 3 for no date of the
/// range: 2 April 2026, a Thursday, has kind 0, 3 April, Karfreitag, kind 17, and 31 April is refused.
#[tactic(auto, unfolding(crate::specs::Kalender::is_werktag_answer))]
pub fn is_werktag_answer(date: Date, cal: HolidayCalendar) -> Result<Answer, Refusal>
    ensures { result ≡ is_werktag_answer (reason cal) date }
{
    let day = tag_of(date).ok_or(Refusal::NoDate)?;
    let number = werktag::reason(day, cal).map_or(0, Reason::number);
    Ok(antwortsatz::of_kind(number))
}

/// The first Werktag on or after a date: 3 April 2026 gives 7 April, the Tuesday after Ostern, and 7 April itself. From
/// 31 December 2899 on there is none: refusal 8.
#[tactic(auto, unfolding(crate::specs::Kalender::next_werktag_answer))]
pub fn next_werktag_answer(date: Date, cal: HolidayCalendar) -> Result<Answer, Refusal>
    ensures { result ≡ next_werktag_answer (is_werktag cal) date }
{
    let from = tag_of(date).ok_or(Refusal::NoDate)?;
    step_answer(schritte::next_werktag(from, cal))
}

/// The n-th Werktag after a date; "with 0 give the date unchanged, Werktag or not": 2 April 2026 plus 1 is 7 April, 4
/// April, a Saturday, plus 0 is 4 April.
#[tactic(auto, unfolding(crate::specs::Kalender::add_werktage_answer))]
pub fn add_werktage_answer(date: Date, n: u32, cal: HolidayCalendar) -> Result<Answer, Refusal>
    ensures { result ≡ add_werktage_answer (is_werktag cal) date n }
{
    let from = tag_of(date).ok_or(Refusal::NoDate)?;
    step_answer(schritte::add_werktage(from, n, cal))
}

/// The n-th Werktag before a date; with 0 the date unchanged: 7 April 2026 less 1 is 2 April.
#[tactic(auto, unfolding(crate::specs::Kalender::sub_werktage_answer))]
pub fn sub_werktage_answer(date: Date, n: u32, cal: HolidayCalendar) -> Result<Answer, Refusal>
    ensures { result ≡ sub_werktage_answer (is_werktag cal) date n }
{
    let from = tag_of(date).ok_or(Refusal::NoDate)?;
    step_answer(schritte::sub_werktage(from, n, cal))
}

/// "Werktage after `from` up to and including `to`; 0 if `to` isn't later": from 2 to 8 April 2026 there are 2, and
/// from 8 to 2 April none. With the days tested: 92 + 98, and none. Refusal 3 if either is no date.
#[tactic(auto, unfolding(crate::specs::Kalender::werktage_between_answer))]
pub fn werktage_between_answer(
    first: Date,
    second: Date,
    cal: HolidayCalendar,
) -> Result<Answer, Refusal>
    ensures { result ≡ werktage_between_answer (is_werktag cal) first second }
{
    let from = tag_of(first).ok_or(Refusal::NoDate)?;
    let to = tag_of(second).ok_or(Refusal::NoDate)?;
    let count = count_werktage(from, to, cal);
    Ok(antwortsatz::counted(count.werktage, count.tested))
}

/// A date n months later; "a day the target month lacks becomes its last": 31 January 2026 plus 1 is 28 February.
/// Refusal 8 past 31 December 2899.
#[tactic(auto, using(crate::proofs::Rules::month_rules), unfolding(crate::specs::Kalender::add_months_answer))]
pub fn add_months_answer(date: Date, n: u32) -> Result<Answer, Refusal>
    ensures { result ≡ add_months_answer date n }
{
    if !datum::is_date(date) {
        return Err(Refusal::NoDate);
    }
    shift_answer(datum::add_months(date, n))
}

/// A date n months earlier, cut in the same way: 31 March 2026 less 1 is 28 February. Refusal 8 before 1 January 1996.
#[tactic(auto, using(crate::proofs::Rules::month_rules), unfolding(crate::specs::Kalender::subtract_months_answer))]
pub fn subtract_months_answer(date: Date, n: u32) -> Result<Answer, Refusal>
    ensures { result ≡ subtract_months_answer date n }
{
    if !datum::is_date(date) {
        return Err(Refusal::NoDate);
    }
    shift_answer(datum::subtract_months(date, n))
}
