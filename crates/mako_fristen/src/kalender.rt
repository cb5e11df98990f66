// Calendar steps and counts: document 01, refusals 3 and 8.
ghost use Rattle.std.specs.Prelude.{◌≡◌};
ghost use Rattle.werktag.specs.declared.HolidayCalendar.TheVariants.{BdewMaKo};
ghost use Rattle.werktag.specs.Werktag.{is_werktag};
ghost use Rattle.werktag.specs.Reason.{reason};
ghost use Rattle.antwortsatz.specs.Bytes.{reply};
ghost use Rattle.antworten.specs.Reading.{date_from};
ghost use Rattle.antworten.specs.Kalender.{is_werktag_answer, next_werktag_answer, add_werktage_answer};
ghost use Rattle.antworten.specs.Kalender.{sub_werktage_answer};
ghost use Rattle.antworten.specs.Kalender.{werktage_between_answer, add_months_answer, subtract_months_answer};

use datum::Date;
use werktag::HolidayCalendar;

/// Why a date is closed, as kind: "0 Werktag, 1 Saturday, 2 Sunday, 3 to 22 the holidays". 2 April 2026 has kind 0,
/// 3 April, Karfreitag, kind 17. 31 April is no date: refusal 3, whose kind is 0 too.
pub fn mf_is_werktag(year: u16, month: u8, day: u8, answer: &mut [u8]) -> u8
    ensures { (result, answer.new) ≡ reply answer.old
        (is_werktag_answer (reason BdewMaKo) (date_from year month day)) }
{
    let date = Date { year, month, day };
    antwortsatz::reply_with(
        answer,
        || antworten::kalender::is_werktag_answer(date, HolidayCalendar::BdewMaKo),
    )
}

/// The first Werktag on or after a date, in the answer's date: 3 April 2026 gives 7 April, 7 April itself. On 31
/// December 2899 there is none any more: refusal 8.
pub fn mf_next_werktag(year: u16, month: u8, day: u8, answer: &mut [u8]) -> u8
    ensures { (result, answer.new) ≡ reply answer.old
        (next_werktag_answer (is_werktag BdewMaKo) (date_from year month day)) }
{
    let date = Date { year, month, day };
    antwortsatz::reply_with(
        answer,
        || antworten::kalender::next_werktag_answer(date, HolidayCalendar::BdewMaKo),
    )
}

/// The n-th Werktag after a date; "with 0 give the date unchanged, Werktag or not": 2 April 2026 plus 1 is 7 April, 4
/// April, a Saturday, plus 0 is 4 April.
pub fn mf_add_werktage(year: u16, month: u8, day: u8, n: u32, answer: &mut [u8]) -> u8
    ensures { (result, answer.new) ≡ reply answer.old
        (add_werktage_answer (is_werktag BdewMaKo) (date_from year month day) n) }
{
    let date = Date { year, month, day };
    antwortsatz::reply_with(
        answer,
        || antworten::kalender::add_werktage_answer(date, n, HolidayCalendar::BdewMaKo),
    )
}

/// The n-th Werktag before a date; with 0 the date unchanged, Werktag or not: 7 April 2026 less 1 is 2 April. 2 January
/// 1996 less 1 leaves the calendar: refusal 8.
pub fn mf_sub_werktage(year: u16, month: u8, day: u8, n: u32, answer: &mut [u8]) -> u8
    ensures { (result, answer.new) ≡ reply answer.old
        (sub_werktage_answer (is_werktag BdewMaKo) (date_from year month day) n) }
{
    let date = Date { year, month, day };
    antwortsatz::reply_with(
        answer,
        || antworten::kalender::sub_werktage_answer(date, n, HolidayCalendar::BdewMaKo),
    )
}

/// The count of "Werktage after `from` up to and including `to`; 0 if `to` isn't later": from 2 to 8 April 2026 there
/// are 2, from 8 to 2 April none.
pub fn mf_werktage_between(
    year: u16,
    month: u8,
    day: u8,
    year2: u16,
    month2: u8,
    day2: u8,
    answer: &mut [u8],
) -> u8
    ensures { (result, answer.new) ≡ reply answer.old
        (werktage_between_answer (is_werktag BdewMaKo) (date_from year month day) (date_from year2 month2 day2)) }
{
    let first = Date { year, month, day };
    let second = Date {
        year: year2,
        month: month2,
        day: day2,
    };
    antwortsatz::reply_with(
        answer,
        || antworten::kalender::werktage_between_answer(first, second, HolidayCalendar::BdewMaKo),
    )
}

/// A date n months later; "a day the target month lacks becomes its last": 31 January 2026 plus 1 is 28 February.
/// Refusal 8 past 31 December 2899.
pub fn mf_add_months(year: u16, month: u8, day: u8, n: u32, answer: &mut [u8]) -> u8
    ensures { (result, answer.new) ≡ reply answer.old
        (add_months_answer (date_from year month day) n) }
{
    let date = Date { year, month, day };
    antwortsatz::reply_with(answer, || antworten::kalender::add_months_answer(date, n))
}

/// A date n months earlier; a day that the month lacks becomes its last: 31 March 2026 less 1 is 28 February. Refusal 8
/// before 1 January 1996.
pub fn mf_subtract_months(year: u16, month: u8, day: u8, n: u32, answer: &mut [u8]) -> u8
    ensures { (result, answer.new) ≡ reply answer.old
        (subtract_months_answer (date_from year month day) n) }
{
    let date = Date { year, month, day };
    antwortsatz::reply_with(
        answer,
        || antworten::kalender::subtract_months_answer(date, n),
    )
}
