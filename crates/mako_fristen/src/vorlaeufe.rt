// Verdicts, spans, deregistrations and the 13:00 announcement: document 01, refusals 3, 4, 7 and 8.
ghost use Rattle.std.specs.Prelude.{◌≡◌};
ghost use Rattle.werktag.specs.declared.HolidayCalendar.TheVariants.{BdewMaKo};
ghost use Rattle.werktag.specs.Werktag.{is_werktag};
ghost use Rattle.antwortsatz.specs.Bytes.{reply};
ghost use Rattle.berlin.specs.Berlin.{read_instant};
ghost use Rattle.antworten.specs.Reading.{date_from};
ghost use Rattle.antworten_vorlauf.specs.Vorlauf.{vorlauf_check_answer, vorlauf_check_at_answer, vorlauf_span_answer};
ghost use Rattle.antworten_vorlauf.specs.Vorlauf.{abmeldung_fuer_answer, abmeldung_check_answer};
ghost use Rattle.antworten_vorlauf.specs.Vorlauf.{eog_ankuendigung_fristgerecht_answer};

use datum::Date;
use werktag::HolidayCalendar;

/// The verdict of a lead-time shape on a transmission date and an anchor, its Werktage, its earliest date and its
/// margin: `LatestWerktageBefore(1)` for 10 January 2026, a Saturday, against Monday, the 12th, is TooLate, 0, names
/// that Monday, and has -1. "The two month shapes compute their earliest date even when the verdict is Ok": refusal 8
/// where it leaves the calendar.
pub fn mf_vorlauf_check(
    shape: u8,
    count: u32,
    count2: u32,
    year: u16,
    month: u8,
    day: u8,
    year2: u16,
    month2: u8,
    day2: u8,
    answer: &mut [u8],
) -> u8
    ensures { (result, answer.new) ≡ reply answer.old
        (vorlauf_check_answer (is_werktag BdewMaKo) shape count count2 (date_from year month day)
        (date_from year2 month2 day2)) }
{
    let first = Date { year, month, day };
    let second = Date {
        year: year2,
        month: month2,
        day: day2,
    };
    antwortsatz::reply_with(
        answer,
        || antworten_vorlauf::vorlauf_check_answer(
            shape,
            count,
            count2,
            first,
            second,
            HolidayCalendar::BdewMaKo,
        ),
    )
}

/// The same for a transmission instant and an anchor given as a day's beginning: "4 for either, 7 for the anchor, 8".
/// Only the anchor goes by the Sparte: in Gas, 12 January 2026 05:00 UTC is the anchor 12 January, in Strom it begins
/// no day.
pub fn mf_vorlauf_check_at(
    shape: u8,
    count: u32,
    count2: u32,
    seconds: i64,
    nanos: u32,
    seconds2: i64,
    nanos2: u32,
    sparte: u8,
    answer: &mut [u8],
) -> u8
    ensures { (result, answer.new) ≡ reply answer.old
        (vorlauf_check_at_answer (is_werktag BdewMaKo) shape count count2 sparte (read_instant seconds nanos)
        (read_instant seconds2 nanos2)) }
{
    antwortsatz::reply_with(answer, || {
        let instant = berlin::read_instant(seconds, nanos);
        let beginning = berlin::read_instant(seconds2, nanos2);
        antworten_vorlauf::vorlauf_check_at_answer(
            shape,
            count,
            count2,
            sparte,
            instant,
            beginning,
            HolidayCalendar::BdewMaKo,
        )
    })
}

/// The anchors that a shape takes for a transmission date: "Kind 0 no last day, 1 both, 2 empty with both dates zero".
/// `LatestWerktageBefore(1)` for 10 January 2026: from 13 January on. Refusal 8 where an end leaves the calendar, also
/// of a window that would be empty.
pub fn mf_vorlauf_span(
    shape: u8,
    count: u32,
    count2: u32,
    year: u16,
    month: u8,
    day: u8,
    answer: &mut [u8],
) -> u8
    ensures { (result, answer.new) ≡ reply answer.old
        (vorlauf_span_answer (is_werktag BdewMaKo) shape count count2 (date_from year month day)) }
{
    let date = Date { year, month, day };
    antwortsatz::reply_with(
        answer,
        || antworten_vorlauf::vorlauf_span_answer(
            shape,
            count,
            count2,
            date,
            HolidayCalendar::BdewMaKo,
        ),
    )
}

/// The case of a deregistration: "only the three bytes "ZQ7" are the deactivation reason; "zq7", "ZQ7 " and an empty
/// reason are ordinary". "ZQ7" has kind 3 with any of the three EEG marks. Any other reason with the mark 1, yes, has
/// kind 1.
pub fn mf_abmeldung_fuer(reason: &[u8], eeg: u8, answer: &mut [u8]) -> u8
    ensures { (result, answer.new) ≡ reply answer.old
        (abmeldung_fuer_answer reason.now eeg) }
{
    antwortsatz::reply_with(
        answer,
        || antworten_vorlauf::abmeldung_fuer_answer(reason, eeg),
    )
}

/// The verdict of a deregistration, kind 3 where it has no shape: "ZQ7, or an unknown EEG mark". Its two dates are
/// checked even then. An ordinary one on 8 January 2026 for the 9th: TooLate, 1, 10 January, -1.
pub fn mf_abmeldung_check(
    reason: &[u8],
    eeg: u8,
    year: u16,
    month: u8,
    day: u8,
    year2: u16,
    month2: u8,
    day2: u8,
    answer: &mut [u8],
) -> u8
    ensures { (result, answer.new) ≡ reply answer.old
        (abmeldung_check_answer (is_werktag BdewMaKo) reason.now eeg (date_from year month day)
        (date_from year2 month2 day2)) }
{
    let first = Date { year, month, day };
    let second = Date {
        year: year2,
        month: month2,
        day: day2,
    };
    antwortsatz::reply_with(
        answer,
        || antworten_vorlauf::abmeldung_check_answer(
            reason,
            eeg,
            first,
            second,
            HolidayCalendar::BdewMaKo,
        ),
    )
}

/// Whether an announcement keeps its Frist, 13:00 of the last Werktag before the beginning: for 12 January 2026, 9
/// January 13:00 has kind 1, a nanosecond later kind 0, and from 12 January 00:00 on kind 2, neither.
pub fn mf_eog_ankuendigung_fristgerecht(
    seconds: i64,
    nanos: u32,
    year: u16,
    month: u8,
    day: u8,
    answer: &mut [u8],
) -> u8
    ensures { (result, answer.new) ≡ reply answer.old
        (eog_ankuendigung_fristgerecht_answer (is_werktag BdewMaKo) (read_instant seconds nanos)
        (date_from year month day)) }
{
    let date = Date { year, month, day };
    antwortsatz::reply_with(answer, || {
        let instant = berlin::read_instant(seconds, nanos);
        antworten_vorlauf::eog_ankuendigung_fristgerecht_answer(
            instant,
            date,
            HolidayCalendar::BdewMaKo,
        )
    })
}
