// Clock on a date (document 01, refusals 3, 5, 6) and day of an instant (4, 7).
ghost use Rattle.std.specs.Prelude.{◌≡◌};
ghost use Rattle.antwortsatz.specs.Bytes.{reply};
ghost use Rattle.berlin.specs.Berlin.{read_instant, read_clock};
ghost use Rattle.antworten.specs.Reading.{date_from};
ghost use Rattle.antworten.specs.Uhrzeit.{berlin_at_answer, berlin_midnight_answer, end_of_day_berlin_answer};
ghost use Rattle.antworten.specs.Uhrzeit.{tagesbeginn_utc_answer, berlin_date_answer, tag_des_beginns_answer};

use datum::Date;

/// The instant at which the Berlin clock shows a time on a date. "A repeated local time means its earlier instant": 25
/// October 2026 02:30 is 00:30 UTC. 29 March 02:30 is absent: refusal 6.
pub fn mf_berlin_at(
    year: u16,
    month: u8,
    day: u8,
    hour: u8,
    minute: u8,
    second: u8,
    nanos_of_second: u32,
    answer: &mut [u8],
) -> u8
    ensures { (result, answer.new) ≡ reply answer.old
        (berlin_at_answer (date_from year month day) (read_clock hour minute second nanos_of_second)) }
{
    let date = Date { year, month, day };
    antwortsatz::reply_with(answer, || {
        let clock = berlin::read_clock(hour, minute, second, nanos_of_second);
        antworten::uhrzeit::berlin_at_answer(date, clock)
    })
}

/// The first instant of a Berlin day: 9 January 2026 begins on the 8th at 23:00 UTC, 9 July on the 8th at 22:00.
/// Midnight is never absent or repeated.
pub fn mf_berlin_midnight(year: u16, month: u8, day: u8, answer: &mut [u8]) -> u8
    ensures { (result, answer.new) ≡ reply answer.old
        (berlin_midnight_answer (date_from year month day)) }
{
    let date = Date { year, month, day };
    antwortsatz::reply_with(answer, || antworten::uhrzeit::berlin_midnight_answer(date))
}

/// The last instant of a Berlin day, 23:59:59.999999999: that of 9 January 2026 is 22:59:59.999999999 UTC. It is never
/// absent or repeated.
pub fn mf_end_of_day_berlin(year: u16, month: u8, day: u8, answer: &mut [u8]) -> u8
    ensures { (result, answer.new) ≡ reply answer.old
        (end_of_day_berlin_answer (date_from year month day)) }
{
    let date = Date { year, month, day };
    antwortsatz::reply_with(
        answer,
        || antworten::uhrzeit::end_of_day_berlin_answer(date),
    )
}

/// The instant at which a day begins in a Sparte: "Strom begins at 00:00, Gas at 06:00 Berlin." The Gas day 29 March
/// 2026 begins at 04:00 UTC. Code 2 is no Sparte: refusal 2, before the date is looked at.
pub fn mf_tagesbeginn_utc(year: u16, month: u8, day: u8, sparte: u8, answer: &mut [u8]) -> u8
    ensures { (result, answer.new) ≡ reply answer.old
        (tagesbeginn_utc_answer (date_from year month day) sparte) }
{
    let date = Date { year, month, day };
    antwortsatz::reply_with(
        answer,
        || antworten::uhrzeit::tagesbeginn_utc_answer(date, sparte),
    )
}

/// The Berlin date of an instant, not the UTC date: 8 January 2026 23:30 UTC is 9 January. Seconds before 820,450,800
/// or after 29,348,002,799 are refused with 4.
pub fn mf_berlin_date(seconds: i64, nanos: u32, answer: &mut [u8]) -> u8
    ensures { (result, answer.new) ≡ reply answer.old
        (berlin_date_answer (read_instant seconds nanos)) }
{
    antwortsatz::reply_with(answer, || {
        let instant = berlin::read_instant(seconds, nanos);
        antworten::uhrzeit::berlin_date_answer(instant)
    })
}

/// The date of the day that begins at an instant in a Sparte: 29 March 2026 04:00 UTC begins the Gas day 29 March, and
/// no Strom day: refusal 7.
pub fn mf_tag_des_beginns(seconds: i64, nanos: u32, sparte: u8, answer: &mut [u8]) -> u8
    ensures { (result, answer.new) ≡ reply answer.old
        (tag_des_beginns_answer (read_instant seconds nanos) sparte) }
{
    antwortsatz::reply_with(answer, || {
        let instant = berlin::read_instant(seconds, nanos);
        antworten::uhrzeit::tag_des_beginns_answer(instant, sparte)
    })
}
