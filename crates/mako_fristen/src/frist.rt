// Due instants: document 01, refusals 4, 5, 6 and 8; document 02, F-7, where a date is given, 3.
ghost use Rattle.std.specs.Prelude.{◌≡◌};
ghost use Rattle.werktag.specs.declared.HolidayCalendar.TheVariants.{BdewMaKo};
ghost use Rattle.werktag.specs.Werktag.{is_werktag};
ghost use Rattle.antwortsatz.specs.Bytes.{reply};
ghost use Rattle.berlin.specs.Berlin.{read_instant, read_clock};
ghost use Rattle.antworten.specs.Reading.{date_from};
ghost use Rattle.antworten_frist.specs.Frist.{contrl_due_at_answer, contrl_due_at_change_answer};
ghost use Rattle.antworten_frist.specs.Frist.{aperak_strom_due_at_answer};
ghost use Rattle.antworten_frist.specs.Frist.{aperak_strom_allgemein_due_at_answer};
ghost use Rattle.antworten_frist.specs.Frist.{aperak_gas_folgeprozess_due_at_answer};
ghost use Rattle.antworten_frist.specs.Frist.{aperak_gas_initialprozess_due_at_answer, aperak_gas_due_at_answer};
ghost use Rattle.antworten_frist.specs.Frist.{add_hours_answer};
ghost use Rattle.antworten_frist.specs.Frist.{deadline_at_werktage_answer, end_of_werktag_after_answer};
ghost use Rattle.antworten_frist.specs.Frist.{next_werktag_at_answer};
ghost use Rattle.antworten_frist.specs.Frist.{nth_werktag_at_answer, frist_due_at_answer};

use datum::Date;
use werktag::HolidayCalendar;

/// When a CONTRL is due: 6 hours after its receipt, 45 minutes for `GasAlocat`; `StromUtilmdOderOrders` 15 minutes, 6
/// hours if received on Saturday. "Due at 31 March or 30 September 18:00:00 Berlin or later and before 2 April or 2
/// October 00:00 becomes that midnight": Regelfall received 31 March 2026 12:00:00 is due 2 April 00:00, a second
/// earlier 17:59:59.
pub fn mf_contrl_due_at(seconds: i64, nanos: u32, anlass: u8, answer: &mut [u8]) -> u8
    ensures { (result, answer.new) ≡ reply answer.old
        (contrl_due_at_answer (read_instant seconds nanos) anlass) }
{
    antwortsatz::reply_with(answer, || {
        let instant = berlin::read_instant(seconds, nanos);
        antworten_frist::contrl_due_at_answer(instant, anlass)
    })
}

/// When a CONTRL is due if the Formatumstellung is on another day than 1 April or 1 October: "the window runs from
/// 18:00 of the day before to 00:00 of the day after, and no other window exists in that call". What is due in it is
/// due at its end: with 6 June 2026, a Regelfall received on the 5th 12:00:00 Berlin on the 7th 00:00, a second
/// earlier on the 5th 17:59:59. The change day goes before the instant's limits: 3 before 4. "8 also where the day
/// before or after the change day leaves the calendar."
pub fn mf_contrl_due_at_change(
    seconds: i64,
    nanos: u32,
    anlass: u8,
    year: u16,
    month: u8,
    day: u8,
    answer: &mut [u8],
) -> u8
    ensures { (result, answer.new) ≡ reply answer.old
        (contrl_due_at_change_answer (read_instant seconds nanos) anlass (date_from year month day)) }
{
    let change_day = Date { year, month, day };
    antwortsatz::reply_with(answer, || {
        let instant = berlin::read_instant(seconds, nanos);
        antworten_frist::contrl_due_at_change_answer(instant, anlass, change_day)
    })
}

/// When the Strom APERAK on a UTILMD or ORDERS is due: 45 minutes after its receipt; "Saturday gives Sunday 12:00".
/// "Only Saturday is special": received Saturday, 10 January 2026, it is due on the 11th at 12:00 Berlin, received that
/// Sunday, 45 minutes later.
pub fn mf_aperak_strom_due_at(seconds: i64, nanos: u32, answer: &mut [u8]) -> u8
    ensures { (result, answer.new) ≡ reply answer.old
        (aperak_strom_due_at_answer (read_instant seconds nanos)) }
{
    antwortsatz::reply_with(answer, || {
        let instant = berlin::read_instant(seconds, nanos);
        antworten_frist::aperak_strom_due_at_answer(instant)
    })
}

/// When any other Strom APERAK is due: "12:00 of the first Werktag after the receipt day". Received 2 April 2026, it is
/// due on 7 April at 12:00 Berlin. The receipt day is never that Werktag; refusal 8 where none follows in the calendar.
pub fn mf_aperak_strom_allgemein_due_at(seconds: i64, nanos: u32, answer: &mut [u8]) -> u8
    ensures { (result, answer.new) ≡ reply answer.old
        (aperak_strom_allgemein_due_at_answer (is_werktag BdewMaKo) (read_instant seconds nanos)) }
{
    antwortsatz::reply_with(answer, || {
        let instant = berlin::read_instant(seconds, nanos);
        antworten_frist::aperak_strom_allgemein_due_at_answer(instant, HolidayCalendar::BdewMaKo)
    })
}

/// When the Gas APERAK of a follow-up process is due, kind 0: 12:00 of the first Werktag after the receipt day, as
/// received 2 April 2026 on 7 April. The receipt day is never that Werktag.
pub fn mf_aperak_gas_folgeprozess_due_at(seconds: i64, nanos: u32, answer: &mut [u8]) -> u8
    ensures { (result, answer.new) ≡ reply answer.old
        (aperak_gas_folgeprozess_due_at_answer (is_werktag BdewMaKo) (read_instant seconds nanos)) }
{
    antwortsatz::reply_with(answer, || {
        let instant = berlin::read_instant(seconds, nanos);
        antworten_frist::aperak_gas_folgeprozess_due_at_answer(instant, HolidayCalendar::BdewMaKo)
    })
}

/// When the Gas APERAK of an initial process is due, kind 1: "end of the third Werktag after the receipt day". Received
/// 2 April 2026, it is due at the end of 9 April. The receipt day does not count, Werktag or not.
pub fn mf_aperak_gas_initialprozess_due_at(seconds: i64, nanos: u32, answer: &mut [u8]) -> u8
    ensures { (result, answer.new) ≡ reply answer.old
        (aperak_gas_initialprozess_due_at_answer (is_werktag BdewMaKo) (read_instant seconds nanos)) }
{
    antwortsatz::reply_with(answer, || {
        let instant = berlin::read_instant(seconds, nanos);
        antworten_frist::aperak_gas_initialprozess_due_at_answer(instant, HolidayCalendar::BdewMaKo)
    })
}

/// When the Gas APERAK of a Prüfidentifikator is due, "kind 1 for the initial process, else 0": 44001, 44016, 44039 and
/// 44042 are initial, any other number is a follow-up. 44001 received 2 April 2026 is due at the end of 9 April.
pub fn mf_aperak_gas_due_at(pid: u32, seconds: i64, nanos: u32, answer: &mut [u8]) -> u8
    ensures { (result, answer.new) ≡ reply answer.old
        (aperak_gas_due_at_answer (is_werktag BdewMaKo) pid (read_instant seconds nanos)) }
{
    antwortsatz::reply_with(answer, || {
        let instant = berlin::read_instant(seconds, nanos);
        antworten_frist::aperak_gas_due_at_answer(pid, instant, HolidayCalendar::BdewMaKo)
    })
}

/// Some hours later, on the time line and not on the clock: 28 March 2026 12:00 Berlin and 24 hours is 29 March 13:00.
/// Refusal 8 past the last day.
pub fn mf_add_hours(seconds: i64, nanos: u32, hours: u32, answer: &mut [u8]) -> u8
    ensures { (result, answer.new) ≡ reply answer.old
        (add_hours_answer (read_instant seconds nanos) hours) }
{
    antwortsatz::reply_with(answer, || {
        let instant = berlin::read_instant(seconds, nanos);
        antworten_frist::add_hours_answer(instant, hours)
    })
}

/// The end of the n-th Werktag after the Berlin day of an instant; with 0 that day's own end, Werktag or not. From 2
/// April 2026 with 1: 7 April 23:59:59.999999999.
pub fn mf_deadline_at_werktage(seconds: i64, nanos: u32, werktage: u32, answer: &mut [u8]) -> u8
    ensures { (result, answer.new) ≡ reply answer.old
        (deadline_at_werktage_answer (is_werktag BdewMaKo) (read_instant seconds nanos) werktage) }
{
    antwortsatz::reply_with(answer, || {
        let instant = berlin::read_instant(seconds, nanos);
        antworten_frist::deadline_at_werktage_answer(instant, werktage, HolidayCalendar::BdewMaKo)
    })
}

/// The end of the n-th Werktag after the receipt day; with 0 that day's own end. Received 2 April 2026, with 3: the end
/// of 9 April.
pub fn mf_end_of_werktag_after(seconds: i64, nanos: u32, werktage: u32, answer: &mut [u8]) -> u8
    ensures { (result, answer.new) ≡ reply answer.old
        (end_of_werktag_after_answer (is_werktag BdewMaKo) (read_instant seconds nanos) werktage) }
{
    antwortsatz::reply_with(answer, || {
        let instant = berlin::read_instant(seconds, nanos);
        antworten_frist::end_of_werktag_after_answer(instant, werktage, HolidayCalendar::BdewMaKo)
    })
}

/// A clock time on the first Werktag after the receipt day: received 2 April 2026, 12:00 of 7 April. 24:00 is no clock:
/// refusal 5, after the instant's limits.
pub fn mf_next_werktag_at(
    seconds: i64,
    nanos: u32,
    hour: u8,
    minute: u8,
    second: u8,
    nanos_of_second: u32,
    answer: &mut [u8],
) -> u8
    ensures { (result, answer.new) ≡ reply answer.old
        (next_werktag_at_answer (is_werktag BdewMaKo) (read_instant seconds nanos)
        (read_clock hour minute second nanos_of_second)) }
{
    antwortsatz::reply_with(answer, || {
        let instant = berlin::read_instant(seconds, nanos);
        let clock = berlin::read_clock(hour, minute, second, nanos_of_second);
        antworten_frist::next_werktag_at_answer(instant, clock, HolidayCalendar::BdewMaKo)
    })
}

/// A clock time on the n-th Werktag after the receipt day; "with 0 equals 1". Received 2 April 2026, with 2: 8 April.
pub fn mf_nth_werktag_at(
    seconds: i64,
    nanos: u32,
    n: u32,
    hour: u8,
    minute: u8,
    second: u8,
    nanos_of_second: u32,
    answer: &mut [u8],
) -> u8
    ensures { (result, answer.new) ≡ reply answer.old
        (nth_werktag_at_answer (is_werktag BdewMaKo) (read_instant seconds nanos) n
        (read_clock hour minute second nanos_of_second)) }
{
    antwortsatz::reply_with(answer, || {
        let instant = berlin::read_instant(seconds, nanos);
        let clock = berlin::read_clock(hour, minute, second, nanos_of_second);
        antworten_frist::nth_werktag_at_answer(instant, n, clock, HolidayCalendar::BdewMaKo)
    })
}

/// When an answer of a shape is due. "`SameDayAt` received exactly at the clock time goes to the next Werktag": 12:00,
/// received 9 January 2026 12:00, is 12 January 12:00. A count or clock that the shape does not use is not looked at.
pub fn mf_frist_due_at(
    shape: u8,
    werktage: u32,
    hour: u8,
    minute: u8,
    second: u8,
    nanos_of_second: u32,
    seconds: i64,
    nanos: u32,
    answer: &mut [u8],
) -> u8
    ensures { (result, answer.new) ≡ reply answer.old
        (frist_due_at_answer (is_werktag BdewMaKo) shape werktage (read_clock hour minute second nanos_of_second)
        (read_instant seconds nanos)) }
{
    antwortsatz::reply_with(answer, || {
        let clock = berlin::read_clock(hour, minute, second, nanos_of_second);
        let instant = berlin::read_instant(seconds, nanos);
        antworten_frist::frist_due_at_answer(
            shape,
            werktage,
            clock,
            instant,
            HolidayCalendar::BdewMaKo,
        )
    })
}
