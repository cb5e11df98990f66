// When a message or an answer is due. Document 01, lib.rs (messages) and antwort.rs, with the original's names and
// order.
//
// A due instant is counted in seconds from the receipt, or is a local time on a day that is counted in Werktage from
// the Berlin day of the receipt. Each promise is one equation with a definition of specs/; `aperak_gas_due_at` gives a
// pair, and has one for each part. Four functions are another under the name that the original has: the general Strom
// APERAK, the two of Gas, and `deadline_at_werktage`.
#![tactic(auto)]

ghost use Rattle.std.specs.Prelude.{◌≡◌, ◌+◌, ◌*◌, ◌≤◌, ◌<◌};
ghost use Rattle.zaehlung.specs.Walk.{last};
ghost use Rattle.werktag.specs.Werktag.{is_werktag};
ghost use Rattle.berlin.specs.Berlin.{day_seconds};
ghost use Rattle.fristen.specs.Fristen.{receipt_day, instant_later, clock_on, is_saturday, contrl_seconds};
ghost use Rattle.fristen.specs.Fristen.{before_tolerance, contrl_due_at, contrl_due_at_change};
ghost use Rattle.fristen.specs.Fristen.{in_window, toleranz, formatumstellung_toleranz};
ghost use Rattle.fristen.specs.ByDate.{is_change_day, is_eve};
ghost use Rattle.fristen.specs.Fristen.{aperak_strom_due_at, aperak_strom_allgemein_due_at};
ghost use Rattle.fristen.specs.Fristen.{aperak_gas_folgeprozess_due_at, aperak_gas_initialprozess_due_at};
ghost use Rattle.fristen.specs.Fristen.{is_initial, gas_prozess, aperak_gas_due_at, nth_werktag_on};
ghost use Rattle.fristen.specs.Fristen.{nth_werktag_at, next_werktag_at, end_of_werktag_after};
ghost use Rattle.fristen.specs.Fristen.{deadline_at_werktage, add_hours};
ghost use Rattle.fristen.specs.FristShape.{same_day_at, due_at_of};

use berlin::{Clock, DAY, HOUR, MINUTE, Moment};
use datum::Date;
use werktag::HolidayCalendar;
use zaehlung::LAST;

pub mod theorems;

/// Why there is no due instant.
#[derive(Clone, Copy, PartialEq, Eq)]
pub enum NoDue {
    /// No clock shows its time (refusal 6, `SameDayAt` only).
    Absent,
    /// Its day leaves the calendar (refusal 8).
    Outside,
}

/// 12:00: 'bis zum nächsten Werktag 12 Uhr', 'bis zum Sonntag, 12 Uhr'.
const NOON: u32 = 12;

/// The hours of a day.
const DAY_HOURS: u32 = DAY / HOUR;

/// The instant that many days and seconds later, with the nanoseconds of the receipt. No count of hours in 32 bits is
/// more than 178,956,970 days.
#[tactic(auto, unfolding(crate::specs::Fristen::instant_later, berlin::specs::Berlin::in_limits))]
fn instant_later(from: Moment, days: u32, seconds: u32) -> Result<Moment, NoDue>
    requires { (days ≤ 178956970) × (seconds < day_seconds) }
    ensures { result ≡ instant_later from (days * day_seconds + seconds) }
{
    let since_midnight = from.second + seconds;
    let utcday = from.utcday + days + since_midnight / DAY;
    let second = since_midnight % DAY;
    if !berlin::is_by_last(utcday as u64, second as u64) {
        return Err(NoDue::Outside);
    }
    Ok(Moment {
        utcday,
        second,
        nanos: from.nanos,
    })
}

/// The clock on a day.
fn clock_on(day: u32, at: Clock) -> Result<Moment, NoDue>
    requires { day ≤ last }
    ensures { result ≡ clock_on day at }
{
    berlin::berlin_at(day, at).ok_or(NoDue::Absent)
}

/// Monday is 0.
const SATURDAY: u32 = 5;

fn is_saturday(day: u32) -> bool
    ensures { result ≡ is_saturday day }
{
    datum::weekday(day) == SATURDAY
}

/// CONTRL AHB 1.0 Kap. 2.3.1 and 2.4.1: 'unverzüglich, jedoch spätestens 6 Stunden nach Erhalt'.
const CONTRL_FRIST: u32 = 6 * HOUR;

/// Kap. 2.4.1, a UTILMD or ORDERS on any day but Saturday: 'spätestens 15 Minuten nach Eingang'.
const CONTRL_STROM_SCHNELL: u32 = 15 * MINUTE;

/// Kap. 2.3.1, GABi Gas: 'binnen 45 Minuten nach Erhalt einer ALOCAT-Nachricht'.
const CONTRL_ALOCAT: u32 = 45 * MINUTE;

/// 18:00, from which on the tolerance of a Formatumstellung holds: 'vom 31.3. 18.00 Uhr bis 2.4. 00:00 Uhr', 'vom 30.9.
/// 18.00 Uhr bis 2.10. 00:00 Uhr'.
const WINDOW_OPENS: u32 = 18;

/// What the CONTRL answers, which decides its window: any interchange or APERAK not named by a shorter one; a Strom
/// UTILMD or ORDERS; a GABi-Gas ALOCAT from the NB to the MGV.
#[derive(Clone, Copy, PartialEq, Eq)]
pub enum ContrlAnlass {
    Regelfall,
    StromUtilmdOderOrders,
    GasAlocat,
}

/// How long after its receipt a CONTRL is due, before the tolerance. The receipt's day counts for a Strom UTILMD or
/// ORDERS alone.
#[tactic(auto, unfolding(crate::specs::Fristen::contrl_seconds))]
fn contrl_seconds(received: Moment, anlass: ContrlAnlass) -> u32
    ensures { (result ≡ contrl_seconds (receipt_day received) anlass) × (result < day_seconds) }
{
    match anlass {
        ContrlAnlass::Regelfall => CONTRL_FRIST,
        ContrlAnlass::StromUtilmdOderOrders => {
            if is_saturday(berlin::berlin_date(received)) {
                return CONTRL_FRIST;
            }
            CONTRL_STROM_SCHNELL
        }
        ContrlAnlass::GasAlocat => CONTRL_ALOCAT,
    }
}

/// When the CONTRL would be due without a tolerance.
fn before_tolerance(received: Moment, anlass: ContrlAnlass) -> Result<Moment, NoDue>
    ensures { result ≡ before_tolerance received anlass }
{
    instant_later(received, 0, contrl_seconds(received, anlass))
}

/// When the CONTRL on a message is due: '6 hours; 45 minutes for `GasAlocat`; `StromUtilmdOderOrders` 15 minutes, 6
/// hours if received on Saturday'. 'the Saturday test is on the receipt, the tolerance test on the due instant'.
///
/// Regelfall, received 31 March 2026 11:59:59 Berlin: 17:59:59. Received 12:00:00: 2 April 00:00.
#[tactic(auto, unfolding(crate::specs::Fristen::contrl_due_at))]
pub fn contrl_due_at(received: Moment, anlass: ContrlAnlass) -> Result<Moment, NoDue>
    ensures { result ≡ contrl_due_at received anlass }
{
    let due = before_tolerance(received, anlass)?;
    Ok(formatumstellung_toleranz(due))
}

/// When it is due if the Formatumstellung is on another day, the change day of document 02, F-7: 'the window runs from
/// 18:00 of the day before to 00:00 of the day after, and no other window exists in that call'. Outside for the
/// calendar's first day and its last, since there is no day before the one and none after the other.
///
/// Regelfall, change day 1 July 2026, received 30 June 11:59:59 Berlin: 17:59:59. Received 12:00:00: 2 July 00:00.
#[tactic(auto, unfolding(crate::specs::Fristen::contrl_due_at_change, zaehlung::specs::Walk::day_after))]
pub fn contrl_due_at_change(
    received: Moment,
    anlass: ContrlAnlass,
    change_day: u32,
) -> Result<Moment, NoDue>
    ensures { result ≡ contrl_due_at_change received anlass change_day }
{
    if change_day == 0 || LAST <= change_day {
        return Err(NoDue::Outside);
    }
    let due = before_tolerance(received, anlass)?;
    Ok(toleranz(due, change_day - 1, change_day + 1))
}

/// Whether an instant lies in the window from 18:00 of one day to the midnight that begins the other.
#[tactic(auto, using(berlin::proofs::Proper::never_absent), unfolding(crate::specs::Fristen::in_window))]
fn in_window(at: Moment, von: u32, bis: u32) -> bool
    requires { (von ≤ last) × (bis ≤ last) }
    ensures { result ≡ in_window von bis at }
{
    let opens = berlin::berlin_at(von, berlin::o_clock(WINDOW_OPENS)).unwrap();
    !berlin::is_before(at, opens) && berlin::is_before(at, berlin::berlin_midnight(bis))
}

/// What is due in the window from one day to the other is due at its end.
fn toleranz(due: Moment, von: u32, bis: u32) -> Moment
    requires { (von ≤ last) × (bis ≤ last) }
    ensures { result ≡ toleranz von bis due }
{
    if in_window(due, von, bis) {
        return berlin::berlin_midnight(bis);
    }
    due
}

/// Whether a date is a change day of version one: 1 April or 1 October.
fn is_change_day(date: Date) -> bool
    ensures { result ≡ is_change_day date }
{
    date.day == 1 && (date.month == 4 || date.month == 10)
}

/// Whether it is the day before one.
fn is_eve(date: Date) -> bool
    ensures { result ≡ is_eve date }
{
    date.day == 31 && date.month == 3 || date.day == 30 && date.month == 9
}

/// 'Abweichungen von diesen Fristen sind von den Marktpartnern zu akzeptieren im Zeitraum der Formatumstellung': what
/// is due in one is due at its end. The date tells the one window in which an instant may lie.
#[tactic(auto, using(crate::proofs::Rules::date_rules))]
fn formatumstellung_toleranz(due: Moment) -> Moment
    ensures { result ≡ formatumstellung_toleranz due }
{
    let day = berlin::berlin_date(due);
    let date = datum::date_of(day);
    if is_change_day(date) {
        return toleranz(due, day - 1, day + 1);
    }
    if is_eve(date) {
        return toleranz(due, day, day + 2);
    }
    due
}

/// APERAK AHB 1.1 Kap. 2.4.1: 'spätestens 45 Minuten nach Eingang der Übertragungsdatei'.
const APERAK_STROM_UTILMD_ORDERS: u32 = 45 * MINUTE;

/// When the Strom APERAK on a UTILMD or ORDERS is due: 'Wird an Samstagen eine UTILMD oder ORDERS übertragen, ..
/// spätestens bis zum Sonntag, 12 Uhr'. Sundays and holidays get 45 minutes.
///
/// Received on Saturday, 11 January 2025: Sunday, 12 January 12:00. On that Sunday at 10:00: 10:45.
#[tactic(auto, unfolding(crate::specs::Fristen::aperak_strom_due_at, zaehlung::specs::Walk::day_after))]
pub fn aperak_strom_due_at(received: Moment) -> Result<Moment, NoDue>
    ensures { result ≡ aperak_strom_due_at received }
{
    let day = berlin::berlin_date(received);
    if is_saturday(day) {
        if LAST <= day {
            return Err(NoDue::Outside);
        }
        return clock_on(day + 1, berlin::o_clock(NOON));
    }
    instant_later(received, 0, APERAK_STROM_UTILMD_ORDERS)
}

/// When any other Strom APERAK is due: 'bis zum nächsten Werktag 12 Uhr .. nach Eingang der Übertragungsdatei'. The
/// receipt day is never that Werktag. It is `next_werktag_at` at noon, under the original's name.
///
/// Received on Monday, 6 January 2025, a holiday: Tuesday, 7 January 12:00.
pub fn aperak_strom_allgemein_due_at(
    received: Moment,
    cal: HolidayCalendar,
) -> Result<Moment, NoDue>
    ensures { result ≡ aperak_strom_allgemein_due_at (is_werktag cal) received }
{
    next_werktag_at(received, berlin::o_clock(NOON), cal)
}

/// When the Gas APERAK of a follow-up process is due, APERAK AHB 1.1 Kap. 2.3.1: 'bis zum nächsten Werktag 12 Uhr ..
/// nach Eingang des Geschäftsvorfalls'. The receipt day is never that Werktag. It is `next_werktag_at` at noon, under
/// the original's name.
///
/// Received on Friday, 10 January 2025: Monday, 13 January 12:00.
pub fn aperak_gas_folgeprozess_due_at(
    received: Moment,
    cal: HolidayCalendar,
) -> Result<Moment, NoDue>
    ensures { result ≡ aperak_gas_folgeprozess_due_at (is_werktag cal) received }
{
    next_werktag_at(received, berlin::o_clock(NOON), cal)
}

/// When the Gas APERAK of an initial process is due, APERAK AHB 1.1 Kap. 2.3.1: 'spätestens 3 Werktage nach Eingang des
/// Geschäftsvorfalls', so the whole third Werktag. It is `end_of_werktag_after` of 3 Werktage, under the original's
/// name.
///
/// Received on Monday, 6 January 2025: the end of Thursday, 9 January.
pub fn aperak_gas_initialprozess_due_at(
    received: Moment,
    cal: HolidayCalendar,
) -> Result<Moment, NoDue>
    ensures { result ≡ aperak_gas_initialprozess_due_at (is_werktag cal) received }
{
    end_of_werktag_after(received, 3, cal)
}

/// The Gas Prüfidentifikatoren that open a process: Anmeldung NN, Kündigung beim alten Lieferanten, Kündigung MSB,
/// Anmeldung MSB (Anwendungsübersicht der Prüfidentifikatoren 4.0, 'ZO-F').
const GAS_INITIALPROZESS_PIDS: [u32; 4] = [44001, 44016, 44039, 44042];

#[tactic(auto, unfolding(crate::specs::Fristen::is_initial, zaehlung::specs::Lists::any))]
fn is_initial(pid: u32) -> bool
    ensures { result ≡ is_initial pid }
{
    GAS_INITIALPROZESS_PIDS.contains(&pid)
}

/// Which of the two Gas windows a process has.
#[derive(Clone, Copy, PartialEq, Eq)]
pub enum GasProzess {
    Initialprozess,
    Folgeprozess,
}

/// Which process a Prüfidentifikator belongs to: 'Gas initial (44001, 44016, 44039, 44042)'. Any other number is a
/// follow-up.
#[tactic(auto, unfolding(crate::specs::Fristen::gas_prozess))]
pub fn gas_prozess(pid: u32) -> GasProzess
    ensures { result ≡ gas_prozess pid }
{
    if is_initial(pid) {
        return GasProzess::Initialprozess;
    }
    GasProzess::Folgeprozess
}

/// Which process a Prüfidentifikator belongs to, and when its Gas APERAK is due.
///
/// Received on Monday, 6 January 2025: 44001, Anmeldung NN, initial, the end of Thursday, 9 January; 44051, Ende MSB, a
/// follow-up, Tuesday, 7 January 12:00.
#[tactic(auto, unfolding(crate::specs::Fristen::aperak_gas_due_at, crate::specs::Fristen::gas_prozess))]
pub fn aperak_gas_due_at(
    pid: u32,
    received: Moment,
    cal: HolidayCalendar,
) -> (GasProzess, Result<Moment, NoDue>)
    ensures prozess { result.0 ≡ gas_prozess pid }
    ensures due { result.1 ≡ aperak_gas_due_at (is_werktag cal) pid received }
{
    let prozess = gas_prozess(pid);
    let due = match prozess {
        GasProzess::Initialprozess => aperak_gas_initialprozess_due_at(received, cal),
        GasProzess::Folgeprozess => aperak_gas_folgeprozess_due_at(received, cal),
    };
    (prozess, due)
}

/// The clock on the first Werktag strictly after the receipt day.
///
/// Friday, 10 January 2025 14:00 and the clock 11:00: Monday, 13 January 11:00. The receipt day is never that Werktag.
pub fn next_werktag_at(received: Moment, at: Clock, cal: HolidayCalendar) -> Result<Moment, NoDue>
    ensures { result ≡ next_werktag_at (is_werktag cal) received at }
{
    nth_werktag_at(received, 1, at, cal)
}

/// The clock on the n-th Werktag after a day; with `n = 0` on the day itself.
#[tactic(auto, using(zaehlung::proofs::Laws::add_inside))]
fn nth_werktag_on(day: u32, n: u32, at: Clock, cal: HolidayCalendar) -> Result<Moment, NoDue>
    requires { day ≤ last }
    ensures { result ≡ nth_werktag_on (is_werktag cal) day n at }
{
    let due = schritte::nth_werktag_after(day, n, cal).ok_or(NoDue::Outside)?;
    clock_on(due, at)
}

/// The clock on the n-th Werktag strictly after the receipt day: 'spätester ÜZ ist .. Uhr des n. WT nach dem ÜT'.
///
/// With `n = 0`: as with 1, since the ÜT itself is not 'nach dem ÜT'.
///
/// Friday, 10 January 2025, two Werktage and the clock 11:00: Tuesday, 14 January 11:00.
#[tactic(auto, unfolding(crate::specs::Fristen::nth_werktag_at))]
pub fn nth_werktag_at(
    received: Moment,
    n: u32,
    at: Clock,
    cal: HolidayCalendar,
) -> Result<Moment, NoDue>
    ensures { result ≡ nth_werktag_at (is_werktag cal) received n at }
{
    nth_werktag_on(berlin::berlin_date(received), n.max(1), at, cal)
}

/// The end of the n-th Werktag after the receipt day: GeLi Gas, 'bis zum Ablauf des n. Werktags nach Eingang'.
///
/// With `werktage = 0`: the end of the receipt day, Werktag or not.
///
/// Monday, 6 January 2025 and 3 Werktage: the end of Thursday, 9 January.
#[tactic(auto, using(zaehlung::proofs::Laws::add_inside), unfolding(crate::specs::Fristen::end_of_werktag_after))]
pub fn end_of_werktag_after(
    received: Moment,
    werktage: u32,
    cal: HolidayCalendar,
) -> Result<Moment, NoDue>
    ensures { result ≡ end_of_werktag_after (is_werktag cal) received werktage }
{
    let day = berlin::berlin_date(received);
    let due = schritte::nth_werktag_after(day, werktage, cal).ok_or(NoDue::Outside)?;
    Ok(berlin::end_of_day_berlin(due))
}

/// That many hours later, weekends and holidays or not. They are hours that pass, not hours on the clock.
///
/// Saturday, 28 March 2026 23:00 and 6 hours: Sunday 06:00, since the clock is put forward that night.
pub fn add_hours(from: Moment, hours: u32) -> Result<Moment, NoDue>
    ensures { result ≡ add_hours from hours }
{
    instant_later(from, hours / DAY_HOURS, hours % DAY_HOURS * HOUR)
}

/// The end of the Werktag `werktage` Werktage after `from`: 'Ablauf des n. WT', 'spätester ÜT ist der n. WT nach dem
/// ÜT'. It is `end_of_werktag_after`, under the original's name.
///
/// With `werktage = 0`: the end of the receipt day. Monday, 6 January 2025 and 5: the end of Monday, 13 January.
pub fn deadline_at_werktage(
    from: Moment,
    werktage: u32,
    cal: HolidayCalendar,
) -> Result<Moment, NoDue>
    ensures { result ≡ deadline_at_werktage (is_werktag cal) from werktage }
{
    end_of_werktag_after(from, werktage, cal)
}

/// The shape of an answer's Frist: 'spätester ÜZ ist .. Uhr des n. WT nach dem ÜT'; 'bis zum Ablauf des n. Werktags
/// nach Eingang'; 'spätester ÜZ ist .. Uhr am ÜT'; 'am selben Tag wie ..'.
#[derive(Clone, Copy, PartialEq, Eq)]
pub enum FristShape {
    WerktagAt { werktage: u32, at: Clock },
    EndOfWerktag(u32),
    SameDayAt(Clock),
    SameDay,
}

/// The clock on the receipt day. From that time on, and on a day that is no Werktag, it is the clock on the first
/// Werktag after it, the second window of GPKE Teil 2. The clock is resolved on the receipt day in any case.
#[tactic(auto, unfolding(crate::specs::FristShape::same_day_at, crate::specs::Fristen::nth_werktag_at))]
fn same_day_at(received: Moment, at: Clock, cal: HolidayCalendar) -> Result<Moment, NoDue>
    ensures { result ≡ same_day_at (is_werktag cal) received at }
{
    let day = berlin::berlin_date(received);
    let same_day = clock_on(day, at)?;
    if werktag::is_werktag_at(day, cal) && berlin::is_before(received, same_day) {
        return Ok(same_day);
    }
    nth_werktag_on(day, 1, at, cal)
}

impl FristShape {
    /// When an answer of this shape is due.
    ///
    /// `SameDayAt` 12:00, received on Friday, 9 January 2026 at 12:00: Monday, 12 January 12:00; a second earlier, the
    /// same day.
    #[inline(always)]
    #[tactic(auto, unfolding(crate::specs::FristShape::due_at_of))]
    pub fn due_at(self, received: Moment, cal: HolidayCalendar) -> Result<Moment, NoDue>
        ensures { result ≡ due_at_of (is_werktag cal) self received }
    {
        // In line: at a call the instant goes through memory, which `EndOfWerktag` and `SameDay` would feel.
        match self {
            FristShape::WerktagAt { werktage, at } => nth_werktag_at(received, werktage, at, cal),
            FristShape::EndOfWerktag(n) => end_of_werktag_after(received, n, cal),
            FristShape::SameDayAt(at) => same_day_at(received, at, cal),
            FristShape::SameDay => Ok(berlin::end_of_day_berlin(berlin::berlin_date(received))),
        }
    }
}
