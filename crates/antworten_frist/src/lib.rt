// What the calls for due instants answer: document 01, refusals 2, 4, 5, 6 and 8, and document 02, F-7, where a date is
// given, 3. There is one function for each call of C, named as it.
#![tactic(auto)]

ghost use Rattle.std.specs.Prelude.{◌≡◌, ok_or, slice_get};
ghost use Rattle.werktag.specs.Werktag.{is_werktag};
ghost use Rattle.antwortsatz.specs.declared.Refusal.TheVariants.{UnknownCode};
ghost use Rattle.antworten_frist.specs.FristReading.{anlaesse, frist_shapes, due_answer, prozess_kind};
ghost use Rattle.antworten_frist.specs.Frist.{contrl_due_at_answer, contrl_due_at_change_answer};
ghost use Rattle.antworten_frist.specs.Frist.{aperak_strom_due_at_answer};
ghost use Rattle.antworten_frist.specs.Frist.{aperak_strom_allgemein_due_at_answer};
ghost use Rattle.antworten_frist.specs.Frist.{aperak_gas_folgeprozess_due_at_answer};
ghost use Rattle.antworten_frist.specs.Frist.{aperak_gas_initialprozess_due_at_answer};
ghost use Rattle.antworten_frist.specs.Frist.{aperak_gas_due_at_answer, add_hours_answer, deadline_at_werktage_answer};
ghost use Rattle.antworten_frist.specs.Frist.{end_of_werktag_after_answer, next_werktag_at_answer};
ghost use Rattle.antworten_frist.specs.Frist.{nth_werktag_at_answer};
ghost use Rattle.antworten_frist.specs.Frist.{frist_due_at_answer};

use antwortsatz::{Answer, Refusal};
use berlin::{Clock, Moment};
use datum::Date;
use fristen::{ContrlAnlass, FristShape, GasProzess, NoDue};
use werktag::HolidayCalendar;

pub mod theorems;

// The occasion of a code, in the Rust's order of its cases. No `TryFrom`: the codes are the C interface's, and the
// enum's crate knows none.
fn anlass_of(code: u8) -> Result<ContrlAnlass, Refusal>
    ensures { result ≡ ok_or (slice_get anlaesse code) UnknownCode }
{
    match code {
        0 => Ok(ContrlAnlass::Regelfall),
        1 => Ok(ContrlAnlass::StromUtilmdOderOrders),
        2 => Ok(ContrlAnlass::GasAlocat),
        _ => Err(Refusal::UnknownCode),
    }
}

// The seconds and nanoseconds of a due instant beside a kind, or refusal 6 or 8. No `From`: both types are of other
// crates.
fn due_answer(kind: u8, due: Result<Moment, NoDue>) -> Result<Answer, Refusal>
    ensures { result ≡ due_answer kind due }
{
    match due {
        Ok(at) => Ok(antwortsatz::at_instant(kind, berlin::seconds_of(at), at.nanos)),
        Err(NoDue::Absent) => Err(Refusal::LocalTimeAbsent),
        Err(NoDue::Outside) => Err(Refusal::LeavesCalendar),
    }
}

// "a Gas due instant [has] kind 1 for the initial process, else 0".
fn prozess_kind(prozess: GasProzess) -> u8
    ensures { result ≡ prozess_kind prozess }
{
    match prozess {
        GasProzess::Initialprozess => 1,
        GasProzess::Folgeprozess => 0,
    }
}

// The shape of a code, its count and clock, in the Rust's order of its cases; no shape where it uses the clock and that
// is none. A count or clock that the shape does not use is not looked at. No `TryFrom`, as for the occasion.
fn shape_of(code: u8, werktage: u32, clock: Option<Clock>) -> Result<Option<FristShape>, Refusal>
    ensures { result ≡ ok_or (slice_get (frist_shapes werktage clock) code) UnknownCode }
{
    match code {
        0 => Ok(clock.map(|at| FristShape::WerktagAt { werktage, at })),
        1 => Ok(Some(FristShape::EndOfWerktag(werktage))),
        2 => Ok(clock.map(FristShape::SameDayAt)),
        3 => Ok(Some(FristShape::SameDay)),
        _ => Err(Refusal::UnknownCode),
    }
}

/// When a CONTRL is due: 6 hours after its receipt, 45 minutes for `GasAlocat`; `StromUtilmdOderOrders` 15 minutes, 6
/// hours if received on Saturday; a due instant in the tolerance of a change of format becomes its end. Regelfall
/// received 31 March 2026 11:59:59 Berlin is due 17:59:59; received 12:00:00, 2 April 00:00. An unknown code goes
/// before the instant's limits.
#[tactic(auto, unfolding(crate::specs::Frist::contrl_due_at_answer))]
pub fn contrl_due_at_answer(instant: Option<Moment>, code: u8) -> Result<Answer, Refusal>
    ensures { result ≡ contrl_due_at_answer instant code }
{
    let anlass = anlass_of(code)?;
    let received = instant.ok_or(Refusal::InstantOutside)?;
    due_answer(0, fristen::contrl_due_at(received, anlass))
}

/// When a CONTRL is due if the Formatumstellung is on a date of the caller's, the change day: what is due from 18:00 of
/// the day before and before 00:00 of the day after is due then. With 6 June 2026, Regelfall received on the 5th
/// 11:59:59 Berlin is due 17:59:59; received 12:00:00, 7 June 00:00. The change day goes before the instant's limits;
/// refusal 8 also for the calendar's first day and its last.
#[tactic(auto, unfolding(crate::specs::Frist::contrl_due_at_change_answer))]
pub fn contrl_due_at_change_answer(
    instant: Option<Moment>,
    code: u8,
    change_day: Date,
) -> Result<Answer, Refusal>
    ensures { result ≡ contrl_due_at_change_answer instant code change_day }
{
    let anlass = anlass_of(code)?;
    let day = datum::index_of(change_day).ok_or(Refusal::NoDate)?;
    let received = instant.ok_or(Refusal::InstantOutside)?;
    due_answer(0, fristen::contrl_due_at_change(received, anlass, day))
}

/// When the Strom APERAK on a UTILMD or ORDERS is due: 45 minutes after its receipt; "Saturday gives Sunday 12:00".
/// "Only Saturday is special": received Saturday, 10 January 2026, it is due on the 11th at 12:00 Berlin, received that
/// Sunday, 45 minutes later.
#[tactic(auto, unfolding(crate::specs::Frist::aperak_strom_due_at_answer))]
pub fn aperak_strom_due_at_answer(instant: Option<Moment>) -> Result<Answer, Refusal>
    ensures { result ≡ aperak_strom_due_at_answer instant }
{
    let received = instant.ok_or(Refusal::InstantOutside)?;
    due_answer(0, fristen::aperak_strom_due_at(received))
}

/// When any other Strom APERAK is due: "12:00 of the first Werktag after the receipt day". Received 2 April 2026, it is
/// due on 7 April at 12:00 Berlin.
#[tactic(auto, unfolding(crate::specs::Frist::aperak_strom_allgemein_due_at_answer))]
pub fn aperak_strom_allgemein_due_at_answer(
    instant: Option<Moment>,
    cal: HolidayCalendar,
) -> Result<Answer, Refusal>
    ensures { result ≡ aperak_strom_allgemein_due_at_answer (is_werktag cal) instant }
{
    let received = instant.ok_or(Refusal::InstantOutside)?;
    due_answer(0, fristen::aperak_strom_allgemein_due_at(received, cal))
}

/// When the Gas APERAK of a follow-up process is due, kind 0: 12:00 of the first Werktag after the receipt day, as
/// received 2 April 2026 on 7 April.
#[tactic(auto, unfolding(crate::specs::Frist::aperak_gas_folgeprozess_due_at_answer))]
pub fn aperak_gas_folgeprozess_due_at_answer(
    instant: Option<Moment>,
    cal: HolidayCalendar,
) -> Result<Answer, Refusal>
    ensures { result ≡ aperak_gas_folgeprozess_due_at_answer (is_werktag cal) instant }
{
    let received = instant.ok_or(Refusal::InstantOutside)?;
    due_answer(0, fristen::aperak_gas_folgeprozess_due_at(received, cal))
}

/// When the Gas APERAK of an initial process is due, kind 1: "end of the third Werktag after the receipt day". Received
/// 2 April 2026, it is due at the end of 9 April.
#[tactic(auto, unfolding(crate::specs::Frist::aperak_gas_initialprozess_due_at_answer))]
pub fn aperak_gas_initialprozess_due_at_answer(
    instant: Option<Moment>,
    cal: HolidayCalendar,
) -> Result<Answer, Refusal>
    ensures { result ≡ aperak_gas_initialprozess_due_at_answer (is_werktag cal) instant }
{
    let received = instant.ok_or(Refusal::InstantOutside)?;
    due_answer(1, fristen::aperak_gas_initialprozess_due_at(received, cal))
}

/// When the Gas APERAK of a Prüfidentifikator is due, "kind 1 for the initial process, else 0": 44001, 44016, 44039 and
/// 44042 are initial, any other number is a follow-up. 44001 received 2 April 2026 is due at the end of 9 April, 44002
/// on 7 April at 12:00.
#[tactic(auto, unfolding(crate::specs::Frist::aperak_gas_due_at_answer))]
pub fn aperak_gas_due_at_answer(
    pid: u32,
    instant: Option<Moment>,
    cal: HolidayCalendar,
) -> Result<Answer, Refusal>
    ensures { result ≡ aperak_gas_due_at_answer (is_werktag cal) pid instant }
{
    let received = instant.ok_or(Refusal::InstantOutside)?;
    let (prozess, due) = fristen::aperak_gas_due_at(pid, received, cal);
    due_answer(prozess_kind(prozess), due)
}

/// Some hours later, counted on the time line and not on the clock: 28 March 2026 12:00 Berlin and 24 hours is 29 March
/// 13:00. Refusal 8 past the last day.
#[tactic(auto, unfolding(crate::specs::Frist::add_hours_answer))]
pub fn add_hours_answer(instant: Option<Moment>, hours: u32) -> Result<Answer, Refusal>
    ensures { result ≡ add_hours_answer instant hours }
{
    let from = instant.ok_or(Refusal::InstantOutside)?;
    due_answer(0, fristen::add_hours(from, hours))
}

/// The end of the n-th Werktag after the Berlin day of an instant, 23:59:59.999999999; with 0 that day's own end,
/// Werktag or not. From 2 April 2026 with 1: the end of 7 April.
#[tactic(auto, unfolding(crate::specs::Frist::deadline_at_werktage_answer))]
pub fn deadline_at_werktage_answer(
    instant: Option<Moment>,
    werktage: u32,
    cal: HolidayCalendar,
) -> Result<Answer, Refusal>
    ensures { result ≡ deadline_at_werktage_answer (is_werktag cal) instant werktage }
{
    let from = instant.ok_or(Refusal::InstantOutside)?;
    due_answer(0, fristen::deadline_at_werktage(from, werktage, cal))
}

/// The end of the n-th Werktag after the receipt day; with 0 that day's own end. Received 2 April 2026, with 3: the end
/// of 9 April.
#[tactic(auto, unfolding(crate::specs::Frist::end_of_werktag_after_answer))]
pub fn end_of_werktag_after_answer(
    instant: Option<Moment>,
    werktage: u32,
    cal: HolidayCalendar,
) -> Result<Answer, Refusal>
    ensures { result ≡ end_of_werktag_after_answer (is_werktag cal) instant werktage }
{
    let received = instant.ok_or(Refusal::InstantOutside)?;
    due_answer(0, fristen::end_of_werktag_after(received, werktage, cal))
}

/// A clock time on the first Werktag after the receipt day: received 2 April 2026, 12:00 of 7 April. The instant goes
/// before the clock: 4 before 5.
#[tactic(auto, unfolding(crate::specs::Frist::next_werktag_at_answer))]
pub fn next_werktag_at_answer(
    instant: Option<Moment>,
    clock: Option<Clock>,
    cal: HolidayCalendar,
) -> Result<Answer, Refusal>
    ensures { result ≡ next_werktag_at_answer (is_werktag cal) instant clock }
{
    let received = instant.ok_or(Refusal::InstantOutside)?;
    let at = clock.ok_or(Refusal::NoClock)?;
    due_answer(0, fristen::next_werktag_at(received, at, cal))
}

/// A clock time on the n-th Werktag after the receipt day; "with 0 equals 1". Received 2 April 2026, with 2: 8 April.
#[tactic(auto, unfolding(crate::specs::Frist::nth_werktag_at_answer))]
pub fn nth_werktag_at_answer(
    instant: Option<Moment>,
    n: u32,
    clock: Option<Clock>,
    cal: HolidayCalendar,
) -> Result<Answer, Refusal>
    ensures { result ≡ nth_werktag_at_answer (is_werktag cal) instant n clock }
{
    let received = instant.ok_or(Refusal::InstantOutside)?;
    let at = clock.ok_or(Refusal::NoClock)?;
    due_answer(0, fristen::nth_werktag_at(received, n, at, cal))
}

/// When an answer of a shape is due. "`SameDayAt` received exactly at the clock time goes to the next Werktag": 12:00,
/// received 9 January 2026 12:00, is 12 January 12:00. "An absent clock there is refused", with 6. A clock or count
/// that the shape does not use is not looked at.
#[inline(always)]
#[tactic(auto, unfolding(crate::specs::Frist::frist_due_at_answer))]
pub fn frist_due_at_answer(
    code: u8,
    werktage: u32,
    clock: Option<Clock>,
    instant: Option<Moment>,
    cal: HolidayCalendar,
) -> Result<Answer, Refusal>
    ensures { result ≡ frist_due_at_answer (is_werktag cal) code werktage clock instant }
{
    // In line: handed on as values, clock, instant and answer go through memory, which a call feels.
    let known = shape_of(code, werktage, clock)?;
    let received = instant.ok_or(Refusal::InstantOutside)?;
    let shape = known.ok_or(Refusal::NoClock)?;
    due_answer(0, shape.due_at(received, cal))
}
