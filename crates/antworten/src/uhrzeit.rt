// Clock on a date (document 01, refusals 3, 5, 6) and day of an instant (4, 7).
ghost use Rattle.std.specs.Prelude.{◌≡◌, ◌<◌, length, get_or, ok_or, slice_get};
ghost use Rattle.antwortsatz.specs.declared.Refusal.TheVariants.{UnknownCode};
ghost use Rattle.antworten.specs.Reading.{sparten, moment_answer, resolved_answer};
ghost use Rattle.antworten.specs.Uhrzeit.{berlin_at_answer, berlin_midnight_answer, end_of_day_berlin_answer};
ghost use Rattle.antworten.specs.Uhrzeit.{tagesbeginn_utc_answer, berlin_date_answer, tag_des_beginns_answer};

use antwortsatz::{Answer, Refusal};
use berlin::{Clock, Moment, Sparte};
use datum::Date;

/// How many Sparten have a code.
pub const SPARTEN: u8 = 2;

/// The Sparte of a code, in the Rust's order of its cases: 0 is Strom, 1 Gas. Whoever calls has refused any other.
pub fn sparte_of(code: u8) -> Sparte
    requires { code < length sparten }
    ensures { result ≡ get_or sparten code Sparte.Strom }
{
    match code {
        0 => Sparte::Strom,
        _ => Sparte::Gas,
    }
}

/// The Sparte of any code, and refusal 2 where it is none: that of 2. No `TryFrom`: both types are of other crates.
pub fn read_sparte(code: u8) -> Result<Sparte, Refusal>
    ensures { result ≡ ok_or (slice_get sparten code) UnknownCode }
{
    if SPARTEN <= code {
        return Err(Refusal::UnknownCode);
    }
    Ok(sparte_of(code))
}

/// The seconds and nanoseconds of an instant.
fn moment_answer(at: Moment) -> Answer
    ensures { result ≡ moment_answer 0 at }
{
    antwortsatz::at_instant(0, berlin::seconds_of(at), at.nanos)
}

/// The instant of a local time, or refusal 6.
fn resolved_answer(resolved: Option<Moment>) -> Result<Answer, Refusal>
    ensures { result ≡ resolved_answer resolved }
{
    let at = resolved.ok_or(Refusal::LocalTimeAbsent)?;
    Ok(moment_answer(at))
}

/// The instant at which the Berlin clock shows a time on a date. "A repeated local time means its earlier instant. An
/// absent one .. is refusal 6": 25 October 2026 02:30 is 00:30 UTC, 29 March 02:30 is refused. A date that is none goes
/// before a clock that is none.
#[tactic(auto, using(crate::proofs::Rules::day_rules), unfolding(crate::specs::Uhrzeit::berlin_at_answer))]
pub fn berlin_at_answer(date: Date, clock: Option<Clock>) -> Result<Answer, Refusal>
    ensures { result ≡ berlin_at_answer date clock }
{
    let day = datum::index_of(date).ok_or(Refusal::NoDate)?;
    let at = clock.ok_or(Refusal::NoClock)?;
    resolved_answer(berlin::berlin_at(day, at))
}

/// The first instant of a Berlin day: 9 January 2026 begins on the 8th at 23:00 UTC, 9 July on the 8th at 22:00.
#[tactic(auto, using(crate::proofs::Rules::day_rules), unfolding(crate::specs::Uhrzeit::berlin_midnight_answer))]
pub fn berlin_midnight_answer(date: Date) -> Result<Answer, Refusal>
    ensures { result ≡ berlin_midnight_answer date }
{
    let day = datum::index_of(date).ok_or(Refusal::NoDate)?;
    Ok(moment_answer(berlin::berlin_midnight(day)))
}

/// "An end of day is 23:59:59.999999999": that of 9 January 2026 is 22:59:59.999999999 UTC.
#[tactic(auto, using(crate::proofs::Rules::day_rules), unfolding(crate::specs::Uhrzeit::end_of_day_berlin_answer))]
pub fn end_of_day_berlin_answer(date: Date) -> Result<Answer, Refusal>
    ensures { result ≡ end_of_day_berlin_answer date }
{
    let day = datum::index_of(date).ok_or(Refusal::NoDate)?;
    Ok(moment_answer(berlin::end_of_day_berlin(day)))
}

/// The instant at which a day begins: "Strom begins at 00:00, Gas at 06:00 Berlin." The Gas day 29 March 2026 begins at
/// 04:00 UTC. An unknown code goes before a date that is none.
#[tactic(auto, using(crate::proofs::Rules::day_rules), unfolding(crate::specs::Uhrzeit::tagesbeginn_utc_answer))]
pub fn tagesbeginn_utc_answer(date: Date, code: u8) -> Result<Answer, Refusal>
    ensures { result ≡ tagesbeginn_utc_answer date code }
{
    let sparte = read_sparte(code)?;
    let day = datum::index_of(date).ok_or(Refusal::NoDate)?;
    Ok(moment_answer(berlin::tagesbeginn_utc(day, sparte)))
}

/// The Berlin date of an instant, not the UTC date: 8 January 2026 23:30 UTC is 9 January.
#[tactic(auto, unfolding(crate::specs::Uhrzeit::berlin_date_answer))]
pub fn berlin_date_answer(instant: Option<Moment>) -> Result<Answer, Refusal>
    ensures { result ≡ berlin_date_answer instant }
{
    let at = instant.ok_or(Refusal::InstantOutside)?;
    Ok(antwortsatz::dated(datum::date_of(berlin::berlin_date(at))))
}

/// The date of the day that begins at an instant in a Sparte, else refusal 7: 29 March 2026 04:00 UTC begins the Gas
/// day 29 March, and no Strom day.
#[tactic(auto, unfolding(crate::specs::Uhrzeit::tag_des_beginns_answer))]
pub fn tag_des_beginns_answer(instant: Option<Moment>, code: u8) -> Result<Answer, Refusal>
    ensures { result ≡ tag_des_beginns_answer instant code }
{
    let sparte = read_sparte(code)?;
    let at = instant.ok_or(Refusal::InstantOutside)?;
    let day = berlin::tag_des_beginns(at, sparte).ok_or(Refusal::NoBeginning)?;
    Ok(antwortsatz::dated(datum::date_of(day)))
}
