// What the calls answer that give verdicts, spans, deregistrations and the 13:00 announcement: document 01, refusals 2,
// 3, 4, 7 and 8. There is one function for each call of C, named as it.
#![tactic(auto)]

ghost use Rattle.std.specs.Prelude.{◌≡◌, ok_or, slice_get};
ghost use Rattle.datum.specs.Calendar.{index_of};
ghost use Rattle.datum.specs.Monate.{M};
ghost use Rattle.werktag.specs.Werktag.{is_werktag};
ghost use Rattle.vorlauf.specs.Span.{span_from};
ghost use Rattle.antworten.specs.Reading.{on_date};
ghost use Rattle.antwortsatz.specs.declared.Refusal.TheVariants.{UnknownCode};
ghost use Rattle.antworten_vorlauf.specs.VorlaufReading.{vorlauf_shapes, eeg_marks, verdict_answer, abmeldung_answer};
ghost use Rattle.antworten_vorlauf.specs.VorlaufReading.{judged_answer, ends_answer, span_answer, case_code};
ghost use Rattle.antworten_vorlauf.specs.VorlaufReading.{announced_answer};
ghost use Rattle.antworten_vorlauf.specs.Vorlauf.{vorlauf_check_answer, check_at_instants, vorlauf_check_at_answer};
ghost use Rattle.antworten_vorlauf.specs.Vorlauf.{vorlauf_span_answer, abmeldung_fuer_answer, abmeldung_check_answer};
ghost use Rattle.antworten_vorlauf.specs.Vorlauf.{eog_ankuendigung_fristgerecht_answer};

use ankuendigung::Fristgerecht;
use antwortsatz::{Answer, Refusal};
use berlin::{Moment, Sparte};
use datum::Date;
use vorlauf::abmeldung::{AbmeldungVorlauf, Eeg, NoVerdict};
use vorlauf::{Judgement, Span, VorlaufShape, VorlaufVerdict};
use werktag::HolidayCalendar;

// The shape of a code and its counts, in the Rust's order of its cases. No `TryFrom`: the codes are the C interface's,
// and the enum's crate knows none. The three numbers stand as in the call: a struct of them would be taken apart here
// alone.
fn shape_of(code: u8, count: u32, count2: u32) -> Result<VorlaufShape, Refusal>
    ensures { result ≡ ok_or (slice_get (vorlauf_shapes count count2) code) UnknownCode }
{
    match code {
        0 => Ok(VorlaufShape::LatestWerktageBefore(count)),
        1 => Ok(VorlaufShape::WindowWerktageBefore {
            earliest: count,
            latest: count2,
        }),
        2 => Ok(VorlaufShape::LatestWerktageAfter(count)),
        3 => Ok(VorlaufShape::EarliestWerktageAfter(count)),
        4 => Ok(VorlaufShape::Korridor(count)),
        5 => Ok(VorlaufShape::TagVorDemLetztenWerktagVor),
        6 => Ok(VorlaufShape::LatestMonateBefore(count)),
        7 => Ok(VorlaufShape::LatestMonateUndWerktageBefore {
            monate: count,
            werktage: count2,
        }),
        _ => Err(Refusal::UnknownCode),
    }
}

// The EEG mark of a code: "0 no, 1 yes, 2 unknown". No `TryFrom`, as for the shape.
fn eeg_of(code: u8) -> Result<Eeg, Refusal>
    ensures { result ≡ ok_or (slice_get eeg_marks code) UnknownCode }
{
    match code {
        0 => Ok(Eeg::Nein),
        1 => Ok(Eeg::Ja),
        2 => Ok(Eeg::Unbekannt),
        _ => Err(Refusal::UnknownCode),
    }
}

// Kind, Werktage and date of a verdict, with its margin.
fn judged_answer(judgement: Judgement) -> Answer
    ensures { result ≡ judged_answer judgement }
{
    let (verdict, margin) = judgement;
    match verdict {
        VorlaufVerdict::Ok => antwortsatz::judged(0, 0, None, margin),
        VorlaufVerdict::TooLate {
            shortfall_wt,
            earliest_possible,
        } => antwortsatz::judged(1, shortfall_wt, Some(earliest_possible.date), margin),
        VorlaufVerdict::TooEarly { excess_wt } => antwortsatz::judged(2, excess_wt, None, margin),
    }
}

// The same, or refusal 8.
fn verdict_answer(found: Option<Judgement>) -> Result<Answer, Refusal>
    ensures { result ≡ verdict_answer found }
{
    let judgement = found.ok_or(Refusal::LeavesCalendar)?;
    Ok(judged_answer(judgement))
}

// That of a deregistration, or kind 3 where it has no shape.
fn abmeldung_answer(found: Result<Judgement, NoVerdict>) -> Result<Answer, Refusal>
    ensures { result ≡ abmeldung_answer found }
{
    match found {
        Ok(judgement) => Ok(judged_answer(judgement)),
        Err(NoVerdict::NoShape) => Ok(antwortsatz::of_kind(3)),
        Err(NoVerdict::Outside) => Err(Refusal::LeavesCalendar),
    }
}

// Kind and ends of a span.
fn ends_answer(span: Span) -> Answer
    ensures { result ≡ ends_answer span }
{
    match span {
        Span::From(first) => antwortsatz::spanned(0, first.date, None),
        Span::Both(first, last) => antwortsatz::spanned(1, first.date, Some(last.date)),
        Span::Empty => antwortsatz::of_kind(2),
    }
}

// The same, or refusal 8.
fn span_answer(found: Option<Span>) -> Result<Answer, Refusal>
    ensures { result ≡ span_answer found }
{
    let span = found.ok_or(Refusal::LeavesCalendar)?;
    Ok(ends_answer(span))
}

fn case_code(found: AbmeldungVorlauf) -> u8
    ensures { result ≡ case_code found }
{
    found as u8
}

// Yes, no or neither, or refusal 8.
fn announced_answer(found: Option<Fristgerecht>) -> Result<Answer, Refusal>
    ensures { result ≡ announced_answer found }
{
    let fristgerecht = found.ok_or(Refusal::LeavesCalendar)?;
    Ok(antwortsatz::of_kind(fristgerecht as u8))
}

/// The verdict of a shape on a transmission date and an anchor: "Kind 0 Ok, 1 TooLate, 2 TooEarly", with its Werktage,
/// its earliest date and its margin. `LatestWerktageBefore(1)` for 10 January 2026, a Saturday, against Monday, the
/// 12th: TooLate, 0, the very Monday, and -1. A code goes before the dates; a count that the shape does not use is not
/// looked at.
#[tactic(auto, unfolding(crate::specs::Vorlauf::vorlauf_check_answer))]
pub fn vorlauf_check_answer(
    code: u8,
    count: u32,
    count2: u32,
    first: Date,
    second: Date,
    cal: HolidayCalendar,
) -> Result<Answer, Refusal>
    ensures { result ≡ vorlauf_check_answer (is_werktag cal) code count count2 first second }
{
    let shape = shape_of(code, count, count2)?;
    let uebertragungstag = datum::tage::tag_of(first).ok_or(Refusal::NoDate)?;
    let anchor = datum::tage::tag_of(second).ok_or(Refusal::NoDate)?;
    verdict_answer(shape.check(uebertragungstag, anchor, cal))
}

// The verdict for a transmission instant and an anchor that begins a day in a Sparte.
#[tactic(auto, unfolding(crate::specs::Vorlauf::check_at_instants))]
fn check_at_instants(
    shape: VorlaufShape,
    sparte: Sparte,
    instant: Option<Moment>,
    beginning: Option<Moment>,
    cal: HolidayCalendar,
) -> Result<Answer, Refusal>
    ensures { result ≡ check_at_instants (is_werktag cal) shape sparte instant beginning }
{
    let transmitted = instant.ok_or(Refusal::InstantOutside)?;
    let begins = beginning.ok_or(Refusal::InstantOutside)?;
    let day = berlin::tag_des_beginns(begins, sparte).ok_or(Refusal::NoBeginning)?;
    let anchor = datum::tage::tag_at(day);
    let uebertragungstag = datum::tage::tag_at(berlin::berlin_date(transmitted));
    verdict_answer(shape.check(uebertragungstag, anchor, cal))
}

/// The same with a transmission instant and an anchor given as a day's beginning: "4 for either, 7 for the anchor, 8".
/// The transmission day is the Berlin day in both Sparten, and only the anchor goes by the Sparte: in Gas, 12 January
/// 2026 05:00 UTC is the anchor of 12 January, and in Strom it begins no day.
#[tactic(auto, unfolding(crate::specs::Vorlauf::vorlauf_check_at_answer))]
pub fn vorlauf_check_at_answer(
    code: u8,
    count: u32,
    count2: u32,
    sparte: u8,
    instant: Option<Moment>,
    beginning: Option<Moment>,
    cal: HolidayCalendar,
) -> Result<Answer, Refusal>
    ensures { result ≡ vorlauf_check_at_answer (is_werktag cal) code count count2 sparte instant beginning }
{
    let shape = shape_of(code, count, count2)?;
    let anchor_by = antworten::uhrzeit::read_sparte(sparte)?;
    check_at_instants(shape, anchor_by, instant, beginning, cal)
}

// The span of `LatestMonateBefore`: M(n, date) is a matter of dates, and takes half the time of that on a day.
#[inline(always)]
fn month_span_answer(date: Date, n: u32) -> Result<Answer, Refusal>
    ensures { result ≡ on_date (index_of date) (λ t. span_answer (span_from (M n t))) }
{
    if !datum::is_date(date) {
        return Err(Refusal::NoDate);
    }
    // Matched: with `ok_or` and `?` the proof did not close.
    match datum::monate::months_or_first_date(date, n) {
        Some(first) => Ok(antwortsatz::spanned(0, first, None)),
        None => Err(Refusal::LeavesCalendar),
    }
}

/// The anchors that a shape takes for a transmission date: "Kind 0 no last day, 1 both, 2 empty with both dates zero".
/// `LatestWerktageBefore(1)` for 10 January 2026: from 13 January on. The window of 1 and 1 for that day is empty.
#[inline(always)]
#[tactic(auto, unfolding(crate::specs::Vorlauf::vorlauf_span_answer, vorlauf::specs::Span::span_of))]
pub fn vorlauf_span_answer(
    code: u8,
    count: u32,
    count2: u32,
    date: Date,
    cal: HolidayCalendar,
) -> Result<Answer, Refusal>
    ensures { result ≡ vorlauf_span_answer (is_werktag cal) code count count2 date }
{
    // In line, as that of months: handed on as a value, the answer goes through memory, which a call feels.
    let shape = shape_of(code, count, count2)?;
    if let VorlaufShape::LatestMonateBefore(n) = shape {
        return month_span_answer(date, n);
    }
    let uebertragungstag = datum::tage::tag_of(date).ok_or(Refusal::NoDate)?;
    span_answer(shape.span(uebertragungstag, cal))
}

/// The case of a deregistration by its reason and EEG mark: "only the three bytes "ZQ7" are the deactivation reason;
/// "zq7", "ZQ7 " and an empty reason are ordinary". "ZQ7" has kind 3, `AnPruefschritt120`, with any known mark.
#[tactic(auto, unfolding(crate::specs::Vorlauf::abmeldung_fuer_answer))]
pub fn abmeldung_fuer_answer(reason: &[u8], code: u8) -> Result<Answer, Refusal>
    ensures { result ≡ abmeldung_fuer_answer reason.now code }
{
    let eeg = eeg_of(code)?;
    Ok(antwortsatz::of_kind(case_code(AbmeldungVorlauf::fuer(reason, eeg))))
}

/// The verdict of a deregistration, kind 3 where its case has no shape: "ZQ7, or an unknown EEG mark". "A
/// deregistration's two dates are checked even where it has no shape." An ordinary one, without EEG, on 8 January 2026
/// for the 9th: TooLate, 1, 10 January, -1.
#[tactic(auto, unfolding(crate::specs::Vorlauf::abmeldung_check_answer))]
pub fn abmeldung_check_answer(
    reason: &[u8],
    code: u8,
    first: Date,
    second: Date,
    cal: HolidayCalendar,
) -> Result<Answer, Refusal>
    ensures { result ≡ abmeldung_check_answer (is_werktag cal) reason.now code first second }
{
    let eeg = eeg_of(code)?;
    let uebertragungstag = datum::tage::tag_of(first).ok_or(Refusal::NoDate)?;
    let zuordnungsende = datum::tage::tag_of(second).ok_or(Refusal::NoDate)?;
    let vorlauf = AbmeldungVorlauf::fuer(reason, eeg);
    abmeldung_answer(vorlauf.check(uebertragungstag, zuordnungsende, cal))
}

/// Whether an announcement keeps its Frist, 13:00 of the last Werktag before the beginning: "13:00 exactly is yes. From
/// midnight of the beginning on the answer is neither yes nor no." For 12 January 2026: 9 January 13:00 yes, a
/// nanosecond later no, 12 January 00:00 neither. "3; 4; 8 for the last Werktag, only if the instant is before the
/// beginning."
#[tactic(auto, unfolding(crate::specs::Vorlauf::eog_ankuendigung_fristgerecht_answer))]
pub fn eog_ankuendigung_fristgerecht_answer(
    instant: Option<Moment>,
    date: Date,
    cal: HolidayCalendar,
) -> Result<Answer, Refusal>
    ensures { result ≡ eog_ankuendigung_fristgerecht_answer (is_werktag cal) instant date }
{
    let zuordnungsbeginn = datum::tage::tag_of(date).ok_or(Refusal::NoDate)?;
    let uez = instant.ok_or(Refusal::InstantOutside)?;
    announced_answer(ankuendigung::eog_ankuendigung_fristgerecht(uez, zuordnungsbeginn, cal))
}
