// Verdicts, spans, deregistrations and the 13:00 announcement.
ghost use Rattle.std.specs.Prelude.{◌≡◌};
ghost use Rattle.werktag.specs.declared.HolidayCalendar.TheVariants.{BdewMaKo};
ghost use Rattle.werktag.specs.Werktag.{is_werktag};
ghost use Rattle.antwortsatz.specs.Bytes.{reply};
ghost use Rattle.berlin.specs.Berlin.{read_instant};
ghost use Rattle.antworten.specs.Reading.{date_from};
ghost use Rattle.antworten_vorlauf.specs.Vorlauf.{vorlauf_check_answer, vorlauf_check_at_answer, vorlauf_span_answer};
ghost use Rattle.antworten_vorlauf.specs.Vorlauf.{abmeldung_fuer_answer, abmeldung_check_answer};
ghost use Rattle.antworten_vorlauf.specs.Vorlauf.{eog_ankuendigung_fristgerecht_answer};

/// [`mako_fristen::mf_vorlauf_check`] for C.
#[unsafe(no_mangle)]
pub extern "C" fn mf_vorlauf_check(
    shape: u8,
    count: u32,
    count2: u32,
    year: u16,
    month: u8,
    day: u8,
    year2: u16,
    month2: u8,
    day2: u8,
    answer: &mut [u8],
) -> u8
    ensures { (result, answer.new) ≡ reply answer.old
        (vorlauf_check_answer (is_werktag BdewMaKo) shape count count2 (date_from year month day)
        (date_from year2 month2 day2)) }
{
    mako_fristen::mf_vorlauf_check(
        shape, count, count2, year, month, day, year2, month2, day2, answer,
    )
}

/// [`mako_fristen::mf_vorlauf_check_at`] for C.
#[unsafe(no_mangle)]
pub extern "C" fn mf_vorlauf_check_at(
    shape: u8,
    count: u32,
    count2: u32,
    seconds: i64,
    nanos: u32,
    seconds2: i64,
    nanos2: u32,
    sparte: u8,
    answer: &mut [u8],
) -> u8
    ensures { (result, answer.new) ≡ reply answer.old
        (vorlauf_check_at_answer (is_werktag BdewMaKo) shape count count2 sparte (read_instant seconds nanos)
        (read_instant seconds2 nanos2)) }
{
    mako_fristen::mf_vorlauf_check_at(
        shape, count, count2, seconds, nanos, seconds2, nanos2, sparte, answer,
    )
}

/// [`mako_fristen::mf_vorlauf_span`] for C.
#[unsafe(no_mangle)]
pub extern "C" fn mf_vorlauf_span(
    shape: u8,
    count: u32,
    count2: u32,
    year: u16,
    month: u8,
    day: u8,
    answer: &mut [u8],
) -> u8
    ensures { (result, answer.new) ≡ reply answer.old
        (vorlauf_span_answer (is_werktag BdewMaKo) shape count count2 (date_from year month day)) }
{
    mako_fristen::mf_vorlauf_span(shape, count, count2, year, month, day, answer)
}

/// [`mako_fristen::mf_abmeldung_fuer`] for C.
#[unsafe(no_mangle)]
pub extern "C" fn mf_abmeldung_fuer(reason: &[u8], eeg: u8, answer: &mut [u8]) -> u8
    ensures { (result, answer.new) ≡ reply answer.old
        (abmeldung_fuer_answer reason.now eeg) }
{
    mako_fristen::mf_abmeldung_fuer(reason, eeg, answer)
}

/// [`mako_fristen::mf_abmeldung_check`] for C.
#[unsafe(no_mangle)]
pub extern "C" fn mf_abmeldung_check(
    reason: &[u8],
    eeg: u8,
    year: u16,
    month: u8,
    day: u8,
    year2: u16,
    month2: u8,
    day2: u8,
    answer: &mut [u8],
) -> u8
    ensures { (result, answer.new) ≡ reply answer.old
        (abmeldung_check_answer (is_werktag BdewMaKo) reason.now eeg (date_from year month day)
        (date_from year2 month2 day2)) }
{
    mako_fristen::mf_abmeldung_check(reason, eeg, year, month, day, year2, month2, day2, answer)
}

/// [`mako_fristen::mf_eog_ankuendigung_fristgerecht`] for C.
#[unsafe(no_mangle)]
pub extern "C" fn mf_eog_ankuendigung_fristgerecht(
    seconds: i64,
    nanos: u32,
    year: u16,
    month: u8,
    day: u8,
    answer: &mut [u8],
) -> u8
    ensures { (result, answer.new) ≡ reply answer.old
        (eog_ankuendigung_fristgerecht_answer (is_werktag BdewMaKo) (read_instant seconds nanos)
        (date_from year month day)) }
{
    mako_fristen::mf_eog_ankuendigung_fristgerecht(seconds, nanos, year, month, day, answer)
}
