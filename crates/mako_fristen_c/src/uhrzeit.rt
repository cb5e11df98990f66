// Clock on a date (document 01, refusals 3, 5, 6) and day of an instant (4, 7).
ghost use Rattle.std.specs.Prelude.{◌≡◌};
ghost use Rattle.antwortsatz.specs.Bytes.{reply};
ghost use Rattle.berlin.specs.Berlin.{read_instant, read_clock};
ghost use Rattle.antworten.specs.Reading.{date_from};
ghost use Rattle.antworten.specs.Uhrzeit.{berlin_at_answer, berlin_midnight_answer, end_of_day_berlin_answer};
ghost use Rattle.antworten.specs.Uhrzeit.{tagesbeginn_utc_answer, berlin_date_answer, tag_des_beginns_answer};

/// [`mako_fristen::mf_berlin_at`] for C.
#[unsafe(no_mangle)]
pub extern "C" fn mf_berlin_at(
    year: u16,
    month: u8,
    day: u8,
    hour: u8,
    minute: u8,
    second: u8,
    nanos_of_second: u32,
    answer: &mut [u8],
) -> u8
    ensures { (result, answer.new) ≡ reply answer.old
        (berlin_at_answer (date_from year month day) (read_clock hour minute second nanos_of_second)) }
{
    mako_fristen::mf_berlin_at(
        year,
        month,
        day,
        hour,
        minute,
        second,
        nanos_of_second,
        answer,
    )
}

/// [`mako_fristen::mf_berlin_midnight`] for C.
#[unsafe(no_mangle)]
pub extern "C" fn mf_berlin_midnight(year: u16, month: u8, day: u8, answer: &mut [u8]) -> u8
    ensures { (result, answer.new) ≡ reply answer.old
        (berlin_midnight_answer (date_from year month day)) }
{
    mako_fristen::mf_berlin_midnight(year, month, day, answer)
}

/// [`mako_fristen::mf_end_of_day_berlin`] for C.
#[unsafe(no_mangle)]
pub extern "C" fn mf_end_of_day_berlin(year: u16, month: u8, day: u8, answer: &mut [u8]) -> u8
    ensures { (result, answer.new) ≡ reply answer.old
        (end_of_day_berlin_answer (date_from year month day)) }
{
    mako_fristen::mf_end_of_day_berlin(year, month, day, answer)
}

/// [`mako_fristen::mf_tagesbeginn_utc`] for C.
#[unsafe(no_mangle)]
pub extern "C" fn mf_tagesbeginn_utc(
    year: u16,
    month: u8,
    day: u8,
    sparte: u8,
    answer: &mut [u8],
) -> u8
    ensures { (result, answer.new) ≡ reply answer.old
        (tagesbeginn_utc_answer (date_from year month day) sparte) }
{
    mako_fristen::mf_tagesbeginn_utc(year, month, day, sparte, answer)
}

/// [`mako_fristen::mf_berlin_date`] for C.
#[unsafe(no_mangle)]
pub extern "C" fn mf_berlin_date(seconds: i64, nanos: u32, answer: &mut [u8]) -> u8
    ensures { (result, answer.new) ≡ reply answer.old
        (berlin_date_answer (read_instant seconds nanos)) }
{
    mako_fristen::mf_berlin_date(seconds, nanos, answer)
}

/// [`mako_fristen::mf_tag_des_beginns`] for C.
#[unsafe(no_mangle)]
pub extern "C" fn mf_tag_des_beginns(seconds: i64, nanos: u32, sparte: u8, answer: &mut [u8]) -> u8
    ensures { (result, answer.new) ≡ reply answer.old
        (tag_des_beginns_answer (read_instant seconds nanos) sparte) }
{
    mako_fristen::mf_tag_des_beginns(seconds, nanos, sparte, answer)
}
