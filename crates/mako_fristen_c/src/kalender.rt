// Calendar steps and counts.
ghost use Rattle.std.specs.Prelude.{◌≡◌};
ghost use Rattle.werktag.specs.declared.HolidayCalendar.TheVariants.{BdewMaKo};
ghost use Rattle.werktag.specs.Werktag.{is_werktag};
ghost use Rattle.werktag.specs.Reason.{reason};
ghost use Rattle.antwortsatz.specs.Bytes.{reply};
ghost use Rattle.antworten.specs.Reading.{date_from};
ghost use Rattle.antworten.specs.Kalender.{is_werktag_answer, next_werktag_answer, add_werktage_answer};
ghost use Rattle.antworten.specs.Kalender.{sub_werktage_answer};
ghost use Rattle.antworten.specs.Kalender.{werktage_between_answer, add_months_answer, subtract_months_answer};

/// [`mako_fristen::mf_is_werktag`] for C.
#[unsafe(no_mangle)]
pub extern "C" fn mf_is_werktag(year: u16, month: u8, day: u8, answer: &mut [u8]) -> u8
    ensures { (result, answer.new) ≡ reply answer.old
        (is_werktag_answer (reason BdewMaKo) (date_from year month day)) }
{
    mako_fristen::mf_is_werktag(year, month, day, answer)
}

/// [`mako_fristen::mf_next_werktag`] for C.
#[unsafe(no_mangle)]
pub extern "C" fn mf_next_werktag(year: u16, month: u8, day: u8, answer: &mut [u8]) -> u8
    ensures { (result, answer.new) ≡ reply answer.old
        (next_werktag_answer (is_werktag BdewMaKo) (date_from year month day)) }
{
    mako_fristen::mf_next_werktag(year, month, day, answer)
}

/// [`mako_fristen::mf_add_werktage`] for C.
#[unsafe(no_mangle)]
pub extern "C" fn mf_add_werktage(year: u16, month: u8, day: u8, n: u32, answer: &mut [u8]) -> u8
    ensures { (result, answer.new) ≡ reply answer.old
        (add_werktage_answer (is_werktag BdewMaKo) (date_from year month day) n) }
{
    mako_fristen::mf_add_werktage(year, month, day, n, answer)
}

/// [`mako_fristen::mf_sub_werktage`] for C.
#[unsafe(no_mangle)]
pub extern "C" fn mf_sub_werktage(year: u16, month: u8, day: u8, n: u32, answer: &mut [u8]) -> u8
    ensures { (result, answer.new) ≡ reply answer.old
        (sub_werktage_answer (is_werktag BdewMaKo) (date_from year month day) n) }
{
    mako_fristen::mf_sub_werktage(year, month, day, n, answer)
}

/// [`mako_fristen::mf_werktage_between`] for C.
#[unsafe(no_mangle)]
pub extern "C" fn mf_werktage_between(
    year: u16,
    month: u8,
    day: u8,
    year2: u16,
    month2: u8,
    day2: u8,
    answer: &mut [u8],
) -> u8
    ensures { (result, answer.new) ≡ reply answer.old
        (werktage_between_answer (is_werktag BdewMaKo) (date_from year month day) (date_from year2 month2 day2)) }
{
    mako_fristen::mf_werktage_between(year, month, day, year2, month2, day2, answer)
}

/// [`mako_fristen::mf_add_months`] for C.
#[unsafe(no_mangle)]
pub extern "C" fn mf_add_months(year: u16, month: u8, day: u8, n: u32, answer: &mut [u8]) -> u8
    ensures { (result, answer.new) ≡ reply answer.old
        (add_months_answer (date_from year month day) n) }
{
    mako_fristen::mf_add_months(year, month, day, n, answer)
}

/// [`mako_fristen::mf_subtract_months`] for C.
#[unsafe(no_mangle)]
pub extern "C" fn mf_subtract_months(year: u16, month: u8, day: u8, n: u32, answer: &mut [u8]) -> u8
    ensures { (result, answer.new) ≡ reply answer.old
        (subtract_months_answer (date_from year month day) n) }
{
    mako_fristen::mf_subtract_months(year, month, day, n, answer)
}
