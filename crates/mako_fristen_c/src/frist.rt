// Due instants.
ghost use Rattle.std.specs.Prelude.{◌≡◌};
ghost use Rattle.werktag.specs.declared.HolidayCalendar.TheVariants.{BdewMaKo};
ghost use Rattle.werktag.specs.Werktag.{is_werktag};
ghost use Rattle.antwortsatz.specs.Bytes.{reply};
ghost use Rattle.berlin.specs.Berlin.{read_instant, read_clock};
ghost use Rattle.antworten.specs.Reading.{date_from};
ghost use Rattle.antworten_frist.specs.Frist.{contrl_due_at_answer, contrl_due_at_change_answer};
ghost use Rattle.antworten_frist.specs.Frist.{aperak_strom_due_at_answer};
ghost use Rattle.antworten_frist.specs.Frist.{aperak_strom_allgemein_due_at_answer};
ghost use Rattle.antworten_frist.specs.Frist.{aperak_gas_folgeprozess_due_at_answer};
ghost use Rattle.antworten_frist.specs.Frist.{aperak_gas_initialprozess_due_at_answer, aperak_gas_due_at_answer};
ghost use Rattle.antworten_frist.specs.Frist.{add_hours_answer};
ghost use Rattle.antworten_frist.specs.Frist.{deadline_at_werktage_answer, end_of_werktag_after_answer};
ghost use Rattle.antworten_frist.specs.Frist.{next_werktag_at_answer};
ghost use Rattle.antworten_frist.specs.Frist.{nth_werktag_at_answer, frist_due_at_answer};

/// [`mako_fristen::mf_contrl_due_at`] for C.
#[unsafe(no_mangle)]
pub extern "C" fn mf_contrl_due_at(seconds: i64, nanos: u32, anlass: u8, answer: &mut [u8]) -> u8
    ensures { (result, answer.new) ≡ reply answer.old
        (contrl_due_at_answer (read_instant seconds nanos) anlass) }
{
    mako_fristen::mf_contrl_due_at(seconds, nanos, anlass, answer)
}

/// [`mako_fristen::mf_contrl_due_at_change`] for C.
#[unsafe(no_mangle)]
pub extern "C" fn mf_contrl_due_at_change(
    seconds: i64,
    nanos: u32,
    anlass: u8,
    year: u16,
    month: u8,
    day: u8,
    answer: &mut [u8],
) -> u8
    ensures { (result, answer.new) ≡ reply answer.old
        (contrl_due_at_change_answer (read_instant seconds nanos) anlass (date_from year month day)) }
{
    mako_fristen::mf_contrl_due_at_change(seconds, nanos, anlass, year, month, day, answer)
}

/// [`mako_fristen::mf_aperak_strom_due_at`] for C.
#[unsafe(no_mangle)]
pub extern "C" fn mf_aperak_strom_due_at(seconds: i64, nanos: u32, answer: &mut [u8]) -> u8
    ensures { (result, answer.new) ≡ reply answer.old
        (aperak_strom_due_at_answer (read_instant seconds nanos)) }
{
    mako_fristen::mf_aperak_strom_due_at(seconds, nanos, answer)
}

/// [`mako_fristen::mf_aperak_strom_allgemein_due_at`] for C.
#[unsafe(no_mangle)]
pub extern "C" fn mf_aperak_strom_allgemein_due_at(
    seconds: i64,
    nanos: u32,
    answer: &mut [u8],
) -> u8
    ensures { (result, answer.new) ≡ reply answer.old
        (aperak_strom_allgemein_due_at_answer (is_werktag BdewMaKo) (read_instant seconds nanos)) }
{
    mako_fristen::mf_aperak_strom_allgemein_due_at(seconds, nanos, answer)
}

/// [`mako_fristen::mf_aperak_gas_folgeprozess_due_at`] for C.
#[unsafe(no_mangle)]
pub extern "C" fn mf_aperak_gas_folgeprozess_due_at(
    seconds: i64,
    nanos: u32,
    answer: &mut [u8],
) -> u8
    ensures { (result, answer.new) ≡ reply answer.old
        (aperak_gas_folgeprozess_due_at_answer (is_werktag BdewMaKo) (read_instant seconds nanos)) }
{
    mako_fristen::mf_aperak_gas_folgeprozess_due_at(seconds, nanos, answer)
}

/// [`mako_fristen::mf_aperak_gas_initialprozess_due_at`] for C.
#[unsafe(no_mangle)]
pub extern "C" fn mf_aperak_gas_initialprozess_due_at(
    seconds: i64,
    nanos: u32,
    answer: &mut [u8],
) -> u8
    ensures { (result, answer.new) ≡ reply answer.old
        (aperak_gas_initialprozess_due_at_answer (is_werktag BdewMaKo) (read_instant seconds nanos)) }
{
    mako_fristen::mf_aperak_gas_initialprozess_due_at(seconds, nanos, answer)
}

/// [`mako_fristen::mf_aperak_gas_due_at`] for C.
#[unsafe(no_mangle)]
pub extern "C" fn mf_aperak_gas_due_at(pid: u32, seconds: i64, nanos: u32, answer: &mut [u8]) -> u8
    ensures { (result, answer.new) ≡ reply answer.old
        (aperak_gas_due_at_answer (is_werktag BdewMaKo) pid (read_instant seconds nanos)) }
{
    mako_fristen::mf_aperak_gas_due_at(pid, seconds, nanos, answer)
}

/// [`mako_fristen::mf_add_hours`] for C.
#[unsafe(no_mangle)]
pub extern "C" fn mf_add_hours(seconds: i64, nanos: u32, hours: u32, answer: &mut [u8]) -> u8
    ensures { (result, answer.new) ≡ reply answer.old
        (add_hours_answer (read_instant seconds nanos) hours) }
{
    mako_fristen::mf_add_hours(seconds, nanos, hours, answer)
}

/// [`mako_fristen::mf_deadline_at_werktage`] for C.
#[unsafe(no_mangle)]
pub extern "C" fn mf_deadline_at_werktage(
    seconds: i64,
    nanos: u32,
    werktage: u32,
    answer: &mut [u8],
) -> u8
    ensures { (result, answer.new) ≡ reply answer.old
        (deadline_at_werktage_answer (is_werktag BdewMaKo) (read_instant seconds nanos) werktage) }
{
    mako_fristen::mf_deadline_at_werktage(seconds, nanos, werktage, answer)
}

/// [`mako_fristen::mf_end_of_werktag_after`] for C.
#[unsafe(no_mangle)]
pub extern "C" fn mf_end_of_werktag_after(
    seconds: i64,
    nanos: u32,
    werktage: u32,
    answer: &mut [u8],
) -> u8
    ensures { (result, answer.new) ≡ reply answer.old
        (end_of_werktag_after_answer (is_werktag BdewMaKo) (read_instant seconds nanos) werktage) }
{
    mako_fristen::mf_end_of_werktag_after(seconds, nanos, werktage, answer)
}

/// [`mako_fristen::mf_next_werktag_at`] for C.
#[unsafe(no_mangle)]
pub extern "C" fn mf_next_werktag_at(
    seconds: i64,
    nanos: u32,
    hour: u8,
    minute: u8,
    second: u8,
    nanos_of_second: u32,
    answer: &mut [u8],
) -> u8
    ensures { (result, answer.new) ≡ reply answer.old
        (next_werktag_at_answer (is_werktag BdewMaKo) (read_instant seconds nanos)
        (read_clock hour minute second nanos_of_second)) }
{
    mako_fristen::mf_next_werktag_at(
        seconds,
        nanos,
        hour,
        minute,
        second,
        nanos_of_second,
        answer,
    )
}

/// [`mako_fristen::mf_nth_werktag_at`] for C.
#[unsafe(no_mangle)]
pub extern "C" fn mf_nth_werktag_at(
    seconds: i64,
    nanos: u32,
    n: u32,
    hour: u8,
    minute: u8,
    second: u8,
    nanos_of_second: u32,
    answer: &mut [u8],
) -> u8
    ensures { (result, answer.new) ≡ reply answer.old
        (nth_werktag_at_answer (is_werktag BdewMaKo) (read_instant seconds nanos) n
        (read_clock hour minute second nanos_of_second)) }
{
    mako_fristen::mf_nth_werktag_at(
        seconds,
        nanos,
        n,
        hour,
        minute,
        second,
        nanos_of_second,
        answer,
    )
}

/// [`mako_fristen::mf_frist_due_at`] for C.
#[unsafe(no_mangle)]
pub extern "C" fn mf_frist_due_at(
    shape: u8,
    werktage: u32,
    hour: u8,
    minute: u8,
    second: u8,
    nanos_of_second: u32,
    seconds: i64,
    nanos: u32,
    answer: &mut [u8],
) -> u8
    ensures { (result, answer.new) ≡ reply answer.old
        (frist_due_at_answer (is_werktag BdewMaKo) shape werktage (read_clock hour minute second nanos_of_second)
        (read_instant seconds nanos)) }
{
    mako_fristen::mf_frist_due_at(
        shape,
        werktage,
        hour,
        minute,
        second,
        nanos_of_second,
        seconds,
        nanos,
        answer,
    )
}
