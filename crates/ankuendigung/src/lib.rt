// The 13:00 announcement: whether the grid operator's Ankündigung der Zuordnung des E/G kept its Frist.
//
// Document 01, vorlauf.rs: `eog_ankuendigung_fristgerecht`. A crate of its own, so that the lead times know no clock.
#![tactic(auto)]

ghost use Rattle.std.specs.Prelude.{◌≡◌, ◌≤◌};
ghost use Rattle.zaehlung.specs.Walk.{last};
ghost use Rattle.werktag.specs.Werktag.{is_werktag};
ghost use Rattle.ankuendigung.specs.Ankuendigung.{eog_ankuendigung_fristgerecht, is_by_thirteen};

use berlin::Moment;
use datum::tage::Tag;
use werktag::HolidayCalendar;

/// Whether the Frist was kept; or neither, from the beginning on, which is an answer and no missing one.
#[derive(Clone, Copy, PartialEq, Eq)]
pub enum Fristgerecht {
    Nein,
    Ja,
    Weder,
}

/// 13:00: 'spätester 13:00 Uhr des letzten WT vor dem Zuordnungsbeginn des E/G'.
const EOG_ANKUENDIGUNG_SPAETESTENS: u32 = 13;

/// Whether an instant is by 13:00 of a day: '13:00 exactly is yes'.
#[tactic(auto, using(berlin::proofs::Proper::never_absent), unfolding(crate::specs::Ankuendigung::is_by_thirteen))]
fn is_by_thirteen(uez: Moment, day: u32) -> bool
    requires { day ≤ last }
    ensures { result ≡ is_by_thirteen day uez }
{
    let thirteen = berlin::o_clock(EOG_ANKUENDIGUNG_SPAETESTENS);
    let spaetestens = berlin::berlin_at(day, thirteen).unwrap();
    !berlin::is_before(spaetestens, uez)
}

/// Whether the grid operator announced the Zuordnung of the E/G in time: on the last Werktag before its beginning, from
/// 00:00 to 13:00; `None` where that Werktag leaves the calendar. 'From midnight of the beginning on the answer is
/// neither yes nor no'.
///
/// For the beginning Monday, 12 January 2026: Friday, 9 January 13:00 is in time, a nanosecond later is not, and from
/// 12 January 00:00 on it is neither.
#[tactic(auto, unfolding(crate::specs::Ankuendigung::eog_ankuendigung_fristgerecht))]
pub fn eog_ankuendigung_fristgerecht(
    uez: Moment,
    zuordnungsbeginn: Tag,
    cal: HolidayCalendar,
) -> Option<Fristgerecht>
    ensures { result ≡ eog_ankuendigung_fristgerecht (is_werktag cal) uez zuordnungsbeginn }
{
    if !berlin::is_before(uez, berlin::berlin_midnight(zuordnungsbeginn.index)) {
        return Some(Fristgerecht::Weder);
    }
    let letzter = schritte::sub_werktage(zuordnungsbeginn, 1, cal)?;
    if berlin::berlin_date(uez) == letzter.index && is_by_thirteen(uez, letzter.index) {
        return Some(Fristgerecht::Ja);
    }
    Some(Fristgerecht::Nein)
}
