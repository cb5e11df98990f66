// Werktage: every day that is no Saturday, no Sunday and no holiday (GPKE Teil 1).
//
// Document 01, lib.rs (calendar); the reason of a closed day: document 02, F-2. The list is the same in every year.
#![tactic(auto)]

ghost use Rattle.std.specs.Prelude.{◌≡◌, ◌+◌, ◌≤◌, ◌<◌};
ghost use Rattle.std.specs.Option.{option_map_or};
ghost use Rattle.werktag.specs.declared.HolidayCalendar.TheVariants.{BdewMaKo};
ghost use Rattle.zaehlung.specs.Walk.{last};
ghost use Rattle.datum.specs.Calendar.{first_year, last_year, date_of, weekday};
ghost use Rattle.werktag.specs.Easter.{easter_index, easter_for};
ghost use Rattle.werktag.specs.Werktag.{is_listed, is_werktag};
ghost use Rattle.werktag.specs.Reason.{reason_number, holiday_place, reason};

mod feiertage;
pub mod theorems;

use datum::Date;
use datum::tage::Tag;
pub use feiertage::Reason;
use std::marker::Model;
use zaehlung::LAST;

/// Weekdays, Monday being 0.
const SATURDAY: u32 = 5;

/// Months, January being 1.
const MARCH: u8 = 3;

const JUNE: u8 = 6;

/// A day so far past the calendar that none lies at an offset from it. A number, and no `None`: each test of a feast
/// would take an `Option` apart, and be longer.
const NO_EASTER: u32 = LAST + 3;

/// Whose holidays count. A holiday of any one Land counts everywhere. There is one list, which is matched all the same:
/// a second has its place there.
#[derive(Clone, Copy)]
pub enum HolidayCalendar {
    BdewMaKo,
}

/// A day as the tests of the list need it: taken apart, its weekday, and Easter Sunday's index where its month needs
/// it. A clause sees the day's index alone, by which the rest is known.
#[derive(Clone, Copy)]
pub struct Kalendertag {
    pub tag: Tag,
    pub wday: u32,
    pub easter: u32,
}

impl Model for Kalendertag {
    ghost use Rattle.std.specs.Prelude.{ℕ, ◌+◌, ◌≡◌, ◌≤◌};
    ghost use Rattle.std.specs.Coded.{coded_ℕ};
    ghost use Rattle.zaehlung.specs.Walk.{last};
    ghost use Rattle.datum.specs.Calendar.{date_of, weekday};
    ghost use Rattle.werktag.specs.Easter.{easter_for};

    ghost Value = { ℕ };

    ghost coded = { coded_ℕ };

    ghost view = { λ k. k.tag };

    ghost invariant = { λ k. (k.wday ≡ weekday k.tag)
        × (k.easter ≡ easter_for (date_of k.tag).year (date_of k.tag).month) × (k.easter ≤ last + 3) };

    ghost inverse = { λ i. record {
      tag = i;
      wday = weekday i;
      easter = easter_for (date_of i).year (date_of i).month;
    } };

    ghost use Rattle.std.proofs.Common.{ap, sym, ◌∙◌};

    ghost inverse_ok = { λ a h. ap (λ w. record {
      tag = a.tag;
      wday = w;
      easter = easter_for (date_of a.tag).year (date_of a.tag).month;
    }) (sym h.0)
        ∙ ap (λ e. record { tag = a.tag; wday = a.wday; easter = e }) (sym h.1) };
}

impl Kalendertag {
    /// A day whose weekday is known: its Easter is looked up.
    #[inline(always)]
    #[tactic(auto, using(crate::proofs::Rules::tag_rules))]
    pub fn new(tag: Tag, wday: u32) -> Kalendertag
        requires { wday ≡ weekday tag }
        ensures { result ≡ tag }
    {
        // In line: at a call a struct goes through memory, which the day test would feel.
        Kalendertag {
            tag,
            wday,
            easter: easter_for(tag.date.year, tag.date.month),
        }
    }
}

/// The index of Easter Sunday, by the Anonymous Gregorian algorithm in its own letters. Its month is n / 31 and its day
/// n % 31 + 1: as March has 31 days, that is n - 93 days after 1 March.
///
/// For a year of the calendar: no difference in it then goes below 0.
///
/// In 2026 it is 5 April; the earliest is 22 March (2285), the latest 25 April (2038).
#[tactic(auto, using(crate::proofs::Easter::sunday_rules))]
pub fn easter_sunday(year: u16) -> u32
    requires { (first_year ≤ year) × (year ≤ last_year) }
    ensures { (result ≡ easter_index year) × (result ≤ last) }
{
    let y = year as u32;
    let a = y % 19;
    let b = y / 100;
    let c = y % 100;
    let d = b / 4;
    let e = b % 4;
    let f = (b + 8) / 25;
    let g = (b - f + 1) / 3;
    let h = (19 * a + b - d - g + 15) % 30;
    let i = c / 4;
    let k = c % 4;
    let l = (32 + 2 * e + 2 * i - h - k) % 7;
    let m = (a + 11 * h + 22 * l) / 451;
    let n = h + l + 114 - 7 * m;
    let first_of_march = datum::days_before(Date {
        year,
        month: MARCH,
        day: 1,
    });
    first_of_march + (n - 93)
}

/// Easter Sunday of a year as a month needs it. The earliest feast that moves with it is a Karfreitag of 20 March
/// (2285), the latest a Fronleichnam of 24 June (2038): from July to February none is near, and Easter need not be
/// known.
///
/// In April 2026: the index of 5 April. In July: a day so far past the calendar that none lies at an offset from it.
#[tactic(auto, unfolding(crate::specs::Easter::easter_for))]
pub fn easter_for(year: u16, month: u8) -> u32
    requires { (first_year ≤ year) × (year ≤ last_year) }
    ensures { (result ≡ easter_for year month) × (result ≤ last + 3) }
{
    if (MARCH..=JUNE).contains(&month) {
        easter_sunday(year)
    } else {
        NO_EASTER
    }
}

/// The reason of a holiday of the list, for a day whose weekday and whose Easter are known: the fixed days, Buß- und
/// Bettag, the feasts that move with Easter, by one distance from it. Of two holidays on one date it is the lower:
/// 1 May 2008, Tag der Arbeit and Christi Himmelfahrt, is `TagDerArbeit`.
#[tactic(auto, using(crate::proofs::Rules::holiday_rules))]
fn bdew_mako_holiday(day: Kalendertag) -> Option<Reason>
    ensures { option_map_or reason_number result 0 ≡ holiday_place day }
{
    if day.has_fixed_day() {
        return day.fixed_day();
    }
    if day.is_buss_und_bettag() {
        return Some(Reason::BussUndBettag);
    }
    day.feast()
}

/// Why a weekday is closed, if it is.
///
/// 18 November 2026 is `BussUndBettag`.
#[tactic(auto, using(crate::proofs::Rules::on_weekday_lem))]
fn reason_of_weekday(day: Kalendertag, cal: HolidayCalendar) -> Option<Reason>
    requires { weekday day < 5 }
    ensures { option_map_or reason_number result 0 ≡ reason cal day }
{
    match cal {
        HolidayCalendar::BdewMaKo => bdew_mako_holiday(day),
    }
}

/// Why a day is closed, if it is, by the list's order. The weekend goes before a holiday.
///
/// 18 November 2026 is `BussUndBettag`; 8 March 2026, a Sunday and Internationaler Frauentag, is `Sonntag`.
#[tactic(auto, using(crate::proofs::Rules::reason_rules))]
pub fn reason(tag: Tag, cal: HolidayCalendar) -> Option<Reason>
    ensures { option_map_or reason_number result 0 ≡ reason cal tag }
{
    let wday = datum::weekday(tag.index);
    if wday == SATURDAY {
        return Some(Reason::Samstag);
    }
    if SATURDAY < wday {
        return Some(Reason::Sonntag);
    }
    reason_of_weekday(Kalendertag::new(tag, wday), cal)
}

/// Whether a day is one of the list's holidays, on a weekend too.
#[tactic(auto, using(crate::proofs::Rules::listed_rules))]
fn is_bdew_mako_holiday(day: Kalendertag) -> bool
    ensures { result ≡ is_listed day (date_of day) }
{
    day.has_fixed_day() || day.is_buss_und_bettag() || day.is_feast()
}

/// Whether a weekday is a Werktag: what a walk asks, that goes from day to day. It needs no reason, and so no table.
///
/// 18 November 2026, Buß- und Bettag, is none.
#[tactic(auto, using(crate::proofs::Rules::by_list))]
pub fn is_open_weekday(day: Kalendertag, cal: HolidayCalendar) -> bool
    requires { weekday day < 5 }
    ensures { result ≡ is_werktag cal day }
{
    match cal {
        HolidayCalendar::BdewMaKo => !is_bdew_mako_holiday(day),
    }
}

/// Whether a day is a Werktag: 'not Saturday, Sunday or a holiday (GPKE Teil 1)'.
///
/// A holiday of any one Land counts everywhere, and 24 and 31 December count as holidays.
///
/// 18 November 2026, Buß- und Bettag, is none; 7 April 2026, the Tuesday after Easter, is one.
#[tactic(auto, using(crate::proofs::Rules::on_weekend))]
pub fn is_werktag(tag: Tag, cal: HolidayCalendar) -> bool
    ensures { result ≡ is_werktag cal tag }
{
    let wday = datum::weekday(tag.index);
    if SATURDAY <= wday {
        return false;
    }
    is_open_weekday(Kalendertag::new(tag, wday), cal)
}

/// Whether a day that is known by its index alone is a Werktag: it is taken apart here.
pub fn is_werktag_at(day: u32, cal: HolidayCalendar) -> bool
    requires { day ≤ last }
    ensures { result ≡ is_werktag cal day }
{
    is_werktag(datum::tage::tag_at(day), cal)
}
