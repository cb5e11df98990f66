// The Werktage of a year's first days, without a test of any: its weekdays less its holidays on weekdays. A year is
// counted from 1996, a day of it from 0. Both are numbers: each use adds to a year or looks it up, so that a type of it
// would be taken apart every time.
#![tactic(auto)]

ghost use Rattle.std.specs.Prelude.{◌≡◌, ◌+◌, ◌%◌, ◌≤◌, ◌<◌, ltb, length};
ghost use Rattle.zaehlung.specs.Walk.{bit, among};
ghost use Rattle.zaehlung.specs.Lists.{below};
ghost use Rattle.datum.specs.Calendar.{year_len, year_start};
ghost use Rattle.werktag.specs.Werktag.{is_werktag};
ghost use Rattle.jahre.specs.Year.{year_numbers, weekdays, or_no_day, himmelfahrt_or, weekday_holidays};

use datum::WEEK;
use std::marker::Model;
use werktag::HolidayCalendar;

/// A year's own numbers: the weekday of its 1 January, its leap days, and Easter Sunday as a day of the year.
#[derive(Clone, Copy)]
pub struct Year {
    pub first: u32,
    pub leaps: u32,
    pub easter: u32,
}

impl Model for Year {
    ghost use Rattle.std.proofs.Common.{refl};
    ghost use Rattle.jahre.specs.YearNumbers.{YearNumbers};

    ghost Value = { YearNumbers };

    ghost use Rattle.jahre.specs.Fields.{IsUsual};

    ghost view = { λ a. record { first = a.first; leaps = a.leaps; easter = a.easter } };

    ghost invariant = { IsUsual };

    ghost inverse = { λ y. record { first = y.first; leaps = y.leaps; easter = y.easter } };

    ghost inverse_ok = { λ a h. refl };
}

/// A year of a calendar as a count inside it needs it: with the weekday of its 1 January, and its holidays on weekdays,
/// in document 01's order; in the place of one that is a Saturday or Sunday stands `NO_DAY`.
#[derive(Clone, Copy)]
pub struct HolidayYear {
    cal: HolidayCalendar,
    year: u32,
    first: u32,
    holidays: [u32; 20],
}

impl Model for HolidayYear {
    ghost use Rattle.std.specs.Prelude.{◌≡◌, ◌≤◌};
    ghost use Rattle.std.proofs.Common.{sym};
    ghost use Rattle.jahre.specs.CalendarYear.{CalendarYear};

    ghost Value = { CalendarYear };

    ghost use Rattle.jahre.specs.Year.{holiday_year};

    ghost view = { λ a. record { calendar = a.cal; year = a.year } };

    ghost invariant = { λ a. (a.year ≤ 903) × (a ≡ holiday_year a.cal a.year) };

    ghost inverse = { λ y. holiday_year y.calendar y.year };

    ghost inverse_ok = { λ a h. sym h.1 };
}

/// The days of a week from Monday to Friday: no other may be Werktage.
pub const WEEKDAYS: u32 = 5;

/// 1 May of a common year.
const TAG_DER_ARBEIT: u32 = 120;

/// A day that no year has. It stands for no day: with an `Option` in its place a count takes twice as long.
const NO_DAY: u32 = 366;

/// The numbers of the year 1996 + k.
///
/// 2026 begins on a Thursday, has no leap day, and Easter Sunday, 5 April, is its day 94.
#[tactic(auto, using(crate::proofs::Rules::year_rules))]
fn year_numbers(k: u32) -> Year
    requires { k ≤ 903 }
    ensures { result ≡ year_numbers k }
{
    let year = datum::FIRST_YEAR + (k as u16);
    let start = datum::year_start(k);
    Year {
        first: datum::weekday(start),
        leaps: u32::from(datum::is_leap(year)),
        easter: werktag::easter_sunday(year) - start,
    }
}

/// How many of `m` days from a Monday on are weekdays: less the Saturdays, less the Sundays.
#[tactic(auto, unfolding(crate::specs::Year::weekdays))]
fn weekdays_of(m: u32) -> u32
    requires { m ≤ 400 }
    ensures { (result ≡ weekdays m) × (result ≤ 400) }
{
    m - (m + 1) / WEEK - m / WEEK
}

/// A day of a year that begins on weekday `first`, if it is a weekday.
///
/// In 2026, which begins on a Thursday: 6 January, day 5, is a Tuesday; 8 March, day 66, a Sunday and so no day.
#[tactic(auto, using(crate::proofs::Rules::weekday_rules))]
fn weekday_or_none(first: u32, day: u32) -> u32
    requires { (first < 7) × (day ≤ 366) }
    ensures { result ≡ or_no_day first day }
{
    if (first + day) % WEEK < WEEKDAYS {
        return day;
    }
    NO_DAY
}

/// Christi Himmelfahrt, a Thursday, unless it falls on 1 May, a holiday already.
#[tactic(auto, using(crate::proofs::Rules::may_rules))]
fn himmelfahrt(year: Year) -> u32
    ensures { result ≡ himmelfahrt_or year.leaps year.easter }
{
    if year.easter + 39 == TAG_DER_ARBEIT + year.leaps {
        return NO_DAY;
    }
    year.easter + 39
}

/// The holidays of a year that are weekdays, each in its place. Only the fixed days need a test: Buß- und Bettag is a
/// Wednesday, and what moves with Easter Sunday stays on its weekday, Pfingstsonntag on a Sunday.
#[tactic(auto, using(crate::proofs::Rules::listed_is))]
fn weekday_holidays(year: Year) -> [u32; 20]
    ensures { result ≡ weekday_holidays year }
{
    let f = year.first;
    let l = year.leaps;
    let e = year.easter;
    [
        weekday_or_none(f, 0),
        weekday_or_none(f, 5),
        weekday_or_none(f, 66 + l),
        weekday_or_none(f, TAG_DER_ARBEIT + l),
        weekday_or_none(f, 226 + l),
        weekday_or_none(f, 262 + l),
        weekday_or_none(f, 275 + l),
        weekday_or_none(f, 303 + l),
        weekday_or_none(f, 304 + l),
        weekday_or_none(f, 357 + l),
        weekday_or_none(f, 358 + l),
        weekday_or_none(f, 359 + l),
        weekday_or_none(f, 364 + l),
        325 + l - (f + l + 1) % WEEK,
        e - 2,
        e + 1,
        himmelfahrt(year),
        NO_DAY,
        e + 50,
        e + 60,
    ]
}

/// How many of a year's holidays lie before day `n`. A chain that filters and counts them takes five times as long.
fn number_before(days: &[u32; 20], n: u32) -> u32
    requires { length days.now ≡ 20 }
    ensures { result ≡ below days.now n }
{
    let mut before = 0;
    for day in days {
        before += u32::from(*day < n);
    }
    before
}

impl HolidayYear {
    /// The year 1996 + k of a calendar.
    #[tactic(auto, using(crate::proofs::Rules::known))]
    pub fn new(k: u32, cal: HolidayCalendar) -> HolidayYear
        requires { k ≤ 903 }
        ensures { result ≡ record { calendar = cal; year = k } }
    {
        match cal {
            HolidayCalendar::BdewMaKo => {
                let numbers = year_numbers(k);
                HolidayYear {
                    cal,
                    year: k,
                    first: numbers.first,
                    holidays: weekday_holidays(numbers),
                }
            }
        }
    }

    /// The Werktage among its first `n` days: the weekdays, less the holidays among them.
    ///
    /// The first 97 days of 2026, up to 7 April, have 65.
    #[tactic(auto, using(crate::proofs::Rules::count_rules))]
    pub fn werktage(&self, n: u32) -> u32
        requires { n ≤ year_len self.now.year }
        ensures { (result ≡ among (is_werktag self.now.calendar) (year_start self.now.year) n) × (result ≤ n) }
    {
        weekdays_of(self.first + n) - weekdays_of(self.first) - number_before(&self.holidays, n)
    }
}

/// The same of the year 1996 + k.
pub fn werktage_in_year(k: u32, n: u32, cal: HolidayCalendar) -> u32
    requires { (k ≤ 903) × (n ≤ year_len k) }
    ensures { (result ≡ among (is_werktag cal) (year_start k) n) × (result ≤ n) }
{
    HolidayYear::new(k, cal).werktage(n)
}
