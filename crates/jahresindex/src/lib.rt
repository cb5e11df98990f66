// The year index: the Werktage before 1 January of each year, and the year of a Werktag by its number. A year is
// counted from 1996.
//
// Document 02, F-3. The table's rule is computed once, over all its entries.
#![tactic(auto)]

ghost use Rattle.std.specs.Prelude.{◌≡◌, suc, ◌+◌, ◌≤◌, ◌<◌};
ghost use Rattle.zaehlung.specs.Walk.{last, count};
ghost use Rattle.datum.specs.Calendar.{year_start};
ghost use Rattle.werktag.specs.Werktag.{is_werktag};

mod tabelle;
pub mod theorems;

use tabelle::WERKTAGE_BEFORE;
use werktag::HolidayCalendar;

/// All Werktage of the calendar: the table's last entry.
pub const WERKTAGE: u32 = 222031;

/// A year, and the Werktage before it.
#[derive(Clone, Copy)]
pub struct Entry {
    pub year: u32,
    pub before: u32,
}

/// The Werktage before 1 January of the year 1996 + k: its entry of the table.
///
/// 0 before 1996, 7,367 before 2026, 222,031 before 2900.
pub fn werktage_before_year(k: u32, cal: HolidayCalendar) -> u32
    requires { k ≤ 904 }
    ensures { (result ≡ count (is_werktag cal) (year_start k)) × (result ≤ 330180) }
{
    match cal {
        HolidayCalendar::BdewMaKo => WERKTAGE_BEFORE[k as usize],
    }
}

/// The year in which the `n`-th Werktag of the calendar lies, with its entry: the last with fewer before it.
///
/// The 7,367th is the last of 2025, the 7,368th the first of 2026.
pub fn year_of_werktag(n: u32, cal: HolidayCalendar) -> Entry
    requires { (1 ≤ n) × (n ≤ count (is_werktag cal) (suc last)) }
    ensures { (result.year ≤ 903) × (result.before ≡ count (is_werktag cal) (year_start result.year))
        × (result.before < n) × (n ≤ count (is_werktag cal) (year_start (result.year + 1))) }
{
    match cal {
        HolidayCalendar::BdewMaKo => {
            let k = WERKTAGE_BEFORE[1..].partition_point(|before| *before < n);
            Entry {
                year: k as u32,
                before: WERKTAGE_BEFORE[k],
            }
        }
    }
}
