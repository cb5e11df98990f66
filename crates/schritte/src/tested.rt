// The count that tests its days: the year index's entries of two dates, and the days of their years up to each of
// them.
ghost use Rattle.std.specs.Prelude.{◌≡◌, suc, ◌+◌, ◌-◌, ◌≤◌};
ghost use Rattle.zaehlung.specs.Walk.{last, among, between, count};
ghost use Rattle.datum.specs.Calendar.{day_of_year};
ghost use Rattle.werktag.specs.Werktag.{is_werktag};
ghost use Rattle.schritte.specs.Tested.{days_tested};

use datum::tage::Tag;
use werktag::HolidayCalendar;

/// Werktage, and the days that were tested to count them.
#[derive(Clone, Copy)]
pub struct Count {
    pub werktage: u32,
    pub tested: u32,
}

/// The days from `first` up to and with `day`, each tested: the Werktage among as many days as are reported.
#[tactic(auto, using(crate::proofs::TestedRules::test_rules))]
fn test_days(first: Tag, day: u32, cal: HolidayCalendar) -> Count
    requires { (first ≤ day) × (day ≤ last) }
    ensures { (result.werktage ≡ among (is_werktag cal) first result.tested) × (result.tested ≡ day - first + 1) }
{
    let mut at = gang::stand_at(first);
    let mut tested: u32 = 1;
    let mut werktage = u32::from(gang::at_werktag(at, cal));
    for _ in first.index..day {
        at = gang::on(at, 1);
        // Here, and not by the two days: the number is that of the tests made (docs/DECISIONS.md 80).
        tested += 1;
        werktage += u32::from(gang::at_werktag(at, cal));
    }
    Count { werktage, tested }
}

/// The Werktage of the calendar up to and with a day: those before its year, and those among the days of the year from
/// 1 January on, each tested.
#[tactic(auto, using(crate::proofs::TestedRules::through_rules))]
fn count_through(day: Tag, cal: HolidayCalendar) -> Count
    ensures { (result.werktage ≡ count (is_werktag cal) (day + 1)) × (result.tested ≡ day_of_year day) }
{
    let year = datum::tage::year_day(day).year;
    let before = jahresindex::werktage_before_year(year, cal);
    let of_year = test_days(datum::tage::new_year(day), day.index, cal);
    Count {
        werktage: before + of_year.werktage,
        tested: of_year.tested,
    }
}

/// The Werktage after `from` up to and including `to`, with the days that were tested: 'for each of its two dates, the
/// days from 1 January up to and including it'. Both 0 if `to` isn't later.
///
/// From 2 to 7 April 2026: 1 Werktag, and 92 + 97 days tested.
#[tactic(auto, using(crate::proofs::IndexRules::between_rules, crate::proofs::TestedRules::count_rules))]
pub fn count_werktage(from: Tag, to: Tag, cal: HolidayCalendar) -> Count
    ensures { (result.werktage ≡ between (is_werktag cal) from to) × (result.tested ≡ days_tested from to) }
{
    if to <= from {
        return Count {
            werktage: 0,
            tested: 0,
        };
    }
    let first = count_through(from, cal);
    let second = count_through(to, cal);
    Count {
        werktage: second.werktage - first.werktage,
        tested: first.tested + second.tested,
    }
}
