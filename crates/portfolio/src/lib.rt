// Counts for a whole portfolio: the Werktage between the two days of each pair. Document 02, F-5.
//
// A pair takes two counts from the calendar's first day on: up to its first day and up to its second. Each is the
// entry of a year in the year index and the Werktage of the year's first days. What a run of pairs that begin in one
// year shares, the entry and the year's holidays, is worked out once for it.
#![tactic(auto)]

ghost use Rattle.std.specs.Prelude.{true, ◌≡◌, suc, ◌+◌, ◌≤◌, eqb, length, IfSome};
ghost use Rattle.zaehlung.specs.Walk.{last, count, between};
ghost use Rattle.datum.specs.Calendar.{first_year, year_of};
ghost use Rattle.werktag.specs.Werktag.{is_werktag};
ghost use Rattle.jahresindex.specs.Werktage.{werktage};
ghost use Rattle.portfolio.specs.Portfolio.{is_portfolio, pair_count, counts_of};
ghost use Rattle.portfolio.specs.Runs.{beginning, opens, runs};
ghost use Rattle.portfolio.specs.Inside.{index, year_by, run_of, year_of_run};

pub mod theorems;

use jahre::HolidayYear;
use std::marker::Model;
use werktag::HolidayCalendar;

/// The most pairs of one portfolio.
const MOST_PAIRS: usize = 4096;

/// The calendar's first day and its last, in days from 1 January 1970 on.
const FIRST_DAY: u32 = 9496;

const LAST_DAY: u32 = 339675;

/// "A pair with an out-of-range day gives 4,294,967,295 at its place": the C interface's number for no count.
const OUT_OF_RANGE: u32 = 4294967295;

/// A year of a calendar with its entry of the year index: the indexes of its first day and of the next year's, the
/// Werktage before it, and the year as a count inside it needs it. A run of pairs that begin in one year has one.
#[derive(Clone, Copy)]
pub struct IndexedYear {
    first: u32,
    after: u32,
    before: u32,
    known: HolidayYear,
}

impl Model for IndexedYear {
    ghost use Rattle.std.specs.Prelude.{suc};
    ghost use Rattle.std.proofs.Common.{refl};
    ghost use Rattle.zaehlung.specs.Walk.{count};
    ghost use Rattle.datum.specs.Calendar.{year_start};
    ghost use Rattle.werktag.specs.Werktag.{is_werktag};
    ghost use Rattle.jahre.specs.CalendarYear.{CalendarYear};

    ghost Value = { CalendarYear };

    ghost use Rattle.portfolio.specs.Fields.{IsIndexed};

    ghost view = { λ a. a.known };

    ghost invariant = { IsIndexed };

    ghost inverse = { λ y. record {
      first = year_start y.year;
      after = year_start (suc y.year);
      before = count (is_werktag y.calendar) (year_start y.year);
      known = y;
    } };

    ghost inverse_ok = { λ a h. rw (h.its_first, h.its_after, h.its_entry) refl };
}

/// The run that a pair belongs to: the year in which its pairs begin. A pair out of range belongs to none.
///
/// Of two neighbouring pairs, from 2 and from 6 April 2026: 2026, for both.
pub type Run = Option<IndexedYear>;

/// Whether a portfolio may have lists of these lengths: "10, after 1, if the three lists differ in length or have over
/// 4,096 entries". One of no pairs is one.
#[tactic(auto, unfolding(crate::specs::Portfolio::is_portfolio))]
pub fn is_portfolio(from: usize, to: usize, counts: usize) -> bool
    ensures { result ≡ is_portfolio from to counts }
{
    from <= MOST_PAIRS && to == from && counts == from
}

/// The index of a day, if it lies in the calendar.
fn index(day: u32) -> Option<u32>
    ensures { result ≡ index day }
{
    if (FIRST_DAY..=LAST_DAY).contains(&day) {
        return Some(day - FIRST_DAY);
    }
    None
}

impl IndexedYear {
    /// The year of the day with this index. Here the entry is read.
    fn of(day: u32, cal: HolidayCalendar) -> IndexedYear
        requires { day ≤ last }
        ensures { result ≡ year_by cal day }
    {
        let year = datum::year_of(day).year;
        IndexedYear {
            first: datum::year_start(year),
            after: datum::year_start(year + 1),
            before: jahresindex::werktage_before_year(year, cal),
            known: HolidayYear::new(year, cal),
        }
    }

    /// Whether a day lies in the year.
    #[tactic(auto, using(crate::proofs::Rules::holds_rules))]
    fn holds(&self, day: u32) -> bool
        requires { day ≤ last }
        ensures { result ≡ eqb self.now.year (year_of day).0 }
    {
        (self.first..self.after).contains(&day)
    }

    /// The Werktage up to and with a day of the year.
    #[tactic(auto, using(crate::proofs::Rules::through_rules))]
    fn through(&self, day: u32) -> u32
        requires { (day ≤ last) × (self.now.year ≡ (year_of day).0) }
        ensures { (result ≡ count (is_werktag self.now.calendar) (suc day)) × (result ≤ werktage) }
    {
        self.before + self.known.werktage(day - self.first + 1)
    }

    /// The Werktage between two days, the first of the year: those up to the second, less those up to the first.
    #[tactic(auto, using(crate::proofs::Rules::difference_rules))]
    fn werktage_between(&self, from: u32, to: u32, cal: HolidayCalendar) -> u32
        requires { (from ≤ last) × (to ≤ last) × (self.now ≡ year_by cal from) }
        ensures { result ≡ between (is_werktag cal) from to }
    {
        if to <= from {
            return 0;
        }
        if self.holds(to) {
            return self.through(to) - self.through(from);
        }
        IndexedYear::of(to, cal).through(to) - self.through(from)
    }
}

/// Whether a run is of the year of the day with this index.
#[tactic(auto, using(crate::proofs::Rules::is_of_rules))]
fn is_of(run: &Run, day: u32) -> bool
    requires { day ≤ last }
    ensures { result ≡ eqb (year_of_run run.now) (first_year + (year_of day).0) }
{
    match run {
        Some(year) => year.holds(day),
        None => false,
    }
}

/// Goes on to the run of a pair, behind that of the pair before it: the same, or one that it opens; "a pair with an
/// out-of-range day .. ends a run and belongs to none". Returns whether it opens one, for which an entry is read.
#[tactic(auto, using(crate::proofs::Rules::run_rules))]
fn go_on(run: &mut Run, from: u32, to: u32, cal: HolidayCalendar) -> bool
    requires { IfSome run.old (λ y. y.calendar ≡ cal) }
    ensures goes { run.new ≡ run_of cal from to }
    ensures value { result ≡ opens (year_of_run run.old) (beginning from to) }
{
    let (Some(day), Some(_)) = (index(from), index(to)) else {
        // `None` is written over a whole year, so only where there is one.
        if run.is_some() {
            *run = None;
        }
        return false;
    };
    if is_of(run, day) {
        return false;
    }
    *run = Some(IndexedYear::of(day, cal));
    true
}

/// The count of a pair of two days, whose run is known.
#[tactic(auto, using(crate::proofs::Rules::pair_rules))]
fn pair_count(run: &Run, from: u32, to: u32, cal: HolidayCalendar) -> u32
    requires { run.now ≡ run_of cal from to }
    ensures { result ≡ pair_count (is_werktag cal) from to }
{
    match (run, index(from), index(to)) {
        (Some(year), Some(first), Some(second)) => year.werktage_between(first, second, cal),
        _ => OUT_OF_RANGE,
    }
}

/// Fills the third list with the counts of the pairs of two others; returns how many entries of the year index were
/// read for their first days.
///
/// From 2 and from 6 April 2026, 20,545 and 20,549, to 7 April, 20,550, there is 1 Werktag each, since the days of
/// Easter are none; both pairs begin in 2026: 1 entry.
#[tactic(auto, using(crate::proofs::Counted::counts_rules))]
pub fn counts_of(from: &[u32], to: &[u32], counts: &mut [u32], cal: HolidayCalendar) -> u32
    requires { is_portfolio (length from.now) (length to.now) (length counts.old) ≡ true }
    ensures counts_after { counts.new ≡ counts_of (is_werktag cal) from.now to.now }
    ensures value { result ≡ runs from.now to.now }
{
    let mut run = None;
    let mut read = 0;
    // Three lists, as the C interface has them, and by index: of what is written through a `zip` over `iter_mut` a
    // proof knows no values.
    for (i, count) in counts.iter_mut().enumerate() {
        read += u32::from(go_on(&mut run, from[i], to[i], cal));
        *count = pair_count(&run, from[i], to[i], cal);
    }
    read
}
