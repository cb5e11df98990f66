// The theorem about the year index. The function does nothing: what it promises is a theorem about the table that this
// crate's code reads, and about Werktage counted day by day.
ghost use Rattle.jahresindex.specs.YearIndex.{IndexHas905Entries, FirstEntryIsZero, NextEntryAddsYear};
ghost use Rattle.jahresindex.specs.YearIndex.{EntryCountsWerktage, CalendarHasWerktage};

/// Theorem: each of the table's 905 entries is the number of Werktage before 1 January of its year, from 1996 to 2900.
/// The first is 0, and each further one is the one before it and the Werktage of the year between. The calendar has
/// 222,031 Werktage.
pub fn year_index()
    ensures length { IndexHas905Entries }
    ensures first { FirstEntryIsZero }
    ensures next { NextEntryAddsYear }
    ensures entry { EntryCountsWerktage }
    ensures all { CalendarHasWerktage }
{}
