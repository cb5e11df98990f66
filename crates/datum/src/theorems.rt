// Theorems about the definitions of dates and months; the functions do nothing.
ghost use Rattle.datum.specs.RoundTrip.{IndexThenDate, DateThenIndex, IndexIsInside, IndexedIsValid, NoIndexIfInvalid};
ghost use Rattle.datum.specs.Months.{AddedMonth, AddedDay, AddedIsDate, AddedLeaves, LaterStaysInside};
ghost use Rattle.datum.specs.Months.{SubtractedMonth, SubtractedDay, SubtractedIsDate, SubtractedLeaves};
ghost use Rattle.datum.specs.Months.{EarlierStaysInside};
ghost use Rattle.datum.specs.Months.{MKeepsDay, MOfCutDay, MLeaves, MStaysInside};
ghost use Rattle.datum.specs.OutsideValues.{DateEdges, FebruaryLengths, ShiftedDates};

/// Theorem: a date and its index undo each other, and exactly what is no date from 1 January 1996 to 31 December 2899
/// has no index.
pub fn date_and_index()
    ensures date_back { IndexThenDate }
    ensures index_back { DateThenIndex }
    ensures inside { IndexIsInside }
    ensures valid { IndexedIsValid }
    ensures no_index { NoIndexIfInvalid }
{}

/// Theorem: what lies n months after a date, or before it, has the date's day of the month, or is the month's last day
/// where the month lacks that day, BGB §188. There is none exactly if its month lies outside of the calendar.
pub fn month_shifts()
    ensures added_month { AddedMonth }
    ensures added_day { AddedDay }
    ensures added_date { AddedIsDate }
    ensures added_leaves { AddedLeaves }
    ensures subtracted_month { SubtractedMonth }
    ensures subtracted_day { SubtractedDay }
    ensures subtracted_date { SubtractedIsDate }
    ensures subtracted_leaves { SubtractedLeaves }
    ensures later_inside { LaterStaysInside }
    ensures earlier_inside { EarlierStaysInside }
{}

/// Theorem: M of a day is the day n months later, if its day of the month isn't cut; if it is cut to the month's last,
/// M is the first of the next month. M leaves the calendar where these do.
pub fn month_or_first_of_next()
    ensures kept { MKeepsDay }
    ensures cut { MOfCutDay }
    ensures leaves { MLeaves }
    ensures inside { MStaysInside }
{}

/// Theorem: the definitions of dates, month lengths and shifts by months agree with values from outside.
pub fn outside_values()
    ensures edges { DateEdges }
    ensures februaries { FebruaryLengths }
    ensures shifts { ShiftedDates }
{}
