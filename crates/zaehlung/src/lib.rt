// Steps and counts over the days of the calendar, for any test of a day, and years and months as blocks of days: specs/
// has the definitions, `theorems` the laws of steps and counts. The code is the calendar's first day and its last.
#![tactic(auto)]

pub mod theorems;

/// The calendar's first day, 1 January 1996, and its last, 31 December 2899, as indexes from the first. A day known by
/// its index alone is a number and no type of its own: the code counts with it, and would open such a value and make it
/// anew at each step.
pub const FIRST: u32 = 0;

pub const LAST: u32 = 330179;
