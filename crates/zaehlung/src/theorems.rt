// Theorems about the definitions of steps and counts, for any test of a day; the functions do nothing.
ghost use Rattle.zaehlung.specs.Steps.{AddReaches, SubReaches, AddLeaves, SubLeaves, AddOfNone, SubOfNone};
ghost use Rattle.zaehlung.specs.Steps.{AddStaysInside, SubStaysInside, AddFromElsewhere, SubIsAddFromElsewhere};
ghost use Rattle.zaehlung.specs.OnOrAfter.{NextReaches, NextLeaves, NextStaysInside, NextOfOpenDay, NextOfShutDay};
ghost use Rattle.zaehlung.specs.OnOrAfter.{WReaches, WLeaves, WOfNone, WStaysInside, WOfOpenDay, WOfShutDay};
ghost use Rattle.zaehlung.specs.OnOrAfter.{WIsDayAfterAdd};
ghost use Rattle.zaehlung.specs.Counts.{BetweenIsDifference, BetweenUnlessLater, BetweenUndoesAdd, AddUndoesBetween};

/// Theorem: steps and counts are one thing. The n-th open day after a given day is the open day up to and with which
/// come n more open days than up to and with the given one; the n-th before it is the open day before which come n
/// fewer than before the given one; and a step leaves the calendar exactly if there are too few. So two steps that lead
/// to the same count end at the same day, wherever they begin.
pub fn steps()
    ensures add { AddReaches }
    ensures sub { SubReaches }
    ensures add_leaves { AddLeaves }
    ensures sub_leaves { SubLeaves }
    ensures add_none { AddOfNone }
    ensures sub_none { SubOfNone }
    ensures add_inside { AddStaysInside }
    ensures sub_inside { SubStaysInside }
    ensures add_elsewhere { AddFromElsewhere }
    ensures sub_elsewhere { SubIsAddFromElsewhere }
{}

/// Theorem: the first open day on or after a given day is the open day before which come as many open days as before
/// the given one. It is the given day itself, if that is open, or else the first open day after it.
pub fn first_open_day()
    ensures next { NextReaches }
    ensures leaves { NextLeaves }
    ensures inside { NextStaysInside }
    ensures open { NextOfOpenDay }
    ensures shut { NextOfShutDay }
{}

/// Theorem: the day after the n-th open day on or after a given day follows an open day, and before it come n more open
/// days than before the given one. It is the day after a step on from the given day: of n - 1 open days, if that is
/// open, and of n, if it isn't.
pub fn day_after_open_days()
    ensures w { WReaches }
    ensures leaves { WLeaves }
    ensures none { WOfNone }
    ensures inside { WStaysInside }
    ensures open { WOfOpenDay }
    ensures shut { WOfShutDay }
    ensures elsewhere { WIsDayAfterAdd }
{}

/// Theorem: the count of open days after one day, up to and with another, is the difference of the counts up to and
/// with them, or 0 if the other isn't later. From the day of a step to its end it is the step's number, and a step by
/// it reaches the other day, if that is later and open.
pub fn counts()
    ensures difference { BetweenIsDifference }
    ensures unless_later { BetweenUnlessLater }
    ensures add_between { BetweenUndoesAdd }
    ensures between_add { AddUndoesBetween }
{}
