// The theorem about the runs of a portfolio. The function does nothing: what it promises is a theorem about the
// definition of the number that `counts_of` is proved to return.
ghost use Rattle.portfolio.specs.RunsOfYears.{NoPairNoRun, OneYearIsOneRun, OutOfRangeParts, NewYearTurns};
ghost use Rattle.portfolio.specs.RunsOfYears.{NoMoreRunsThanPairs};

/// Theorem: neighbouring pairs that begin in one year are one run, one pair alone too, and another year begins another
/// run. A pair out of range ends a run and belongs to none. There are at most as many runs as pairs.
pub fn runs()
    ensures none { NoPairNoRun }
    ensures one { OneYearIsOneRun }
    ensures parted { OutOfRangeParts }
    ensures turned { NewYearTurns }
    ensures most { NoMoreRunsThanPairs }
{}
