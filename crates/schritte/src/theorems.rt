// The theorems about the days that a count tests. The functions do nothing: what each promises is a theorem about the
// definition that `tested` is proved to meet.
ghost use Rattle.schritte.specs.TestedDays.{TestedAtMost732, NoneTestedUnlessLater};
ghost use Rattle.schritte.specs.OutsideValues.{TestedOutside};

/// Theorem: a count between two days of the calendar never tests more than 732 days, and none exactly if the second
/// isn't later.
pub fn days_tested()
    ensures most { TestedAtMost732 }
    ensures none { NoneTestedUnlessLater }
{}

/// Theorem: the definition gives what Python's calendar says of six pairs of dates.
pub fn outside_values()
    ensures tested { TestedOutside }
{}
