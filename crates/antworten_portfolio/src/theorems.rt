// The theorems about a portfolio's counts. The functions do nothing: what each promises is a theorem about the
// definitions that `portfolio_reply` is proved to meet.
ghost use Rattle.antworten_portfolio.specs.SingleCount.{PairHasSingleCount, PlaceHasSingleCount, CountWithinCalendar};
ghost use Rattle.antworten_portfolio.specs.OutsideValues.{NinePairsAnswered, UnequalListsRefused};
ghost use Rattle.antworten_portfolio.specs.OutsideValues.{ShortAnswerUntouched};

/// Theorem: each count of a portfolio is the one that the single call answers. It is at most 330,180, so the
/// 4,294,967,295 at the place of a pair out of range is no count.
pub fn single_count()
    ensures pair { PairHasSingleCount }
    ensures place { PlaceHasSingleCount }
    ensures within { CountWithinCalendar }
{}

/// Theorem: the definitions give what is known from outside, of an answered portfolio and of two that are refused.
pub fn outside_values()
    ensures answered { NinePairsAnswered }
    ensures refused_10 { UnequalListsRefused }
    ensures refused_1 { ShortAnswerUntouched }
{}
