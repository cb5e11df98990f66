// The theorems about spans, the dates that a TooLate names, and margins. The functions do nothing: what each promises
// is a theorem about the definitions that `vorlauf` is proved to meet, for any test of a day.
#![tactic(auto)]

ghost use Rattle.spannen.specs.Anchors.{SpanIsExact, FirstDayIsAcceptable, FirstDayIsLeast, EmptySpanAcceptsNone};
ghost use Rattle.spannen.specs.Named.{EarliestNamesFirstDay, TagNamesFirstDay, MonateNamesFirstDayUncut};
ghost use Rattle.spannen.specs.Named.{BeforeNamesFirstDayIfOpen, WindowNamesFirstDayIfOpen, AfterNamesNoFirstDay};
ghost use Rattle.spannen.specs.Named.{KorridorNamesNoFirstDay, AfterNamesNoAcceptable, KorridorNamesNoAcceptable};
ghost use Rattle.spannen.specs.Named.{BeforeNamesAcceptableFromWerktag, MonateUndWerktageMayName};
ghost use Rattle.spannen.specs.Named.{MonateUndWerktageMayMiss};
ghost use Rattle.spannen.specs.Sharp.{RefusedAnchorSpan, RefusedAnchorVerdict, RefusedSpan, RefusedSpanVerdicts};
ghost use Rattle.spannen.specs.Sharp.{RefusedSpanAcceptsNone, LeavingSpanVerdict, LeavingSpan, LeavingSpanBeginsNever};
ghost use Rattle.spannen.specs.Late.{LateIsAfter, LateIsAfterIfOrdered, LateHasShortfall, LateNamesDate};
ghost use Rattle.spannen.specs.Late.{MonthsBeforeAreExact};
ghost use Rattle.spannen.specs.Margins.{JudgementHasVerdict, JudgementHasMargin, MarginIsDifference};
ghost use Rattle.spannen.specs.Margins.{EarliestMarginIsAnchors, NoJudgementWithoutVerdict};
ghost use Rattle.spannen.specs.Margins.{NoJudgementWithoutClosing, EarliestRefusedByStep, MarginFits, LateIsNegative};
ghost use Rattle.spannen.specs.Margins.{NegativeIsLate, NegativeWindowIsEarly, NegativeWindowIsCrossed, NegativeWindow};

/// Theorem: the span says exactly which anchors are accepted. Where the span of a transmission day stays inside the
/// calendar, an anchor whose verdict is not refused gets Ok exactly if it lies in the span.
pub fn span_is_exact()
    ensures exact { SpanIsExact }
    ensures first_day_acceptable { FirstDayIsAcceptable }
    ensures first_day_least { FirstDayIsLeast }
    ensures empty_span { EmptySpanAcceptsNone }
{}

/// Theorem: when the date that a TooLate names is the first day of the span, and when it is acceptable. Of
/// `LatestMonateUndWerktageBefore` nothing is claimed: the last two clauses show that it goes either way.
pub fn named_date()
    ensures earliest { EarliestNamesFirstDay }
    ensures tag { TagNamesFirstDay }
    ensures monate { MonateNamesFirstDayUncut }
    ensures before { BeforeNamesFirstDayIfOpen }
    ensures window { WindowNamesFirstDayIfOpen }
    ensures after { AfterNamesNoFirstDay }
    ensures korridor { KorridorNamesNoFirstDay }
    ensures after_unacceptable { AfterNamesNoAcceptable }
    ensures korridor_unacceptable { KorridorNamesNoAcceptable }
    ensures before_acceptable { BeforeNamesAcceptableFromWerktag }
    ensures monate_und_werktage_may_name { MonateUndWerktageMayName }
    ensures monate_und_werktage_may_miss { MonateUndWerktageMayMiss }
{}

/// Theorem: `span_is_exact` and `named_date` are sharp. Each of three stronger wordings fails at an edge of the
/// calendar.
pub fn span_is_sharp()
    // 'Also an anchor whose verdict is refused gets Ok exactly if it lies in the span.'
    ensures refused_anchor_span { RefusedAnchorSpan }
    ensures refused_anchor_verdict { RefusedAnchorVerdict }
    // 'A span that is not empty has an acceptable anchor.'
    ensures refused_span { RefusedSpan }
    ensures refused_span_verdicts { RefusedSpanVerdicts }
    ensures refused_span_accepts_none { RefusedSpanAcceptsNone }
    // 'The date is the first day also where the span leaves the calendar.'
    ensures leaving_span_verdict { LeavingSpanVerdict }
    ensures leaving_span { LeavingSpan }
    ensures leaving_span_begins_never { LeavingSpanBeginsNever }
{}

/// Theorem: a verdict is TooLate only if the last permitted transmission day lies before the day that is held against
/// it; and exactly then, if it is not refused and the shape is no window with `earliest` below `latest`. Its shortfall
/// and its date are those of the shape.
pub fn late_verdict()
    ensures after { LateIsAfter }
    ensures exactly_after { LateIsAfterIfOrdered }
    ensures shortfall { LateHasShortfall }
    ensures date { LateNamesDate }
{}

/// Theorem: a day is in time by months exactly if the anchor is not before M, the day and as many months or, where the
/// day was cut to the month's last, the first of the next month.
pub fn months_before()
    ensures exact { MonthsBeforeAreExact }
{}

/// Theorem: a verdict's margin is negative exactly if the verdict is TooLate, but for a window that closes before it
/// opens, and it adds no refusal.
pub fn verdict_margin()
    ensures verdict { JudgementHasVerdict }
    ensures margin { JudgementHasMargin }
    ensures difference { MarginIsDifference }
    ensures earliest_difference { EarliestMarginIsAnchors }
    ensures refused { NoJudgementWithoutVerdict }
    ensures refused_closing { NoJudgementWithoutClosing }
    ensures refused_earliest { EarliestRefusedByStep }
    ensures fits { MarginFits }
    ensures late { LateIsNegative }
    ensures negative { NegativeIsLate }
    ensures window_early { NegativeWindowIsEarly }
    ensures window_crossed { NegativeWindowIsCrossed }
    ensures window_happens { NegativeWindow }
{}
