// The functions do nothing: what each promises is a theorem about the answers of a file.

ghost use Rattle.antworten_frage.specs.SingleCalls.{ContrlAsCall, FristAsCall, EndOfWerktagAsCall, SameDayAsCall};
ghost use Rattle.antworten_frage.specs.SingleCalls.{CheckAsCall, SpanAsCall};
ghost use Rattle.antworten_frage.specs.FileAnswers.{AnswersAreAsLong, AnswerStandsAtPlace, ClockFromItsSeconds};
ghost use Rattle.antworten_frage.specs.FileAnswers.{SecondsHaveClock, NoClockFromADayOn};
ghost use Rattle.antworten_frage.specs.OutsideValues.{FileOfSeven};

/// Theorem: a question of a file gets the answer of the single call that it stands for, whatever the record holds in
/// fields that the call does not use.
pub fn answered_as_call()
    ensures contrl { ContrlAsCall }
    ensures frist { FristAsCall }
    ensures end_of_werktag { EndOfWerktagAsCall }
    ensures same_day { SameDayAsCall }
    ensures check { CheckAsCall }
    ensures span { SpanAsCall }
{}

/// Theorem: the answers of a file stand in the order of its questions, and there are as many.
pub fn answers_in_order()
    ensures length { AnswersAreAsLong }
    ensures place { AnswerStandsAtPlace }
{}

/// Theorem: the seconds that a question has for a clock give that clock, and up to 86,399 any seconds give the clock of
/// their hours, minutes and seconds. From 86,400 on there is none.
pub fn clock_in_seconds()
    ensures back { ClockFromItsSeconds }
    ensures parts { SecondsHaveClock }
    ensures none { NoClockFromADayOn }
{}

/// Theorem: seven questions get the answers that are known for them from outside.
pub fn outside_values()
    ensures file { FileOfSeven }
{}
