// The theorems about the Berlin clock. The functions do nothing: what each promises is a theorem about the definitions
// that this crate's other functions are proved to meet.
ghost use Rattle.berlin.specs.SummerTime.{SummerTimeIsTwoHours, OtherTimeIsOneHour};
ghost use Rattle.berlin.specs.LocalTimes.{LimitsAreBerlinDays, FoundIsEarliest, NotFoundIsNeverShown, AbsentInMarch};
ghost use Rattle.berlin.specs.LocalTimes.{RepeatedInOctober, MarchSwitchIsSunday, OctoberSwitchIsSunday};
ghost use Rattle.berlin.specs.Tiles.{MidnightIsShown, EndIsShown, DaysTile, EndIsLast, EndIsInDay};
ghost use Rattle.berlin.specs.Comparisons.{BeforeMidnightShowsEarlier, BeforeFullSecondShowsEarlier};
ghost use Rattle.berlin.specs.Parts.{EarlierDayIsBefore, LaterDayIsNotBefore, EarlierSecondIsBefore};
ghost use Rattle.berlin.specs.Parts.{LaterSecondIsNotBefore, NanosDecideInSecond};
ghost use Rattle.berlin.specs.Tagesbeginne.{GasBeginningIsShown, BeginningBeginsItsDay, BegunDayHasBeginning};
ghost use Rattle.berlin.specs.OutsideValues.{SwitchValues, ClockValues, BeginningValues, BegunDayValues};
ghost use Rattle.berlin.specs.OutsideValues.{BerlinDayValues};

/// Theorem: Berlin is two hours ahead of UTC from the last Sunday of March 01:00 UTC to the last Sunday of October
/// 01:00 UTC, and one hour at any other time.
pub fn summer_time()
    ensures summer { SummerTimeIsTwoHours }
    ensures other { OtherTimeIsOneHour }
{}

/// Theorem: a local time means the earliest instant that shows it, if one does. Absent is exactly the hour from 02:00
/// of the last Sunday of March, and repeated exactly that of the last Sunday of October.
pub fn local_time()
    ensures limits { LimitsAreBerlinDays }
    ensures found { FoundIsEarliest }
    ensures not_found { NotFoundIsNeverShown }
    ensures absent { AbsentInMarch }
    ensures repeated { RepeatedInOctober }
    ensures march_switch { MarchSwitchIsSunday }
    ensures october_switch { OctoberSwitchIsSunday }
{}

/// Theorem: days tile the time line. Each instant of the calendar lies in one day, from its midnight on and before the
/// next, and none lies after the end of its day. A midnight shows 00:00, and an end 23:59:59.999999999.
pub fn days_tile()
    ensures midnight_shown { MidnightIsShown }
    ensures end_shown { EndIsShown }
    ensures tile { DaysTile }
    ensures end_last { EndIsLast }
    ensures end_inside { EndIsInDay }
{}

/// Theorem: an instant is before a midnight, or before a full second outside the hour from 02:00, exactly if the Berlin
/// clock shows an earlier time.
pub fn comparisons()
    ensures midnight { BeforeMidnightShowsEarlier }
    ensures full_second { BeforeFullSecondShowsEarlier }
{}

/// Theorem: of two instants, inside the calendar or not, the first part in which they differ decides which is earlier:
/// the UTC day, the second of that day, the nanoseconds.
pub fn parts_decide()
    ensures earlier_day { EarlierDayIsBefore }
    ensures later_day { LaterDayIsNotBefore }
    ensures earlier_second { EarlierSecondIsBefore }
    ensures later_second { LaterSecondIsNotBefore }
    ensures same_second { NanosDecideInSecond }
{}

/// Theorem: a day and the instant at which it begins lead to each other, in either Sparte. A Gas day begins when the
/// clock shows 06:00.
pub fn tagesbeginn()
    ensures gas_shown { GasBeginningIsShown }
    ensures day_of_beginning { BeginningBeginsItsDay }
    ensures beginning_of_day { BegunDayHasBeginning }
{}

/// Theorem: the definitions give what the IANA time zone database has for Europe/Berlin, at chosen instants.
pub fn outside_values()
    ensures switches { SwitchValues }
    ensures clocks { ClockValues }
    ensures beginnings { BeginningValues }
    ensures begun_days { BegunDayValues }
    ensures berlin_days { BerlinDayValues }
{}
