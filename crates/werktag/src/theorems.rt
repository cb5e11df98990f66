// The theorems about the holiday list. The functions do nothing: what each promises is a theorem about the definitions
// that this crate's code is proved to meet.
ghost use Rattle.werktag.specs.Closed.{ZeroIsWerktag, WeekendIsShut, WeekdayIsOpenUnlessListed};
ghost use Rattle.werktag.specs.Closed.{OneIsSaturday, TwoIsSunday, HolidayIsFirstRule};
ghost use Rattle.werktag.specs.Closed.{RuleOfFixedDay, RuleOfBussUndBettag, RuleOfFeast};
ghost use Rattle.werktag.specs.Closed.{TwentyIsNeverGiven, ReasonIsAtMost22};
ghost use Rattle.werktag.specs.EasterDay.{EasterIsDate, EasterIsSunday, EasterFromMarch22, EasterToApril25};
ghost use Rattle.werktag.specs.FeastDates.{DateByDistance, FeastByDistance, PlaceByDistance};
ghost use Rattle.werktag.specs.FeastDates.{ReasonEitherWay, BuiltReasonIsReason, DistantReasonIsReason};
ghost use Rattle.werktag.specs.OutsideValues.{EasterSundays, WerktageOf2026, EdgesOfWerktage, ReasonOfEachHoliday};
ghost use Rattle.werktag.specs.OutsideValues.{ReasonThatGoesFirst, FeastsOf2026, HimmelfahrtOf2008};
ghost use Rattle.werktag.specs.OutsideValues.{DistancesFromEaster, BuiltReasons, DistantReasons};

/// Theorem: a day is a Werktag exactly if its reason is 0. No Saturday and no Sunday is one, and any other day is one
/// exactly if it isn't in the list.
pub fn open_day()
    ensures no_reason { ZeroIsWerktag }
    ensures weekend { WeekendIsShut }
    ensures weekday { WeekdayIsOpenUnlessListed }
{}

/// Theorem: the reason is 1 exactly on a Saturday, 2 exactly on a Sunday, and on a weekday it is 3 or more by the place
/// of the list's first rule that holds. It is at most 22, and on no day of the calendar that of Pfingstsonntag, 20.
pub fn closed_day()
    ensures saturday { OneIsSaturday }
    ensures sunday { TwoIsSunday }
    ensures holiday { HolidayIsFirstRule }
    ensures fixed_day { RuleOfFixedDay }
    ensures buss_und_bettag { RuleOfBussUndBettag }
    ensures feast { RuleOfFeast }
    ensures never_pfingstsonntag { TwentyIsNeverGiven }
    ensures most { ReasonIsAtMost22 }
{}

/// Theorem: Easter Sunday is a date of the calendar, a Sunday, and lies from 22 March to 25 April.
pub fn easter_day()
    ensures date { EasterIsDate }
    ensures sunday { EasterIsSunday }
    ensures from_march_22 { EasterFromMarch22 }
    ensures to_april_25 { EasterToApril25 }
{}

/// Theorem: a date is one of the six feasts built from Easter exactly if its distance from Easter is one of the six
/// offsets, and its reason is the same either way.
pub fn feasts_by_distance()
    ensures date { DateByDistance }
    ensures feast { FeastByDistance }
    ensures place { PlaceByDistance }
    ensures reason { ReasonEitherWay }
    ensures built_reason { BuiltReasonIsReason }
    ensures distant_reason { DistantReasonIsReason }
{}

/// Theorem: the definitions give what is known from outside, of Easter Sundays, Werktage, reasons and feasts.
pub fn outside_values()
    ensures easter_sundays { EasterSundays }
    ensures werktage { WerktageOf2026 }
    ensures edges { EdgesOfWerktage }
    ensures holidays { ReasonOfEachHoliday }
    ensures precedence { ReasonThatGoesFirst }
    ensures feasts { FeastsOf2026 }
    ensures himmelfahrt { HimmelfahrtOf2008 }
    ensures distances { DistancesFromEaster }
    ensures built_reasons { BuiltReasons }
    ensures distant_reasons { DistantReasons }
{}
