// The theorems about due instants. The functions do nothing: what each promises is a theorem about the definitions that
// this crate's other functions are proved to meet.
ghost use Rattle.fristen.specs.NeverAbsent.{WerktagShutsSundays, MarchSwitchIsShut, OctoberSwitchIsShut};
ghost use Rattle.fristen.specs.NeverAbsent.{OpenDayShowsEachClock, ContrlIsNeverAbsent, ContrlChangeIsNeverAbsent};
ghost use Rattle.fristen.specs.NeverAbsent.{AddedHoursAreNeverAbsent, AperakStromIsNeverAbsent};
ghost use Rattle.fristen.specs.NeverAbsent.{NthWerktagIsNeverAbsent, EndOfWerktagIsNeverAbsent, AperakGasIsNeverAbsent};
ghost use Rattle.fristen.specs.NeverAbsent.{WerktagAtIsNeverAbsent, EndOfWerktagShapeIsNeverAbsent};
ghost use Rattle.fristen.specs.NeverAbsent.{SameDayIsNeverAbsent, SameDayAtIsAbsentIfUnshown};
ghost use Rattle.fristen.specs.Windows.{WindowIsShown, OtherDaysAreOutside, EveryYearHasWindowDays, WindowsAreApart};
ghost use Rattle.fristen.specs.Windows.{ToleranceMovesSpring, ToleranceMovesAutumn, ToleranceLeavesOthers};
ghost use Rattle.fristen.specs.VersionOne.{VersionOneMovesSpring, VersionOneMovesAutumn, VersionOneLeavesOutside};
ghost use Rattle.fristen.specs.VersionOne.{VersionOneRefusesIfOutside};
ghost use Rattle.fristen.specs.ChangeDay.{ChangeIsRefusedIfOutside, ChangeWindowDueMoves, ChangeWindowElseStays};
ghost use Rattle.fristen.specs.ChangeDay.{ChangeDayDueMoves, OtherDayDueStays, AprilAgreesOffAutumn};
ghost use Rattle.fristen.specs.ChangeDay.{OctoberAgreesOffSpring, AprilAgreesInSpring, OctoberAgreesInAutumn};
ghost use Rattle.fristen.specs.ChangeDay.{AprilLeavesAutumn, OctoberLeavesSpring, AprilLeavesOutside};
ghost use Rattle.fristen.specs.ChangeDay.{OctoberLeavesOutside};
ghost use Rattle.fristen.specs.OutsideValues.{ContrlWindowValues, ContrlValues, ChangeWindowValues};
ghost use Rattle.fristen.specs.OutsideValues.{SwitchSundayValues, ChangeEdgeValues, AperakStromValues};
ghost use Rattle.fristen.specs.OutsideValues.{WerktagDueValues, GasProzessValues, AperakGasValues, AddedHoursValues};
ghost use Rattle.fristen.specs.OutsideValues.{ShapeValues};

/// Theorem: no Sunday is a Werktag, nor a day on which the clock changes, so on a Werktag the clock shows every time.
pub fn werktag_clocks()
    ensures sundays { WerktagShutsSundays }
    ensures march { MarchSwitchIsShut }
    ensures october { OctoberSwitchIsShut }
    ensures shown { OpenDayShowsEachClock }
{}

/// Theorem: no due instant is ever refused because the clock doesn't show its time, but for that of `SameDayAt`: it is,
/// exactly if the clock doesn't show its time on the receipt day. The test of a day is any that no Sunday passes.
pub fn never_absent()
    ensures contrl { ContrlIsNeverAbsent }
    ensures contrl_change { ContrlChangeIsNeverAbsent }
    ensures hours { AddedHoursAreNeverAbsent }
    ensures aperak_strom { AperakStromIsNeverAbsent }
    ensures nth_werktag { NthWerktagIsNeverAbsent }
    ensures end_of_werktag { EndOfWerktagIsNeverAbsent }
    ensures aperak_gas { AperakGasIsNeverAbsent }
    ensures shape_werktag_at { WerktagAtIsNeverAbsent }
    ensures shape_end_of_werktag { EndOfWerktagShapeIsNeverAbsent }
    ensures shape_same_day { SameDayIsNeverAbsent }
    ensures shape_same_day_at { SameDayAtIsAbsentIfUnshown }
{}

/// Theorem: an instant lies in the window of a Formatumstellung exactly if the Berlin clock shows a time of it, and in
/// one of a year's two windows at most. The tolerance of a year moves an instant in the window of 1 April or of
/// 1 October of that year to the end of that window, and leaves an instant in neither.
pub fn window()
    ensures shown { WindowIsShown }
    ensures other_days { OtherDaysAreOutside }
    ensures days { EveryYearHasWindowDays }
    ensures apart { WindowsAreApart }
    ensures tolerance_in_spring { ToleranceMovesSpring }
    ensures tolerance_in_autumn { ToleranceMovesAutumn }
    ensures tolerance_in_neither { ToleranceLeavesOthers }
{}

/// Theorem: version one of the CONTRL rule moves what is due, before the tolerance, in the window of 1 April or of
/// 1 October of its year to the end of that window, and leaves what is due in neither. It refuses a message as Outside
/// exactly if it would without the tolerance.
pub fn formatumstellung()
    ensures spring { VersionOneMovesSpring }
    ensures autumn { VersionOneMovesAutumn }
    ensures neither { VersionOneLeavesOutside }
    ensures refused { VersionOneRefusesIfOutside }
{}

/// Theorem: version two moves what is due, before the tolerance, in the window of the change day to the end of that
/// window, and leaves all else. It refuses a message as Outside exactly if it would without the tolerance, or if the
/// calendar has no day before the change day or none after it.
pub fn change_day()
    ensures refused { ChangeIsRefusedIfOutside }
    ensures moved { ChangeWindowDueMoves }
    ensures stays { ChangeWindowElseStays }
    ensures on_the_day { ChangeDayDueMoves }
    ensures days_away { OtherDayDueStays }
{}

/// Theorem: with a change day of 1 April or 1 October of the year in which a message is due before the tolerance, both
/// versions agree exactly if it is not due in the other window of version one. In that window, and in neither, version
/// two leaves it.
pub fn versions_agree()
    ensures april { AprilAgreesOffAutumn }
    ensures october { OctoberAgreesOffSpring }
    ensures april_in_spring { AprilAgreesInSpring }
    ensures october_in_autumn { OctoberAgreesInAutumn }
    ensures april_in_autumn { AprilLeavesAutumn }
    ensures october_in_spring { OctoberLeavesSpring }
    ensures april_in_neither { AprilLeavesOutside }
    ensures october_in_neither { OctoberLeavesOutside }
{}

/// Theorem: the definitions give the due instants that the AHB and the GPKE name, at chosen receipts.
pub fn outside_values()
    ensures contrl_windows { ContrlWindowValues }
    ensures contrl { ContrlValues }
    ensures change_window { ChangeWindowValues }
    ensures switch_sundays { SwitchSundayValues }
    ensures change_edges { ChangeEdgeValues }
    ensures aperak_strom { AperakStromValues }
    ensures werktage { WerktagDueValues }
    ensures gas_prozess { GasProzessValues }
    ensures aperak_gas { AperakGasValues }
    ensures added_hours { AddedHoursValues }
    ensures shapes { ShapeValues }
{}
