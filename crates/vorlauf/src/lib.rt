// Lead times: may a message of this day ask for that date, and which dates may it ask for?
//
// Document 01, vorlauf.rs and 'The span of anchors'. A day comes taken apart, its index beside its date, and so does
// what a verdict or a span names. t is the transmission day (Übertragungstag, ÜT), a the anchor, the date that the
// message carries. There is no verdict and no span where a date that is computed leaves the calendar.
#![tactic(auto)]

ghost use Rattle.std.specs.Prelude.{◌≡◌, ℕ, ◌<◌, cond, ltb, pos, ◌-ℤ◌, Option, Some};
ghost use Rattle.std.specs.Option.{option_zip};
ghost use Rattle.zaehlung.specs.Walk.{on_step, day_after, add, W, between};
ghost use Rattle.datum.specs.Monate.{M};
ghost use Rattle.werktag.specs.Werktag.{is_werktag};
ghost use Rattle.vorlauf.specs.Verdict.{closes, fruehester_termin_nach_tag_vor_dem_letzten_werktag, not_after};
ghost use Rattle.vorlauf.specs.Margin.{judgement_of};
ghost use Rattle.vorlauf.specs.Span.{span_from, span_between, span_of};

use datum::monate;
use datum::tage::Tag;
use werktag::HolidayCalendar;

pub mod abmeldung;

/// The shape of a Vorlauffrist, in Werktagen or months relative to its anchor date.
#[derive(Clone, Copy)]
pub enum VorlaufShape {
    /// 'Spätester ÜT ist der n. WT vor dem ..': a minimum lead time.
    LatestWerktageBefore(u32),
    /// 'Frühester ÜT ist der a. WT und spätester der b. WT vor dem ..': `earliest` is the larger number.
    WindowWerktageBefore { earliest: u32, latest: u32 },
    /// 'Spätester ÜT ist der n. WT nach dem ..'.
    LatestWerktageAfter(u32),
    /// '.. frühestens am n. auf diese Aktion folgenden WT': the anchor is the requested date.
    EarliestWerktageAfter(u32),
    /// '.. vom n. WT vor bis zum n. WT nach dem ..': the WiM Realisierungskorridor.
    Korridor(u32),
    /// 'Spätester ÜT ist der Tag vor dem letzten WT vor dem ..': that day may itself be a Sunday.
    TagVorDemLetztenWerktagVor,
    /// 'Spätester ÜT liegt n Monate vor dem ..'.
    LatestMonateBefore(u32),
    /// 'Spätester ÜT liegt n Monate und m WT vor dem ..': the months first, then the Werktage back.
    LatestMonateUndWerktageBefore { monate: u32, werktage: u32 },
}

/// The verdict on a transmission day and an anchor. No `Result`: TooLate and TooEarly are answers, and no failures.
#[derive(Clone, Copy)]
pub enum VorlaufVerdict {
    /// The date respects the window.
    Ok,
    /// Transmitted later than the window allows, by so many Werktage, with the date that the Rust then names.
    TooLate {
        shortfall_wt: u32,
        earliest_possible: Tag,
    },
    /// Transmitted so many Werktage before the window opens.
    TooEarly {
        excess_wt: u32,
    },
}

/// A verdict with its margin, in calendar days: the last permitted transmission day minus the transmission day, for
/// `EarliestWerktageAfter` the anchor minus the earliest.
pub type Judgement = (VorlaufVerdict, i32);

/// The anchors that a transmission day may ask for.
#[derive(Clone, Copy)]
pub enum Span {
    /// From this day on.
    From(Tag),
    /// From the first day to the last, both among them.
    Both(Tag, Tag),
    /// None.
    Empty,
}

/// TooLate: t is after the day on which the window closes, by the Werktage between, and `first` is the date named.
fn too_late(t: Tag, closes: Tag, first: Tag, cal: HolidayCalendar) -> VorlaufVerdict
    requires { closes < t }
    ensures { result ≡ VorlaufVerdict.TooLate (between (is_werktag cal) closes t) first }
{
    let shortfall = schritte::werktage_between(closes, t, cal);
    VorlaufVerdict::TooLate {
        shortfall_wt: shortfall,
        earliest_possible: first,
    }
}

/// TooEarly: t is before the day on which the window opens, by the Werktage between.
fn too_early(t: Tag, opens: Tag, cal: HolidayCalendar) -> VorlaufVerdict
    requires { t < opens }
    ensures { result ≡ VorlaufVerdict.TooEarly (between (is_werktag cal) t opens) }
{
    let excess_wt = schritte::werktage_between(t, opens, cal);
    VorlaufVerdict::TooEarly { excess_wt }
}

/// The days from t to the day on which the window closes, below zero where that was before t.
fn margin(t: Tag, closes: Tag) -> i32
    ensures { result ≡ pos closes -ℤ pos t }
{
    closes.index as i32 - t.index as i32
}

/// `Ok` while t is at or before `closes`, else `TooLate` with the date of `first`, which is computed only then.
#[tactic(auto, unfolding(crate::specs::Verdict::not_after))]
fn not_after<F: FnOnce() -> Option<Tag>>(
    t: Tag,
    closes: Tag,
    first: F,
    cal: HolidayCalendar,
) -> Option<Judgement>
    requires { F.IsAlwaysCallable first }
    ensures { (s : Option ℕ) → ((r : Option ℕ) → F.post first r → r ≡ s) →
        result ≡ option_zip (not_after (is_werktag cal) t closes s) (Some (pos closes -ℤ pos t)) }
{
    let margin = margin(t, closes);
    if t <= closes {
        return Some((VorlaufVerdict::Ok, margin));
    }
    let first = first()?;
    Some((too_late(t, closes, first, cal), margin))
}

/// `TooEarly` while t is before `opens`, else as `not_after`. The margin goes by `closes` in either case.
fn not_outside<F: FnOnce() -> Option<Tag>>(
    t: Tag,
    opens: Tag,
    closes: Tag,
    first: F,
    cal: HolidayCalendar,
) -> Option<Judgement>
    requires { F.IsAlwaysCallable first }
    ensures { (s : Option ℕ) → ((r : Option ℕ) → F.post first r → r ≡ s) →
        result ≡ option_zip
        (cond (ltb t opens) (Some (VorlaufVerdict.TooEarly (between (is_werktag cal) t opens)))
        (not_after (is_werktag cal) t closes s)) (Some (pos closes -ℤ pos t)) }
{
    if t < opens {
        return Some((too_early(t, opens, cal), margin(t, closes)));
    }
    not_after(t, closes, first, cal)
}

/// t is the `n`-th Werktag before the anchor at the latest. `LatestWerktageBefore(1)` from Saturday 10 January 2026
/// against Monday 12 January: TooLate by 0 Werktage, and the date named is that Monday.
#[tactic(auto, unfolding(crate::specs::Margin::judgement_of))]
fn latest_werktage_before(n: u32, t: Tag, a: Tag, cal: HolidayCalendar) -> Option<Judgement>
    ensures { result ≡ judgement_of (is_werktag cal) (VorlaufShape.LatestWerktageBefore n) t a }
{
    let closes = schritte::sub_werktage(a, n, cal)?;
    not_after(t, closes, || schritte::add_werktage(t, n, cal), cal)
}

/// t is the `earliest`-th Werktag before the anchor at the earliest, and the `latest`-th at the latest.
#[tactic(auto, unfolding(crate::specs::Margin::judgement_of))]
fn window_werktage_before(
    earliest: u32,
    latest: u32,
    t: Tag,
    a: Tag,
    cal: HolidayCalendar,
) -> Option<Judgement>
    ensures { result ≡ judgement_of (is_werktag cal) (VorlaufShape.WindowWerktageBefore earliest latest) t a }
{
    let opens = schritte::sub_werktage(a, earliest, cal)?;
    let closes = schritte::sub_werktage(a, latest, cal)?;
    not_outside(
        t,
        opens,
        closes,
        || schritte::add_werktage(t, latest, cal),
        cal,
    )
}

/// t is the `n`-th Werktag after the anchor at the latest. Under TooLate the anchor itself is named.
#[tactic(auto, unfolding(crate::specs::Margin::judgement_of))]
fn latest_werktage_after(n: u32, t: Tag, a: Tag, cal: HolidayCalendar) -> Option<Judgement>
    ensures { result ≡ judgement_of (is_werktag cal) (VorlaufShape.LatestWerktageAfter n) t a }
{
    let closes = schritte::add_werktage(a, n, cal)?;
    not_after(t, closes, || Some(a), cal)
}

/// The anchor, the date requested, is the `n`-th Werktag after t at the earliest.
#[tactic(auto, unfolding(crate::specs::Margin::judgement_of))]
fn earliest_werktage_after(n: u32, t: Tag, a: Tag, cal: HolidayCalendar) -> Option<Judgement>
    ensures { result ≡ judgement_of (is_werktag cal) (VorlaufShape.EarliestWerktageAfter n) t a }
{
    let first = schritte::add_werktage(t, n, cal)?;
    not_after(first, a, || Some(first), cal)
}

/// t lies from the `n`-th Werktag before the anchor to the `n`-th after it. Under TooLate the opening day is named.
#[tactic(auto, unfolding(crate::specs::Margin::judgement_of))]
fn korridor(n: u32, t: Tag, a: Tag, cal: HolidayCalendar) -> Option<Judgement>
    ensures { result ≡ judgement_of (is_werktag cal) (VorlaufShape.Korridor n) t a }
{
    let opens = schritte::sub_werktage(a, n, cal)?;
    let closes = schritte::add_werktage(a, n, cal)?;
    not_outside(t, opens, closes, || Some(opens), cal)
}

/// The day after the first Werktag strictly after t: a full Werktag has to lie between t and the date. From a Monday
/// that is Wednesday.
#[tactic(auto, unfolding(crate::specs::Verdict::fruehester_termin_nach_tag_vor_dem_letzten_werktag))]
fn fruehester_termin_nach_tag_vor_dem_letzten_werktag(t: Tag, cal: HolidayCalendar) -> Option<Tag>
    ensures { result ≡ fruehester_termin_nach_tag_vor_dem_letzten_werktag (is_werktag cal) t }
{
    let next_day = schritte::day_after(t)?;
    let werktag = schritte::next_werktag(next_day, cal)?;
    schritte::day_after(werktag)
}

/// t is the day before the last Werktag before the anchor at the latest. From Thursday 8 January 2026: Friday 9 January
/// is TooLate by 1 Werktag, Saturday 10 January Ok.
#[tactic(auto, unfolding(crate::specs::Margin::judgement_of))]
fn tag_vor_dem_letzten_werktag_vor(t: Tag, a: Tag, cal: HolidayCalendar) -> Option<Judgement>
    ensures { result ≡ judgement_of (is_werktag cal) VorlaufShape.TagVorDemLetztenWerktagVor t a }
{
    let letzter = schritte::sub_werktage(a, 1, cal)?;
    let closes = schritte::day_before(letzter)?;
    not_after(
        t,
        closes,
        || fruehester_termin_nach_tag_vor_dem_letzten_werktag(t, cal),
        cal,
    )
}

/// t lies `n` months before the anchor at the latest. The earliest date is computed even when the verdict is Ok.
#[tactic(auto, unfolding(crate::specs::Margin::judgement_of))]
fn latest_monate_before(n: u32, t: Tag, a: Tag, cal: HolidayCalendar) -> Option<Judgement>
    ensures { result ≡ judgement_of (is_werktag cal) (VorlaufShape.LatestMonateBefore n) t a }
{
    let closes = monate::months_earlier(a, n)?;
    let first = monate::months_later(t, n)?;
    not_after(t, closes, || Some(first), cal)
}

/// The day `monate` months and `werktage` Werktage before the anchor: the months first, then the Werktage back from the
/// day on which they land.
#[tactic(auto, unfolding(crate::specs::Verdict::closes))]
fn monate_und_werktage_before(
    monate: u32,
    werktage: u32,
    a: Tag,
    cal: HolidayCalendar,
) -> Option<Tag>
    ensures { result ≡ closes (is_werktag cal) (VorlaufShape.LatestMonateUndWerktageBefore monate werktage) a }
{
    let back = monate::months_earlier(a, monate)?;
    schritte::sub_werktage(back, werktage, cal)
}

/// t lies `monate` months and `werktage` Werktage before the anchor at the latest. The earliest date is computed even
/// when the verdict is Ok.
#[tactic(auto, unfolding(crate::specs::Margin::judgement_of))]
fn latest_monate_und_werktage_before(
    monate: u32,
    werktage: u32,
    t: Tag,
    a: Tag,
    cal: HolidayCalendar,
) -> Option<Judgement>
    ensures { result ≡ judgement_of (is_werktag cal) (VorlaufShape.LatestMonateUndWerktageBefore monate werktage) t
        a }
{
    let closes = monate_und_werktage_before(monate, werktage, a, cal)?;
    let on = schritte::add_werktage(t, werktage, cal)?;
    let first = monate::months_later(on, monate)?;
    not_after(t, closes, || Some(first), cal)
}

/// The span from the day of a step on.
fn span_from(first: Option<Tag>) -> Option<Span>
    ensures { result ≡ span_from first }
{
    Some(Span::From(first?))
}

/// The span between the days of two steps, empty if the first is later.
fn span_between(first: Option<Tag>, end: Option<Tag>) -> Option<Span>
    ensures { result ≡ span_between first end }
{
    let f = first?;
    let l = end?;
    if l < f {
        return Some(Span::Empty);
    }
    Some(Span::Both(f, l))
}

/// The day after the first Werktag after t.
fn after_first_werktag(t: Tag, cal: HolidayCalendar) -> Option<Tag>
    ensures { result ≡ on_step None (add (is_werktag cal) t 1) day_after }
{
    let werktag = schritte::add_werktage(t, 1, cal)?;
    schritte::day_after(werktag)
}

/// M(monate, W(werktage)) of document 01.
fn months_after_werktage(t: Tag, monate: u32, werktage: u32, cal: HolidayCalendar) -> Option<Tag>
    ensures { result ≡ on_step None (W (is_werktag cal) t werktage) (M monate) }
{
    let day = schritte::day_after_werktage(t, werktage, cal)?;
    monate::months_or_first(day, monate)
}

impl VorlaufShape {
    /// The verdict on a transmission day and an anchor: Ok up to the last permitted transmission day, TooLate after it,
    /// and for the window and the Korridor TooEarly before the day on which they open; and its margin.
    ///
    /// `None` where a date that the Rust computes leaves the calendar; the two month shapes compute their earliest
    /// date even when the verdict is Ok. A date that is named lies in the calendar, and may be none that is acceptable.
    ///
    /// `LatestWerktageBefore(1)` from Saturday 10 January 2026 against Monday 12 January: TooLate by 0 Werktage, with
    /// that Monday, and a margin of -1.
    pub fn check(
        self,
        uebertragungstag: Tag,
        anchor: Tag,
        cal: HolidayCalendar,
    ) -> Option<Judgement>
        ensures { result ≡ judgement_of (is_werktag cal) self uebertragungstag anchor }
    {
        let t = uebertragungstag;
        match self {
            VorlaufShape::LatestWerktageBefore(n) => latest_werktage_before(n, t, anchor, cal),
            VorlaufShape::WindowWerktageBefore { earliest, latest } => {
                window_werktage_before(earliest, latest, t, anchor, cal)
            }
            VorlaufShape::LatestWerktageAfter(n) => latest_werktage_after(n, t, anchor, cal),
            VorlaufShape::EarliestWerktageAfter(n) => earliest_werktage_after(n, t, anchor, cal),
            VorlaufShape::Korridor(n) => korridor(n, t, anchor, cal),
            VorlaufShape::TagVorDemLetztenWerktagVor => tag_vor_dem_letzten_werktag_vor(
                t, anchor, cal,
            ),
            VorlaufShape::LatestMonateBefore(n) => latest_monate_before(n, t, anchor, cal),
            VorlaufShape::LatestMonateUndWerktageBefore { monate, werktage } => {
                latest_monate_und_werktage_before(monate, werktage, t, anchor, cal)
            }
        }
    }

    /// The anchors that a transmission day may ask for ('The span of anchors').
    ///
    /// `None` where an end leaves the calendar. Only the window's span can be empty.
    ///
    /// `LatestWerktageBefore(1)` from Saturday 10 January 2026: from Tuesday 13 January. `LatestMonateBefore(1)` from
    /// 31 January 2026: from 1 March.
    #[tactic(auto, unfolding(crate::specs::Span::span_of))]
    pub fn span(self, uebertragungstag: Tag, cal: HolidayCalendar) -> Option<Span>
        ensures { result ≡ span_of (is_werktag cal) self uebertragungstag }
    {
        let t = uebertragungstag;
        match self {
            VorlaufShape::LatestWerktageBefore(n) => span_from(schritte::day_after_werktage(
                t, n, cal,
            )),
            VorlaufShape::WindowWerktageBefore { earliest, latest } => span_between(
                schritte::day_after_werktage(t, latest, cal),
                schritte::add_werktage(t, earliest, cal),
            ),
            VorlaufShape::LatestWerktageAfter(n) => span_from(schritte::sub_werktage(t, n, cal)),
            VorlaufShape::EarliestWerktageAfter(n) => span_from(schritte::add_werktage(t, n, cal)),
            VorlaufShape::Korridor(n) => span_between(
                schritte::sub_werktage(t, n, cal),
                schritte::add_werktage(t, n, cal),
            ),
            VorlaufShape::TagVorDemLetztenWerktagVor => span_from(after_first_werktag(t, cal)),
            VorlaufShape::LatestMonateBefore(n) => span_from(monate::months_or_first(t, n)),
            VorlaufShape::LatestMonateUndWerktageBefore { monate, werktage } => {
                span_from(months_after_werktage(t, monate, werktage, cal))
            }
        }
    }
}
