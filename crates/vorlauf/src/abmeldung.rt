// The lead time of a deregistration by the grid operator (GPKE Teil 2, Kap. 2.5.2, SD 'Lieferende von NB an LF' Nr. 1),
// chosen by the reason and by whether the Marktlokation is one of the EEG.
//
// Document 01, abmeldung.rs.
ghost use Rattle.std.specs.Prelude.{◌≡◌};
ghost use Rattle.werktag.specs.Werktag.{is_werktag};
ghost use Rattle.vorlauf.specs.Abmeldung.{fuer_of, shape_of, abmeldung_check_of};

use super::{Judgement, VorlaufShape};
use datum::tage::Tag;
use werktag::HolidayCalendar;

/// Whether the object is an EEG-Marktlokation or a Tranche of one. No `Option<bool>`: unknown is an answer of its own.
#[derive(Clone, Copy)]
pub enum Eeg {
    Nein,
    Ja,
    Unbekannt,
}

/// Which window applies.
#[derive(Clone, Copy)]
pub enum AbmeldungVorlauf {
    /// 'Spätester ÜT ist der Tag vor dem letzten WT vor dem Zuordnungsende.'
    TagVorDemLetztenWerktag,
    /// 'Spätester ÜT liegt 1 Monat vor dem Zuordnungsende': EEG-Marktlokationen and their Tranchen.
    EinMonat,
    /// It is not known whether the Marktlokation is one of the EEG: a window that was not evaluated is not a kept one.
    Unbestimmt,
    /// `ZQ7`: its anchor never reaches the supplier, and Prüfschritt 120 of E_0609 tests its date instead.
    AnPruefschritt120,
}

/// Why a deregistration has no verdict.
#[derive(Clone, Copy, PartialEq, Eq)]
pub enum NoVerdict {
    /// Its window has no shape to give one.
    NoShape,
    /// A date that is computed leaves the calendar.
    Outside,
}

impl AbmeldungVorlauf {
    /// The window for a reason and an EEG mark: 1 month for EEG-Marktlokationen and their Tranchen, else the day before
    /// the last Werktag before.
    ///
    /// Only the three bytes `ZQ7` are the BKV's deactivation; "zq7", "ZQ7 " and an empty reason are ordinary. An
    /// unknown mark has no window.
    ///
    /// "ZQ7" with any mark: `AnPruefschritt120`. "zq7" with `Ja`: `EinMonat`.
    #[tactic(auto, using(crate::proofs::Bytes::bytes_same), unfolding(crate::specs::Abmeldung::fuer_of))]
    pub fn fuer(reason: &[u8], eeg: Eeg) -> AbmeldungVorlauf
        ensures { result ≡ fuer_of reason.now eeg }
    {
        if reason == b"ZQ7".as_slice() {
            return AbmeldungVorlauf::AnPruefschritt120;
        }
        match eeg {
            Eeg::Nein => AbmeldungVorlauf::TagVorDemLetztenWerktag,
            Eeg::Ja => AbmeldungVorlauf::EinMonat,
            Eeg::Unbekannt => AbmeldungVorlauf::Unbestimmt,
        }
    }

    /// The shape of the window, where one applies.
    ///
    /// `ZQ7` and an unknown EEG mark have none.
    ///
    /// `EinMonat`: `LatestMonateBefore(1)`.
    pub fn shape(self) -> Option<VorlaufShape>
        ensures { result ≡ shape_of self }
    {
        match self {
            AbmeldungVorlauf::TagVorDemLetztenWerktag => {
                Some(VorlaufShape::TagVorDemLetztenWerktagVor)
            }
            AbmeldungVorlauf::EinMonat => Some(VorlaufShape::LatestMonateBefore(1)),
            AbmeldungVorlauf::Unbestimmt => None,
            AbmeldungVorlauf::AnPruefschritt120 => None,
        }
    }

    /// The verdict on a transmission day and the Zuordnungsende with its margin: those of the window's shape.
    ///
    /// `NoShape` where the window has none: it was not evaluated, so it was not kept either.
    ///
    /// `EinMonat` from 31 January 2026 against 28 February: TooLate by 2 Werktage, with 28 February and -3.
    #[tactic(auto, unfolding(crate::specs::Abmeldung::abmeldung_check_of))]
    pub fn check(
        self,
        uebertragungstag: Tag,
        zuordnungsende: Tag,
        cal: HolidayCalendar,
    ) -> Result<Judgement, NoVerdict>
        ensures { result ≡ abmeldung_check_of (is_werktag cal) self uebertragungstag zuordnungsende }
    {
        let shape = self.shape().ok_or(NoVerdict::NoShape)?;
        shape
            .check(uebertragungstag, zuordnungsende, cal)
            .ok_or(NoVerdict::Outside)
    }
}
