// The holidays of the list by name, and the days that they fall on.
ghost use Rattle.std.specs.Prelude.{◌≡◌, ◌≤◌};
ghost use Rattle.std.specs.Option.{option_map_or};
ghost use Rattle.zaehlung.specs.Walk.{last};
ghost use Rattle.datum.specs.Calendar.{date_of, weekday};
ghost use Rattle.werktag.specs.Easter.{easter_for};
ghost use Rattle.werktag.specs.Werktag.{is_fixed, is_buss_und_bettag, at_feast};
ghost use Rattle.werktag.specs.Reason.{reason_number, fixed_place, fixed_bits, feast_place};

use super::Kalendertag;

const NOVEMBER: u8 = 11;

/// Weekdays, Monday being 0.
const WEDNESDAY: u32 = 2;

/// Why a day is closed: '1 Saturday, 2 Sunday, 3 to 22 the holidays', in the order of what closes a day: the weekend,
/// then the list. A Werktag has no reason; an answer has 0 for it.
#[derive(Clone, Copy, PartialEq, Eq)]
pub enum Reason {
    Samstag = 1,
    Sonntag = 2,
    Neujahr = 3,
    HeiligeDreiKoenige = 4,
    Frauentag = 5,
    TagDerArbeit = 6,
    MariaeHimmelfahrt = 7,
    Weltkindertag = 8,
    TagDerDeutschenEinheit = 9,
    Reformationstag = 10,
    Allerheiligen = 11,
    Heiligabend = 12,
    ErsterWeihnachtstag = 13,
    ZweiterWeihnachtstag = 14,
    Silvester = 15,
    BussUndBettag = 16,
    Karfreitag = 17,
    Ostermontag = 18,
    ChristiHimmelfahrt = 19,
    Pfingstsonntag = 20,
    Pfingstmontag = 21,
    Fronleichnam = 22,
}

impl Reason {
    /// The number that an answer has for it: that of `BussUndBettag` is 16.
    pub fn number(self) -> u8
        ensures { result ≡ reason_number self }
    {
        self as u8
    }
}

/// The fixed days: month, day and reason.
const FIXED_DAYS: [(u8, u8, Reason); 13] = [
    (1, 1, Reason::Neujahr),
    (1, 6, Reason::HeiligeDreiKoenige),
    (3, 8, Reason::Frauentag),
    (5, 1, Reason::TagDerArbeit),
    (8, 15, Reason::MariaeHimmelfahrt),
    (9, 20, Reason::Weltkindertag),
    (10, 3, Reason::TagDerDeutschenEinheit),
    (10, 31, Reason::Reformationstag),
    (11, 1, Reason::Allerheiligen),
    (12, 24, Reason::Heiligabend),
    (12, 25, Reason::ErsterWeihnachtstag),
    (12, 26, Reason::ZweiterWeihnachtstag),
    (12, 31, Reason::Silvester),
];

/// The feasts that move with Easter Sunday: days from it and reason.
const EASTER_FEASTS: [(i64, Reason); 6] = [
    (-2, Reason::Karfreitag),
    (1, Reason::Ostermontag),
    (39, Reason::ChristiHimmelfahrt),
    (49, Reason::Pfingstsonntag),
    (50, Reason::Pfingstmontag),
    (60, Reason::Fronleichnam),
];

/// The fixed days of a month, 2 to the power of its day for each: 66 is 2 and 64, 1 and 6 January.
#[tactic(auto, unfolding(crate::specs::Reason::fixed_bits))]
fn fixed_bits(month: u8) -> u32
    ensures { result ≡ fixed_bits month }
{
    match month {
        1 => 66,
        3 => 256,
        5 => 2,
        8 => 32768,
        9 => 1048576,
        10 => 2147483656,
        11 => 2,
        12 => 2264924160,
        _ => 0,
    }
}

/// The feasts that move with Easter, 2 to the power of the days from Karfreitag for each: its offset, and 2.
const FEAST_BITS: u64 = 4618443616891699209;

const KARFREITAG_BEFORE: u32 = 2;

const FRONLEICHNAM_BIT: u32 = 62;

impl Kalendertag {
    /// Whether it is one of the fixed days, without a look at the tables: they are searched where there is something to
    /// find.
    #[tactic(auto, using(crate::proofs::Rules::fixed_rules))]
    pub(crate) fn has_fixed_day(&self) -> bool
        ensures { result ≡ is_fixed (date_of self.now).month (date_of self.now).day }
    {
        let tag = &self.tag;
        let date = &tag.date;
        (fixed_bits(date.month) >> (date.day as u32)) % 2 == 1
    }

    /// Its reason as a fixed day, if it is one.
    pub(crate) fn fixed_day(&self) -> Option<Reason>
        ensures { option_map_or reason_number result 0 ≡ fixed_place (date_of self.now).month (date_of self.now).day }
    {
        let tag = &self.tag;
        let date = &tag.date;
        FIXED_DAYS
            .iter()
            .find(|&&(month, day, _)| day == date.day && month == date.month)
            .map(|&(_, _, reason)| reason)
    }

    /// Buß- und Bettag: 'the Wednesday from 16 to 22 November'.
    #[tactic(auto, unfolding(crate::specs::Werktag::is_buss_und_bettag))]
    pub(crate) fn is_buss_und_bettag(&self) -> bool
        ensures { result ≡ is_buss_und_bettag (date_of self.now).month (date_of self.now).day (weekday self.now) }
    {
        let tag = &self.tag;
        let date = &tag.date;
        date.month == NOVEMBER && (16..=22).contains(&date.day) && self.wday == WEDNESDAY
    }

    /// Its reason as a feast, if it is one, by its distance from Easter Sunday.
    #[tactic(auto, using(crate::proofs::Rules::distance_fits))]
    pub(crate) fn feast(&self) -> Option<Reason>
        ensures { (option_map_or reason_number result 0
            ≡ feast_place self.now (easter_for (date_of self.now).year (date_of self.now).month)) × (self.now ≤ last) }
    {
        let tag = &self.tag;
        let distance = i64::from(tag.index) - i64::from(self.easter);
        EASTER_FEASTS
            .iter()
            .find(|&&(offset, _)| distance == offset)
            .map(|&(_, reason)| reason)
    }

    /// Whether it lies at one of the offsets from Easter Sunday, without a look at the table.
    #[tactic(auto, using(crate::proofs::Rules::is_feast_rules))]
    pub(crate) fn is_feast(&self) -> bool
        ensures { (result ≡ at_feast self.now (easter_for (date_of self.now).year (date_of self.now).month))
            × (self.now ≤ last) }
    {
        let tag = &self.tag;
        let Some(after) = (tag.index + KARFREITAG_BEFORE).checked_sub(self.easter) else {
            return false;
        };
        after <= FRONLEICHNAM_BIT && (FEAST_BITS >> after) % 2 == 1
    }
}
