// Counts for a whole portfolio: document 02, F-5, refusal 10.
ghost use Rattle.std.specs.Prelude.{◌≡◌};
ghost use Rattle.werktag.specs.declared.HolidayCalendar.TheVariants.{BdewMaKo};
ghost use Rattle.werktag.specs.Werktag.{is_werktag};
ghost use Rattle.antworten_portfolio.specs.Portfolio.{portfolio_reply};

use werktag::HolidayCalendar;

/// The Werktage between the two days of each pair, in a third list. A day is a number of days from 1 January 1970 on,
/// and a pair with a day out of range gives 4,294,967,295. The count of the answer is the number of runs: of pairs that
/// begin in one year, side by side, for which its entry of the year index is read once. Refusal 10 "if the three lists
/// differ in length or have over 4,096 entries"; "A refused call leaves the third list untouched."
///
/// From 2 and from 6 April 2026, 20,545 and 20,549, to 7 April, 20,550, there is 1 Werktag each, and the count is 1.
pub fn mf_portfolio(from: &[u32], to: &[u32], counts: &mut [u32], answer: &mut [u8]) -> u8
    ensures { (result, counts.new, answer.new)
        ≡ portfolio_reply (is_werktag BdewMaKo) from.now to.now counts.old
        answer.old }
{
    antworten_portfolio::portfolio_reply(from, to, counts, answer, HolidayCalendar::BdewMaKo)
}
