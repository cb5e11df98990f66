// What a portfolio answers: document 02, F-5. The lists are looked at once their lengths are known to be right; the
// answer reports how many entries of the year index were read for first days.
#![tactic(auto)]

ghost use Rattle.std.specs.Prelude.{◌≡◌};
ghost use Rattle.werktag.specs.Werktag.{is_werktag};
ghost use Rattle.antworten_portfolio.specs.Portfolio.{portfolio_reply};

pub mod theorems;

use antwortsatz::{ANSWER_BYTES, Refusal};
use werktag::HolidayCalendar;

/// Counts the Werktage of each pair into the third list, and writes the answer. Returns 0; 1 for an answer of another
/// length, and then touches nothing; 10 for lists that are no portfolio, and then leaves the third list as it was. A
/// number and no `Result`: that is what the C interface returns.
///
/// Of the days 20,545 (2 April 2026) and 20,549 with 20,550 each the counts are 1 and 1, and the answer has count 1.
#[tactic(auto, using(crate::proofs::Rules::portfolio_reply_rules))]
pub fn portfolio_reply(
    from: &[u32],
    to: &[u32],
    counts: &mut [u32],
    answer: &mut [u8],
    cal: HolidayCalendar,
) -> u8
    ensures { (result, counts.new, answer.new)
        ≡ portfolio_reply (is_werktag cal) from.now to.now counts.old
        answer.old }
{
    // Before the lists, and not by the writer alone: the third is not touched then.
    if answer.len() != ANSWER_BYTES {
        return Refusal::AnswerLength.number();
    }
    if !portfolio::is_portfolio(from.len(), to.len(), counts.len()) {
        return antwortsatz::reply(answer, Err(Refusal::ListLength));
    }
    let read = portfolio::counts_of(from, to, counts, cal);
    antwortsatz::reply(answer, Ok(antwortsatz::counted(read, 0)))
}
