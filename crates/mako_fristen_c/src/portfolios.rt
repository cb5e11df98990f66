// Counts for a whole portfolio.
ghost use Rattle.std.specs.Prelude.{◌≡◌};
ghost use Rattle.werktag.specs.declared.HolidayCalendar.TheVariants.{BdewMaKo};
ghost use Rattle.werktag.specs.Werktag.{is_werktag};
ghost use Rattle.antworten_portfolio.specs.Portfolio.{portfolio_reply};

/// [`mako_fristen::mf_portfolio`] for C.
#[unsafe(no_mangle)]
pub extern "C" fn mf_portfolio(
    from: &[u32],
    to: &[u32],
    counts: &mut [u32],
    answer: &mut [u8],
) -> u8
    ensures { (result, counts.new, answer.new)
        ≡ portfolio_reply (is_werktag BdewMaKo) from.now to.now counts.old
        answer.old }
{
    mako_fristen::mf_portfolio(from, to, counts, answer)
}
