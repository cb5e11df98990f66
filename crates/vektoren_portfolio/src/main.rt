// Replays stored portfolios: reads each with what is expected of it, asks `mf_portfolio`, and prints the number of each
// portfolio that differs, then how many portfolios there were and how many were equal.
//
// A stored portfolio is 4 lengths of 4 bytes, little-endian as all numbers: how many entries the first, the second and
// the third list have, and how many bytes the answer; then the first list and the second, 4 bytes an entry; then the
// number that the call returns; then the third list and the answer as it leaves them. An input that ends within a
// portfolio, or has one longer than any here, counts as one that differs, and nothing behind it is read.
#![tactic(auto)]

ghost use Rattle.std.specs.Prelude.{◌≡◌, ◌↔◌, length, IsTrue, IfOk, MatchBool};
ghost use Rattle.std.specs.Io.KnownBytes.{Consumes, IsAtEnd};
ghost use Rattle.zahlen.specs.LittleEndian.{le4};
ghost use Rattle.vektoren_portfolio.specs.PortfolioCase.{bytes_of_list, LeavesAll, ReplaysPortfolio};
ghost use Rattle.vektoren_portfolio.specs.PortfolioCase.{ReplaysNextPortfolio};

use std::io;
use std::io::Read;
use wiedergabe::Replayed;

// The bytes of the four lengths before a portfolio.
const HEAD_BYTES: usize = 16;

// The most entries of a stored list: some are longer than the call takes.
const MOST_ENTRIES: usize = 4100;

// The most bytes of a stored answer: some are longer than the call takes.
const MOST_BYTES: usize = 64;

// What each entry of the third list and each byte of the answer is before the call, so that one that the call leaves
// out is seen: bytes of 170.
const UNWRITTEN_ENTRY: u32 = 2863311530;

const UNWRITTEN: u8 = 170;

// The number that is stored as four bytes.
fn number_of(bytes: &[u8; 4]) -> u32
    ensures { le4 result ≡ bytes.now }
{
    zahlen::u32_at(bytes, 0)
}

// Whether all of a list could be filled from the input, 4 bytes a number.
#[tactic(auto, using(crate::proofs::Read::list_rules))]
fn fills_numbers<R: Read>(input: &mut R, list: &mut [u32]) -> io::Result<bool>
    ensures { IfOk result (λ full. MatchBool full
        (Consumes (R.remaining input.old) (R.remaining input.new) (bytes_of_list list.new))
        (IsAtEnd (R.remaining input.new))) }
{
    for i in 0..list.len() {
        let mut bytes = [0u8; 4];
        if !eingabe::fills(input, &mut bytes)? {
            return Ok(false);
        }
        list[i] = number_of(&bytes);
    }
    Ok(true)
}

// Asks for the counts, and returns whether the call returns the number that is expected, and leaves the counts and the
// answer.
fn is_expected(
    from: &[u32],
    to: &[u32],
    counts: &mut [u32],
    answer: &mut [u8],
    number: u8,
    expected_counts: &[u32],
    expected: &[u8],
) -> bool
    ensures { IsTrue result ↔ LeavesAll from.now to.now counts.old answer.old number expected_counts.now expected.now }
{
    mako_fristen::mf_portfolio(from, to, counts, answer) == number
        && *counts == *expected_counts
        && *answer == *expected
}

// Reads a portfolio into lists of its lengths, asks for its counts and compares.
#[tactic(auto, using(crate::proofs::Read::portfolio_rules))]
fn replay_portfolio<R: Read>(
    input: &mut R,
    from: &mut [u32],
    to: &mut [u32],
    counts: &mut [u32],
    answer: &mut [u8],
    expected_counts: &mut [u32],
    expected: &mut [u8],
) -> io::Result<Replayed>
    requires counts { length counts.old ≡ length expected_counts.old }
    requires answer { length answer.old ≡ length expected.old }
    ensures { IfOk result (ReplaysPortfolio (R.remaining input.old) (R.remaining input.new)
        from.new to.new expected_counts.new expected.new) }
{
    let mut number = [0u8; 1];
    if !fills_numbers(input, from)? {
        return Ok(Replayed::Unreadable);
    }
    if !fills_numbers(input, to)? {
        return Ok(Replayed::Unreadable);
    }
    if !eingabe::fills(input, &mut number)? {
        return Ok(Replayed::Unreadable);
    }
    if !fills_numbers(input, expected_counts)? {
        return Ok(Replayed::Unreadable);
    }
    if !eingabe::fills(input, expected)? {
        return Ok(Replayed::Unreadable);
    }
    counts.fill(UNWRITTEN_ENTRY);
    answer.fill(UNWRITTEN);
    let equal = is_expected(
        from,
        to,
        counts,
        answer,
        number[0],
        expected_counts,
        expected,
    );
    Ok(Replayed::from(equal))
}

// Reads the four lengths of the next portfolio, and then the portfolio, into places for its lists, its answer and what
// is expected.
#[tactic(auto, using(crate::proofs::Read::next_rules))]
fn replay_next<R: Read>(
    input: &mut R,
    from: &mut [u32; MOST_ENTRIES],
    to: &mut [u32; MOST_ENTRIES],
    counts: &mut [u32; MOST_ENTRIES],
    answer: &mut [u8; MOST_BYTES],
    expected_counts: &mut [u32; MOST_ENTRIES],
    expected: &mut [u8; MOST_BYTES],
) -> io::Result<Option<Replayed>>
    ensures { IfOk result (ReplaysNextPortfolio (R.remaining input.old) (R.remaining input.new)) }
{
    // `vektoren_fragen` begins alike, with a shorter head: a function for both would have three outcomes to tell, and
    // be no shorter.
    let mut head = [0u8; HEAD_BYTES];
    let n = eingabe::read_full(input, &mut head)?;
    if n == 0 {
        return Ok(None);
    }
    if n != HEAD_BYTES {
        return Ok(Some(Replayed::Unreadable));
    }
    let first = zahlen::u32_at(&head, 0) as usize;
    let second = zahlen::u32_at(&head, 4) as usize;
    let third = zahlen::u32_at(&head, 8) as usize;
    let lent = zahlen::u32_at(&head, 12) as usize;
    if MOST_ENTRIES < first || MOST_ENTRIES < second {
        return Ok(Some(Replayed::Unreadable));
    }
    if MOST_ENTRIES < third || MOST_BYTES < lent {
        return Ok(Some(Replayed::Unreadable));
    }
    let case = replay_portfolio(
        input,
        &mut from[..first],
        &mut to[..second],
        &mut counts[..third],
        &mut answer[..lent],
        &mut expected_counts[..third],
        &mut expected[..lent],
    )?;
    Ok(Some(case))
}

fn main(rt: HostRuntime) -> io::Result<()> {
    let mut input = rt.stdin();
    let mut from = [0u32; MOST_ENTRIES];
    let mut to = [0u32; MOST_ENTRIES];
    let mut counts = [0u32; MOST_ENTRIES];
    let mut answer = [0u8; MOST_BYTES];
    let mut expected_counts = [0u32; MOST_ENTRIES];
    let mut expected = [0u8; MOST_BYTES];
    let replayed = wiedergabe::replay_all(
        &rt,
        || replay_next(
            &mut input,
            &mut from,
            &mut to,
            &mut counts,
            &mut answer,
            &mut expected_counts,
            &mut expected,
        ),
    )?;
    println!(rt; "{} portfolios, {} equal", replayed.total, replayed.equal)
}
