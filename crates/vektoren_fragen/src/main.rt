// Replays stored files of questions: reads each with the answers that are expected, asks `mf_questions`, and prints the
// number of each file whose answers differ, then how many files there were and how many were equal.
//
// A stored file is 4 bytes, how many bytes of questions it has, and 4 bytes, how many bytes are lent for its answers,
// both little-endian; then the questions; then the number that the call returns; then the answers as it leaves them. An
// input that ends within a file, or has one longer than any here, counts as one that differs, and nothing behind it is
// read.
#![tactic(auto)]

ghost use Rattle.std.specs.Prelude.{◌≡◌, ◌↔◌, length, IsTrue, IfOk};
ghost use Rattle.vektoren_fragen.specs.FileCase.{AsExpected, ReplaysFile, ReplaysNext};

use std::io;
use std::io::Read;
use wiedergabe::Replayed;

// The bytes of the two lengths before a file.
const HEAD_BYTES: usize = 8;

// The most bytes of questions or answers in a stored file: some are longer than the call takes.
const MOST_BYTES: usize = 65600;

// What each byte of the answers is before the call, so that one that the call leaves out is seen.
const UNWRITTEN: u8 = 170;

// Asks the questions, and returns whether the number that the call returns and the answers that it leaves are as
// expected.
fn is_expected(questions: &[u8], answers: &mut [u8], number: u8, expected: &[u8]) -> bool
    ensures { IsTrue result ↔ AsExpected questions.now answers.old number expected.now }
{
    mako_fristen::mf_questions(questions, answers) == number && *answers == *expected
}

// Reads a file into slices of its lengths, asks its questions and compares.
#[tactic(auto, using(crate::proofs::Read::file_rules))]
fn replay_file<R: Read>(
    input: &mut R,
    questions: &mut [u8],
    answers: &mut [u8],
    expected: &mut [u8],
) -> io::Result<Replayed>
    requires { length answers.old ≡ length expected.old }
    ensures { IfOk result (ReplaysFile (R.remaining input.old) (R.remaining input.new)
        questions.new expected.new) }
{
    let mut number = [0u8; 1];
    if !eingabe::fills(input, questions)? {
        return Ok(Replayed::Unreadable);
    }
    if !eingabe::fills(input, &mut number)? {
        return Ok(Replayed::Unreadable);
    }
    if !eingabe::fills(input, expected)? {
        return Ok(Replayed::Unreadable);
    }
    answers.fill(UNWRITTEN);
    let equal = is_expected(questions, answers, number[0], expected);
    Ok(Replayed::from(equal))
}

// Reads the two lengths of the next file, and then the file, into places for its questions, its answers and those that
// are expected.
#[tactic(auto, using(crate::proofs::Read::next_rules))]
fn replay_next<R: Read>(
    input: &mut R,
    questions: &mut [u8; MOST_BYTES],
    answers: &mut [u8; MOST_BYTES],
    expected: &mut [u8; MOST_BYTES],
) -> io::Result<Option<Replayed>>
    ensures { IfOk result (ReplaysNext (R.remaining input.old) (R.remaining input.new)) }
{
    // `vektoren_portfolio` begins alike, with a longer head: a function for both would have three outcomes to tell, and
    // be no shorter.
    let mut head = [0u8; HEAD_BYTES];
    let n = eingabe::read_full(input, &mut head)?;
    if n == 0 {
        return Ok(None);
    }
    if n != HEAD_BYTES {
        return Ok(Some(Replayed::Unreadable));
    }
    let asked = zahlen::u32_at(&head, 0) as usize;
    let lent = zahlen::u32_at(&head, 4) as usize;
    if MOST_BYTES < asked || MOST_BYTES < lent {
        return Ok(Some(Replayed::Unreadable));
    }
    let case = replay_file(
        input,
        &mut questions[..asked],
        &mut answers[..lent],
        &mut expected[..lent],
    )?;
    Ok(Some(case))
}

fn main(rt: HostRuntime) -> io::Result<()> {
    let mut input = rt.stdin();
    let mut questions = [0u8; MOST_BYTES];
    let mut answers = [0u8; MOST_BYTES];
    let mut expected = [0u8; MOST_BYTES];
    let counts = wiedergabe::replay_all(
        &rt,
        || replay_next(&mut input, &mut questions, &mut answers, &mut expected),
    )?;
    println!(rt; "{} files, {} equal", counts.total, counts.equal)
}
