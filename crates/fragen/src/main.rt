// Answers a file of questions: reads standard input to its end, in whatever pieces it comes, and
// writes all answers. For what is no file, and for an input that cannot be read to its end, it writes nothing.
#![tactic(auto)]

ghost use Rattle.std.specs.Prelude.{◌≡◌, ◌↔◌, [], length, IsTrue, IfOk, OnOk, IfSome};
ghost use Rattle.std.specs.Io.KnownBytes.{Appends};
ghost use Rattle.fragen.specs.Output.{output_for};

use std::io;
use std::io::{Read, Write};

// One byte more than a file can have.
const INPUT_BYTES: usize = 65537;

// Whether the input is at its end: a read that fails is no end, but an error.
fn is_at_end<R: Read>(input: &mut R) -> io::Result<bool>
    ensures { IfOk result (λ end. IfSome (R.remaining input.old) (λ known. IsTrue end ↔ (known ≡ []))) }
{
    Ok(input.read(&mut [0u8; 1])? == 0)
}

// What is to be written for questions: all answers, which go into a place of their length, or nothing.
fn answered<'a>(questions: &[u8], answers: &'a mut [u8]) -> &'a [u8]
    requires { length answers.old ≡ length questions.now }
    ensures { result.now ≡ output_for questions.now }
{
    if mako_fristen::mf_questions(questions, answers) == 0 {
        answers
    } else {
        &[]
    }
}

// Reads the input to its end, and writes what is to be written for it. After an error, nothing is said of what was
// written.
#[tactic(auto, using(crate::proofs::Whole::whole_rules))]
fn answer_input<R: Read, W: Write>(
    input: &mut R,
    output: &mut W,
    questions: &mut [u8; INPUT_BYTES],
    answers: &mut [u8; INPUT_BYTES],
) -> io::Result<()>
    ensures { OnOk result (IfSome (R.remaining input.old) (λ known.
        Appends (W.contents output.old) (W.contents output.new) (output_for known))) }
{
    let n = eingabe::read_full(input, questions)?;
    // An input that fills the slice for the questions is too long, and its end need not be waited for.
    if n == INPUT_BYTES {
        return Ok(());
    }
    if !is_at_end(input)? {
        return Ok(());
    }
    output.write_all(answered(&questions[..n], &mut answers[..n]))?;
    Ok(())
}

fn main(rt: HostRuntime) -> io::Result<()> {
    let mut questions = [0u8; INPUT_BYTES];
    let mut answers = [0u8; INPUT_BYTES];
    answer_input(
        &mut rt.stdin(),
        &mut io::writer(&rt),
        &mut questions,
        &mut answers,
    )
}
