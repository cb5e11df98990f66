// What a question of a file answers, and a whole file: document 02, F-1. A question is asked as the single call that it
// stands for: its fields are the call's parameters, and its answer is the call's.
#![tactic(auto)]

ghost use Rattle.std.specs.Prelude.{◌≡◌};
ghost use Rattle.werktag.specs.Werktag.{is_werktag};
ghost use Rattle.antworten_frage.specs.Frage.{clock_of_seconds, question_answer};
ghost use Rattle.antworten_frage.specs.Fragen.{questions_reply};

use antwortsatz::{Answer, Refusal};
use berlin::{Clock, DAY};
use fragesatz::{QUESTION_BYTES, Question};
use werktag::HolidayCalendar;

pub mod theorems;

/// The clock of a count "in whole seconds": 46,800 is 13:00. From 86,400 on there is none: refusal 5.
#[tactic(auto, unfolding(crate::specs::Frage::clock_of_seconds))]
fn clock_of_seconds(seconds: u32) -> Option<Clock>
    ensures { result ≡ clock_of_seconds seconds }
{
    if seconds < DAY {
        return Some(Clock {
            second: seconds,
            nanos: 0,
        });
    }
    None
}

/// The answer of one question: the single call's, or refusal 2, "also if byte 2 or 3 is not zero". What the operation
/// or its shape does not use is not looked at.
#[tactic(auto, unfolding(crate::specs::Frage::question_answer))]
pub fn question_answer(q: Question, cal: HolidayCalendar) -> Result<Answer, Refusal>
    ensures { result ≡ question_answer (is_werktag cal) q }
{
    if q.byte2 != 0 || q.byte3 != 0 {
        return Err(Refusal::UnknownCode);
    }
    // The numbers of the record: an enum would be read by this match and asked by a second.
    let operation = q.operation;
    match operation {
        0 => {
            let received = berlin::read_instant(q.seconds, q.nanos);
            antworten_frist::contrl_due_at_answer(received, q.code)
        }
        1 => {
            let clock = clock_of_seconds(q.count2);
            let received = berlin::read_instant(q.seconds, q.nanos);
            antworten_frist::frist_due_at_answer(q.code, q.count, clock, received, cal)
        }
        2 => antworten_vorlauf::vorlauf_check_answer(
            q.code,
            q.count,
            q.count2,
            q.transmission,
            q.anchor,
            cal,
        ),
        3 => antworten_vorlauf::vorlauf_span_answer(q.code, q.count, q.count2, q.transmission, cal),
        _ => Err(Refusal::UnknownCode),
    }
}

/// Answers a file: "One answer of 32 bytes goes out per question, in the questions' order, refusals included." Returns
/// 0, or 9 for lengths that no file has, and then leaves the answers as they were. A number and no `Result`: that is
/// what the C interface returns, and a question's refusal stands in its answer.
pub fn questions_reply(questions: &[u8], answers: &mut [u8], cal: HolidayCalendar) -> u8
    ensures { (result, answers.new) ≡ questions_reply (is_werktag cal) questions.now answers.old }
{
    if !fragesatz::is_file(questions.len(), answers.len()) {
        return Refusal::FileLength.number();
    }
    // By index: of a part that `chunks_mut` lends a proof does not learn where it stands.
    for k in 0..questions.len() / QUESTION_BYTES {
        let at = k * QUESTION_BYTES;
        let question = fragesatz::question_of(&questions[at..at + QUESTION_BYTES]);
        let answer = question_answer(question, cal);
        antwortsatz::reply(&mut answers[at..at + QUESTION_BYTES], answer);
    }
    0
}
