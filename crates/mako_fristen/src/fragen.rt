// A file of questions: document 02, F-1, refusal 9.
ghost use Rattle.std.specs.Prelude.{◌≡◌};
ghost use Rattle.werktag.specs.declared.HolidayCalendar.TheVariants.{BdewMaKo};
ghost use Rattle.werktag.specs.Werktag.{is_werktag};
ghost use Rattle.antworten_frage.specs.Fragen.{questions_reply};

use werktag::HolidayCalendar;

/// The answers of a file of questions, 32 bytes each, in the questions' order, refusals included: "An answer equals the
/// single call's." Returns 0, or 9, "if the question bytes are no multiple of 32 or exceed 65,536, or the answers
/// differ in length; then the answers stay untouched". Of 64 bytes, two CONTRL of the Regelfall received 31 March 2026
/// 11:59:59 and 12:00:00 Berlin, the answers are 17:59:59 and 2 April 00:00. A file of no questions is answered with 0.
pub fn mf_questions(questions: &[u8], answers: &mut [u8]) -> u8
    ensures { (result, answers.new) ≡ questions_reply (is_werktag BdewMaKo) questions.now
        answers.old }
{
    antworten_frage::questions_reply(questions, answers, HolidayCalendar::BdewMaKo)
}
