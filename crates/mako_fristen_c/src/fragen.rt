// A file of questions.
ghost use Rattle.std.specs.Prelude.{◌≡◌};
ghost use Rattle.werktag.specs.declared.HolidayCalendar.TheVariants.{BdewMaKo};
ghost use Rattle.werktag.specs.Werktag.{is_werktag};
ghost use Rattle.antworten_frage.specs.Fragen.{questions_reply};

/// [`mako_fristen::mf_questions`] for C.
#[unsafe(no_mangle)]
pub extern "C" fn mf_questions(questions: &[u8], answers: &mut [u8]) -> u8
    ensures { (result, answers.new) ≡ questions_reply (is_werktag BdewMaKo) questions.now
        answers.old }
{
    mako_fristen::mf_questions(questions, answers)
}
