// The functions do nothing: what each promises is a theorem about the 32 bytes of an answer.

ghost use Rattle.antwortsatz.specs.Layout.{AnswerHas32Bytes, AnswerBytesFit, RefusalBytesFit, AnswerBeginsWithZero};
ghost use Rattle.antwortsatz.specs.Layout.{RefusalBeginsWithNumber, RefusalIsNumberAlone};
ghost use Rattle.antwortsatz.specs.Layout.{NumberedHas32Bytes, NumberedBytesFit, NumberIsAlone};
ghost use Rattle.antwortsatz.specs.Layout.{AnswerIsNumbered, RefusalIsNumbered};
ghost use Rattle.antwortsatz.specs.Layout.{AnswerReplyIsNumbered, RefusalReplyIsNumbered};
ghost use Rattle.antwortsatz.specs.Layout.{KindInByte1, ZeroInBytes2And3, CountFromByte4, SecondsFromByte8};
ghost use Rattle.antwortsatz.specs.Layout.{NanosFromByte16, Word20FromByte20, Word24FromByte24, Word28FromByte28};
ghost use Rattle.antwortsatz.specs.Layout.{DateWordBytes, MarginFromByte28, NoMarginBesideKindAlone, NoMarginInRefusal};

/// Theorem: an answer has 32 bytes, and so has a refusal. The first is 0 in an answer and the refusal's number in a
/// refusal, whose other bytes are zero.
pub fn answer_bytes()
    ensures length { AnswerHas32Bytes }
    ensures answer_fits { AnswerBytesFit }
    ensures refusal_fits { RefusalBytesFit }
    ensures answer_begins { AnswerBeginsWithZero }
    ensures refusal_begins { RefusalBeginsWithNumber }
    ensures refusal_alone { RefusalIsNumberAlone }
{}

/// Theorem: any number beside any fields has 32 bytes, and beside no fields all but the number is zero. An answer is 0
/// beside its fields and a refusal its number beside none, in the bytes and in what a call returns and leaves.
pub fn numbered_answers()
    ensures length { NumberedHas32Bytes }
    ensures fits { NumberedBytesFit }
    ensures alone { NumberIsAlone }
    ensures answer { AnswerIsNumbered }
    ensures refusal { RefusalIsNumbered }
    ensures answer_reply { AnswerReplyIsNumbered }
    ensures refusal_reply { RefusalReplyIsNumbered }
{}

/// Theorem: every field of an answer that fits its bytes is read back from its place in the 32 bytes.
pub fn fields_are_read_back()
    ensures kind { KindInByte1 }
    ensures zero { ZeroInBytes2And3 }
    ensures count { CountFromByte4 }
    ensures seconds { SecondsFromByte8 }
    ensures nanos { NanosFromByte16 }
    ensures word20 { Word20FromByte20 }
    ensures word24 { Word24FromByte24 }
    ensures word28 { Word28FromByte28 }
{}

/// Theorem: a date's bytes are its year, month and day; a verdict's margin is read back from bytes 28 to 31 of its
/// answer. In an answer that is a kind alone, and in a refusal, these bytes give 0.
pub fn dates_and_margins()
    ensures date { DateWordBytes }
    ensures margin { MarginFromByte28 }
    ensures kind_alone { NoMarginBesideKindAlone }
    ensures refusal { NoMarginInRefusal }
{}
