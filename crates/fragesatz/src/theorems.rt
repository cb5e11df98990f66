// The functions do nothing: what each promises is a theorem about questions and the bytes of a file.

ghost use Rattle.fragesatz.specs.ReadBack.{QuestionReadBack, QuestionWrittenBack, QuestionHas32Bytes, FileByLengths};

/// Theorem: a question whose fields fit and its 32 bytes give each other, and nothing of either is lost.
pub fn question_and_bytes()
    ensures read_back { QuestionReadBack }
    ensures written_back { QuestionWrittenBack }
    ensures length { QuestionHas32Bytes }
{}

/// Theorem: a file's questions are a multiple of 32 bytes, at most 65,536, and its answers are as many bytes; and any
/// such lengths may be those of a file.
pub fn file_lengths()
    ensures lengths { FileByLengths }
{}
