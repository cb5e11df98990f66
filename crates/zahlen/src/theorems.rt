// The functions do nothing: what each promises is a theorem about numbers and the bytes that they are written as.

ghost use Rattle.zahlen.specs.ReadBack.{TwoBytesReadBack, FourBytesReadBack, EightBytesReadBack, SignedFourReadBack};
ghost use Rattle.zahlen.specs.ReadBack.{SignedEightReadBack, TwoBytesWrittenBack, FourBytesWrittenBack};
ghost use Rattle.zahlen.specs.ReadBack.{EightBytesWrittenBack, SignedFourWrittenBack, SignedEightWrittenBack};
ghost use Rattle.zahlen.specs.ReadBack.{BitsOfSigned, SignedOfBits};

/// Theorem: a number that fits its bytes is read back from where they stand, whatever stands around them.
pub fn written_is_read_back()
    ensures two_bytes { TwoBytesReadBack }
    ensures four_bytes { FourBytesReadBack }
    ensures eight_bytes { EightBytesReadBack }
    ensures signed_four_bytes { SignedFourReadBack }
    ensures signed_eight_bytes { SignedEightReadBack }
{}

/// Theorem: a number that is read at a place is written as the bytes that stand there.
pub fn read_is_written_back()
    ensures two_bytes { TwoBytesWrittenBack }
    ensures four_bytes { FourBytesWrittenBack }
    ensures eight_bytes { EightBytesWrittenBack }
    ensures signed_four_bytes { SignedFourWrittenBack }
    ensures signed_eight_bytes { SignedEightWrittenBack }
{}

/// Theorem: a signed number and its bits, in two's complement of any width, give each other.
pub fn signed_and_bits()
    ensures bits { BitsOfSigned }
    ensures signed { SignedOfBits }
{}
