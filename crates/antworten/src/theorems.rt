// The theorem about codes. The function does nothing: what it promises is a theorem about the definition by which calls
// read a code.
ghost use Rattle.antworten.specs.Codes.{UnknownCodeIsRefused, KnownCodeIsTaken};

/// Theorem: a code past its list is refused with 2, and any other goes on with its entry, whatever the entries are.
pub fn codes<Entry>()
    ensures refused { UnknownCodeIsRefused Entry }
    ensures taken { KnownCodeIsTaken Entry }
{}
