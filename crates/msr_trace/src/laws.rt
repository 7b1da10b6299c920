// The laws of spellings, which the contracts cite.
ghost use Rattle.msr_trace.specs.Spelling.{BlankIsEmpty, BlankIsRead, ReadIsSpelled, SpelledIsRead, WrittenIsRead};

/// A text is read as a line exactly where it is a spelling of it, and as blank exactly where it is empty or a carriage
/// return; the text that is written for a line is a spelling of it.
pub fn spelling_laws()
    ensures spelled_is_read { SpelledIsRead }
    ensures read_is_spelled { ReadIsSpelled }
    ensures blank_is_read { BlankIsRead }
    ensures blank_is_empty { BlankIsEmpty }
    ensures written_is_read { WrittenIsRead }
{}
