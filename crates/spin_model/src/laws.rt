// The laws of spindles, as clauses of a function without a body.
ghost use Rattle.spin_model.specs.Laws.{OperationsDiffer, TokenAfterUse, TokenByOwnEntries, FewTokens, JournalIsLegal};

/// What follows from a spindle's entries, by the definitions alone.
pub fn spindle_laws()
    ensures operations { OperationsDiffer }
    ensures token { TokenAfterUse }
    ensures own { TokenByOwnEntries }
    ensures few { FewTokens }
    ensures journal { JournalIsLegal }
{}
