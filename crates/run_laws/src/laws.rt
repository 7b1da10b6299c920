// The laws of runs.
ghost use Rattle.run_laws.specs.Headline.{HistoriesGoOn};
ghost use Rattle.run_laws.specs.Journals.{AccountCovers, NoAccount};
ghost use Rattle.run_laws.specs.Laws.{CutsArePlain, FirstsJoin, LinesArePlain, OthersAnswerNothing, OutcomesJoin};

/// Where the answered requests of each volume are its first ones, and are what its one legal history read and wrote: the lines of
/// the answered reads, with the marks that were told, are those that plain arrays give; and what a crash may leave of the volume is
/// a cut of what these requests wrote. The entries of passes that serve no requests change
/// nothing of this. Windows one after the other come to this where only the last may have requests that weren't answered.
pub fn run_laws()
    ensures lines { LinesArePlain }
    ensures cuts { CutsArePlain }
    ensures others { OthersAnswerNothing }
    ensures outcomes { OutcomesJoin }
    ensures firsts { FirstsJoin }
{}

/// A spindle's journal covers the time of the account.
pub fn account_laws()
    ensures covers { AccountCovers }
    ensures none { NoAccount }
{}

/// What a volume answers and stores after it is reopened goes on from its one legal history.
pub fn reopening_laws()
    ensures go_on { HistoriesGoOn }
{}
