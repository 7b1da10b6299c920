// The laws of the definitions, each as a clause of a function without a body.
ghost use Rattle.wol_promise.specs.Code.{CodeReadsBack, NotedBack};
ghost use Rattle.wol_promise.specs.Outcomes.{MarksArePlain, PayloadsByVolume};
ghost use Rattle.wol_promise.specs.Stands.{DataStays};

/// An entry with its notes is read back of its code.
pub fn code_laws()
    ensures reading { CodeReadsBack }
    ensures noted { NotedBack }
{}

/// What a legal history answers is what plain arrays answer.
pub fn answer_laws()
    ensures marks { MarksArePlain }
    ensures by_volume { PayloadsByVolume }
{}

/// Data that was fetched stays that of its version.
pub fn data_laws()
    ensures stays { DataStays }
{}
