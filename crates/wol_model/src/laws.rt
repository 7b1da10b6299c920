// The laws of the definitions, each as a clause of a function without a body.
ghost use Rattle.wol_model.specs.ArrayLaws.{AfterNothing, AfterMore, AfterLength, AfterPut, AfterWithin, AfterVersions, BlendBefore, BlendAfter};
ghost use Rattle.wol_model.specs.HeadLaws.{OneLabel, OneView, OneSegmentHead, OneRecordHead, GateIsNoHead, ReadingHeads, ReadingLogs, OneLog, NotBoth};
ghost use Rattle.wol_model.specs.HistoryLaws.{OneMoreReply, OneMoreEntry, WritesMore, FlightMore, CutWhole};
ghost use Rattle.wol_model.specs.Holding.{OpeningStep, LoggingStep, HomeStep, HomeInFlight, PuttingStep, PuttingInFlight, GivingUpStep, EmptyStep, FewerHomed};
ghost use Rattle.wol_model.specs.IndexLaws.{LiveIsNewest, LeastGoesOrIsDue, FullMask, MaskOr, MaskAnd, MaskWithout, IndexFinds, IndexFindsNone, Reading, PuttingLowers, GivingUpLowers};
ghost use Rattle.wol_model.specs.RecoveryLaws.{GivingUp, Emptied, Logging, WritingHome, CutShort, PuttingHome, Trimming, Retiring, Claiming, Appending};
ghost use Rattle.wol_model.specs.TraceLaws.{PiecesLie, PiecesCover, WindowsHaveAll, WindowsAre};

/// Arrays after writes, and writes as a disk puts them.
pub fn array_laws()
    ensures nothing { AfterNothing }
    ensures more { AfterMore }
    ensures length { AfterLength }
    ensures put { AfterPut }
    ensures within { AfterWithin }
    ensures versions { AfterVersions }
    ensures blend_before { BlendBefore }
    ensures blend_after { BlendAfter }
{}

/// Histories that go on.
pub fn history_laws()
    ensures reply { OneMoreReply }
    ensures entry { OneMoreEntry }
    ensures writes { WritesMore }
    ensures flight { FlightMore }
    ensures whole { CutWhole }
{}

/// A block spells at most one value of each kind.
pub fn spelling_laws()
    ensures label { OneLabel }
    ensures view { OneView }
    ensures segment { OneSegmentHead }
    ensures record { OneRecordHead }
    ensures gate { GateIsNoHead }
    ensures reading { ReadingHeads }
{}

/// A log is of one owner and of one list of records.
pub fn log_laws()
    ensures reading { ReadingLogs }
    ensures one { OneLog }
    ensures not_both { NotBoth }
{}

/// What records and a home stand for.
pub fn extent_laws()
    ensures giving_up { GivingUp }
    ensures emptied { Emptied }
    ensures logging { Logging }
    ensures writing_home { WritingHome }
    ensures cut_short { CutShort }
    ensures putting_home { PuttingHome }
{}

/// What images of segments stand for.
pub fn image_laws()
    ensures trimming { Trimming }
    ensures retiring { Retiring }
    ensures claiming { Claiming }
    ensures appending { Appending }
{}

/// The steps of a volume keep what its disks hold, and a stop within one leaves a cut.
pub fn step_laws()
    ensures opening { OpeningStep }
    ensures logging { LoggingStep }
    ensures home { HomeStep }
    ensures home_in_flight { HomeInFlight }
    ensures putting { PuttingStep }
    ensures putting_in_flight { PuttingInFlight }
    ensures giving_up { GivingUpStep }
    ensures fewer { FewerHomed }
    ensures empty { EmptyStep }
{}

/// What is live, what may go, and what an index finds.
pub fn index_laws()
    ensures live { LiveIsNewest }
    ensures least { LeastGoesOrIsDue }
    ensures finds { IndexFinds }
    ensures finds_none { IndexFindsNone }
    ensures reading { Reading }
{}

/// Masks are sets of blocks.
pub fn mask_laws()
    ensures full { FullMask }
    ensures or { MaskOr }
    ensures and { MaskAnd }
    ensures without { MaskWithout }
{}

/// Each step of a drain lowers the kept blocks and the due blocks together, so that a drain ends.
pub fn drain_laws()
    ensures putting { PuttingLowers }
    ensures giving_up { GivingUpLowers }
{}

/// The pieces of a line lie in its volume and are what it touches; the windows have each line once.
pub fn trace_laws()
    ensures lie { PiecesLie }
    ensures cover { PiecesCover }
    ensures all { WindowsHaveAll }
    ensures windows { WindowsAre }
{}
