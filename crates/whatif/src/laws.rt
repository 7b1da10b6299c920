// The laws of the policies.
ghost use Rattle.whatif.specs.Laws.{EachUpIsWaited, HostIsSpinDown, LongestIsWake, NoneWaitsLonger, ReclaimWakesNone, RisersWait, UsedStayUp};

/// Where no two volumes share a host, off-loading within hosts is spin-down alone.
pub fn policy_laws()
    ensures { HostIsSpinDown }
{}

/// No request waits longer than a disk takes to come up, so where that is no time at all none waits; and one for which a disk
/// comes up waits as long.
pub fn waits_laws()
    ensures most { NoneWaitsLonger }
    ensures risers { RisersWait }
{}

/// In a window a disk that was used comes up no more, and none comes up for what is reclaimed. So what a request waits doesn't
/// depend on what comes behind it in its window.
pub fn window_laws()
    ensures used { UsedStayUp }
    ensures reclaim { ReclaimWakesNone }
{}

/// Each disk that comes up in a window lets a request of that window wait as long as it takes. So the longest wait of all is that
/// long, or none waits.
pub fn risers_laws()
    ensures each { EachUpIsWaited }
    ensures longest { LongestIsWake }
{}
