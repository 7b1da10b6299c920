// The laws of windows and their requests.
ghost use Rattle.trace_windows.specs.Laws.{MomentsRise, NumbersLeave, RequestsLie, WindowsHaveRequests};

/// The requests of the windows are those of the trace, numbers leave a request what it is, and each request lies in its
/// volume. The moments of the windows lie in the time of the account, and never fall.
pub fn window_laws()
    ensures all { WindowsHaveRequests }
    ensures same { NumbersLeave }
    ensures lie { RequestsLie }
    ensures rise { MomentsRise }
{}
