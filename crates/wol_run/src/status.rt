// The exit statuses, and the lines of faults.
ghost use Rattle.std.specs.Prelude.{◌≡◌, IfOk, string_bytes};
ghost use Rattle.wol_run.specs.Statuses.{IsPlain, bad_line_text, fault_text, status_of};

use msr_trace::BadLine;
use solo::Fault;
use std::alloc::{AllocError, Global};

/// The exit status of a run that ended so.
pub fn status_of(fault: Fault) -> u8
    ensures { result ≡ status_of fault }
{
    match fault {
        Fault::BadLine { .. } => 3,
        Fault::Bay => 4,
        Fault::Disk => 4,
        Fault::Sink => 7,
        Fault::Source => 8,
        Fault::NoMemory => 9,
        Fault::Spent => 10,
    }
}

/// The line of a fault, without one for a failed sink. That of a bad line is made by `bad_line_text`.
pub fn fault_text(fault: Fault) -> &'static [u8]
    requires { IsPlain fault }
    ensures { result.now ≡ fault_text fault }
{
    match fault {
        Fault::BadLine { .. } => unreachable!(),
        Fault::Bay => b"fault 4 solo disk bay\n",
        Fault::Disk => b"fault 4 solo disk home\n",
        Fault::Sink => b"",
        Fault::Source => b"fault 8 trace\n",
        Fault::NoMemory => b"fault 9 memory\n",
        Fault::Spent => b"fault 10 lines\n",
    }
}

/// The line of a fault at a bad line.
pub fn bad_line_text(alloc: Global, line: u64, why: BadLine) -> Result<String, AllocError>
    ensures { IfOk result (λ text. string_bytes text ≡ bad_line_text line why) }
{
    match why {
        BadLine::FieldCount => format!(in alloc; "fault 3 line {line} fields\n"),
        BadLine::Number(field) => format!(in alloc; "fault 3 line {line} number {field}\n"),
        BadLine::Kind => format!(in alloc; "fault 3 line {line} kind\n"),
        BadLine::TooLarge => format!(in alloc; "fault 3 line {line} too large\n"),
        BadLine::PastEnd => format!(in alloc; "fault 3 line {line} past end\n"),
        BadLine::LineTooLong => format!(in alloc; "fault 3 line {line} too long\n"),
        BadLine::Quote => format!(in alloc; "fault 3 line {line} quote\n"),
    }
}
