//! Functions whose names differ from a type's in the case of a letter alone, so that they stand in a module of their own.
ghost use Rattle.msr_trace.specs.Lines.{trace_line};
ghost use Rattle.std.specs.Prelude.{◌≡◌, ◌<◌, All};
ghost use Rattle.wol_model.specs.Trace as trace;
ghost use Rattle.wol_model.specs.TraceLaws.{LiesIn};

use crate::cutting::Pieces;
use crate::format::Line;

/// The pieces of a line, as `Line::pieces` gives them.
pub fn pieces(line: &Line, home: u64, most: u32) -> Pieces
    requires home { 0 < home }
    requires most { 0 < most }
    ensures content { result ≡ trace.pieces home most (trace_line line.now) }
    ensures lies { All (LiesIn home most) result }
{
    line.pieces(home, most)
}
