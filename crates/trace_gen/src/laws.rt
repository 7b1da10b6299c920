// The laws of generated lines.
ghost use Rattle.trace_gen.specs.Laws.{LinesAreWritable, LinesAskBlocks, LinesHaveVolumes, TextIsRead, TimesAreKept, TimesRise};

/// Every line that may be given can be written, and a trace that is written is read as it was given. A line belongs to the
/// volume that it was made for, and asks for 1 to 16 whole blocks of it. Times never fall.
pub fn generated_laws()
    ensures writable { LinesAreWritable }
    ensures read { TextIsRead }
    ensures volumes { LinesHaveVolumes }
    ensures blocks { LinesAskBlocks }
    ensures rise { TimesRise }
    ensures kept { TimesAreKept }
{}
