// The volume that a trace is run on.
ghost use Rattle.msr_trace.specs.Lines.{trace_line};
ghost use Rattle.solo.specs.Volume.{target_of};
ghost use Rattle.std.specs.Prelude.{◌≡◌, [], ◌∷◌, is_some};
ghost use Rattle.wol_model.specs.Trace.{volume_of};

use msr_trace::Line;

/// A volume by the host and the disk that a trace names it by, and its number of blocks of 512 bytes.
#[derive(Clone, Copy)]
pub struct Volume<'a> {
    pub host: &'a [u8],
    pub disk: u32,
    pub blocks: u64,
}

/// Whether a line belongs to the volume: it names the host byte for byte, and the disk.
pub fn belongs(volume: &Volume<'_>, line: &Line) -> bool
    ensures { result ≡ is_some (volume_of (target_of volume.now ∷ []) (trace_line line.now)) }
{
    volume.host == line.host.as_bytes() && volume.disk == line.disk
}
