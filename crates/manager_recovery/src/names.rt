// What can be refused before a disk is read: the label, a logger of the view that isn't there, a segment that the view doesn't name.
ghost use Rattle.manager_recovery.specs.Refused.{IsNamesAnswer, first_missing, first_outside};
ghost use Rattle.manager_recovery.specs.declared.opening.OwnedPart.{OwnedPart};
ghost use Rattle.std.specs.Prelude.{◌≡◌, ◌==◌, not, find, position, slice_index_or, false, true, None, Some, MatchOption, is_some};

use crate::{OpenRefusal, Opening, OwnedPart};
use wol_disk::Disk;

// Whether the image of this volume was opened.
fn is_present(present: &[bool], id: u32) -> bool
    ensures { result ≡ slice_index_or present.now id false }
{
    let at = id as usize;
    at < present.len() && present[at]
}

// The first logger of a view whose image wasn't opened.
fn missing_logger(ids: &[u32], present: &[bool]) -> Option<u32>
    ensures { result ≡ first_missing ids.now present.now }
{
    ids.iter().find(|id| !is_present(present, **id)).copied()
}

/// The place of a logger in a view.
pub fn place_of(ids: &[u32], logger: u32) -> Option<usize>
    ensures { result ≡ position (λ id. id == logger) ids.now }
{
    ids.iter().position(|id| *id == logger)
}

// The first segment of a logger that the view doesn't name.
fn outside_view<D: Disk>(ids: &[u32], owned: &[OwnedPart<D>]) -> Option<(u32, u32)>
    ensures { MatchOption result (first_outside ids.now owned.now ≡ None)
        (λ r. (part : OwnedPart D) × (first_outside ids.now owned.now ≡ Some part)
        × (r.0 ≡ part.logger) × (r.1 ≡ part.index)) }
{
    for part in owned {
        if place_of(ids, part.logger).is_none() {
            return Some((part.logger, part.index));
        }
    }
    None
}

/// Why a volume is refused before a disk is read, if it is.
pub fn names_refusal<D: Disk>(opening: &Opening<D>) -> Option<OpenRefusal>
    ensures { IsNamesAnswer opening.now result }
{
    if opening.label != opening.want {
        return Some(OpenRefusal::LabelDiffers);
    }
    let ids = opening.view.ids();
    if let Some(id) = missing_logger(ids, &opening.present) {
        return Some(OpenRefusal::LoggerMissing { id });
    }
    let (logger, segment) = outside_view(ids, &opening.owned)?;
    Some(OpenRefusal::OutsideView { logger, segment })
}
