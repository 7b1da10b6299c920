//! Tests of bays, and of bays in memory that have images of volumes: `memory_bays.rt`, `file_bays.rt` and `file_lengths.rt`, with the
//! calls in `bay_calls.rt`, are of `wol_bay`; `images.rt` formats images and opens them one by one, `racks.rt` opens all of them,
//! `inspected.rt` has what is told of images that were changed, and `record_lines.rt` of a record. `idle_work.rt` is the smallest
//! command that opens all volumes, with its contract.
#![tactic(auto)]

#[cfg(test)]
mod tests;
