//! Tests of what comes in and is printed, over examples that were worked out by hand: disks, trace lines and their windows,
//! generated lines, configurations, commands and texts.
//!
//! `disks.rt` is of `wol_disk`; `streams.rt` and `file_sources.rt` of `wol_io`; `amounts.rt` of `energy`; `trace_lines.rt` of
//! `msr_trace`; `config_files.rt` and `config_refusals.rt` of `wol_config`; `generated_lines.rt` of `trace_gen`; `windows.rt`
//! of `trace_windows`; `commands.rt` of `command_words`; `texts.rt` of `report`.
#![tactic(auto)]

#[cfg(test)]
mod tests;
