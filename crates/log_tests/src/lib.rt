//! Tests of what lies under a log, over examples that were worked out by hand: `layout.rt` is of `log_layout`, `views.rt` of
//! `logger_view`, `spindles.rt` of `spin_model`, `pools.rt` of `seg_pool`.
#![tactic(auto)]

#[cfg(test)]
mod tests;
