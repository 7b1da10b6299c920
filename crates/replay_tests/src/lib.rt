//! Tests of what is done with all volumes of a bay in memory: replays, cleanings, changes of views and sessions of NBD, each also over
//! disks that stop. `volumes.rt` has what is the same in all; the expected lines were worked out by hand from the formats.
#![tactic(auto)]

#[cfg(test)]
mod tests;
