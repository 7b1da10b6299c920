//! Tests of the top call, in a crate of their own: `runs.rt` has words, inputs and what is printed, `accounts.rt` replays beside what is
//! reckoned without images, `forged.rt` images that no run wrote, `spoiled.rt` images, configurations and traces that are changed at
//! random. `calls.rt` has a call of the program over a bay in memory.
#![tactic(auto)]

#[cfg(test)]
mod tests;
