//! The program where what is around it stops or fails: `stops.rt` has disks that stop at each of their calls, and what is there
//! afterwards, `twice.rt` each subset of the blocks that a drain or a reclaim turn hasn't synced, where one block lies in several records,
//! `reopening.rt` disks that stop once more while what is there is looked at, `faults.rt` each call of a disk, of a source and of the sink
//! that fails alone, `solo_stops.rt` and `served.rt` the same for a volume of its own and for one that is served to a client.
//! `calls.rt` has a call of the program over a bay in memory, `rows.rt` the traces and commands of the tables: a command more is a row
//! more there.
#![tactic(auto)]

#[cfg(test)]
mod tests;
