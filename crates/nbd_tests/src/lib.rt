//! Tests of handshakes and sessions of NBD, and of clients one after another, at a plain volume in memory whose turns fail as planned.
#![tactic(auto)]

#[cfg(test)]
mod tests;
