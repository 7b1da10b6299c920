//! Tests of indexes: two records that overlap (`overlapping.rt`), random calls beside a plain list of records
//! (`agreement.rt`), and 100,000 records of one block (`many.rt`). `placing.rt` has worked examples of the rule of placing.
#![tactic(auto)]

#[cfg(test)]
mod tests;
