// What is compared: a call for each comparison keeps a test's proof short.
use std::fmt::Debug;
use std::process::Abort;

/// The two are to be equal.
pub fn same<R: Abort, T: PartialEq + Debug>(rt: &R, found: &T, wanted: &T) {
    if *found != *wanted {
        panic!(rt; "{found:?}, and not {wanted:?}");
    }
}
