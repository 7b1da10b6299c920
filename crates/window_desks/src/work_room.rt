// What one thread serves desks in.
use reclaimer::Fetch;
use request_turns::Payload;
use std::alloc::Global;
use wol_disk::NoMemory;

/// Room for what a thread reads and writes for the desks that it serves, one after another: that of one request and of one
/// record. A thread needs one, however many desks it serves, and nothing of it is kept from one turn to the next.
#[derive(Drop)]
pub struct WorkRoom {
    pub(crate) payload: Payload,
    pub(crate) fetch: Fetch,
}

impl WorkRoom {
    pub fn new(alloc: Global) -> Result<WorkRoom, NoMemory> {
        Ok(WorkRoom {
            payload: Payload::new(alloc)?,
            fetch: Fetch::new(alloc)?,
        })
    }
}
