// Names of hosts.
ghost use Rattle.msr_trace.specs.Hosts.{bytes_of, IsHeld, mark_of};
ghost use Rattle.std.specs.Prelude.{◌≡◌, ◌≤◌, length, IfOk};

use std::alloc::Global;
use std::marker::Model;
use wol_disk::NoMemory;

/// The most bytes of a name that take no memory. Names of hosts are seldom longer.
const SHORT_MAX: usize = 23;

// Where the bytes of a name are.
#[derive(Drop)]
enum Bytes {
    // The first of these, as many as `len` says.
    Short { len: u8, bytes: [u8; SHORT_MAX] },
    Long(Vec<u8>),
}

/// The name of a host: any bytes.
#[derive(Drop)]
pub struct HostName {
    mark: u16,
    bytes: Bytes,
}

impl Model for HostName {
    ghost use Rattle.msr_trace.specs.Hosts.{bytes_of, IsHeld, mark_of};
    ghost use Rattle.std.specs.Prelude.{◌≡◌, ℕ, List};

    ghost Value = { List ℕ };

    ghost view = { λ h. bytes_of h.bytes };

    ghost invariant = { λ h. IsHeld h.bytes × (h.mark ≡ mark_of (bytes_of h.bytes)) };
}

// The bytes of a name that is short.
fn shorten(bytes: &[u8]) -> Bytes
    requires { length bytes.now ≤ 23 }
    ensures held { IsHeld result }
    ensures same { bytes_of result ≡ bytes.now }
{
    let mut short = [0u8; SHORT_MAX];
    short[..bytes.len()].copy_from_slice(bytes);
    Bytes::Short {
        len: bytes.len() as u8,
        bytes: short,
    }
}

// The last two bytes: names of hosts differ at their ends more often than in front.
fn mark_of(bytes: &[u8]) -> u16
    ensures { result ≡ mark_of bytes.now }
{
    if bytes.is_empty() {
        return 0;
    }
    let last = bytes[bytes.len() - 1];
    let before = bytes[bytes.len().saturating_sub(2)];
    u16::from(before) * 256 + u16::from(last)
}

impl HostName {
    pub fn new(alloc: Global, bytes: &[u8]) -> Result<HostName, NoMemory>
        ensures { IfOk result (λ host. host ≡ bytes.now) }
    {
        let mark = mark_of(bytes);
        let bytes = if bytes.len() <= SHORT_MAX {
            shorten(bytes)
        } else {
            Bytes::Long(Vec::from_slice(alloc, bytes)?)
        };
        Ok(HostName { mark, bytes })
    }

    pub fn as_bytes(&self) -> &[u8]
        ensures { result.now ≡ self.now }
    {
        match &self.bytes {
            Bytes::Short { len, bytes } => &bytes[..*len as usize],
            Bytes::Long(bytes) => bytes.as_slice(),
        }
    }

    /// A number that the bytes determine. Most names that differ have different ones, so it is worth a look before the bytes.
    pub fn mark(&self) -> u16
        ensures { result ≡ mark_of self.now }
    {
        self.mark
    }
}
