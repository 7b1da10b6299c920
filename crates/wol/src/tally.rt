// What the lines of a trace are that go by: whose they are, and when.
use memchr::memchr;
use std::alloc::Global;
use wol_config::Config;
use wol_disk::NoMemory;

// The most bytes of a line.
const MOST_LINE_BYTES: usize = 4_096;

// How many places the table of volumes has: four times as many as there can be volumes.
const PLACES: u64 = 256;

/// A line that belongs to no volume.
#[derive(Drop)]
pub struct Foreign {
    /// Which line it is, from 1 on.
    pub line: u64,
    /// The line's bytes in front of the disk's.
    pub host: Vec<u8>,
    pub disk: u64,
}

/// Counts of lines. They are those of a run that reads the whole trace, since it refuses what is no line.
#[derive(Drop)]
pub struct Tally {
    config: Config,
    // At a place that a host's name leads to, one more than the number of a volume, or 0.
    places: [u8; 256],
    // The front of a line whose end didn't come yet.
    begun: Vec<u8>,
    /// Lines, blank ones too.
    pub lines: u64,
    /// Lines that aren't blank.
    pub requests: u64,
    /// Those of them that belong to no volume.
    pub skipped: u64,
    pub foreign: Option<Foreign>,
    // Of each volume whether a line belongs to it.
    met: [bool; 64],
    /// The time of the first line and the greatest one so far, in units of 100 ns.
    first: Option<u64>,
    greatest: u64,
    /// Lines whose time is less than one before, and by how much at most.
    pub earlier: u64,
    pub back: u64,
    is_lost: bool,
}

// What stands in front in a line.
#[derive(Clone, Copy)]
struct Front<'a> {
    time: u64,
    host: &'a [u8],
    hash: u64,
    disk: u64,
}

impl Tally {
    /// No lines yet, of a trace for these volumes.
    pub fn new(alloc: Global, config: Config) -> Result<Tally, NoMemory> {
        let begun = Vec::with_capacity(alloc, MOST_LINE_BYTES)?;
        let mut places = [0_u8; 256];
        for (number, volume) in config.volumes.iter().enumerate() {
            place(
                &mut places,
                hash_of(volume.host.as_bytes()),
                u64::from(volume.disk),
                number,
            );
        }
        Ok(Tally {
            config,
            places,
            begun,
            lines: 0,
            requests: 0,
            skipped: 0,
            foreign: None,
            met: [false; 64],
            first: None,
            greatest: 0,
            earlier: 0,
            back: 0,
            is_lost: false,
        })
    }

    pub fn config(&self) -> &Config {
        &self.config
    }

    /// Whether a line belongs to the volume of this number.
    pub fn is_met(&self, number: usize) -> bool {
        self.met.get(number).copied().unwrap_or(false)
    }

    /// From the first line's time to the greatest.
    pub fn span(&self) -> u64 {
        self.greatest
            .saturating_sub(self.first.unwrap_or(self.greatest))
    }

    /// Whether all lines were counted.
    pub fn is_whole(&self) -> bool {
        !self.is_lost
    }

    /// These bytes of the trace come next.
    pub fn see(&mut self, bytes: &[u8]) {
        let mut rest = bytes;
        for _ in 0..bytes.len() {
            let Some(end) = memchr(b'\n', rest) else {
                break;
            };
            let (line, more) = rest.split_at(end);
            if self.begun.is_empty() {
                self.count(line);
            } else {
                self.keep(line);
                self.count_begun();
            }
            rest = more.get(1..).unwrap_or(&[]);
        }
        self.keep(rest);
    }

    /// The trace has ended.
    pub fn end(&mut self) {
        if !self.begun.is_empty() {
            self.count_begun();
        }
    }

    // Keeps the front of a line for when its end comes.
    fn keep(&mut self, front: &[u8]) {
        if self.begun.extend_from_slice(front).is_err() {
            self.is_lost = true;
        }
    }

    fn count_begun(&mut self) {
        let none = Vec::new(*self.begun.allocator());
        let begun = std::mem::replace(&mut self.begun, none);
        self.count(&begun);
        self.begun = begun;
        self.begun.clear();
    }

    fn count(&mut self, line: &[u8]) {
        self.lines = self.lines.saturating_add(1);
        if line.is_empty() || line == b"\r".as_slice() {
            return;
        }
        self.requests = self.requests.saturating_add(1);
        let front = front_of(line);
        self.count_time(front.time);
        match self.number_of(&front) {
            Some(number) => {
                if let Some(met) = self.met.get_mut(number) {
                    *met = true;
                }
            }
            None => self.count_foreign(&front),
        }
    }

    fn count_time(&mut self, time: u64) {
        if self.first.is_none() {
            self.first = Some(time);
        }
        if time >= self.greatest {
            self.greatest = time;
        } else {
            self.earlier = self.earlier.saturating_add(1);
            self.back = self.back.max(self.greatest - time);
        }
    }

    // The volume that the line belongs to.
    fn number_of(&self, front: &Front<'_>) -> Option<usize> {
        let begin = front.hash.wrapping_add(front.disk);
        for step in 0..PLACES {
            let at = (begin.wrapping_add(step) % PLACES) as usize;
            let number = usize::from(self.places[at]).checked_sub(1)?;
            let volume = self.config.volumes.get(number)?;
            if u64::from(volume.disk) == front.disk && volume.host.as_bytes() == front.host {
                return Some(number);
            }
        }
        None
    }

    fn count_foreign(&mut self, front: &Front<'_>) {
        self.skipped = self.skipped.saturating_add(1);
        if self.foreign.is_some() {
            return;
        }
        match front.host.to_vec(*self.begun.allocator()) {
            Ok(host) => {
                self.foreign = Some(Foreign {
                    line: self.lines,
                    host,
                    disk: front.disk,
                });
            }
            Err(_) => self.is_lost = true,
        }
    }
}

// Puts a volume's number into the table.
fn place(places: &mut [u8; 256], hash: u64, disk: u64, number: usize) {
    if number >= 64 {
        return;
    }
    let begin = hash.wrapping_add(disk);
    for step in 0..PLACES {
        let at = (begin.wrapping_add(step) % PLACES) as usize;
        if places[at] == 0 {
            places[at] = number as u8 + 1;
            return;
        }
    }
}

// A number for the bytes.
fn hash_of(bytes: &[u8]) -> u64 {
    bytes.iter().fold(0, more_hash)
}

fn more_hash(hash: u64, byte: &u8) -> u64 {
    hash.wrapping_mul(31).wrapping_add(u64::from(*byte))
}

// Time, host and disk of a line.
fn front_of(line: &[u8]) -> Front<'_> {
    let (time, rest) = number_in(line);
    let mut hash = 0;
    let mut host = rest;
    let mut disk = 0;
    for (i, byte) in rest.iter().enumerate() {
        if *byte == b',' {
            let (name, behind) = rest.split_at(i);
            host = name;
            disk = number_in(behind.get(1..).unwrap_or(&[])).0;
            break;
        }
        hash = more_hash(hash, byte);
    }
    Front {
        time,
        host,
        hash,
        disk,
    }
}

// The number that the digits in front are, and what stands behind the byte that follows.
fn number_in(bytes: &[u8]) -> (u64, &[u8]) {
    let mut number: u64 = 0;
    for (i, byte) in bytes.iter().enumerate() {
        let digit = byte.wrapping_sub(b'0');
        if digit > 9 {
            return (number, bytes.get(i + 1..).unwrap_or(&[]));
        }
        number = number.wrapping_mul(10).wrapping_add(u64::from(digit));
    }
    (number, &[])
}
