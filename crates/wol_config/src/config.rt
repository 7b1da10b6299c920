// The configuration that a file is, and what it is refused for.
ghost use Rattle.std.specs.Prelude.{◌≡◌};
ghost use Rattle.wol_config.specs.declared.config.ConfigFault.TheVariants.{NoMemory as no_memory};

use crate::{Key, Name};
use energy::Powers;
use log_layout::View;
use msr_trace::HostName;
use std::alloc::AllocFailed;
use wol_disk::NoMemory;

/// One volume.
#[derive(Drop)]
pub struct VolumeConf {
    /// The volume's name, which its image has too.
    pub name: Name,
    /// The host whose lines of a trace are this volume's.
    pub host: HostName,
    /// The disk of that host.
    pub disk: u32,
    /// How many blocks of 512 bytes its home has: 1 to 2^32.
    pub home: u64,
    /// How many segments it has for the logs of other volumes: at most 1,024.
    pub segments: u32,
    /// The volumes that log for this one, by their numbers, in the order in which they are asked.
    pub view: View,
}

/// A configuration.
#[derive(Drop)]
pub struct Config {
    /// How many blocks a segment has: 4 to 65,536.
    pub segment_blocks: u32,
    /// After how long without use a disk goes down, in units of 100 ns.
    pub timeout: u64,
    /// What each disk draws.
    pub powers: Powers,
    /// How long a disk takes to come up, in units of 100 ns.
    pub wake: u64,
    /// The volumes, 1 to 64. A volume's number is its place here.
    pub volumes: Vec<VolumeConf>,
}

/// Why bytes are no configuration.
#[derive(Debug, Drop)]
pub enum ConfigFault {
    /// The bytes aren't TOML.
    NotToml,
    /// The key isn't there.
    Missing { key: Key },
    /// The key's value is of another kind.
    WrongKind { key: Key },
    /// The key's value is out of its range.
    OutOfRange { key: Key },
    /// An earlier volume has this one's name, or its host and disk.
    Twice { volume: u32, name: Name },
    /// This volume's view names an unknown volume, itself, or one volume twice.
    BadView { volume: u32, name: Name },
    /// No memory was left.
    NoMemory,
    /// There are over 1,048,576 bytes.
    TooLong,
}

impl<T: Drop> From<AllocFailed<T>> for ConfigFault {
    ghost from_gives = { λ _ e. e ≡ no_memory };

    fn from(_e: AllocFailed<T>) -> ConfigFault {
        ConfigFault::NoMemory
    }
}

impl From<NoMemory> for ConfigFault {
    ghost from_gives = { λ _ e. e ≡ no_memory };

    fn from(_e: NoMemory) -> ConfigFault {
        ConfigFault::NoMemory
    }
}

impl Config {
    ghost use Rattle.std.specs.Prelude.{◌≡◌, ◌-◌, min};
    ghost use Rattle.wol_config.specs.Configs.{IsValid};

    /// The most blocks of a record: 128, or what a segment has room for behind its head and the
    /// record's.
    pub fn most(&self) -> u32
        requires { IsValid self.now }
        ensures { result ≡ min 128 (self.now.segment_blocks - 2) }
    {
        (self.segment_blocks - 2).min(128)
    }
}
