// Which volumes log for a volume, by policy.
ghost use Rattle.std.specs.List.{AllByRecursion};
ghost use Rattle.std.specs.Prelude.{◌≡◌, ◌<◌, ◌≤◌, ◌==◌, ◌&&◌, ℕ, not, length, slice_get, IfOk, Some};
ghost use Rattle.std.specs.Str.{bytes_eq};
ghost use Rattle.whatif.specs.Policies.{HaveViews, allows, loggers_of, others_of};

use crate::policy::Policy;
use std::alloc::Global;
use wol_config::VolumeConf;
use wol_disk::NoMemory;

// Whether both are volumes of one host.
fn share_host(one: &VolumeConf, other: &VolumeConf) -> bool
    ensures { result ≡ bytes_eq one.now.host other.now.host }
{
    one.host.as_bytes() == other.host.as_bytes()
}

// Whether the second volume logs for the first.
fn logs_for(policy: Policy, volumes: &[VolumeConf], volume: usize, logger: usize) -> bool
    requires volume { volume < length volumes.now }
    requires logger { logger < length volumes.now }
    ensures { result ≡ (not (volume == logger) && allows policy volumes.now volume logger) }
{
    if volume == logger {
        return false;
    }
    match policy {
        Policy::Always | Policy::SpinDown | Policy::Views => false,
        Policy::Host => share_host(&volumes[volume], &volumes[logger]),
        Policy::All => true,
    }
}

// The volumes that log for this one, in the configuration's order, where no view says.
fn others_of(
    alloc: Global,
    policy: Policy,
    volumes: &[VolumeConf],
    volume: usize,
) -> Result<Vec<u32>, NoMemory>
    requires volume { volume < length volumes.now }
    requires few { length volumes.now ≤ 64 }
    ensures others { IfOk result (λ v. v.items ≡ others_of policy volumes.now volume) }
    ensures within { IfOk result (λ v. AllByRecursion (λ d. d < length volumes.now) v.items) }
    ensures few { IfOk result (λ v. length v.items ≤ 64) }
{
    let mut loggers = Vec::new(alloc);
    for logger in 0..volumes.len() {
        if logs_for(policy, volumes, volume, logger) {
            loggers.push(logger as u32)?;
        }
    }
    Ok(loggers)
}

// The volumes that the view names.
fn view_of(alloc: Global, volume: &VolumeConf) -> Result<Vec<u32>, NoMemory>
    ensures { IfOk result (λ v. v.items ≡ volume.now.view) }
{
    Ok(volume.view.ids().to_vec(alloc)?)
}

/// The volumes that log for this one, in the order in which they are asked.
pub(crate) fn loggers_of(
    alloc: Global,
    policy: Policy,
    volumes: &[VolumeConf],
    volume: usize,
) -> Result<Vec<u32>, NoMemory>
    requires volume { volume < length volumes.now }
    requires few { length volumes.now ≤ 64 }
    requires views { HaveViews volumes.now }
    ensures loggers { IfOk result (λ v. v.items ≡ loggers_of policy volumes.now volume) }
    ensures within { IfOk result (λ v. AllByRecursion (λ d. d < length volumes.now) v.items) }
    ensures few { IfOk result (λ v. length v.items ≤ 64) }
{
    match policy {
        Policy::Views => view_of(alloc, &volumes[volume]),
        Policy::Always | Policy::SpinDown | Policy::Host | Policy::All => {
            others_of(alloc, policy, volumes, volume)
        }
    }
}
