// All that is told of a policy.
ghost use Rattle.std.specs.List.{AllByRecursion, flat_map, range_with_len};
ghost use Rattle.std.specs.Prelude.{◌≡◌, ◌<◌, ◌≤◌, ◌++◌, [], ℕ, List, true, length, slice_index_or, OnOk, OnErr, if◌then◌else◌};
ghost use Rattle.whatif.specs.Disks.{AreDisks, IsKept, moments_of};
ghost use Rattle.whatif.specs.Lines.{conf_at, long_text, told_text, used_at, volume_text, volumes_text};
ghost use Rattle.whatif.specs.Machine.{Asked};
ghost use Rattle.whatif.specs.Policies.{waits_by};
ghost use Rattle.whatif.specs.Stands.{HasRun, IsMachine};
ghost use Rattle.whatif.specs.Waits.{AreLogged, AreTold, IsMost, Waited, helds, of_disk, of_volume};
ghost use Rattle.whatif.specs.declared.logged.Most.{Most};
ghost use Rattle.whatif.specs.declared.waits.Told.{Told};
ghost use Rattle.wol_model.specs.Journal.{ArePowers, SpindleState};

use crate::disk::Disk;
use crate::lines::{logged_line, policy_line, volume_line, waits_line};
use crate::logged::{Logged, Most};
use crate::machine::Machine;
use crate::policy::{Details, Policy};
use crate::waits::Told;
use wol_config::{Config, VolumeConf};
use wol_disk::NoMemory;
use wol_model::{Kind, Powers};

/// Appends the line of each volume, whose disks and waits these are. Accounts end at `to`, in units of 100 ns.
pub(crate) fn volume_lines(
    policy: Policy,
    volumes: &[VolumeConf],
    disks: &[Disk],
    told: &[Told],
    held: &[Most],
    powers: &Powers,
    to: u64,
    out: &mut Vec<u8>,
) -> Result<(), NoMemory>
    requires disks { length disks.now ≡ length volumes.now }
    requires told { length told.now ≡ length volumes.now }
    requires held { length held.now ≡ length volumes.now }
    requires kept { AllByRecursion IsKept disks.now }
    requires moments { AllByRecursion (λ t. t ≤ to) (moments_of disks.now) }
    requires powers { ArePowers powers.now }
    ensures { (wake : ℕ) (ss : List SpindleState) (ws : List Waited) → AreDisks disks.now ss
        → ((k : ℕ) (d : Told) → k < length told.now
        → AreTold wake (of_volume k ws) (slice_index_or told.now k d))
        → ((k : ℕ) (d : Most) → k < length held.now
        → IsMost (of_disk k (helds ws)) (slice_index_or held.now k d))
        → OnOk result (out.new.items ≡ out.old.items ++ flat_map
        (λ k. volume_text policy (conf_at volumes.now k) (used_at powers.now to ss k) wake
        (of_volume k ws) (of_disk k (helds ws))) (range_with_len 0 (length volumes.now))) }
{
    for place in 0..volumes.len() {
        let used = disks[place].used_until(to, powers);
        volume_line(
            policy,
            &volumes[place],
            &used,
            &told[place],
            &held[place],
            out,
        )?;
    }
    Ok(())
}

// Appends the lines of reads, of writes and of logs.
fn long_lines(
    policy: Policy,
    told: &Told,
    logged: &Logged,
    wake: u64,
    out: &mut Vec<u8>,
) -> Result<(), NoMemory>
    ensures { (ws : List Waited) → AreTold wake ws told.now → AreLogged (helds ws) logged.now
        → OnOk result (out.new.items ≡ out.old.items ++ long_text policy wake ws) }
{
    waits_line(policy, Kind::Read, &told.reads, wake, out)?;
    waits_line(policy, Kind::Write, &told.writes, wake, out)?;
    logged_line(policy, logged, out)
}

// .. where they are to be told.
fn long_if(
    told: bool,
    policy: Policy,
    of: &Told,
    logged: &Logged,
    wake: u64,
    out: &mut Vec<u8>,
) -> Result<(), NoMemory>
    ensures { (ws : List Waited) → AreTold wake ws of.now → AreLogged (helds ws) logged.now
        → OnOk result (out.new.items
        ≡ out.old.items ++ (if told then long_text policy wake ws else [])) }
{
    if told {
        return long_lines(policy, of, logged, wake, out);
    }
    Ok(())
}

impl Machine {
    // Appends the line of each volume, where they are to be told.
    fn volumes_if(
        &self,
        told: bool,
        policy: Policy,
        volumes: &[VolumeConf],
        to: u64,
        out: &mut Vec<u8>,
    ) -> Result<(), NoMemory>
        requires machine { IsMachine self.now }
        requires later { self.now.moment ≤ to }
        requires count { length volumes.now ≡ length self.now.volumes.items }
        ensures { (c : Config) (from : ℕ) (ws : List Asked) → HasRun policy c from ws self.now
            → volumes.now ≡ c.volumes.items
            → OnOk result (out.new.items ≡ out.old.items
            ++ (if told then volumes_text policy c from ws to else [])) }
    {
        if told {
            return self.volume_lines(policy, volumes, to, out);
        }
        Ok(())
    }

    /// Appends all lines of the machine's policy, for the configuration that it was made for. Its account ends at `to`, in units of
    /// 100 ns. Where memory is short some first lines may have been appended.
    pub fn tell(
        &self,
        policy: Policy,
        config: &Config,
        details: Details,
        to: u64,
        out: &mut Vec<u8>,
    ) -> Result<(), NoMemory>
        requires machine { IsMachine self.now }
        requires live { self.now.live ≡ true }
        requires later { self.now.moment ≤ to }
        requires count { length config.now.volumes.items ≡ length self.now.volumes.items }
        ensures { (from : ℕ) (ws : List Asked) → HasRun policy config.now from ws self.now
            → OnOk result (out.new.items
            ≡ out.old.items ++ told_text details policy config.now from ws to) }
    {
        policy_line(policy, &self.used_until(to), out)?;
        let wake = config.wake;
        long_if(details.long, policy, &self.told(), self.logged(), wake, out)?;
        self.volumes_if(details.volumes, policy, &config.volumes, to, out)
    }
}
