// The machines of the policies, side by side.
ghost use Rattle.comparison.specs.Side.{AreAt, AreTogether, HaveRun, IsAt, MayRunAt, RanOn};
ghost use Rattle.std.specs.List.{AllByRecursion};
ghost use Rattle.std.specs.Prelude.{◌≡◌, ◌<◌, ◌≤◌, ◌+◌, ◌^◌, ◌++◌, ◌∷◌, [], ℕ, true, List, length, IfOk, IfSome, OnOk, is_some, if◌then◌else◌};
ghost use Rattle.whatif.specs.Lines.{details_text, policy_text, whatif_text};
ghost use Rattle.whatif.specs.Machine.{Asked};
ghost use Rattle.whatif.specs.Policies.{compared};
ghost use Rattle.whatif.specs.Stands.{HasRun, IsAsk, IsMachine};
ghost use Rattle.wol_config.specs.Configs.{IsValid};
ghost use Rattle.wol_config.specs.declared.config.Config.{Config};

use std::alloc::Global;
use whatif::{Ask, Details, Machine, Policy, policy_line};
use wol_config::Config;
use wol_disk::NoMemory;

/// A machine of each policy.
#[derive(Drop)]
pub(crate) struct Machines {
    pub always: Machine,
    pub spin_down: Machine,
    pub host: Machine,
    pub all: Machine,
    /// The machine by the views of the configuration, where more is told than a line of each.
    pub views: Option<Machine>,
}

// A further machine, where more is told than a line of each.
fn views_for(
    alloc: Global,
    config: &Config,
    more: bool,
    from: u64,
) -> Result<Option<Machine>, NoMemory>
    requires { IsValid config.now }
    ensures some { IfOk result (λ o. is_some o ≡ more) }
    ensures at { IfOk result
        (λ o. IfSome o (IsAt (length config.now.volumes.items) from 0)) }
    ensures run { IfOk result (λ o. IfSome o (HasRun Policy.Views config.now from [])) }
{
    if !more {
        return Ok(None);
    }
    Ok(Some(Machine::new(alloc, Policy::Views, config, from)?))
}

// The machine runs a window of requests, if there is one.
fn window_if(machine: &mut Option<Machine>, at: u64, asks: &[Ask]) -> Result<(), NoMemory>
    requires { IfSome machine.old (MayRunAt at asks.now) }
    ensures { OnOk result (RanOn at asks.now machine.old machine.new) }
{
    match machine {
        Some(machine) => machine.window(at, asks),
        None => Ok(()),
    }
}

// Appends the line of a machine whose account ends at `to`.
fn tell(policy: Policy, machine: Machine, to: u64, out: &mut Vec<u8>) -> Result<(), NoMemory>
    requires machine { IsMachine machine }
    requires live { machine.live ≡ true }
    requires later { machine.moment ≤ to }
    ensures ok { OnOk result ((config : Config) (from : ℕ) (ws : List Asked)
        → HasRun policy config from ws machine
        → out.new.items
        ≡ out.old.items ++ policy_text policy (compared policy config from ws to)) }
{
    policy_line(policy, &machine.used_until(to), out)
}

impl Machines {
    /// Whether more than a line of each is told.
    pub(crate) fn tells_more(&self) -> bool
        ensures { result ≡ is_some self.now.views }
    {
        self.views.is_some()
    }

    /// Machines whose accounts begin at `from`, in units of 100 ns.
    pub(crate) fn new(
        alloc: Global,
        config: &Config,
        more: bool,
        from: u64,
    ) -> Result<Machines, NoMemory>
        requires { IsValid config.now }
        ensures some { IfOk result (λ ms. is_some ms.views ≡ more) }
        ensures at { IfOk result (AreAt (length config.now.volumes.items) from 0) }
        ensures run { IfOk result (HaveRun config.now from []) }
    {
        Ok(Machines {
            always: Machine::new(alloc, Policy::Always, config, from)?,
            spin_down: Machine::new(alloc, Policy::SpinDown, config, from)?,
            host: Machine::new(alloc, Policy::Host, config, from)?,
            all: Machine::new(alloc, Policy::All, config, from)?,
            views: views_for(alloc, config, more, from)?,
        })
    }

    /// Each runs a window of requests, whose moment is `at`, in units of 100 ns.
    pub(crate) fn window(&mut self, at: u64, asks: &[Ask]) -> Result<(), NoMemory>
        requires together { AreTogether self.old }
        requires later { self.old.always.moment ≤ at }
        requires asks { AllByRecursion (IsAsk (length self.old.always.volumes.items)) asks.now }
        requires few { self.old.always.asked + length asks.now < 2 ^ 63 }
        ensures at { OnOk result (AreAt (length self.old.always.volumes.items) at
            (self.old.always.asked + length asks.now) self.new) }
        ensures some { OnOk result (is_some self.new.views ≡ is_some self.old.views) }
        ensures run { OnOk result ((config : Config) (from : ℕ) (ws : List Asked)
            → HaveRun config from ws self.old
            → HaveRun config from (ws ++ record { moment = at; asks = asks.now } ∷ []) self.new) }
    {
        self.always.window(at, asks)?;
        self.spin_down.window(at, asks)?;
        self.host.window(at, asks)?;
        self.all.window(at, asks)?;
        window_if(&mut self.views, at, asks)
    }

    /// Appends what is told of each: a line, or all that is asked for where the views have a machine too. The accounts end at `to`,
    /// in units of 100 ns.
    pub(crate) fn tell(
        self,
        config: &Config,
        details: Details,
        to: u64,
        out: &mut Vec<u8>,
    ) -> Result<(), NoMemory>
        requires together { AreTogether self }
        requires later { self.always.moment ≤ to }
        requires count { length config.now.volumes.items ≡ length self.always.volumes.items }
        ensures { OnOk result ((from : ℕ) (ws : List Asked) → HaveRun config.now from ws self
            → out.new.items ≡ out.old.items
            ++ (if is_some self.views then details_text details config.now from ws to
            else whatif_text config.now from ws to)) }
    {
        let Machines {
            always,
            spin_down,
            host,
            all,
            views,
        } = self;
        let Some(views) = views else {
            tell(Policy::Always, always, to, out)?;
            tell(Policy::SpinDown, spin_down, to, out)?;
            tell(Policy::Host, host, to, out)?;
            return tell(Policy::All, all, to, out);
        };
        always.tell(Policy::Always, config, details, to, out)?;
        spin_down.tell(Policy::SpinDown, config, details, to, out)?;
        host.tell(Policy::Host, config, details, to, out)?;
        all.tell(Policy::All, config, details, to, out)?;
        views.tell(Policy::Views, config, details, to, out)
    }
}
