// Whether a manager can be cleaned.
ghost use Rattle.log_cleaner.specs.Chunks.{NoneHomed};
ghost use Rattle.log_cleaner.specs.Cleans.{CanClean};
ghost use Rattle.std.specs.List.{AllByRecursion};
ghost use Rattle.std.specs.Prelude.{◌≡◌, ◌↔◌, true};
ghost use Rattle.wol_model.specs.Index.{listed_in};

use manager::Manager;
use redirect_map::Index;
use wol_disk::Disk;

// Whether no block of a record is home too.
fn none_homed(index: &Index) -> bool
    ensures { (result ≡ true) ↔ NoneHomed (listed_in index.now.entries) }
{
    for place in 0..index.len() {
        if index.homed(index.at(place).version) != 0 {
            return false;
        }
    }
    true
}

// Whether each of these is true.
fn all_up(ups: &[bool]) -> bool
    ensures { (result ≡ true) ↔ AllByRecursion (λ up. up ≡ true) ups.now }
{
    for place in 0..ups.len() {
        if !ups[place] {
            return false;
        }
    }
    true
}

/// Whether the manager can be cleaned: nothing failed, no block is homed, and all its loggers are awake for it.
pub(crate) fn can_clean<D: Disk>(m: &Manager<D>) -> bool
    ensures { (result ≡ true) ↔ CanClean m.now }
{
    m.down().is_none() && all_up(m.ups()) && none_homed(m.index())
}
