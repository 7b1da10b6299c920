// The lines of `dump`.
ghost use Rattle.inspection.specs.Texts.{count_text, mask_text, record_line};
ghost use Rattle.inspection.specs.Volumes.{HasLine, IsDump, IsDumpOf, IsVolumeOf};
ghost use Rattle.logger.specs.Lanes.{logger_of};
ghost use Rattle.manager.specs.Stands.{IsPlacedIn, IsReady, Leaves};
ghost use Rattle.manager.specs.declared.part.Part.{Part};
ghost use Rattle.redirect_map.specs.Index.{IsIndex};
ghost use Rattle.std.specs.Io.{StartsWith};
ghost use Rattle.std.specs.List.{AllByRecursion};
ghost use Rattle.std.specs.Prelude.{◌≡◌, ◌↔◌, ◌++◌, ◌<◌, ℕ, List, [], length, OnOk, OnErr, None, Some};
ghost use Rattle.wol_config.specs.Configs.{IsValid};
ghost use Rattle.wol_model.specs.History.{Kept};

use crate::fault::DumpFault;
use hex::encode_to_slice;
use manager::Manager;
use redirect_map::Rec;
use report::Word::{Number, Text};
use report::append_line;
use wol_config::Config;
use wol_disk::{Disk, NoMemory};

/// Appends the lines of a volume in order: its name and how many valid records it has, and then a line for each record by
/// rising version. No disk is read, and the manager stays as it is. After a refusal nothing is appended.
pub fn dump_lines<D: Disk>(
    manager: &mut Manager<D>,
    config: &Config,
    volume: u32,
    out: &mut Vec<u8>,
) -> Result<(), DumpFault>
    requires ready { IsReady D.state manager.old }
    requires valid { IsValid config.now }
    requires serves { IsVolumeOf D.state config.now volume manager.old }
    ensures content { OnOk result (IsDump config.now volume manager.old out.old.items out.new.items) }
    ensures err { OnErr result (out.new.items ≡ out.old.items) }
    ensures down { (p : Part) → (result ≡ Err (DumpFault.Down p)) ↔ (manager.old.down ≡ Some p) }
    ensures calm { (p : Part) → ¬ (result ≡ Err (DumpFault.DiskFault p)) }
    ensures unchanged { manager.new ≡ manager.old }
    ensures stands { (pass : ℕ) → Leaves D.tells D.state manager.old manager.new Kept [] pass }
{
    if let Some(part) = manager.down() {
        return Err(DumpFault::Down(part));
    }
    let start = out.len();
    let name = config.volumes[volume as usize].name.as_bytes();
    match put_lines(manager, config, name, out) {
        Ok(()) => Ok(()),
        Err(NoMemory) => {
            out.truncate(start);
            Err(DumpFault::NoMemory)
        }
    }
}

// The same of a manager whose records lie in its lanes, and whose volume has this name, but some first lines may be left
// behind.
fn put_lines<'a, D: Disk>(
    manager: &Manager<D>,
    config: &Config,
    name: &'a [u8],
    out: &mut Vec<u8>,
) -> Result<(), NoMemory>
    requires placed { AllByRecursion (IsPlacedIn manager.now.lanes.items) manager.now.index.entries }
    requires loggers { AllByRecursion (λ l. logger_of l < length config.now.volumes.items)
        manager.now.lanes.items }
    ensures ok { OnOk result (IsDumpOf config.now name.now manager.now out.old.items out.new.items) }
    ensures starts { StartsWith out.new.items out.old.items }
{
    let records = manager.index().len();
    append_count(name, records, out)?;
    for place in 0..records {
        put_record(manager, config, place, out)?;
    }
    Ok(())
}

// Appends the line of a volume with so many records.
#[tactic(auto, unfolding(crate::specs::Texts::count_text))]
fn append_count<'a>(name: &'a [u8], records: u64, out: &mut Vec<u8>) -> Result<(), NoMemory>
    ensures ok { OnOk result (out.new.items ≡ out.old.items ++ count_text name.now records) }
    ensures err { OnErr result (out.new.items ≡ out.old.items) }
{
    append_line(&[Text(name), Text(b"records"), Number(records)], out)
}

// Appends the line of the record at this place of the index.
fn put_record<D: Disk>(
    manager: &Manager<D>,
    config: &Config,
    place: u64,
    out: &mut Vec<u8>,
) -> Result<(), NoMemory>
    requires placed { AllByRecursion (IsPlacedIn manager.now.lanes.items) manager.now.index.entries }
    requires index { IsIndex manager.now.index.entries }
    requires there { place < length manager.now.index.entries }
    requires loggers { AllByRecursion (λ l. logger_of l < length config.now.volumes.items)
        manager.now.lanes.items }
    ensures ok { OnOk result (HasLine config.now manager.now place out.old.items out.new.items) }
    ensures err { OnErr result (out.new.items ≡ out.old.items) }
{
    let index = manager.index();
    let record = index.at(place);
    let logger = &config.volumes[manager.logger(record.lane) as usize];
    let live = mask_digits(index.live(record.version));
    let home = mask_digits(index.homed(record.version));
    append_record(&record, logger.name.as_bytes(), &live, &home, out)
}

/// Appends the line of a record, with the name of its logger and the digits of its live blocks and of those that are home.
#[tactic(auto, unfolding(crate::specs::Texts::record_line))]
pub fn append_record<'a>(
    record: &Rec,
    logger: &'a [u8],
    live: &'a [u8],
    home: &'a [u8],
    out: &mut Vec<u8>,
) -> Result<(), NoMemory>
    ensures ok { OnOk result
        (out.new.items ≡ out.old.items ++ record_line «record».now logger.now live.now home.now) }
    ensures err { OnErr result (out.new.items ≡ out.old.items) }
{
    append_line(
        &[
            Text(b"record"),
            Number(record.version),
            Number(record.lbn),
            Number(u64::from(record.count)),
            Text(b"on"),
            Text(logger),
            Text(b"segment"),
            Number(u64::from(record.segment)),
            Text(b"block"),
            Number(u64::from(record.pos)),
            Text(b"live"),
            Text(live),
            Text(b"home"),
            Text(home),
        ],
        out,
    )
}

/// A mask of blocks in hexadecimal digits.
pub fn mask_digits(mask: u128) -> [u8; 32]
    ensures { result ≡ mask_text mask }
{
    let mut digits = [0; 32];
    let written = encode_to_slice(mask.to_be_bytes().as_slice(), &mut digits);
    prove!(written.is_ok());
    digits
}
