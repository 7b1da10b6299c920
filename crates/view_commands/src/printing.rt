// The line of a view.
ghost use Rattle.report.specs.Names.{name_at};
ghost use Rattle.report.specs.declared.fault.Fault.TheVariants.{Memory};
ghost use Rattle.report.specs.declared.fault.Fault.{Fault};
ghost use Rattle.std.specs.Prelude.{◌≡◌, ◌≤◌, Err, IfOk};
ghost use Rattle.view_commands.specs.Orders.{view_text};
ghost use Rattle.view_commands.specs.Printed.{PrintsView};
ghost use Rattle.view_commands.specs.declared.order.Stop.TheVariants as stop;
ghost use Rattle.view_commands.specs.declared.order.ViewRefusal.{ViewRefusal};
ghost use Rattle.wol_config.specs.Documents.{names_of};

use crate::order::Stop;
use log_layout::View;
use report::Word::Text;
use report::append_line;
use std::alloc::Global;
use wol_config::Config;
use wol_disk::NoMemory;
use wol_io::Sink;

// The name of a volume, or none where it isn't configured.
fn name_of(config: &Config, volume: u32) -> &[u8]
    ensures { result.now ≡ name_at (names_of config.now.volumes.items) volume }
{
    match config.volumes.get(volume as usize) {
        Some(conf) => conf.name.as_bytes(),
        None => b"",
    }
}

// The line of the view of a volume: its name, and those of its loggers in order.
fn view_line(alloc: Global, config: &Config, volume: u32, view: &View) -> Result<Vec<u8>, NoMemory>
    ensures { IfOk result (λ line. line.items ≡ view_text config.now volume view.now) }
{
    let mut words = Vec::new(alloc);
    words.push(Text(b"view"))?;
    words.push(Text(name_of(config, volume)))?;
    words.push(Text(b"loggers"))?;
    for id in view.ids() {
        words.push(Text(name_of(config, *id)))?;
    }
    let mut line = Vec::new(alloc);
    append_line(&words, &mut line)?;
    Ok(line)
}

/// Prints the view of a volume.
pub(crate) fn print_view<K: Sink>(
    alloc: Global,
    config: &Config,
    volume: u32,
    view: &View,
    out: &mut K,
) -> Result<(), Stop>
    ensures prints { PrintsView config.now volume view.now result (K.faults out.old)
        (K.faults out.new) (K.taken out.old) (K.taken out.new) }
    ensures later { K.faults out.old ≤ K.faults out.new }
    ensures refused { (r : ViewRefusal) → result ≡ Err (stop.Refused r) → ⊥ }
    ensures fault { (f : Fault) → result ≡ Err (stop.Fault f) → f ≡ Memory }
{
    let line = view_line(alloc, config, volume, view)?;
    out.write(&line)?;
    Ok(())
}
