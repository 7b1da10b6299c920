// What ended a run, and the line that says so.
ghost use Rattle.report.specs.Faults.{bad_line_text, cause_text, config_text, fault_text, status_of};
ghost use Rattle.report.specs.Names.{printed_names};
ghost use Rattle.std.specs.Io.{StartsWith};
ghost use Rattle.std.specs.Prelude.{◌≡◌, ◌≢◌, ◌++◌, OnOk, OnErr};

use crate::names::name_at;
use crate::trouble::{Trouble, trouble_text};
use crate::words::Word::{Number, Text};
use crate::words::{append_words, put_ended};
use msr_trace::BadLine;
use wol_config::{ConfigFault, VolumeConf};
use wol_disk::NoMemory;

/// What ended a run.
#[derive(Debug, Drop)]
pub enum Fault {
    /// The words aren't a command.
    Words,
    /// The configuration's bytes are no configuration.
    Config(ConfigFault),
    /// The line with this number, counted from 1, is no line of a trace.
    Line { line: u64, why: BadLine },
    /// The volume with this number isn't in order.
    Volume { volume: u32, trouble: Trouble },
    /// The source of the configuration failed.
    ConfigSource,
    /// The source of the trace failed.
    TraceSource,
    /// There was no memory.
    Memory,
    /// There are more than 2^32 lines.
    Lines,
    /// The volume with this number has no more versions.
    Versions { volume: u32 },
}

impl Fault {
    /// The exit status of a run that ended with it.
    pub fn status(&self) -> u8
        ensures { result ≡ status_of self.now }
    {
        match self {
            Fault::Words => 1,
            Fault::Config(ConfigFault::NoMemory) => 9,
            Fault::Config(_) => 2,
            Fault::Line { .. } => 3,
            Fault::Volume { trouble, .. } => trouble.status(),
            Fault::ConfigSource => 8,
            Fault::TraceSource => 8,
            Fault::Memory => 9,
            Fault::Lines => 10,
            Fault::Versions { .. } => 11,
        }
    }
}

/// Appends the line of a fault. `NoMemory` appends nothing.
///
/// No volumes stand for `solo`, whose one volume has the number 0 and the name `solo`. A configuration that was refused for
/// want of memory has no line of its own: that fault is `Memory`.
#[tactic(auto, unfolding(crate::specs::Faults::fault_text))]
pub fn fault_text(volumes: &[VolumeConf], fault: &Fault, out: &mut Vec<u8>) -> Result<(), NoMemory>
    requires told { fault.now ≢ Fault.Config ConfigFault.NoMemory }
    ensures ok { OnOk result
        (out.new.items ≡ out.old.items ++ fault_text (printed_names volumes.now) fault.now) }
    ensures err { OnErr result (out.new.items ≡ out.old.items) }
{
    let start = out.len();
    let status = u64::from(fault.status());
    if put_ended(&[Text(b"fault"), Number(status)], b' ', out).is_ok()
        && put_cause(volumes, fault, out).is_ok()
        && out.push(b'\n').is_ok()
    {
        return Ok(());
    }
    out.truncate(start);
    Err(NoMemory)
}

// What stands behind the status. A front of that may be left behind.
#[tactic(auto, unfolding(crate::specs::Faults::cause_text))]
fn put_cause(volumes: &[VolumeConf], fault: &Fault, out: &mut Vec<u8>) -> Result<(), NoMemory>
    requires told { fault.now ≢ Fault.Config ConfigFault.NoMemory }
    ensures ok { OnOk result
        (out.new.items ≡ out.old.items ++ cause_text (printed_names volumes.now) fault.now) }
    ensures starts { StartsWith out.new.items out.old.items }
{
    match fault {
        Fault::Words => append_words(&[Text(b"words")], out),
        Fault::Config(why) => {
            put_ended(&[Text(b"config")], b' ', out)?;
            append_config_fault(why, out)
        }
        Fault::Line { line, why } => {
            put_ended(&[Text(b"line"), Number(*line)], b' ', out)?;
            append_bad_line(*why, out)
        }
        Fault::Volume { volume, trouble } => {
            put_ended(&[Text(name_at(volumes, *volume))], b' ', out)?;
            trouble_text(volumes, trouble, out)
        }
        Fault::ConfigSource => append_words(&[Text(b"config")], out),
        Fault::TraceSource => append_words(&[Text(b"trace")], out),
        Fault::Memory => append_words(&[Text(b"memory")], out),
        Fault::Lines => append_words(&[Text(b"lines")], out),
        Fault::Versions { volume } => {
            let name = name_at(volumes, *volume);
            append_words(&[Text(b"versions"), Text(name)], out)
        }
    }
}

// Why bytes are no configuration.
#[tactic(auto, unfolding(crate::specs::Faults::config_text))]
fn append_config_fault(why: &ConfigFault, out: &mut Vec<u8>) -> Result<(), NoMemory>
    requires { why.now ≢ ConfigFault.NoMemory }
    ensures ok { OnOk result (out.new.items ≡ out.old.items ++ config_text why.now) }
    ensures err { OnErr result (out.new.items ≡ out.old.items) }
{
    match why {
        ConfigFault::NotToml => append_words(&[Text(b"not toml")], out),
        ConfigFault::Missing { key } => {
            append_words(&[Text(b"missing"), Text(key.text().as_bytes())], out)
        }
        ConfigFault::WrongKind { key } => {
            append_words(&[Text(b"wrong kind"), Text(key.text().as_bytes())], out)
        }
        ConfigFault::OutOfRange { key } => {
            append_words(&[Text(b"out of range"), Text(key.text().as_bytes())], out)
        }
        ConfigFault::Twice { name, .. } => {
            append_words(&[Text(b"twice"), Text(name.as_bytes())], out)
        }
        ConfigFault::BadView { name, .. } => {
            append_words(&[Text(b"bad view"), Text(name.as_bytes())], out)
        }
        ConfigFault::NoMemory => unreachable!(),
        ConfigFault::TooLong => append_words(&[Text(b"too long")], out),
    }
}

// Why a line is no line of a trace.
#[tactic(auto, unfolding(crate::specs::Faults::bad_line_text))]
fn append_bad_line(why: BadLine, out: &mut Vec<u8>) -> Result<(), NoMemory>
    ensures ok { OnOk result (out.new.items ≡ out.old.items ++ bad_line_text why) }
    ensures err { OnErr result (out.new.items ≡ out.old.items) }
{
    match why {
        BadLine::FieldCount => append_words(&[Text(b"fields")], out),
        BadLine::Number(field) => {
            append_words(&[Text(b"number"), Number(u64::from(field))], out)
        }
        BadLine::Kind => append_words(&[Text(b"kind")], out),
        BadLine::TooLarge => append_words(&[Text(b"too large")], out),
        BadLine::PastEnd => append_words(&[Text(b"past end")], out),
        BadLine::LineTooLong => append_words(&[Text(b"too long")], out),
        BadLine::Quote => append_words(&[Text(b"quote")], out),
    }
}
