// What is wrong with a volume, and the text that says so.
ghost use Rattle.report.specs.Names.{printed_names};
ghost use Rattle.report.specs.Troubles.{place_text, trouble_status, trouble_text, twins_text};
ghost use Rattle.std.specs.Prelude.{◌≡◌, ◌++◌, OnOk, OnErr};

use crate::names::name_at;
use crate::words::Word::{Number, Text};
use crate::words::append_words;
use wol_config::VolumeConf;
use wol_disk::NoMemory;

/// What is wrong with a volume. A block is a block of the image of the volume that is named beside it.
#[derive(Clone, Copy, Debug, PartialEq, Eq)]
pub enum Trouble {
    /// The bay has no such image.
    Absent,
    /// The image has so many bytes, which aren't as many as it should have.
    Length {
        bytes: u64,
    },
    /// The label isn't that of the configuration.
    LabelDiffers,
    /// This block is damaged.
    Damaged {
        volume: u32,
        block: u64,
    },
    /// The valid records at these two blocks have one version.
    Twins {
        first_volume: u32,
        first: u64,
        second_volume: u32,
        second: u64,
    },
    /// The volume owns this segment, whose logger isn't in its view.
    OutsideView {
        logger: u32,
        segment: u32,
    },
    /// A logger of the view isn't configured, or its image was refused.
    LoggerMissing {
        id: u32,
    },
    /// A call of the bay failed.
    Bay,
    /// A call of the label failed.
    Label,
    /// A call of home failed.
    Home,
    /// A call of this segment failed.
    Segment {
        logger: u32,
        index: u32,
    },
}

impl Trouble {
    /// The exit status of a run that ended with it.
    pub fn status(self) -> u8
        ensures { result ≡ trouble_status self }
    {
        match self {
            Trouble::Absent => 12,
            Trouble::Length { .. } => 5,
            Trouble::LabelDiffers => 5,
            Trouble::Damaged { .. } => 5,
            Trouble::Twins { .. } => 5,
            Trouble::OutsideView { .. } => 5,
            Trouble::LoggerMissing { .. } => 6,
            Trouble::Bay => 4,
            Trouble::Label => 4,
            Trouble::Home => 4,
            Trouble::Segment { .. } => 4,
        }
    }
}

/// Appends the text of a trouble, without a line feed. `NoMemory` appends nothing.
///
/// No volumes stand for `solo`, whose one volume has the number 0 and the name `solo`.
#[tactic(auto, unfolding(crate::specs::Troubles::trouble_text))]
pub fn trouble_text(
    volumes: &[VolumeConf],
    trouble: &Trouble,
    out: &mut Vec<u8>,
) -> Result<(), NoMemory>
    ensures ok { OnOk result
        (out.new.items ≡ out.old.items ++ trouble_text (printed_names volumes.now) trouble.now) }
    ensures err { OnErr result (out.new.items ≡ out.old.items) }
{
    match *trouble {
        Trouble::Absent => append_words(&[Text(b"absent")], out),
        Trouble::Length { bytes } => append_words(&[Text(b"length"), Number(bytes)], out),
        Trouble::LabelDiffers => append_words(&[Text(b"label differs")], out),
        Trouble::Damaged { volume, block } => {
            append_place(b"damaged", block, name_at(volumes, volume), out)
        }
        Trouble::Twins {
            first_volume,
            first,
            second_volume,
            second,
        } => {
            let name = name_at(volumes, first_volume);
            let other = name_at(volumes, second_volume);
            append_twins(first, name, second, other, out)
        }
        Trouble::OutsideView { logger, segment } => {
            let segment = u64::from(segment);
            append_place(
                b"outside view segment",
                segment,
                name_at(volumes, logger),
                out,
            )
        }
        Trouble::LoggerMissing { id } => {
            let id = Number(u64::from(id));
            append_words(&[Text(b"logger"), id, Text(b"missing")], out)
        }
        Trouble::Bay => append_words(&[Text(b"disk bay")], out),
        Trouble::Label => append_words(&[Text(b"disk label")], out),
        Trouble::Home => append_words(&[Text(b"disk home")], out),
        Trouble::Segment { logger, index } => {
            append_place(
                b"disk segment",
                u64::from(index),
                name_at(volumes, logger),
                out,
            )
        }
    }
}

// Appends a place in the image of the volume of this name.
fn append_place<'a>(
    what: &'a [u8],
    number: u64,
    name: &'a [u8],
    out: &mut Vec<u8>,
) -> Result<(), NoMemory>
    ensures ok { OnOk result (out.new.items ≡ out.old.items ++ place_text what.now number name.now) }
    ensures err { OnErr result (out.new.items ≡ out.old.items) }
{
    append_words(&[Text(what), Number(number), Text(b"of"), Text(name)], out)
}

// Appends two places with records of one version.
fn append_twins<'a>(
    first: u64,
    name: &'a [u8],
    second: u64,
    other: &'a [u8],
    out: &mut Vec<u8>,
) -> Result<(), NoMemory>
    ensures ok { OnOk result
        (out.new.items ≡ out.old.items ++ twins_text first name.now second other.now) }
    ensures err { OnErr result (out.new.items ≡ out.old.items) }
{
    append_words(
        &[
            Text(b"twins"),
            Number(first),
            Text(b"of"),
            Text(name),
            Text(b"and"),
            Number(second),
            Text(b"of"),
            Text(other),
        ],
        out,
    )
}
