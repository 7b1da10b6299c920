// What standard error says beside an exit status: how the program is called, or what the status means and what to do next.
ghost use Rattle.std.specs.Prelude.{◌≡◌, ◌≢◌, ◌≤◌, [], IfSome, IsSome};

/// The program's name and version.
pub const VERSION: &str = "wol 0.2.0\n";

/// How the program is called.
pub const USAGE: &str = "\
usage: wol COMMAND, in the folder that has wol.toml and the images (NAME.vol)
  wol format                          make all images anew; this erases every volume
  wol format NAME                     make the missing image of NAME; this writes to no other
  wol replay [OPTION..] < TRACE       serve a block trace on the images
  wol check                           print each volume's state and the SHA-256 of its content
  wol dump                            print the records in logs
  wol whatif [OPTION..] < TRACE       compare policies on a trace, without images
  wol clean                           rewrite the records in logs as few
  wol serve [--wait SECONDS] NAME     serve NAME to an NBD client on the input and output
  wol nbd NAME                        the same without NBD's handshake
  wol gen SEED LINES                  print a generated trace
  wol soak SEED LINES [OPTION..]      replay a generated trace without printing it
  wol solo HOST DISK BLOCKS < TRACE   run one disk's lines on a new solo.vol, without wol.toml
  wol view-add NAME LOGGER            let LOGGER log for NAME
  wol view-remove NAME LOGGER         drain NAME; LOGGER logs for it no more
OPTION: --each | --workers N (1 to 64) | --reclaim off|between|beside; of whatif: --long | --volumes | --timeout MS
Numbers have no sign and no leading zero; -- stands before a NAME with a dash in front. docs/USAGE.md says more.
";

/// What is known of why a run ended so.
#[derive(Clone, Copy, PartialEq, Eq)]
pub enum Cause {
    Unknown,
    /// The trace is compressed.
    Compressed,
    /// The trace begins with a heading.
    Heading,
    /// There is no wol.toml.
    NoConfiguration,
    /// There is one that can't be read.
    Configuration,
    /// Images were made.
    Formatting,
}

/// What is said at a status, in whole lines; nothing where the command was done.
pub fn advice(status: u8, cause: Cause) -> Option<&'static str>
    ensures done { status ≡ 0 → result ≡ None }
    ensures told { 1 ≤ status → status ≤ 12 → IsSome result }
    ensures refused { 14 ≤ status → status ≤ 15 → IsSome result }
{
    Some(match status {
        1 => USAGE,
        2 => {
            "wol: wol.toml is not a valid configuration; no image was touched. Mend the key or name in the last line.\n"
        }
        3 => match cause {
            Cause::Compressed => {
                "wol: the trace is compressed; no line was run. gunzip -c FILE | wol .. gives its lines.\n"
            }
            Cause::Heading => {
                "wol: the trace begins with a heading; no line was run. tail -n +2 FILE | wol .. gives its lines.\n"
            }
            _ => {
                "wol: a line of the trace was refused; all lines before it were run. Mend it; only replay goes on from there.\n"
            }
        },
        4 => match cause {
            Cause::Formatting => {
                "wol: an image wasn't made. Look for a second wol, links, rights, space, ulimit -f; make a device blank (wipefs -a, blkdiscard).\n"
            }
            _ => {
                "wol: a call on the folder or an image failed. Look for a second wol, links, rights, space, ulimit -f, -n; then start again.\n"
            }
        },
        5 => match cause {
            Cause::Formatting => {
                "wol: an image is damaged or not the one in wol.toml. Put it back; where a stop left that of NAME unfinished, remove it.\n"
            }
            _ => {
                "wol: an image is damaged or not the one in wol.toml. Put back the right images or the right wol.toml.\n"
            }
        },
        6 => {
            "wol: a volume logs on one that is missing or was refused. wol check tells which; mend that one first.\n"
        }
        7 => {
            "wol: standard output failed: closed, full, or a pipe that nobody reads. wol check shows the images' state.\n"
        }
        8 => match cause {
            Cause::NoConfiguration => {
                "wol: this folder has no wol.toml; nothing was run. Go to the one that has it; README.md shows one.\n"
            }
            Cause::Configuration => {
                "wol: wol.toml can't be read; nothing was run. Look for its kind and its rights.\n"
            }
            _ => {
                "wol: the input can't be read; what came before was run. Look for the file, its kind and its rights.\n"
            }
        },
        9 => "wol: out of memory. Give it more and start again; after format, format again.\n",
        10 =>
            "wol: the trace has more than 4294967296 lines; those were run. Split it; only replay goes on with the rest.\n",
        11 =>
            "wol: a volume has no version left for a record. wol format begins anew, and erases every volume.\n",
        12 =>
            "wol: an image is missing. Put it back; for a new volume wol format NAME makes its image, and touches no other.\n",
        14 =>
            "wol: the client sent no NBD requests or handshake, or went away within one. What was answered is there.\n",
        15 =>
            "wol: no content and no view was changed. Look for the names in wol.toml, the view, or the image that is there.\n",
        _ => return None,
    })
}
