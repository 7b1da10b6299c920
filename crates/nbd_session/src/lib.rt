//! NBD, the network block device: a server and a client agree on an export, and then the client's requests are read and
//! written piece by piece at a volume, and each gets its reply.
//!
//! The fixed newstyle handshake: `handshake.rt` has `shake`, from the greeting on; `option_intake.rt` takes the client's flags and
//! options from the source; `replies.rt` says which bytes answer an option, `ending.rt` which option ends the handshake, `asked.rt`
//! what an option asks for; `export.rt` has what is agreed on (`Export`).
//!
//! A session: `session.rt` has `serve`, its loop; `volume.rt` what a volume that is served can do (`Volume`), a turn at a
//! time; `header.rt` requests and `error.rt` the errors of replies; `intake.rt` takes a request's bytes from the source;
//! `answer.rt` says what becomes of one request, `ranges.rt` cuts its range into pieces, and `reply.rt` sends the reply.
//!
//! To read the contract of `shake`, begin with `specs/Options` (an option as bytes, its replies, and what it ends) and then
//! `Shakes` (options one after another, and how a handshake ends). `OptionTaking` serves the functions within. In `proofs/`:
//! `Sent` for the bytes of replies, `Takings` for options that are taken, `Turns` for options one after another.
//!
//! To read the contract of `serve`, begin with `specs/Headers` (requests and replies as bytes), `Errors` (which error a
//! request has before the volume is asked), `Turns` (what is asked of a volume), `Ranges` (a range in pieces), `Answers`
//! (what becomes of one request) and `Sessions` (requests one after another, and how a session ends). `Intake` and `Taking`
//! serve the functions within. In `proofs/`: `Intakes` for bytes taken call by call, `Piecewise` for ranges, `Stays` for a
//! volume that stays ready, `RequestAnswers` for what a volume was asked, `ReplyBytes` for what a sink takes, `Served` for requests one
//! after another, `Along` for a session seen at another volume.
#![tactic(auto)]

mod answer;
mod asked;
mod ending;
mod error;
mod export;
mod handshake;
mod header;
mod intake;
mod option_intake;
mod ranges;
mod replies;
mod reply;
mod session;
mod volume;

pub use ending::{Shaken, Unagreed};
pub use error::NbdError;
pub use export::Export;
pub use handshake::shake;
pub use header::{Command, Header};
pub use intake::{fill_room, take_data};
pub use session::{Ended, NbdFault, serve};
pub use volume::{Refusal, Volume};
