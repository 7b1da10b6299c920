// Command lines, and the commands that they ask for.
use command_words::{Command, Mode, WordsFault, command_of};
use fixtures::words_of;
use std::alloc::{AllocError, Global};
use std::test::Fail;

// Whether the line asks for no command.
fn is_refused(alloc: Global, line: &str) -> Result<bool, AllocError> {
    let words = words_of(alloc, line)?;
    Ok(matches!(&command_of(alloc, &words), Err(WordsFault::NotACommand)))
}

#[test]
fn each_command_is_read(rt: HostRuntime) -> Result<(), Fail> {
    let alloc = rt.alloc();
    let words = words_of(alloc, "solo usr 3 4294967296")?;
    let Ok(Command::Solo(volume)) = command_of(alloc, &words) else {
        return Err(Fail::from("no volume"));
    };
    assert!(rt;
        volume.host == b"usr".as_slice() && volume.disk == 3 && volume.blocks == 4294967296
    );
    let words = words_of(
        alloc,
        "soak --each 5 --reclaim beside 2147483647 --workers=64",
    )?;
    let Ok(Command::Soak(asked, options)) = command_of(alloc, &words) else {
        return Err(Fail::from("no trace"));
    };
    assert!(rt; asked.seed == 5 && asked.lines == 2147483647);
    assert!(rt; options.workers == 64 && options.each && matches!(&options.reclaim, Mode::Beside));
    let words = words_of(alloc, "format usr0")?;
    let Ok(Command::FormatMissing(name)) = command_of(alloc, &words) else {
        return Err(Fail::from("no name"));
    };
    assert!(rt; name.volume == "usr0");
    let words = words_of(alloc, "replay")?;
    let Ok(Command::Replay(options)) = command_of(alloc, &words) else {
        return Err(Fail::from("no options"));
    };
    assert!(rt; options.workers == 1 && !options.each && matches!(&options.reclaim, Mode::Between));
    Ok(())
}

#[test]
fn options_of_policies_and_of_waiting_are_read(rt: HostRuntime) -> Result<(), Fail> {
    let alloc = rt.alloc();
    let words = words_of(alloc, "whatif --volumes --timeout=86400000")?;
    let Ok(Command::WhatIf(options)) = command_of(alloc, &words) else {
        return Err(Fail::from("no policies"));
    };
    assert!(rt; options.volumes && !options.long && options.timeout_ms == Some(86_400_000));
    let words = words_of(alloc, "whatif --long")?;
    let Ok(Command::WhatIf(options)) = command_of(alloc, &words) else {
        return Err(Fail::from("no policies"));
    };
    assert!(rt; !options.volumes && options.long && options.timeout_ms == None);
    let words = words_of(alloc, "serve --wait 0 -- --wait")?;
    let Ok(Command::Serve(served, patience)) = command_of(alloc, &words) else {
        return Err(Fail::from("no volume"));
    };
    assert!(rt; served.volume == "--wait" && patience.seconds == 0);
    let words = words_of(alloc, "serve usr0")?;
    let Ok(Command::Serve(served, patience)) = command_of(alloc, &words) else {
        return Err(Fail::from("no volume"));
    };
    assert!(rt; served.volume == "usr0" && patience.seconds == 10);
    let words = words_of(alloc, "view-add -- -a -b")?;
    let Ok(Command::ViewAdd(names)) = command_of(alloc, &words) else {
        return Err(Fail::from("no view"));
    };
    assert!(rt; names.volume == "-a" && names.logger == "-b");
    Ok(())
}

#[test]
fn other_words_are_refused(rt: HostRuntime) -> Result<(), Fail> {
    let alloc = rt.alloc();
    let lines = [
        "",
        "spin",
        "help",
        "--help",
        "format now then",
        "replay --version",
        "replay --each --each",
        "replay --workers 65",
        "replay --workers 0",
        "replay --workers=08",
        "replay --reclaim never",
        "gen 1",
        "gen +1 2",
        "solo -x 0 1",
        "solo usr 0 0",
        "whatif --timeout 0",
        "whatif --timeout 86400001",
        "whatif --timeout=01",
        "whatif --long --long",
        "whatif trace.csv",
        "serve",
        "serve -x",
        "serve usr0 --wait 3601",
        "serve --wait=-1 usr0",
        "nbd usr0 --wait 1",
    ];
    for line in lines {
        assert!(rt; is_refused(alloc, line)?);
    }
    Ok(())
}
