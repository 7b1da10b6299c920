// The first lines of a seed, as they are written.
use fixtures::{THREE, generated_text, same, same_text};
use std::test::Fail;
use trace_gen::Gen;
use wol_config::read_config;

#[test]
fn first_line_of_seed_0(rt: HostRuntime) -> Result<(), Fail> {
    let config = read_config(rt.alloc(), THREE.as_bytes())?;
    let text = generated_text(rt.alloc(), &config, 0, 1)?;
    same_text(&text, b"128166372000147231,web,0,Write,227328,6144,1000\n")
}

// The sixth line comes whole seconds after the fifth.
#[test]
fn six_lines_of_seed_0(rt: HostRuntime) -> Result<(), Fail> {
    let config = read_config(rt.alloc(), THREE.as_bytes())?;
    let text = generated_text(rt.alloc(), &config, 0, 6)?;
    let expected = b"128166372000147231,web,0,Write,227328,6144,1000
128166372000166413,usr,0,Write,153088,3584,1000
128166372000691708,web,0,Read,220672,5120,1000
128166372000881953,web,0,Write,47104,6656,1000
128166372001316401,usr,0,Read,337920,5120,1000
128166372811316401,src,0,Write,39936,1536,1000
";
    same_text(&text, expected)
}

#[test]
fn another_seed(rt: HostRuntime) -> Result<(), Fail> {
    let config = read_config(rt.alloc(), THREE.as_bytes())?;
    let mut generator = Gen::new(7);
    let line = generator.next(rt.alloc(), &config)?;
    same(&line.time, &128_166_372_000_184_737)?;
    same(&(generator.seed(), generator.given()), &(7, 1))?;
    Ok(())
}
