// The line of a record, which was worked out by hand from the formats.
use inspection::{append_record, mask_digits};
use redirect_map::Rec;
use std::test::Fail;

// Of blocks 1 to 4 the first and the last are live, and the first is home.
#[test]
fn tells_a_record(rt: HostRuntime) -> Result<(), Fail> {
    let record = Rec {
        version: 1,
        lbn: 1,
        count: 4,
        keep: 15,
        lane: 0,
        segment: 2,
        pos: 6,
    };
    let mut out = Vec::new(rt.alloc());
    append_record(&record, b"web0", &mask_digits(9), &mask_digits(1), &mut out)?;
    assert_eq!(rt;
        out.as_slice(),
        b"record 1 1 4 on web0 segment 2 block 6 live 00000000000000000000000000000009 home 00000000000000000000000000000001\n".as_slice()
    );
    Ok(())
}
