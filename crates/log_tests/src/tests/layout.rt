// Blocks that were written down by hand, read and written.
ghost use Rattle.std.specs.Prelude.{◌≤◌, length};

use log_layout::{
    Label, RecHead, SegHead, View, is_gate, read_label, read_rec, read_seg, read_view, write_gate,
    write_label, write_rec, write_seg, write_view,
};
use wol_disk::Block;

/// A label of 1,000 blocks and four segments.
pub const LABEL: Label = Label {
    id: 0,
    home: 1_000,
    segments: 4,
    segment_blocks: 16,
};

/// These bytes, and zeros behind them.
pub fn block(front: &[u8]) -> Block
    requires { length front.now ≤ 512 }
{
    let mut b = [0; 512];
    b[..front.len()].copy_from_slice(front);
    b
}

#[test]
fn reads_and_writes_a_label(rt: HostRuntime) {
    let b = block(b"WOLVOL01\0\0\0\0\xe8\x03\0\0\0\0\0\0\x04\0\0\0\x10\0\0\0");
    assert!(rt; read_label(&b) == Some(LABEL));
    let mut written = [0xff; 512];
    write_label(&LABEL, &mut written);
    assert!(rt; written == b);
    assert!(rt;
        read_label(&block(b"WOLVOL01\0\0\0\0\xe8\x03\0\0\0\0\0\0\x04\0\0\0\x03\0\0\0")) == None,
        "segments of 3"
    );
}

#[test]
fn reads_and_writes_a_view(rt: HostRuntime) {
    let b = block(b"WOLVIEW1\x02\0\0\0\x01\0\0\0\0\0\0\0");
    let view = read_view(&b).expect(&rt, "a view");
    assert!(rt; view.ids() == [1, 0].as_slice());
    assert!(rt; view.len() == 2);
    assert!(rt; !view.is_empty());
    let mut written = [0xff; 512];
    write_view(&view, &mut written);
    assert!(rt; written == b);
    assert!(rt;
        read_view(&block(b"WOLVIEW1\x02\0\0\0\x01\0\0\0\x01\0\0\0")).is_none(),
        "one id twice"
    );
}

#[test]
fn makes_views_of_distinct_ids(rt: HostRuntime) {
    let sixteen: [u32; 16] = [0, 1, 2, 3, 4, 5, 6, 7, 8, 9, 10, 11, 12, 13, 14, 15];
    let view = View::new(&sixteen).expect(&rt, "sixteen ids");
    assert!(rt; view.len() == 16);
    assert!(rt; View::new(&[7, 8, 7]).is_none());
    assert!(rt; View::new(&[0; 17]).is_none());
}

#[test]
fn reads_and_writes_segment_heads(rt: HostRuntime) {
    for (head, front) in [
        (SegHead::Free, b"WOLSEGF1\0\0\0\0"),
        (SegHead::Owned(2), b"WOLSEGO1\x02\0\0\0"),
    ] {
        let b = block(front);
        assert!(rt; read_seg(&b) == Some(head));
        let mut written = [0xff; 512];
        write_seg(&head, &mut written);
        assert!(rt; written == b);
    }
    let mut late = block(b"WOLSEGF1");
    late[511] = 1;
    assert!(rt; read_seg(&late) == None, "a byte behind the head");
}

#[test]
fn reads_and_writes_both_forms_of_a_record_head(rt: HostRuntime) {
    let older = RecHead {
        form: 1,
        keep: 0b1111,
        owner: 0,
        version: 1,
        lbn: 1,
        count: 4,
    };
    let b = block(b"WOLREC01\x01\0\0\0\0\0\0\0\x01\0\0\0\0\0\0\0\x01\0\0\0\0\0\0\0\x04\0\0\0");
    assert!(rt; read_rec(&b) == Some(older));
    let mut written = [0xff; 512];
    write_rec(&older, &mut written);
    assert!(rt; written == b);

    let newer = RecHead { form: 2, ..older };
    let b = block(
        b"WOLREC02\0\0\0\0\0\0\0\0\x01\0\0\0\0\0\0\0\x01\0\0\0\0\0\0\0\x04\0\0\0\x0f\0\0\0",
    );
    assert!(rt; read_rec(&b) == Some(newer));
    write_rec(&newer, &mut written);
    assert!(rt; written == b);
}

#[test]
fn refuses_a_kept_block_that_the_record_does_not_have(rt: HostRuntime) {
    let b = block(
        b"WOLREC02\0\0\0\0\0\0\0\0\x01\0\0\0\0\0\0\0\x01\0\0\0\0\0\0\0\x04\0\0\0\x10\0\0\0",
    );
    assert!(rt; read_rec(&b) == None);
    let invalid = block(
        b"WOLREC01\x02\0\0\0\0\0\0\0\x01\0\0\0\0\0\0\0\x01\0\0\0\0\0\0\0\x04\0\0\0",
    );
    assert!(rt; read_rec(&invalid).map(|head| head.keep) == Some(0));
}

#[test]
fn a_gate_is_all_zeros(rt: HostRuntime) {
    let mut b = [1; 512];
    assert!(rt; !is_gate(&b));
    write_gate(&mut b);
    assert!(rt; is_gate(&b));
    assert!(rt; b == [0; 512]);
}
