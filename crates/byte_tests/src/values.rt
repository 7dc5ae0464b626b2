//! Numbers and timestamps at their limits.

use crate::checks::same;
use fix_fields::{read_number, read_stamp, stamp_text};
use gate_io::LAST_MOMENT;

#[test]
fn numbers_at_their_limits(rt: HostRuntime) {
    let cases: [(&[u8], Option<u32>); 6] = [
        (b"4294967295", Some(4_294_967_295)),
        (b"4294967296", None),
        (b"00000000000000000007", Some(7)),
        (b"000000000000000000007", None),
        (b"", None),
        (b"+1", None),
    ];
    for (text, want) in cases {
        same(&rt, &read_number(text), &want);
    }
}

#[test]
fn timestamps_at_their_limits(rt: HostRuntime) {
    same(
        &rt,
        &stamp_text(0).as_slice(),
        &b"19700101-00:00:00.000".as_slice(),
    );
    same(
        &rt,
        &stamp_text(LAST_MOMENT).as_slice(),
        &b"99991231-23:59:59.999".as_slice(),
    );
    let cases: [(&[u8], Option<u64>); 10] = [
        (b"20260105-09:30:00.000", Some(1_767_605_400_000)),
        (b"20260105-09:30:00", Some(1_767_605_400_000)),
        (b"20000229-23:59:59.999", Some(951_868_799_999)),
        (b"20260229-00:00:00", None),
        (b"21000229-00:00:00", None),
        (b"20260105-09:30:60", None),
        (b"20261301-00:00:00", None),
        (b"20260100-00:00:00", None),
        (b"19691231-23:59:59.999", None),
        (b"20260105-09:30:00.0000", None),
    ];
    for (text, want) in cases {
        same(&rt, &read_stamp(text), &want);
    }
}
