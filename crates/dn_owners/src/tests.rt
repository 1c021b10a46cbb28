use crate::{Pending, last_counting};
use std::test::Fail;

fn sealed(key: u64, offset: u64) -> Pending {
    Pending { key, offset }
}

#[test]
fn records_that_count(rt: HostRuntime) -> Result<(), Fail> {
    // The lane sealed key 5 twice, lost its slot, got it back at length 9 and sealed two keys; then it lost it again,
    // got it back at length 15 and sealed key 5.
    let first = [sealed(5, 0), sealed(100, 3), sealed(5, 6)];
    let back = [sealed(5, 0), sealed(100, 3), sealed(5, 6), sealed(100, 9)];
    let again = [
        sealed(5, 0),
        sealed(100, 3),
        sealed(5, 6),
        sealed(100, 9),
        sealed(152, 12),
        sealed(5, 15),
    ];
    for (pending, key, learnt_at, want) in [
        (first.as_slice(), 5, 0, Some(sealed(5, 6))),
        (first.as_slice(), 100, 0, Some(sealed(100, 3))),
        (first.as_slice(), 152, 0, None),
        (back.as_slice(), 5, 9, None),
        (back.as_slice(), 100, 9, Some(sealed(100, 9))),
        (back.as_slice(), 5, 6, Some(sealed(5, 6))),
        (again.as_slice(), 5, 15, Some(sealed(5, 15))),
        (again.as_slice(), 100, 15, None),
    ] {
        let got = last_counting(pending, key, learnt_at);
        assert_eq!(rt; got, want, "key {key} from {learnt_at}");
    }
    Ok(())
}
