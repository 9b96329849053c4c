// The lines of a drawing, one at a time.
use crate::text::{level_line, total_line};
use std::test::Fail;

#[test]
fn lines_of_levels(rt: HostRuntime) -> Result<(), Fail> {
    let heap = rt.alloc();
    let cases: [(usize, &[usize], &str); 4] = [
        (1, &[0, 2, 3, 4], "level 1 links 3: 0 2 3 4"),
        (8, &[0, 255], "level 8 links 1: 0 255"),
        (2, &[7], "level 2 links 0: 7"),
        (0, &[], "level 0 links 0:"),
    ];
    for (k, chain, line) in cases {
        assert!(rt; level_line(heap, k, chain)?.as_str() == line, "level {k}");
    }
    Ok(())
}

#[test]
fn lines_of_totals(rt: HostRuntime) -> Result<(), Fail> {
    let heap = rt.alloc();
    let cases = [
        ((4, 0), "total 4 0"),
        ((0, 20), "total 0 20"),
        (
            (u32::MAX, u64::MAX),
            "total 4294967295 18446744073709551615",
        ),
    ];
    for (form, line) in cases {
        assert!(rt; total_line(heap, form)?.as_str() == line, "{line}");
    }
    Ok(())
}
