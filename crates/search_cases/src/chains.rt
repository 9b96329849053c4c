// Reading chains off small stays.
use search::chain::{next_on_chain, read_chain};
use std::test::Fail;

// Level 1 is 0 2 3, level 2 is 0 3.
static STAYS: [u8; 4] = [2, 0, 1, 2];

#[test]
fn the_next_on_a_chain(rt: HostRuntime) {
    let cases = [
        (1, 0, Some(2)),
        (1, 1, Some(2)),
        (1, 2, Some(3)),
        (2, 0, Some(3)),
        (0, 0, Some(1)),
        // no vertex of the chain is above
        (1, 3, None),
        (2, 3, None),
        // past the end
        (1, 4, None),
        (0, usize::MAX, None),
        // a level above all stays
        (3, 0, None),
    ];
    for (k, v, next) in cases {
        assert_eq!(rt; next_on_chain(&STAYS, k, v), next, "level {k} from {v}");
    }
    assert_eq!(rt; next_on_chain(&[], 0, 0), None);
}

#[test]
fn whole_chains(rt: HostRuntime) -> Result<(), Fail> {
    let heap = rt.alloc();
    let chains: [&[usize]; 4] = [&[0, 1, 2, 3], &[0, 2, 3], &[0, 3], &[]];
    for (k, chain) in chains.iter().enumerate() {
        assert!(rt;
            read_chain(heap, &STAYS, k)?.as_slice() == *chain,
            "level {k}"
        );
    }
    assert!(rt; read_chain(heap, &[], 0)?.is_empty());
    Ok(())
}
