use crate::count::Count;
use crate::count_then_area::CountThenArea;
use crate::price::Price;
use lines::line::Line;
use lines::vertex::Vertex;
use std::test::Fail;

static VERTICES: [Vertex; 4] = [
    Vertex { x: 0, y: 0 },
    Vertex { x: 2, y: 1 },
    Vertex { x: 4, y: 3 },
    Vertex { x: 6, y: 0 },
];

static WEIGHTS: [u32; 5] = [0, 1, 1000, 1001, 4294967295];

static NO_LINKS: [(usize, usize); 4] = [(2, 2), (2, 1), (0, 4), (4, 5)];

fn counted(count: u32) -> Count {
    Count { count }
}

fn measured(count: u32, area: u64) -> CountThenArea {
    CountThenArea { count, area }
}

#[test]
fn joining_stops_at_the_ceilings(rt: HostRuntime) {
    assert_eq!(rt;
        counted(4294967293).join(counted(1)).form(),
        (4294967294, 0)
    );
    assert_eq!(rt;
        counted(4294967294).join(counted(1)).form(),
        (4294967295, 0)
    );
    assert_eq!(rt;
        counted(4294967294).join(counted(2)).form(),
        (4294967295, 0)
    );
    assert_eq!(rt;
        measured(1, 18446744073709551613)
            .join(measured(2, 1))
            .form(),
        (3, 18446744073709551614)
    );
    assert_eq!(rt;
        measured(1, 18446744073709551614)
            .join(measured(2, 1))
            .form(),
        (3, 18446744073709551615)
    );
    assert_eq!(rt;
        measured(1, 18446744073709551614)
            .join(measured(2, 2))
            .form(),
        (3, 18446744073709551615)
    );
    assert_eq!(rt;
        measured(4294967294, 3).join(measured(1, 4)).form(),
        (4294967295, 18446744073709551615)
    );
    assert_eq!(rt;
        measured(4294967294, 3).join(measured(2, 4)).form(),
        (4294967295, 18446744073709551615)
    );
}

#[test]
fn neutral_changes_nothing(rt: HostRuntime) {
    assert!(rt; counted(7).join(Count::neutral()).equals(counted(7)));
    assert!(rt;
        measured(7, 9)
            .join(CountThenArea::neutral())
            .equals(measured(7, 9))
    );
}

#[test]
fn a_count_at_its_ceiling_is_one_price(rt: HostRuntime) {
    let low = measured(4294967295, 0);
    let high = measured(4294967295, 7);
    assert!(rt; low.equals(high));
    assert!(rt; low.not_dearer(high) && high.not_dearer(low));
    assert_eq!(rt; low.form(), (4294967295, 18446744073709551615));
    assert_eq!(rt; high.form(), (4294967295, 18446744073709551615));
    assert!(rt; !measured(4294967294, 0).equals(measured(4294967294, 7)));
}

#[test]
fn the_count_is_compared_first(rt: HostRuntime) {
    assert!(rt; counted(1).not_dearer(counted(2)) && !counted(2).not_dearer(counted(1)));
    assert!(rt;
        measured(1, 9).not_dearer(measured(2, 3)) && !measured(2, 3).not_dearer(measured(1, 9))
    );
    assert!(rt;
        measured(2, 3).not_dearer(measured(2, 4)) && !measured(2, 4).not_dearer(measured(2, 3))
    );
    assert!(rt; measured(2, 3).not_dearer(measured(2, 3)));
    assert!(rt; !measured(1, 3).equals(measured(2, 3)) && !counted(1).equals(counted(2)));
}

#[test]
fn a_link_costs_its_weight_as_given_and_its_area(rt: HostRuntime) -> Result<(), Fail> {
    let mut line = Line::built_in();
    line.make(&VERTICES)?;
    for w in &WEIGHTS {
        assert_eq!(rt; Count::of_link(&line, 0, 2, *w).count, *w);
        let price = CountThenArea::of_link(&line, 0, 2, *w);
        assert_eq!(rt; price.count, *w);
        assert_eq!(rt; price.area, 2);
    }
    assert_eq!(rt; CountThenArea::of_link(&line, 1, 3, 5).form(), (5, 10));
    assert_eq!(rt; CountThenArea::of_link(&line, 2, 3, 5).form(), (5, 0));
    Ok(())
}

#[test]
fn a_pair_that_is_no_link_costs_neutral(rt: HostRuntime) -> Result<(), Fail> {
    let mut line = Line::built_in();
    line.make(&VERTICES)?;
    for pair in &NO_LINKS {
        assert_eq!(rt; Count::of_link(&line, pair.0, pair.1, 9).form(), (0, 0));
        assert_eq!(rt;
            CountThenArea::of_link(&line, pair.0, pair.1, 9).form(),
            (0, 0)
        );
    }
    Ok(())
}
