// What the tables answer outside their cells.
use prices::count::Count;
use prices::price::Price;
use tables::grade_table::GradeTable;
use tables::price_table::PriceTable;

// Three vertices and two levels, without the last cell. The places past a row would be cells of another row.
#[test]
fn no_such_price(rt: HostRuntime) {
    let mut cells = [Count { count: 77 }; 17];
    let mut table = PriceTable::over(&mut cells, 3);
    let pairs = [
        (0, 0, 1),
        (1, 3, 1),
        (1, 0, 3),
        (2, 2, 2),
        (3, 0, 1),
        (usize::MAX, 2, 2),
    ];
    for (k, i, j) in pairs {
        table.put(k, i, j, Count { count: 5 });
        assert_eq!(rt;
            table.get(k, i, j).form(),
            (0, 0),
            "level {k} from {i} to {j}"
        );
    }
    assert!(rt; cells.iter().all(|cell| cell.count == 77));
}

#[test]
fn a_price_reads_back(rt: HostRuntime) {
    let mut cells = [Count { count: 77 }; 18];
    let mut table = PriceTable::over(&mut cells, 3);
    table.put(2, 0, 1, Count { count: 5 });
    assert_eq!(rt; table.get(2, 0, 1).form(), (5, 0));
    for (k, i, j) in [(2, 0, 0), (2, 0, 2), (2, 1, 1), (1, 2, 1), (1, 0, 1)] {
        assert_eq!(rt;
            table.get(k, i, j).form(),
            (77, 0),
            "level {k} from {i} to {j}"
        );
    }
    for (y, cell) in cells.iter().enumerate() {
        assert_eq!(rt; cell.count, if y == 10 { 5 } else { 77 }, "cell {y}");
    }
}

#[test]
fn no_first_level(rt: HostRuntime) {
    // 0 → 1 has level 1, 1 → 2 level 2, and 0 → 2 the grade 3, which is no level; cells that belong to no link are 1.
    let mut cells = [1, 1, 3, 1, 1, 2, 1, 1, 1];
    let grades = GradeTable::over(&cells, 3, 2);
    let pairs = [
        (0, 1, Some(1)),
        (1, 2, Some(2)),
        (0, 2, None),
        (1, 1, None),
        (1, 0, None),
        (0, 3, None),
        (1, 3, None),
        (3, 4, None),
    ];
    for (i, j, level) in pairs {
        assert_eq!(rt; grades.first_level(i, j), level, "{i} to {j}");
    }
    let short = GradeTable::over(&cells[..5], 3, 2);
    assert_eq!(rt; short.first_level(0, 1), Some(1));
    assert_eq!(rt; short.first_level(1, 2), None);
    cells[1] = 0;
    assert_eq!(rt; GradeTable::over(&cells, 3, 2).first_level(0, 1), None);
}
