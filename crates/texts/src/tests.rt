// Texts and the packs or errors that they give, and packs and their texts.
use crate::error::{Expected, TextError};
use crate::pack::pack_text;
use crate::unpack::unpack_text;
use drawings::drawing::DrawError;
use lines::fault::{Cause, Fault, Layer};
use std::alloc::Global;
use std::process::Abort;
use std::test::Fail;

// The job of the worked pack, as text and byte by byte.
const FIVE: &str =
    "measure segment\nprice count\nlevel 1 1\nlevel 3 1\nvertex 0 0\nvertex 2 1\nvertex 4 0\nvertex 6 3\nvertex 8 0\n";

static PACK: [u8; 56] = [
    2, 0, 0, 0, 1, 0, 1, 1, 20, 0, 0, 0, 2, 0, 0, 0, 0, 0, 2, 0, 1, 0, 4, 0, 0, 0, 6, 0, 3, 0, 8,
    0, 0, 0, 16, 0, 0, 0, 3, 0, 1, 0, 0, 0, 1, 0, 0, 0, 3, 0, 0, 0, 1, 0, 0, 0,
];

// The chains 0 2 3 4 and 0 4 and the total (4, 0) behind it.
static CHAINS: [u8; 42] = [
    8, 0, 0, 0, 4, 0, 0, 0, 2, 0, 3, 0, 4, 0, 4, 0, 0, 0, 4, 0, 0, 0, 4, 0, 12, 0, 0, 0, 5, 0, 4,
    0, 0, 0, 0, 0, 0, 0, 0, 0, 0, 0,
];

// The text is packed as the worked job.
fn is_five(rt: &impl Abort, heap: Global, text: &str) -> Result<(), Fail> {
    let pack = pack_text(heap, text.as_bytes())?;
    assert_eq!(rt; pack.as_slice(), PACK.as_slice());
    Ok(())
}

// The text is not packed: this line is at fault.
fn is_refused(rt: &impl Abort, heap: Global, text: &str, line: usize, expected: Expected) {
    match pack_text(heap, text.as_bytes()) {
        Ok(_) => panic!(rt; "{text}"),
        Err(error) => assert_eq!(rt; error, TextError::Line(line, expected)),
    }
}

#[test]
fn the_worked_job(rt: HostRuntime) -> Result<(), Fail> {
    is_five(&rt, rt.alloc(), FIVE)
}

#[test]
fn lines_in_any_order(rt: HostRuntime) -> Result<(), Fail> {
    is_five(
        &rt,
        rt.alloc(),
        "vertex 0 0\nlevel 1 1\nvertex 2 1\n\tvertex  4\t0 \r\n\n# a comment\n  #another\nprice count\nlevel 03 001\nvertex 6 3\nmeasure segment\nvertex 08 -0",
    )
}

#[test]
fn vertices_in_one_line(rt: HostRuntime) -> Result<(), Fail> {
    for vertices in [
        "LINESTRING (0 0, 2 1, 4 0, 6 3, 8 0)",
        "LINESTRING(0 0,2 1,4 0,6 3,8 0)",
        "\t LINESTRING\t( 0\t0 , 2 1,4 0,6  3 , 8 0 ) \r",
        "vertex 0 0\nLINESTRING (2 1, 4 0)\nvertex 6 3\nLINESTRING (8 0)",
    ] {
        let text = format!(in rt.alloc();
            "measure segment\n{vertices}\nprice count\nlevel 1 1\nlevel 3 1\n"
        )?;
        is_five(&rt, rt.alloc(), &text)?;
    }
    Ok(())
}

#[test]
fn lines_of_no_known_form(rt: HostRuntime) {
    let heap = rt.alloc();
    for text in [
        "vertices 0 0",
        "Measure segment",
        "linestring (0 0)",
        "LINE (0 0)",
        "7",
        "(0 0)",
        "measure# area",
    ] {
        is_refused(&rt, heap, text, 1, Expected::Form);
    }
}

#[test]
fn wrong_measures_and_prices(rt: HostRuntime) {
    let heap = rt.alloc();
    for text in [
        "measure",
        "measure 1",
        "measure Segment",
        "measure segment strip",
    ] {
        is_refused(&rt, heap, text, 1, Expected::MeasureName);
    }
    for text in [
        "\nprice",
        "\nprice area",
        "\nprice count area",
        "\nprice count-areas",
    ] {
        is_refused(&rt, heap, text, 2, Expected::PriceName);
    }
    is_refused(
        &rt,
        heap,
        "measure area\n\nmeasure area\nx",
        3,
        Expected::OneMeasure,
    );
    is_refused(
        &rt,
        heap,
        "price count\nprice count-area",
        2,
        Expected::OnePrice,
    );
}

#[test]
fn wrong_levels(rt: HostRuntime) {
    let heap = rt.alloc();
    for text in [
        "level",
        "level 1",
        "level 1 1 1",
        "level 1.5 1",
        "level -1 1",
        "level +1 1",
        "level 1e3 1",
        "level 4294967296 1",
    ] {
        is_refused(&rt, heap, text, 1, Expected::LevelNumbers);
    }
    for text in ["level 1 0", "level 1 1001", "level 1 4294967295"] {
        is_refused(&rt, heap, text, 1, Expected::WeightInRange);
    }
    for text in [
        "level 5 1\nlevel 5 1000",
        "level 5 1\nlevel 4 1",
        "level 0 1\nlevel 0 1",
    ] {
        is_refused(&rt, heap, text, 2, Expected::RisingTolerance);
    }
}

#[test]
fn wrong_vertices(rt: HostRuntime) {
    let heap = rt.alloc();
    for text in [
        "vertex",
        "vertex 1",
        "vertex 1 2 3",
        "vertex 1.5 0",
        "vertex 1,2",
        "vertex +1 0",
        "vertex 0 16384",
        "vertex -16385 0",
        "vertex 70000 0",
    ] {
        is_refused(&rt, heap, text, 1, Expected::VertexNumbers);
    }
    for text in [
        "LINESTRING",
        "LINESTRING ()",
        "LINESTRING EMPTY",
        "LINESTRING Z (0 0)",
        "LINESTRINGS (0 0)",
        "LINESTRING (0 0",
        "LINESTRING 0 0)",
        "LINESTRING (0 0,)",
        "LINESTRING (0 0 0, 1 1)",
        "LINESTRING (0, 1)",
        "LINESTRING (0 0), (1 1)",
        "LINESTRING ((0 0, 1 1))",
        "LINESTRING (0 0) x",
        "x LINESTRING (0 0)",
        "LINESTRING (0.5 0)",
        "LINESTRING (0 16384)",
    ] {
        let expected = if text.starts_with("x") {
            Expected::Form
        } else {
            Expected::LineString
        };
        is_refused(&rt, heap, text, 1, expected);
    }
}

#[test]
fn what_lines_lack_in_all(rt: HostRuntime) {
    let heap = rt.alloc();
    is_refused(&rt, heap, "", 1, Expected::SomeMeasure);
    is_refused(&rt, heap, "# nothing\n\n", 3, Expected::SomeMeasure);
    is_refused(
        &rt,
        heap,
        "price count\nlevel 40000 1",
        3,
        Expected::SomeMeasure,
    );
    is_refused(&rt, heap, "measure area\n", 2, Expected::SomePrice);
    is_refused(
        &rt,
        heap,
        "measure area\nprice count",
        3,
        Expected::SomeLevel,
    );
    is_refused(
        &rt,
        heap,
        "measure area\nprice count\nlevel 0 1\nvertex 0 0\n",
        5,
        Expected::TwoVertices,
    );
}

#[test]
fn tolerances_up_to_the_largest(rt: HostRuntime) -> Result<(), Fail> {
    let heap = rt.alloc();
    let rest = "price count-area\nvertex -16384 16383\nvertex 16383 -16384\n";
    for (measure, tolerance) in [
        ("segment", 32_768),
        ("strip", 32_768),
        ("area", 32_769),
        ("area", 2_147_483_647),
    ] {
        let text = format!(in heap;
            "level 7 1\nlevel {tolerance} 1000\n{rest}measure {measure}\n"
        )?;
        pack_text(heap, text.as_bytes())?;
    }
    for (measure, tolerance, largest) in [
        ("segment", 32_769u32, 32_768),
        ("strip", 32_769, 32_768),
        ("area", 2_147_483_648, 2_147_483_647),
    ] {
        let text = format!(in heap;
            "level 7 1\nlevel {tolerance} 1\nlevel 3000000000 1\nmeasure {measure}"
        )?;
        is_refused(&rt, heap, &text, 2, Expected::ToleranceUpTo(largest));
    }
    Ok(())
}

// A text of so many levels and so many vertices, after two lines.
fn sized(heap: Global, levels: usize, vertices: usize) -> Result<String, Fail> {
    let mut text = String::new(heap);
    writeln!(text, "measure strip\nprice count")?;
    for i in 0..levels {
        writeln!(text, "level {i} 1")?;
    }
    for i in 0..vertices {
        writeln!(text, "vertex {i} 0")?;
    }
    Ok(text)
}

#[test]
fn as_many_as_may_be(rt: HostRuntime) -> Result<(), Fail> {
    let heap = rt.alloc();
    let pack = pack_text(heap, sized(heap, 8, 256)?.as_bytes())?;
    assert_eq!(&rt; pack.len(), 20 + 4 * 256 + 8 * 8);
    is_refused(&rt, heap, &sized(heap, 9, 256)?, 11, Expected::FewLevels);
    is_refused(&rt, heap, &sized(heap, 8, 257)?, 267, Expected::FewVertices);
    let mut text = sized(heap, 1, 254)?;
    text.push_str("LINESTRING (0 0, 1 1)\n")?;
    pack_text(heap, text.as_bytes())?;
    text.push_str("# full\nLINESTRING (0 0)\n")?;
    is_refused(&rt, heap, &text, 260, Expected::FewVertices);
    Ok(())
}

#[test]
fn lines_of_errors(rt: HostRuntime) -> Result<(), Fail> {
    let error = TextError::Line(12, Expected::ToleranceUpTo(32_768));
    assert_eq!(&rt;
        error.to_string(rt.alloc())?.as_str(),
        "line 12: expected a tolerance of at most 32768"
    );
    assert_eq!(&rt;
        TextError::OutOfMemory.to_string(rt.alloc())?.as_str(),
        "out of memory"
    );
    Ok(())
}

#[test]
fn the_text_of_the_worked_job(rt: HostRuntime) -> Result<(), Fail> {
    let text = unpack_text(rt.alloc(), &PACK)?;
    assert_eq!(&rt; text.as_str(), FIVE);
    Ok(())
}

#[test]
fn the_text_of_the_worked_family(rt: HostRuntime) -> Result<(), Fail> {
    let heap = rt.alloc();
    let mut pack = PACK.to_vec(heap)?;
    pack.extend_from_slice(&CHAINS)?;
    let text = unpack_text(heap, &pack)?;
    let expected = format!(in heap;
        "{FIVE}# level 1 links 3: 0 2 3 4\n# level 2 links 1: 0 4\n# total 4 0\n"
    )?;
    assert_eq!(&rt; text.as_str(), expected.as_str());
    is_five(&rt, heap, &text)
}

// The pack is not told as text, for this fault.
fn is_no_pack(rt: &impl Abort, heap: Global, pack: &[u8], fault: Fault) {
    match unpack_text(heap, pack) {
        Err(DrawError::Refused(found)) => assert_eq!(rt; found, fault),
        _ => panic!(rt; "a fault was expected"),
    }
}

#[test]
fn packs_that_are_refused(rt: HostRuntime) -> Result<(), Fail> {
    let heap = rt.alloc();
    is_no_pack(
        &rt,
        heap,
        &PACK[..55],
        Fault::new(Cause::RunsOut, Layer::Pack, 34),
    );
    let mut pack = PACK.to_vec(heap)?;
    pack.extend_from_slice(&CHAINS[..41])?;
    is_no_pack(
        &rt,
        heap,
        &pack,
        Fault::new(Cause::RunsOut, Layer::Pack, 24),
    );
    Ok(())
}
