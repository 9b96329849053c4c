// The line of every refusal.
use lines::fault::{Cause, Fault, Layer};
use marker::verdict::{refusal_line, verdict_line};
use std::alloc::Global;
use std::process::Abort;
use std::test::Fail;

// The line of a fault with a spot. It is a literal, for `Fault::new` gives spot 0.
fn check_line(
    rt: &impl Abort,
    heap: Global,
    cause: Cause,
    layer: Layer,
    text: &str,
) -> Result<(), Fail> {
    let fault = Fault {
        cause,
        layer,
        place: 18446744073709551615,
        spot: 40,
    };
    let line = refusal_line(heap, fault)?;
    assert!(rt; line.as_str() == text);
    Ok(())
}

#[test]
fn first_ten(rt: HostRuntime) -> Result<(), Fail> {
    let heap = rt.alloc();
    let lines = [
        (
            Cause::RunsOut,
            Layer::Pack,
            "refused 1 layer 1 place 18446744073709551615 spot 40",
        ),
        (
            Cause::WrongKind,
            Layer::Pack,
            "refused 2 layer 1 place 18446744073709551615 spot 40",
        ),
        (
            Cause::WrongLength,
            Layer::Pack,
            "refused 3 layer 1 place 18446744073709551615 spot 40",
        ),
        (
            Cause::LeftOver,
            Layer::Pack,
            "refused 4 layer 1 place 18446744073709551615 spot 40",
        ),
        (
            Cause::Coordinate,
            Layer::Content,
            "refused 5 layer 2 place 18446744073709551615 spot 40",
        ),
        (
            Cause::Tolerance,
            Layer::Content,
            "refused 6 layer 2 place 18446744073709551615 spot 40",
        ),
        (
            Cause::Weight,
            Layer::Content,
            "refused 7 layer 2 place 18446744073709551615 spot 40",
        ),
        (
            Cause::Unknown,
            Layer::Content,
            "refused 8 layer 2 place 18446744073709551615 spot 40",
        ),
        (
            Cause::Order,
            Layer::Marker,
            "refused 9 layer 3 place 18446744073709551615 spot 40",
        ),
        (
            Cause::Nesting,
            Layer::Marker,
            "refused 10 layer 3 place 18446744073709551615 spot 40",
        ),
    ];
    for (cause, layer, text) in lines {
        check_line(&rt, heap, cause, layer, text)?;
    }
    Ok(())
}

#[test]
fn last_ten(rt: HostRuntime) -> Result<(), Fail> {
    let heap = rt.alloc();
    let lines = [
        (
            Cause::Link,
            Layer::Marker,
            "refused 11 layer 3 place 18446744073709551615 spot 40",
        ),
        (
            Cause::Total,
            Layer::Marker,
            "refused 12 layer 3 place 18446744073709551615 spot 40",
        ),
        (
            Cause::Vertex,
            Layer::Sheet,
            "refused 13 layer 4 place 18446744073709551615 spot 40",
        ),
        (
            Cause::Pinned,
            Layer::Sheet,
            "refused 14 layer 4 place 18446744073709551615 spot 40",
        ),
        (
            Cause::NotPinned,
            Layer::Sheet,
            "refused 15 layer 4 place 18446744073709551615 spot 40",
        ),
        (
            Cause::Full,
            Layer::Sheet,
            "refused 16 layer 4 place 18446744073709551615 spot 40",
        ),
        (
            Cause::OtherCount,
            Layer::Sheet,
            "refused 17 layer 4 place 18446744073709551615 spot 40",
        ),
        (
            Cause::Memory,
            Layer::Sheet,
            "refused 18 layer 4 place 18446744073709551615 spot 40",
        ),
        (
            Cause::Level,
            Layer::Sheet,
            "refused 19 layer 4 place 18446744073709551615 spot 40",
        ),
        (
            Cause::Limits,
            Layer::Sheet,
            "refused 20 layer 4 place 18446744073709551615 spot 40",
        ),
    ];
    for (cause, layer, text) in lines {
        check_line(&rt, heap, cause, layer, text)?;
    }
    Ok(())
}

#[test]
fn valid_form(rt: HostRuntime) -> Result<(), Fail> {
    let heap = rt.alloc();
    let line = verdict_line(heap, Ok((4294967295, 18446744073709551615)))?;
    assert!(rt; line.as_str() == "valid 4294967295 18446744073709551615");
    let line = verdict_line(heap, Ok((0, 0)))?;
    assert!(rt; line.as_str() == "valid 0 0");
    Ok(())
}
