// Options and their errors, pictures of the worked family, and what has none.
use crate::options::{OptionError, Options, read_options};
use crate::show::{ShowError, family_pack, show_pack};
use lines::fault::{Cause, Fault, Layer};
use std::alloc::Global;
use std::process::Abort;
use std::test::Fail;

// The family pack of the worked job, of which the first 56 bytes are the job pack.
static FAMILY: [u8; 98] = [
    2, 0, 0, 0, 1, 0, 1, 1, 20, 0, 0, 0, 2, 0, 0, 0, 0, 0, 2, 0, 1, 0, 4, 0, 0, 0, 6, 0, 3, 0, 8,
    0, 0, 0, 16, 0, 0, 0, 3, 0, 1, 0, 0, 0, 1, 0, 0, 0, 3, 0, 0, 0, 1, 0, 0, 0, 8, 0, 0, 0, 4, 0,
    0, 0, 2, 0, 3, 0, 4, 0, 4, 0, 0, 0, 4, 0, 0, 0, 4, 0, 12, 0, 0, 0, 5, 0, 4, 0, 0, 0, 0, 0, 0,
    0, 0, 0, 0, 0,
];

// The text of the worked job.
const TEXT: &str = "measure segment
price count
level 1 1
level 3 1
LINESTRING (0 0, 2 1, 4 0, 6 3, 8 0)
";

const ALL: Options = Options {
    level: None,
    pixels: 1000,
    bands: false,
};

// What the words of a line give as options.
fn reads(heap: Global, line: &str) -> Result<Result<Options, OptionError>, Fail> {
    let mut words = Vec::new(heap);
    for word in line.split_whitespace() {
        words.push(String::from_str(heap, word)?)?;
    }
    Ok(read_options(words.as_slice()))
}

#[test]
fn options(rt: HostRuntime) -> Result<(), Fail> {
    for (line, level, pixels, bands) in [
        ("", None, 1000, false),
        ("--level 2", Some(2), 1000, false),
        ("--level 0", Some(0), 1000, false),
        ("--level 4294967295", Some(4_294_967_295), 1000, false),
        ("--width 1", None, 1, false),
        ("--width 65535", None, 65_535, false),
        ("--tolerance", None, 1000, true),
        ("--tolerance --width 400 --level 1", Some(1), 400, true),
        ("--level 1 --level 2", Some(2), 1000, false),
    ] {
        let options = Options {
            level,
            pixels,
            bands,
        };
        assert_eq!(&rt; reads(rt.alloc(), line)?, Ok(options));
    }
    Ok(())
}

#[test]
fn no_options(rt: HostRuntime) -> Result<(), Fail> {
    for (line, error) in [
        ("x", OptionError::Unknown),
        ("--levels 1", OptionError::Unknown),
        ("--leve 1", OptionError::Unknown),
        ("--level 1 2", OptionError::Unknown),
        ("--level", OptionError::Level),
        ("--level x", OptionError::Level),
        ("--level -1", OptionError::Level),
        ("--level 4294967296", OptionError::Level),
        ("--level --width 400", OptionError::Level),
        ("--width", OptionError::Width),
        ("--width 0", OptionError::Width),
        ("--width 65536", OptionError::Width),
        ("--tolerance --width x y", OptionError::Width),
    ] {
        assert_eq!(&rt; reads(rt.alloc(), line)?, Err(error));
    }
    Ok(())
}

// A picture is made of the worked family and has this text once.
fn has(rt: &impl Abort, heap: Global, options: Options, text: &str) -> Result<(), Fail> {
    let picture = show_pack(heap, &FAMILY, options)?;
    assert_eq!(rt; picture.matches(text).count(), 1);
    Ok(())
}

#[test]
fn all_levels_and_one(rt: HostRuntime) -> Result<(), Fail> {
    let heap = rt.alloc();
    let second = Options {
        level: Some(2),
        ..ALL
    };
    for options in [ALL, second] {
        has(&rt, heap, options, ">line of 5 vertices<")?;
        has(
            &rt,
            heap,
            options,
            ">level 2: tolerance 3, 1 links, weight 1<",
        )?;
        has(&rt, heap, options, ">total 4 0<")?;
    }
    has(&rt, heap, ALL, ">level 1: tolerance 1, 3 links, weight 1<")?;
    let alone = show_pack(heap, &FAMILY, second)?;
    assert!(&rt; !alone.contains("level 1"));
    Ok(())
}

// The worked family has no picture with these options.
fn has_none(rt: &impl Abort, heap: Global, options: Options, error: ShowError) {
    assert_eq!(rt; show_pack(heap, &FAMILY, options).err(), Some(error));
}

#[test]
fn levels_that_are_none(rt: HostRuntime) {
    for k in [0, 3, 8, 9, 256, 4_294_967_295] {
        let options = Options {
            level: Some(k),
            ..ALL
        };
        has_none(&rt, rt.alloc(), options, ShowError::NoLevel);
    }
}

#[test]
fn packs_that_are_refused(rt: HostRuntime) {
    let heap = rt.alloc();
    let refused = |cause, layer, place| Some(ShowError::Refused(Fault::new(cause, layer, place)));
    let none = show_pack(heap, &[], ALL).err();
    assert_eq!(&rt; none, refused(Cause::RunsOut, Layer::Pack, 0));
    // The places of a family count from the end of its job.
    let job = show_pack(heap, &FAMILY[..56], ALL).err();
    assert_eq!(&rt; job, refused(Cause::RunsOut, Layer::Pack, 0));
}

// Bands need the segment measure.
#[test]
fn bands(rt: HostRuntime) -> Result<(), Fail> {
    let heap = rt.alloc();
    let options = Options { bands: true, ..ALL };
    let strip = family_pack(
        heap,
        b"measure strip\nprice count\nlevel 1 1\nvertex 0 0\nvertex 1 0\n",
    )?;
    let none = show_pack(heap, strip.as_slice(), options).err();
    assert_eq!(&rt; none, Some(ShowError::NoBand));
    let plain = show_pack(heap, strip.as_slice(), ALL)?;
    assert!(&rt; !plain.contains("opacity"));
    let banded = show_pack(heap, &FAMILY, options)?;
    assert_eq!(&rt; banded.matches("opacity").count(), 2);
    Ok(())
}

#[test]
fn texts_jobs_and_families(rt: HostRuntime) -> Result<(), Fail> {
    let heap = rt.alloc();
    for bytes in [TEXT.as_bytes(), &FAMILY[..56], &FAMILY] {
        let pack = family_pack(heap, bytes)?;
        assert!(&rt; pack.as_slice() == FAMILY.as_slice());
    }
    for bytes in [b"".as_slice(), b"vertex 0 0\n", &FAMILY[..97]] {
        let pack = family_pack(heap, bytes)?;
        assert!(&rt; pack.as_slice() == bytes);
    }
    Ok(())
}

#[test]
fn lines_of_errors(rt: HostRuntime) -> Result<(), Fail> {
    let heap = rt.alloc();
    let fault = Fault::new(Cause::RunsOut, Layer::Pack, 3);
    for (error, line) in [
        (
            ShowError::Refused(fault),
            "refused 1 layer 1 place 3 spot 0",
        ),
        (ShowError::NoLevel, "--level: the family has no such level"),
        (ShowError::NoBand, "--tolerance: the measure is not segment"),
        (ShowError::OutOfMemory, "out of memory"),
    ] {
        assert_eq!(&rt; error.to_string(heap)?.as_str(), line);
    }
    for (error, line) in [
        (OptionError::Unknown, "unknown option"),
        (OptionError::Level, "--level K: a whole number is expected"),
        (
            OptionError::Width,
            "--width PX: a whole number from 1 to 65535 is expected",
        ),
    ] {
        assert_eq!(&rt; error.to_string(heap)?.as_str(), line);
    }
    Ok(())
}
