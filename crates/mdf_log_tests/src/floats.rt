//! The bits of floats, as Python's `struct` packs them.
use script_line::Width::{Double, Single};
use script_line::{Width, float_bits};

static FLOATS: [(Width, &str, Option<u64>); 27] = [
    (Single, "1.5", Some(0x3fc0_0000)),
    (Single, "2", Some(0x4000_0000)),
    (Single, "-2e3", Some(0xc4fa_0000)),
    (Single, "0.1", Some(0x3dcc_cccd)),
    (Single, "-0", Some(0x8000_0000)),
    (Single, "16777217", Some(0x4b80_0000)),
    (Single, "3.4028235e38", Some(0x7f7f_ffff)),
    (Single, "1e-45", Some(1)),
    (Single, "1e39", None),
    (Single, "x0000c03f", Some(0x3fc0_0000)),
    (Single, "x0000c07f", Some(0x7fc0_0000)),
    (Single, "x0000C03F", None),
    (Single, "x000000000000f83f", None),
    (Double, "1.5", Some(0x3ff8_0000_0000_0000)),
    (Double, "-2e3", Some(0xc09f_4000_0000_0000)),
    (Double, "0.1", Some(0x3fb9_9999_9999_999a)),
    (Double, "9007199254740993.0", Some(0x4340_0000_0000_0000)),
    (
        Double,
        "1.7976931348623157e308",
        Some(0x7fef_ffff_ffff_ffff),
    ),
    (Double, "5e-324", Some(1)),
    (Double, "1e309", None),
    (Double, "x9a9999999999b9bf", Some(0xbfb9_9999_9999_999a)),
    (Double, "x000000000000f07f", Some(0x7ff0_0000_0000_0000)),
    (Double, "nan", None),
    (Double, "-inf", None),
    (Double, "", None),
    (Double, "x", None),
    (Double, "1,5", None),
];

#[test]
fn words_are_floats(rt: HostRuntime) {
    for (width, word, bits) in FLOATS.iter() {
        assert_eq!(rt; float_bits(*width, word.as_bytes()), *bits, "at {word}");
    }
}
