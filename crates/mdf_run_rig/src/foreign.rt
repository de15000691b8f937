//! Files as other tools write them.

use crate::parts::{Part, put};
use mdf_num::Bytes;
use std::alloc::Global;
use std::test::Fail;

// A file of two data groups without record ids, each block behind the one before at the next multiple of 8. The group
// engine has a time (a float of 64 bits) and rpm (16 bits, with a comment and a linear conversion), and two records of 10
// bytes; the group gearbox has a time and gear (8 bits), and one record of 9 bytes. Of each block stand here the name, the
// length and the number of its links, its links that name something, and what of its body is not 0.
const ENGINE_AND_GEARBOX: &[Part] = &[
    (0, b"MDF     4.10    foreign "),
    (28, b"\x9A\x01"),
    // HD
    (64, b"##HD\0\0\0\0h\0\0\0\0\0\0\0\x06"),
    (88, b" \x01"),
    (96, b"\xA8"),
    // FH
    (168, b"##FH\0\0\0\08\0\0\0\0\0\0\0\x02"),
    (200, b"\xE0"),
    // MD
    (224, b"##MD\0\0\0\0="),
    (248, b"<FHcomment><TX>made</TX></FHcomment>"),
    // DG
    (288, b"##DG\0\0\0\0@\0\0\0\0\0\0\0\x04"),
    (312, b"x\x04"),
    (320, b"`\x01"),
    (328, b"H\x04"),
    // CG
    (352, b"##CG\0\0\0\0h\0\0\0\0\0\0\0\x06"),
    (384, b"\xE8\x01"),
    (392, b"\xC8\x01"),
    (432, b"\x02"),
    (448, b"\x0A"),
    // TX
    (456, b"##TX\0\0\0\0\x1F"),
    (480, b"engine"),
    // CN
    (488, b"##CN\0\0\0\0\xA0\0\0\0\0\0\0\0\x08"),
    (512, b"\xC8\x02"),
    (528, b"\x88\x02"),
    (560, b"\xA8\x02"),
    (576, b"\x02\x01\x04"),
    (584, b"@"),
    // TX
    (648, b"##TX\0\0\0\0\x1D"),
    (672, b"time"),
    // TX
    (680, b"##TX\0\0\0\0\x1A"),
    (704, b"s"),
    // CN
    (712, b"##CN\0\0\0\0\xA0\0\0\0\0\0\0\0\x08"),
    (752, b"h\x03"),
    (768, b"\x88\x03"),
    (784, b"\xE8\x03"),
    (792, b"\x08\x04"),
    (804, b"\x08"),
    (808, b"\x10"),
    // TX
    (872, b"##TX\0\0\0\0\x1C"),
    (896, b"rpm"),
    // CC
    (904, b"##CC\0\0\0\0`\0\0\0\0\0\0\0\x04"),
    (960, b"\x01"),
    (966, b"\x02"),
    (998, b"\xF0?"),
    // TX
    (1000, b"##TX\0\0\0\0\x1E"),
    (1024, b"1/min"),
    // MD
    (1032, b"##MD\0\0\0\0>"),
    (1056, b"<CNcomment><TX>crank</TX></CNcomment>"),
    // DT
    (1096, b"##DT\0\0\0\0,"),
    (1128, b" \x03"),
    (1136, b"\xE0?R\x03"),
    // DG
    (1144, b"##DG\0\0\0\0@\0\0\0\0\0\0\0\x04"),
    (1176, b"\xB8\x04"),
    (1184, b"\xE0\x06"),
    // CG
    (1208, b"##CG\0\0\0\0h\0\0\0\0\0\0\0\x06"),
    (1240, b"@\x05"),
    (1248, b" \x05"),
    (1288, b"\x01"),
    (1304, b"\x09"),
    // TX
    (1312, b"##TX\0\0\0\0 "),
    (1336, b"gearbox"),
    // CN
    (1344, b"##CN\0\0\0\0\xA0\0\0\0\0\0\0\0\x08"),
    (1368, b" \x06"),
    (1384, b"\xE0\x05"),
    (1416, b"\0\x06"),
    (1432, b"\x02\x01\x04"),
    (1440, b"@"),
    // TX
    (1504, b"##TX\0\0\0\0\x1D"),
    (1528, b"time"),
    // TX
    (1536, b"##TX\0\0\0\0\x1A"),
    (1560, b"s"),
    // CN
    (1568, b"##CN\0\0\0\0\xA0\0\0\0\0\0\0\0\x08"),
    (1608, b"\xC0\x06"),
    (1660, b"\x08"),
    (1664, b"\x08"),
    // TX
    (1728, b"##TX\0\0\0\0\x1D"),
    (1752, b"gear"),
    // DT
    (1760, b"##DT\0\0\0\0!"),
    (1792, b"\x03"),
];

/// The bytes of the file of the data groups engine and gearbox.
pub fn engine_and_gearbox(alloc: Global) -> Result<Bytes, Fail> {
    let mut file = vec![in alloc; 0u8; 1936]?;
    for part in ENGINE_AND_GEARBOX {
        put(&mut file, *part);
    }
    Ok(Bytes::from_vec(file))
}

// A finalized file without data groups. Its header names an attachment, with the MD5 of `abc` as md5sum prints it, its name and its
// MIME type. All other bytes are 0.
const ATTACHED: &[Part] = &[
    (0, b"MDF     4.10    example "),
    (28, b"\x9A\x01"),
    (64, b"##HD"),
    (72, b"\x68"),
    (80, b"\x06"),
    (112, b"\xA8"),
    (168, b"##AT"),
    (176, b"\x63"),
    (184, b"\x04"),
    (200, b"\x10\x01"),
    (208, b"\x30\x01"),
    (224, b"\x05"),
    (
        232,
        b"\x90\x01\x50\x98\x3C\xD2\x4F\xB0\xD6\x96\x3F\x7D\x28\xE1\x7F\x72",
    ),
    (248, b"\x03"),
    (256, b"\x03"),
    (264, b"abc"),
    (272, b"##TX"),
    (280, b"\x20"),
    (296, b"a.txt"),
    (304, b"##TX"),
    (312, b"\x28"),
    (328, b"text/plain"),
];

/// The file of this attachment.
pub fn attached(alloc: Global) -> Result<Bytes, Fail> {
    let mut file = vec![in alloc; 0u8; 344]?;
    for part in ATTACHED {
        put(&mut file, *part);
    }
    Ok(Bytes::from_vec(file))
}
