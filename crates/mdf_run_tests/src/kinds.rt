//! Recordings of channels of every type.

use mdf_gate::opened;
use mdf_run_rig::{EMPTY, Part, all_stand, recorded};
use std::sync::Wait;
use std::test::Fail;
use std::thread::Threads;

// A channel of every type: two groups of one source, so that the order of their samples is that of the lines.
const EVERY_TYPE: &str = "block 256
group 0 engine
channel t u64 master
unit ns
channel gear u3
channel slope s5 inv
channel speed ub16
unit 1/min
channel torque sb12 inv
unit Nm
channel load f32
channel state text4
group 0 can
channel t f64 master
unit s
channel id u11
channel extended u1
channel header bytes3
channel payload var inv
channel note vartext
begin
0 1000 5 -3 3000 -100? 1065353216 x69646c65
1 4607182418800017408 291 1 x0a0b0c x0102 x6869
1 4611686018427387904 2047 0 x000000 x? x
! 0
end
";

// Its one block of 109 bytes of data: of each sample the records of its values of variable length, with the ids 3 and 4,
// and then that of its group. Gear and slope share a byte (5 and 32 - 3 times 8), torque is 4096 - 100 in big endian and
// invalid by bit 1, the id has its upper bits beside `extended`, and the second values of variable length stand at 6.
const EVERY_RECORD: [&[u8]; 9] = [
    b"##DT\0\0\0\0\x85\0\0\0\0\0\0\0\0\0\0\0\0\0\0\0",
    b"\x01\xE8\x03\0\0\0\0\0\0\xED\x0B\xB8\x0F\x9C\0\0\x80\x3Fidle\x02",
    b"\x03\x02\0\0\0\x01\x02",
    b"\x04\x02\0\0\0hi",
    b"\x02\0\0\0\0\0\0\xF0\x3F\x23\x09\x0A\x0B\x0C\0\0\0\0\0\0\0\0\0\0\0\0\0\0\0\0\0",
    b"\x03\0\0\0\0",
    b"\x04\0\0\0\0",
    b"\x02\0\0\0\0\0\0\0\x40\xFF\x07\0\0\0\x06\0\0\0\0\0\0\0\x06\0\0\0\0\0\0\0\x01",
    b"\0\0\0",
];

/// Whether the file has these parts, one behind the other, from its first place on, and nothing more.
fn has_blocks(file: &[u8], parts: &[&[u8]]) -> bool {
    let mut rest = match opened(file) {
        Ok(found) if found.first <= file.len() as u64 => &file[found.first as usize..],
        _ => return false,
    };
    for part in parts {
        match rest.strip_prefix(*part) {
            Some(left) => rest = left,
            None => return false,
        }
    }
    rest == b"\0".as_slice()
}

// Two channels of variable length, with the values nothing and xy, ab and z, and c and nothing.
const THREE_VALUES: &str = "group 0 g
channel v var
channel w var
begin
0 x x7879
0 x6162 x7a
0 x63 x
end
";

// Its block: the header of 24 bytes; of each sample the record of either value, with the ids 2 and 3, and the group's record
// with their offsets, which are 0, 4 and 10 of the first channel and 0, 6 and 11 of the second; and a zero byte up to the
// next place.
const VALUE_RECORDS: [&[u8]; 5] = [
    b"##DT\0\0\0\0\x6F\0\0\0\0\0\0\0\0\0\0\0\0\0\0\0",
    b"\x02\0\0\0\0\x03\x02\0\0\0xy\x01\0\0\0\0\0\0\0\0\0\0\0\0\0\0\0\0",
    b"\x02\x02\0\0\0ab\x03\x01\0\0\0z\x01\x04\0\0\0\0\0\0\0\x06\0\0\0\0\0\0\0",
    b"\x02\x01\0\0\0c\x03\0\0\0\0\x01\x0A\0\0\0\0\0\0\0\x0B\0\0\0\0\0\0\0",
    b"\0",
];

// Numbers of 3 and of 7 bits in one record, 5 and 86: 5 + 8 * 86 is 693, or B5 02 behind the id.
const TWO_FIELDS: &str = "group 0 g\nchannel a u3\nchannel b u7\nbegin\n0 5 86\nend\n";

const FIELD_RECORDS: [&[u8]; 2] = [
    b"##DT\0\0\0\0\x1B\0\0\0\0\0\0\0\0\0\0\0\0\0\0\0",
    b"\x01\xB5\x02\0\0\0\0\0",
];

// Scripts, and what stands from the first place of their recordings on.
const RECORDED: &[(&str, &[&[u8]])] = &[
    (EVERY_TYPE, &EVERY_RECORD),
    (THREE_VALUES, &VALUE_RECORDS),
    (TWO_FIELDS, &FIELD_RECORDS),
];

/// Whether the recording of a script has these parts there.
fn has_recorded<R>(rt: &R, script: &str, parts: &[&[u8]]) -> Result<bool, Fail>
where
    R: AllocGlobal + Threads + Wait + Sync,
{
    Ok(has_blocks(recorded(rt, script)?.as_slice(), parts))
}

#[test]
fn channels_are_recorded_with_their_offsets_and_values(rt: HostRuntime) -> Result<(), Fail> {
    for (script, parts) in RECORDED {
        assert!(rt; has_recorded(&rt, *script, *parts)?, "{script}");
    }
    Ok(())
}

// Two groups with a channel of variable length each, and no samples.
const TWO_VALUES: &str = "group 0 a\nchannel p var\ngroup 0 b\nchannel q var\nbegin\nend\n";

// The two groups stand at 440 and 768, their channels at 576 and 904, the groups of the values at 1096 and 1200, with the
// record ids 3 and 4, and the data begin at 1304: the links from one to the next, and the ids and flags of the latter two.
const VALUE_GROUPS: [Part; 14] = [
    (416, b"\x18\x05\0\0\0\0\0\0"),
    (440, b"##CG"),
    (464, b"\0\x03\0\0\0\0\0\0"),
    (576, b"##CN"),
    (640, b"\x48\x04\0\0\0\0\0\0"),
    (768, b"##CG"),
    (792, b"\x48\x04\0\0\0\0\0\0"),
    (904, b"##CN"),
    (968, b"\xB0\x04\0\0\0\0\0\0"),
    (
        1096,
        b"##CG\0\0\0\0\x68\0\0\0\0\0\0\0\x06\0\0\0\0\0\0\0\xB0\x04\0\0\0\0\0\0\0\0\0\0\0\0\0\0",
    ),
    (1168, b"\x03\0\0\0\0\0\0\0\0\0\0\0\0\0\0\0\x01\0"),
    (
        1200,
        b"##CG\0\0\0\0\x68\0\0\0\0\0\0\0\x06\0\0\0\0\0\0\0\0\0\0\0\0\0\0\0\0\0\0\0\0\0\0\0",
    ),
    (1272, b"\x04\0\0\0\0\0\0\0\0\0\0\0\0\0\0\0\x01\0"),
    (1304, b"\0"),
];

#[test]
fn groups_of_values_stand_behind_the_groups(rt: HostRuntime) -> Result<(), Fail> {
    let file = recorded(&rt, TWO_VALUES)?;
    assert!(rt; file.as_slice().len() == 1305);
    all_stand(file.as_slice(), &VALUE_GROUPS)
}

#[test]
fn an_empty_recording_is_a_head_and_a_closed_place(rt: HostRuntime) -> Result<(), Fail> {
    let file = recorded(&rt, EMPTY)?;
    assert!(rt; file.as_slice().len() == 769);
    all_stand(file.as_slice(), &[(768, b"\0")])
}
