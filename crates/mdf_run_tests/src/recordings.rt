//! What is opened of recordings, and what is no recording.

use mdf_gate::opened;
use mdf_run_rig::{Part, is_told, listed_recording, recording};
use std::alloc::Global;
use std::test::Fail;

/// What is opened of a file that is short.
fn opened_told(alloc: Global, file: &[u8]) -> Result<String, Fail> {
    if file.len() > 425 {
        return Err("too long".into());
    }
    let answer = opened(file);
    Ok(format!(in alloc; "{answer:?}")?)
}

/// So many bytes of that recording, with this part put in.
struct Changed(usize, Part);

/// Its opened blocks, their bytes and their first and last place; or why it is none.
fn changed_told(alloc: Global, row: &Changed) -> Result<String, Fail> {
    let file = recording(alloc, row.0, row.1)?;
    opened_told(alloc, file.as_slice())
}

// The length of the file and the part that is put into it; what is told.
const OPENED: &[(Changed, &str)] = &[
    // no block behind a closed first place
    (
        Changed(233, (232, b"\0")),
        "Ok(Opened { blocks: 0, bytes: 0, first: 232, next: 232 })",
    ),
    // no block behind the end of the file
    (
        Changed(232, (0, b"")),
        "Ok(Opened { blocks: 0, bytes: 0, first: 232, next: 232 })",
    ),
    // two blocks and their places
    (
        Changed(313, (0, b"")),
        "Ok(Opened { blocks: 2, bytes: 26, first: 232, next: 312 })",
    ),
    // a quote mark does not open
    (
        Changed(313, (272, b"\"")),
        "Ok(Opened { blocks: 1, bytes: 10, first: 232, next: 272 })",
    ),
    // a missing next gate is closed
    (
        Changed(312, (0, b"")),
        "Ok(Opened { blocks: 2, bytes: 26, first: 232, next: 312 })",
    ),
];

#[test]
fn opened_blocks_and_their_places(rt: HostRuntime) -> Result<(), Fail> {
    for (row, want) in OPENED {
        is_told(changed_told(rt.alloc(), row), *want)?;
    }
    Ok(())
}

// The same of what is broken.
const REFUSED: &[(Changed, &str)] = &[
    // a zero first byte
    (Changed(313, (0, b"\0")), "Err(NotMdf)"),
    // a part of an identification
    (Changed(63, (0, b"")), "Err(NotMdf)"),
    // version 399
    (Changed(313, (28, b"\x8F")), "Err(Version { ver: 399 })"),
    // version 420
    (Changed(313, (28, b"\xA4")), "Err(Version { ver: 420 })"),
    // a finalized file
    (
        Changed(313, (0, b"MDF     ")),
        "Err(NotRecording { std: 33, custom: 1 })",
    ),
    // another custom word
    (
        Changed(313, (62, b"\x02")),
        "Err(NotRecording { std: 33, custom: 2 })",
    ),
    // no header
    (Changed(313, (66, b"X")), "Err(Bad { at: 64, want: Hd })"),
    // a header with 5 links
    (Changed(313, (80, b"\x05")), "Err(Bad { at: 64, want: Hd })"),
    // no data group
    (Changed(313, (88, b"\0")), "Err(Bad { at: 0, want: Dg })"),
    // a data group at no multiple of 8
    (
        Changed(313, (88, b"\xA9")),
        "Err(Bad { at: 169, want: Dg })",
    ),
    // another block for the data group
    (Changed(313, (171, b"T")), "Err(Bad { at: 168, want: Dg })"),
    // a data group that is too short
    (
        Changed(313, (176, b"\x37")),
        "Err(Bad { at: 168, want: Dg })",
    ),
    // an address near 2^64
    (
        Changed(313, (88, b"\xF8\xFF\xFF\xFF\xFF\xFF\xFF\xFF")),
        "Err(Bad { at: 18446744073709551608, want: Dg })",
    ),
    // no data link
    (Changed(313, (208, b"\0")), "Err(Bad { at: 0, want: Dt })"),
    // a data link at no multiple of 8
    (
        Changed(313, (208, b"\xE9")),
        "Err(Bad { at: 233, want: Dt })",
    ),
    // an open place without a block
    (Changed(313, (274, b"X")), "Err(Bad { at: 272, want: Dt })"),
    // an opened block that passes the end
    (
        Changed(313, (280, b"\x2A")),
        "Err(Bad { at: 272, want: Dt })",
    ),
    // an opened block that is cut
    (Changed(311, (0, b"")), "Err(Bad { at: 272, want: Dt })"),
];

#[test]
fn what_is_no_recording_is_refused(rt: HostRuntime) -> Result<(), Fail> {
    for (row, want) in REFUSED {
        is_told(changed_told(rt.alloc(), row), *want)?;
    }
    Ok(())
}

// Its opened blocks, their bytes and their first and last place; or why it is none, in form 2.
fn listed_told(alloc: Global, row: &Changed) -> Result<String, Fail> {
    let file = listed_recording(alloc, row.0, row.1)?;
    opened_told(alloc, file.as_slice())
}

// The length of a file of form 2 and the part that is put into it; what is told.
const LISTED: &[(Changed, &str)] = &[
    (
        Changed(425, (0, b"")),
        "Ok(Opened { blocks: 2, bytes: 26, first: 232, next: 424 })",
    ),
    // the standard word, and the flags, the count and the offset of a list block are not looked at
    (
        Changed(425, (60, b"\0")),
        "Ok(Opened { blocks: 2, bytes: 26, first: 232, next: 424 })",
    ),
    (
        Changed(
            425,
            (
                272,
                b"\xFF\xFF\xFF\xFF\xFF\xFF\xFF\xFF\xFF\xFF\xFF\xFF\xFF\xFF\xFF\xFF",
            ),
        ),
        "Ok(Opened { blocks: 2, bytes: 26, first: 232, next: 424 })",
    ),
    // the first byte of a list block is the gate
    (
        Changed(425, (328, b"\0")),
        "Ok(Opened { blocks: 1, bytes: 10, first: 232, next: 328 })",
    ),
    // other words
    (
        Changed(425, (62, b"\x01")),
        "Err(Bad { at: 232, want: Dt })",
    ),
    (
        Changed(425, (62, b"\x02")),
        "Err(NotRecording { std: 49, custom: 2 })",
    ),
    // list blocks of 57 bytes, and with 1 link and 3
    (
        Changed(425, (240, b"\x39")),
        "Err(Bad { at: 232, want: Dl })",
    ),
    (
        Changed(425, (248, b"\x01")),
        "Err(Bad { at: 232, want: Dl })",
    ),
    (
        Changed(425, (248, b"\x03")),
        "Err(Bad { at: 232, want: Dl })",
    ),
    // another second link, another data block, another first link
    (
        Changed(425, (264, b"\x28")),
        "Err(Bad { at: 232, want: Dl })",
    ),
    (Changed(425, (288, b"\0")), "Err(Bad { at: 288, want: Dt })"),
    (
        Changed(425, (256, b"\x50")),
        "Err(Bad { at: 232, want: Dl })",
    ),
    // another first link and no data block
    (
        Changed(
            425,
            (
                256,
                b"\0\0\0\0\0\0\0\0\x20\x01\0\0\0\0\0\0\0\0\0\0\x01\0\0\0\0\0\0\0\0\0\0\0\0",
            ),
        ),
        "Err(Bad { at: 288, want: Dt })",
    ),
    // no list block at the last place, and one that is cut
    (Changed(425, (424, b"#")), "Err(Bad { at: 424, want: Dl })"),
    (Changed(233, (0, b"")), "Err(Bad { at: 232, want: Dl })"),
];

#[test]
fn list_blocks_stand_before_data_blocks(rt: HostRuntime) -> Result<(), Fail> {
    for (row, want) in LISTED {
        is_told(listed_told(rt.alloc(), row), *want)?;
    }
    Ok(())
}
