use acq_script::{Plan, Script, ScriptFault, Task, generated, read_script};
use mdf_block::Note;
use mdf_group::{ChannelRow, GroupRow};
use mdf_layout::{Entry, Sample, Value};
use mdf_num::{Memory, Rows};
use std::alloc::Global;
use std::process::Abort;
use std::test::Fail;
use test_rig::is_told;

// Whole scripts, whose lines end in `/`, each with what is told of it.
const SCRIPTS: &str = " => line 1
; => line 1
/ => line 2
begin/ => line 1
channel t u64/ => line 1
lives/group 0 g/ => line 1
group 0 g/begin/ => line 2
group 0 g/group 0 h/ => line 2
group 0 g/channel t u64/group 0 h/ => line 4
group 0 g/channel t u64/0 1/ => line 3
group 0 g/channel t u64/! 0/ => line 3
group 0 g/channel t u64/end/ => line 3
group 0 g/channel t u64 master/channel u u64 master/ => line 3
group 0 g/channel t u64/channel u u64 master/begin/0 1 2/0 1/end/ => line 6
;//; x y /group 0 g//channel t u64/;/begin/;//0 1/;/ends/ => line 13
;//; x y /group 0 g//channel t u64/;/begin/;//0 1/;/end/ => [0] 1 65536 268435456 false 8: 1
group 0 g/channel t u8/group 1 h/channel u u8/begin/1 9/0 5/! 1/! 2/ => line 9
group 0 g/channel t u8/group 1 h/channel u u8/begin/1 9/0 5/! 1/end/ => [0, 1] 2 65536 268435456 false 1: 5 9 !
group 15 g/channel t u8/begin/! 3/end/ => [15] 16 65536 268435456 false 1: !
group 0 ~!/channel t u64/channel u u64 master/begin/end/ => [0] 1 65536 268435456 false 16:
group 0 g/channel t u64 master/begin/0 1/0 2/! 0/0 3/end/ => [0] 1 65536 268435456 false 8: 1 2 ! 3
";

// Limits, each with what is told of the script.
const LIMITS: &str = "block 0/ => line 1
block 16777217/ => line 1
block 09/ => line 1
block/ => line 1
block 9 9/ => line 1
block 9/block 9/ => line 2
group 0 g/block 9/ => line 2
session 0/ => line 1
session 268435457/ => line 1
session 1/session 1/ => line 2
group 0 g/session 1/ => line 2
block 8/group 0 g/channel t u64/begin/! 0/0 1/ => line 6
block 9/group 0 g/channel t u64/begin/0 1/end/ => [0] 1 9 268435456 false 8: 1
session 268435456/block 16777216/group 0 g/channel t u64/begin/end/ => [0] 1 16777216 268435456 false 8:
block 1/session 1/group 0 g/channel t u64/begin/end/ => [0] 1 1 1 false 8:
";

// The line `live`, each with what is told of the script.
const LIVE: &str = "live/ => line 2
live 1/ => line 1
live / => line 1
live/live/ => line 2
live/;/block 9/session 9/live/ => line 5
group 0 g/live/ => line 2
group 0 g/channel t u64/live/ => line 3
group 0 g/channel t u64/begin/live/ => line 4
group 0 g/channel t u64/begin/end/live/ => line 5
live/group 0 g/channel t u64/begin/0 1/end/ => [0] 1 65536 268435456 true 8: 1
block 9/live/session 7/group 0 g/channel t u64/group 1 h/channel u u8/begin/end/ => [0, 1] 2 9 7 true 8:
";

// The line of the form, each with what is told of the script.
const FORMS: &str = "form 0/ => line 1
form 3/ => line 1
form/ => line 1
form 2 2/ => line 1
form 1/form 1/ => line 2
form 2/form 1/ => line 2
group 0 g/form 2/ => line 2
form 1/group 0 g/channel t u64/begin/0 1/end/ => [0] 1 65536 268435456 false 8: 1
live/form 2/block 9/group 0 g/channel t u64/begin/end/ => [0] 1 9 268435456 true 8:
";

// First lines that no rule admits.
const GROUPS: &str = "group  0 g/ => line 1
group 0  g/ => line 1
group 0 g / => line 1
 group 0 g/ => line 1
group 0 g\r/ => line 1
group 0 \x7F/ => line 1
group 0 / => line 1
group 0/ => line 1
group 16 g/ => line 1
group 0 01234567890123456789012345678901234567890123456789012345678901234/ => line 1
";

// Lines that no rule admits behind a group.
const CHANNELS: &str = "channel t/ => line 2
channel t u64\r/ => line 2
channel t u65/ => line 2
channel t u64 slave/ => line 2
channel t u64 master master/ => line 2
channel 01234567890123456789012345678901234567890123456789012345678901234 u64/ => line 2
";

// What stands behind `begin` of a group of one channel, each with what is told of it.
const TASKS: &str = "0 0/end/ => [0] 1 65536 268435456 false 8: 0
0 18446744073709551615/end/ => [0] 1 65536 268435456 false 8: 18446744073709551615
0 18446744073709551616/end/ => line 4
0 01/end/ => line 4
0 +1/end/ => line 4
0 -1/end/ => line 4
0 x/end/ => line 4
0  1/end/ => line 4
0 1 /end/ => line 4
0 1\r/end/ => line 4
00 1/end/ => line 4
1 1/end/ => line 4
0/end/ => line 4
0 1 2/end/ => line 4
channel u u64/ => line 4
begin/ => line 4
! 1/ => line 4
!/ => line 4
! 0 0/ => line 4
!0/ => line 4
";

// Ends of a script behind `begin` of a group of one channel, each with its line that no rule admits.
const ENDS: &str = "end => line 4
end 0/ => line 4
; no LF => line 4
end/0 1/ => line 5
end/; => line 5
end// => line 5
0 1/ => line 5
0 1/0 2 => line 5
";

// A group of one channel.
const GROUP: &str = "group 0 g\n";

const PLAN: &str = "group 0 g\nchannel t u64\nbegin\n";

// The limits of a plan and its one group.
fn plan_told(alloc: Global, plan: &Plan) -> Result<String, Fail> {
    let bytes = match plan.shapes.get(0) {
        Some(shape) => shape.data_bytes(),
        None => 0,
    };
    let owners = plan.owners.as_slice();
    let told = format!(in alloc;
        "{owners:?} {} {} {} {} {bytes}:",
        plan.sources, plan.block, plan.session, plan.live
    )?;
    Ok(told)
}

// The value of a channel, with `?` behind it where it is invalid.
fn push_entry(told: &mut String, entry: &Entry) -> Result<(), Fail> {
    match &entry.value {
        Value::Unsigned(number) => write!(told, "{number}")?,
        Value::Signed(number) => write!(told, "{number}")?,
        Value::Bytes(bytes) => write!(told, "{:?}", bytes.as_slice())?,
        Value::Index(index) => write!(told, "#{index}")?,
    }
    if !entry.valid {
        told.push_str("?")?;
    }
    Ok(())
}

// The values of a sample.
fn push_values(told: &mut String, sample: &Sample) -> Result<(), Fail> {
    let mut between = " ";
    for entry in sample.values.as_slice() {
        told.push_str(between)?;
        push_entry(told, entry)?;
        between = ",";
    }
    Ok(())
}

// What a source does.
fn push_tasks(told: &mut String, tasks: &Rows<Task>) -> Result<(), Fail> {
    for task in tasks.as_slice() {
        match task {
            Task::Sample(sample) => push_values(told, sample)?,
            Task::Flush => told.push_str(" !")?,
        }
    }
    Ok(())
}

// What is told of a script.
fn script_told(alloc: Global, script: &Script) -> Result<String, Fail> {
    let mut told = plan_told(alloc, &script.plan)?;
    for tasks in script.lists.as_slice() {
        push_tasks(&mut told, tasks)?;
    }
    Ok(told)
}

// The script that a text is, or its line that is refused.
fn told(alloc: Global, text: &str) -> Result<String, Fail> {
    match read_script(alloc, text.as_bytes()) {
        Ok(script) => script_told(alloc, &script),
        Err(ScriptFault::Line { line }) => Ok(format!(in alloc; "line {line}")?),
        Err(ScriptFault::Memory) => Err(Memory.into()),
    }
}

// A script of these texts, whose lines end in `/`.
fn whole(alloc: Global, before: &str, text: &str) -> Result<String, Fail> {
    Ok(format!(in alloc; "{before}{text}")?.replace(alloc, '/', "\n")?)
}

// Asserts what was told of a script.
fn text_is<R: Abort>(rt: &R, told: &str, want: &str, whole: &str) {
    assert_eq!(rt; told, want, "{whole}");
}

// Asserts what is told of a script.
fn whole_is_told<R>(rt: &R, whole: &str, want: &str) -> Result<(), Fail>
where
    R: AllocGlobal + Abort,
{
    let told = told(rt.alloc(), whole)?;
    text_is(rt, told.as_str(), want, whole);
    Ok(())
}

// Asserts what is told of a script, whose lines end in `/`.
fn script_is_told<R>(rt: &R, before: &str, text: &str, want: &str) -> Result<(), Fail>
where
    R: AllocGlobal + Abort,
{
    whole_is_told(rt, whole(rt.alloc(), before, text)?.as_str(), want)
}

// Asserts what is told of the scripts of a table, a line each, where each stands behind this text.
fn scripts_are_told_behind<R>(rt: &R, before: &str, table: &str) -> Result<(), Fail>
where
    R: AllocGlobal + Abort,
{
    for row in table.lines() {
        let (text, want) = row.split_once(" => ").unwrap_or((row, ""));
        script_is_told(rt, before, text, want)?;
    }
    Ok(())
}

// Types that no rule admits, behind the name of a channel.
const WRONG_TYPES: &str = "u/ => line 2
u0/ => line 2
u01/ => line 2
u65/ => line 2
s0/ => line 2
s65/ => line 2
ub0/ => line 2
ub65/ => line 2
sb65/ => line 2
f16/ => line 2
bytes0/ => line 2
bytes256/ => line 2
text256/ => line 2
var1/ => line 2
u8 inv master/ => line 2
u8 inv inv/ => line 2
bytes1 master/ => line 2
vartext master/ => line 2
u8/unit s/unit s/ => line 4
u8/unit s m/ => line 3
u8/begin/unit s/ => line 4
";

// Types with samples, behind the name of a channel, each with what is told of the script.
const VALUES: &str = "u1/begin/0 0/0 1/end/ => [0] 1 65536 268435456 false 1: 0 1
u1/begin/0 2/end/ => line 4
ub64/begin/0 18446744073709551615/end/ => [0] 1 65536 268435456 false 8: 18446744073709551615
s1/begin/0 -1/0 0/end/ => [0] 1 65536 268435456 false 1: -1 0
s1/begin/0 1/end/ => line 4
s8/begin/0 -128/0 127/end/ => [0] 1 65536 268435456 false 1: -128 127
s8/begin/0 -129/end/ => line 4
s8/begin/0 128/end/ => line 4
s8/begin/0 -0/end/ => line 4
s8/begin/0 -01/end/ => line 4
sb64/begin/0 -9223372036854775808/0 9223372036854775807/end/ => [0] 1 65536 268435456 false 8: -9223372036854775808 9223372036854775807
s64/begin/0 -9223372036854775809/end/ => line 4
f32/begin/0 4294967295/end/ => [0] 1 65536 268435456 false 4: 4294967295
f32/begin/0 4294967296/end/ => line 4
bytes1/begin/0 xff/end/ => [0] 1 65536 268435456 false 1: [255]
bytes1/begin/0 xFF/end/ => line 4
bytes1/begin/0 xf/end/ => line 4
bytes1/begin/0 x/end/ => line 4
text2/begin/0 x6162/end/ => [0] 1 65536 268435456 false 2: [97, 98]
var/begin/0 x/0 x6162/end/ => [0] 1 65536 268435456 false 8: [] [97, 98]
u8 inv/begin/0 7?/0 7/end/ => [0] 1 65536 268435456 false 1: 7? 7
u8/begin/0 7?/end/ => line 4
u8 inv/begin/0 7??/end/ => line 4
u3/channel b u7/begin/0 5 86/end/ => [0] 1 65536 268435456 false 2: 5,86
u8/group 0 h/channel b s8/begin/1 -1/0 1/2 0/ => line 8
";

// Behind the name of a channel.
const CHANNEL: &str = "group 0 g\nchannel c ";

// Limits of a block, and samples of a channel of variable length, each with what is told.
const BLOCKS: &str =
    "block 20/group 0 g/channel v var/begin/0 x010203040506/end/ => [0] 1 20 268435456 false 8: [1, 2, 3, 4, 5, 6]
block 20/group 0 g/channel v var/begin/0 x010203040506/0 x01020304050607/end/ => line 6
group 0 g/unit s/ => line 2
";

#[test]
fn scripts_are_told(rt: HostRuntime) -> Result<(), Fail> {
    scripts_are_told_behind(&rt, "", SCRIPTS)?;
    scripts_are_told_behind(&rt, "", GROUPS)?;
    scripts_are_told_behind(&rt, "", BLOCKS)
}

#[test]
fn lines_before_a_group_are_told(rt: HostRuntime) -> Result<(), Fail> {
    scripts_are_told_behind(&rt, "", LIMITS)?;
    scripts_are_told_behind(&rt, "", FORMS)?;
    scripts_are_told_behind(&rt, "", LIVE)
}

#[test]
fn lines_behind_a_group_are_told(rt: HostRuntime) -> Result<(), Fail> {
    scripts_are_told_behind(&rt, GROUP, CHANNELS)?;
    scripts_are_told_behind(&rt, PLAN, TASKS)?;
    scripts_are_told_behind(&rt, PLAN, ENDS)
}

#[test]
fn types_are_told(rt: HostRuntime) -> Result<(), Fail> {
    scripts_are_told_behind(&rt, CHANNEL, WRONG_TYPES)?;
    scripts_are_told_behind(&rt, CHANNEL, VALUES)
}

// A channel of each type.
const ALL_TYPES: &str =
    "group 0 g\nchannel a u3 master\n\n;\nunit s\nchannel b ub13 inv\nchannel c s5 inv\nchannel d f32\nchannel e bytes3\nchannel f text2\nchannel g var\nchannel h vartext inv\nbegin\nend\n";

// Of each channel its kind, what it counts, its data type, its first byte, first bit and number of bits, its flags and
// the position of its invalidation bit, and then its unit; and how many data and invalidation bytes a record has.
const ALL_ROWS: &str =
    "2 1 0 0 0 3 0 0 s; 0 0 1 1 0 13 2 0; 0 0 2 3 0 5 2 1; 0 0 4 4 0 32 0 0; 0 0 10 8 0 24 0 0; 0 0 7 11 0 16 0 0; 1 0 10 13 0 64 0 0; 1 0 7 21 0 64 2 2; 29 1";

// The numbers of a channel, and its unit.
fn push_row(told: &mut String, row: &ChannelRow) -> Result<(), Fail> {
    write!(
        told,
        "{} {} {} {} {} {} {} {}",
        row.kind, row.sync, row.data_type, row.byte, row.bit, row.bits, row.flags, row.inval
    )?;
    if let Note::Plain(unit) = &row.unit {
        for byte in unit.as_slice() {
            write!(told, " {}", *byte as char)?;
        }
    }
    told.push_str("; ")?;
    Ok(())
}

// The channels of a group.
fn push_group(told: &mut String, group: &GroupRow) -> Result<(), Fail> {
    for row in group.channels.as_slice() {
        push_row(told, row)?;
    }
    write!(told, "{} {}", group.data_bytes, group.inval_bytes)?;
    Ok(())
}

// The channels of these groups.
fn groups_told(alloc: Global, groups: &[GroupRow]) -> Result<String, Fail> {
    let mut told = String::new(alloc);
    for group in groups {
        push_group(&mut told, group)?;
    }
    Ok(told)
}

// The channels of a script's groups.
fn rows_told(alloc: Global, text: &str) -> Result<String, Fail> {
    match read_script(alloc, text.as_bytes()) {
        Ok(script) => groups_told(alloc, script.plan.rows.as_slice()),
        Err(_) => Err(Memory.into()),
    }
}

#[test]
fn rows_of_all_types_are_told(rt: HostRuntime) -> Result<(), Fail> {
    is_told(rows_told(rt.alloc(), ALL_TYPES), ALL_ROWS)
}

// A script of so many groups of so many channels of a type, and no sample.
fn of_groups(alloc: Global, groups: u32, channels: u32, kind: &str) -> Result<String, Fail> {
    let mut text = String::new(alloc);
    for _ in 0..groups {
        text.push_str(GROUP)?;
        for _ in 0..channels {
            write!(text, "channel c {kind}\n")?;
        }
    }
    text.push_str("begin\nend\n")?;
    Ok(text)
}

// How many groups, channels of each, and of which type, and the line that is refused; 0 for none.
const COUNTS: &[(u32, u32, &str, u64)] = &[
    (1, 256, "u64", 0),
    (1, 257, "u1", 258),
    (64, 16, "u1", 0),
    (65, 1, "u1", 129),
    (4, 256, "u1", 0),
    (5, 256, "u1", 1030),
    (2, 64, "var", 0),
    (2, 65, "var", 131),
];

// The line of a script that is refused; 0 for none.
fn line_of(alloc: Global, text: &str) -> u64 {
    match read_script(alloc, text.as_bytes()) {
        Err(ScriptFault::Line { line }) => line,
        _ => 0,
    }
}

// Asserts which line of a script is refused.
fn is_refused_at<R>(rt: &R, text: Result<String, Fail>, line: u64) -> Result<(), Fail>
where
    R: AllocGlobal + Abort,
{
    assert_eq!(rt; line_of(rt.alloc(), text?.as_str()), line);
    Ok(())
}

#[test]
fn counts_are_told(rt: HostRuntime) -> Result<(), Fail> {
    for (groups, channels, kind, line) in COUNTS {
        let text = of_groups(rt.alloc(), *groups, *channels, *kind);
        is_refused_at(&rt, text, *line)?;
    }
    Ok(())
}

// A script with a value of so many bytes.
fn of_bytes(alloc: Global, bytes: u32) -> Result<String, Fail> {
    let mut text = String::from_str(
        alloc,
        "block 16777216\ngroup 0 g\nchannel v var\nbegin\n0 x",
    )?;
    for _ in 0..bytes {
        text.push_str("61")?;
    }
    text.push_str("\nend\n")?;
    Ok(text)
}

#[test]
fn a_value_has_at_most_65535_bytes(rt: HostRuntime) -> Result<(), Fail> {
    is_refused_at(&rt, of_bytes(rt.alloc(), 65_535), 0)?;
    is_refused_at(&rt, of_bytes(rt.alloc(), 65_536), 5)
}

// How many samples are generated, with what is told of the script.
const GENERATED: &[(u64, &str)] = &[
    (0, "[0, 1, 2, 3] 4 65536 268435456 false 12:"),
    (1, "[0, 1, 2, 3] 4 65536 268435456 false 12: 0,1013904223"),
    (
        10,
        "[0, 1, 2, 3] 4 65536 268435456 false 12: 0,1013904223 4,1020562323 8,1027220423 1,1015568748 5,1022226848 9,1028884948 2,1017233273 6,1023891373 3,1018897798,[3, 3, 3] 7,1025555898,[7, 7]",
    ),
];

// What is told of the generated script of so many samples.
fn generated_told(alloc: Global, samples: u64) -> Result<String, Fail> {
    if samples > 1_000_000 {
        return Err(Memory.into());
    }
    script_told(alloc, &generated(alloc, samples)?)
}

#[test]
fn the_generated_script_is_told(rt: HostRuntime) -> Result<(), Fail> {
    for (samples, want) in GENERATED {
        is_told(generated_told(rt.alloc(), *samples), *want)?;
    }
    Ok(())
}

// How many tasks each source has of a million samples: its 250,000 samples, and 250 flushes.
#[test]
fn a_million_samples_are_generated(rt: HostRuntime) -> Result<(), Fail> {
    let script = generated(rt.alloc(), 1_000_000)?;
    for tasks in script.lists.as_slice() {
        assert_eq!(rt; tasks.len(), 250_250);
    }
    Ok(())
}
