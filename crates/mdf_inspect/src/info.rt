ghost use Rattle.std.specs.Prelude.{◌≡◌, ◌<◌, ◌≤◌, ℕ, length, slice_index_or};
ghost use Rattle.mdf_group.specs.declared.row.GroupRow.{GroupRow};
ghost use Rattle.mdf_paged.specs.Groups.{Located, groups_of};
ghost use Rattle.mdf_port.specs.State.{sink_state};
ghost use Rattle.mdf_command.specs.Texts.{Gives, numbered};
ghost use Rattle.mdf_inspect.specs.Info.{contents_text, group_line, total, total_line, version_line};
ghost use Rattle.mdf_inspect.specs.Reading.{reading_of};

use mdf_command::Piece::{Name, Number, Sum, Text};
use mdf_command::give_line;
use mdf_num::Failed;
use mdf_paged::PagedMeasurement;
use mdf_port::Sink;
use tool_export::name_text;

/// Gives the line of a group.
fn give_group<K: Sink>(sink: &mut K, found: &PagedMeasurement, group: u32) -> Result<(), Failed>
    requires { group < length (groups_of found.now) }
    ensures { (d : GroupRow × ℕ) → Gives (group_line group (slice_index_or (reading_of found.now).groups group d))
        (sink_state K.Sink sink.old) (sink_state K.Sink sink.new) result }
{
    let row = found.row(group);
    give_line(
        sink,
        &[
            Text(b"group "),
            Number(u64::from(group)),
            Text(b" "),
            Name(name_text(&row.name)),
            Text(b" channels "),
            Number(row.channels.len()),
            Text(b" samples "),
            Number(found.samples(group)),
        ],
    )
}

/// Gives the lines of the groups.
fn give_groups<K: Sink>(sink: &mut K, found: &PagedMeasurement) -> Result<(), Failed>
    ensures { Gives (numbered group_line 0 (reading_of found.now).groups) (sink_state K.Sink sink.old) (sink_state K.Sink sink.new) result }
{
    for group in 0..found.groups() {
        give_group(sink, found, group)?;
    }
    Ok(())
}

/// How many samples a group has.
fn samples_of(found: &PagedMeasurement, group: u32) -> u128
    requires { group < length (groups_of found.now) }
    ensures count { (d : Located) → result ≡ (slice_index_or (groups_of found.now) group d).group.count }
    ensures small { result ≤ 18446744073709551615 }
{
    u128::from(found.samples(group))
}

/// How many samples all groups have.
fn total(found: &PagedMeasurement) -> u128
    ensures { result ≡ total (reading_of found.now).groups }
{
    let mut total = 0u128;
    for group in 0..found.groups() {
        total += samples_of(found, group);
    }
    total
}

/// Gives the line of all groups.
fn give_total<K: Sink>(sink: &mut K, found: &PagedMeasurement) -> Result<(), Failed>
    ensures { Gives (total_line (reading_of found.now)) (sink_state K.Sink sink.old) (sink_state K.Sink sink.new) result }
{
    give_line(
        sink,
        &[
            Text(b"groups "),
            Number(u64::from(found.groups())),
            Text(b" samples "),
            Sum(total(found)),
            Text(b" dropped "),
            Number(found.dropped()),
        ],
    )
}

/// Gives the line of the version.
fn give_version<K: Sink>(sink: &mut K, version: u16) -> Result<(), Failed>
    ensures { Gives (version_line version) (sink_state K.Sink sink.old) (sink_state K.Sink sink.new) result }
{
    give_line(sink, &[Text(b"version "), Number(u64::from(version))])
}

/// Gives the lines on what a file holds.
pub fn give_contents<K: Sink>(sink: &mut K, found: &PagedMeasurement) -> Result<(), Failed>
    ensures { Gives (contents_text (reading_of found.now)) (sink_state K.Sink sink.old) (sink_state K.Sink sink.new) result }
{
    give_version(sink, found.ident().ver)?;
    give_groups(sink, found)?;
    give_total(sink, found)
}
