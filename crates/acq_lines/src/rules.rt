ghost use Rattle.std.specs.Prelude.{◌≡◌, ◌≤◌, length};

use mdf_layout::Shapes;
use mdf_num::Rows;
use script_line::Width;

/// What the lines of an input are judged by: the layouts of the groups, which of the channels of each are floats, the source of each,
/// and how many bytes the records of a sample have at most. A group without floats may have no widths.
#[derive(Clone, Copy)]
pub struct LineRules<'a> {
    pub shapes: &'a Shapes,
    pub floats: &'a [Rows<Option<Width>>],
    pub owners: &'a [u8],
    pub block: u32,
    ghost few: { length shapes.now ≤ 64 },
    ghost typed: { length floats.now ≡ length shapes.now },
    ghost owned: { length owners.now ≡ length shapes.now },
}
