ghost use Rattle.std.specs.Prelude.{◌≡◌, ◌≤◌, Ok, true};
ghost use Rattle.mdf_block.specs.Refusal.{Gives};
ghost use Rattle.mdf_block.specs.Reads.{Looks, Reads, Says};
ghost use Rattle.mdf_format.specs.declared.kind.Kind.TheVariants.{Hd};
ghost use Rattle.mdf_block.specs.Block.{block, IsInside};
ghost use Rattle.mdf_block.specs.declared.place.BlockAt.{BlockAt};
ghost use Rattle.mdf_content.specs.Fault.{read_refusal};
ghost use Rattle.mdf_model.specs.Tree.{passed_over, tree, whole_budget};

use crate::lower::{block_of, groups_of, header_of};
use mdf_block::{BlockAt, Kind, link_in};
use mdf_content::ReadFault;
use mdf_conv::{Budget, link_count};
use mdf_group::DataRow;
use mdf_head::{Head, History};
use mdf_num::{Halt, Rows, Span, Stop};
use std::alloc::Global;

/// The blocks of a file that are reached by links, the data left out.
#[derive(Drop)]
pub struct Tree {
    /// The header (HDBLOCK).
    pub head: Head,
    /// The file history (FHBLOCKs), in the order of the links.
    pub history: Rows<History>,
    /// The data groups (DGBLOCKs), in the order of the links.
    pub rows: Rows<DataRow>,
    /// How many links that name something were passed over; it stays at the last u64.
    pub dropped: u64,
}

/// Where the header stands.
const HEADER_AT: u64 = 64;

/// What may come of a file before anything of it is read.
fn whole_budget() -> Budget
    ensures { result ≡ whole_budget }
{
    Budget::of_file()
}

/// How many of the links of the header to its first hierarchy, attachment and event name something.
fn passed_in<P: Span>(span: &mut P, block: &BlockAt) -> Result<u64, Stop>
    requires inside { IsInside (P.size span.old) block.now }
    requires linked { 6 ≤ block.now.links }
    ensures reads { Looks P.Span span.old span.new P.may_want result (λ file n. n ≡ passed_over file block.now.at) }
{
    let hierarchy = link_in(span, block, 2)?;
    let attachment = link_in(span, block, 3)?;
    let event = link_in(span, block, 4)?;
    Ok(link_count(hierarchy) + link_count(attachment) + link_count(event))
}

/// The header, the file history and the data groups of a file, so many links of whose header are passed over.
#[tactic(auto, unfolding(crate::specs::Tree::tree))]
fn tree_behind<P: Span>(alloc: Global, span: &mut P, passed: u64) -> Result<Tree, Halt<ReadFault>>
    ensures reads { Says P.Span span.old span.new true read_refusal result (λ file. (b : BlockAt) → block file 64 Hd ≡ Ok b → passed ≡ passed_over file b.at
        → Gives read_refusal result (tree file)) }
{
    let (head, history, left) = header_of(alloc, span, whole_budget())?;
    let (rows, left) = groups_of(alloc, span, head.first_dg, left)?;
    let dropped = left.with_dropped(passed).dropped;
    Ok(Tree {
        head,
        history,
        rows,
        dropped,
    })
}

/// The header, the file history and the data groups of a file.
///
/// # Errors
/// The first fault in this order: of the header, its comment and the file history, each entry with its comment; and then
/// of the data groups. The span's own; and want of memory.
#[tactic(auto, unfolding(crate::specs::Tree::tree))]
pub fn tree_in<P: Span>(alloc: Global, span: &mut P) -> Result<Tree, Halt<ReadFault>>
    ensures reads { Reads P.Span span.old span.new true read_refusal result (λ file. tree file) }
{
    let block = block_of(span, HEADER_AT, Kind::Hd)?;
    let passed = passed_in(span, &block)?;
    tree_behind(alloc, span, passed)
}
