ghost use Rattle.std.specs.Prelude.{◌≡◌, ◌++◌, ℕ, List, Some, map, reverse, true, IfOk};
ghost use Rattle.std.specs.List.{AllByRecursion};
ghost use Rattle.mdf_block.specs.Refusal.{HidesNone};
ghost use Rattle.mdf_block.specs.Reads.{Looks, Reads};
ghost use Rattle.mdf_content.specs.Fault.{read_refusal};
ghost use Rattle.mdf_content.specs.Contents.{AllHaveSamples};
ghost use Rattle.mdf_content.specs.Found.{IsFoundInside, data_fetched};
ghost use Rattle.mdf_model.specs.Found.{whole_found, whole};
ghost use Rattle.mdf_model.specs.Kept.{all_kept, whole_for, whole_kept};
ghost use Rattle.mdf_model.specs.Tree.{finalized};

use crate::Tree;
use crate::identity::finalized_in;
use crate::tree::tree_in;
use crate::wanted::wanted_for;
use mdf_block::{Visit, every_in};
use mdf_content::{DataContents, DataFound, ReadFault, Room, Wanted, data_found_in, fetch_in};
use mdf_group::DataRow;
use mdf_head::Ident;
use mdf_num::{Halt, Memory, Rows, Span, Stop};
use std::alloc::Global;

/// All that is read of a finalized file.
#[derive(Drop)]
pub struct Whole {
    /// Its identification.
    pub ident: Ident,
    /// Its header, its history and its data groups.
    pub tree: Tree,
    /// What the data groups hold, in the same order.
    pub contents: Rows<DataContents>,
}

/// Where all that is read of a finalized file stands.
#[derive(Drop)]
pub struct WholeFound {
    /// Its identification.
    pub ident: Ident,
    /// Its header, its history and its data groups.
    pub tree: Tree,
    /// Where what the data groups hold stands, in the same order.
    pub found: Rows<DataFound>,
}

/// The data groups of a file, with the places that are wanted.
#[derive(Drop)]
struct DataGroups {
    wanted: Wanted,
}

impl Visit for DataGroups {
    ghost use Rattle.mdf_content.specs.Found.{IsFoundInside};
    ghost use Rattle.mdf_model.specs.Kept.{kept_place};

    type Item = DataRow;

    type Found = DataFound;

    type State = u32;

    type Room = Room;

    type Fault = ReadFault;

    ghost refusal = { read_refusal };

    ghost read = { λ groups. kept_place groups.wanted };

    ghost needs = { λ _ _. Unit {0} };

    ghost admits = { λ _ _ _. Unit {0} };

    ghost keeps = { λ _. IsFoundInside };

    fn item_in<P: Span>(
        &self,
        alloc: Global,
        span: &mut P,
        _k: usize,
        item: &DataRow,
        number: u32,
        room: &mut Room,
    ) -> Result<(Option<DataFound>, u32), Halt<ReadFault>> {
        let (found, next) = data_found_in(alloc, span, item, self.wanted, number, room)?;
        Ok((Some(found), next))
    }
}

/// Where what the data groups hold stands.
#[tactic(auto, unfolding(crate::specs::Kept::all_kept))]
fn all_found_in<P: Span>(
    alloc: Global,
    span: &mut P,
    rows: &[DataRow],
    wanted: Wanted,
) -> Result<Rows<DataFound>, Halt<ReadFault>>
    ensures reads { Reads P.Span span.old span.new true read_refusal result (λ file. all_kept wanted file rows.now) }
    ensures inside { IfOk result (AllByRecursion (IsFoundInside (P.size span.old))) }
{
    let mut room = Room::of_file(span);
    let (found, _) = every_in(alloc, &DataGroups { wanted }, span, rows, 0, &mut room)?;
    Ok(found)
}

/// Where all that is read of a finalized file stands. None of its records are read but for the offsets of channels of variable
/// length, and of their values the lengths alone.
///
/// # Errors
/// The first fault in this order: of the identification; of the tree, as `tree_in`; and of the data groups in order, as
/// `data_found_in`. The span's own; and want of memory, which is answered too where the values have more parts than the file
/// has bytes.
pub fn whole_found_in<P: Span>(alloc: Global, span: &mut P) -> Result<WholeFound, Halt<ReadFault>>
    ensures reads { Reads P.Span span.old span.new true read_refusal result (λ file. whole_found file) }
    ensures first { (f : List ℕ) → P.bytes span.old ≡ Some f → HidesNone P.may_want result (finalized f) }
    ensures inside { IfOk result (λ all. AllByRecursion (IsFoundInside (P.size span.old)) all.found) }
{
    whole_kept_in(alloc, span, Wanted::Every)
}

/// The same, with the places of records that are wanted: of a group whose records are counted alone each place is told as 0.
///
/// # Errors
/// As `whole_found_in`.
#[tactic(auto, unfolding(crate::specs::Kept::whole_by))]
pub fn whole_kept_in<P: Span>(
    alloc: Global,
    span: &mut P,
    wanted: Wanted,
) -> Result<WholeFound, Halt<ReadFault>>
    ensures reads { Reads P.Span span.old span.new true read_refusal result (λ file. whole_kept wanted file) }
    ensures first { (f : List ℕ) → P.bytes span.old ≡ Some f → HidesNone P.may_want result (finalized f) }
    ensures inside { IfOk result (λ all. AllByRecursion (IsFoundInside (P.size span.old)) all.found) }
{
    let ident = finalized_in(span)?;
    let tree = tree_in(alloc, span)?;
    let found = all_found_in(alloc, span, tree.rows.as_slice(), wanted)?;
    Ok(WholeFound { ident, tree, found })
}

/// The same for a caller that needs the samples of one group alone, counted from 0 over the groups whose records are samples: the
/// places of its records are kept, and those that lead to values of variable length. Of a group whose records are counted alone
/// each place is told as 0.
///
/// # Errors
/// As `whole_found_in`.
#[tactic(auto, unfolding(crate::specs::Kept::whole_by))]
pub fn whole_for_in<P: Span>(
    alloc: Global,
    span: &mut P,
    group: u64,
) -> Result<WholeFound, Halt<ReadFault>>
    ensures reads { Reads P.Span span.old span.new true read_refusal result (λ file. whole_for group file) }
    ensures first { (f : List ℕ) → P.bytes span.old ≡ Some f → HidesNone P.may_want result (finalized f) }
    ensures inside { IfOk result (λ all. AllByRecursion (IsFoundInside (P.size span.old)) all.found) }
{
    let ident = finalized_in(span)?;
    let tree = tree_in(alloc, span)?;
    let wanted = wanted_for(tree.rows.as_slice(), group);
    let found = all_found_in(alloc, span, tree.rows.as_slice(), wanted)?;
    Ok(WholeFound { ident, tree, found })
}

/// Adds what is found of data groups, with the bytes there. They stand with the last first.
pub(crate) fn add_fetched_in<P: Span>(
    alloc: Global,
    span: &mut P,
    found: Vec<DataFound>,
    all: &mut Rows<DataContents>,
    room: &mut Room,
) -> Result<(), Stop>
    requires inside { AllByRecursion (IsFoundInside (P.size span.old)) found.items }
    ensures reads { Looks P.Span span.old span.new true result (λ file _. all.new ≡ all.old ++ map (data_fetched file) (reverse found.items)) }
{
    let mut found = found;
    'found: while let Some(one) = found.pop() {
        let contents = fetch_in(alloc, span, one, room)?;
        all.push(contents)?;
    }
    Ok(())
}

/// What is found of data groups, with the bytes there.
fn all_fetched_in<P: Span>(
    alloc: Global,
    span: &mut P,
    found: Rows<DataFound>,
    room: &mut Room,
) -> Result<Rows<DataContents>, Stop>
    requires inside { AllByRecursion (IsFoundInside (P.size span.old)) found }
    ensures reads { Looks P.Span span.old span.new true result (λ file all. all ≡ map (data_fetched file) found) }
{
    let mut found = found.into_vec();
    found.reverse();
    let mut all = Rows::empty(alloc);
    add_fetched_in(alloc, span, found, &mut all, room)?;
    Ok(all)
}

/// All that is read of a finalized file: it is found, and then the bytes there are fetched.
///
/// # Errors
/// As `whole_found_in`; and want of memory, which is answered too where the records and the values that are read have more than
/// twice as many bytes as the file.
pub fn whole_in<P: Span>(alloc: Global, span: &mut P) -> Result<Whole, Halt<ReadFault>>
    ensures reads { Reads P.Span span.old span.new true read_refusal result (λ file. whole file) }
    ensures first { (f : List ℕ) → P.bytes span.old ≡ Some f → HidesNone P.may_want result (finalized f) }
    ensures samples { (f : List ℕ) → P.bytes span.old ≡ Some f → IfOk result (λ all. AllByRecursion AllHaveSamples all.contents) }
{
    let WholeFound { ident, tree, found } = whole_found_in(alloc, span)?;
    let mut room = Room::of_file(span);
    let contents = all_fetched_in(alloc, span, found, &mut room)?;
    Ok(Whole {
        ident,
        tree,
        contents,
    })
}
