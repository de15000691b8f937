ghost use Rattle.std.specs.Prelude.{◌≡◌, ◌+◌, ◌-◌, ◌*◌, ◌/◌, ◌%◌, ◌^◌, ◌≤◌, ◌<◌, ◌++◌, ℕ, List, [], true, false, min, length, take, drop, Some, IfOk, IfErr, OnOk, IsTrue};
ghost use Rattle.std.proofs.Props.{props};
ghost use Rattle.mdf_format.specs.Number.{le_number, bytes_at};
ghost use Rattle.mdf_disk.specs.Goes.{OnlyRead};
ghost use Rattle.mdf_num.specs.Halt.{StopCause};
ghost use Rattle.mdf_num.specs.Span.{IsTold};
ghost use Rattle.mdf_pages.specs.Page.{is_kept, first_page, ArePages, AreKept, AreOfOnePage, StillKept};
ghost use Rattle.mdf_pages.specs.Cause.{ReadCause, ReadEnds};

use crate::cache::Cache;
use crate::read::{PAGE_LEN, read_page};
use mdf_disk::Disk;
use mdf_num::{Span, Stop, number_of};
use std::alloc::Global;

/// The file of a disk, read through pages. At most 256 pages are kept, of 65,536 bytes each, the last page of the file being
/// shorter. The page that was used least lately goes first, and the next one is read into its memory.
pub struct Pages<D: Disk> {
    alloc: Global,
    disk: D,
    size: u64,
    cache: Cache,
    ghost attached: { D.attached disk ≡ true },
    ghost sized: { IsTold (D.content disk) size } by { Prim.hlevel props },
    ghost pages: { ArePages (D.content disk) size cache } by { Prim.hlevel props },
    ghost few: { length cache ≤ 256 },
}

/// Copies into the front of the buffer what these bytes have from `start` on, and answers how many that are.
fn copy_front(bytes: &[u8], start: usize, buf: &mut [u8]) -> usize
    requires { start ≤ length bytes.now }
    ensures count { result ≡ min (length bytes.now - start) (length buf.old) }
    ensures copied { buf.new ≡ bytes_at result bytes.now start ++ drop result buf.old }
{
    let count = (bytes.len() - start).min(buf.len());
    buf[..count].copy_from_slice(&bytes[start..start + count]);
    count
}

/// The number in the `count` bytes from `start` on.
fn number_within(bytes: &[u8], start: usize, count: u8) -> u64
    requires some { 0 < count }
    requires most { count ≤ 8 }
    requires within { start + count ≤ length bytes.now }
    ensures number { result ≡ le_number (bytes_at count bytes.now start) }
    ensures fits { result < 256 ^ count }
{
    number_of(&bytes[start..start + count as usize])
}

impl<D: Disk> Pages<D> {
    ghost use Rattle.mdf_pages.specs.Pages.{disk_of, kept_of, disk_then};

    /// Over the file that is attached to this disk. The disk is asked for the size of the file, once, and no page is kept yet.
    ///
    /// # Errors
    /// With the disk: `Failed` where it failed, and `Memory` for want of memory, where it did not.
    pub fn begin(alloc: Global, mut disk: D) -> Result<Pages<D>, (Stop, D)>
        requires { D.attached disk ≡ true }
        ensures empty { IfOk result (λ pages. kept_of pages ≡ []) }
        ensures cause { IfErr result (λ refused. ReadCause (D.faults disk) (D.faults refused.1) refused.0) }
        ensures calm { IfOk result (λ pages. D.faults (disk_of pages) ≡ D.faults disk) }
        ensures later { D.faults disk ≤ D.faults (disk_then result) }
        ensures only_read { OnlyRead D.Disk disk (disk_then result) }
    {
        let Ok(cache) = Cache::new(alloc) else {
            return Err((Stop::Memory, disk));
        };
        match disk.size() {
            Ok(size) => Ok(Pages {
                alloc,
                disk,
                size,
                cache,
            }),
            Err(_) => Err((Stop::Failed, disk)),
        }
    }

    /// The disk.
    pub fn into_disk(self) -> D
        ensures { result ≡ disk_of self }
    {
        let Pages {
            alloc: _,
            disk,
            size: _,
            cache: _,
        } = self;
        disk
    }

    /// Whether this page is kept, by its number from 0.
    pub fn holds(&self, page: u64) -> bool
        ensures { result ≡ is_kept page (kept_of self.now) }
    {
        self.cache.holds(page)
    }

    /// Reads a page that is not kept, and puts it first.
    fn read(&mut self, page: u64) -> Result<(), Stop>
        requires within { 65536 * page < self.old.size }
        requires absent { is_kept page self.old.cache ≡ false }
        ensures first { OnOk result (first_page self.new.cache ≡ Some page) }
        ensures stays { OnOk result (length self.old.cache < 256 → StillKept self.old.cache self.new.cache) }
        ensures size { self.new.size ≡ self.old.size }
        ensures ends { ReadEnds D.Disk self.old.disk self.new.disk result }
    {
        let room = self.cache.take_room(self.alloc);
        let bytes = read_page(self.alloc, &mut self.disk, self.size, page, room)?;
        if self.cache.put(page, bytes).is_err() {
            return Err(Stop::Memory);
        }
        Ok(())
    }

    /// Puts a page first that may be kept behind another. The disk is asked only for a page that is not kept.
    #[inline(never)]
    fn load_other(&mut self, page: u64) -> Result<(), Stop>
        requires { 65536 * page < self.old.size }
        ensures first { OnOk result (first_page self.new.cache ≡ Some page) }
        ensures kept { IsTrue (is_kept page self.old.cache) → self.new.disk ≡ self.old.disk }
        ensures others { IsTrue (is_kept page self.old.cache) → (other : ℕ) → IsTrue (is_kept other self.old.cache)
            → IsTrue (is_kept other self.new.cache) }
        ensures stays { OnOk result (length self.old.cache < 256 → StillKept self.old.cache self.new.cache) }
        ensures size { self.new.size ≡ self.old.size }
        ensures ends { ReadEnds D.Disk self.old.disk self.new.disk result }
    {
        if self.cache.touch(page) {
            return Ok(());
        }
        self.read(page)
    }

    /// As `load_other`, where the page may stand first already.
    #[inline]
    fn load(&mut self, page: u64) -> Result<(), Stop>
        requires { 65536 * page < self.old.size }
        ensures first { OnOk result (first_page self.new.cache ≡ Some page) }
        ensures kept { IsTrue (is_kept page self.old.cache) → self.new.disk ≡ self.old.disk }
        ensures others { IsTrue (is_kept page self.old.cache) → (other : ℕ) → IsTrue (is_kept other self.old.cache)
            → IsTrue (is_kept other self.new.cache) }
        ensures stays { OnOk result (length self.old.cache < 256 → StillKept self.old.cache self.new.cache) }
        ensures size { self.new.size ≡ self.old.size }
        ensures ends { ReadEnds D.Disk self.old.disk self.new.disk result }
    {
        if self.cache.is_first(page) {
            return Ok(());
        }
        self.load_other(page)
    }

    /// Fills the front of the buffer with the bytes from `at` on, as many as one page has, and answers how many.
    fn front(&mut self, at: u64, buf: &mut [u8]) -> Result<usize, Stop>
        requires some { 0 < length buf.old }
        requires within { at + length buf.old ≤ self.old.size }
        ensures some { IfOk result (λ n. 0 < n) }
        ensures most { IfOk result (λ n. n ≤ length buf.old) }
        ensures filled { IfOk result (λ n. (file : List ℕ) → D.content self.old.disk ≡ Some file → take n buf.new ≡ bytes_at n file at) }
        ensures first { IfOk result (λ n. first_page self.new.cache ≡ Some ((at + n - 1) / 65536)) }
        ensures kept { IsTrue (is_kept (at / 65536) self.old.cache) → self.new.disk ≡ self.old.disk }
        ensures others { IsTrue (is_kept (at / 65536) self.old.cache) → (other : ℕ) → IsTrue (is_kept other self.old.cache)
            → IsTrue (is_kept other self.new.cache) }
        ensures stays { OnOk result (length self.old.cache < 256 → StillKept self.old.cache self.new.cache) }
        ensures size { self.new.size ≡ self.old.size }
        ensures ends { ReadEnds D.Disk self.old.disk self.new.disk result }
    {
        self.load(at / PAGE_LEN)?;
        Ok(copy_front(self.cache.first(), (at % PAGE_LEN) as usize, buf))
    }

    /// As `number`, where the bytes lie in two pages: they are read into a word.
    #[cold]
    fn number_across(&mut self, at: u64, count: u8) -> Result<u64, Stop>
        requires some { 0 < count }
        requires most { count ≤ 8 }
        requires inside { at + count ≤ self.old.size }
        ensures number { IfOk result (λ n. (file : List ℕ) → D.content self.old.disk ≡ Some file → n ≡ le_number (bytes_at count file at)) }
        ensures fits { IfOk result (λ n. n < 256 ^ count) }
        ensures first { OnOk result (first_page self.new.cache ≡ Some ((at + count - 1) / 65536)) }
        ensures kept { AreKept at count self.old.cache → self.new.disk ≡ self.old.disk }
        ensures stays { OnOk result (AreOfOnePage at count → length self.old.cache < 256 → StillKept self.old.cache self.new.cache) }
        ensures size { self.new.size ≡ self.old.size }
        ensures ends { ReadEnds D.Disk self.old.disk self.new.disk result }
    {
        let mut word = [0u8; 8];
        let part = &mut word[..count as usize];
        self.fill(at, part)?;
        Ok(number_of(part))
    }
}

impl<D: Disk> Span for Pages<D> {
    ghost use Rattle.mdf_pages.specs.Pages.{disk_of, kept_of};

    ghost bytes = { λ p. D.content p.disk };

    ghost size = { λ p. p.size };

    ghost faults = { λ p. D.faults p.disk };

    fn len(&self) -> u64 {
        self.size
    }

    /// Fills the buffer with the bytes from `at` on. The page of the last of them then stands first. The disk is asked only
    /// for pages that are not kept, each once.
    ///
    /// # Errors
    /// `Failed` where the disk failed, and `Memory` for want of memory, where it did not.
    fn fill(&mut self, at: u64, buf: &mut [u8]) -> Result<(), Stop>
        requires { at + length buf.old ≤ ⟦<Pages<D> as Span>⟧.size self.old }
        ensures filled { OnOk result ((file : List ℕ) → ⟦<Pages<D> as Span>⟧.bytes self.old ≡ Some file → buf.new ≡ bytes_at (length buf.old) file at) }
        ensures same { ⟦<Pages<D> as Span>⟧.bytes self.new ≡ ⟦<Pages<D> as Span>⟧.bytes self.old }
        ensures size { ⟦<Pages<D> as Span>⟧.size self.new ≡ ⟦<Pages<D> as Span>⟧.size self.old }
        ensures cause { StopCause true (⟦<Pages<D> as Span>⟧.faults self.old) (⟦<Pages<D> as Span>⟧.faults self.new) result }
        ensures first { OnOk result (0 < length buf.old → first_page (kept_of self.new) ≡ Some ((at + length buf.old - 1) / 65536)) }
        ensures kept { AreKept at (length buf.old) (kept_of self.old) → disk_of self.new ≡ disk_of self.old }
        ensures stays { OnOk result (AreOfOnePage at (length buf.old) → length (kept_of self.old) < 256 → StillKept (kept_of self.old) (kept_of self.new)) }
        ensures few { length (kept_of self.new) ≤ 256 }
        ensures ends { ReadEnds D.Disk (disk_of self.old) (disk_of self.new) result }
    {
        let mut done = 0;
        while done < buf.len() {
            done += self.front(at + done as u64, &mut buf[done..])?;
        }
        Ok(())
    }

    /// The number in the `count` bytes from `at` on. The page of the last of them then stands first, and no byte is copied
    /// where they lie in one page.
    ///
    /// # Errors
    /// As `fill`.
    #[inline]
    fn number(&mut self, at: u64, count: u8) -> Result<u64, Stop>
        requires some { 0 < count }
        requires most { count ≤ 8 }
        requires inside { at + count ≤ ⟦<Pages<D> as Span>⟧.size self.old }
        ensures number { IfOk result (λ n. (file : List ℕ) → ⟦<Pages<D> as Span>⟧.bytes self.old ≡ Some file → n ≡ le_number (bytes_at count file at)) }
        ensures fits { IfOk result (λ n. n < 256 ^ count) }
        ensures same { ⟦<Pages<D> as Span>⟧.bytes self.new ≡ ⟦<Pages<D> as Span>⟧.bytes self.old }
        ensures size { ⟦<Pages<D> as Span>⟧.size self.new ≡ ⟦<Pages<D> as Span>⟧.size self.old }
        ensures cause { StopCause true (⟦<Pages<D> as Span>⟧.faults self.old) (⟦<Pages<D> as Span>⟧.faults self.new) result }
        ensures first { OnOk result (first_page (kept_of self.new) ≡ Some ((at + count - 1) / 65536)) }
        ensures kept { AreKept at count (kept_of self.old) → disk_of self.new ≡ disk_of self.old }
        ensures stays { OnOk result (AreOfOnePage at count → length (kept_of self.old) < 256 → StillKept (kept_of self.old) (kept_of self.new)) }
        ensures few { length (kept_of self.new) ≤ 256 }
        ensures ends { ReadEnds D.Disk (disk_of self.old) (disk_of self.new) result }
    {
        let start = at % PAGE_LEN;
        if start + u64::from(count) > PAGE_LEN {
            return self.number_across(at, count);
        }
        self.load(at / PAGE_LEN)?;
        Ok(number_within(self.cache.first(), start as usize, count))
    }

    fn faults(&self) -> u64 {
        self.disk.faults()
    }

    ghost whole = { λ p. p.sized };
}
