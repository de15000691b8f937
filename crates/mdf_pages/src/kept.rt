ghost use Rattle.std.specs.Prelude.{◌≡◌, ◌≤◌, ℕ, List, Option, None, true, IfOk, IfErr};
ghost use Rattle.std.proofs.Props.{props};
ghost use Rattle.mdf_disk.specs.declared.role.Role.{Role};
ghost use Rattle.mdf_pages.specs.Cause.{ReadCause};
ghost use Rattle.mdf_pages.specs.Pages.{disk_of};

use crate::pages::Pages;
use mdf_disk::Disk;
use mdf_num::{Span, Stop};
use std::alloc::Global;
use std::marker::{Brand, PhantomData};

/// What stands for the name and the role that a disk was asked for.
pub trait Asked {
    /// The name and the role.
    ghost asked: { Option (List ℕ × Role) };
}

impl Asked for Brand {
    ghost asked = { None };
}

/// The file of a disk that was asked for `K`, read through pages. A reader that knows a span alone gives it back with that.
pub struct Kept<D: Disk, K: Asked> {
    pages: Pages<D>,
    of: PhantomData<K>,
    ghost asked: { D.asked (disk_of pages) ≡ K.asked } by { Prim.hlevel props },
}

impl<D: Disk, K: Asked> Kept<D, K> {
    /// As `begin` of `Pages`.
    ///
    /// # Errors
    /// As `begin` of `Pages`.
    pub fn begin(alloc: Global, disk: D) -> Result<Kept<D, K>, (Stop, D)>
        requires attached { D.attached disk ≡ true }
        requires asked { D.asked disk ≡ K.asked }
        ensures bytes { IfOk result (λ kept. ⟦<Kept<D, K> as Span>⟧.bytes kept ≡ D.content disk) }
        ensures calm { IfOk result (λ kept. ⟦<Kept<D, K> as Span>⟧.faults kept ≡ D.faults disk) }
        ensures cause { IfErr result (λ refused. ReadCause (D.faults disk) (D.faults refused.1) refused.0) }
        ensures asked { IfErr result (λ refused. D.asked refused.1 ≡ K.asked) }
        ensures attached { IfErr result (λ refused. D.attached refused.1 ≡ true) }
        ensures content { IfErr result (λ refused. D.content refused.1 ≡ D.content disk) }
    {
        match Pages::begin(alloc, disk) {
            Ok(pages) => Ok(Kept {
                pages,
                of: PhantomData,
            }),
            Err(refused) => Err(refused),
        }
    }

    /// The disk.
    pub fn into_disk(self) -> D
        ensures asked { D.asked result ≡ K.asked }
        ensures attached { D.attached result ≡ true }
        ensures content { D.content result ≡ ⟦<Kept<D, K> as Span>⟧.bytes self }
        ensures faults { D.faults result ≡ ⟦<Kept<D, K> as Span>⟧.faults self }
    {
        let Kept { pages, of: _ } = self;
        pages.into_disk()
    }
}

impl<D: Disk, K: Asked> Span for Kept<D, K> {
    ghost bytes = { λ kept. ⟦<Pages<D> as Span>⟧.bytes kept.pages };

    ghost size = { λ kept. ⟦<Pages<D> as Span>⟧.size kept.pages };

    ghost faults = { λ kept. ⟦<Pages<D> as Span>⟧.faults kept.pages };

    fn len(&self) -> u64 {
        self.pages.len()
    }

    fn fill(&mut self, at: u64, buf: &mut [u8]) -> Result<(), Stop> {
        self.pages.fill(at, buf)
    }

    #[inline]
    fn number(&mut self, at: u64, count: u8) -> Result<u64, Stop> {
        self.pages.number(at, count)
    }

    fn faults(&self) -> u64 {
        self.pages.faults()
    }

    ghost whole = { λ kept. kept.pages.sized };
}
