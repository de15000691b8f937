ghost use Rattle.std.specs.Prelude.{◌≡◌, ◌+◌, ◌<◌, ◌∷◌, [], ◌++◌, List, length, Some, OnOk, OnErr, IfOk};
ghost use Rattle.mdf_format.specs.Number.{patched};
ghost use Rattle.mdf_disk.specs.Story.{MayLeave, LeftSince};
ghost use Rattle.mdf_disk.specs.Image.{image_of, moment_inside, moment_before};
ghost use Rattle.mdf_disk.specs.Tape.{IsRecordable, content_after};

use crate::call::Call;
use crate::image::{Pick, image};
use mdf_num::{Bytes, Memory};
use std::alloc::{AllocError, Global};
use std::marker::Model;

/// The file of a disk in memory that began with none, and the calls that made it. Contracts see it as the calls.
#[derive(Drop)]
pub struct Tape {
    content: Vec<u8>,
    calls: Vec<Call>,
    clock: u64,
}

impl Model for Tape {
    ghost use Rattle.std.specs.Prelude.{List};
    ghost use Rattle.mdf_disk.specs.declared.call.Call.{Call};

    ghost Value = { List Call };

    ghost use Rattle.mdf_disk.specs.Tape.{IsTape};

    ghost view = { λ tape. tape.calls.items };

    ghost invariant = { λ tape. IsTape tape.calls.items tape.content.items tape.clock };
}

impl Tape {
    ghost use Rattle.mdf_disk.specs.Tape.{story_of};

    /// No call yet.
    pub fn new(alloc: Global) -> Tape
        ensures { result ≡ [] }
    {
        Tape {
            content: Vec::new(alloc),
            calls: Vec::new(alloc),
            clock: 0,
        }
    }

    /// What a read gives.
    pub fn content(&self) -> &[u8]
        ensures { result.now ≡ (story_of self.now).now.content }
    {
        self.content.as_slice()
    }

    /// The number of writes and syncs.
    pub fn clock(&self) -> u64
        ensures { result ≡ length (story_of self.now).past }
    {
        self.clock
    }

    pub fn calls(&self) -> &[Call]
        ensures { result.now ≡ self.now }
    {
        self.calls.as_slice()
    }

    /// The file that a crash inside call `k` may leave.
    pub fn image(&self, k: usize, pick: Pick) -> Result<Vec<u8>, AllocError>
        requires { k < length self.now }
        ensures is { IfOk result (λ file. file.items ≡ image_of pick (moment_inside self.now k)) }
        ensures possible { IfOk result (λ file. MayLeave (moment_inside self.now k) file.items) }
        ensures since { IfOk result
            (λ file. LeftSince (Some (story_of self.now)) (moment_before self.now k) file.items) }
    {
        image(*self.calls.allocator(), &self.calls, k, pick)
    }

    /// Does a call and records it. After an error nothing was done.
    pub fn record(&mut self, call: Call) -> Result<(), Memory>
        requires { IsRecordable call (story_of self.old).now.content }
        ensures ok { OnOk result (self.new ≡ self.old ++ call ∷ []) }
        ensures err { OnErr result (self.new ≡ self.old) }
        ensures possible { MayLeave (story_of self.new).now (story_of self.new).now.content }
    {
        self.calls.reserve(1)?;
        perform(&mut self.content, &call)?;
        self.clock += call.ticks();
        self.calls.push_reserved(call);
        Ok(())
    }
}

/// Does a call to the content.
pub fn perform(content: &mut Vec<u8>, call: &Call) -> Result<(), AllocError>
    ensures ok { OnOk result (content.new.items ≡ content_after call.now content.old.items) }
    ensures err { OnErr result (content.new.items ≡ content.old.items) }
{
    match call {
        Call::Write {
            at,
            bytes,
            done: true,
        } => patch(content, *at as usize, bytes.as_slice()),
        _ => Ok(()),
    }
}

/// Puts bytes in the place of those from `at` on, and adds what reaches past the end.
pub fn patch(content: &mut Vec<u8>, at: usize, bytes: &[u8]) -> Result<(), AllocError>
    ensures ok { OnOk result (content.new.items ≡ patched at bytes.now content.old.items) }
    ensures err { OnErr result (content.new.items ≡ content.old.items) }
{
    let start = at.min(content.len());
    let inside = bytes.len().min(content.len() - start);
    content.extend_from_slice(&bytes[inside..])?;
    content[start..start + inside].copy_from_slice(&bytes[..inside]);
    Ok(())
}
