ghost use Rattle.std.specs.Prelude.{◌≡◌, ◌≤◌, ◌<◌, ◌↔◌, ◌∷◌, [], Some, None, false, length, take, IsTrue, IfOk, OnOk, OnErr};
ghost use Rattle.std.specs.Option.{option_map};
ghost use Rattle.mdf_format.specs.Cause.{HasCause};
ghost use Rattle.acq_lines.specs.Lines.{FindsLf, IsCut, Reads, limited, nothing};

use mdf_input::Input;
use mdf_num::{Failed, Memory};
use mdf_port::Source;
use memchr::memchr;
use std::alloc::Global;

/// How many bytes a line has at most, its LF counted.
pub const LINE_LIMIT: usize = 65536;

/// A source that hands out its lines. What it has read of them lies in a buffer that has room for the longest.
#[derive(Drop)]
pub struct LineSource<S> {
    source: S,
    buffer: Vec<u8>,
    start: usize,
    end: usize,
    long: bool,
    passed: usize,
    ghost front: { start ≤ end },
    ghost behind: { passed ≤ start },
    ghost within: { end ≤ length buffer.items },
    ghost room: { length buffer.items ≡ 65536 },
}

impl<S: Source> LineSource<S> {
    ghost use Rattle.acq_lines.specs.Source.{Fills, Stays, unpassed, unread};

    /// Over a source of which nothing was read. It finds all its memory here.
    pub fn new(alloc: Global, source: S) -> Result<LineSource<S>, Memory>
    where
        S: Drop,
        ensures nothing { IfOk result (λ lines. unread lines ≡ nothing) }
        ensures source { IfOk result (λ lines. lines.source ≡ source) }
    {
        let buffer = vec![in alloc; 0; LINE_LIMIT]?;
        Ok(LineSource {
            source,
            buffer,
            start: 0,
            end: 0,
            long: false,
            passed: 0,
        })
    }

    /// The source, without what was read of it.
    pub fn into_source(self) -> S
        ensures { result ≡ self.source }
    {
        let LineSource { source, .. } = self;
        source
    }

    /// How many bytes stand before the first LF, if one was read.
    pub fn line_end(&self) -> Option<usize>
        ensures { FindsLf (unread self.now).bytes result }
    {
        memchr(b'\n', &self.buffer[self.start..self.end])
    }

    /// The next line without its LF, before which so many bytes stand. None exactly where it is too long.
    pub fn line(&self, count: usize) -> Option<&[u8]>
        requires { FindsLf (unread self.now).bytes (Some count) }
        ensures { option_map (λ line. line.now) result ≡ limited (unread self.now).long (take count (unread self.now).bytes) }
    {
        if self.long || count >= LINE_LIMIT {
            return None;
        }
        Some(&self.buffer[self.start..self.start + count])
    }

    /// Passes the next line, before whose LF so many bytes stand.
    pub fn pass(&mut self, count: usize)
        requires { FindsLf (unread self.old).bytes (Some count) }
        ensures reads { Reads (unread self.old) [] (limited (unread self.old).long (take count (unread self.old).bytes) ∷ []) (unread self.new) }
        ensures back { (unread self.old).long ≡ false → unpassed self.new ≡ unread self.old }
        ensures source { self.new.source ≡ self.old.source }
    {
        self.start += count + 1;
        self.long = false;
        self.passed = count + 1;
    }

    /// Puts the line back that was passed last, where it was not too long and nothing was read since.
    pub fn put_back(&mut self)
        ensures unread { unread self.new ≡ unpassed self.old }
        ensures source { self.new.source ≡ self.old.source }
    {
        self.start -= self.passed;
        self.long = false;
        self.passed = 0;
    }

    /// Drops what was read of a line that has too many bytes already, and moves what else was read to the front of the buffer.
    fn make_room(&mut self)
        requires { FindsLf (unread self.old).bytes None }
        ensures reads { Reads (unread self.old) [] [] (unread self.new) }
        ensures room { self.new.end < length self.new.buffer.items }
        ensures source { self.new.source ≡ self.old.source }
    {
        let count = self.end - self.start;
        self.passed = 0;
        if count >= LINE_LIMIT {
            self.start = 0;
            self.end = 0;
            self.long = true;
            return;
        }
        self.buffer.copy_within(self.start..self.end, 0);
        self.start = 0;
        self.end = count;
    }

    /// Reads more, where no LF is left of what was read, and answers how many bytes; 0 is the end.
    ///
    /// # Errors
    /// `Failed` where the source failed; then no byte was read.
    pub fn fill(&mut self) -> Result<usize, Failed>
        requires { FindsLf (unread self.old).bytes None }
        ensures filled { IfOk result (Fills (S.left self.old.source) (S.left self.new.source) (unread self.old) (unread self.new)) }
        ensures stays { OnErr result (Stays (S.left self.old.source) (S.left self.new.source) (unread self.old) (unread self.new)) }
        ensures cause { HasCause (S.faults self.old.source) (S.faults self.new.source) result }
        ensures calm { OnOk result (S.faults self.new.source ≡ S.faults self.old.source) }
    {
        self.make_room();
        let count = self.source.take(&mut self.buffer[self.end..])?;
        self.end += count;
        Ok(count)
    }

    /// Whether what was read ends in the middle of a line, where no LF is left of it.
    pub fn is_cut(&self) -> bool
        ensures { IsTrue result ↔ IsCut (unread self.now) }
    {
        self.long || self.start < self.end
    }
}

impl<S: Input> LineSource<S> {
    ghost use Rattle.acq_lines.specs.Source.{unread};

    /// Waits until the next `fill` need not wait, a tenth of a second at most, and answers whether it need not.
    ///
    /// # Errors
    /// `Failed` where the source failed.
    pub fn wait(&mut self) -> Result<bool, Failed>
        ensures unread { unread self.new ≡ unread self.old }
        ensures left { S.left self.new.source ≡ S.left self.old.source }
        ensures cause { HasCause (S.faults self.old.source) (S.faults self.new.source) result }
        ensures calm { OnOk result (S.faults self.new.source ≡ S.faults self.old.source) }
    {
        self.source.wait()
    }

    /// Lets the source go, so that who sends to it is told. What was read of it stays.
    pub fn close(&mut self)
        ensures unread { unread self.new ≡ unread self.old }
        ensures left { S.left self.new.source ≡ S.left self.old.source }
        ensures faults { S.faults self.new.source ≡ S.faults self.old.source }
    {
        self.source.close();
    }
}
