ghost use Rattle.std.specs.Prelude.{◌≡◌, ◌+◌, ◌≤◌, ◌↔◌, ℕ, Bool, true, false, List, length, Option, Some, None, IfSome, IfOk, IsOk, OnOk};
ghost use Rattle.mdf_format.specs.Number.{bytes_at};
ghost use Rattle.mdf_format.specs.Cause.{HasCause};
ghost use Rattle.mdf_disk.specs.declared.role.Role.{Role};
ghost use Rattle.mdf_disk.specs.Story.{Story, Agrees, IsFresh};
ghost use Rattle.mdf_disk.specs.Stays.{Stays};
ghost use Rattle.mdf_disk.specs.Calls.{Attaches, Patches, Writes, Keeps, Syncs};

use crate::Role;
use mdf_num::{Bytes, Failed};

/// A disk on which one file is read or made.
pub trait Disk {
    /// The name and the role that `attach` asked for. Every disk tells them.
    ghost asked: { Self → Option (List ℕ × Role) };

    /// Whether its file is attached. Every disk tells it.
    ghost attached: { Self → Bool };

    /// The bytes that a read gives, where the disk tells them.
    ghost content: { Self → Option (List ℕ) };

    /// The moments that the disk has been through, where it tells them. A disk that does keeps to the crash model:
    /// between two successful syncs each range written, and what was added behind the old end, may hold any bytes
    /// after a crash, and any part of what was added may be missing at the end. A write that failed counts as one in
    /// flight. After a successful sync a crash leaves the content.
    ghost story: { Self → Option Story };

    /// The disk's clock.
    ghost moment: { Self → ℕ };

    /// How often the disk has failed; a u64 that stays at its last value.
    ghost faults: { Self → ℕ };

    /// Attaches the file of this name. The disk keeps the name and the role, whatever the answer.
    ///
    /// # Errors
    /// `Failed`, and the disk is not attached: no such file for `Read`, a taken name for `Create`, or a fault.
    fn attach(&mut self, name: Bytes, role: Role) -> Result<(), Failed>
        requires { asked self.old ≡ None }
        ensures asked { asked self.new ≡ Some (name, role) }
        ensures attached { IsOk result ↔ (attached self.new ≡ true) }
        ensures content { Attaches role (content self.old) (content self.new) result }
        ensures story { story self.new ≡ story self.old }
        ensures moment { moment self.old ≤ moment self.new }
        ensures cause { HasCause (faults self.old) (faults self.new) result }
        ensures calm { OnOk result (faults self.new ≡ faults self.old) };

    /// The length of the file, in bytes.
    ///
    /// # Errors
    /// `Failed` where the disk failed.
    fn size(&mut self) -> Result<u64, Failed>
        requires { attached self.old ≡ true }
        ensures size { IfOk result (λ n. IfSome (content self.old) (λ file. n ≡ length file)) }
        ensures stays { Stays asked attached moment self.old self.new }
        ensures content { content self.new ≡ content self.old }
        ensures story { story self.new ≡ story self.old }
        ensures cause { HasCause (faults self.old) (faults self.new) result }
        ensures calm { OnOk result (faults self.new ≡ faults self.old) };

    /// Reads the bytes from `at` on into the whole buffer.
    ///
    /// # Errors
    /// `Failed` where the disk failed.
    fn read_at(&mut self, at: u64, buf: &mut [u8]) -> Result<(), Failed>
        requires attached { attached self.old ≡ true }
        requires within { IfSome (content self.old) (λ file. at + length buf.old ≤ length file) }
        ensures bytes { OnOk result (IfSome (content self.old) (λ file. buf.new ≡ bytes_at (length buf.old) file at)) }
        ensures stays { Stays asked attached moment self.old self.new }
        ensures content { content self.new ≡ content self.old }
        ensures story { story self.new ≡ story self.old }
        ensures cause { HasCause (faults self.old) (faults self.new) result }
        ensures calm { OnOk result (faults self.new ≡ faults self.old) };

    /// Writes the bytes from `at` on, over what is there and past the end.
    ///
    /// # Errors
    /// `Failed` where the disk failed. Of a disk that tells its story the bytes stay that no write since the last
    /// successful sync touches, this one among them; of another nothing is said of the content then.
    fn write_at(&mut self, at: u64, bytes: &[u8]) -> Result<(), Failed>
        requires attached { attached self.old ≡ true }
        requires within { IfSome (content self.old) (λ file. at ≤ length file) }
        ensures stays { Stays asked attached moment self.old self.new }
        ensures content { Patches (content self.old) (content self.new) at bytes.now result }
        ensures story { Writes (story self.old) (story self.new) at bytes.now result }
        ensures cause { HasCause (faults self.old) (faults self.new) result }
        ensures calm { OnOk result (faults self.new ≡ faults self.old) };

    /// Keeps all that was written: after `Ok` a crash leaves the content.
    ///
    /// # Errors
    /// `Failed` where the disk failed.
    fn sync(&mut self) -> Result<(), Failed>
        requires { attached self.old ≡ true }
        ensures stays { Stays asked attached moment self.old self.new }
        ensures content { Keeps (content self.old) (content self.new) result }
        ensures story { Syncs (story self.old) (story self.new) result }
        ensures cause { HasCause (faults self.old) (faults self.new) result }
        ensures calm { OnOk result (faults self.new ≡ faults self.old) };

    /// The disk's clock.
    fn moment(&self) -> u64
        ensures { result ≡ moment self.now };

    /// How often the disk has failed.
    fn faults(&self) -> u64
        ensures { result ≡ faults self.now };

    /// Where the story is told, the content and the clock are those of its present moment.
    ghost agrees: { (d : Self) → Agrees (story d) (content d) (moment d) };

    /// Only what was asked for is attached.
    ghost unasked: { (d : Self) → asked d ≡ None → attached d ≡ false };

    /// Of a disk that is not attached the empty file is all that a crash can leave.
    ghost unattached: { (d : Self) → attached d ≡ false → IsFresh (story d) };
}
