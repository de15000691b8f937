//! The program, stored with a run that ends with a refusal.
#![tactic(auto)]

use mdf_hostfile::{FileDisk, hold_streams};
use mdf_program::{disks, start};
use std::process::ExitCode;

fn main(rt: HostRuntime) -> ExitCode {
    let _streams = hold_streams(&rt);
    let (first, second, out) = (FileDisk::new(&rt), FileDisk::new(&rt), FileDisk::new(&rt));
    start(&rt, rt.stdin(), rt.stdout(), first, second, out, disks(&rt))
}
