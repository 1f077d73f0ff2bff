//! Files of the user: one that is read whole, and one that is put where the user wants it.

use crate::fault::{Fault, FileFault};
use cm_host::{open, put_file};
use cm_system::{PutFault, TakeFault, take};
use std::alloc::Global;
use std::rt::Files;

/// The bytes of a file, at most so many, for what they are to be.
pub fn read_file<R: Files>(
    rt: &R,
    alloc: Global,
    path: &str,
    limit: u64,
    too_much: &'static str,
) -> Result<Vec<u8>, Fault> {
    let Ok(mut file) = open(rt, path) else {
        return Err(Fault::bytes(alloc, path, "cannot be opened"));
    };
    match take(alloc, &mut file, limit) {
        Ok(bytes) => Ok(bytes),
        Err(TakeFault::Read) => Err(Fault::bytes(alloc, path, "cannot be read")),
        Err(TakeFault::TooMuch) => Err(Fault::file(alloc, path, FileFault::TooMuch(too_much))),
        Err(TakeFault::Memory) => Err(Fault::Memory),
    }
}

/// Puts a file of these bytes where the path says, as cm_host does it.
pub fn write_file<R: Files + AllocGlobal>(rt: &R, path: &str, bytes: &[u8]) -> Result<(), Fault> {
    match put_file(rt, rt.alloc(), path, bytes) {
        Ok(()) => Ok(()),
        Err(PutFault::Write) => Err(Fault::bytes(rt.alloc(), path, "cannot be written")),
        Err(PutFault::Memory) => Err(Fault::Memory),
    }
}
