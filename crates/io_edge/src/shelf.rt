// Files that lie in memory, and the place in one that is being read.
ghost use Rattle.std.specs.Prelude.{◌≡◌, ◌<◌, min, length, drop, Some, IfOk};
ghost use Rattle.io_edge.specs.Calls.{dealt, offered};
ghost use Rattle.io_edge.specs.Shelf.{IsNewest, filled, rest_of};

use crate::calls::offered;
use std::alloc::{AllocError, Global};

/// A file: the bytes of its name, and those that it holds.
#[derive(Drop)]
pub struct File {
    pub name: Vec<u8>,
    pub bytes: Vec<u8>,
}

impl File {
    /// A file of this name that holds these bytes.
    pub fn new(alloc: Global, name: &str, bytes: &[u8]) -> Result<File, AllocError>
        ensures name { IfOk result (λ file. file.name.items ≡ name.now) }
        ensures bytes { IfOk result (λ file. file.bytes.items ≡ bytes.now) }
    {
        Ok(File {
            name: Vec::from_slice(alloc, name.as_bytes())?,
            bytes: Vec::from_slice(alloc, bytes)?,
        })
    }
}

/// The next byte to be read: the index of its file, and how many bytes lie before it.
#[derive(Clone, Copy)]
pub struct Place {
    pub file: usize,
    pub at: usize,
}

/// The index of the newest file of this name.
pub fn newest(files: &[File], name: &[u8]) -> Option<usize>
    ensures { IsNewest files.now name.now result }
{
    let mut found = None;
    for (i, file) in files.iter().enumerate() {
        if name == file.name.as_slice() {
            found = Some(i);
        }
    }
    found
}

/// Moves bytes from a place on to the front of the buffer, as many as both allow, but no more than
/// are doled out, and tells how many. The place is then behind them.
pub fn read_on(files: &[File], place: &mut Place, most: Option<u32>, buf: &mut [u8]) -> usize
    requires { place.old.file < length files.now }
    ensures file { place.new.file ≡ place.old.file }
    ensures rest { rest_of files.now (Some place.new) ≡
        drop (dealt most (length buf.old)) (rest_of files.now (Some place.old)) }
    ensures count { result ≡
        min (length buf.old) (length (offered most (rest_of files.now (Some place.old)))) }
    ensures buffer { buf.new ≡
        filled buf.old (offered most (rest_of files.now (Some place.old))) }
{
    let bytes = files[place.file].bytes.as_slice();
    let start = place.at.min(bytes.len());
    let count = fill(buf, offered(most, &bytes[start..]));
    place.at = start + count;
    count
}

/// Copies the front of one slice to the front of another, as many bytes as both have, and tells
/// how many.
fn fill(buf: &mut [u8], bytes: &[u8]) -> usize
    ensures count { result ≡ min (length buf.old) (length bytes.now) }
    ensures buffer { buf.new ≡ filled buf.old bytes.now }
{
    let count = buf.len().min(bytes.len());
    buf[..count].copy_from_slice(&bytes[..count]);
    count
}
