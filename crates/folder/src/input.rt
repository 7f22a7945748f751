// Reading a file in large pieces.
ghost use Rattle.std.specs.Prelude.{◌<◌, ◌↔◌, length, take, IsNone, IsOk, IfErr};
ghost use Rattle.std.specs.Counts.{IsPrefixLen};
ghost use Rattle.std.specs.Io.KnownBytes.{Consumes, IsAtEnd};
ghost use Rattle.folder.specs.Outcomes.{IsFile};

use crate::failure::Failure;
use std::fs::File;
use std::io::{ErrorKind, Read};
use std::rt::Files;
use std::{io, str};

// How many bytes were read to the front of a buffer, and why a read failed, where one did.
// Kept: a count, and no slice of what was read: the buffer stays lent to the caller, who reads the next piece into it.
#[derive(Clone, Copy)]
pub struct Filled {
    pub bytes: usize,
    pub failed: Option<io::Error>,
}

impl Filled {
    // Fails where a read failed; the file goes by that name.
    pub fn check<'a>(&self, name: &'a [u8]) -> Result<(), Failure<'a>>
        ensures ok { IsOk result ↔ IsNone self.now.failed }
        ensures failed { IfErr result IsFile }
    {
        match self.failed {
            Some(error) => Err(Failure::File { name, error }),
            None => Ok(()),
        }
    }
}

// Reads until the buffer is full, the file ends or a read fails: what was read stands at the front of the buffer.
// Kept: a `while`: it goes on until the buffer is full, the file ends or a read fails, and no iterator gives that.
pub fn fill<F: Read>(file: &mut F, buf: &mut [u8]) -> Filled
    ensures count { IsPrefixLen result.bytes buf.new }
    ensures front { Consumes (F.remaining file.old) (F.remaining file.new) (take result.bytes buf.new) }
    ensures end { IsNone result.failed → result.bytes < length buf.new → IsAtEnd (F.remaining file.new) }
{
    let mut bytes: usize = 0;
    while bytes < buf.len() {
        match file.read(&mut buf[bytes..]) {
            Ok(0) => break,
            Ok(more) => bytes += more,
            Err(error) => {
                return Filled {
                    bytes,
                    failed: Some(error),
                };
            }
        }
    }
    Filled {
        bytes,
        failed: None,
    }
}

// Opens the file of that name for reading.
pub fn open<R: Files>(rt: &R, name: &[u8]) -> io::Result<R::File> {
    match str::from_utf8(name) {
        Ok(path) => File::open(rt, path),
        Err(_) => Err(io::Error::from(ErrorKind::InvalidFilename)),
    }
}

// Reads the file of that name to the front of the buffer, as much of it as there is room for. A file that cannot be
// opened has nothing.
pub fn read_file<R: Files>(rt: &R, name: &[u8], buf: &mut [u8]) -> Filled
    ensures { IsPrefixLen result.bytes buf.new }
{
    match open(rt, name) {
        Ok(mut file) => fill(&mut file, buf),
        Err(error) => Filled {
            bytes: 0,
            failed: Some(error),
        },
    }
}
