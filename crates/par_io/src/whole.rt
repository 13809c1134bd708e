// Bytes read or written whole, by any reader or writer of the system.
ghost use Rattle.std.specs.Prelude.{◌≡◌, ◌≢◌, ℕ, ◌+◌, ◌≤◌, ◌<◌, ◌↔◌, List, IfOk, IfErr, IfSome};
ghost use Rattle.std.specs.Prelude.{IsErrAnd, IsErrOf, IsNone, OnOk, OnErr, length, take};
ghost use Rattle.std.specs.Io.KnownBytes.{Appends, Consumes, Keeps, IsAtEnd};
ghost use Rattle.std.specs.IoError.{error_kind};
ghost use Rattle.par_io.specs.Causes.{TakesFront};

use crate::outside::{ReadFail, WriteFail};
use std::alloc::Global;
use std::io;
use std::io::{ErrorKind, Read, Write};

// The most bytes that one read asks for.
const CHUNK: usize = 4096;

// What a call of the system came to, unless it was interrupted.
fn settled(answer: io::Result<usize>) -> Option<io::Result<usize>>
    ensures again { IsNone result
        ↔ IsErrAnd answer (λ error. error_kind error ≡ ErrorKind.Interrupted) }
    ensures same { IfSome result (λ told. told ≡ answer) }
{
    match answer {
        Err(error) if error.kind() == ErrorKind::Interrupted => None,
        answer => Some(answer),
    }
}

pub(crate) fn read_fail(error: &io::Error) -> ReadFail
    ensures absent { result ≡ ReadFail.Absent ↔ (error_kind error.now ≡ ErrorKind.NotFound) }
    ensures memory { result ≡ ReadFail.Memory ↔ (error_kind error.now ≡ ErrorKind.OutOfMemory) }
    ensures not_long { result ≢ ReadFail.TooLong }
{
    match error.kind() {
        ErrorKind::NotFound => ReadFail::Absent,
        ErrorKind::OutOfMemory => ReadFail::Memory,
        _ => ReadFail::Failed,
    }
}

// A read that fails on its way, in a file that is there.
fn broken_off(error: &io::Error) -> ReadFail
    ensures memory { result ≡ ReadFail.Memory ↔ (error_kind error.now ≡ ErrorKind.OutOfMemory) }
    ensures failed { result ≢ ReadFail.Memory → result ≡ ReadFail.Failed }
{
    match error.kind() {
        ErrorKind::OutOfMemory => ReadFail::Memory,
        _ => ReadFail::Failed,
    }
}

pub(crate) fn write_fail(error: &io::Error) -> WriteFail
    ensures memory { result ≡ WriteFail.Memory ↔ (error_kind error.now ≡ ErrorKind.OutOfMemory) }
{
    match error.kind() {
        ErrorKind::OutOfMemory => WriteFail::Memory,
        _ => WriteFail::Failed,
    }
}

// One read, tried again where it is interrupted.
fn read_some<F: Read>(file: &mut F, buffer: &mut [u8]) -> io::Result<usize>
    ensures bound { IfOk result (λ count. count ≤ length buffer.new) }
    ensures given { IfOk result (λ count.
        Consumes (F.remaining file.old) (F.remaining file.new) (take count buffer.new)) }
    ensures ended { IfOk result (λ count.
        count ≡ 0 → 0 < length buffer.new → IsAtEnd (F.remaining file.new)) }
    ensures kept { OnErr result (Keeps (F.remaining file.old) (F.remaining file.new)) }
    ensures tried { IfErr result (λ error. error_kind error ≢ ErrorKind.Interrupted) }
{
    for _ in 0..u64::MAX {
        if let Some(answer) = settled(file.read(buffer)) {
            return answer;
        }
    }
    Err(io::Error::from(ErrorKind::Other))
}

// Reads to the end, or up to the byte behind the limit, and takes no more. Where the file tells its
// bytes, these are all that it had left. A file that is open is never told as absent.
pub(crate) fn read_whole<F: Read>(
    file: &mut F,
    alloc: Global,
    limit: u64,
) -> Result<Vec<u8>, ReadFail>
    ensures short { IfOk result (λ bytes. length bytes.items ≤ limit) }
    ensures whole { IfOk result (λ bytes.
        IfSome (F.remaining file.old) (λ told. bytes.items ≡ told)) }
    ensures long { IsErrOf result ReadFail.TooLong →
        IfSome (F.remaining file.old) (λ told. limit < length told) }
    ensures taken { (taken : List ℕ) × (length taken ≤ limit + 1)
        × Consumes (F.remaining file.old) (F.remaining file.new) taken }
    ensures there { IfErr result (λ fail. fail ≢ ReadFail.Absent) }
{
    let mut bytes = Vec::new(alloc);
    let mut chunk = [0u8; CHUNK];
    loop {
        let left = limit - bytes.len() as u64;
        let wanted = left.min(CHUNK as u64 - 1) as usize + 1;
        let count = match read_some(file, &mut chunk[..wanted]) {
            Ok(count) => count,
            Err(error) => return Err(broken_off(&error)),
        };
        if count == 0 {
            return Ok(bytes);
        }
        if count as u64 > left {
            return Err(ReadFail::TooLong);
        }
        bytes.extend_from_slice(&chunk[..count])?;
    }
}

// One write, tried again where it is interrupted. Taking nothing is a fault.
fn write_some<F: Write>(file: &mut F, bytes: &[u8]) -> io::Result<usize>
    ensures some { IfOk result (λ count. 0 < count) }
    ensures bound { IfOk result (λ count. count ≤ length bytes.now) }
    ensures taken { IfOk result (λ count.
        Appends (F.contents file.old) (F.contents file.new) (take count bytes.now)) }
    ensures kept { OnErr result (Keeps (F.contents file.old) (F.contents file.new)) }
    ensures tried { IfErr result (λ error. error_kind error ≢ ErrorKind.Interrupted) }
{
    for _ in 0..u64::MAX {
        match settled(file.write(bytes)) {
            Some(Ok(0)) => return Err(io::Error::from(ErrorKind::WriteZero)),
            Some(answer) => return answer,
            None => {}
        }
    }
    Err(io::Error::from(ErrorKind::Other))
}

// Writes all of the bytes. Memory that the system lacks for it is a fault, since the file is no
// longer as it was.
pub(crate) fn write_whole<F: Write>(file: &mut F, bytes: &[u8]) -> Result<(), WriteFail>
    ensures written { OnOk result (Appends (F.contents file.old) (F.contents file.new) bytes.now) }
    ensures front { OnErr result
        (TakesFront (F.contents file.old) (F.contents file.new) bytes.now) }
    ensures failed { IfErr result (λ fail. fail ≡ WriteFail.Failed) }
{
    let mut rest = bytes;
    while !rest.is_empty() {
        match write_some(file, rest) {
            Ok(count) => rest = &rest[count..],
            Err(_) => return Err(WriteFail::Failed),
        }
    }
    Ok(())
}
