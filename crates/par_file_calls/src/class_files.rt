ghost use Rattle.std.specs.Prelude.{◌≤◌, length};

use par_class::{read_class, write_class};
use par_pool::error::ClassError;
use par_worked::expect;
use std::alloc::Global;
use std::test::Fail;

// A class `Shop` with a static method `main` of no result, whose code is pop and return.
const SHOP: &[u8] = b"\
    \xCA\xFE\xBA\xBE\0\0\0\x31\0\x08\x01\0\x04Shop\x07\0\x01\x01\0\x10java/lang/Object\x07\0\x03\
    \x01\0\x04main\x01\0\x03()V\x01\0\x04Code\
    \0\x31\0\x02\0\x04\0\0\0\0\0\x01\
    \0\x09\0\x05\0\x06\0\x01\0\x07\0\0\0\x0e\0\x01\0\0\0\0\0\x02\
    \x57\xb1\0\0\0\0\0\0";

fn again(alloc: Global, bytes: &[u8]) -> Result<Vec<u8>, ClassError>
    requires { length bytes.now ≤ 1048576 }
{
    let file = read_class(alloc, bytes)?;
    let again = write_class(alloc, &file);
    drop(file);
    Ok(again?)
}

fn count_methods(alloc: Global) -> Result<usize, ClassError> {
    let file = read_class(alloc, SHOP)?;
    let many = file.methods.len();
    drop(file);
    Ok(many)
}

// Whether the class file has one method, and its bytes are written again.
fn is_written_again(alloc: Global) -> Result<bool, ClassError> {
    let has_one = count_methods(alloc)? == 1;
    let bytes = again(alloc, SHOP)?;
    let are_same = bytes.as_slice() == SHOP;
    drop(bytes);
    Ok(has_one && are_same)
}

#[test]
fn a_class_is_read_and_written(rt: HostRuntime) -> Result<(), Fail> {
    expect(is_written_again(rt.alloc())?, "the bytes are written again")
}

fn is_refused(alloc: Global, bytes: &[u8], error: ClassError) -> bool
    requires { length bytes.now ≤ 1048576 }
{
    match read_class(alloc, bytes) {
        Ok(_) => false,
        Err(found) => found == error,
    }
}

#[test]
fn what_is_cut_off_is_refused(rt: HostRuntime) -> Result<(), Fail> {
    let cut = is_refused(rt.alloc(), &SHOP[..32], ClassError::Cut(32));
    expect(cut, "32 bytes")?;
    let other = is_refused(rt.alloc(), b"\0\xFE\xBA\xBE", ClassError::Magic);
    expect(other, "another magic number")
}
