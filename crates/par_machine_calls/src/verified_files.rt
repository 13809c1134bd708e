use crate::linked::linked;
use par_framed_program::program_frames;
use par_link::Linked;
use par_verify::{verify, verify_linked};
use par_worked::expect;
use std::alloc::Global;
use std::test::Fail;

// A class `Shop` of version 51. Its `main` jumps to offset 5, of which a frame is told.
const SHOP: &[u8] = b"\
    \xca\xfe\xba\xbe\0\0\03\0\x09\x01\0\x04Shop\x07\0\x01\x01\0\x10java/lang/Object\x07\0\x03\
    \x01\0\x04main\x01\0\x03()V\x01\0\x04Code\x01\0\x0dStackMapTable\
    \0\x01\0\x02\0\x04\0\0\0\0\0\x01\
    \0\x09\0\x05\0\x06\0\x01\0\x07\0\0\0\x1b\0\x01\0\0\0\0\0\x06\
    \x03W\xa7\0\x03\xb1\0\0\0\x01\0\x08\0\0\0\x03\0\x01\x05\0\0";

fn check_verified(alloc: Global, linked: &Linked) -> Result<(), Fail> {
    let Ok(frames) = program_frames(alloc, linked) else {
        return Err(Fail::new("all methods have frames"));
    };
    let with_these = verify(alloc, linked, &frames).is_ok();
    let with_theirs = verify_linked(alloc, linked).is_ok();
    drop(frames);
    expect(with_these, "with these")?;
    expect(with_theirs, "with those of the files")
}

#[test]
fn files_are_verified_with_their_frames(rt: HostRuntime) -> Result<(), Fail> {
    let linked = linked(rt.alloc(), SHOP)?;
    let checked = check_verified(rt.alloc(), &linked);
    drop(linked);
    checked
}
