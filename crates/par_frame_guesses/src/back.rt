//! The offsets to which code goes back: only their frames are needed twice.

ghost use Rattle.std.specs.Prelude.{◌≡◌, ◌≤◌, true, false, length, slice_set, slice_index_or};
ghost use Rattle.par_frame_guesses.specs.Methods.{code_in};

use crate::method::Method;
use par_base::memory::NoMemory;
use par_instr::decode;
use par_starts::distance;
use std::alloc::Global;

/// Marks an offset, if it is one of those that are told apart.
pub fn mark(marks: &mut [bool], at: usize)
    ensures { marks.new ≡ slice_set marks.old at true }
{
    if at < marks.len() {
        marks[at] = true;
    }
}

/// Whether an offset is marked.
pub fn is_marked(marks: &[bool], at: usize) -> bool
    ensures { result ≡ slice_index_or marks.now at false }
{
    match marks.get(at) {
        Some(mark) => *mark,
        None => false,
    }
}

/// Marks where the instruction at an offset goes back to, if it does.
fn mark_goal(bytes: &[u8], marks: &mut [bool], at: usize)
    requires { at ≤ length bytes.now }
{
    let Ok((instr, _)) = decode(bytes, at) else {
        return;
    };
    let back = distance(instr).min(0).unsigned_abs() as usize;
    if back > 0 && back <= at {
        mark(marks, at - back);
    }
}

/// Of each offset whether a jump of the code goes back to it.
pub fn back_offsets(alloc: Global, method: &Method) -> Result<Vec<bool>, NoMemory>
    requires { length (code_in method.now).code ≤ 65535 }
{
    let bytes = method.code.code.as_slice();
    let mut marks = vec![in alloc; false; bytes.len()]?;
    for at in 0..bytes.len() {
        if method.starts.has(at as u32) {
            mark_goal(bytes, &mut marks, at);
        }
    }
    Ok(marks)
}
