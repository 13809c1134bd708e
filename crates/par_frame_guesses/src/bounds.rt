//! What bounds the work of a guess, where code is made to take much.

use crate::method::Method;
use par_instr::Instr;
use par_link::Named;
use par_single::member::text_at;

/// How many bytes of descriptors are read for each byte of code: an argument is pushed by one, and
/// spelled by at most 66.
const SPELLED: usize = 72;

/// How often handlers are looked at, before no more are.
const MOST_LOOKS: usize = 16777216;

/// How many ways to handlers are kept, before no more are.
const MOST_THROWS: usize = 1048576;

/// How much may still be looked at.
#[derive(Drop)]
pub(crate) struct Bounds {
    spelled: usize,
    looks: usize,
    throws: usize,
}

/// The index of what an instruction calls.
fn called(instr: Instr) -> Option<u16> {
    match instr {
        Instr::Invokevirtual(index) => Some(index),
        Instr::Invokespecial(index) => Some(index),
        Instr::Invokestatic(index) => Some(index),
        _ => None,
    }
}

/// How many bytes spell the arguments of what an instruction calls.
fn spelled(method: &Method, instr: Instr) -> usize {
    let Some(index) = called(instr) else {
        return 0;
    };
    let Named::Method(callee) = method.linked.named(method.class, index) else {
        return 0;
    };
    let Some(file) = method.linked.file(callee.class) else {
        return 0;
    };
    match file.methods.get(callee.place as usize) {
        Some(callee) => text_at(file.pool.entries.as_slice(), callee.descriptor).len(),
        None => 0,
    }
}

impl Bounds {
    /// Nothing is looked at.
    pub(crate) fn new() -> Bounds {
        Bounds {
            spelled: 0,
            looks: MOST_LOOKS,
            throws: MOST_THROWS,
        }
    }

    /// Whether it may be asked what an instruction of so many bytes takes, behind those before it.
    pub(crate) fn may_ask(&mut self, method: &Method, instr: Instr, bytes: usize) -> bool {
        self.spelled = self.spelled.saturating_add(bytes.saturating_mul(SPELLED));
        match self.spelled.checked_sub(spelled(method, instr)) {
            Some(left) => {
                self.spelled = left;
                true
            }
            None => false,
        }
    }

    /// Whether so many handlers may be looked at.
    pub(crate) fn may_look(&mut self, handlers: usize) -> bool {
        match self.looks.checked_sub(handlers) {
            Some(left) => {
                self.looks = left;
                true
            }
            None => false,
        }
    }

    /// Whether a way to a handler may be kept.
    pub(crate) fn may_throw(&mut self) -> bool {
        match self.throws.checked_sub(1) {
            Some(left) => {
                self.throws = left;
                true
            }
            None => false,
        }
    }
}
