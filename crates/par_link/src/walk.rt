//! The walk through code, and where it stops.

ghost use Rattle.std.specs.Prelude.{◌≡◌, ◌≤◌, length, drop};
ghost use Rattle.par_link.specs.Stops.{left, is_unlisted, is_unsupported, is_cut, stop_at, stop_in};
ghost use Rattle.par_link.specs.Stops.{first_stop};

use par_inputs::par_instr::{InstrError, decode};
use par_single::par_class::file::{CodeAttr, MethodFile};

/// The offset at which the walk through code stops, its length where it comes to the end.
fn stop(code: &[u8]) -> usize
    ensures within { result ≤ length code.now }
    ensures left { drop result code.now ≡ left code.now }
{
    let mut at = 0;
    while at < code.len() {
        match decode(code, at) {
            Ok((_, next)) => at = next,
            Err(_) => return at,
        }
    }
    at
}

/// Whether a byte that is no listed opcode stands at an offset.
fn is_unlisted(code: &[u8], at: usize) -> bool
    requires { at ≤ length code.now }
    ensures { result ≡ is_unlisted (drop at code.now) }
{
    match decode(code, at) {
        Ok(_) => false,
        Err(error) => is_unsupported(error),
    }
}

fn is_unsupported(error: InstrError) -> bool
    ensures { result ≡ is_unsupported error }
{
    matches!(error, InstrError::Unsupported(_))
}

/// Whether a listed opcode stands at an offset, in code whose walk stops there.
fn is_cut(code: &[u8], at: usize) -> bool
    requires { at ≤ length code.now }
    ensures { result ≡ is_cut (drop at code.now) }
{
    at < code.len() && !is_unlisted(code, at)
}

/// The offset at which the walk through code stops at an opcode that is not listed.
fn unlisted_at(code: &CodeAttr) -> Option<usize>
    ensures { result ≡ stop_at is_unlisted code.now }
{
    let bytes = code.code.as_slice();
    let at = stop(bytes);
    is_unlisted(bytes, at).then_some(at)
}

/// The offset at which the walk through code stops at an opcode whose operands run past the end.
fn cut_at(code: &CodeAttr) -> Option<usize>
    ensures { result ≡ stop_at is_cut code.now }
{
    let bytes = code.code.as_slice();
    let at = stop(bytes);
    is_cut(bytes, at).then_some(at)
}

fn unlisted_in(method: &MethodFile) -> Option<usize>
    ensures { result ≡ stop_in is_unlisted method.now }
{
    match &method.code {
        Some(code) => unlisted_at(code),
        None => None,
    }
}

fn cut_in(method: &MethodFile) -> Option<usize>
    ensures { result ≡ stop_in is_cut method.now }
{
    match &method.code {
        Some(code) => cut_at(code),
        None => None,
    }
}

/// The offset of the opcode that is not listed in the first method whose walk stops at one.
pub(crate) fn first_unlisted(methods: &[MethodFile]) -> Option<usize>
    ensures { result ≡ first_stop is_unlisted methods.now }
{
    for method in methods {
        match unlisted_in(method) {
            Some(at) => return Some(at),
            None => {}
        }
    }
    None
}

/// The offset of the opcode whose operands run past the end in the first method whose walk stops
/// at one.
pub(crate) fn first_cut(methods: &[MethodFile]) -> Option<usize>
    ensures { result ≡ first_stop is_cut methods.now }
{
    for method in methods {
        match cut_in(method) {
            Some(at) => return Some(at),
            None => {}
        }
    }
    None
}
