use par_base::memory::NoMemory;
use par_single::descriptor::{Signature, field_kind, field_said, method_signature};
use par_values::kind::Kind;
use par_worked::expect;
use std::alloc::Global;
use std::test::Fail;

// Whether a kind is that of objects of the class `Shop`.
fn is_shop(kind: &Kind) -> bool {
    match kind {
        Kind::Object(name) => name.bytes() == b"Shop".as_slice(),
        _ => false,
    }
}

fn is_number(kind: &Kind) -> bool {
    matches!(kind, Kind::Number)
}

fn says_a_shop(alloc: Global, text: &[u8]) -> Result<bool, NoMemory> {
    match field_kind(alloc, text)? {
        Some(kind) => {
            let is_shop = is_shop(&kind);
            drop(kind);
            Ok(is_shop)
        }
        None => Ok(false),
    }
}

fn says_a_number(alloc: Global, text: &[u8]) -> Result<bool, NoMemory> {
    match field_said(text) {
        Some(said) => {
            let kind = said.to_kind(alloc)?;
            let is_number = is_number(&kind);
            drop(kind);
            Ok(is_number)
        }
        None => Ok(false),
    }
}

// Whether a method takes a number and a shop, and gives a shop.
fn takes_and_gives(signature: &Signature) -> bool {
    match (signature.takes.as_slice(), &signature.gives) {
        ([first, second], Some(gives)) => is_number(first) && is_shop(second) && is_shop(gives),
        _ => false,
    }
}

fn is_signature(alloc: Global, text: &[u8]) -> Result<bool, NoMemory> {
    match method_signature(alloc, text)? {
        Some(signature) => {
            let takes = takes_and_gives(&signature);
            drop(signature);
            Ok(takes)
        }
        None => Ok(false),
    }
}

#[test]
fn descriptors_are_read(rt: HostRuntime) -> Result<(), Fail> {
    expect(says_a_number(rt.alloc(), b"Z")?, "a boolean")?;
    expect(says_a_shop(rt.alloc(), b"LShop;")?, "a shop")?;
    expect(is_signature(rt.alloc(), b"(ILShop;)LShop;")?, "a method")
}
