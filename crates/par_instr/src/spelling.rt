ghost use Rattle.std.specs.Prelude.{◌≡◌, ℕ, ◌-◌, ◌<◌, ◌≤◌, ◌↔◌, ◌∷◌, ◌++◌, length, drop, OnOk};
ghost use Rattle.std.specs.Prelude.{OnErr, IfOk, IsErrOf, IsTrue};
ghost use Rattle.par_instr.specs.Decoding.{decoded_at};
ghost use Rattle.par_instr.specs.Spelling.{size, spelling, has_spelling, effect, IsSpelled, Stands};
ghost use Rattle.par_instr.specs.Spelling.{IsUnlisted, IsCut};

use crate::instr::{Instr, InstrError};
use crate::numbers::Numbers;
use crate::opcodes::{blank, fill, row_of};
use par_base::memory::NoMemory;

/// The instruction at an offset of the code, and the offset behind it.
///
/// Unsupported comes before Cut: it looks at the opcode alone.
pub fn decode(code: &[u8], at: usize) -> Result<(Instr, usize), InstrError>
    requires { at ≤ length code.now }
    ensures found { IfOk result (λ r. Stands code.now at r.0 r.1) }
    ensures whole { (i : Instr) (next : ℕ) → Stands code.now at i next → result ≡ Ok (i, next) }
    ensures unsupported { (b : ℕ) →
        IsErrOf result (InstrError.Unsupported b) ↔ IsUnlisted (drop at code.now) b }
    ensures cut { IsErrOf result InstrError.Cut ↔ IsCut (drop at code.now) }
    ensures decoded { IfOk result (λ r.
        decoded_at code.now at ≡ Some (record { instr = r.0; size = r.1 - at })) }
    ensures within { IfOk result (λ r. (at < r.1) × (r.1 ≤ length code.now)) }
    ensures nothing { OnErr result (decoded_at code.now at ≡ None) }
{
    let Some((&op, behind)) = code[at..].split_first() else {
        return Err(InstrError::Cut);
    };
    let Some(blank) = blank(op) else {
        return Err(InstrError::Unsupported(op));
    };
    let size = row_of(&blank).numbers.size();
    let Some(operands) = behind.get(..size) else {
        return Err(InstrError::Cut);
    };
    Ok((fill(blank, operands), at + 1 + size))
}

impl Numbers {
    // How many bytes of operands follow the opcode.
    fn size(self) -> usize
        ensures { result ≡ size self }
    {
        match self {
            Numbers::Alone | Numbers::Constant(_) | Numbers::Short(_) => 0,
            Numbers::Byte(_) | Numbers::SignedByte(_) => 1,
            Numbers::Index(_) | Numbers::SignedPair(_) => 2,
            Numbers::ByteAndSigned(_, _) | Numbers::Test(_, _) => 2,
        }
    }
}

/// Adds the one spelling of the instruction.
///
/// It has one where the number of an `Iconst` is -1 to 5, that of a `Short` one 0 to 3 and the
/// first one of `If` and `IfIcmp` 0 to 5.
pub fn encode(instr: &Instr, out: &mut Vec<u8>) -> Result<(), NoMemory>
    requires { IsTrue (has_spelling instr.now) }
    ensures ok { OnOk result (out.new.items ≡ out.old.items ++ spelling instr.now) }
    ensures spelled { OnOk result (IsSpelled (spelling instr.now) instr.now) }
    ensures err { OnErr result (out.new.items ≡ out.old.items) }
{
    let row = row_of(instr);
    let first = row.first;
    match row.numbers {
        Numbers::Alone => append(out, &[first]),
        Numbers::Constant(number) => append(out, &[first + (number + 1) as u8]),
        Numbers::Short(number) => append(out, &[first + number]),
        Numbers::Byte(number) => append(out, &[first, number]),
        Numbers::SignedByte(number) => append(out, &[first, number.cast_unsigned()]),
        Numbers::Index(number) => append_pair(out, first, number.to_be_bytes()),
        Numbers::SignedPair(number) => append_pair(out, first, number.to_be_bytes()),
        Numbers::ByteAndSigned(number, by) => append(out, &[first, number, by.cast_unsigned()]),
        Numbers::Test(test, number) => append_pair(out, first + test, number.to_be_bytes()),
    }
}

fn append(out: &mut Vec<u8>, bytes: &[u8]) -> Result<(), NoMemory>
    ensures ok { OnOk result (out.new.items ≡ out.old.items ++ bytes.now) }
    ensures err { OnErr result (out.new.items ≡ out.old.items) }
{
    out.extend_from_slice(bytes)?;
    Ok(())
}

// Adds an opcode and two bytes of operands.
fn append_pair(out: &mut Vec<u8>, op: u8, bytes: [u8; 2]) -> Result<(), NoMemory>
    ensures ok { OnOk result (out.new.items ≡ out.old.items ++ (op ∷ bytes)) }
    ensures err { OnErr result (out.new.items ≡ out.old.items) }
{
    let [high, low] = bytes;
    append(out, &[op, high, low])
}

/// How much longer the operand list is behind the instruction, where it throws nothing.
///
/// None for the invokes and the instructions on fields, whose change depends on a descriptor. Of an
/// athrow and of the returns, minus the number of operands that they take.
pub fn stack_effect(instr: &Instr) -> Option<i8>
    ensures { result ≡ effect instr.now }
{
    row_of(instr).change
}
