ghost use Rattle.std.specs.Prelude.{◌≡◌, ◌<◌, length, IsTrue};
ghost use Rattle.par_instr.specs.Decoding.{blank_of, read, whole};
ghost use Rattle.par_instr.specs.Laws.{AreBytes};
ghost use Rattle.par_instr.specs.Spelling.{opcode_row, row, place, size, numbers_of, has_spelling};
ghost use Rattle.par_instr.specs.Spelling.{NumbersFit};

use crate::instr::Instr;
use crate::numbers::Numbers;
use crate::operands::{signed_byte, signed_pair, unsigned_pair};

// The table, a line for the neighbouring opcodes of a variant: the first of them, how the numbers
// are written, the variant, the change of the operand list, and a None for each byte behind them
// that is no opcode.
macro_rules! opcodes {
    ($then:ident $($given:tt)*) => {
        $then! { $($given)*
            [0x01 Alone AconstNull (Some(1))]
            [0x02 Constant Iconst (Some(1)) None None None None None None None]
            [0x10 SignedByte Bipush (Some(1))]
            [0x11 SignedPair Sipush (Some(1))]
            [0x12 Byte Ldc (Some(1))]
            [0x13 Index LdcW (Some(1)) None]
            [0x15 Byte Iload (Some(1)) None None None]
            [0x19 Byte Aload (Some(1))]
            [0x1a Short IloadShort (Some(1)) None None None None None None None None None None
                None None]
            [0x2a Short AloadShort (Some(1)) None None None None None None None None]
            [0x36 Byte Istore (Some(-1)) None None None]
            [0x3a Byte Astore (Some(-1))]
            [0x3b Short IstoreShort (Some(-1)) None None None None None None None None None None
                None None]
            [0x4b Short AstoreShort (Some(-1)) None None None None None None None None]
            [0x57 Alone Pop (Some(-1)) None]
            [0x59 Alone Dup (Some(1)) None None None None None None]
            [0x60 Alone Iadd (Some(-1)) None None None]
            [0x64 Alone Isub (Some(-1)) None None None]
            [0x68 Alone Imul (Some(-1)) None None None]
            [0x6c Alone Idiv (Some(-1)) None None None]
            [0x70 Alone Irem (Some(-1)) None None None]
            [0x74 Alone Ineg (Some(0)) None None None]
            [0x78 Alone Ishl (Some(-1)) None]
            [0x7a Alone Ishr (Some(-1)) None]
            [0x7c Alone Iushr (Some(-1)) None]
            [0x7e Alone Iand (Some(-1)) None]
            [0x80 Alone Ior (Some(-1)) None]
            [0x82 Alone Ixor (Some(-1)) None]
            [0x84 ByteAndSigned Iinc (Some(0)) None None None None None None None None None None
                None None None None None None None None None None]
            [0x99 Test If (Some(-1))]
            [0x9f Test IfIcmp (Some(-2))]
            [0xa5 SignedPair IfAcmpeq (Some(-2))]
            [0xa6 SignedPair IfAcmpne (Some(-2))]
            [0xa7 SignedPair Goto (Some(0)) None None None None]
            [0xac Alone Ireturn (Some(-1)) None None None]
            [0xb0 Alone Areturn (Some(-1))]
            [0xb1 Alone Return (Some(0))]
            [0xb2 Index Getstatic (None)]
            [0xb3 Index Putstatic (None)]
            [0xb4 Index Getfield (None)]
            [0xb5 Index Putfield (None)]
            [0xb6 Index Invokevirtual (None)]
            [0xb7 Index Invokespecial (None)]
            [0xb8 Index Invokestatic (None) None None]
            [0xbb Index New (Some(1)) None None None]
            [0xbf Alone Athrow (Some(-1)) None None None None None None]
            [0xc6 SignedPair Ifnull (Some(-1))]
            [0xc7 SignedPair Ifnonnull (Some(-1)) None None None None None None None None None
                None None None None None None None None None None None None None None None None
                None None None None None None None None None None None None None None None None
                None None None None None None None None None None None None None None None]
        }
    };
}

// An entry for each byte, in their order: the instruction of an opcode, with numbers of 0 in place
// of those behind it.
macro_rules! entries {
    ([$($entry:tt)*]) => { [$($entry)*] };
    ([$($entry:tt)*]
        [$first:literal Alone $name:ident ($($change:tt)*) $($none:ident)*] $($line:tt)*) => {
        entries!([$($entry)* Some(Instr::$name), $($none,)*] $($line)*)
    };
    ([$($entry:tt)*]
        [$first:literal Constant $name:ident ($($change:tt)*) $($none:ident)*] $($line:tt)*) => {
        entries!([$($entry)*
            Some(Instr::$name(-1)), Some(Instr::$name(0)), Some(Instr::$name(1)),
            Some(Instr::$name(2)), Some(Instr::$name(3)), Some(Instr::$name(4)),
            Some(Instr::$name(5)), $($none,)*] $($line)*)
    };
    ([$($entry:tt)*]
        [$first:literal Short $name:ident ($($change:tt)*) $($none:ident)*] $($line:tt)*) => {
        entries!([$($entry)*
            Some(Instr::$name(0)), Some(Instr::$name(1)), Some(Instr::$name(2)),
            Some(Instr::$name(3)), $($none,)*] $($line)*)
    };
    ([$($entry:tt)*]
        [$first:literal ByteAndSigned $name:ident ($($change:tt)*) $($none:ident)*]
        $($line:tt)*) => {
        entries!([$($entry)* Some(Instr::$name(0, 0)), $($none,)*] $($line)*)
    };
    ([$($entry:tt)*]
        [$first:literal Test $name:ident ($($change:tt)*) $($none:ident)*] $($line:tt)*) => {
        entries!([$($entry)*
            Some(Instr::$name(0, 0)), Some(Instr::$name(1, 0)), Some(Instr::$name(2, 0)),
            Some(Instr::$name(3, 0)), Some(Instr::$name(4, 0)), Some(Instr::$name(5, 0)),
            $($none,)*] $($line)*)
    };
    ([$($entry:tt)*]
        [$first:literal $kind:ident $name:ident ($($change:tt)*) $($none:ident)*] $($line:tt)*) => {
        entries!([$($entry)* Some(Instr::$name(0)), $($none,)*] $($line)*)
    };
}

const ENTRIES: &[Option<Instr>] = &opcodes!(entries [None,]);

/// The instruction of an opcode, with numbers of 0 in place of those behind it.
pub(crate) fn blank(op: u8) -> Option<Instr>
    ensures { result ≡ blank_of op (opcode_row op) }
{
    ENTRIES[op as usize]
}

/// What the table says of an instruction.
#[derive(Clone, Copy)]
pub(crate) struct Row {
    /// The first opcode of its variant.
    pub(crate) first: u8,
    pub(crate) numbers: Numbers,
    /// The change of the operand list.
    pub(crate) change: Option<i8>,
}

// The row of an instruction.
macro_rules! rows {
    ($instr:ident
        $([$first:literal $kind:ident $name:ident ($($change:tt)*) $($none:ident)*])*) => {
        match $instr {
            $(form!($kind $name x y) => Row {
                first: $first,
                numbers: numbers!($kind x y),
                change: $($change)*,
            },)*
        }
    };
}

// An instruction's pattern, whose numbers are bound to the names.
macro_rules! form {
    (Alone $name:ident $x:ident $y:ident) => { Instr::$name };
    (ByteAndSigned $name:ident $x:ident $y:ident) => { Instr::$name($x, $y) };
    (Test $name:ident $x:ident $y:ident) => { Instr::$name($x, $y) };
    ($kind:ident $name:ident $x:ident $y:ident) => { Instr::$name($x) };
}

// How these numbers are written.
macro_rules! numbers {
    (Alone $x:ident $y:ident) => { Numbers::Alone };
    (ByteAndSigned $x:ident $y:ident) => { Numbers::ByteAndSigned(*$x, *$y) };
    (Test $x:ident $y:ident) => { Numbers::Test(*$x, *$y) };
    ($kind:ident $x:ident $y:ident) => { Numbers::$kind(*$x) };
}

pub(crate) fn row_of(instr: &Instr) -> Row
    ensures first { result.first ≡ (row instr.now).first }
    ensures low { result.first < 200 }
    ensures numbers { result.numbers ≡ numbers_of instr.now }
    ensures fit { NumbersFit instr.now }
    ensures change { result.change ≡ (row instr.now).change }
{
    opcodes!(rows instr)
}

// The instruction with these operand bytes in place of its own.
macro_rules! filled {
    ($blank:ident $bytes:ident
        $([$first:literal $kind:ident $name:ident ($($change:tt)*) $($none:ident)*])*) => {
        match $blank {
            $(kept!($kind $name x) => filled_by!($kind $name x $bytes),)*
        }
    };
}

// An instruction's pattern, whose number in the opcode is bound to the name.
macro_rules! kept {
    (Alone $name:ident $x:ident) => { Instr::$name };
    (Constant $name:ident $x:ident) => { Instr::$name($x) };
    (Short $name:ident $x:ident) => { Instr::$name($x) };
    (Test $name:ident $x:ident) => { Instr::$name($x, _) };
    (ByteAndSigned $name:ident $x:ident) => { Instr::$name(_, _) };
    ($kind:ident $name:ident $x:ident) => { Instr::$name(_) };
}

macro_rules! filled_by {
    (Alone $name:ident $x:ident $bytes:ident) => { Instr::$name };
    (Constant $name:ident $x:ident $bytes:ident) => { Instr::$name($x) };
    (Short $name:ident $x:ident $bytes:ident) => { Instr::$name($x) };
    (Byte $name:ident $x:ident $bytes:ident) => { Instr::$name($bytes[0]) };
    (SignedByte $name:ident $x:ident $bytes:ident) => { Instr::$name(signed_byte($bytes[0])) };
    (Index $name:ident $x:ident $bytes:ident) => { Instr::$name(unsigned_pair($bytes)) };
    (SignedPair $name:ident $x:ident $bytes:ident) => { Instr::$name(signed_pair($bytes)) };
    (ByteAndSigned $name:ident $x:ident $bytes:ident) => {
        Instr::$name($bytes[0], signed_byte($bytes[1]))
    };
    (Test $name:ident $x:ident $bytes:ident) => { Instr::$name($x, signed_pair($bytes)) };
}

/// The instruction whose opcode is that of a blank one, with these operand bytes.
pub(crate) fn fill(blank: Instr, operands: &[u8]) -> Instr
    requires has { IsTrue (has_spelling blank) }
    requires size { length operands.now ≡ size (numbers_of blank) }
    ensures bytes { AreBytes operands.now }
    ensures filled { result
        ≡ whole (read (row blank).form (place (numbers_of blank)) operands.now) }
{
    opcodes!(filled blank operands)
}
