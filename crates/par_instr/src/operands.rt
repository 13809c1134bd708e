ghost use Rattle.std.specs.Prelude.{◌≡◌, length};
ghost use Rattle.std.specs.Int.{w8, w16, cast_signed};
ghost use Rattle.par_instr.specs.Decoding.{pair};

pub(crate) fn signed_byte(byte: u8) -> i8
    ensures { result ≡ cast_signed w8 byte }
{
    byte.cast_signed()
}

// A big-endian index of the constant pool.
pub(crate) fn unsigned_pair(bytes: &[u8]) -> u16
    requires { length bytes.now ≡ 2 }
    ensures { result ≡ pair bytes.now }
{
    u16::from_be_bytes([bytes[0], bytes[1]])
}

// A big-endian signed number.
pub(crate) fn signed_pair(bytes: &[u8]) -> i16
    requires { length bytes.now ≡ 2 }
    ensures { result ≡ cast_signed w16 (pair bytes.now) }
{
    i16::from_be_bytes([bytes[0], bytes[1]])
}
