ghost use Rattle.std.specs.Prelude.{◌≡◌};
ghost use Rattle.par_base.specs.Names.{is_letter, is_digit};
ghost use Rattle.par_lexer.specs.Blanks.{is_blank, first_is};

use par_base::letters::{is_digit, is_letter};

// A blank of ASCII.
fn is_blank(byte: u8) -> bool
    ensures { result ≡ is_blank byte }
{
    matches!(byte, b'\t' | b'\n' | 12 | b'\r' | b' ')
}

// Whether a blank comes first.
pub fn begins_gap(bytes: &[u8]) -> bool
    ensures { result ≡ first_is is_blank bytes.now }
{
    bytes.first().is_some_and(|byte| is_blank(*byte))
}

// Whether a letter or `_` comes first.
pub fn begins_name(bytes: &[u8]) -> bool
    ensures { result ≡ first_is is_letter bytes.now }
{
    bytes.first().is_some_and(|byte| is_letter(*byte))
}

// Whether a digit comes first.
pub fn begins_number(bytes: &[u8]) -> bool
    ensures { result ≡ first_is is_digit bytes.now }
{
    bytes.first().is_some_and(|byte| is_digit(*byte))
}
