// How far something reaches from the head of some bytes.

ghost use Rattle.std.specs.Prelude.{◌≡◌, ◌≤◌, IfSome, length};
ghost use Rattle.std.specs.List.{prefix_len};
ghost use Rattle.par_base.specs.Names.{is_digit, goes_on};
ghost use Rattle.par_lexer.specs.Pieces.{line_length, through_close};

use par_base::letters;

// How many letters, digits and `_` there are.
pub fn name_length(text: &[u8]) -> usize
    ensures run { result ≡ prefix_len goes_on text.now }
    ensures within { result ≤ length text.now }
{
    text.iter()
        .take_while(|byte| letters::goes_on(**byte))
        .count()
}

// How many decimal digits there are.
pub fn digits_length(text: &[u8]) -> usize
    ensures run { result ≡ prefix_len is_digit text.now }
    ensures within { result ≤ length text.now }
{
    text.iter()
        .take_while(|byte| letters::is_digit(**byte))
        .count()
}

// How many bytes stand before the end of the line.
pub fn line_length(text: &[u8]) -> usize
    ensures run { result ≡ line_length text.now }
    ensures within { result ≤ length text.now }
{
    text.iter().take_while(|byte| **byte != b'\n').count()
}

// How many bytes there are up to and with the first `*/`.
pub fn through_close(text: &[u8]) -> Option<usize>
    ensures found { result ≡ through_close text.now }
    ensures within { IfSome result (λ n. n ≤ length text.now) }
{
    for at in 0..text.len() {
        let (_, rest) = text.split_at(at);
        if rest.starts_with(b"*/") {
            return Some(at + 2);
        }
    }
    None
}
