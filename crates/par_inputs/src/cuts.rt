// Where bytes are cut.

ghost use Rattle.std.specs.Prelude.{◌≡◌, ◌+◌, ◌<◌, ◌≤◌, ◌==◌, Some, None, MatchOption, IfSome};
ghost use Rattle.std.specs.Prelude.{length, drop};
ghost use Rattle.std.specs.List.{position, position_or_len, before_first, after_first};
ghost use Rattle.par_inputs.specs.Entries.{cut_at};

// The position of the first of a byte, or none where it is not there.
fn position_of(text: &[u8], byte: u8) -> Option<usize>
    ensures position { result ≡ position (λ other. other == byte) text.now }
    ensures within { IfSome result (λ at. at < length text.now) }
{
    text.iter().position(|other| *other == byte)
}

// What stands before the first of a byte and what stands behind it, or none where it is not there.
pub fn cut_at(text: &[u8], byte: u8) -> Option<(&[u8], &[u8])>
    ensures { MatchOption result (cut_at byte text.now ≡ None)
        (λ halves. cut_at byte text.now ≡ Some (halves.0.now, halves.1.now)) }
{
    let Some(at) = position_of(text, byte) else {
        return None;
    };
    let (before, _) = text.split_at(at);
    let (_, behind) = text.split_at(at + 1);
    Some((before, behind))
}

// How many bytes stand before the first of a byte, or all where it is not there.
pub fn length_before(text: &[u8], byte: u8) -> usize
    ensures length { result ≡ position_or_len (λ other. other == byte) text.now }
    ensures within { result ≤ length text.now }
{
    text.iter().take_while(|other| **other != byte).count()
}

// What stands before the first space, and what is left from that space on.
pub fn first_word(text: &[u8]) -> (&[u8], &[u8])
    ensures word { result.0.now ≡ before_first (λ byte. byte == 32) text.now }
    ensures left { result.1.now ≡ drop (position_or_len (λ byte. byte == 32) text.now) text.now }
    ensures shorter { length result.1.now ≤ length text.now }
{
    text.split_at(length_before(text, b' '))
}

// The first line, without its end, and what stands behind that end.
pub fn first_line(bytes: &[u8]) -> (&[u8], &[u8])
    ensures line { result.0.now ≡ before_first (λ byte. byte == 10) bytes.now }
    ensures behind { result.1.now ≡ after_first (λ byte. byte == 10) bytes.now }
{
    let length = length_before(bytes, b'\n');
    let (line, behind) = bytes.split_at(length);
    match behind {
        [] => (line, behind),
        [_, rest @ ..] => (line, rest),
    }
}
