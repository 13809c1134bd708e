// The reserved words and the signs with their numbers, to look a text up in.

ghost use Rattle.std.specs.Prelude.{◌≡◌, find, length};
ghost use Rattle.std.specs.Option.{option_map};
ghost use Rattle.std.specs.Str.{bytes_eq};
ghost use Rattle.par_lexer.specs.Tables.{words, rows};
ghost use Rattle.par_lexer.specs.Pieces.{begins, longest_sign};

use crate::{sign, word};

// The reserved words.
pub const WORDS: [(u8, &[u8]); 34] = [
    (word::ACTOR, b"actor"),
    (word::LOCK, b"lock"),
    (word::POLICY, b"policy"),
    (word::CLASS, b"class"),
    (word::EXTENDS, b"extends"),
    (word::EXCEPTION, b"Exception"),
    (word::INPUT, b"input"),
    (word::OUTPUT, b"output"),
    (word::INT, b"int"),
    (word::BOOLEAN, b"boolean"),
    (word::VOID, b"void"),
    (word::STATIC, b"static"),
    (word::NOTNULL, b"notnull"),
    (word::IF, b"if"),
    (word::ELSE, b"else"),
    (word::WHILE, b"while"),
    (word::TRY, b"try"),
    (word::CATCH, b"catch"),
    (word::RETURN, b"return"),
    (word::BREAK, b"break"),
    (word::CONTINUE, b"continue"),
    (word::THROW, b"throw"),
    (word::THROWS, b"throws"),
    (word::NEW, b"new"),
    (word::THIS, b"this"),
    (word::NULL, b"null"),
    (word::TRUE, b"true"),
    (word::FALSE, b"false"),
    (word::OPEN, b"open"),
    (word::CLOSE, b"close"),
    (word::BOTTOM, b"bottom"),
    (word::TOP, b"top"),
    (word::WHEN, b"when"),
    (word::UNDERSCORE, b"_"),
];

// The signs, longer ones first: the first that some bytes begin with is the longest.
pub const SIGNS: [(u8, &[u8]); 31] = [
    (sign::SHIFT_RIGHT_ZERO, b">>>"),
    (sign::EQUAL, b"=="),
    (sign::NOT_EQUAL, b"!="),
    (sign::AT_MOST, b"<="),
    (sign::AT_LEAST, b">="),
    (sign::SHIFT_LEFT, b"<<"),
    (sign::SHIFT_RIGHT, b">>"),
    (sign::AND_ALSO, b"&&"),
    (sign::OR_ELSE, b"||"),
    (sign::LEFT_BRACE, b"{"),
    (sign::RIGHT_BRACE, b"}"),
    (sign::LEFT_PAREN, b"("),
    (sign::RIGHT_PAREN, b")"),
    (sign::SEMICOLON, b";"),
    (sign::COMMA, b","),
    (sign::DOT, b"."),
    (sign::QUESTION, b"?"),
    (sign::COLON, b":"),
    (sign::BANG, b"!"),
    (sign::TILDE, b"~"),
    (sign::PLUS, b"+"),
    (sign::MINUS, b"-"),
    (sign::STAR, b"*"),
    (sign::SLASH, b"/"),
    (sign::PERCENT, b"%"),
    (sign::ASSIGN, b"="),
    (sign::LESS, b"<"),
    (sign::GREATER, b">"),
    (sign::AND, b"&"),
    (sign::OR, b"|"),
    (sign::XOR, b"^"),
];

// Whether both texts are the same. Most differ in their lengths.
fn is_same(one: &[u8], other: &[u8]) -> bool
    ensures { result ≡ bytes_eq one.now other.now }
{
    one.len() == other.len() && one == other
}

// Whether the bytes begin with the text. Most differ in their first byte.
fn begins(bytes: &[u8], text: &[u8]) -> bool
    ensures { result ≡ begins text.now bytes.now }
{
    if !text.is_empty() && !bytes.is_empty() && bytes[0] != text[0] {
        return false;
    }
    bytes.starts_with(text)
}

// The number of the first row with exactly this text.
fn number_of(table: &[(u8, &[u8])], text: &[u8]) -> Option<u8>
    ensures { result
        ≡ option_map (λ row. row.0) (find (λ row. bytes_eq row.1 text.now) (rows table.now)) }
{
    for (number, spelling) in table {
        if is_same(spelling, text) {
            return Some(*number);
        }
    }
    None
}

// The number and the length of the first row with whose text the bytes begin.
fn first_begun(table: &[(u8, &[u8])], bytes: &[u8]) -> Option<(u8, usize)>
    ensures { let first = find (λ row. begins row.1 bytes.now) (rows table.now) in
        result ≡ option_map (λ row. (row.0, length row.1)) first }
{
    for (number, spelling) in table {
        if begins(bytes, spelling) {
            return Some((*number, spelling.len()));
        }
    }
    None
}

// The number of a reserved word, or none where the text is no word.
#[tactic(auto, unfolding(crate::specs::Tables::words))]
pub fn word_of(text: &[u8]) -> Option<u8>
    ensures { result ≡ option_map (λ row. row.0) (find (λ row. bytes_eq row.1 text.now) words) }
{
    number_of(&WORDS, text)
}

// The number and the length of the longest sign that the bytes begin with.
#[tactic(auto, unfolding(crate::specs::Tables::signs))]
pub fn sign_of(bytes: &[u8]) -> Option<(u8, usize)>
    ensures { result ≡ option_map (λ row. (row.0, length row.1)) (longest_sign bytes.now) }
{
    first_begun(&SIGNS, bytes)
}
