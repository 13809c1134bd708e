use par_lexer::list::List;
use par_lexer::memory::NoMemory;
use par_lexer::name::Name;
use par_lexer::token::{Kind, LexError, Token};
use par_lexer::{lex, place_of, sign, word};
use par_worked::expect;
use std::alloc::Global;
use std::test::Fail;

// A tree that holds lists of trees.
#[derive(Drop)]
struct Tree {
    name: Name,
    below: List<Tree>,
}

// Whether some node of the tree has this name.
fn has(tree: &Tree, name: &[u8]) -> bool {
    if tree.name.bytes() == name {
        return true;
    }
    for child in tree.below.as_slice() {
        if has(child, name) {
            return true;
        }
    }
    false
}

fn has_one(trees: &List<Tree>) -> bool {
    trees.len() == 1 && trees.get(0).is_some() && trees.get(1).is_none()
}

fn leaf(alloc: Global) -> Result<Tree, Fail> {
    let name = Name::new(alloc, b"leaf")?;
    Ok(Tree {
        name,
        below: List::new(alloc),
    })
}

fn leaves(alloc: Global) -> Result<List<Tree>, Fail> {
    let leaf = leaf(alloc)?;
    let mut leaves = List::wrap(Vec::new(alloc));
    leaves.push(leaf)?;
    Ok(leaves)
}

fn root(alloc: Global) -> Result<Tree, Fail> {
    let name = Name::new(alloc, b"root")?;
    let below = leaves(alloc)?;
    Ok(Tree { name, below })
}

fn check_root(root: &Tree) -> Result<(), Fail> {
    expect(has_one(&root.below), "a list has what was pushed")?;
    expect(
        has(root, b"leaf") && !has(root, b"stem"),
        "a tree has its leaf",
    )
}

#[test]
fn a_tree_holds_lists_of_trees(rt: HostRuntime) -> Result<(), Fail> {
    let root = root(rt.alloc())?;
    let checked = check_root(&root);
    drop(root);
    checked
}

const NAMES: &[(&str, &[u8], bool)] = &[
    ("the longest name", &[b'a'; 64], true),
    ("a name of 65 bytes", &[b'a'; 65], false),
    ("a line below in front", b"_9", true),
    ("a digit in front", b"9_", false),
    ("no byte", b"", false),
];

fn is_copied(alloc: Global) -> Result<bool, NoMemory> {
    let name = Name::new(alloc, b"shop_1")?;
    let copy = name.copy(alloc);
    drop(name);
    let copy = copy?;
    let has_bytes = copy.bytes() == b"shop_1".as_slice();
    drop(copy);
    Ok(has_bytes)
}

#[test]
fn names_are_told_from_other_bytes(rt: HostRuntime) -> Result<(), Fail> {
    for (name, bytes, is_name) in NAMES {
        expect(Name::is_name(bytes) == *is_name, name)?;
    }
    expect(is_copied(rt.alloc())?, "a copy has the bytes")
}

// The tokens of `open Paid; // for good`, and then of `x>>>=2147483648` on the next line.
fn are_cut(tokens: &[Token]) -> bool {
    let [open, paid, semicolon, _, shift, assign, number] = tokens else {
        return false;
    };
    matches!(&open.kind, Kind::Word(word::OPEN))
        && is_paid(paid)
        && matches!(&semicolon.kind, Kind::Sign(sign::SEMICOLON))
        && matches!(&shift.kind, Kind::Sign(sign::SHIFT_RIGHT_ZERO))
        && matches!(&assign.kind, Kind::Sign(sign::ASSIGN))
        && is_number(number)
}

fn is_paid(token: &Token) -> bool {
    let Kind::Name(name) = &token.kind else {
        return false;
    };
    name.bytes() == b"Paid".as_slice() && (token.from, token.to) == (5, 9)
}

fn is_number(token: &Token) -> bool {
    matches!(&token.kind, Kind::Number(2_147_483_648)) && (token.from, token.to) == (28, 38)
}

#[test]
fn a_source_is_cut_into_tokens(rt: HostRuntime) -> Result<(), Fail> {
    let tokens = lex(rt.alloc(), b"open Paid; // for good\nx>>>=2147483648")?;
    let are_cut = are_cut(tokens.as_slice());
    drop(tokens);
    expect(are_cut, "each token is cut")
}

// A row's name, and a source with its fault.
type Faulty = (&'static str, &'static [u8], LexError);

const FAULTS: &[Faulty] = &[
    ("a zero in front", b"show(01);", LexError::BadByte(5)),
    ("zeros and a letter", b"0123x", LexError::BadByte(0)),
    ("a letter behind a number", b" 12x", LexError::BadByte(3)),
    (
        "a number above 2147483648",
        b"2147483649",
        LexError::NumberTooLarge(0),
    ),
    (
        "a large number and a letter",
        b"99999999999999999999999x",
        LexError::NumberTooLarge(0),
    ),
    ("an open comment", b"x /*/", LexError::OpenComment(2)),
    ("the first fault is told", b"a # 01", LexError::BadByte(2)),
    (
        "a long name",
        b"  aaaaaaaaaaaaaaaaaaaaaaaaaaaaaaaaaaaaaaaaaaaaaaaaaaaaaaaaaaaaaaaaa",
        LexError::NameTooLong(2),
    ),
];

// Whether the source is refused so.
fn has_fault(alloc: Global, source: &[u8], fault: &LexError) -> bool {
    match lex(alloc, source) {
        Ok(_) => false,
        Err(error) => error == *fault,
    }
}

fn check_faults(alloc: Global, rows: &[Faulty]) -> Result<(), Fail> {
    for (name, source, fault) in rows {
        expect(has_fault(alloc, source, fault), name)?;
    }
    Ok(())
}

#[test]
fn a_fault_is_told_with_its_place(rt: HostRuntime) -> Result<(), Fail> {
    check_faults(rt.alloc(), FAULTS)
}

fn has_no_token(alloc: Global, source: &[u8]) -> Result<bool, LexError> {
    Ok(lex(alloc, source)?.len() == 0)
}

fn check_blanks(alloc: Global, source: &mut Vec<u8>) -> Result<(), Fail> {
    expect(has_no_token(alloc, source.as_slice())?, "262144 blanks")?;
    source.push(b'#')?;
    let fault = LexError::SourceTooLong(262_145);
    expect(has_fault(alloc, source.as_slice(), &fault), "a byte more")
}

#[test]
fn a_source_may_have_262144_bytes(rt: HostRuntime) -> Result<(), Fail> {
    let mut source = vec![in rt.alloc(); b' '; 262_144]?;
    let checked = check_blanks(rt.alloc(), &mut source);
    drop(source);
    checked
}

#[test]
fn a_source_may_have_no_byte(rt: HostRuntime) -> Result<(), Fail> {
    expect(has_no_token(rt.alloc(), b"")?, "no byte")
}

const PLACES: &[(&str, u32, (u32, u32))] = &[
    ("the first byte", 0, (1, 1)),
    ("the end of a line", 3, (1, 4)),
    ("an empty line", 4, (2, 1)),
    ("behind a blank", 6, (3, 2)),
    ("the end", 9, (3, 5)),
];

#[test]
fn a_place_is_told_by_line_and_column(_rt: HostRuntime) -> Result<(), Fail> {
    for (name, at, place) in PLACES {
        expect(*at <= 9 && place_of(b"one\n\n two", *at) == *place, name)?;
    }
    Ok(())
}
