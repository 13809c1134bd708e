//! The binary operators, in lines by how strongly they bind.

ghost use Rattle.std.specs.Prelude.{◌≡◌};
ghost use Rattle.par_tree.specs.Grammar.{operators};
ghost use Rattle.par_exprs.specs.Operators.{row_of};

use par_grammar::sort::{Sort, same};
use par_lexer::operator::BinOp;
use par_lexer::sign;

/// How many lines there are.
pub const LINES: u8 = 10;

/// The operators of a line, by their signs. Line 0 binds least.
fn operators(line: u8) -> &'static [(u8, BinOp)]
    ensures { result.now ≡ operators line }
{
    match line {
        0 => &[(sign::OR_ELSE, BinOp::Or)],
        1 => &[(sign::AND_ALSO, BinOp::And)],
        2 => &[(sign::OR, BinOp::BitOr)],
        3 => &[(sign::XOR, BinOp::BitXor)],
        4 => &[(sign::AND, BinOp::BitAnd)],
        5 => &[(sign::EQUAL, BinOp::Eq), (sign::NOT_EQUAL, BinOp::Ne)],
        6 => &[
            (sign::LESS, BinOp::Lt),
            (sign::AT_MOST, BinOp::Le),
            (sign::GREATER, BinOp::Gt),
            (sign::AT_LEAST, BinOp::Ge),
        ],
        7 => &[
            (sign::SHIFT_LEFT, BinOp::Shl),
            (sign::SHIFT_RIGHT, BinOp::Shr),
            (sign::SHIFT_RIGHT_ZERO, BinOp::Ushr),
        ],
        8 => &[(sign::PLUS, BinOp::Add), (sign::MINUS, BinOp::Sub)],
        9 => &[
            (sign::STAR, BinOp::Mul),
            (sign::SLASH, BinOp::Div),
            (sign::PERCENT, BinOp::Rem),
        ],
        _ => &[],
    }
}

/// The operator of a line that a token of this sort is, with its sign.
pub fn operator(line: u8, next: Sort) -> Option<(u8, BinOp)>
    ensures { result ≡ row_of (operators line) next }
{
    'rows: for row in operators(line) {
        if same(next, Sort::Sign(row.0)) {
            return Some(*row);
        }
    }
    None
}
