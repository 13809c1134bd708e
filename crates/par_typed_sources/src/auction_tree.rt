//! The typed tree of the auction, node by node.

use par_lexer::list::List;
use par_lexer::operator::BinOp;
use par_typed::expr::{TExpr, TExprKind};
use par_typed::program::TBody;
use par_typed::stmt::{TStmt, TStmtKind};
use par_typed::ty::Ty;

// ---- single nodes

// The place and the point of a node.
type Spot = (u32, u32);

fn stands(stmt: &TStmt, spot: Spot) -> bool {
    stmt.at == spot.0 && stmt.point == spot.1
}

// No node of the auction is an object.
fn has(node: &TExpr, spot: Spot, ty: Ty) -> bool {
    node.at == spot.0 && node.point == spot.1 && node.ty == ty && !node.sure
}

fn is_local(node: &TExpr, number: u16, spot: Spot) -> bool {
    match &node.kind {
        TExprKind::Local(local) => *local == number && has(node, spot, Ty::Int),
        _ => false,
    }
}

fn is_input(node: &TExpr, number: u16, spot: Spot) -> bool {
    match &node.kind {
        TExprKind::Input(class, channel) => {
            *class == 2 && *channel == number && has(node, spot, Ty::Int)
        }
        _ => false,
    }
}

fn is_best(node: &TExpr, spot: Spot) -> bool {
    match &node.kind {
        TExprKind::Static(class, field) => *class == 2 && *field == 0 && has(node, spot, Ty::Int),
        _ => false,
    }
}

// ---- the statements of `main`

// A local that is set to a number of a channel.
struct Bid {
    local: u16,
    channel: u16,
    set: Spot,
    read: Spot,
}

const OF_ALICE: Bid = Bid {
    local: 0,
    channel: 0,
    set: (280, 1),
    read: (284, 2),
};

const OF_BOB: Bid = Bid {
    local: 1,
    channel: 1,
    set: (305, 3),
    read: (309, 4),
};

fn takes(stmt: &TStmt, bid: &Bid) -> bool {
    match &stmt.kind {
        TStmtKind::SetLocal(local, policy, value) => {
            let sets = *local == bid.local && policy.is_none() && stands(stmt, bid.set);
            sets && is_input(value, bid.channel, bid.read)
        }
        _ => false,
    }
}

fn opens(stmt: &TStmt) -> bool {
    match &stmt.kind {
        TStmtKind::OpenLock(lock) => *lock == 0 && stands(stmt, (324, 5)),
        _ => false,
    }
}

fn has_bids(args: &List<TExpr>) -> bool {
    let first = args.get(0).is_some_and(|node| is_local(node, 0, (353, 8)));
    let second = args.get(1).is_some_and(|node| is_local(node, 1, (356, 9)));
    args.len() == 2 && first && second
}

fn is_larger_bid(node: &TExpr) -> bool {
    match &node.kind {
        TExprKind::Call(class, method, receiver, args) => {
            let callee = *class == 2 && *method == 1 && receiver.is_none();
            callee && has(node, (346, 7), Ty::Int) && has_bids(args)
        }
        _ => false,
    }
}

fn sets_best(stmt: &TStmt) -> bool {
    match &stmt.kind {
        TStmtKind::SetStatic(class, field, value) => {
            *class == 2 && *field == 0 && stands(stmt, (339, 6)) && is_larger_bid(value)
        }
        _ => false,
    }
}

fn is_output(node: &TExpr) -> bool {
    match &node.kind {
        TExprKind::Output(class, channel, value) => {
            let put = *class == 2 && *channel == 2 && has(node, (364, 11), Ty::Void);
            put && is_best(value, (373, 12))
        }
        _ => false,
    }
}

fn announces(stmt: &TStmt) -> bool {
    match &stmt.kind {
        TStmtKind::Eval(call) => stands(stmt, (364, 10)) && is_output(call),
        _ => false,
    }
}

fn are_of_main(stmts: &List<TStmt>) -> bool {
    let alice = stmts.get(0).is_some_and(|stmt| takes(stmt, &OF_ALICE));
    let bob = stmts.get(1).is_some_and(|stmt| takes(stmt, &OF_BOB));
    let done = stmts.get(2).is_some_and(opens);
    let best = stmts.get(3).is_some_and(sets_best);
    let last = stmts.get(4).is_some_and(announces);
    stmts.len() == 5 && alice && bob && done && best && last
}

/// Whether this is the typed body of its `main`.
pub fn is_main(body: &TBody) -> bool {
    let method = body.class == 2 && body.method == 0 && stands(&body.body, (270, 0));
    match &body.body.kind {
        TStmtKind::Block(stmts) => method && are_of_main(stmts),
        _ => false,
    }
}

// ---- the statements of `larger`

fn is_comparison(node: &TExpr) -> bool {
    match &node.kind {
        TExprKind::Binary(op, left, right) => {
            let parts = is_local(left, 0, (470, 3)) && is_local(right, 1, (474, 4));
            *op == BinOp::Gt && has(node, (472, 2), Ty::Boolean) && parts
        }
        _ => false,
    }
}

// A local that is returned.
fn returns(stmt: &TStmt, local: u16, spot: Spot, value: Spot) -> bool {
    match &stmt.kind {
        TStmtKind::Return(Some(node)) => stands(stmt, spot) && is_local(node, local, value),
        _ => false,
    }
}

fn returns_first(body: &TStmt) -> bool {
    match &body.kind {
        TStmtKind::Block(stmts) => {
            let one = stmts
                .get(0)
                .is_some_and(|stmt| returns(stmt, 0, (479, 6), (486, 7)));
            stmts.len() == 1 && one && stands(body, (477, 5))
        }
        _ => false,
    }
}

fn compares(stmt: &TStmt) -> bool {
    match &stmt.kind {
        TStmtKind::If(test, body, other) => {
            let parts = is_comparison(test) && returns_first(body);
            parts && other.is_none() && stands(stmt, (466, 1))
        }
        _ => false,
    }
}

fn are_of_larger(stmts: &List<TStmt>) -> bool {
    let test = stmts.get(0).is_some_and(compares);
    let last = stmts
        .get(1)
        .is_some_and(|stmt| returns(stmt, 1, (495, 8), (502, 9)));
    stmts.len() == 2 && test && last
}

/// Whether this is the typed body of its `larger`.
pub fn is_larger(body: &TBody) -> bool {
    let method = body.class == 2 && body.method == 1 && stands(&body.body, (460, 0));
    match &body.body.kind {
        TStmtKind::Block(stmts) => method && are_of_larger(stmts),
        _ => false,
    }
}
