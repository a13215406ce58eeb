//! The number of statements, and the first number of a block.
ghost use Rattle.std.specs.Prelude.{ℕ, ◌≡◌, ◌+◌};
ghost use Rattle.dc_graph.specs.Pieces.{piece, pieces, sizes};
ghost use Rattle.dc_graph.specs.Pieces.{first as first_number};
ghost use Rattle.dc_system.specs.Systems.{counted};

use dc_syntax::Stmt;

#[cycle(counts)]
pub(crate) fn count(statement: &Stmt) -> u64
    ensures { result ≡ counted (piece statement.now).size }
{
    match statement {
        Stmt::If(_, yes, no) => {
            let inside = count_all(yes.as_slice()).saturating_add(count_all(no.as_slice()));
            1u64.saturating_add(inside)
        }
        Stmt::IfAny(left, right) => {
            let inside = count_all(left.as_slice()).saturating_add(count_all(right.as_slice()));
            1u64.saturating_add(inside)
        }
        Stmt::While(_, body) => 1u64.saturating_add(count_all(body.as_slice())),
        Stmt::WhileAny(body) => 1u64.saturating_add(count_all(body.as_slice())),
        _ => 1,
    }
}

// The number of statements of a body, with those inside them. It stays at 2^64 - 1.
#[cycle(counts)]
pub(crate) fn count_all(body: &[Stmt]) -> u64
    ensures { result ≡ counted (sizes (pieces body.now)) }
{
    let mut total: u64 = 0;
    for statement in body {
        total = total.saturating_add(count(statement));
    }
    total
}

// The first number of a block that stands at one number and goes on at another.
pub(crate) fn first(body: &[Stmt], at: usize, next: usize) -> usize
    ensures { result ≡ first_number (pieces body.now) at next }
{
    if body.is_empty() { next } else { at }
}
