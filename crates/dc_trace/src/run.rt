//! The replay of a run.
ghost use Rattle.std.specs.Prelude.{◌≡◌, ◌<◌, ◌^◌, ◌-◌, ◌++◌, length, replicate, pos, IfOk, IfErr};
ghost use Rattle.dc_syntax.specs.Costs.{Costs};
ghost use Rattle.dc_trace.specs.Replay.{is_small, start};
ghost use Rattle.dc_trace.specs.Ends.{IsTraceFault, Pays};
ghost use Rattle.dc_trace.specs.Tails.{fault_of, seen};

use crate::walk::{Halt, Walk};
use dc_syntax::Proc;
use dc_tracetext::Trace;
use std::alloc::{AllocError, Global};
use thiserror::Error;

/// Why a replay gives no cost. Turns are numbered from 1.
#[derive(Clone, Copy, Debug, PartialEq, Drop, Error)]
pub enum TraceFault {
    /// A choice is due in this turn and none is left.
    #[error("no choice in turn {turn}")]
    NoChoice { turn: u64 },
    /// A choice between two ways is neither 0 nor 1.
    #[error("a choice that is neither 0 nor 1 in turn {turn}")]
    BadChoice { turn: u64 },
    /// An `assume` is false, or a choice is outside its range.
    #[error("blocked in turn {turn}")]
    Blocked { turn: u64 },
    /// The value of a subexpression, or the new cost, has a size of more than 2^127 - 1.
    #[error("past 128 bits in turn {turn}")]
    Past128 { turn: u64 },
    /// A statement is left after all turns; this is the number of the next one.
    #[error("unfinished in turn {turn}")]
    Unfinished { turn: u64 },
    /// Nothing is left to do, and a choice is; so many were taken.
    #[error("choices left after {used}")]
    LeftOver { used: u64 },
    #[error("out of memory")]
    NoMemory,
}

impl From<AllocError> for TraceFault {
    ghost use Rattle.std.specs.Prelude.{◌≡◌};
    ghost use Rattle.dc_trace.specs.declared.run.TraceFault.TheVariants.{NoMemory};

    ghost from_gives = { λ _ e. e ≡ NoMemory };

    fn from(_error: AllocError) -> TraceFault {
        TraceFault::NoMemory
    }
}

// The fault of a turn.
fn fault_in(halt: Halt, turn: u64) -> TraceFault
    ensures { result ≡ fault_of halt turn }
{
    match halt {
        Halt::NoChoice => TraceFault::NoChoice { turn },
        Halt::BadChoice => TraceFault::BadChoice { turn },
        Halt::Past128 => TraceFault::Past128 { turn },
        Halt::Blocked => TraceFault::Blocked { turn },
        Halt::NoMemory => TraceFault::NoMemory,
    }
}

// The same numbers.
fn wide(alloc: Global, list: &[i64]) -> Result<Vec<i128>, AllocError>
    ensures { IfOk result (λ v. v.items ≡ list.now) }
{
    let mut numbers: Vec<i128> = Vec::new(alloc);
    for z in list {
        numbers.push(*z as i128)?;
    }
    Ok(numbers)
}

// The input followed by 0 for each name behind it.
fn first_state(alloc: Global, input: &[i64], names: usize) -> Result<Vec<i128>, AllocError>
    ensures { IfOk result (λ v. v.items ≡ input.now ++ replicate (names - length input.now) (pos 0)) }
{
    let mut state = wide(alloc, input)?;
    let size = state.len().max(names);
    state.resize(size, 0)?;
    Ok(state)
}

// The replay before its first turn.
fn begin<'a>(alloc: Global, p: &'a Proc, t: &'a Trace) -> Result<Walk<'a>, AllocError>
    requires { length t.now.input ≡ p.now.params }
    ensures { IfOk result (λ w. seen w ≡ start p.now t.now.input t.now.choices) }
{
    let state = first_state(alloc, t.input.as_slice(), p.names.len())?;
    let mut tails = Vec::new(alloc);
    tails.push(p.body.as_slice())?;
    Ok(Walk {
        tails,
        state,
        cost: 0,
        choices: t.choices.as_slice(),
    })
}

/// The cost of the run of `p` that the trace tells, in at most so many turns.
///
/// In each turn one statement is taken and done. `x = any;`, `x = any(a, b);`, `if (*)` and `while
/// (*)` take the next choice; for the last two 1 is the first arm or going on, and 0 the second arm
/// or the end. An `if` and a `while` take a turn of their own, also at their end.
///
/// # Errors
///
/// The first turn that can't be made is told with its cause; of several causes in one turn
/// `NoChoice` stands before `BadChoice`, then `Past128`, then `Blocked`. `Unfinished` where a
/// statement is left after all turns. `LeftOver` where none is, and a choice is left. Else
/// `NoMemory`, for want of memory alone.
pub fn replay(alloc: Global, p: &Proc, t: &Trace, turns: u64) -> Result<i128, TraceFault>
    requires input { length t.now.input ≡ p.now.params }
    requires few { turns < 2 ^ 64 - 1 }
    ensures cost { IfOk result (λ c. Costs p.now t.now.input c) }
    ensures paid { IfOk result (λ c. Pays is_small turns (start p.now t.now.input t.now.choices) c) }
    ensures fault { IfErr result
        (λ f. IsTraceFault is_small turns (start p.now t.now.input t.now.choices) f) }
{
    let mut walk = begin(alloc, p, t)?;
    let mut turn: u64 = 0;
    'turns: while let Some(tail) = walk.next() {
        if turn == turns {
            return Err(TraceFault::Unfinished { turn: turn + 1 });
        }
        turn += 1;
        if let Err(halt) = walk.turn(&tail) {
            return Err(fault_in(halt, turn));
        }
    }
    let left = walk.choices.len();
    if left > 0 {
        let used = t.choices.len() - left;
        return Err(TraceFault::LeftOver { used: used as u64 });
    }
    Ok(walk.cost())
}
