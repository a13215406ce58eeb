//! The turns of a replay.
//!
//! What is to be done is kept as tails of the lists in the tree: each is what is left of one list. So
//! a turn copies no list.
ghost use Rattle.std.specs.Prelude.{◌≡◌, ◌++◌, ◌∷◌, [], if◌then◌else◌, MatchOption, OnOk, slice_set};
ghost use Rattle.dc_syntax.specs.declared.tree.Stmt.{Stmt as Tree, out-Stmt};
ghost use Rattle.dc_syntax.specs.declared.tree.Stmt.TheOpen as layer;
ghost use Rattle.dc_trace.specs.Tails.{IsDecided, IsTaken, Makes, todo_at};

use crate::evaluate::{evaluate, is_within, judge, sum};
use dc_syntax::{Cond, Expr, Stmt};
use std::alloc::AllocError;

/// Why a turn is not made.
#[derive(Clone, Copy)]
pub(crate) enum Halt {
    NoChoice,
    BadChoice,
    Past128,
    Blocked,
    NoMemory,
}

impl From<AllocError> for Halt {
    ghost use Rattle.std.specs.Prelude.{◌≡◌};
    ghost use Rattle.dc_trace.specs.declared.walk.Halt.TheVariants.{NoMemory};

    ghost from_gives = { λ _ e. e ≡ NoMemory };

    fn from(_error: AllocError) -> Halt {
        Halt::NoMemory
    }
}

/// What is left of a list: its first statement, the whole of it, and what follows the first.
#[derive(Clone, Copy)]
pub(crate) struct Tail<'a> {
    pub first: &'a Stmt,
    pub all: &'a [Stmt],
    pub rest: &'a [Stmt],
}

/// Where a replay stands. The last tail is done first.
#[derive(Drop)]
pub(crate) struct Walk<'a> {
    pub tails: Vec<&'a [Stmt]>,
    pub state: Vec<i128>,
    pub cost: i128,
    pub choices: &'a [i64],
}

// A list as a tail, `None` where it is empty.
fn tail_at<'a>(all: &'a [Stmt]) -> Option<Tail<'a>>
    ensures { MatchOption result (all.now ≡ [])
        (λ q. (all.now ≡ q.first.now ∷ q.rest.now) × (q.all.now ≡ q.first.now ∷ q.rest.now)) }
{
    let (first, rest) = all.split_first()?;
    Some(Tail { first, all, rest })
}

// Takes the next statement from tails.
fn take<'a>(tails: &mut Vec<&'a [Stmt]>) -> Option<Tail<'a>>
    ensures { IsTaken (todo_at tails.old.items) result (todo_at tails.new.items) }
{
    'tails: while let Some(all) = tails.pop() {
        if let Some(tail) = tail_at(all) {
            return Some(tail);
        }
    }
    None
}

impl<'a> Walk<'a> {
    /// The cost so far.
    pub fn cost(&self) -> i128
        ensures { result ≡ self.now.cost }
    {
        self.cost
    }

    /// Takes the next statement, `None` where nothing is left to do.
    pub fn next(&mut self) -> Option<Tail<'a>>
        ensures tail { IsTaken (todo_at self.old.tails.items) result (todo_at self.new.tails.items) }
        ensures state { self.new.state.items ≡ self.old.state.items }
        ensures cost { self.new.cost ≡ self.old.cost }
        ensures choices { self.new.choices.now ≡ self.old.choices.now }
    {
        take(&mut self.tails)
    }

    // Puts statements in front.
    fn put(&mut self, statements: &'a [Stmt]) -> Result<(), AllocError>
        ensures todo { OnOk result
            (todo_at self.new.tails.items ≡ statements.now ++ todo_at self.old.tails.items) }
        ensures state { self.new.state.items ≡ self.old.state.items }
        ensures cost { self.new.cost ≡ self.old.cost }
        ensures choices { self.new.choices.now ≡ self.old.choices.now }
    {
        self.tails.push(statements)?;
        Ok(())
    }

    // Sets a place of the state.
    fn set(&mut self, place: usize, z: &i128)
        ensures todo { todo_at self.new.tails.items ≡ todo_at self.old.tails.items }
        ensures state { self.new.state.items ≡ slice_set self.old.state.items place z.now }
        ensures cost { self.new.cost ≡ self.old.cost }
        ensures choices { self.new.choices.now ≡ self.old.choices.now }
    {
        if place < self.state.len() {
            self.state[place] = *z;
        }
    }

    // Takes the next choice.
    fn choose(&mut self) -> Option<i128>
        ensures choice { MatchOption result
            ((self.old.choices.now ≡ []) × (self.new.choices.now ≡ []))
            (λ z. self.old.choices.now ≡ z ∷ self.new.choices.now) }
        ensures todo { todo_at self.new.tails.items ≡ todo_at self.old.tails.items }
        ensures state { self.new.state.items ≡ self.old.state.items }
        ensures cost { self.new.cost ≡ self.old.cost }
    {
        let (z, rest) = self.choices.split_first()?;
        self.choices = rest;
        Some(*z as i128)
    }

    fn assign(&mut self, place: usize, e: &Expr, rest: &'a [Stmt]) -> Result<(), Halt>
        ensures { (S : Tree) → Makes S (layer.Assign place e.now) rest.now self.old result self.new }
    {
        let Some(z) = evaluate(e, self.state.as_slice()) else {
            return Err(Halt::Past128);
        };
        self.set(place, &z);
        self.put(rest)?;
        Ok(())
    }

    fn any_of(&mut self, place: usize, rest: &'a [Stmt]) -> Result<(), Halt>
        ensures { (S : Tree) → Makes S (layer.AnyOf place) rest.now self.old result self.new }
    {
        let Some(z) = self.choose() else {
            return Err(Halt::NoChoice);
        };
        self.set(place, &z);
        self.put(rest)?;
        Ok(())
    }

    fn between(&mut self, place: usize, a: &Expr, b: &Expr, rest: &'a [Stmt]) -> Result<(), Halt>
        ensures { (S : Tree)
            → Makes S (layer.Between place a.now b.now) rest.now self.old result self.new }
    {
        let Some(z) = self.choose() else {
            return Err(Halt::NoChoice);
        };
        let Some(within) = is_within(a, &z, b, self.state.as_slice()) else {
            return Err(Halt::Past128);
        };
        if !within {
            return Err(Halt::Blocked);
        }
        self.set(place, &z);
        self.put(rest)?;
        Ok(())
    }

    fn tick(&mut self, e: &Expr, rest: &'a [Stmt]) -> Result<(), Halt>
        ensures { (S : Tree) → Makes S (layer.Tick e.now) rest.now self.old result self.new }
    {
        let Some(z) = evaluate(e, self.state.as_slice()) else {
            return Err(Halt::Past128);
        };
        let Some(cost) = sum(&self.cost, &z) else {
            return Err(Halt::Past128);
        };
        self.cost = cost;
        self.put(rest)?;
        Ok(())
    }

    fn assume(&mut self, c: &Cond, rest: &'a [Stmt]) -> Result<(), Halt>
        ensures { (S : Tree) → Makes S (layer.Assume c.now) rest.now self.old result self.new }
    {
        let Some(holds) = judge(c, self.state.as_slice()) else {
            return Err(Halt::Past128);
        };
        if !holds {
            return Err(Halt::Blocked);
        }
        self.put(rest)?;
        Ok(())
    }

    fn branch(
        &mut self,
        c: &Cond,
        yes: &'a [Stmt],
        no: &'a [Stmt],
        rest: &'a [Stmt],
    ) -> Result<(), Halt>
        ensures { (S : Tree)
            → Makes S (layer.If c.now yes.now no.now) rest.now self.old result self.new }
    {
        let Some(holds) = judge(c, self.state.as_slice()) else {
            return Err(Halt::Past128);
        };
        self.put(rest)?;
        self.put(if holds { yes } else { no })?;
        Ok(())
    }

    // Takes the next choice of two: 1 is true, 0 is false.
    fn decide(&mut self) -> Result<bool, Halt>
        ensures choice { IsDecided self.old.choices.now result self.new.choices.now }
        ensures todo { todo_at self.new.tails.items ≡ todo_at self.old.tails.items }
        ensures state { self.new.state.items ≡ self.old.state.items }
        ensures cost { self.new.cost ≡ self.old.cost }
    {
        match self.choose() {
            Some(1) => Ok(true),
            Some(0) => Ok(false),
            Some(_) => Err(Halt::BadChoice),
            None => Err(Halt::NoChoice),
        }
    }

    fn branch_any(
        &mut self,
        left: &'a [Stmt],
        right: &'a [Stmt],
        rest: &'a [Stmt],
    ) -> Result<(), Halt>
        ensures { (S : Tree)
            → Makes S (layer.IfAny left.now right.now) rest.now self.old result self.new }
    {
        let first = self.decide()?;
        self.put(rest)?;
        self.put(if first { left } else { right })?;
        Ok(())
    }

    // The body and the loop again, or what follows it.
    fn go_on(&mut self, goes_on: bool, body: &'a [Stmt], tail: &Tail<'a>) -> Result<(), AllocError>
        ensures todo { OnOk result
            (todo_at self.new.tails.items
            ≡ (if goes_on then body.now ++ tail.now.all.now else tail.now.rest.now)
            ++ todo_at self.old.tails.items) }
        ensures state { self.new.state.items ≡ self.old.state.items }
        ensures cost { self.new.cost ≡ self.old.cost }
        ensures choices { self.new.choices.now ≡ self.old.choices.now }
    {
        if goes_on {
            self.put(tail.all)?;
            self.put(body)
        } else {
            self.put(tail.rest)
        }
    }

    fn repeat(&mut self, c: &Cond, body: &'a [Stmt], tail: &Tail<'a>) -> Result<(), Halt>
        requires { tail.now.all.now ≡ tail.now.first.now ∷ tail.now.rest.now }
        ensures { Makes tail.now.first.now
            (layer.While c.now body.now) tail.now.rest.now self.old result self.new }
    {
        let Some(holds) = judge(c, self.state.as_slice()) else {
            return Err(Halt::Past128);
        };
        self.go_on(holds, body, tail)?;
        Ok(())
    }

    fn repeat_any(&mut self, body: &'a [Stmt], tail: &Tail<'a>) -> Result<(), Halt>
        requires { tail.now.all.now ≡ tail.now.first.now ∷ tail.now.rest.now }
        ensures { Makes tail.now.first.now
            (layer.WhileAny body.now) tail.now.rest.now self.old result self.new }
    {
        let goes_on = self.decide()?;
        self.go_on(goes_on, body, tail)?;
        Ok(())
    }

    /// Makes the turn of a statement that was taken.
    pub fn turn(&mut self, tail: &Tail<'a>) -> Result<(), Halt>
        requires { tail.now.all.now ≡ tail.now.first.now ∷ tail.now.rest.now }
        ensures { Makes tail.now.first.now
            (out-Stmt tail.now.first.now) tail.now.rest.now self.old result self.new }
    {
        let rest = tail.rest;
        match tail.first {
            Stmt::Skip => {
                self.put(rest)?;
                Ok(())
            }
            Stmt::Assign(k, e) => self.assign(*k, e, rest),
            Stmt::AnyOf(k) => self.any_of(*k, rest),
            Stmt::Between(k, a, b) => self.between(*k, a, b, rest),
            Stmt::Tick(e) => self.tick(e, rest),
            Stmt::Assume(c) => self.assume(c, rest),
            Stmt::If(c, yes, no) => self.branch(c, yes.as_slice(), no.as_slice(), rest),
            Stmt::IfAny(left, right) => self.branch_any(left.as_slice(), right.as_slice(), rest),
            Stmt::While(c, body) => self.repeat(c, body.as_slice(), tail),
            Stmt::WhileAny(body) => self.repeat_any(body.as_slice(), tail),
        }
    }
}
