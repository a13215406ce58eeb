//! The forms and conditions of statements.
ghost use Rattle.std.specs.Prelude.{◌≡◌, ◌≤◌, ◌⊎◌, length, drop, true, false, None, Some, IfOk, IfErr, OnOk};
ghost use Rattle.dc_affine.specs.Forms.{IsCause};
ghost use Rattle.dc_affine.specs.Atoms.{cond_is_below, dnf_fault};
ghost use Rattle.std.specs.Option.{option_or};
ghost use Rattle.dc_affine.specs.Whole.{statement_fault, statement_below};
ghost use Rattle.dc_syntax.specs.declared.tree.Stmt.{out-Stmt};
ghost use Rattle.dc_parse.specs.Forms.{all_below, all_faults, faults_in, first_form, form_kind as kind_of, head_of, stmt_below, tail_of};
ghost use Rattle.dc_parse.specs.Steps.{Judges, JudgesAll};

use crate::fault::{Fault, Kind};
use dc_affine::{FormFault, affine, dnf, normal};
use dc_syntax::{Cond, Stmt};
use std::alloc::Global;

/// The kind of a fault of a form.
pub fn form_kind(fault: FormFault) -> Kind
    ensures { result ≡ kind_of fault }
{
    match fault {
        FormFault::DegreeTooHigh => Kind::DegreeTooHigh,
        FormFault::CoefficientRange => Kind::CoefficientRange,
        FormFault::NotAffine => Kind::NotAffine,
        FormFault::ConditionTooWide => Kind::ConditionTooWide,
        FormFault::NoMemory => Kind::NoMemory,
    }
}

/// The offsets at which the statements that are left begin.
#[derive(Drop)]
pub struct Starts<'a> {
    pub rest: &'a [usize],
}

impl<'a> Starts<'a> {
    /// The offset of the next statement.
    fn next(&mut self) -> usize
        ensures offset { result ≡ head_of self.old.rest.now }
        ensures rest { self.new.rest.now ≡ tail_of self.old.rest.now }
    {
        if self.rest.is_empty() {
            return 0;
        }
        let first = self.rest[0];
        self.rest = &self.rest[1..];
        first
    }
}

/// Judges a condition and its negation.
fn judge_both(alloc: Global, c: &Cond, places: usize) -> Result<(), FormFault>
    requires few { places ≤ 11 }
    requires below { cond_is_below places c.now ≡ true }
    ensures passes { OnOk result
        (option_or (dnf_fault places c.now false) (dnf_fault places c.now true) ≡ None) }
    ensures fault { IfErr result
        (λ f. IsCause f (option_or (dnf_fault places c.now false) (dnf_fault places c.now true))) }
{
    let _yes = dnf(alloc, c, false, places)?;
    let _no = dnf(alloc, c, true, places)?;
    Ok(())
}

/// Judges the forms and conditions of a statement, without those inside it.
fn judge_own(alloc: Global, stmt: &Stmt, places: usize) -> Result<(), FormFault>
    requires few { places ≤ 11 }
    requires below { statement_below places (out-Stmt stmt.now) ≡ true }
    ensures passes { OnOk result (statement_fault places (out-Stmt stmt.now) ≡ None) }
    ensures fault { IfErr result (λ f. IsCause f (statement_fault places (out-Stmt stmt.now))) }
{
    match stmt {
        Stmt::Assign(_, e) => {
            let _form = normal(alloc, e, places)?;
            Ok(())
        }
        Stmt::Tick(e) => {
            let _form = normal(alloc, e, places)?;
            Ok(())
        }
        Stmt::Between(_, a, b) => {
            let _low = affine(alloc, a, places)?;
            let _high = affine(alloc, b, places)?;
            Ok(())
        }
        Stmt::Assume(c) => {
            let _cases = dnf(alloc, c, false, places)?;
            Ok(())
        }
        Stmt::If(c, _, _) => judge_both(alloc, c, places),
        Stmt::While(c, _) => judge_both(alloc, c, places),
        Stmt::Skip => Ok(()),
        Stmt::AnyOf(_) => Ok(()),
        Stmt::IfAny(_, _) => Ok(()),
        Stmt::WhileAny(_) => Ok(()),
    }
}

/// Judges a statement alone, which begins at the next offset.
fn judge_next(
    alloc: Global,
    stmt: &Stmt,
    places: usize,
    starts: &mut Starts<'_>,
) -> Result<(), Fault>
    requires few { places ≤ 11 }
    requires below { statement_below places (out-Stmt stmt.now) ≡ true }
    ensures { Judges (statement_fault places
        (out-Stmt stmt.now)) starts.old.rest.now result starts.new.rest.now }
{
    let at = starts.next();
    match judge_own(alloc, stmt, places) {
        Ok(()) => Ok(()),
        Err(fault) => Err(Fault {
            kind: form_kind(fault),
            at,
        }),
    }
}

#[cycle(forms)]
fn judge(alloc: Global, stmt: &Stmt, places: usize, starts: &mut Starts<'_>) -> Result<(), Fault>
    requires few { places ≤ 11 }
    requires below { stmt_below places stmt.now ≡ true }
    ensures { JudgesAll (faults_in places stmt.now) starts.old.rest.now result starts.new.rest.now }
{
    judge_next(alloc, stmt, places, starts)?;
    match stmt {
        Stmt::If(_, yes, no) => {
            judge_all(alloc, yes.as_slice(), places, starts)?;
            judge_all(alloc, no.as_slice(), places, starts)
        }
        Stmt::IfAny(left, right) => {
            judge_all(alloc, left.as_slice(), places, starts)?;
            judge_all(alloc, right.as_slice(), places, starts)
        }
        Stmt::While(_, body) => judge_all(alloc, body.as_slice(), places, starts),
        Stmt::WhileAny(body) => judge_all(alloc, body.as_slice(), places, starts),
        _ => Ok(()),
    }
}

/// Judges statements and those inside them, in preorder: the first with a fault is told, at its offset.
#[cycle(forms)]
pub fn judge_all(
    alloc: Global,
    stmts: &[Stmt],
    places: usize,
    starts: &mut Starts<'_>,
) -> Result<(), Fault>
    requires few { places ≤ 11 }
    requires below { all_below places stmts.now ≡ true }
    ensures { JudgesAll (all_faults places stmts.now) starts.old.rest.now result starts.new.rest.now }
{
    for stmt in stmts {
        judge(alloc, stmt, places, starts)?;
    }
    Ok(())
}
