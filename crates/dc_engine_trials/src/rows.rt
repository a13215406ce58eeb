//! What is analysed, and how.
ghost use Rattle.std.specs.Prelude.{IfOk};
ghost use Rattle.dc_cert.specs.Settings.{AreSettings};
ghost use Rattle.dc_session.specs.Answers.{IsInput};
ghost use Rattle.dc_engine.specs.Inputs.{input};

use dc_affine::Atom;
use dc_cert::{Certificate, Settings};
use dc_engine::{analyse, analyse_on};
use dc_lp::Tableau;
use dc_parse::{parse_proc, parse_when};
use dc_session::AnalyseFault;
use dc_syntax::{Proc, same_params};
use sqlite_items::Items;
use std::alloc::Global;
use std::test::Fail;

/// A loop to `n` that costs 1 a turn, 2 a turn, and as much as the turns before it.
pub const LOOP_1: &str = "proc f(n) { var i; while (i < n) { tick 1; i = i + 1; } }";

pub const LOOP_2: &str = "proc f(n) { var i; while (i < n) { tick 2; i = i + 1; } }";

pub const LOOP_I: &str = "proc f(n) { var i; while (i < n) { tick i; i = i + 1; } }";

pub const EMPTY: &str = "proc f(n) { }";

pub const SKIP: &str = "proc f(n) { skip; }";

/// Two sources, a condition, and the settings but for pairs, which are candidates.
#[derive(Clone, Copy)]
pub struct Row {
    pub new: &'static str,
    pub old: &'static str,
    pub when: &'static str,
    pub degree: u8,
    pub products: u8,
    pub pivots: u64,
}

/// A row with 100,000 pivots.
pub const fn row_of(
    new: &'static str,
    old: &'static str,
    when: &'static str,
    degree: u8,
    products: u8,
) -> Row {
    Row {
        new,
        old,
        when,
        degree,
        products,
        pivots: 100000,
    }
}

/// The settings of a row.
fn settings(row: &Row) -> Result<Settings, Fail>
    ensures { IfOk result AreSettings }
{
    if row.degree > 3 || row.products < 1 || row.products > 3 {
        return Err(Fail::from("degree and products"));
    }
    if row.pivots < 1 || row.pivots > 1000000 {
        return Err(Fail::from("pivots"));
    }
    Ok(Settings {
        degree: row.degree,
        products: row.products,
        pairs: true,
        pivots: row.pivots,
    })
}

/// Two programs, the cases of a condition, and settings.
#[derive(Drop)]
pub struct Input {
    pub new: Proc,
    pub old: Proc,
    pub cases: Items<Items<Atom>>,
    pub settings: Settings,
}

/// What a row says.
fn read_row(alloc: Global, row: &Row) -> Result<Input, Fail>
    ensures { IfOk result (λ i. IsInput (input i.new i.old i.cases i.settings)) }
{
    let Ok(new) = parse_proc(alloc, row.new.as_bytes()) else {
        return Err(Fail::from("new"));
    };
    let Ok(old) = parse_proc(alloc, row.old.as_bytes()) else {
        return Err(Fail::from("old"));
    };
    if !same_params(&new, &old) {
        return Err(Fail::from("parameters"));
    }
    let Ok(cases) = parse_when(alloc, row.when.as_bytes(), &new) else {
        return Err(Fail::from("when"));
    };
    let settings = settings(row)?;
    Ok(Input {
        new,
        old,
        cases,
        settings,
    })
}

/// What an analysis of a row answers.
pub fn analyse_row(alloc: Global, row: &Row) -> Result<Result<Certificate, AnalyseFault>, Fail> {
    let i = read_row(alloc, row)?;
    Ok(analyse(alloc, &i.new, &i.old, i.cases.as_slice(), &i.settings))
}

/// What it answers on a tableau.
pub fn run_on<T: Tableau>(
    alloc: Global,
    row: &Row,
    tableau: &mut T,
) -> Result<Result<Certificate, AnalyseFault>, Fail> {
    let i = read_row(alloc, row)?;
    Ok(analyse_on(
        alloc,
        &i.new,
        &i.old,
        i.cases.as_slice(),
        &i.settings,
        tableau,
    ))
}
