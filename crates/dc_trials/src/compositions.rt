//! Two edges in a row as one.
ghost use Rattle.std.specs.Prelude.{IfOk};
ghost use Rattle.dc_program.specs.Programs.{IsProgram};
ghost use Rattle.dc_system.specs.Shapes.{IsWellFormed};

use crate::text::edge_text;
use dc_parse::parse_proc;
use dc_syntax::Proc;
use dc_system::{Edge, System, SystemFault, build, compose, fold};
use std::alloc::Global;
use std::test::Fail;

/// A source, whether its system is folded first, the indices of two of its edges, and the text of the
/// edge that they make, which is empty where they make none.
#[derive(Clone, Copy)]
struct Row {
    source: &'static str,
    folded: bool,
    first: usize,
    second: usize,
    made: &'static str,
}

// A turn of the loop has a guard, an update and a cost.
const LOOP: &str = "proc f(n) { var i; while (i < n) { tick 1; i = i + 1; } }";

fn system_in(alloc: Global, p: &Proc, folded: bool) -> Result<System, SystemFault>
    requires { IsProgram p.now }
    ensures { IfOk result (λ s. IsWellFormed s) }
{
    let system = build(alloc, p)?;
    if folded {
        Ok(fold(alloc, &system)?)
    } else {
        Ok(system)
    }
}

#[tactic(auto, using(crate::proofs::Edges::edges))]
fn compose_two(
    alloc: Global,
    system: &System,
    first: usize,
    second: usize,
) -> Result<Option<Edge>, Fail>
    requires { IsWellFormed system.now }
{
    let edges = system.edges.as_slice();
    if first >= edges.len() || second >= edges.len() {
        return Err(Fail::from("no such edge"));
    }
    let first = &edges[first];
    let second = &edges[second];
    if first.to != second.from {
        return Err(Fail::from("not in a row"));
    }
    Ok(compose(alloc, first, second, system.vars)?)
}

const fn plain(source: &'static str, made: &'static str) -> Row {
    Row {
        source,
        folded: false,
        first: 0,
        second: 1,
        made,
    }
}

const fn turn(second: usize, made: &'static str) -> Row {
    Row {
        source: LOOP,
        folded: true,
        first: 0,
        second,
        made,
    }
}

// Two turns; the last turn; an atom after an update that ends at -2147483648, and one that would end
// past it; a cost of degree 2; a first update of degree 2; one chosen value, and two.
#[test]
fn edges_in_a_row(rt: HostRuntime) -> Result<(), Fail> {
    let alloc = rt.alloc();
    for row in [
        turn(
            0,
            "0 to 0, where -1 1n -1i, where -2 1n -1i, n = 1n, i = 2 1i, cost 2\n",
        ),
        turn(
            1,
            "0 to 1, where -1 1n -1i, where 1 -1n 1i, n = 1n, i = 1 1i, cost 1\n",
        ),
        plain(
            "proc f(n) { var x; x = n - 2147483647; assume (x >= 1); }",
            "0 to 2, where -2147483648 1n, n = 1n, x = -2147483647 1n, cost\n",
        ),
        plain(
            "proc f(n) { var x; x = n - 2147483647; assume (x >= 2); }",
            "",
        ),
        plain(
            "proc f(n) { var x; x = n + 1; tick x*x; }",
            "0 to 2, n = 1n, x = 1 1n, cost 1 2n 1nn\n",
        ),
        plain("proc f(n) { var x; x = n*n; tick x; }", ""),
        plain(
            "proc f(n) { var x; x = any(0, n); tick 2*x; }",
            "0 to 2, where 0 1z, where 0 1n -1z, n = 1n, x = 1z, cost 2z, any\n",
        ),
        plain("proc f(n) { var x; x = any(0, n); x = any; }", ""),
    ] {
        let p = parse_proc(alloc, row.source.as_bytes())?;
        let system = system_in(alloc, &p, row.folded)?;
        let text = match compose_two(alloc, &system, row.first, row.second)? {
            Some(edge) => edge_text(alloc, p.names.as_slice(), &edge)?,
            None => String::new(alloc),
        };
        assert_eq!(rt; text.as_str(), row.made, "{}", row.source);
    }
    Ok(())
}
