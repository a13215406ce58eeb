//! Clauses 4 and 6: whether what holds along an edge, or at the exit, is dead or live.
ghost use Rattle.std.specs.Prelude.{◌≡◌, ◌≤◌};
ghost use Rattle.dc_clauses.specs.Steps.{counted, first_failure};
ghost use Rattle.dc_clauses.specs.Lent.{IsEdgePart, IsShaped};
ghost use Rattle.dc_clauses.specs.Sides.{edge_test as shows_edge, edge_tests, exit_test as shows_exit};

use crate::cases::alone;
use crate::lines::line_test;
use crate::shape::{atoms_at, edge_hyps, edge_places};
use crate::step::{Step, failure};
use dc_cert::{EdgeCert, SideCert};
use dc_system::{Edge, System};

/// Whether an edge's line shows what holds along it dead or live.
fn edge_test(s: &System, x: &SideCert, e: &Edge, c: &EdgeCert) -> Option<bool>
    requires part { IsEdgePart s.now x.now e.now c.now }
    ensures { result ≡ shows_edge s.now x.now e.now c.now }
{
    line_test(&edge_hyps(x, e), edge_places(s.vars, e), &c.live)
}

/// The first edge of which clause 4 does not hold. The edges count on from `start`.
pub fn edge_failure(s: &System, x: &SideCert, start: usize) -> Option<Step>
    requires shaped { IsShaped s.now x.now }
    requires room { start ≤ 512 }
    ensures { result ≡ first_failure (counted 4 start (edge_tests s.now x.now)) }
{
    let edges = s.edges.as_slice();
    let certs = x.edges.as_slice();
    for k in 0..edges.len() {
        let test = edge_test(s, x, &edges[k], &certs[k]);
        if let Some(step) = failure(4, start + k, test) {
            return Some(step);
        }
    }
    None
}

/// Whether the exit's line shows its atoms dead or live.
pub fn exit_test(s: &System, x: &SideCert) -> Option<bool>
    requires shaped { IsShaped s.now x.now }
    ensures { result ≡ shows_exit s.now x.now }
{
    line_test(&alone(atoms_at(x, s.locs - 1)), s.vars, &x.exit_line)
}
