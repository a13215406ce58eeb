//! What shows printed atoms.
ghost use Rattle.std.specs.Prelude.{◌≡◌, ◌<◌, ◌∷◌, [], IfOk, IfErr, true, length};
ghost use Rattle.std.specs.List.{AllByRecursion};
ghost use Rattle.dc_math.specs.Members.{Among};
ghost use Rattle.dc_affine.specs.Atoms.{IsFullAtom};
ghost use Rattle.dc_program.specs.Programs.{IsCondition};
ghost use Rattle.dc_system.specs.Shapes.{IsWellFormed};
ghost use Rattle.dc_points.specs.Points.{IsDead};
ghost use Rattle.dc_points.specs.Shown.{IsFlag, AreFlags};
ghost use Rattle.dc_families.specs.Graphs.{graph_of};
ghost use Rattle.dc_families.specs.Families.{family_of};
ghost use Rattle.dc_families.specs.Moves.{edge_places as places_of};
ghost use Rattle.dc_families.specs.Rounds.{IsInductive};
ghost use Rattle.dc_moves.specs.Cuts.{with_guard as guarded};
ghost use Rattle.dc_greatest.specs.Answers.{IsFault};
ghost use Rattle.dc_invariant.specs.Keeps.{KeepsAsk, printed_at, kept_atoms, exit_atoms, exit_asked, atom_at_entry, atom_along};
ghost use Rattle.dc_invariant.specs.Shown.{IsLine};
ghost use Rattle.dc_invariant.specs.Answers.{TellsKeeps};
ghost use Rattle.dc_invariant.specs.Lent.{Only, IsKeeping, graph, case_asked, IsCasePart, EntryAsks, AreEntryKeeps, EdgeAsks, IsEdgePart, EdgesAsk, AreEdgeParts, IsEntryKeep, IsKeepAlong, AreKeepsAlong, AlongAsks};

use crate::asking::{keep, line};
use dc_affine::Atom;
use dc_cert::{EdgeCert, Liveness, SideCert, Sparse};
use dc_entail::Site;
use dc_greatest::InvFault;
use dc_lp::Tableau;
use dc_moves::{copy_atoms, edge_places, first_numbers, with_guard};
use dc_syntax::Side;
use dc_system::{Edge, System, row_after};
use sqlite_items::Items;
use std::alloc::{AllocError, Global};

/// A program's system, the cases of the condition and whether each is live, and the printed atoms
/// of each location.
#[derive(Drop)]
pub(crate) struct Keeping<'a> {
    pub side: Side,
    pub system: &'a System,
    pub cases: &'a [Items<Atom>],
    pub live: &'a [bool],
    pub printed: &'a [Items<Atom>],
    pub budget: u64,
}

/// The printed atoms of a location.
fn atoms_of<'a>(t: &'a Keeping, location: usize) -> &'a [Atom]
    requires lent { IsKeeping t.now }
    requires inside { location < t.now.system.now.locs }
    ensures { result.now ≡ printed_at (graph t.now) t.now.printed.now location }
{
    t.printed[location].as_slice()
}

/// The atoms of an edge at its places: those printed at its source, then its guard.
fn edge_atoms(alloc: Global, t: &Keeping, edge: &Edge) -> Result<Vec<Atom>, AllocError>
    requires lent { IsKeeping t.now }
    requires edge { Among edge.now t.now.system.now.edges }
    ensures { IfOk result
        (λ v. v.items ≡ guarded (places_of t.now.system.now.vars edge.now)
        (printed_at (graph t.now) t.now.printed.now edge.now.from) edge.now) }
{
    let atoms = copy_atoms(alloc, atoms_of(t, edge.from))?;
    with_guard(alloc, atoms, edge, edge_places(t.system.vars, edge))
}

/// How a live case shows a printed atom of the entry.
fn entry_keep<T: Tableau>(
    alloc: Global,
    t: &Keeping,
    case_number: usize,
    case: &[Atom],
    number: usize,
    atom: &Atom,
    tableau: &mut T,
) -> Result<Sparse, InvFault>
    requires lent { IsKeeping t.now }
    requires case { Among case.now t.now.cases.now }
    requires live { ¬ IsDead case.now }
    requires atom { Among atom.now (printed_at (graph t.now) t.now.printed.now 0) }
    ensures answer { IfOk result (IsEntryKeep t.now case.now atom.now) }
    ensures fault { IfErr result
        (IsFault t.now.budget
        (Only (atom_at_entry t.now.side
        (graph t.now) t.now.printed.now case_number case.now number atom.now ∷ []))) }
{
    let form = first_numbers(alloc, atom.coefs.as_slice(), t.system.params)?;
    let site = Site::KeptEntry {
        side: t.side,
        case: case_number,
        atom: number,
    };
    keep(alloc, site, case, &form, tableau, t.budget)
}

/// How a live case shows each printed atom of the entry.
fn case_keeps<T: Tableau>(
    alloc: Global,
    t: &Keeping,
    case_number: usize,
    case: &[Atom],
    tableau: &mut T,
) -> Result<Items<Sparse>, InvFault>
    requires lent { IsKeeping t.now }
    requires case { Among case.now t.now.cases.now }
    requires live { ¬ IsDead case.now }
    ensures answer { IfOk result (IsCasePart t.now case_number case.now true) }
    ensures fault { IfErr result
        (IsFault t.now.budget (Only (case_asked t.now case_number case.now true))) }
{
    let mut keeps = Items::new(alloc);
    let atoms = atoms_of(t, 0);
    for (number, atom) in atoms.iter().enumerate() {
        match entry_keep(alloc, t, case_number, case, number, atom, tableau) {
            Ok(keep) => keeps.push(keep)?,
            Err(fault) => return Err(fault),
        }
    }
    Ok(keeps)
}

/// The keeps of a case: none where it is dead.
fn keeps_if_live<T: Tableau>(
    alloc: Global,
    t: &Keeping,
    case_number: usize,
    case: &[Atom],
    live: bool,
    tableau: &mut T,
) -> Result<Items<Sparse>, InvFault>
    requires lent { IsKeeping t.now }
    requires case { Among case.now t.now.cases.now }
    requires flag { IsFlag live case.now }
    ensures answer { IfOk result (IsCasePart t.now case_number case.now live) }
    ensures fault { IfErr result
        (IsFault t.now.budget (Only (case_asked t.now case_number case.now live))) }
{
    if !live {
        return Ok(Items::new(alloc));
    }
    case_keeps(alloc, t, case_number, case, tableau)
}

/// For each case its keeps.
fn entry_keeps<T: Tableau>(
    alloc: Global,
    t: &Keeping,
    tableau: &mut T,
) -> Result<Items<Items<Sparse>>, InvFault>
    requires lent { IsKeeping t.now }
    ensures answer { IfOk result (AreEntryKeeps t.now) }
    ensures fault { IfErr result (IsFault t.now.budget (EntryAsks t.now)) }
{
    let mut keeps = Items::new(alloc);
    for (number, case) in t.cases.iter().enumerate() {
        match keeps_if_live(alloc, t, number, case.as_slice(), t.live[number], tableau) {
            Ok(part) => keeps.push(part)?,
            Err(fault) => return Err(fault),
        }
    }
    Ok(keeps)
}

/// How an edge shows a printed atom of its target, by the edge's atoms at its places.
fn edge_keep<T: Tableau>(
    alloc: Global,
    t: &Keeping,
    edge_number: usize,
    edge: &Edge,
    hyps: &[Atom],
    number: usize,
    atom: &Atom,
    tableau: &mut T,
) -> Result<Sparse, InvFault>
    requires lent { IsKeeping t.now }
    requires edge { Among edge.now t.now.system.now.edges }
    requires hyps { hyps.now
        ≡ guarded (places_of t.now.system.now.vars edge.now)
        (printed_at (graph t.now) t.now.printed.now edge.now.from) edge.now }
    requires live { ¬ IsDead (kept_atoms (graph t.now) t.now.printed.now edge.now) }
    requires atom { Among atom.now (printed_at (graph t.now) t.now.printed.now edge.now.to) }
    ensures answer { IfOk result (IsKeepAlong t.now edge.now atom.now) }
    ensures fault { IfErr result
        (IsFault t.now.budget
        (Only (atom_along t.now.side
        (graph t.now) t.now.printed.now edge_number edge.now number atom.now ∷ []))) }
{
    let vars = t.system.vars;
    let places = edge_places(vars, edge);
    let row = row_after(alloc, edge, atom.coefs.as_slice(), vars)?;
    let form = &row.coefs.as_slice()[..places];
    let site = Site::KeptAtom {
        side: t.side,
        edge: edge_number,
        atom: number,
    };
    keep(alloc, site, hyps, form, tableau, t.budget)
}

/// How a live edge shows each printed atom of its target.
fn edge_keeps<T: Tableau>(
    alloc: Global,
    t: &Keeping,
    edge_number: usize,
    edge: &Edge,
    hyps: &[Atom],
    tableau: &mut T,
) -> Result<Items<Sparse>, InvFault>
    requires lent { IsKeeping t.now }
    requires edge { Among edge.now t.now.system.now.edges }
    requires hyps { hyps.now
        ≡ guarded (places_of t.now.system.now.vars edge.now)
        (printed_at (graph t.now) t.now.printed.now edge.now.from) edge.now }
    requires live { ¬ IsDead (kept_atoms (graph t.now) t.now.printed.now edge.now) }
    ensures answer { IfOk result (AreKeepsAlong t.now edge_number edge.now) }
    ensures fault { IfErr result (IsFault t.now.budget (AlongAsks t.now edge_number edge.now)) }
{
    let mut keeps = Items::new(alloc);
    let atoms = atoms_of(t, edge.to);
    for (number, atom) in atoms.iter().enumerate() {
        match edge_keep(alloc, t, edge_number, edge, hyps, number, atom, tableau) {
            Ok(keep) => keeps.push(keep)?,
            Err(fault) => return Err(fault),
        }
    }
    Ok(keeps)
}

/// The line of an edge, and where it is live its keeps.
fn edge_part<T: Tableau>(
    alloc: Global,
    t: &Keeping,
    edge_number: usize,
    edge: &Edge,
    tableau: &mut T,
) -> Result<EdgeCert, InvFault>
    requires lent { IsKeeping t.now }
    requires edge { Among edge.now t.now.system.now.edges }
    ensures answer { IfOk result (IsEdgePart t.now edge_number edge.now) }
    ensures fault { IfErr result (IsFault t.now.budget (EdgeAsks t.now edge_number edge.now)) }
{
    let places = edge_places(t.system.vars, edge);
    let hyps = edge_atoms(alloc, t, edge)?;
    let site = Site::KeptEdge {
        side: t.side,
        edge: edge_number,
    };
    let live = match line(alloc, site, &hyps, places, tableau, t.budget) {
        Ok(live) => live,
        Err(fault) => return Err(fault),
    };
    if !live.is_live() {
        let keeps = Items::new(alloc);
        return Ok(EdgeCert { live, keeps });
    }
    match edge_keeps(alloc, t, edge_number, edge, &hyps, tableau) {
        Ok(keeps) => Ok(EdgeCert { live, keeps }),
        Err(fault) => Err(fault),
    }
}

/// The parts of all edges.
fn edge_parts<T: Tableau>(
    alloc: Global,
    t: &Keeping,
    tableau: &mut T,
) -> Result<Items<EdgeCert>, InvFault>
    requires lent { IsKeeping t.now }
    ensures answer { IfOk result (AreEdgeParts t.now) }
    ensures fault { IfErr result (IsFault t.now.budget (EdgesAsk t.now)) }
{
    let mut parts = Items::new(alloc);
    for (number, edge) in t.system.edges.as_slice().iter().enumerate() {
        match edge_part(alloc, t, number, edge, tableau) {
            Ok(part) => parts.push(part)?,
            Err(fault) => return Err(fault),
        }
    }
    Ok(parts)
}

/// The line of the exit.
fn exit_line<T: Tableau>(alloc: Global, t: &Keeping, tableau: &mut T) -> Result<Liveness, InvFault>
    requires lent { IsKeeping t.now }
    ensures answer { IfOk result
        (IsLine (exit_atoms (graph t.now) t.now.printed.now) t.now.system.now.vars t.now.budget) }
    ensures fault { IfErr result
        (IsFault t.now.budget (Only (exit_asked t.now.side (graph t.now) t.now.printed.now ∷ []))) }
{
    let atoms = atoms_of(t, t.system.locs - 1);
    let site = Site::Exit { side: t.side };
    line(alloc, site, atoms, t.system.vars, tableau, t.budget)
}

/// The side of a certificate: the printed atoms that are handed in, for each live case of the
/// condition the multipliers that show those of the entry, for each edge whether it is live and the
/// multipliers that show those of its target, and whether the exit is live. Each vector is that of
/// the outcome of its problem.
///
/// # Errors
/// `Past128` and `Budget` exactly where the first of these problems that does not come to its end
/// has them, with its site. After a refusal the printed atoms are given up. The tableau is lent as
/// working space and left in no state that is told.
pub fn keep_proofs<T: Tableau>(
    alloc: Global,
    side: Side,
    s: &System,
    cases: &[Items<Atom>],
    live: &[bool],
    printed: Items<Items<Atom>>,
    tableau: &mut T,
    budget: u64,
) -> Result<SideCert, InvFault>
    requires system { IsWellFormed s.now }
    requires condition { IsCondition s.now.params cases.now }
    requires flags { AreFlags live.now cases.now }
    requires one_each { length printed ≡ s.now.locs }
    requires atoms { AllByRecursion (AllByRecursion (IsFullAtom s.now.vars)) printed }
    requires inductive { IsInductive (graph_of s.now) cases.now (family_of printed) }
    ensures answer { IfOk result (TellsKeeps side (graph_of s.now) cases.now live.now printed budget) }
    ensures fault { IfErr result
        (IsFault budget (KeepsAsk side (graph_of s.now) printed cases.now live.now)) }
{
    let lent = Keeping {
        side,
        system: s,
        cases,
        live,
        printed: printed.as_slice(),
        budget,
    };
    let entry_keeps = match entry_keeps(alloc, &lent, tableau) {
        Ok(keeps) => keeps,
        Err(fault) => return Err(fault),
    };
    let edges = match edge_parts(alloc, &lent, tableau) {
        Ok(parts) => parts,
        Err(fault) => return Err(fault),
    };
    let exit_line = match exit_line(alloc, &lent, tableau) {
        Ok(line) => line,
        Err(fault) => return Err(fault),
    };
    Ok(SideCert {
        families: printed,
        entry_keeps,
        edges,
        exit_line,
    })
}
