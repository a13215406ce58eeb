//! Sums of atoms, each times its multiplier.
ghost use Rattle.std.specs.Prelude.{◌≡◌, ◌+◌, ◌<◌, ◌≤◌, length, All, Some};
ghost use Rattle.std.specs.Option.{option_map};
ghost use Rattle.dc_frac.specs.Fits.{IsSmall};
ghost use Rattle.dc_frac.specs.Value.{value};
ghost use Rattle.dc_lp.specs.Folds.{folded};
ghost use Rattle.dc_points.specs.Stated.{atom_number};
ghost use Rattle.dc_cert.specs.Vectors.{AreItems, IsBelow, entry_of};
ghost use Rattle.dc_clauses.specs.Hyps.{atoms_of};
ghost use Rattle.dc_clauses.specs.Lines.{part as part_of};

use dc_affine::Atom;
use dc_cert::Item;
use dc_frac::Frac;
use dc_lp::add_term;

/// Atoms that hold together: those of a location, and behind them those of a guard.
#[derive(Drop)]
pub struct Hyps<'a> {
    pub atoms: &'a [Atom],
    pub guard: &'a [Atom],
}

impl<'a> Hyps<'a> {
    /// How many atoms these are.
    pub fn len(&self) -> usize
        requires { length (atoms_of self.now) ≤ 2000 }
        ensures { result ≡ length (atoms_of self.now) }
    {
        self.atoms.len() + self.guard.len()
    }

    /// The atom with a number.
    pub fn get(&self, number: usize) -> &Atom
        requires { number < length (atoms_of self.now) }
        ensures { result.now ≡ atom_number (atoms_of self.now) number }
    {
        if number < self.atoms.len() {
            &self.atoms[number]
        } else {
            &self.guard[number - self.atoms.len()]
        }
    }
}

/// A part of an atom over so many places: its coefficient at a place, and behind them its constant.
fn part(atom: &Atom, places: usize, place: usize) -> i128
    ensures value { result ≡ part_of places atom.now place }
    ensures small { IsSmall result }
{
    if place == places {
        return atom.c0 as i128;
    }
    match atom.coefs.as_slice().get(place) {
        Some(coef) => *coef as i128,
        None => 0,
    }
}

/// A part of the sum of atoms, each times its multiplier; `None` exactly where it doesn't fit.
pub fn part_sum(hyps: &Hyps, places: usize, items: &[Item], place: usize) -> Option<Frac>
    requires rising { AreItems 0 items.now }
    requires below { All (IsBelow (length (atoms_of hyps.now))) items.now }
    ensures { option_map value result
        ≡ folded (length (atoms_of hyps.now))
        (λ j. part_of places (atom_number (atoms_of hyps.now) j) place) (entry_of items.now) }
{
    let mut sum = Frac::whole(0);
    for item in items {
        let atom = hyps.get(item.index);
        sum = add_term(sum, part(atom, places, place), item.value)?;
    }
    Some(sum)
}

/// The product of a vector with the parts of an atom; `None` exactly where it doesn't fit.
pub fn column_sum(atom: &Atom, places: usize, items: &[Item]) -> Option<Frac>
    requires rising { AreItems 0 items.now }
    requires below { All (IsBelow (places + 1)) items.now }
    ensures { option_map value result
        ≡ folded (places + 1) (part_of places atom.now) (entry_of items.now) }
{
    let mut sum = Frac::whole(0);
    for item in items {
        sum = add_term(sum, part(atom, places, item.index), item.value)?;
    }
    Some(sum)
}
