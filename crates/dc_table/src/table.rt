//! The main problem while it is built, duty by duty.
ghost use Rattle.std.specs.Prelude.{◌≡◌, ◌≤◌, ◌<◌, ◌+◌, ◌-◌, ◌*◌, ◌^◌, ◌++◌, ◌∷◌, [], IfOk, OnOk, All, flat_map, length, map, replicate, pos, negsuc};
ghost use Rattle.dc_math.specs.OrderedLists.{Ordered};
ghost use Rattle.dc_poly.specs.Terms.{Before, coef};
ghost use Rattle.dc_poly.specs.Sums.{negated};
ghost use Rattle.dc_table.specs.Tables.{AreListed, IsEmptyTable, IsExtended, IsProblemOf, IsSound, both_entries, extended, lists, opposite_entries};

use dc_coefficients::{Block, push_entries};
use dc_lp::{Entry, Problem};
use dc_poly::{Mono, Poly};
use std::alloc::{AllocError, Global};

/// The equations so far, and the columns by their entries in these.
#[derive(Drop)]
pub struct Table {
    pub rows: usize,
    /// The plus and the minus column of each unknown.
    pub unknowns: Vec<Vec<Entry>>,
    /// The column of each multiplier.
    pub products: Vec<Vec<Entry>>,
    pub b: Vec<i128>,
}

impl Table {
    /// Without equations, with so many columns of unknowns.
    pub fn new(alloc: Global, columns: usize) -> Result<Table, AllocError>
        ensures { IfOk result (IsEmptyTable columns) }
    {
        Ok(Table {
            rows: 0,
            unknowns: empty_columns(alloc, columns)?,
            products: Vec::new(alloc),
            b: Vec::new(alloc),
        })
    }

    /// Adds the equations of a duty.
    pub fn add(&mut self, alloc: Global, block: &Block) -> Result<(), AllocError>
        requires sound { IsSound block.now }
        requires two_each { length self.old.unknowns.items ≡ 2 * length block.now.parts.items }
        requires room { self.old.rows + length block.now.monos.items < 2 ^ 63 }
        ensures { OnOk result (IsExtended block.now self.old self.new) }
    {
        let row = self.rows;
        let monos = block.monos.as_slice();
        extend(
            alloc,
            &mut self.unknowns,
            row,
            monos,
            block.parts.as_slice(),
        )?;
        push_products(
            alloc,
            &mut self.products,
            row,
            monos,
            block.products.as_slice(),
        )?;
        push_right_sides(alloc, &mut self.b, monos, &block.rest)?;
        self.rows = row + monos.len();
        Ok(())
    }

    /// The problem: the columns of the unknowns, then those of the multipliers; the threshold,
    /// which is the first unknown, costs itself.
    pub fn into_problem(self, alloc: Global) -> Result<Problem, AllocError>
        requires { 2 ≤ length self.unknowns.items }
        ensures { IfOk result (IsProblemOf self) }
    {
        let Table {
            rows,
            unknowns,
            mut products,
            b,
        } = self;
        let mut columns = unknowns;
        columns.append(&mut products)?;
        let cost = costs(alloc, columns.as_slice().len())?;
        Ok(Problem {
            rows,
            columns,
            b,
            cost,
        })
    }
}

// So many columns without entries.
fn empty_columns(alloc: Global, count: usize) -> Result<Vec<Vec<Entry>>, AllocError>
    ensures { IfOk result (λ v. lists v.items ≡ replicate count []) }
{
    let mut columns = Vec::new(alloc);
    for _column in 0..count {
        columns.push(Vec::new(alloc))?;
    }
    Ok(columns)
}

// Adds to both columns of each unknown the entries of its part.
fn extend(
    alloc: Global,
    columns: &mut Vec<Vec<Entry>>,
    row: usize,
    monos: &[Mono],
    parts: &[Poly],
) -> Result<(), AllocError>
    requires in_order { Ordered Before monos.now }
    requires listed { All (AreListed monos.now) parts.now }
    requires two_each { length columns.old.items ≡ 2 * length parts.now }
    requires room { row + length monos.now < 2 ^ 63 }
    ensures { OnOk result
        (lists columns.new.items
        ≡ extended (lists columns.old.items) (flat_map (both_entries row monos.now) parts.now)) }
{
    for (k, part) in parts.iter().enumerate() {
        push_entries(&mut columns[2 * k], row, monos, part)?;
        push_opposites(alloc, &mut columns[2 * k + 1], row, monos, part)?;
    }
    Ok(())
}

// Adds the opposite entries of a polynomial.
fn push_opposites(
    alloc: Global,
    column: &mut Vec<Entry>,
    row: usize,
    monos: &[Mono],
    form: &Poly,
) -> Result<(), AllocError>
    requires in_order { Ordered Before monos.now }
    requires listed { AreListed monos.now form.now }
    requires room { row + length monos.now < 2 ^ 63 }
    ensures { OnOk result
        (column.new.items ≡ column.old.items ++ opposite_entries row monos.now form.now) }
{
    let minus = form.neg(alloc)?;
    push_entries(column, row, monos, &minus)
}

// Adds a column for each product: the entries of its opposite.
fn push_products(
    alloc: Global,
    columns: &mut Vec<Vec<Entry>>,
    row: usize,
    monos: &[Mono],
    products: &[Poly],
) -> Result<(), AllocError>
    requires in_order { Ordered Before monos.now }
    requires listed { All (AreListed monos.now) products.now }
    requires room { row + length monos.now < 2 ^ 63 }
    ensures { OnOk result
        (lists columns.new.items
        ≡ lists columns.old.items ++ map (opposite_entries row monos.now) products.now) }
{
    for product in products {
        columns.push(product_column(alloc, row, monos, product)?)?;
    }
    Ok(())
}

// The column of a product.
fn product_column(
    alloc: Global,
    row: usize,
    monos: &[Mono],
    product: &Poly,
) -> Result<Vec<Entry>, AllocError>
    requires in_order { Ordered Before monos.now }
    requires listed { AreListed monos.now product.now }
    requires room { row + length monos.now < 2 ^ 63 }
    ensures { IfOk result (λ v. v.items ≡ opposite_entries row monos.now product.now) }
{
    let mut column = Vec::new(alloc);
    push_opposites(alloc, &mut column, row, monos, product)?;
    Ok(column)
}

// Adds the right sides: minus the rest.
fn push_right_sides(
    alloc: Global,
    b: &mut Vec<i128>,
    monos: &[Mono],
    rest: &Poly,
) -> Result<(), AllocError>
    ensures { OnOk result
        (b.new.items ≡ b.old.items ++ map (coef (negated rest.now.terms)) monos.now) }
{
    let minus = rest.neg(alloc)?;
    for mono in monos {
        b.push(minus.coef(mono))?;
    }
    Ok(())
}

// 1 and -1 for the threshold, and 0 for the others of so many columns.
fn costs(alloc: Global, count: usize) -> Result<Vec<i128>, AllocError>
    requires { 2 ≤ count }
    ensures { IfOk result (λ v. v.items ≡ pos 1 ∷ negsuc 0 ∷ replicate (count - 2) (pos 0)) }
{
    let mut cost = Vec::new(alloc);
    cost.push(1)?;
    cost.push(-1)?;
    for _column in 2..count {
        cost.push(0)?;
    }
    Ok(cost)
}
