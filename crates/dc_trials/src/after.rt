//! Linear forms after an update of degree 2.
ghost use Rattle.std.specs.Prelude.{IfOk};
ghost use Rattle.dc_system.specs.Shapes.{IsEdge};

use dc_poly::Poly;
use dc_system::{Edge, RowAfter, row_after};
use sqlite_items::Items;
use std::alloc::{AllocError, Global};
use std::test::Fail;

// Over n, x and y: n becomes n + 1, and x and y become n * n.
fn squares(alloc: Global) -> Result<Edge, AllocError>
    ensures { IfOk result (IsEdge 3) }
{
    let n = Poly::variable(alloc, 0, 4)?;
    let one = Poly::constant(alloc, 1, 4)?;
    let mut update = Vec::new(alloc);
    update.push(n.add(alloc, &one)?)?;
    update.push(n.mul(alloc, &n)?)?;
    update.push(n.mul(alloc, &n)?)?;
    Ok(Edge {
        from: 0,
        to: 1,
        guard: Items::new(alloc),
        update: Items::from_vec(update),
        any: false,
        cost: n,
    })
}

// 3 + 3 * n, and whether that is the whole.
fn is_three(after: &RowAfter, is_affine: bool) -> bool {
    after.constant == 3
        && after.coefs.as_slice() == [3, 0, 0, 0].as_slice()
        && after.is_affine == is_affine
}

// 3 * n + x - y becomes 3 * (n + 1), since the squares fall out; 3 * n + x becomes 3 * (n + 1) + n * n, and x + y keeps two squares.
#[test]
fn rows_after_squares(rt: HostRuntime) -> Result<(), Fail> {
    let alloc = rt.alloc();
    let edge = squares(alloc)?;
    assert!(rt; is_three(&row_after(alloc, &edge, &[3, 1, -1], 3)?, true));
    assert!(rt; is_three(&row_after(alloc, &edge, &[3, 1, 0], 3)?, false));
    assert!(rt; is_three(&row_after(alloc, &edge, &[3, 1, 1], 3)?, false));
    Ok(())
}
