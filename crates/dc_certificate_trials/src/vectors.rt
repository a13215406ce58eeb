//! Sparse and whole vectors.
use dc_cert::{Item, Sparse, dense_of, sparse_of};
use dc_frac::Frac;
use sqlite_items::Items;
use std::test::Fail;

fn has_parts(f: &Frac, num: i128, den: i128) -> bool {
    f.num == num && f.den == den
}

// The values 1, 0, -1/2 and 0.
#[test]
fn items_of_a_vector(rt: HostRuntime) -> Result<(), Fail> {
    let zero = Frac::whole(0);
    let v = [Frac::whole(1), zero, Frac::new(-1, 2), zero];
    let s = sparse_of(rt.alloc(), &v)?;
    let table = [(0, 1, 1), (2, -1, 2)];
    let items = s.items.as_slice();
    assert!(rt; items.len() == 2);
    assert!(rt;
        items.iter().zip(&table).all(|(item, row)| item.index == row.0
            && has_parts(&item.value, row.1, row.2))
    );
    Ok(())
}

#[test]
fn vector_of_an_item(rt: HostRuntime) -> Result<(), Fail> {
    let alloc = rt.alloc();
    let mut items = Items::new(alloc);
    items.push(Item {
        index: 1,
        value: Frac::new(-1, 2),
    })?;
    let v = dense_of(alloc, &Sparse { items }, 3)?;
    let table = [(0, 1), (-1, 2), (0, 1)];
    assert!(rt; v.len() == 3);
    assert!(rt;
        v.iter()
            .zip(&table)
            .all(|(f, row)| has_parts(f, row.0, row.1))
    );
    Ok(())
}
