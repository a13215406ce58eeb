//! What each duty adds to the main problem: its monomials, the parts of the unknowns, the rest and
//! the products.
#![tactic(auto)]

mod block;
mod duties;
mod parts;
mod plan;
mod products;
mod states;
mod unknowns;

pub use block::block_of;
pub use duties::duties_in_order;
pub use plan::{Programs, SidePlan, Task};
pub use products::duty_product_count;
