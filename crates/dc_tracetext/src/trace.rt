//! A trace.
use sqlite_items::Items;

/// How one run of a procedure goes: a number for each parameter, and its choices in the order in
/// which they are made.
#[derive(Debug, Drop)]
pub struct Trace {
    pub input: Items<i64>,
    pub choices: Items<i64>,
}
