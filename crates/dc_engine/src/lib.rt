//! The analysis of two programs: the problems of its session, solved one after the other, and the
//! certificate that their outcomes give.
#![tactic(auto)]

mod body;
mod cases;
mod fault;
mod lent;
mod main_problem;
mod session;
mod sides;
mod versions;

pub use dc_cert::Settings;
pub use dc_session::{AnalyseFault, PastAt};
pub use session::{analyse, analyse_on};
