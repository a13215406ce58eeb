//! How tightly the outermost operator of an expression or a condition binds.
ghost use Rattle.std.specs.Prelude.{◌≡◌};
ghost use Rattle.dc_syntax.specs.Text.{is_within, written_expr, written_cond};

use crate::tree::{Cond, Expr};

/// Sums and `||` are loose, products and `&&` stand in the middle, all else is tight.
#[derive(Clone, Copy, Debug, PartialEq)]
pub enum Layer {
    Loose,
    Middle,
    Tight,
}

impl Layer {
    /// Whether it binds at least as tightly as is asked.
    pub fn is_within(self, asked: Layer) -> bool
        ensures { result ≡ is_within self asked }
    {
        match asked {
            Layer::Loose => true,
            Layer::Middle => !matches!(self, Layer::Loose),
            Layer::Tight => matches!(self, Layer::Tight),
        }
    }
}
