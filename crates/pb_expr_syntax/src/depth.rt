ghost use Rattle.std.specs.Prelude.{◌≡◌, nat_le};
ghost use Rattle.pb_expr_syntax.specs.Tree.{trees_of};
ghost use Rattle.pb_expr_syntax.specs.Depth.{depth, trees_depth};

use crate::tree::{Expr, ExprList, Form};

impl Expr {
    /// Whether the tree has no more than that many levels: a name, a number, a text, a word or an
    /// empty list has one, every other form one more than its deepest part. Parentheses add none.
    #[cycle(is_within)]
    pub fn is_within(&self, levels: u32) -> bool
        ensures { result ≡ nat_le (depth self.now) levels }
    {
        match &self.form {
            Form::List(items) => levels > 0 && items.is_within(levels - 1),
            Form::Member(x, _) => levels > 0 && x.is_within(levels - 1),
            Form::Index(x, y) => levels > 0 && x.is_within(levels - 1) && y.is_within(levels - 1),
            Form::Not(x) => levels > 0 && x.is_within(levels - 1),
            Form::Negate(x) => levels > 0 && x.is_within(levels - 1),
            Form::Binary(_, x, y) => {
                levels > 0 && x.is_within(levels - 1) && y.is_within(levels - 1)
            }
            Form::Apply(_, x, args) => {
                levels > 0 && x.is_within(levels - 1) && args.is_within(levels - 1)
            }
            Form::IsDefined(x, _) => levels > 0 && x.is_within(levels - 1),
            _ => levels > 0,
        }
    }
}

impl ExprList {
    #[cycle(is_within)]
    fn is_within(&self, levels: u32) -> bool
        ensures { result ≡ nat_le (trees_depth (trees_of self.now)) levels }
    {
        for item in &self.items {
            if !item.is_within(levels) {
                return false;
            }
        }
        true
    }
}
