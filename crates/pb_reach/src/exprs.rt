//! Names in expressions.
ghost use Rattle.std.specs.Prelude.{◌≡◌};
ghost use Rattle.pb_expr_syntax.specs.Tree.{trees_of};
ghost use Rattle.pb_reach.specs.Named.{in_tree, in_trees};
ghost use Rattle.pb_reach.specs.Reached.{some_name, some_name_in, layers_lead};

use crate::variables::layers_lead;
use pb_expr_syntax::tree::{Expr, ExprList, Form};
use pb_layers::layers::Layers;

/// Whether an expression has a name; a key behind a dot is none.
#[cycle(names)]
pub(crate) fn has_name(word: &str, expr: &Expr) -> bool
    ensures { result ≡ in_tree word.now expr.now }
{
    match &expr.form {
        Form::Name(name) => name.as_str() == word,
        Form::List(list) => some_has(word, list),
        Form::Member(x, _) => has_name(word, x),
        Form::Index(x, y) => has_name(word, x) || has_name(word, y),
        Form::Not(x) => has_name(word, x),
        Form::Negate(x) => has_name(word, x),
        Form::Binary(_, x, y) => has_name(word, x) || has_name(word, y),
        Form::Apply(_, x, args) => has_name(word, x) || some_has(word, args),
        Form::IsDefined(x, _) => has_name(word, x),
        Form::Int(_) | Form::Text(_) | Form::Truth(_) | Form::Null => false,
    }
}

#[cycle(names)]
fn some_has(word: &str, list: &ExprList) -> bool
    ensures { result ≡ in_trees word.now (trees_of list.now) }
{
    for expr in &list.items {
        if has_name(word, expr) {
            return true;
        }
    }
    false
}

/// Whether one of some expressions has a name.
pub(crate) fn some_names(word: &str, exprs: &[Expr]) -> bool
    ensures { result ≡ in_trees word.now (trees_of exprs.now) }
{
    for expr in exprs {
        if has_name(word, expr) {
            return true;
        }
    }
    false
}

/// Whether one of an expression's names stands for a template.
#[cycle(reached)]
fn reaches(layers: &Layers, expr: &Expr) -> bool
    ensures { result ≡ some_name (layers_lead layers.now) expr.now }
{
    match &expr.form {
        Form::Name(name) => layers_lead(layers, name.as_str()),
        Form::List(list) => some_reaches(layers, list),
        Form::Member(x, _) => reaches(layers, x),
        Form::Index(x, y) => reaches(layers, x) || reaches(layers, y),
        Form::Not(x) => reaches(layers, x),
        Form::Negate(x) => reaches(layers, x),
        Form::Binary(_, x, y) => reaches(layers, x) || reaches(layers, y),
        Form::Apply(_, x, args) => reaches(layers, x) || some_reaches(layers, args),
        Form::IsDefined(x, _) => reaches(layers, x),
        Form::Int(_) | Form::Text(_) | Form::Truth(_) | Form::Null => false,
    }
}

#[cycle(reached)]
fn some_reaches(layers: &Layers, list: &ExprList) -> bool
    ensures { result ≡ some_name_in (layers_lead layers.now) (trees_of list.now) }
{
    for expr in &list.items {
        if reaches(layers, expr) {
            return true;
        }
    }
    false
}

/// Whether one of the names of some expressions does.
pub(crate) fn some_reach(layers: &Layers, exprs: &[Expr]) -> bool
    ensures { result ≡ some_name_in (layers_lead layers.now) (trees_of exprs.now) }
{
    for expr in exprs {
        if reaches(layers, expr) {
            return true;
        }
    }
    false
}
