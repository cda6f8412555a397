ghost use Rattle.std.specs.Prelude.{◌≡◌, ◌∷◌, [], ◌++◌, length, IfOk, OnOk, OnErr};
ghost use Rattle.pb_expr_syntax.specs.Tree as tree;
ghost use Rattle.pb_expr_syntax.specs.Tree.{trees_of};

use pb_value::text::Text;
use std::alloc::{AllocError, Global};
use std::marker::Model;

/// What a filter does.
#[derive(Clone, Copy)]
pub enum Filter {
    Default,
    Length,
    Bool,
    Int,
    Join,
}

/// What stands between two operands.
#[derive(Clone, Copy)]
pub enum Op {
    Or,
    And,
    Equal,
    NotEqual,
    Less,
    AtMost,
    Greater,
    AtLeast,
    In,
    NotIn,
    Plus,
    Minus,
    Tilde,
}

/// An expression: one level of it, in which further expressions may stand.
#[cycle(expr)]
pub struct Expr {
    pub form: Form,
}

impl Drop for Expr {
    #[cycle(expr_drop)]
    fn drop(self) {
        let Expr { form } = self;
        match form {
            Form::Int(_) | Form::Truth(_) | Form::Null => {}
            Form::Text(text) | Form::Name(text) => drop(text),
            Form::List(list) => drop(list),
            Form::Member(of, name) => {
                drop(of);
                drop(name);
            }
            Form::Index(of, at) => {
                drop(of);
                drop(at);
            }
            Form::Not(operand) | Form::Negate(operand) | Form::IsDefined(operand, _) => {
                drop(operand)
            }
            Form::Binary(_, left, right) => {
                drop(left);
                drop(right);
            }
            Form::Apply(_, operand, arguments) => {
                drop(operand);
                drop(arguments);
            }
        }
    }
}

/// One level of an expression.
#[cycle(expr)]
#[derive(Drop)]
pub enum Form {
    Int(i64),
    Text(Text),
    Name(Text),
    Truth(bool),
    Null,
    List(ExprList),
    /// The member of that name, as in `x.name`.
    Member(Box<Expr>, Text),
    /// The member under the second expression's value, as in `x[y]`.
    Index(Box<Expr>, Box<Expr>),
    Not(Box<Expr>),
    Negate(Box<Expr>),
    Binary(Op, Box<Expr>, Box<Expr>),
    /// A filter with its arguments, as in `x | default(y)`.
    Apply(Filter, Box<Expr>, ExprList),
    /// `is defined` where true, `is not defined` where false.
    IsDefined(Box<Expr>, bool),
}

/// Expressions in a row, which contracts see as their list. Like one level of an expression they are
/// open, so that a recursion over a tree in another crate can go over `&list.items`.
#[cycle(expr)]
#[derive(Drop)]
pub struct ExprList {
    pub items: Vec<Expr>,
}

impl Model for Expr {
    ghost use Rattle.pb_expr_syntax.specs.Tree.{Tree};
    ghost use Rattle.pb_expr_syntax.specs.Code.{coded_tree};

    ghost Value = { Tree };

    ghost coded = { coded_tree };

    ghost use Rattle.pb_expr_syntax.specs.Tree.{nodes};
    ghost use Rattle.pb_expr_syntax.specs.View.{view as view_of};

    ghost view = { λ x. view_of x.form };

    ghost size = { nodes };

    ghost use Rattle.pb_expr_syntax.specs.FormSize.{form_falls};
    ghost use Rattle.std.proofs.Common.{arith};

    ghost size_decreases = { λ a h. omega (arith, form_falls a.form) };
}

impl Model for ExprList {
    ghost use Rattle.std.specs.Prelude.{List, ◌+◌};
    ghost use Rattle.std.specs.Coded.{coded_list};
    ghost use Rattle.std.proofs.Common.{arith};
    ghost use Rattle.pb_expr_syntax.specs.Tree.{Tree, trees_of, trees_nodes};
    ghost use Rattle.pb_expr_syntax.specs.Code.{coded_tree};
    ghost use Rattle.pb_expr_syntax.specs.Size.{most-trees};

    ghost Value = { List Tree };

    ghost coded = { coded_list coded_tree };

    ghost view = { λ l. l.items.items };

    ghost size = { λ ts. trees_nodes (trees_of ts) + 1 };

    ghost size_decreases = { λ a h. omega (arith, most-trees a.items.items) };
}

impl ExprList {
    /// The empty row, which takes no memory.
    pub fn new(alloc: Global) -> ExprList
        ensures { result ≡ [] }
    {
        ExprList {
            items: Vec::new(alloc),
        }
    }

    /// The expressions, from the first on.
    pub fn as_slice(&self) -> &[Expr]
        ensures { result.now ≡ self.now }
    {
        self.items.as_slice()
    }

    /// The number of expressions.
    pub fn len(&self) -> usize
        ensures { result ≡ length self.now }
    {
        self.items.len()
    }

    /// Puts an expression at the end.
    pub fn push(&mut self, item: Expr) -> Result<(), AllocError>
        ensures ok { OnOk result (self.new ≡ self.old ++ item ∷ []) }
        ensures err { OnErr result (self.new ≡ self.old) }
    {
        self.items.push(item)?;
        Ok(())
    }
}

pub(crate) fn negate(alloc: Global, x: Expr) -> Result<Expr, AllocError>
    ensures { IfOk result (λ r. r ≡ tree.Negate x) }
{
    let form = Form::Negate(Box::new(alloc, x)?);
    Ok(Expr { form })
}

pub(crate) fn not(alloc: Global, x: Expr) -> Result<Expr, AllocError>
    ensures { IfOk result (λ r. r ≡ tree.Not x) }
{
    let form = Form::Not(Box::new(alloc, x)?);
    Ok(Expr { form })
}

pub(crate) fn is_defined(alloc: Global, x: Expr, present: bool) -> Result<Expr, AllocError>
    ensures { IfOk result (λ r. r ≡ tree.IsDefined x present) }
{
    let form = Form::IsDefined(Box::new(alloc, x)?, present);
    Ok(Expr { form })
}

pub(crate) fn member(alloc: Global, x: Expr, name: Text) -> Result<Expr, AllocError>
    ensures { IfOk result (λ r. r ≡ tree.Member x name) }
{
    let form = Form::Member(Box::new(alloc, x)?, name);
    Ok(Expr { form })
}

pub(crate) fn index(alloc: Global, x: Expr, y: Expr) -> Result<Expr, AllocError>
    ensures { IfOk result (λ r. r ≡ tree.Index x y) }
{
    let x = Box::new(alloc, x)?;
    let y = Box::new(alloc, y)?;
    let form = Form::Index(x, y);
    Ok(Expr { form })
}

pub(crate) fn binary(alloc: Global, op: Op, x: Expr, y: Expr) -> Result<Expr, AllocError>
    ensures { IfOk result (λ r. r ≡ tree.Binary op x y) }
{
    let x = Box::new(alloc, x)?;
    let y = Box::new(alloc, y)?;
    let form = Form::Binary(op, x, y);
    Ok(Expr { form })
}

pub(crate) fn list(items: ExprList) -> Expr
    ensures { result ≡ tree.ListOf (trees_of items) }
{
    Expr {
        form: Form::List(items),
    }
}

pub(crate) fn apply(
    alloc: Global,
    filter: Filter,
    x: Expr,
    args: ExprList,
) -> Result<Expr, AllocError>
    ensures { IfOk result (λ r. r ≡ tree.Apply filter x (trees_of args)) }
{
    let x = Box::new(alloc, x)?;
    let form = Form::Apply(filter, x, args);
    Ok(Expr { form })
}
