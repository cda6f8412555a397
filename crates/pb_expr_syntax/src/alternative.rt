//! The parser's choices: what stands for a rule before the next token.
ghost use Rattle.std.specs.Prelude.{◌≡◌, IfSome, IfNone, Some, None};
ghost use Rattle.pb_expr_syntax.specs.Grammar.{rules, nth};
ghost use Rattle.pb_expr_syntax.specs.Choice.{choice};
ghost use Rattle.pb_expr_syntax.specs.declared.grammar.Rule.{Rule};

use crate::grammar::{How, Kind, Make, Rule, Symbol};
use crate::tree::Op;

/// The alternative of the rule that the next token asks for.
pub(crate) fn alternative(rule: Rule, look: Option<Kind>) -> Option<&'static [Symbol]>
    ensures some { IfSome result (λ a. nth (rules rule) (choice rule look) ≡ Some a.now) }
    ensures none { IfNone result (nth (rules rule) (choice rule look) ≡ None) }
{
    match rule {
        Rule::Expr => Some(&[Symbol::Go(Rule::Or)]),
        Rule::Or => Some(&[Symbol::Go(Rule::And), Symbol::Go(Rule::Ors)]),
        Rule::Ors => Some(ors(look)),
        Rule::And => Some(&[Symbol::Go(Rule::Not), Symbol::Go(Rule::Ands)]),
        Rule::Ands => Some(ands(look)),
        Rule::Not => Some(inverted(look)),
        Rule::Cmp => Some(&[Symbol::Go(Rule::Sum), Symbol::Go(Rule::Compared)]),
        Rule::Compared => Some(compared(look)),
        Rule::Sum => Some(&[Symbol::Go(Rule::Cat), Symbol::Go(Rule::Sums)]),
        Rule::Sums => Some(sums(look)),
        Rule::Cat => Some(&[Symbol::Go(Rule::Unary), Symbol::Go(Rule::Cats)]),
        Rule::Cats => Some(cats(look)),
        Rule::Unary => Some(&[Symbol::Go(Rule::Signed), Symbol::Go(Rule::Filters)]),
        Rule::Signed => Some(signed(look)),
        Rule::Filters => Some(filters(look)),
        Rule::Presence => presence(look),
        Rule::Args => Some(args(look)),
        Rule::Items => Some(items(look)),
        Rule::More => Some(more(look)),
        Rule::Post => Some(&[Symbol::Go(Rule::Atom), Symbol::Go(Rule::Tails)]),
        Rule::Tails => Some(tails(look)),
        Rule::Word => word(look),
        Rule::Atom => atom(look),
    }
}

/// What is joined by `or`.
fn ors(look: Option<Kind>) -> &'static [Symbol]
    ensures { nth (rules Rule.Ors) (choice Rule.Ors look) ≡ Some result.now }
{
    match look {
        Some(Kind::Or) => &[
            Symbol::Take(Kind::Or, How::Skip),
            Symbol::Go(Rule::And),
            Symbol::Do(Make::Binary(Op::Or)),
            Symbol::Go(Rule::Ors),
        ],
        _ => &[],
    }
}

/// What is joined by `and`.
fn ands(look: Option<Kind>) -> &'static [Symbol]
    ensures { nth (rules Rule.Ands) (choice Rule.Ands look) ≡ Some result.now }
{
    match look {
        Some(Kind::And) => &[
            Symbol::Take(Kind::And, How::Skip),
            Symbol::Go(Rule::Not),
            Symbol::Do(Make::Binary(Op::And)),
            Symbol::Go(Rule::Ands),
        ],
        _ => &[],
    }
}

/// What `not` may stand before.
fn inverted(look: Option<Kind>) -> &'static [Symbol]
    ensures { nth (rules Rule.Not) (choice Rule.Not look) ≡ Some result.now }
{
    match look {
        Some(Kind::Not) => &[
            Symbol::Take(Kind::Not, How::Skip),
            Symbol::Go(Rule::Not),
            Symbol::Do(Make::Inverted),
        ],
        _ => &[Symbol::Go(Rule::Cmp)],
    }
}

/// What a sum is compared with.
fn compared(look: Option<Kind>) -> &'static [Symbol]
    ensures { nth (rules Rule.Compared) (choice Rule.Compared look) ≡ Some result.now }
{
    match look {
        Some(Kind::Equal) => &[
            Symbol::Take(Kind::Equal, How::Skip),
            Symbol::Go(Rule::Sum),
            Symbol::Do(Make::Binary(Op::Equal)),
        ],
        Some(Kind::NotEqual) => &[
            Symbol::Take(Kind::NotEqual, How::Skip),
            Symbol::Go(Rule::Sum),
            Symbol::Do(Make::Binary(Op::NotEqual)),
        ],
        Some(Kind::Less) => &[
            Symbol::Take(Kind::Less, How::Skip),
            Symbol::Go(Rule::Sum),
            Symbol::Do(Make::Binary(Op::Less)),
        ],
        Some(Kind::AtMost) => &[
            Symbol::Take(Kind::AtMost, How::Skip),
            Symbol::Go(Rule::Sum),
            Symbol::Do(Make::Binary(Op::AtMost)),
        ],
        Some(Kind::Greater) => &[
            Symbol::Take(Kind::Greater, How::Skip),
            Symbol::Go(Rule::Sum),
            Symbol::Do(Make::Binary(Op::Greater)),
        ],
        Some(Kind::AtLeast) => &[
            Symbol::Take(Kind::AtLeast, How::Skip),
            Symbol::Go(Rule::Sum),
            Symbol::Do(Make::Binary(Op::AtLeast)),
        ],
        Some(Kind::In) => &[
            Symbol::Take(Kind::In, How::Skip),
            Symbol::Go(Rule::Sum),
            Symbol::Do(Make::Binary(Op::In)),
        ],
        Some(Kind::Not) => &[
            Symbol::Take(Kind::Not, How::Skip),
            Symbol::Take(Kind::In, How::Skip),
            Symbol::Go(Rule::Sum),
            Symbol::Do(Make::Binary(Op::NotIn)),
        ],
        _ => &[],
    }
}

/// What is added or taken away.
fn sums(look: Option<Kind>) -> &'static [Symbol]
    ensures { nth (rules Rule.Sums) (choice Rule.Sums look) ≡ Some result.now }
{
    match look {
        Some(Kind::Plus) => &[
            Symbol::Take(Kind::Plus, How::Skip),
            Symbol::Go(Rule::Cat),
            Symbol::Do(Make::Binary(Op::Plus)),
            Symbol::Go(Rule::Sums),
        ],
        Some(Kind::Minus) => &[
            Symbol::Take(Kind::Minus, How::Skip),
            Symbol::Go(Rule::Cat),
            Symbol::Do(Make::Binary(Op::Minus)),
            Symbol::Go(Rule::Sums),
        ],
        _ => &[],
    }
}

/// What is joined by `~`.
fn cats(look: Option<Kind>) -> &'static [Symbol]
    ensures { nth (rules Rule.Cats) (choice Rule.Cats look) ≡ Some result.now }
{
    match look {
        Some(Kind::Tilde) => &[
            Symbol::Take(Kind::Tilde, How::Skip),
            Symbol::Go(Rule::Unary),
            Symbol::Do(Make::Binary(Op::Tilde)),
            Symbol::Go(Rule::Cats),
        ],
        _ => &[],
    }
}

/// What a `-` may stand before.
fn signed(look: Option<Kind>) -> &'static [Symbol]
    ensures { nth (rules Rule.Signed) (choice Rule.Signed look) ≡ Some result.now }
{
    match look {
        Some(Kind::Minus) => &[
            Symbol::Take(Kind::Minus, How::Skip),
            Symbol::Go(Rule::Signed),
            Symbol::Do(Make::Negated),
        ],
        _ => &[Symbol::Go(Rule::Post)],
    }
}

/// The filters and tests behind an operand.
fn filters(look: Option<Kind>) -> &'static [Symbol]
    ensures { nth (rules Rule.Filters) (choice Rule.Filters look) ≡ Some result.now }
{
    match look {
        Some(Kind::Bar) => &[
            Symbol::Take(Kind::Bar, How::Skip),
            Symbol::Take(Kind::Name, How::Call),
            Symbol::Do(Make::NoItems),
            Symbol::Go(Rule::Args),
            Symbol::Do(Make::Filtered),
            Symbol::Go(Rule::Filters),
        ],
        Some(Kind::Is) => &[
            Symbol::Take(Kind::Is, How::Skip),
            Symbol::Go(Rule::Presence),
            Symbol::Go(Rule::Filters),
        ],
        _ => &[],
    }
}

/// The test behind `is`.
fn presence(look: Option<Kind>) -> Option<&'static [Symbol]>
    ensures some { IfSome result (λ a. nth (rules Rule.Presence) (choice Rule.Presence look) ≡ Some a.now) }
    ensures none { IfNone result (nth (rules Rule.Presence) (choice Rule.Presence look) ≡ None) }
{
    match look {
        Some(Kind::Not) => Some(&[
            Symbol::Take(Kind::Not, How::Skip),
            Symbol::Take(Kind::Name, How::Defined),
            Symbol::Do(Make::Present(false)),
        ]),
        Some(Kind::Name) => Some(&[
            Symbol::Take(Kind::Name, How::Defined),
            Symbol::Do(Make::Present(true)),
        ]),
        _ => None,
    }
}

/// The arguments of a filter, if it has any.
fn args(look: Option<Kind>) -> &'static [Symbol]
    ensures { nth (rules Rule.Args) (choice Rule.Args look) ≡ Some result.now }
{
    match look {
        Some(Kind::Open) => &[
            Symbol::Take(Kind::Open, How::Skip),
            Symbol::Go(Rule::Items),
            Symbol::Take(Kind::Close, How::Skip),
        ],
        _ => &[],
    }
}

/// The members of a list, or the arguments.
fn items(look: Option<Kind>) -> &'static [Symbol]
    ensures { nth (rules Rule.Items) (choice Rule.Items look) ≡ Some result.now }
{
    match look {
        Some(Kind::Close) => &[],
        Some(Kind::ListClose) => &[],
        _ => &[
            Symbol::Go(Rule::Expr),
            Symbol::Do(Make::Item),
            Symbol::Go(Rule::More),
        ],
    }
}

/// The members behind the first.
fn more(look: Option<Kind>) -> &'static [Symbol]
    ensures { nth (rules Rule.More) (choice Rule.More look) ≡ Some result.now }
{
    match look {
        Some(Kind::Comma) => &[
            Symbol::Take(Kind::Comma, How::Skip),
            Symbol::Go(Rule::Expr),
            Symbol::Do(Make::Item),
            Symbol::Go(Rule::More),
        ],
        _ => &[],
    }
}

/// The members and indices behind an atom.
fn tails(look: Option<Kind>) -> &'static [Symbol]
    ensures { nth (rules Rule.Tails) (choice Rule.Tails look) ≡ Some result.now }
{
    match look {
        Some(Kind::Dot) => &[
            Symbol::Take(Kind::Dot, How::Skip),
            Symbol::Go(Rule::Word),
            Symbol::Go(Rule::Tails),
        ],
        Some(Kind::ListOpen) => &[
            Symbol::Take(Kind::ListOpen, How::Skip),
            Symbol::Go(Rule::Expr),
            Symbol::Take(Kind::ListClose, How::Skip),
            Symbol::Do(Make::Indexed),
            Symbol::Go(Rule::Tails),
        ],
        _ => &[],
    }
}

/// The name behind a `.`: words of the language are names there.
fn word(look: Option<Kind>) -> Option<&'static [Symbol]>
    ensures some { IfSome result (λ a. nth (rules Rule.Word) (choice Rule.Word look) ≡ Some a.now) }
    ensures none { IfNone result (nth (rules Rule.Word) (choice Rule.Word look) ≡ None) }
{
    match look {
        Some(Kind::Name) => Some(&[Symbol::Take(Kind::Name, How::Member)]),
        Some(Kind::And) => Some(&[Symbol::Take(Kind::And, How::Member)]),
        Some(Kind::Or) => Some(&[Symbol::Take(Kind::Or, How::Member)]),
        Some(Kind::Not) => Some(&[Symbol::Take(Kind::Not, How::Member)]),
        Some(Kind::In) => Some(&[Symbol::Take(Kind::In, How::Member)]),
        Some(Kind::Is) => Some(&[Symbol::Take(Kind::Is, How::Member)]),
        Some(Kind::True) => Some(&[Symbol::Take(Kind::True, How::Member)]),
        Some(Kind::False) => Some(&[Symbol::Take(Kind::False, How::Member)]),
        Some(Kind::Null) => Some(&[Symbol::Take(Kind::Null, How::Member)]),
        _ => None,
    }
}

/// What stands for itself, or in brackets.
fn atom(look: Option<Kind>) -> Option<&'static [Symbol]>
    ensures some { IfSome result (λ a. nth (rules Rule.Atom) (choice Rule.Atom look) ≡ Some a.now) }
    ensures none { IfNone result (nth (rules Rule.Atom) (choice Rule.Atom look) ≡ None) }
{
    match look {
        Some(Kind::Digits) => Some(&[Symbol::Take(Kind::Digits, How::Leaf)]),
        Some(Kind::Text) => Some(&[Symbol::Take(Kind::Text, How::Leaf)]),
        Some(Kind::Name) => Some(&[Symbol::Take(Kind::Name, How::Leaf)]),
        Some(Kind::True) => Some(&[Symbol::Take(Kind::True, How::Leaf)]),
        Some(Kind::False) => Some(&[Symbol::Take(Kind::False, How::Leaf)]),
        Some(Kind::Null) => Some(&[Symbol::Take(Kind::Null, How::Leaf)]),
        Some(Kind::Open) => Some(&[
            Symbol::Take(Kind::Open, How::Skip),
            Symbol::Go(Rule::Expr),
            Symbol::Take(Kind::Close, How::Skip),
        ]),
        Some(Kind::ListOpen) => Some(&[
            Symbol::Take(Kind::ListOpen, How::Skip),
            Symbol::Do(Make::NoItems),
            Symbol::Go(Rule::Items),
            Symbol::Take(Kind::ListClose, How::Skip),
            Symbol::Do(Make::Listed),
        ]),
        _ => None,
    }
}
