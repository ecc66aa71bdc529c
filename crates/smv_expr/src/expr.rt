//! Whole expressions. Each function reads one part of the grammar, and stops at the first token at which an expression
//! nests too deep: where too many constructs are open before the token, or where a tree that ends with it is too high.
//!
//! A `bound` is how high a tree may be that is read at some point: trees lower than it fit.

ghost use Rattle.std.specs.Prelude.{◌≡◌, ◌≤◌, [], ◌∷◌, false, ◌&&◌, not, IfOk};
ghost use Rattle.smv_expr.specs.Language.{begins, kinds_of, number_kinds};
ghost use Rattle.smv_expr.specs.Limits.{nesting_bound};
ghost use Rattle.smv_expr.specs.Limits.Limit.{Below};
ghost use Rattle.smv_expr.specs.ExprGrammar as grammar;
ghost use Rattle.smv_expr.specs.Reading.{Gives};
ghost use Rattle.smv_expr.specs.Nests.{Nests, at_depth, first_of, read_level};
ghost use Rattle.smv_expr.specs.ExprReaders as spec;

use crate::cursor::Cursor;
use crate::error::ReadError;
use crate::kind::Kind;
use crate::measured::{Arm, Arms, NESTING_BOUND, Operand, Parts, Tree, Trees, inside};
use crate::operand::{close, negative_interval, number, path, sign, single, up_to};
use smv_ast::{NoMemory, Op};
use std::alloc::Global;

/// Where the grammar of expressions is recursive.
#[derive(Clone, Copy, Debug, PartialEq, Eq)]
pub enum Level {
    /// A whole expression.
    Whole,
    /// What may follow a `!`.
    Negated,
    /// What may follow a `-` that negates.
    Signed,
}

static PRODUCTS: [(Kind, Op); 2] = [(Kind::Star, Op::Mul), (Kind::Mod, Op::Mod)];

static SUMS: [(Kind, Op); 2] = [(Kind::Plus, Op::Add), (Kind::Minus, Op::Sub)];

static COMPARISONS: [(Kind, Op); 6] = [
    (Kind::Equal, Op::Eq),
    (Kind::NotEqual, Op::Ne),
    (Kind::Less, Op::Lt),
    (Kind::Greater, Op::Gt),
    (Kind::LessEqual, Op::Le),
    (Kind::GreaterEqual, Op::Ge),
];

static CONJUNCTIONS: [(Kind, Op); 1] = [(Kind::And, Op::And)];

static EQUIVALENCES: [(Kind, Op); 1] = [(Kind::Iff, Op::Iff)];

static DISJUNCTIONS: [(Kind, Op); 3] = [
    (Kind::Or, Op::Or),
    (Kind::Xor, Op::Xor),
    (Kind::Xnor, Op::Xnor),
];

/// Whether a numeral comes, within the limit or over it.
fn sees_number(tokens: &Cursor<'_>) -> bool
    ensures { result ≡ begins number_kinds tokens.now }
{
    tokens.sees(Kind::Numeral) || tokens.sees(Kind::WideNumeral)
}

/// Whether what comes may begin an operand without a sign and a digit.
fn sees_primary(tokens: &Cursor<'_>) -> bool
    ensures { result ≡ begins spec.first_primary tokens.now }
{
    tokens.sees(Kind::True)
        || tokens.sees(Kind::False)
        || tokens.sees(Kind::Name)
        || tokens.sees(Kind::OpenParen)
        || tokens.sees(Kind::OpenBrace)
        || tokens.sees(Kind::Next)
        || tokens.sees(Kind::Case)
}

/// Whether an expression may begin with what comes, a numeral over the limit among them.
pub fn sees_expr(tokens: &Cursor<'_>) -> bool
    ensures { result ≡ begins spec.first_expr tokens.now }
{
    tokens.sees(Kind::Not) || sees_unary(tokens)
}

/// Whether an operand of a product may begin with what comes.
fn sees_unary(tokens: &Cursor<'_>) -> bool
    ensures { result ≡ begins spec.first_unary tokens.now }
{
    sees_number(tokens) || tokens.sees(Kind::Minus) || sees_primary(tokens)
}

/// Whether a row goes on with an operator of the table: not after an operand that begins with `!`.
fn continues(left: &Operand, tokens: &Cursor<'_>, table: &[(Kind, Op)]) -> bool
    ensures { result ≡ (not (grammar.is_closed left.now)
        && begins (kinds_of table.now) tokens.now) }
{
    !left.is_closed() && tokens.sees_one_of(table)
}

/// The same, for the `in` of a choice.
fn continues_in(left: &Operand, tokens: &Cursor<'_>) -> bool
    ensures { result ≡ (not (grammar.is_closed left.now) && begins (Kind.In ∷ []) tokens.now) }
{
    !left.is_closed() && tokens.sees(Kind::In)
}

/// Whether an expression at the level may begin with what comes.
fn sees_level(tokens: &Cursor<'_>, level: Level) -> bool
    ensures { result ≡ begins (first_of level) tokens.now }
{
    match level {
        Level::Whole | Level::Negated => sees_expr(tokens),
        Level::Signed => sees_unary(tokens),
    }
}

/// What comes where too many constructs are open: nothing is read.
#[tactic(auto, unfolding(crate::specs::ExprReaders::read_too_deep))]
fn too_deep(tokens: &mut Cursor<'_>, level: Level) -> Result<Tree, ReadError>
    ensures { Gives (spec.read_too_deep false (first_of level) tokens.old) result tokens.new }
{
    if tokens.sees(Kind::WideNumeral) {
        return Err(ReadError::WideNumber);
    }
    if sees_level(tokens, level) {
        Err(ReadError::TooNested)
    } else {
        Err(ReadError::Unexpected)
    }
}

/// The reader of expressions: where to take memory, how many constructs may still be opened, and the function that
/// reads what stands in one more.
#[derive(Clone, Copy)]
pub struct Grammar<F> {
    alloc: Global,
    depth: usize,
    expr: F,
}

/// An expression with fewer than `depth` constructs open at any point, of a tree lower than `bound`.
pub fn expr(
    alloc: Global,
    tokens: &mut Cursor<'_>,
    depth: usize,
    bound: u32,
    level: Level,
) -> Result<Tree, ReadError>
    requires small { bound ≤ nesting_bound }
    ensures { Gives (read_level depth level (Below bound) tokens.old) result tokens.new }
{
    if depth == 0 {
        return too_deep(tokens, level);
    }
    let grammar = Grammar {
        alloc,
        depth: depth - 1,
        expr,
    };
    match level {
        Level::Whole => grammar.whole(tokens, bound),
        Level::Negated => grammar.not_level(tokens, bound),
        Level::Signed => grammar.negatable(tokens, bound),
    }
}

impl<F: Fn(Global, &mut Cursor<'_>, usize, u32, Level) -> Result<Tree, ReadError>> Grammar<F> {
    fn expr(&self, tokens: &mut Cursor<'_>, bound: u32, level: Level) -> Result<Tree, ReadError>
        requires reads { Nests self.now.depth (F.pre self.now.expr) (F.post self.now.expr) }
        requires small { bound ≤ nesting_bound }
        ensures { Gives (read_level self.now.depth level (Below bound) tokens.old) result
            tokens.new }
    {
        (self.expr)(self.alloc, tokens, self.depth, bound, level)
    }

    /// An expression of its own, as one in parentheses is.
    fn inner(&self, tokens: &mut Cursor<'_>) -> Result<Tree, ReadError>
        requires reads { Nests self.now.depth (F.pre self.now.expr) (F.post self.now.expr) }
        ensures { Gives (spec.read_expr self.now.depth (Below nesting_bound) tokens.old) result
            tokens.new }
    {
        self.expr(tokens, NESTING_BOUND, Level::Whole)
    }

    /// `(expr)`.
    #[tactic(auto, unfolding(crate::specs::ExprReaders::read_parens))]
    fn parens(&self, tokens: &mut Cursor<'_>, bound: u32) -> Result<Tree, ReadError>
        requires reads { Nests self.now.depth (F.pre self.now.expr) (F.post self.now.expr) }
        requires small { bound ≤ nesting_bound }
        ensures { Gives (at_depth spec.read_parens self.now.depth (Below bound) tokens.old) result
            tokens.new }
    {
        tokens.expect(Kind::OpenParen)?;
        let inner = self.inner(tokens)?;
        close(tokens, inner.fits(bound), Kind::CloseParen)?;
        Ok(inner)
    }

    /// `next(expr)`.
    #[tactic(auto, unfolding(crate::specs::ExprReaders::read_next_value))]
    fn next_value(&self, tokens: &mut Cursor<'_>, bound: u32) -> Result<Tree, ReadError>
        requires reads { Nests self.now.depth (F.pre self.now.expr) (F.post self.now.expr) }
        requires small { bound ≤ nesting_bound }
        ensures { Gives (at_depth spec.read_next_value self.now.depth (Below bound) tokens.old)
            result tokens.new }
    {
        tokens.expect(Kind::Next)?;
        let inner = self.parens(tokens, inside(bound))?;
        Ok(Tree::next(self.alloc, inner)?)
    }

    #[tactic(auto, unfolding(crate::specs::ExprReaders::read_listed))]
    fn listed(&self, tokens: &mut Cursor<'_>, bound: u32) -> Result<Tree, ReadError>
        requires reads { Nests self.now.depth (F.pre self.now.expr) (F.post self.now.expr) }
        requires small { bound ≤ nesting_bound }
        ensures { Gives (at_depth spec.read_listed self.now.depth (Below bound) tokens.old) result
            tokens.new }
    {
        tokens.expect(Kind::Comma)?;
        self.inner(tokens)
    }

    fn more_listed(&self, tokens: &mut Cursor<'_>, bound: u32) -> Result<Trees, ReadError>
        requires reads { Nests self.now.depth (F.pre self.now.expr) (F.post self.now.expr) }
        requires small { bound ≤ nesting_bound }
        ensures { Gives (at_depth spec.read_more_listed self.now.depth (Below bound) tokens.old)
            result tokens.new }
    {
        let mut found = Trees::new(self.alloc);
        'rounds: while tokens.sees(Kind::Comma) {
            let one = self.listed(tokens, bound)?;
            found.push(one)?;
        }
        Ok(found)
    }

    /// `{expr, expr}`, of which each is lower than `bound`.
    #[tactic(auto, unfolding(crate::specs::ExprReaders::read_braces))]
    fn braces(&self, tokens: &mut Cursor<'_>, bound: u32) -> Result<Parts, ReadError>
        requires reads { Nests self.now.depth (F.pre self.now.expr) (F.post self.now.expr) }
        requires small { bound ≤ nesting_bound }
        ensures { Gives (at_depth spec.read_braces self.now.depth (Below bound) tokens.old) result
            tokens.new }
    {
        tokens.expect(Kind::OpenBrace)?;
        let first = self.inner(tokens)?;
        let more = self.more_listed(tokens, bound)?;
        let parts = Parts::each(self.alloc, first, more)?;
        close(tokens, parts.fit(bound), Kind::CloseBrace)?;
        Ok(parts)
    }

    /// `low..high`.
    #[tactic(auto, unfolding(crate::specs::ExprReaders::read_interval))]
    fn interval(&self, tokens: &mut Cursor<'_>, bound: u32) -> Result<Parts, ReadError>
        requires reads { Nests self.now.depth (F.pre self.now.expr) (F.post self.now.expr) }
        requires small { bound ≤ nesting_bound }
        ensures { Gives (at_depth spec.read_interval self.now.depth (Below bound) tokens.old) result
            tokens.new }
    {
        let low = sign(tokens, true)?;
        let high = up_to(tokens, 0 < bound)?;
        Ok(Parts::between(low, high))
    }

    #[tactic(auto, unfolding(crate::specs::ExprReaders::read_choice))]
    fn choice(&self, tokens: &mut Cursor<'_>, bound: u32) -> Result<Parts, ReadError>
        requires reads { Nests self.now.depth (F.pre self.now.expr) (F.post self.now.expr) }
        requires small { bound ≤ nesting_bound }
        ensures { Gives (at_depth spec.read_choice self.now.depth (Below bound) tokens.old) result
            tokens.new }
    {
        if tokens.sees(Kind::OpenBrace) {
            self.braces(tokens, bound)
        } else {
            self.interval(tokens, bound)
        }
    }

    #[tactic(auto, unfolding(crate::specs::ExprReaders::read_branch))]
    fn branch(&self, tokens: &mut Cursor<'_>, bound: u32) -> Result<Arm, ReadError>
        requires reads { Nests self.now.depth (F.pre self.now.expr) (F.post self.now.expr) }
        requires small { bound ≤ nesting_bound }
        ensures { Gives (at_depth spec.read_branch self.now.depth (Below bound) tokens.old) result
            tokens.new }
    {
        let cond = self.inner(tokens)?;
        tokens.expect(Kind::Colon)?;
        let value = self.inner(tokens)?;
        tokens.expect(Kind::Semicolon)?;
        Ok(Arm::new(cond, value))
    }

    fn branches(&self, tokens: &mut Cursor<'_>, bound: u32) -> Result<Arms, ReadError>
        requires reads { Nests self.now.depth (F.pre self.now.expr) (F.post self.now.expr) }
        requires small { bound ≤ nesting_bound }
        ensures { Gives (at_depth spec.read_branches self.now.depth (Below bound) tokens.old) result
            tokens.new }
    {
        let mut found = Arms::new(self.alloc);
        'rounds: while sees_expr(tokens) {
            let one = self.branch(tokens, bound)?;
            found.push(one)?;
        }
        Ok(found)
    }

    #[tactic(auto, unfolding(crate::specs::ExprReaders::read_cases))]
    fn cases(&self, tokens: &mut Cursor<'_>, bound: u32) -> Result<Tree, ReadError>
        requires reads { Nests self.now.depth (F.pre self.now.expr) (F.post self.now.expr) }
        requires small { bound ≤ nesting_bound }
        ensures { Gives (at_depth spec.read_cases self.now.depth (Below bound) tokens.old) result
            tokens.new }
    {
        tokens.expect(Kind::Case)?;
        let first = self.branch(tokens, bound)?;
        let more = self.branches(tokens, bound)?;
        let cases = Tree::cases(self.alloc, first, more)?;
        close(tokens, cases.fits(bound), Kind::Esac)?;
        Ok(cases)
    }

    /// What begins with no sign and no digit.
    #[tactic(auto, unfolding(crate::specs::ExprReaders::read_primary))]
    fn primary(&self, tokens: &mut Cursor<'_>, bound: u32) -> Result<Tree, ReadError>
        requires reads { Nests self.now.depth (F.pre self.now.expr) (F.post self.now.expr) }
        requires small { bound ≤ nesting_bound }
        ensures { Gives (at_depth spec.read_primary self.now.depth (Below bound) tokens.old) result
            tokens.new }
    {
        if tokens.sees(Kind::True) {
            close(tokens, 1 < bound, Kind::True)?;
            Ok(Tree::constant(self.alloc, true)?)
        } else if tokens.sees(Kind::False) {
            close(tokens, 1 < bound, Kind::False)?;
            Ok(Tree::constant(self.alloc, false)?)
        } else if tokens.sees(Kind::Name) {
            path(self.alloc, tokens, 1 < bound)
        } else if tokens.sees(Kind::OpenParen) {
            self.parens(tokens, bound)
        } else if tokens.sees(Kind::OpenBrace) {
            let parts = self.braces(tokens, inside(bound))?;
            Ok(Tree::pick(self.alloc, parts)?)
        } else if tokens.sees(Kind::Next) {
            self.next_value(tokens, bound)
        } else {
            self.cases(tokens, bound)
        }
    }

    /// What stands after a `-` that is no operator.
    #[tactic(auto, unfolding(crate::specs::ExprReaders::read_negated))]
    fn negated(&self, tokens: &mut Cursor<'_>, bound: u32) -> Result<Tree, ReadError>
        requires reads { Nests self.now.depth (F.pre self.now.expr) (F.post self.now.expr) }
        requires small { bound ≤ nesting_bound }
        ensures { Gives (at_depth spec.read_negated self.now.depth (Below bound) tokens.old) result
            tokens.new }
    {
        if sees_number(tokens) && tokens.sees_second(Kind::DotDot) {
            return negative_interval(self.alloc, tokens, 1 < bound);
        }
        let inner = self.expr(tokens, inside(bound), Level::Signed)?;
        Ok(Tree::negative(self.alloc, inner)?)
    }

    #[tactic(auto, unfolding(crate::specs::ExprReaders::read_minus))]
    fn minus(&self, tokens: &mut Cursor<'_>, bound: u32) -> Result<Tree, ReadError>
        requires reads { Nests self.now.depth (F.pre self.now.expr) (F.post self.now.expr) }
        requires small { bound ≤ nesting_bound }
        ensures { Gives (at_depth spec.read_minus self.now.depth (Below bound) tokens.old) result
            tokens.new }
    {
        tokens.expect(Kind::Minus)?;
        self.negated(tokens, bound)
    }

    /// What begins with no digit.
    #[tactic(auto, unfolding(crate::specs::ExprReaders::read_signed))]
    fn signed(&self, tokens: &mut Cursor<'_>, bound: u32) -> Result<Tree, ReadError>
        requires reads { Nests self.now.depth (F.pre self.now.expr) (F.post self.now.expr) }
        requires small { bound ≤ nesting_bound }
        ensures { Gives (at_depth spec.read_signed self.now.depth (Below bound) tokens.old) result
            tokens.new }
    {
        if tokens.sees(Kind::Minus) {
            self.minus(tokens, bound)
        } else {
            self.primary(tokens, bound)
        }
    }

    /// What stands between the operators of products.
    #[tactic(auto, unfolding(crate::specs::ExprReaders::read_unary))]
    fn unary(&self, tokens: &mut Cursor<'_>, bound: u32) -> Result<Tree, ReadError>
        requires reads { Nests self.now.depth (F.pre self.now.expr) (F.post self.now.expr) }
        requires small { bound ≤ nesting_bound }
        ensures { Gives (at_depth spec.read_unary self.now.depth (Below bound) tokens.old) result
            tokens.new }
    {
        if sees_number(tokens) {
            number(self.alloc, tokens, 1 < bound)
        } else {
            self.signed(tokens, bound)
        }
    }

    /// What stands after a `-` that negates.
    #[tactic(auto, unfolding(crate::specs::ExprReaders::read_negatable))]
    fn negatable(&self, tokens: &mut Cursor<'_>, bound: u32) -> Result<Tree, ReadError>
        requires reads { Nests self.now.depth (F.pre self.now.expr) (F.post self.now.expr) }
        requires small { bound ≤ nesting_bound }
        ensures { Gives (at_depth spec.read_negatable self.now.depth (Below bound) tokens.old)
            result tokens.new }
    {
        if sees_number(tokens) {
            single(self.alloc, tokens, 1 < bound)
        } else {
            self.signed(tokens, bound)
        }
    }

    #[tactic(auto, unfolding(crate::specs::ExprReaders::read_negation))]
    fn negation(&self, tokens: &mut Cursor<'_>, bound: u32) -> Result<Tree, ReadError>
        requires reads { Nests self.now.depth (F.pre self.now.expr) (F.post self.now.expr) }
        requires small { bound ≤ nesting_bound }
        ensures { Gives (at_depth spec.read_negation self.now.depth (Below bound) tokens.old) result
            tokens.new }
    {
        tokens.expect(Kind::Not)?;
        let inner = self.expr(tokens, inside(bound), Level::Negated)?;
        Ok(Tree::not(self.alloc, inner)?)
    }

    /// An operand that begins with `!`.
    #[tactic(auto, unfolding(crate::specs::ExprReaders::read_closed))]
    fn closed_operand(&self, tokens: &mut Cursor<'_>, bound: u32) -> Result<Operand, ReadError>
        requires reads { Nests self.now.depth (F.pre self.now.expr) (F.post self.now.expr) }
        requires small { bound ≤ nesting_bound }
        ensures { Gives (at_depth spec.read_closed self.now.depth (Below bound) tokens.old) result
            tokens.new }
    {
        let tree = self.negation(tokens, bound)?;
        Ok(Operand::closed_operand(tree))
    }

    #[tactic(auto, unfolding(crate::specs::ExprReaders::read_operand))]
    fn operand(&self, tokens: &mut Cursor<'_>, bound: u32) -> Result<Operand, ReadError>
        requires reads { Nests self.now.depth (F.pre self.now.expr) (F.post self.now.expr) }
        requires small { bound ≤ nesting_bound }
        ensures { Gives (at_depth spec.read_operand self.now.depth (Below bound) tokens.old) result
            tokens.new }
    {
        let tree = self.unary(tokens, bound)?;
        Ok(Operand::open_operand(tree))
    }

    #[tactic(auto, unfolding(crate::specs::ExprReaders::read_term_item))]
    fn term_item(&self, tokens: &mut Cursor<'_>, bound: u32) -> Result<(Op, Operand), ReadError>
        requires reads { Nests self.now.depth (F.pre self.now.expr) (F.post self.now.expr) }
        requires small { bound ≤ nesting_bound }
        ensures { Gives (at_depth spec.read_term_item self.now.depth (Below bound) tokens.old)
            result tokens.new }
    {
        let op = tokens.one_of(&PRODUCTS)?;
        let right = if tokens.sees(Kind::Not) {
            self.closed_operand(tokens, bound)?
        } else {
            self.operand(tokens, bound)?
        };
        Ok((op, right))
    }

    fn more_term(
        &self,
        tokens: &mut Cursor<'_>,
        bound: u32,
        first: Operand,
    ) -> Result<Operand, ReadError>
        requires reads { Nests self.now.depth (F.pre self.now.expr) (F.post self.now.expr) }
        requires small { bound ≤ nesting_bound }
        ensures { Gives (at_depth spec.read_more_term self.now.depth (Below bound) first tokens.old)
            result tokens.new }
    {
        let mut left = first;
        'rounds: while continues(&left, tokens, &PRODUCTS) {
            let (op, right) = self.term_item(tokens, left.beside(bound))?;
            left = Operand::binary(self.alloc, op, left, right)?;
        }
        Ok(left)
    }

    #[tactic(auto, unfolding(crate::specs::ExprReaders::read_term))]
    fn term(&self, tokens: &mut Cursor<'_>, bound: u32) -> Result<Operand, ReadError>
        requires reads { Nests self.now.depth (F.pre self.now.expr) (F.post self.now.expr) }
        requires small { bound ≤ nesting_bound }
        ensures { Gives (at_depth spec.read_term self.now.depth (Below bound) tokens.old) result
            tokens.new }
    {
        let first = self.operand(tokens, bound)?;
        self.more_term(tokens, bound, first)
    }

    #[tactic(auto, unfolding(crate::specs::ExprReaders::read_sum_item))]
    fn sum_item(&self, tokens: &mut Cursor<'_>, bound: u32) -> Result<(Op, Operand), ReadError>
        requires reads { Nests self.now.depth (F.pre self.now.expr) (F.post self.now.expr) }
        requires small { bound ≤ nesting_bound }
        ensures { Gives (at_depth spec.read_sum_item self.now.depth (Below bound) tokens.old) result
            tokens.new }
    {
        let op = tokens.one_of(&SUMS)?;
        let right = if tokens.sees(Kind::Not) {
            self.closed_operand(tokens, bound)?
        } else {
            self.term(tokens, bound)?
        };
        Ok((op, right))
    }

    fn more_sum(
        &self,
        tokens: &mut Cursor<'_>,
        bound: u32,
        first: Operand,
    ) -> Result<Operand, ReadError>
        requires reads { Nests self.now.depth (F.pre self.now.expr) (F.post self.now.expr) }
        requires small { bound ≤ nesting_bound }
        ensures { Gives (at_depth spec.read_more_sum self.now.depth (Below bound) first tokens.old)
            result tokens.new }
    {
        let mut left = first;
        'rounds: while continues(&left, tokens, &SUMS) {
            let (op, right) = self.sum_item(tokens, left.beside(bound))?;
            left = Operand::binary(self.alloc, op, left, right)?;
        }
        Ok(left)
    }

    #[tactic(auto, unfolding(crate::specs::ExprReaders::read_in_choice))]
    fn in_choice(&self, tokens: &mut Cursor<'_>, bound: u32) -> Result<Parts, ReadError>
        requires reads { Nests self.now.depth (F.pre self.now.expr) (F.post self.now.expr) }
        requires small { bound ≤ nesting_bound }
        ensures { Gives (at_depth spec.read_in_choice self.now.depth (Below bound) tokens.old)
            result tokens.new }
    {
        tokens.expect(Kind::In)?;
        self.choice(tokens, bound)
    }

    fn more_within(
        &self,
        tokens: &mut Cursor<'_>,
        bound: u32,
        first: Operand,
    ) -> Result<Operand, ReadError>
        requires reads { Nests self.now.depth (F.pre self.now.expr) (F.post self.now.expr) }
        requires small { bound ≤ nesting_bound }
        ensures { Gives (at_depth spec.read_more_within self.now.depth (Below bound) first
            tokens.old) result tokens.new }
    {
        let mut left = first;
        'rounds: while continues_in(&left, tokens) {
            let choice = self.in_choice(tokens, left.beside(bound))?;
            left = Operand::within(self.alloc, left, choice)?;
        }
        Ok(left)
    }

    #[tactic(auto, unfolding(crate::specs::ExprReaders::read_within, crate::specs::ExprReaders::read_sum, crate::specs::ExprReaders::read_term))]
    fn within(&self, tokens: &mut Cursor<'_>, bound: u32) -> Result<Operand, ReadError>
        requires reads { Nests self.now.depth (F.pre self.now.expr) (F.post self.now.expr) }
        requires small { bound ≤ nesting_bound }
        ensures { Gives (at_depth spec.read_within self.now.depth (Below bound) tokens.old) result
            tokens.new }
    {
        let operand = self.operand(tokens, bound)?;
        let term = self.more_term(tokens, bound, operand)?;
        let sum = self.more_sum(tokens, bound, term)?;
        self.more_within(tokens, bound, sum)
    }

    #[tactic(auto, unfolding(crate::specs::ExprReaders::read_comparison_item))]
    fn comparison_item(
        &self,
        tokens: &mut Cursor<'_>,
        bound: u32,
    ) -> Result<(Op, Operand), ReadError>
        requires reads { Nests self.now.depth (F.pre self.now.expr) (F.post self.now.expr) }
        requires small { bound ≤ nesting_bound }
        ensures { Gives (at_depth spec.read_comparison_item self.now.depth (Below bound) tokens.old)
            result tokens.new }
    {
        let op = tokens.one_of(&COMPARISONS)?;
        let right = if tokens.sees(Kind::Not) {
            self.closed_operand(tokens, bound)?
        } else {
            self.within(tokens, bound)?
        };
        Ok((op, right))
    }

    fn more_comparison(
        &self,
        tokens: &mut Cursor<'_>,
        bound: u32,
        first: Operand,
    ) -> Result<Operand, ReadError>
        requires reads { Nests self.now.depth (F.pre self.now.expr) (F.post self.now.expr) }
        requires small { bound ≤ nesting_bound }
        ensures { Gives (at_depth spec.read_more_comparison self.now.depth (Below bound) first
            tokens.old) result tokens.new }
    {
        let mut left = first;
        'rounds: while continues(&left, tokens, &COMPARISONS) {
            let (op, right) = self.comparison_item(tokens, left.beside(bound))?;
            left = Operand::binary(self.alloc, op, left, right)?;
        }
        Ok(left)
    }

    #[tactic(auto, unfolding(crate::specs::ExprReaders::read_comparison, crate::specs::ExprReaders::read_within, crate::specs::ExprReaders::read_sum, crate::specs::ExprReaders::read_term))]
    fn comparison(&self, tokens: &mut Cursor<'_>, bound: u32) -> Result<Operand, ReadError>
        requires reads { Nests self.now.depth (F.pre self.now.expr) (F.post self.now.expr) }
        requires small { bound ≤ nesting_bound }
        ensures { Gives (at_depth spec.read_comparison self.now.depth (Below bound) tokens.old)
            result tokens.new }
    {
        let operand = self.operand(tokens, bound)?;
        let term = self.more_term(tokens, bound, operand)?;
        let sum = self.more_sum(tokens, bound, term)?;
        let within = self.more_within(tokens, bound, sum)?;
        self.more_comparison(tokens, bound, within)
    }

    #[tactic(auto, unfolding(crate::specs::ExprReaders::read_not_level))]
    fn not_level(&self, tokens: &mut Cursor<'_>, bound: u32) -> Result<Tree, ReadError>
        requires reads { Nests self.now.depth (F.pre self.now.expr) (F.post self.now.expr) }
        requires small { bound ≤ nesting_bound }
        ensures { Gives (at_depth spec.read_not_level self.now.depth (Below bound) tokens.old)
            result tokens.new }
    {
        if tokens.sees(Kind::Not) {
            self.negation(tokens, bound)
        } else {
            let operand = self.comparison(tokens, bound)?;
            Ok(operand.into_tree())
        }
    }

    #[tactic(auto, unfolding(crate::specs::ExprReaders::read_and_item))]
    fn and_item(&self, tokens: &mut Cursor<'_>, bound: u32) -> Result<(Op, Tree), ReadError>
        requires reads { Nests self.now.depth (F.pre self.now.expr) (F.post self.now.expr) }
        requires small { bound ≤ nesting_bound }
        ensures { Gives (at_depth spec.read_and_item self.now.depth (Below bound) tokens.old) result
            tokens.new }
    {
        let op = tokens.one_of(&CONJUNCTIONS)?;
        let right = self.not_level(tokens, bound)?;
        Ok((op, right))
    }

    fn more_and(&self, tokens: &mut Cursor<'_>, bound: u32, first: Tree) -> Result<Tree, ReadError>
        requires reads { Nests self.now.depth (F.pre self.now.expr) (F.post self.now.expr) }
        requires small { bound ≤ nesting_bound }
        ensures { Gives (at_depth spec.read_more_and self.now.depth (Below bound) first tokens.old)
            result tokens.new }
    {
        let mut left = first;
        'rounds: while tokens.sees_one_of(&CONJUNCTIONS) {
            let (op, right) = self.and_item(tokens, left.beside(bound))?;
            left = Tree::binary(self.alloc, op, left, right)?;
        }
        Ok(left)
    }

    #[tactic(auto, unfolding(crate::specs::ExprReaders::read_and_level))]
    fn and_level(&self, tokens: &mut Cursor<'_>, bound: u32) -> Result<Tree, ReadError>
        requires reads { Nests self.now.depth (F.pre self.now.expr) (F.post self.now.expr) }
        requires small { bound ≤ nesting_bound }
        ensures { Gives (at_depth spec.read_and_level self.now.depth (Below bound) tokens.old)
            result tokens.new }
    {
        let first = self.not_level(tokens, bound)?;
        self.more_and(tokens, bound, first)
    }

    #[tactic(auto, unfolding(crate::specs::ExprReaders::read_or_item))]
    fn or_item(&self, tokens: &mut Cursor<'_>, bound: u32) -> Result<(Op, Tree), ReadError>
        requires reads { Nests self.now.depth (F.pre self.now.expr) (F.post self.now.expr) }
        requires small { bound ≤ nesting_bound }
        ensures { Gives (at_depth spec.read_or_item self.now.depth (Below bound) tokens.old) result
            tokens.new }
    {
        let op = tokens.one_of(&DISJUNCTIONS)?;
        let right = self.and_level(tokens, bound)?;
        Ok((op, right))
    }

    fn more_or(&self, tokens: &mut Cursor<'_>, bound: u32, first: Tree) -> Result<Tree, ReadError>
        requires reads { Nests self.now.depth (F.pre self.now.expr) (F.post self.now.expr) }
        requires small { bound ≤ nesting_bound }
        ensures { Gives (at_depth spec.read_more_or self.now.depth (Below bound) first tokens.old)
            result tokens.new }
    {
        let mut left = first;
        'rounds: while tokens.sees_one_of(&DISJUNCTIONS) {
            let (op, right) = self.or_item(tokens, left.beside(bound))?;
            left = Tree::binary(self.alloc, op, left, right)?;
        }
        Ok(left)
    }

    #[tactic(auto, unfolding(crate::specs::ExprReaders::read_or_level, crate::specs::ExprReaders::read_and_level))]
    fn or_level(&self, tokens: &mut Cursor<'_>, bound: u32) -> Result<Tree, ReadError>
        requires reads { Nests self.now.depth (F.pre self.now.expr) (F.post self.now.expr) }
        requires small { bound ≤ nesting_bound }
        ensures { Gives (at_depth spec.read_or_level self.now.depth (Below bound) tokens.old) result
            tokens.new }
    {
        let operand = self.not_level(tokens, bound)?;
        let and_level = self.more_and(tokens, bound, operand)?;
        self.more_or(tokens, bound, and_level)
    }

    #[tactic(auto, unfolding(crate::specs::ExprReaders::read_iff_item))]
    fn iff_item(&self, tokens: &mut Cursor<'_>, bound: u32) -> Result<(Op, Tree), ReadError>
        requires reads { Nests self.now.depth (F.pre self.now.expr) (F.post self.now.expr) }
        requires small { bound ≤ nesting_bound }
        ensures { Gives (at_depth spec.read_iff_item self.now.depth (Below bound) tokens.old) result
            tokens.new }
    {
        let op = tokens.one_of(&EQUIVALENCES)?;
        let right = self.or_level(tokens, bound)?;
        Ok((op, right))
    }

    fn more_iff(&self, tokens: &mut Cursor<'_>, bound: u32, first: Tree) -> Result<Tree, ReadError>
        requires reads { Nests self.now.depth (F.pre self.now.expr) (F.post self.now.expr) }
        requires small { bound ≤ nesting_bound }
        ensures { Gives (at_depth spec.read_more_iff self.now.depth (Below bound) first tokens.old)
            result tokens.new }
    {
        let mut left = first;
        'rounds: while tokens.sees_one_of(&EQUIVALENCES) {
            let (op, right) = self.iff_item(tokens, left.beside(bound))?;
            left = Tree::binary(self.alloc, op, left, right)?;
        }
        Ok(left)
    }

    #[tactic(auto, unfolding(crate::specs::ExprReaders::read_iff_level, crate::specs::ExprReaders::read_or_level, crate::specs::ExprReaders::read_and_level))]
    fn iff_level(&self, tokens: &mut Cursor<'_>, bound: u32) -> Result<Tree, ReadError>
        requires reads { Nests self.now.depth (F.pre self.now.expr) (F.post self.now.expr) }
        requires small { bound ≤ nesting_bound }
        ensures { Gives (at_depth spec.read_iff_level self.now.depth (Below bound) tokens.old)
            result tokens.new }
    {
        let operand = self.not_level(tokens, bound)?;
        let and_level = self.more_and(tokens, bound, operand)?;
        let or_level = self.more_or(tokens, bound, and_level)?;
        self.more_iff(tokens, bound, or_level)
    }

    #[tactic(auto, unfolding(crate::specs::ExprReaders::read_conclusion))]
    fn conclusion(&self, tokens: &mut Cursor<'_>, bound: u32) -> Result<Tree, ReadError>
        requires reads { Nests self.now.depth (F.pre self.now.expr) (F.post self.now.expr) }
        requires small { bound ≤ nesting_bound }
        ensures { Gives (at_depth spec.read_conclusion self.now.depth (Below bound) tokens.old)
            result tokens.new }
    {
        tokens.expect(Kind::Implies)?;
        self.expr(tokens, bound, Level::Whole)
    }

    #[tactic(auto, unfolding(crate::specs::ExprReaders::read_whole))]
    fn whole(&self, tokens: &mut Cursor<'_>, bound: u32) -> Result<Tree, ReadError>
        requires reads { Nests self.now.depth (F.pre self.now.expr) (F.post self.now.expr) }
        requires small { bound ≤ nesting_bound }
        ensures { Gives (at_depth spec.read_whole self.now.depth (Below bound) tokens.old) result
            tokens.new }
    {
        let left = self.iff_level(tokens, bound)?;
        if !tokens.sees(Kind::Implies) {
            return Ok(left);
        }
        let right = self.conclusion(tokens, left.beside(bound))?;
        Ok(Tree::binary(self.alloc, Op::Implies, left, right)?)
    }
}
