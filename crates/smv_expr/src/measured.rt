//! Trees as they are read, each with its height.
//!
//! A tree of one node has height 1, and heights past the limit of nesting are not distinguished. Contracts see the trees
//! alone.

ghost use Rattle.std.specs.Prelude.{◌≡◌, ℕ, ◌≤◌, ◌<◌, suc, max, List, [], ◌∷◌, ◌++◌, true, false, IfOk};
ghost use Rattle.smv_ast.specs.declared.syntax.Branch.{roll-Branch};
ghost use Rattle.smv_expr.specs.Heights.{height, choice_height};
ghost use Rattle.smv_expr.specs.Limits.{capped, fits, inside, beside, nesting_bound};
ghost use Rattle.smv_expr.specs.Limits.Limit.{Below};
ghost use Rattle.smv_expr.specs.ExprGrammar.{constant};
ghost use Rattle.smv_expr.specs.ExprGrammar as grammar;

use smv_ast::{Boxed, Branch, Choice, Expr, List, NoMemory, Op, Path};
use std::alloc::Global;
use std::marker::Model;

/// No tree is higher than a thousand, and no more than a thousand constructs are open at any point: both are below this
/// number.
pub const NESTING_BOUND: u32 = 1001;

/// The height of a node above parts of which this is the greatest.
fn above(height: u32) -> u32
    ensures { height ≤ nesting_bound → result ≡ capped (suc height) }
{
    if height < NESTING_BOUND {
        height + 1
    } else {
        NESTING_BOUND
    }
}

/// The bound for the one part of a node, where trees lower than `bound` fit.
pub fn inside(bound: u32) -> u32
    ensures is { Below result ≡ inside (Below bound) }
    ensures small { result ≤ bound }
{
    bound.saturating_sub(1)
}

/// An expression. It is boxed, so that the readers, which call each other deep, hand on little.
#[derive(Drop)]
pub struct Tree {
    expr: Boxed<Expr>,
    height: u32,
}

impl Model for Tree {
    ghost use Rattle.smv_ast.specs.declared.syntax.Expr.{Expr};
    ghost use Rattle.smv_ast.specs.contracts.syntax.Expr as e;
    ghost use Rattle.std.specs.Coded.{codes};
    ghost use Rattle.std.specs.Prelude.{◌≡◌};
    ghost use Rattle.smv_expr.specs.Heights as heights;
    ghost use Rattle.smv_expr.specs.Limits.{capped};

    ghost Value = { Expr };

    ghost coded = { Prim.hlevel (codes, e.the_row.coded) };

    ghost view = { λ t. t.expr };

    ghost invariant = { λ t. t.height ≡ capped (heights.height t.expr) };
}

impl Tree {
    fn leaf(alloc: Global, expr: Expr) -> Result<Tree, NoMemory>
        requires { height expr ≡ 1 }
        ensures { IfOk result (λ t. t ≡ expr) }
    {
        Ok(Tree {
            expr: Boxed::new(alloc, expr)?,
            height: 1,
        })
    }

    /// TRUE or FALSE.
    #[tactic(auto, using(crate::proofs::HeightLemmas::height_constant))]
    pub fn constant(alloc: Global, value: bool) -> Result<Tree, NoMemory>
        ensures { IfOk result (λ t. t ≡ constant value) }
    {
        let expr = if value { Expr::True } else { Expr::False };
        Tree::leaf(alloc, expr)
    }

    /// A numeral.
    #[tactic(auto, using(crate::proofs::HeightLemmas::height_number))]
    pub fn number(alloc: Global, value: u32) -> Result<Tree, NoMemory>
        ensures { IfOk result (λ t. t ≡ Expr.Number value) }
    {
        Tree::leaf(alloc, Expr::Number(value))
    }

    /// A path.
    #[tactic(auto, using(crate::proofs::HeightLemmas::height_name))]
    pub fn path(alloc: Global, path: Path) -> Result<Tree, NoMemory>
        ensures { IfOk result (λ t. t ≡ Expr.Name path) }
    {
        Tree::leaf(alloc, Expr::Name(path))
    }

    /// `low..high` as a value.
    #[tactic(auto, using(crate::proofs::HeightLemmas::height_interval))]
    pub fn interval(alloc: Global, low: i64, high: i64) -> Result<Tree, NoMemory>
        ensures { IfOk result (λ t. t ≡ Expr.Pick (Choice.Between low high)) }
    {
        Tree::leaf(alloc, Expr::Pick(Choice::Between { low, high }))
    }

    /// `-a`.
    #[tactic(auto, using(crate::proofs::HeightLemmas::height_neg))]
    pub fn negative(alloc: Global, a: Tree) -> Result<Tree, NoMemory>
        ensures { IfOk result (λ t. t ≡ Expr.Neg a) }
    {
        Ok(Tree {
            height: above(a.height),
            expr: Boxed::new(alloc, Expr::Neg(a.expr))?,
        })
    }

    /// `!a`.
    #[tactic(auto, using(crate::proofs::HeightLemmas::height_not))]
    pub fn not(alloc: Global, a: Tree) -> Result<Tree, NoMemory>
        ensures { IfOk result (λ t. t ≡ Expr.Not a) }
    {
        Ok(Tree {
            height: above(a.height),
            expr: Boxed::new(alloc, Expr::Not(a.expr))?,
        })
    }

    /// `next(a)`.
    #[tactic(auto, using(crate::proofs::HeightLemmas::height_next))]
    pub fn next(alloc: Global, a: Tree) -> Result<Tree, NoMemory>
        ensures { IfOk result (λ t. t ≡ Expr.Next a) }
    {
        Ok(Tree {
            height: above(a.height),
            expr: Boxed::new(alloc, Expr::Next(a.expr))?,
        })
    }

    /// Two expressions with an operator between them.
    #[tactic(auto, using(crate::proofs::HeightLemmas::height_binary))]
    pub fn binary(alloc: Global, op: Op, left: Tree, right: Tree) -> Result<Tree, NoMemory>
        ensures { IfOk result (λ t. t ≡ Expr.Binary op left right) }
    {
        Ok(Tree {
            height: above(left.height.max(right.height)),
            expr: Boxed::new(alloc, Expr::Binary(op, left.expr, right.expr))?,
        })
    }

    /// `a in choice`.
    #[tactic(auto, using(crate::proofs::HeightLemmas::height_within))]
    pub fn within(alloc: Global, a: Tree, choice: Parts) -> Result<Tree, NoMemory>
        ensures { IfOk result (λ t. t ≡ Expr.Within a choice) }
    {
        Ok(Tree {
            height: above(a.height.max(choice.height)),
            expr: Boxed::new(alloc, Expr::Within(a.expr, choice.choice))?,
        })
    }

    /// A case, of its first branch and the branches after it.
    #[tactic(auto, using(crate::proofs::HeightLemmas::height_all_cases))]
    pub fn cases(alloc: Global, first: Arm, more: Arms) -> Result<Tree, NoMemory>
        ensures { IfOk result (λ t. t ≡ Expr.Cases (first ∷ more)) }
    {
        let height = above(first.height.max(more.height));
        let mut branches = List::new(alloc);
        branches.push(first.branch)?;
        branches.append(more.branches)?;
        Ok(Tree {
            expr: Boxed::new(alloc, Expr::Cases(branches))?,
            height,
        })
    }

    /// A set of values as a value.
    #[tactic(auto, using(crate::proofs::HeightLemmas::height_pick))]
    pub fn pick(alloc: Global, choice: Parts) -> Result<Tree, NoMemory>
        ensures { IfOk result (λ t. t ≡ Expr.Pick choice) }
    {
        Ok(Tree {
            height: above(choice.height),
            expr: Boxed::new(alloc, Expr::Pick(choice.choice))?,
        })
    }

    /// Whether the tree is lower than `bound`.
    pub fn fits(&self, bound: u32) -> bool
        ensures { result ≡ fits (Below bound) (height self.now) }
    {
        self.height < bound
    }

    /// The bound for what stands beside this tree below one node, where trees lower than `bound` fit. It is 0 where
    /// the node is too high by this tree alone.
    pub fn beside(&self, bound: u32) -> u32
        ensures is { Below result ≡ beside (height self.now) (Below bound) }
        ensures small { result ≤ bound }
    {
        let within = inside(bound);
        if self.height < within { within } else { 0 }
    }

    pub fn into_expr(self) -> Expr
        ensures { result ≡ self }
    {
        self.expr.into_inner()
    }
}

/// An operand, and whether it ends in one that begins with `!`.
#[derive(Drop)]
pub struct Operand {
    tree: Tree,
    is_closed: bool,
}

impl Model for Operand {
    ghost use Rattle.smv_ast.specs.declared.syntax.Expr.{Expr};
    ghost use Rattle.smv_ast.specs.contracts.syntax.Expr as e;
    ghost use Rattle.std.specs.Coded.{codes};
    ghost use Rattle.std.specs.Prelude.{Bool};

    ghost Value = { Expr × Bool };

    ghost coded = { Prim.hlevel (codes, e.the_row.coded) };

    ghost view = { λ o. (o.tree, o.is_closed) };
}

impl Operand {
    /// One that does not end so.
    pub fn open_operand(tree: Tree) -> Operand
        ensures { result ≡ grammar.open_operand tree }
    {
        Operand {
            tree,
            is_closed: false,
        }
    }

    /// One that begins with `!`.
    pub fn closed_operand(tree: Tree) -> Operand
        ensures { result ≡ grammar.closed_operand tree }
    {
        Operand {
            tree,
            is_closed: true,
        }
    }

    /// Two with an operator between them.
    pub fn binary(alloc: Global, op: Op, left: Operand, right: Operand) -> Result<Operand, NoMemory>
        ensures { IfOk result (λ o. o ≡ grammar.joined_operand left (op, right)) }
    {
        Ok(Operand {
            tree: Tree::binary(alloc, op, left.tree, right.tree)?,
            is_closed: left.is_closed || right.is_closed,
        })
    }

    /// `left in choice`.
    pub fn within(alloc: Global, left: Operand, choice: Parts) -> Result<Operand, NoMemory>
        ensures { IfOk result (λ o. o ≡ grammar.within_operand left choice) }
    {
        Ok(Operand {
            tree: Tree::within(alloc, left.tree, choice)?,
            is_closed: left.is_closed,
        })
    }

    pub fn is_closed(&self) -> bool
        ensures { result ≡ grammar.is_closed self.now }
    {
        self.is_closed
    }

    /// The bound for what stands beside the operand, as for its tree.
    pub fn beside(&self, bound: u32) -> u32
        ensures is { Below result ≡ beside (height self.now.0) (Below bound) }
        ensures small { result ≤ bound }
    {
        self.tree.beside(bound)
    }

    pub fn into_tree(self) -> Tree
        ensures { result ≡ self.0 }
    {
        self.tree
    }
}

/// The parts of a set of values.
#[derive(Drop)]
pub struct Parts {
    choice: Choice,
    height: u32,
}

impl Model for Parts {
    ghost use Rattle.smv_ast.specs.declared.syntax.Choice.{Choice};
    ghost use Rattle.smv_ast.specs.contracts.syntax.Choice as c;
    ghost use Rattle.std.specs.Coded.{codes};
    ghost use Rattle.std.specs.Prelude.{◌≡◌};
    ghost use Rattle.smv_expr.specs.Heights.{choice_height};
    ghost use Rattle.smv_expr.specs.Limits.{capped};

    ghost Value = { Choice };

    ghost coded = { Prim.hlevel (codes, c.the_row.coded) };

    ghost view = { λ p. p.choice };

    ghost invariant = { λ p. p.height ≡ capped (choice_height p.choice) };
}

impl Parts {
    /// `low..high`.
    #[tactic(auto, using(crate::proofs::HeightLemmas::height_between))]
    pub fn between(low: i64, high: i64) -> Parts
        ensures { result ≡ Choice.Between low high }
    {
        Parts {
            choice: Choice::Between { low, high },
            height: 0,
        }
    }

    /// The first expression, and those after it.
    #[tactic(auto, using(crate::proofs::HeightLemmas::height_all_parts))]
    pub fn each(alloc: Global, first: Tree, more: Trees) -> Result<Parts, NoMemory>
        ensures { IfOk result (λ p. p ≡ Choice.Each (first ∷ more)) }
    {
        let height = first.height.max(more.height);
        let mut exprs = List::new(alloc);
        exprs.push(first.expr.into_inner())?;
        exprs.append(more.exprs)?;
        Ok(Parts {
            choice: Choice::Each(exprs),
            height,
        })
    }

    /// Whether each part is lower than `bound`.
    pub fn fit(&self, bound: u32) -> bool
        ensures { result ≡ fits (Below bound) (choice_height self.now) }
    {
        self.height < bound
    }
}

/// Expressions in a row.
#[derive(Drop)]
pub struct Trees {
    exprs: List<Expr>,
    height: u32,
}

impl Model for Trees {
    ghost use Rattle.smv_ast.specs.declared.syntax.Expr.{Expr};
    ghost use Rattle.smv_ast.specs.contracts.syntax.Expr as e;
    ghost use Rattle.std.specs.Coded.{codes};
    ghost use Rattle.std.specs.Prelude.{◌≡◌, List, map};
    ghost use Rattle.smv_expr.specs.Heights as heights;
    ghost use Rattle.smv_expr.specs.Limits.{capped};

    ghost Value = { List Expr };

    ghost coded = { Prim.hlevel (codes, e.the_row.coded) };

    ghost view = { λ t. t.exprs };

    ghost invariant = { λ t. t.height ≡ capped (heights.greatest (map heights.height t.exprs)) };
}

impl Trees {
    pub fn new(alloc: Global) -> Trees
        ensures { result ≡ [] }
    {
        Trees {
            exprs: List::new(alloc),
            height: 0,
        }
    }

    /// Adds the tree after the others. After `NoMemory` there are the same.
    pub fn push(&mut self, tree: Tree) -> Result<(), NoMemory>
        ensures { IfOk result (λ _. self.new ≡ self.old ++ tree ∷ []) }
    {
        let height = self.height.max(tree.height);
        self.exprs.push(tree.expr.into_inner())?;
        self.height = height;
        Ok(())
    }
}

/// A branch of a case.
#[derive(Drop)]
pub struct Arm {
    branch: Branch,
    height: u32,
}

impl Model for Arm {
    ghost use Rattle.smv_ast.specs.declared.syntax.Branch.{Branch};
    ghost use Rattle.smv_ast.specs.contracts.syntax.Branch as b;
    ghost use Rattle.std.specs.Coded.{codes};
    ghost use Rattle.std.specs.Prelude.{◌≡◌};
    ghost use Rattle.smv_expr.specs.Heights.{branch_height};
    ghost use Rattle.smv_expr.specs.Limits.{capped};

    ghost Value = { Branch };

    ghost coded = { Prim.hlevel (codes, b.the_row.coded) };

    ghost view = { λ a. a.branch };

    ghost invariant = { λ a. a.height ≡ capped (branch_height a.branch) };
}

impl Arm {
    #[tactic(auto, using(crate::proofs::HeightLemmas::height_branch))]
    pub fn new(cond: Tree, value: Tree) -> Arm
        ensures { result ≡ roll-Branch (record { cond = cond; value = value }) }
    {
        Arm {
            height: cond.height.max(value.height),
            branch: Branch {
                cond: cond.expr.into_inner(),
                value: value.expr.into_inner(),
            },
        }
    }
}

/// Branches of a case, in a row.
#[derive(Drop)]
pub struct Arms {
    branches: List<Branch>,
    height: u32,
}

impl Model for Arms {
    ghost use Rattle.smv_ast.specs.declared.syntax.Branch.{Branch};
    ghost use Rattle.smv_ast.specs.contracts.syntax.Branch as b;
    ghost use Rattle.std.specs.Coded.{codes};
    ghost use Rattle.std.specs.Prelude.{◌≡◌, List, map};
    ghost use Rattle.smv_expr.specs.Heights.{branch_height, greatest};
    ghost use Rattle.smv_expr.specs.Limits.{capped};

    ghost Value = { List Branch };

    ghost coded = { Prim.hlevel (codes, b.the_row.coded) };

    ghost view = { λ a. a.branches };

    ghost invariant = { λ a. a.height ≡ capped (greatest (map branch_height a.branches)) };
}

impl Arms {
    pub fn new(alloc: Global) -> Arms
        ensures { result ≡ [] }
    {
        Arms {
            branches: List::new(alloc),
            height: 0,
        }
    }

    /// Adds the branch after the others. After `NoMemory` there are the same.
    pub fn push(&mut self, arm: Arm) -> Result<(), NoMemory>
        ensures { IfOk result (λ _. self.new ≡ self.old ++ arm ∷ []) }
    {
        let height = self.height.max(arm.height);
        self.branches.push(arm.branch)?;
        self.height = height;
        Ok(())
    }
}
