//! Expressions made from their parts. The place is where the first token of the expression begins.

ghost use Rattle.std.specs.Prelude.{◌≡◌, ◌∷◌, [], ◌++◌, IfOk, map};
ghost use Rattle.sail_syntax.specs.Tree as t;
ghost use Rattle.sail_syntax.specs.View.{cases_of, choice_of, step_of, steps_of, tree, trees};

use bv_bits::Bits;
use lex_core::Name;
use sail_syntax::{Arm, Expr, Index, Infix, Node, Stmt};
use sqlite_items::{Boxed, Items};
use std::alloc::{AllocError, Global};

/// `()`.
pub fn unit(at: usize) -> Expr
    ensures { tree result ≡ t.node at t.unit }
{
    let node = Node::Unit;
    Expr { at, node }
}

/// A literal.
pub fn literal(bits: Bits, at: usize) -> Expr
    ensures { tree result ≡ t.node at (t.lit bits) }
{
    let node = Node::Lit(bits);
    Expr { at, node }
}

/// `true` or `false`.
pub fn truth(of: bool, at: usize) -> Expr
    ensures { tree result ≡ t.node at (t.truth of) }
{
    let node = Node::Truth(of);
    Expr { at, node }
}

/// A name.
pub fn variable(name: Name, at: usize) -> Expr
    ensures { tree result ≡ t.node at (t.name name) }
{
    let node = Node::Var(name);
    Expr { at, node }
}

/// `exit()`.
pub fn exit(at: usize) -> Expr
    ensures { tree result ≡ t.node at t.exit }
{
    let node = Node::Exit;
    Expr { at, node }
}

/// A call.
pub fn call(name: Name, args: Items<Expr>, at: usize) -> Expr
    ensures { tree result ≡ t.node at (t.call name (trees (map tree args))) }
{
    let node = Node::Call { name, args };
    Expr { at, node }
}

/// A block.
pub fn block(steps: Items<Stmt>, at: usize) -> Expr
    ensures { tree result ≡ t.node at (t.block (steps_of (map step_of steps))) }
{
    let node = Node::Block(steps);
    Expr { at, node }
}

/// A chain, with its last operand.
pub fn chain(op: Infix, mut parts: Items<Expr>, last: Expr, at: usize) -> Result<Expr, AllocError>
    ensures { IfOk result (λ e. tree e ≡ t.node at (t.chain op (trees (map tree parts ++ tree last ∷ [])))) }
{
    parts.push(last)?;
    let node = Node::Chain { op, parts };
    Ok(Expr { at, node })
}

/// `~`.
pub fn flip(alloc: Global, of: Expr, at: usize) -> Result<Expr, AllocError>
    ensures { IfOk result (λ e. tree e ≡ t.node at (t.flip (tree of))) }
{
    let of = Boxed::new(alloc, of)?;
    let node = Node::Flip(of);
    Ok(Expr { at, node })
}

/// A slice.
pub fn slice(alloc: Global, of: Expr, hi: Index, lo: Index, at: usize) -> Result<Expr, AllocError>
    ensures { IfOk result (λ e. tree e ≡ t.node at (t.slice (tree of) hi lo)) }
{
    let of = Boxed::new(alloc, of)?;
    let node = Node::Slice { of, hi, lo };
    Ok(Expr { at, node })
}

/// An update.
pub fn update(
    alloc: Global,
    of: Expr,
    hi: Index,
    lo: Index,
    by: Expr,
    at: usize,
) -> Result<Expr, AllocError>
    ensures { IfOk result (λ e. tree e ≡ t.node at (t.update (tree of) hi lo (tree by))) }
{
    let of = Boxed::new(alloc, of)?;
    let by = Boxed::new(alloc, by)?;
    Ok(boxed_update(of, hi, lo, by, at))
}

/// An update of parts on the heap.
fn boxed_update(of: Boxed<Expr>, hi: Index, lo: Index, by: Boxed<Expr>, at: usize) -> Expr
    ensures { tree result ≡ t.node at (t.update (tree of) hi lo (tree by)) }
{
    let node = Node::With { of, hi, lo, by };
    Expr { at, node }
}

/// A widening.
pub fn widen(alloc: Global, signed: bool, to: u32, of: Expr, at: usize) -> Result<Expr, AllocError>
    ensures { IfOk result (λ e. tree e ≡ t.node at (t.widen signed to (tree of))) }
{
    let of = Boxed::new(alloc, of)?;
    let node = Node::Widen { signed, to, of };
    Ok(Expr { at, node })
}

/// An if without else.
pub fn when(alloc: Global, test: Expr, yes: Expr, at: usize) -> Result<Expr, AllocError>
    ensures { IfOk result (λ e. tree e ≡ t.node at (t.when (tree test) (tree yes))) }
{
    let test = Boxed::new(alloc, test)?;
    let yes = Boxed::new(alloc, yes)?;
    Ok(boxed_when(test, yes, at))
}

/// An if without else of parts on the heap.
fn boxed_when(test: Boxed<Expr>, yes: Boxed<Expr>, at: usize) -> Expr
    ensures { tree result ≡ t.node at (t.when (tree test) (tree yes)) }
{
    let no = None;
    let node = Node::If { test, yes, no };
    Expr { at, node }
}

/// An if with else.
pub fn choose(
    alloc: Global,
    test: Expr,
    yes: Expr,
    other: Expr,
    at: usize,
) -> Result<Expr, AllocError>
    ensures { IfOk result (λ e. tree e ≡ t.node at (t.choose (tree test) (tree yes) (tree other))) }
{
    let test = Boxed::new(alloc, test)?;
    let yes = Boxed::new(alloc, yes)?;
    let other = Boxed::new(alloc, other)?;
    Ok(boxed_choose(test, yes, other, at))
}

/// An if with else of parts on the heap.
fn boxed_choose(test: Boxed<Expr>, yes: Boxed<Expr>, other: Boxed<Expr>, at: usize) -> Expr
    ensures { tree result ≡ t.node at (t.choose (tree test) (tree yes) (tree other)) }
{
    let no = Some(other);
    let node = Node::If { test, yes, no };
    Expr { at, node }
}

/// A match.
pub fn cases(alloc: Global, on: Expr, arms: Items<Arm>, at: usize) -> Result<Expr, AllocError>
    ensures { IfOk result (λ e. tree e ≡ t.node at (t.cases (tree on) (cases_of (map choice_of arms)))) }
{
    let on = Boxed::new(alloc, on)?;
    let node = Node::Match { on, arms };
    Ok(Expr { at, node })
}

/// A foreach.
pub fn foreach(
    alloc: Global,
    var: Name,
    from: u32,
    to: u32,
    body: Expr,
    at: usize,
) -> Result<Expr, AllocError>
    ensures { IfOk result (λ e. tree e ≡ t.node at (t.foreach var from to (tree body))) }
{
    let body = Boxed::new(alloc, body)?;
    let node = Node::Foreach {
        var,
        from,
        to,
        body,
    };
    Ok(Expr { at, node })
}

/// An assert.
pub fn check(alloc: Global, test: Expr, text: Name, at: usize) -> Result<Expr, AllocError>
    ensures { IfOk result (λ e. tree e ≡ t.node at (t.check (tree test) text)) }
{
    let test = Boxed::new(alloc, test)?;
    let node = Node::Assert { test, text };
    Ok(Expr { at, node })
}

/// An assignment.
pub fn assign(alloc: Global, to: Name, by: Expr, at: usize) -> Result<Expr, AllocError>
    ensures { IfOk result (λ e. tree e ≡ t.node at (t.assign to (tree by))) }
{
    let by = Boxed::new(alloc, by)?;
    let node = Node::Assign { to, by };
    Ok(Expr { at, node })
}
