//! Expressions.

ghost use Rattle.std.specs.Prelude.{◌≡◌, ℕ, List, [], ◌∷◌, IfOk};
ghost use Rattle.op_forms.specs.declared.op.Op.TheVariants as op_named;
ghost use Rattle.py_ast.specs.declared.expr.Expr.TheVariants as expr;
ghost use Rattle.node_tree.specs.Blocks as tree;
ghost use Rattle.py_meaning.specs.Resolved as meaning;
ghost use Rattle.reform_expr.specs.Arguments.{arguments};
ghost use Rattle.reform_all.specs.Built as built;
ghost use Rattle.reform_all.specs.Names.{Holds};
ghost use Rattle.reform_all.specs.Expressions.{Expressed, Does, names_print};

use crate::bound::Bound;
use crate::ending::ReformEnd;
use node_tree::Temps;
use nu_text::RcStr;
use op_forms::{Const, Op};
use py_ast::{Argument, Binary, Comparison, Expr, Unary};
use reform_base::Part;
use reform_expr::{Home, call, constant, name, operate};
use std::alloc::{AllocError, Global};

/// The operation of a sign before its operand (reference, section 6.6).
fn unary_op(sign: Unary) -> Op
    ensures { result ≡ meaning.unary_op sign }
{
    match sign {
        Unary::Plus => Op::Pos,
        Unary::Minus => Op::Neg,
        Unary::Invert => Op::Inv,
    }
}

/// The operation of an operator between its operands (reference, sections 6.5, 6.7 to 6.9).
fn binary_op(operator: Binary) -> Op
    ensures { result ≡ meaning.binary_op operator }
{
    match operator {
        Binary::BitOr => Op::Or,
        Binary::BitXor => Op::Xor,
        Binary::BitAnd => Op::And,
        Binary::LeftShift => Op::LShift,
        Binary::RightShift => Op::RShift,
        Binary::Add => Op::Add,
        Binary::Subtract => Op::Sub,
        Binary::Multiply => Op::Mul,
        Binary::FloorDivide => Op::FloorDiv,
        Binary::Remainder => Op::Mod,
        Binary::Power => Op::Pow,
    }
}

/// The operation of a comparison, which `not in` negates (reference, section 6.10).
fn comparison_op(comparison: Comparison) -> Op
    ensures { result ≡ meaning.comparison_op comparison }
{
    match comparison {
        Comparison::Less => Op::Lt,
        Comparison::Greater => Op::Gt,
        Comparison::LessEqual => Op::Le,
        Comparison::GreaterEqual => Op::Ge,
        Comparison::Equal => Op::Eq,
        Comparison::NotEqual => Op::Ne,
        Comparison::In | Comparison::NotIn => Op::In,
        Comparison::Is => Op::Is,
        Comparison::IsNot => Op::IsNot,
    }
}

fn is_in(comparison: Comparison) -> bool
    ensures { result ≡ built.is_in comparison }
{
    matches!(comparison, Comparison::In | Comparison::NotIn)
}

/// Whether an expression is the name `print`.
fn is_print(x: &Expr) -> bool
    ensures { result ≡ names_print (built.expr x.now).name }
{
    match x {
        Expr::Name(_, name) => name.as_str() == "print",
        _ => false,
    }
}

/// An operation on one operand.
fn on_one(alloc: Global, op: Op, x: Part, line: u32, temps: &mut Temps) -> Result<Part, AllocError>
    ensures { IfOk result (λ p. Does line op (tree.Do temps.old line op (arguments op (x ∷ []))) temps.old temps.new (x ∷ []) p) }
{
    let mut args = Vec::new(alloc);
    args.push(x)?;
    let part = operate(alloc, op, args, line, temps)?;
    Ok(part)
}

/// An operation on two operands.
fn on_two(
    alloc: Global,
    op: Op,
    x: Part,
    y: Part,
    line: u32,
    temps: &mut Temps,
) -> Result<Part, AllocError>
    ensures { IfOk result (λ p. Does line op (tree.Do temps.old line op (arguments op (x ∷ y ∷ []))) temps.old temps.new (x ∷ y ∷ []) p) }
{
    let mut args = Vec::new(alloc);
    args.push(x)?;
    args.push(y)?;
    let part = operate(alloc, op, args, line, temps)?;
    Ok(part)
}

/// A call with one argument.
fn called(
    alloc: Global,
    function: Part,
    x: Part,
    line: u32,
    temps: &mut Temps,
) -> Result<Part, AllocError>
    ensures { IfOk result (λ p. Does line op_named.Call (tree.Call temps.old line function.value (x.value ∷ [])) temps.old temps.new (function ∷ x ∷ []) p) }
{
    let mut args = Vec::new(alloc);
    args.push(x)?;
    let part = call(alloc, function, args, line, temps)?;
    Ok(part)
}

/// A name that is read (reference, section 6.2.1).
fn named(
    alloc: Global,
    line: u32,
    word: &RcStr,
    bound: &Bound<'_>,
    temps: &mut Temps,
) -> Result<Part, ReformEnd>
    ensures { (names : List (List ℕ)) → Holds bound.now names → Expressed names (expr.Name line word.now) temps.old temps.new result }
{
    if bound.is_other(word.as_str()) {
        return Err(ReformEnd::Unbuilt { line });
    }
    let part = name(alloc, Home::Module(word.share()?), line, temps)?;
    Ok(part)
}

/// An evaluated expression (reference, chapter 6), or the line of the first thing in it that is not built.
pub fn expression(
    alloc: Global,
    x: &Expr,
    bound: &Bound<'_>,
    temps: &mut Temps,
) -> Result<Part, ReformEnd>
    ensures { (names : List (List ℕ)) → Holds bound.now names → Expressed names x.now temps.old temps.new result }
{
    match x {
        Expr::None(_) => Ok(constant(alloc, Const::None)),
        Expr::True(_) => Ok(constant(alloc, Const::Bool(true))),
        Expr::False(_) => Ok(constant(alloc, Const::Bool(false))),
        Expr::Number(_, value) => Ok(constant(alloc, Const::Int(*value))),
        Expr::Text(_, text) => Ok(constant(alloc, Const::Str(text.share()?))),
        Expr::Name(line, word) => {
            let part = named(alloc, *line, word, bound, temps)?;
            Ok(part)
        }
        Expr::Unary(line, sign, x) => {
            let x = expression(alloc, x.get(), bound, temps)?;
            let part = on_one(alloc, unary_op(*sign), x, *line, temps)?;
            Ok(part)
        }
        Expr::Binary(line, operator, x, y) => {
            let x = expression(alloc, x.get(), bound, temps)?;
            let y = expression(alloc, y.get(), bound, temps)?;
            let part = on_two(alloc, binary_op(*operator), x, y, *line, temps)?;
            Ok(part)
        }
        Expr::Not(line, x) => {
            let x = expression(alloc, x.get(), bound, temps)?;
            let truth = on_one(alloc, Op::Truth, x, *line, temps)?;
            let part = on_one(alloc, Op::Not, truth, *line, temps)?;
            Ok(part)
        }
        Expr::Compare(line, x, links) => {
            let [link] = links.as_slice() else {
                return Err(ReformEnd::Unbuilt { line: *line });
            };
            if is_in(link.comparison) {
                return Err(ReformEnd::Unbuilt { line: *line });
            }
            let x = expression(alloc, x.get(), bound, temps)?;
            let y = expression(alloc, &link.right, bound, temps)?;
            let part = on_two(alloc, comparison_op(link.comparison), x, y, *line, temps)?;
            Ok(part)
        }
        Expr::Call(line, f, args) => {
            let [argument] = args.as_slice() else {
                return Err(ReformEnd::Unbuilt { line: *line });
            };
            let Argument::Plain(x) = argument else {
                return Err(ReformEnd::Unbuilt { line: *line });
            };
            if !is_print(f.get()) {
                return Err(ReformEnd::Unbuilt { line: *line });
            }
            let f = expression(alloc, f.get(), bound, temps)?;
            let x = expression(alloc, x, bound, temps)?;
            let part = called(alloc, f, x, *line, temps)?;
            Ok(part)
        }
        Expr::Tuple(line, _)
        | Expr::List(line, _)
        | Expr::Dict(line, _)
        | Expr::ListComprehension(line, _, _)
        | Expr::DictComprehension(line, _, _, _)
        | Expr::Generator(line, _, _)
        | Expr::Attribute(line, _, _)
        | Expr::Index(line, _, _)
        | Expr::Junction(line, _, _, _)
        | Expr::Conditional(line, _, _, _)
        | Expr::Lambda(line, _, _)
        | Expr::Yield(line, _)
        | Expr::YieldFrom(line, _)
        | Expr::Star(line, _) => Err(ReformEnd::Unbuilt { line: *line }),
    }
}
