//! The order of arguments and of parameters.

ghost use Rattle.std.specs.Prelude.{◌≡◌};
ghost use Rattle.py_grammar.specs.Lists as spec;

use py_ast::{Argument, Expr, Param};
use py_grammar::{Arrangement, Stage};

fn behind_argument(before: Arrangement, argument: &Argument<Expr>) -> Arrangement
    ensures { result ≡ spec.behind_argument before argument.now }
{
    match (before, argument) {
        (Arrangement::Positional, Argument::Plain(_) | Argument::Star(_)) => {
            Arrangement::Positional
        }
        (
            Arrangement::Positional | Arrangement::Named,
            Argument::Keyword(_, _, _) | Argument::Merge(_),
        ) => Arrangement::Named,
        _ => Arrangement::Wrong,
    }
}

fn is_arranged(arrangement: Arrangement) -> bool
    ensures { result ≡ spec.is_arranged arrangement }
{
    match arrangement {
        Arrangement::Wrong => false,
        _ => true,
    }
}

/// Whether positional arguments stand before keyword arguments.
pub fn arguments_in_order(arguments: &[Argument<Expr>]) -> bool
    ensures { result ≡ spec.arguments_in_order arguments.now }
{
    let mut arrangement = Arrangement::Positional;
    for argument in arguments {
        arrangement = behind_argument(arrangement, argument);
    }
    is_arranged(arrangement)
}

fn behind_param(before: Stage, param: &Param<Expr>) -> Stage
    ensures { result ≡ spec.behind_param before param.now }
{
    match (before, param) {
        (Stage::Start | Stage::Plain, Param::Named(_, _, None)) => Stage::Plain,
        (Stage::SlashPlain, Param::Named(_, _, None)) => Stage::SlashPlain,
        (Stage::Start | Stage::Plain | Stage::Optional, Param::Named(_, _, Some(_))) => {
            Stage::Optional
        }
        (Stage::SlashPlain | Stage::SlashOptional, Param::Named(_, _, Some(_))) => {
            Stage::SlashOptional
        }
        (Stage::Bare | Stage::Starred, Param::Named(_, _, _)) => Stage::Starred,
        (Stage::Plain, Param::Slash(_)) => Stage::SlashPlain,
        (Stage::Optional, Param::Slash(_)) => Stage::SlashOptional,
        (
            Stage::Start
            | Stage::Plain
            | Stage::Optional
            | Stage::SlashPlain
            | Stage::SlashOptional,
            Param::Star(_, None),
        ) => Stage::Bare,
        (
            Stage::Start
            | Stage::Plain
            | Stage::Optional
            | Stage::SlashPlain
            | Stage::SlashOptional,
            Param::Star(_, Some(_)),
        ) => Stage::Starred,
        (
            Stage::Start
            | Stage::Plain
            | Stage::Optional
            | Stage::SlashPlain
            | Stage::SlashOptional
            | Stage::Starred,
            Param::DoubleStar(_, _),
        ) => Stage::Double,
        _ => Stage::Wrong,
    }
}

fn is_complete(stage: Stage) -> bool
    ensures { result ≡ spec.is_complete stage }
{
    match stage {
        Stage::Bare | Stage::Wrong => false,
        _ => true,
    }
}

/// Whether the parameters keep the rules of their order.
pub fn params_in_order(params: &[Param<Expr>]) -> bool
    ensures { result ≡ spec.params_in_order params.now }
{
    let mut stage = Stage::Start;
    for param in params {
        stage = behind_param(stage, param);
    }
    is_complete(stage)
}
