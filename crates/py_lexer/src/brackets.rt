//! Open brackets.

ghost use Rattle.std.specs.Prelude.{◌≡◌, reverse, IfOk};
ghost use Rattle.py_lexer.specs.Brackets as spec;
ghost use Rattle.py_lexer.specs.Seen.{Turns};

use py_ast::Sign;
use std::alloc::AllocError;

#[derive(Clone, Copy)]
pub enum Bracket {
    Round,
    Square,
    Curly,
}

/// What a sign does to the open brackets.
#[derive(Clone, Copy)]
pub enum Role {
    Opens(Bracket),
    Closes(Bracket),
    Plain,
}

fn role_of(sign: Sign) -> Role
    ensures { result ≡ spec.role_of sign }
{
    match sign {
        Sign::LeftParen => Role::Opens(Bracket::Round),
        Sign::LeftBracket => Role::Opens(Bracket::Square),
        Sign::LeftBrace => Role::Opens(Bracket::Curly),
        Sign::RightParen => Role::Closes(Bracket::Round),
        Sign::RightBracket => Role::Closes(Bracket::Square),
        Sign::RightBrace => Role::Closes(Bracket::Curly),
        _ => Role::Plain,
    }
}

fn same_bracket(a: Bracket, b: Bracket) -> bool
    ensures { result ≡ spec.same_bracket a b }
{
    match (a, b) {
        (Bracket::Round, Bracket::Round) => true,
        (Bracket::Square, Bracket::Square) => true,
        (Bracket::Curly, Bracket::Curly) => true,
        _ => false,
    }
}

/// Turns the stack of open brackets. Answers whether the sign may stand there.
pub fn turn(brackets: &mut Vec<Bracket>, sign: Sign) -> Result<bool, AllocError>
    ensures { IfOk result (λ fits. Turns fits (spec.turn (spec.role_of sign) (reverse brackets.old.items)) (reverse brackets.new.items)) }
{
    match role_of(sign) {
        Role::Plain => Ok(true),
        Role::Opens(bracket) => {
            brackets.push(bracket)?;
            Ok(true)
        }
        Role::Closes(bracket) => match brackets.pop() {
            Some(open) => Ok(same_bracket(bracket, open)),
            None => Ok(false),
        },
    }
}
