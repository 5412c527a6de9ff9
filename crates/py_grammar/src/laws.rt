//! The laws between the grammar and the parser, a production each: what is spelled is read, what is read is spelled, and a
//! list of tokens has at most one tree at a place.

ghost use Rattle.py_grammar.specs.Levels.{expression, follows_expression, follows_exprs, follows_yield, follows_targets, follows_target, follows_params};
ghost use Rattle.py_grammar.specs.Grammar.{Expression, Exprs, Targets, Target, Yields, Params, SomeParams, OneTree};
ghost use Rattle.py_grammar.specs.Parse.{read_level, read_exprs, read_targets, read_target, read_yield, read_params};
ghost use Rattle.py_grammar.specs.Laws.{IsRead, IsSpelled};

pub fn expression_law()
    ensures read { IsRead Expression follows_expression (read_level expression) }
    ensures spelled { IsSpelled Expression (read_level expression) }
    ensures one { OneTree Expression follows_expression }
{}

pub fn exprs_law()
    ensures read { IsRead Exprs follows_exprs read_exprs }
    ensures spelled { IsSpelled Exprs read_exprs }
    ensures one { OneTree Exprs follows_exprs }
{}

pub fn targets_law()
    ensures read { IsRead Targets follows_targets read_targets }
    ensures spelled { IsSpelled Targets read_targets }
    ensures one { OneTree Targets follows_targets }
{}

pub fn target_law()
    ensures read { IsRead Target follows_target read_target }
    ensures spelled { IsSpelled Target read_target }
    ensures one { OneTree Target follows_target }
{}

pub fn yield_law()
    ensures read { IsRead Yields follows_yield read_yield }
    ensures spelled { IsSpelled Yields read_yield }
    ensures one { OneTree Yields follows_yield }
{}

pub fn params_law()
    ensures read { IsRead Params follows_params read_params }
    ensures spelled { IsSpelled Params read_params }
    ensures one { OneTree SomeParams follows_params }
{}
