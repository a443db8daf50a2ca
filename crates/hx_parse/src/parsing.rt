// Whole programs.

ghost use Rattle.std.specs.Prelude.{◌≤◌, IfOk, IfErr};
ghost use Rattle.hx_tree.specs.Grammar.{IsProgram};
ghost use Rattle.hx_tree.specs.Height.{program_height};
ghost use Rattle.hx_tree.specs.View.{program_of};
ghost use Rattle.hx_lex.specs.View.{tokens_of};
ghost use Rattle.hx_grammar.specs.Reading.{program_at};
ghost use Rattle.hx_parse.specs.Gives.{GivesAll};
ghost use Rattle.hx_parse.specs.Answer.{NoOthers, Refuses};
ghost use Rattle.hx_parse.specs.declared.error.ParseError.TheVariants.{TooDeep};

use crate::error::ParseError;
use crate::parser::Parser;
use hx_lex::Token;
use hx_tree::limits::HEIGHT_LIMIT;
use hx_tree::tree::Program;
use std::alloc::Global;

/// The nodes above a part of a function's body: the program, the function and its body.
const NODES_ABOVE: usize = 3;

/// The program that the tokens of a source spell.
///
/// The tokens are those of `hx_lex::tokens`, or any others. An `Ok` is a tree of height at most `HEIGHT_LIMIT` that the tokens
/// spell, and they spell no other tree of any height. Each refusal says why there is no such tree:
///
/// - 10, `Syntax`: the tokens spell no tree of any height. Its place is that of the first token such that no tree begins with the
///   tokens up to and with it, or just behind the last token.
/// - 11, `TooDeep`: the tokens spell none of height at most `HEIGHT_LIMIT`. It is also the answer where they spell a higher one.
/// - 12, `Memory`: there was no memory for the tree; this says nothing of the tokens.
///
/// Where tokens go wrong as well as too deep, a fault that some tree of height at most `HEIGHT_LIMIT` leads up to is 10. The time
/// is linear in the number of tokens, and no recursion goes deeper than the height limit.
///
/// ISO/IEC 9899:2011, 6.5 to 6.9, as far as the language goes.
#[tactic(auto, using(hx_grammar::proofs::Whole::found, hx_grammar::proofs::Whole::only_one, crate::proofs::Refused::refuses))]
pub fn parse(alloc: Global, tokens: &[Token]) -> Result<Program, ParseError>
    ensures spelled { IfOk result (λ p. IsProgram (program_of p) (tokens_of tokens.now)) }
    ensures low { IfOk result (λ p. program_height (program_of p) ≤ HEIGHT_LIMIT) }
    ensures only { IfOk result (λ p. NoOthers (tokens_of tokens.now) (program_of p)) }
    ensures refused { IfErr result (Refuses (tokens_of tokens.now)) }
{
    match program(alloc, tokens, HEIGHT_LIMIT - NODES_ABOVE) {
        Ok(found) => Ok(found),
        Err(ParseError::TooDeep) => Err(too_deep(alloc, tokens)),
        Err(refusal) => Err(refusal),
    }
}

/// Why tokens are refused that went too deep: read with room for one node more, they may go wrong right behind the beginning of a
/// tree that is not too high.
#[tactic(auto, using(crate::proofs::Refused::refuses))]
fn too_deep(alloc: Global, tokens: &[Token]) -> ParseError
    requires { Refuses (tokens_of tokens.now) TooDeep }
    ensures { Refuses (tokens_of tokens.now) result }
{
    match program(alloc, tokens, HEIGHT_LIMIT - NODES_ABOVE + 1) {
        Err(ParseError::Syntax(pos)) => ParseError::Syntax(pos),
        _ => ParseError::TooDeep,
    }
}

/// A program, where the parts of each function's body have height at most `room`.
#[tactic(auto, unfolding(hx_grammar::specs::Reading::program_at))]
fn program(alloc: Global, tokens: &[Token], room: usize) -> Result<Program, ParseError>
    ensures { GivesAll program_of result (program_at room (tokens_of tokens.now)) }
{
    let mut parser = Parser::new(alloc, tokens);
    let items = parser.items(room)?;
    Ok(Program { items })
}
