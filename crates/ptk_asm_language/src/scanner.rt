//! The scanner: a line as tokens.

ghost use Rattle.std.specs.Prelude.{◌||◌, ◌==◌, ◌≡◌, ◌<◌, ◌≤◌, ◌+◌, [], ◌∷◌, length, Some, option_map, IfSome, IfNone, IfOk, IfErr};
ghost use Rattle.std.specs.List.{list_all};
ghost use Rattle.ptk_asm_language.specs.Tokens as is;
ghost use Rattle.ptk_asm_language.specs.Places as places;
ghost use Rattle.ptk_asm_language.specs.Reading.{view, views, spots, token_fault, Refuses, IsPlaced};
ghost use Rattle.ptk_asm_language.specs.Scanning.{after_blanks, run_len};

use crate::characters::{is_blank, is_continuation, is_first, is_mark, is_run};
use crate::fault::{FaultKind, LineFault};
use crate::numbers::is_number;
use crate::token::{Spanned, Token};
use std::alloc::Global;

/// The tokens of a line without its ending and its comment, each with its bytes in the line. The error is the first
/// piece that is no token of the language (`Token`), with its bytes, those of a character outside it whole, or out of
/// memory.
#[tactic(auto, using(crate::proofs::TokenList::joined_none, crate::proofs::TokenList::spanned_push, crate::proofs::TokenList::spanned_stop, crate::proofs::TokenList::token_end, crate::proofs::PlaceList::place_rules))]
pub fn tokens_of(alloc: Global, line: &[u8]) -> Result<Vec<Spanned<'_>>, LineFault>
    ensures ok { IfOk result (λ v. is.tokens_of line.now ≡ Some (views v.items)) }
    ensures spots { IfOk result (λ v. spots v.items ≡ places.places_of line.now) }
    ensures err { IfErr result (λ e. Refuses e.kind (token_fault line.now)) }
    ensures placed { IfErr result (λ e. IsPlaced e.kind e (places.wrong_place line.now)) }
{
    let mut tokens = Vec::new(alloc);
    let mut rest = line;
    while let Some((piece, after)) = next_piece(rest) {
        let to = line.len() - after.len();
        let from = to - piece.len();
        let Some(token) = token_of(piece) else {
            return Err(LineFault {
                from,
                to: line.len() - skip_character(after).len(),
                kind: FaultKind::Token,
            });
        };
        tokens.push(Spanned { token, from, to })?;
        rest = after;
    }
    Ok(tokens)
}

/// The line without the bytes at its front that belong to a character that began before them, by UTF-8.
fn skip_character(line: &[u8]) -> &[u8]
    ensures value { result.now ≡ places.behind_character line.now }
    ensures shorter { length result.now ≤ length line.now }
{
    let mut rest = line;
    while let [c, after @ ..] = rest
        && is_continuation(*c)
    {
        rest = after;
    }
    rest
}

/// A character of names and numbers, or `-`.
fn begins_run(c: u8) -> bool
    ensures { result ≡ (is.is_run c || c == 45) }
{
    is_run(c) || c == b'-'
}

/// The line without the blanks at its front.
fn skip_blanks(line: &[u8]) -> &[u8]
    ensures value { result.now ≡ after_blanks line.now }
    ensures shorter { length result.now ≤ length line.now }
{
    let mut rest = line;
    while let [c, after @ ..] = rest
        && is_blank(*c)
    {
        rest = after;
    }
    rest
}

/// How long the run at the front is.
fn run_length(line: &[u8]) -> usize
    ensures value { result ≡ run_len line.now }
    ensures inside { result ≤ length line.now }
{
    let mut rest = line;
    while let [c, after @ ..] = rest
        && is_run(*c)
    {
        rest = after;
    }
    line.len() - rest.len()
}

/// The first piece of a line, and the line behind it.
fn next_piece(line: &[u8]) -> Option<(&[u8], &[u8])>
    ensures none { IfNone result (is.pieces line.now ≡ []) }
    ensures some { IfSome result (λ x. is.pieces line.now ≡ x.0.now ∷ is.pieces x.1.now) }
    ensures behind { IfSome result (λ x. places.behind_pieces line.now ≡ x.1.now ∷ places.behind_pieces x.1.now) }
    ensures shorter { IfSome result (λ x. length x.0.now + length x.1.now ≤ length line.now) }
    ensures filled { IfSome result (λ x. 0 < length x.0.now) }
{
    let rest = skip_blanks(line);
    if rest.is_empty() {
        return None;
    }
    if begins_run(rest[0]) {
        return Some(rest.split_at(1 + run_length(&rest[1..])));
    }
    Some(rest.split_at(1))
}

/// The token that a piece is.
fn token_of(piece: &[u8]) -> Option<Token<'_>>
    ensures { option_map view result ≡ is.token piece.now }
{
    if is_number(piece) {
        return Some(Token::Number(piece));
    }
    if piece.len() == 1 && is_mark(piece[0]) {
        return Some(Token::Mark(piece[0]));
    }
    if is_name(piece) {
        return Some(Token::Name(piece));
    }
    None
}

/// A letter, `_` or `.`, then letters, digits, `_` and `.`.
fn is_name(piece: &[u8]) -> bool
    ensures { result ≡ is.is_name piece.now }
{
    !piece.is_empty() && is_first(piece[0]) && all_run(&piece[1..])
}

/// Letters, digits, `_` and `.` alone.
fn all_run(text: &[u8]) -> bool
    ensures { result ≡ list_all is.is_run text.now }
{
    text.iter().all(|c| is_run(*c))
}
