//! One statement: its mnemonic, its operands and its place.

ghost use Rattle.std.specs.Prelude.{◌≡◌, ℕ, ◌+◌, ◌≤◌, ◌<◌, ◌%◌, ◌∷◌, ◌||◌, ◌&&◌, not, ◌==◌, nat_lt, if◌then◌else◌, is_some, List, Some, None, option_map, true, length, drop, IfSome, IfOk, IfErr};
ghost use Rattle.ptk_asm_language.specs.Tokens as token;
ghost use Rattle.ptk_asm_language.specs.Statements as is;
ghost use Rattle.ptk_asm_language.specs.Source as source;
ghost use Rattle.ptk_asm_language.specs.Places.{place_at, last_place};
ghost use Rattle.ptk_asm_language.specs.Reading.{view, views, spot, spots, fault_spot, Refuses, IsPlaced};
ghost use Rattle.ptk_asm_language.specs.Operating.{shown_value};
ghost use Rattle.ptk_asm.specs.Passing.{label_name, label_spot, shown_statement};

use ptk_asm_language::{
    Extent, FaultKind, Form, LineFault, Operands, Place, Section, Spanned, Token, form_named,
    operands_of, size_of, slots_of, stands_in,
};
use std::alloc::Global;

/// How many bytes a section may have.
const LONGEST: u64 = 1_048_576;

/// A label before a colon, with its place in the line.
#[derive(Clone, Copy)]
pub(crate) struct Label<'a> {
    pub(crate) name: &'a [u8],
    pub(crate) from: usize,
    pub(crate) to: usize,
}

/// What the tokens of a line are: an optional label, and the tokens of an optional statement.
#[derive(Clone, Copy)]
pub(crate) struct Parts<'t, 'a> {
    pub(crate) label: Option<Label<'a>>,
    pub(crate) statement: &'t [Spanned<'a>],
}

/// A form and its operands.
#[derive(Drop)]
pub(crate) struct Statement<'a> {
    pub(crate) form: Form,
    pub(crate) operands: Operands<'a>,
}

/// The name of a token before a colon.
fn name_before_colon<'a>(first: Token<'a>, second: Token<'a>) -> Option<&'a [u8]>
    ensures label { (rest : List token.Token) → option_map (λ n. n.now) result ≡ source.label_in (view first.entry ∷ view second.entry ∷ rest) }
    ensures behind { (rest : List token.Token) → source.statement_in (view first.entry ∷ view second.entry ∷ rest) ≡ (if is_some result then rest else view first.entry ∷ view second.entry ∷ rest) }
{
    match (first, second) {
        (Token::Name(name), Token::Mark(b':')) => Some(name),
        _ => None,
    }
}

/// The label and the statement of a line.
pub(crate) fn parts_of<'t, 'a>(tokens: &'t [Spanned<'a>]) -> Parts<'t, 'a>
    ensures label { label_name result.label ≡ source.label_in (views tokens.now) }
    ensures statement { views result.statement.now ≡ source.statement_in (views tokens.now) }
    ensures first { IfSome result.label (λ l. (end : ℕ) → label_spot l ≡ place_at (spots tokens.now) 0 end) }
    ensures behind { spots result.statement.now ≡ drop (source.label_length (views tokens.now)) (spots tokens.now) }
{
    if tokens.len() < 2 {
        return Parts {
            label: None,
            statement: tokens,
        };
    }
    let (first, second) = (tokens[0], tokens[1]);
    match name_before_colon(first.token, second.token) {
        Some(name) => Parts {
            label: Some(Label {
                name,
                from: first.from,
                to: first.to,
            }),
            statement: &tokens[2..],
        },
        None => Parts {
            label: None,
            statement: tokens,
        },
    }
}

/// The bytes of the last of a line's tokens, none at its beginning where it has no token.
pub(crate) fn last_of(tokens: &[Spanned<'_>]) -> Extent
    ensures { result ≡ last_place (spots tokens.now) }
{
    match tokens.last() {
        Some(last) => Extent {
            from: last.from,
            to: last.to,
        },
        None => Extent { from: 0, to: 0 },
    }
}

/// The form that the first token names; `Mnemonic` where it is no mnemonic of this section.
fn form_at(section: Section, first: Spanned<'_>) -> Result<Form, LineFault>
    ensures ok { IfOk result (λ f. (rest : List token.Token) → (source.form_in (view first.entry.token ∷ rest) ≡ Some f) × (is.stands_in f section ≡ true)) }
    ensures err { IfErr result (λ e. (rest : List token.Token) → Refuses e.kind (source.mnemonic_fault section (view first.entry.token ∷ rest) (source.form_in (view first.entry.token ∷ rest)))) }
    ensures placed { IfErr result (λ e. fault_spot e ≡ spot first.entry) }
{
    let fault = LineFault {
        from: first.from,
        to: first.to,
        kind: FaultKind::Mnemonic,
    };
    let Token::Name(name) = first.token else {
        return Err(fault);
    };
    match form_named(name) {
        Some(form) if stands_in(form, section) => Ok(form),
        _ => Err(fault),
    }
}

/// A word of data.
fn is_data_word(section: Section, form: Form) -> bool
    ensures { result ≡ source.is_data_word section form }
{
    match (section, form) {
        (Section::Data, Form::Word) => true,
        _ => false,
    }
}

/// A word of data at a wrong offset, or a section that gets too long.
fn is_misplaced(place: Place, form: Form, size: u64) -> bool
    ensures { result ≡ ((source.is_data_word place.section form && not (place.offset % 4 == 0)) || nat_lt source.longest (place.offset + size)) }
{
    if size > LONGEST {
        return true;
    }
    (is_data_word(place.section, form) && place.offset % 4 != 0)
        || u64::from(place.offset) + size > LONGEST
}

/// The statement of a mnemonic and the tokens behind it, which stands at this place; `end` is where the line's code
/// ends.
#[tactic(auto, using(crate::proofs::States::statement_rules, crate::proofs::Spots::statement_places))]
fn statement_with<'a>(
    alloc: Global,
    place: Place,
    first: Spanned<'a>,
    rest: &[Spanned<'a>],
    end: usize,
) -> Result<Statement<'a>, LineFault>
    ensures ok { IfOk result (λ s. source.statement_fault place (view first.entry.token ∷ views rest.now) ≡ None) }
    ensures value { IfOk result (λ s. source.stated (view first.entry.token ∷ views rest.now) ≡ Some (shown_statement s)) }
    ensures stands { IfOk result (λ s. is.stands_in s.form place.section ≡ true) }
    ensures fits { IfOk result (λ s. place.offset + source.taken (shown_statement s) ≤ source.longest) }
    ensures err { IfErr result (λ e. Refuses e.kind (source.statement_fault place (view first.entry.token ∷ views rest.now))) }
    ensures placed { IfErr result (λ e. IsPlaced e.kind e (place_at (spot first.entry ∷ spots rest.now) (source.statement_index place (view first.entry.token ∷ views rest.now)) end)) }
{
    let form = form_at(place.section, first)?;
    let operands = operands_of(alloc, slots_of(form), rest, end)?;
    if is_misplaced(place, form, size_of(form, operands.value)) {
        return Err(LineFault {
            from: first.from,
            to: first.to,
            kind: FaultKind::Range,
        });
    }
    Ok(Statement { form, operands })
}

/// The statement that tokens are, which stands at this place; `end` is where the line's code ends. The error is the
/// first fault with the place of its token in the line, or out of memory.
#[tactic(auto, using(crate::proofs::States::views_front, crate::proofs::Spots::spots_front))]
pub(crate) fn statement_of<'a>(
    alloc: Global,
    place: Place,
    tokens: &[Spanned<'a>],
    end: usize,
) -> Result<Statement<'a>, LineFault>
    requires { 0 < length tokens.now }
    ensures ok { IfOk result (λ s. source.statement_fault place (views tokens.now) ≡ None) }
    ensures value { IfOk result (λ s. source.stated (views tokens.now) ≡ Some (shown_statement s)) }
    ensures stands { IfOk result (λ s. is.stands_in s.form place.section ≡ true) }
    ensures fits { IfOk result (λ s. place.offset + source.taken (shown_statement s) ≤ source.longest) }
    ensures err { IfErr result (λ e. Refuses e.kind (source.statement_fault place (views tokens.now))) }
    ensures placed { IfErr result (λ e. IsPlaced e.kind e (place_at (spots tokens.now) (source.statement_index place (views tokens.now)) end)) }
{
    statement_with(alloc, place, tokens[0], &tokens[1..], end)
}
