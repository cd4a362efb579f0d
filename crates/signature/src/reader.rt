// Reading a signature: the part before the first field that draws 2, then the faults of its fields, letter by letter.
ghost use Rattle.std.specs.Prelude.{◌≡◌, ◌+◌, ◌≤◌, length, IfOk};
ghost use Rattle.definition.specs.Limits.{symbol_limit, signature_bytes};
ghost use Rattle.definition.specs.Records.{follows};
ghost use Rattle.definition.specs.Signature.{signature_grammar, read_signature};
ghost use Rattle.records.specs.Refusals.{outcome, outcome_by};
ghost use Rattle.records.specs.Iter.{EndOf, rest_of, fields_left};
ghost use Rattle.signature.specs.Answers.{Passes, ChecksUpTo, Stored};
ghost use Rattle.signature.specs.Faults.{letter_of};
ghost use Rattle.signature.specs.Index.{index_size, signature_at, Indexed};
ghost use Rattle.signature.specs.declared.ids.Counts.{Counts};

use crate::faults::field_fault;
use crate::ids::{
    Counts, FUNCS_FROM, INDEX, LETTER_F, LETTER_P, LETTER_T, PREDS_FROM, SIGNATURE_BYTES, START,
    SymbolKind, TYPES_FROM,
};
use crate::lookup::Signature;
use records::iter::Fields;
use records::refusal::Refusal;

// The part before the first field that draws 2, and how many T stand in it.
#[derive(Clone, Copy)]
struct Passed<'a> {
    part: &'a [u8],
    types: usize,
}

// The fields of one letter: how many there are, and those behind them.
#[derive(Clone, Copy)]
struct Checked<'a> {
    count: usize,
    behind: Fields<'a>,
}

// May a field of a letter stand directly behind one of another?
#[tactic(auto, unfolding(definition::specs::Records::follows, definition::specs::Base::any, definition::specs::Base::has))]
fn may_follow(behind: u8, letter: u8) -> bool
    ensures { result ≡ follows signature_grammar.places behind letter }
{
    match letter {
        LETTER_T => matches!(behind, START | LETTER_T),
        LETTER_P => matches!(behind, START | LETTER_T | LETTER_P),
        LETTER_F => matches!(behind, START | LETTER_T | LETTER_P | LETTER_F),
        _ => false,
    }
}

// The pass along the letters. Every T of the part can be named, also one with a fault or past a limit, so they are counted here.
// Nothing is required, so any letter may be the last: the part is the whole record where nothing is left.
fn pass(s: &[u8]) -> Passed<'_>
    ensures { Passes s.now result.part.now result.types }
{
    let mut fields = Fields::new(s);
    let mut left = s;
    let mut behind = START;
    let mut types: usize = 0;
    while let Some(field) = fields.next() {
        if !may_follow(behind, field.letter) {
            break;
        }
        if field.letter == LETTER_T {
            types += 1;
        }
        behind = field.letter;
        left = fields.rest();
    }
    let (part, _) = s.split_at(s.len() - left.len());
    Passed { part, types }
}

// The faults of the fields that declare symbols of a kind, front to back; their positions go into the index, from an entry on.
// The pass made sure that T stand before P and P before F, so the fields of a letter end at the first of another letter,
// and letter by letter is front to back in all.
// The index is lent as a slice, since that tells its length: then nothing asks that it be cleared first.
fn check<'a>(
    part: &'a [u8],
    left: Fields<'a>,
    kind: SymbolKind,
    types: usize,
    index: &mut [u16],
    from: usize,
) -> Result<Checked<'a>, Refusal>
    requires end_of { EndOf part.now (rest_of left) }
    requires few_bytes { length part.now ≤ signature_bytes }
    requires symbol_limit_bound { (from + symbol_limit ≤ index_size) × (length index.old ≡ index_size) }
    ensures checks_up_to { ChecksUpTo result part.now index.new (letter_of kind) types from (fields_left left.entry) }
    ensures stored { Stored result part.now index.old index.new (letter_of kind) types from }
{
    let mut fields = left;
    let mut behind = left;
    let mut count: usize = 0;
    while let Some(field) = fields.next() {
        if field.letter != kind.letter() {
            break;
        }
        field_fault(kind, field.content, types, count)?;
        index[from + count] = (part.len() - behind.rest().len()) as u16;
        count += 1;
        behind = fields;
    }
    Ok(Checked { count, behind })
}

// How many symbols the signature has of each letter, or why it is refused; where it is accepted, the index holds the positions of its fields.
// The index is lent for the call alone. Where it is refused, the entries of the index are left free: any may have been written, and only
// their number holds.
pub fn index_symbols(s: &[u8], index: &mut [u16; INDEX]) -> Result<Counts, Refusal>
    ensures value { outcome_by (λ (counts : Counts). signature_at s.now index.new counts) result ≡ read_signature s.now }
    ensures usable { IfOk result (λ (counts : Counts). Indexed s.now index.new counts) }
    ensures index_len_unchanged { length index.new ≡ length index.old }
{
    if SIGNATURE_BYTES < s.len() {
        return Err(Refusal::TooLong);
    }
    let Passed { part, types } = pass(s);
    let all = Fields::new(part);
    let t = check(part, all, SymbolKind::Type, types, index, TYPES_FROM)?;
    let p = check(
        part,
        t.behind,
        SymbolKind::Predicate,
        types,
        index,
        PREDS_FROM,
    )?;
    let f = check(
        part,
        p.behind,
        SymbolKind::Function,
        types,
        index,
        FUNCS_FROM,
    )?;
    if part.len() != s.len() {
        return Err(Refusal::BadFields);
    }
    Ok(Counts {
        types,
        preds: p.count,
        funcs: f.count,
    })
}

// The signature, or why it is refused. The index is lent for as long as the signature is used.
pub fn read_signature<'a>(
    s: &'a [u8],
    index: &'a mut [u16; INDEX],
) -> Result<Signature<'a>, Refusal>
    ensures { outcome result ≡ read_signature s.now }
{
    let counts = index_symbols(s, index)?;
    Ok(Signature::of(s, index, counts))
}
