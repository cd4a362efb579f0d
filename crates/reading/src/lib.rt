// Whole records read from bytes alone: the signature's refusals first, then the rule's or group's.
#![tactic(auto)]

ghost use Rattle.std.specs.Prelude.{◌≡◌, length};
ghost use Rattle.records.specs.Refusals.{fault_of};
ghost use Rattle.reading.specs.Verdicts.{refusal_of, rule_read, group_read};
ghost use Rattle.reading.specs.Answers.{rule_answer, group_answer, RuleUsable, GroupUsable};

use group::ids::GROUP_INDEX;
use group::reader::{index_group, read_group};
use records::refusal::Refusal;
use rule::ids::RULE_INDEX;
use rule::reader::{index_rule, read_rule};
use signature::ids::{Counts, INDEX};
use signature::lookup::Signature;
use signature::reader::{index_symbols, read_signature};

// How many symbols of each letter the signature has that was accepted, and how many structures the rule.
#[derive(Clone, Copy)]
pub struct RuleRead {
    pub counts: Counts,
    pub structures: usize,
}

// How many symbols of each letter the signature has that was accepted, and how many variables and rules the group.
#[derive(Clone, Copy)]
pub struct GroupRead {
    pub counts: Counts,
    pub variables: usize,
    pub rules: usize,
}

// A signature and a rule; where both are accepted, the indexes hold where their fields stand; else the entries of both are left free:
// any may have been written, and only their number holds.
#[tactic(auto, unfolding(rule::specs::Lookup::rule_at))]
pub fn read_rule_into(
    sig: &[u8],
    s: &[u8],
    symbols: &mut [u16; INDEX],
    index: &mut [u16; RULE_INDEX],
) -> Result<RuleRead, Refusal>
    ensures result_value { rule_answer s.now result ≡ rule_read sig.now s.now }
    ensures rule_usable { RuleUsable sig.now symbols.new s.now index.new result }
    ensures symbols_len_unchanged { (length symbols.new ≡ length symbols.old) × (length index.new ≡ length index.old) }
{
    let counts = index_symbols(sig, symbols)?;
    let structures = index_rule(&Signature::of(sig, symbols, counts), s, index)?;
    Ok(RuleRead { counts, structures })
}

// A signature and a group, likewise.
pub fn read_group_into(
    sig: &[u8],
    s: &[u8],
    symbols: &mut [u16; INDEX],
    index: &mut [u16; GROUP_INDEX],
) -> Result<GroupRead, Refusal>
    ensures result_value { group_answer s.now result ≡ group_read sig.now s.now }
    ensures group_usable { GroupUsable sig.now symbols.new s.now index.new result }
    ensures symbols_len_unchanged { (length symbols.new ≡ length symbols.old) × (length index.new ≡ length index.old) }
{
    let known = index_symbols(sig, symbols)?;
    let found = index_group(&Signature::of(sig, symbols, known), s, index)?;
    Ok(GroupRead {
        counts: known,
        variables: found.variables,
        rules: found.rules,
    })
}

// Are a signature and a rule sound?
pub fn check_rule(sig: &[u8], s: &[u8]) -> Result<(), Refusal>
    ensures { fault_of result ≡ refusal_of (rule_read sig.now s.now) }
{
    let mut symbols = [0u16; INDEX];
    let mut index = [0u16; RULE_INDEX];
    read_rule(&read_signature(sig, &mut symbols)?, s, &mut index)?;
    Ok(())
}

// Are a signature and a group sound?
pub fn check_group(sig: &[u8], s: &[u8]) -> Result<(), Refusal>
    ensures { fault_of result ≡ refusal_of (group_read sig.now s.now) }
{
    let mut symbols = [0u16; INDEX];
    let signature = read_signature(sig, &mut symbols)?;
    // Made only now: clearing it would take longer than many a signature is refused in.
    let mut index = [0u16; GROUP_INDEX];
    read_group(&signature, s, &mut index)?;
    Ok(())
}
