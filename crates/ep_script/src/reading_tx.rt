//! Commands over many keys.

ghost use Rattle.std.specs.Prelude.{◌≡◌, ◌∷◌, ◌<◌, ◌≤◌, List, [], Option, Some, None, IfOk, IfSome, MatchBool, MatchOption, length, option_map, option_and_then};
ghost use Rattle.ep_script.specs.Parts.{words_of};
ghost use Rattle.ep_script.specs.Clauses.{Said, merged};
ghost use Rattle.ep_script.specs.Grammar.{option_word, value_word, short_clause, long_clause, said_first, clauses_of, items_after, tx_with, tx_of};
ghost use Rattle.ep_script.specs.declared.clause.Clause.TheVariants.{Guard, Write};

use crate::clause::Clause;
use crate::operands::{read_key, read_option, read_value};
use crate::tx_items::TxItems;
use crate::words::{is_word, next_word};
use ep_base::{Command, CommandFault, MOST_KEYS};
use std::alloc::{AllocError, Global};

/// The command over many keys that these words say.
pub(crate) fn tx(alloc: Global, words: &[u8]) -> Result<Option<Command>, AllocError>
    ensures { IfOk result (λ c. c ≡ tx_of (words_of words.now)) }
{
    let Some(items) = tx_items(alloc, words)? else {
        return Ok(None);
    };
    command(alloc, &items)
}

// The command of these items; none where they are no command's.
fn command(alloc: Global, items: &TxItems) -> Result<Option<Command>, AllocError>
    ensures { IfOk result (λ c. c ≡ tx_with items.now) }
{
    if MOST_KEYS < items.len() {
        return Ok(None);
    }
    let body = items.body(alloc)?;
    match Command::tx(alloc, body.as_slice()) {
        Ok(command) => Ok(Some(command)),
        Err(CommandFault::OutOfRange) => Ok(None),
        Err(CommandFault::Memory) => Err(AllocError),
    }
}

fn tx_items(alloc: Global, words: &[u8]) -> Result<Option<TxItems>, AllocError>
    ensures { IfOk result (λ o. o ≡ items_after [] (words_of words.now)) }
{
    let mut items = TxItems::new(alloc);
    let mut rest = words;
    while let Some((word, after)) = next_word(rest) {
        let Some(more) = add_item(alloc, &mut items, word, after)? else {
            return Ok(None);
        };
        rest = more;
    }
    Ok(Some(items))
}

// Adds what this word and the first of those after it say, and says which words are left; none where they are refused.
fn add_item<'a>(
    alloc: Global,
    items: &mut TxItems,
    word: &[u8],
    after: &'a [u8],
) -> Result<Option<&'a [u8]>, AllocError>
    ensures value { IfOk result (λ o. MatchOption o (items_after items.old (word.now ∷ words_of after.now) ≡ None) (λ more. items_after items.old (word.now ∷ words_of after.now) ≡ items_after items.new (words_of more.now))) }
    ensures shorter { IfOk result (λ o. IfSome o (λ more. length more.now < length after.now)) }
{
    let Some((key, rest)) = next_word(after) else {
        return Ok(None);
    };
    match short_clause(word) {
        Some(clause) => add_short(alloc, items, key, clause, rest),
        None => add_long(alloc, items, word, key, rest),
    }
}

fn add_short<'a>(
    alloc: Global,
    items: &mut TxItems,
    key: &[u8],
    clause: Clause,
    rest: &'a [u8],
) -> Result<Option<&'a [u8]>, AllocError>
    ensures value { IfOk result (λ o. MatchOption o (option_and_then (merged items.old) (said_first key.now (Some clause) (clauses_of (words_of rest.now))) ≡ None) (λ more. option_and_then (merged items.old) (said_first key.now (Some clause) (clauses_of (words_of rest.now))) ≡ items_after items.new (words_of more.now))) }
    ensures no_longer { IfOk result (λ o. IfSome o (λ more. length more.now ≤ length rest.now)) }
{
    if add(alloc, items, key, clause)? {
        Ok(Some(rest))
    } else {
        Ok(None)
    }
}

fn add_long<'a>(
    alloc: Global,
    items: &mut TxItems,
    word: &[u8],
    key: &[u8],
    after: &'a [u8],
) -> Result<Option<&'a [u8]>, AllocError>
    requires { short_clause word.now ≡ None }
    ensures value { IfOk result (λ o. MatchOption o (items_after items.old (word.now ∷ key.now ∷ words_of after.now) ≡ None) (λ more. items_after items.old (word.now ∷ key.now ∷ words_of after.now) ≡ items_after items.new (words_of more.now))) }
    ensures no_longer { IfOk result (λ o. IfSome o (λ more. length more.now ≤ length after.now)) }
{
    let Some((value, rest)) = next_word(after) else {
        return Ok(None);
    };
    let Some(clause) = long_clause(alloc, word, value)? else {
        return Ok(None);
    };
    add_short(alloc, items, key, clause, rest)
}

// What `get K` and `del K` say of K.
fn short_clause(word: &[u8]) -> Option<Clause>
    ensures { result ≡ short_clause word.now }
{
    if is_word(word, b"get") {
        return Some(Clause::Reported);
    }
    if is_word(word, b"del") {
        return Some(Clause::Write(None));
    }
    None
}

// What `if K E` and `put K V` say of it.
fn long_clause(alloc: Global, word: &[u8], value: &[u8]) -> Result<Option<Clause>, AllocError>
    ensures { IfOk result (λ c. c ≡ long_clause word.now value.now) }
{
    if is_word(word, b"if") {
        return guard(alloc, value);
    }
    if is_word(word, b"put") {
        return given(alloc, value);
    }
    Ok(None)
}

fn guard(alloc: Global, word: &[u8]) -> Result<Option<Clause>, AllocError>
    ensures { IfOk result (λ c. c ≡ option_map (λ wanted. Guard wanted) (option_word word.now)) }
{
    let Some(wanted) = read_option(alloc, word)? else {
        return Ok(None);
    };
    Ok(Some(Clause::Guard(wanted)))
}

fn given(alloc: Global, word: &[u8]) -> Result<Option<Clause>, AllocError>
    ensures { IfOk result (λ c. c ≡ option_map (λ value. Write (Some value)) (value_word word.now)) }
{
    let Some(value) = read_value(alloc, word)? else {
        return Ok(None);
    };
    Ok(Some(Clause::Write(Some(value))))
}

// Adds what is said of the key that the word spells; false where it spells none, or something of the kind is said of it.
fn add(alloc: Global, items: &mut TxItems, key: &[u8], clause: Clause) -> Result<bool, AllocError>
    ensures { IfOk result (λ b. MatchBool b ((rest : Option (List Said)) → option_and_then (merged items.old) (said_first key.now (Some clause) rest) ≡ option_and_then (merged items.new) rest) ((rest : Option (List Said)) → option_and_then (merged items.old) (said_first key.now (Some clause) rest) ≡ None)) }
{
    let Some(key) = read_key(alloc, key)? else {
        return Ok(false);
    };
    items.add(key, clause)
}
