//! The words of the command line.

ghost use Rattle.std.specs.Prelude.{◌≡◌, IfErr, IfOk};
ghost use Rattle.std.specs.List.{position};
ghost use Rattle.ep_cli.specs.declared.words_fault.WordsFault.TheVariants.{Memory};
ghost use Rattle.ep_script.specs.Grammar.{key_word, replica_of};
ghost use Rattle.ep_viewer.specs.Spelled.{instance_word, is_dot};

use crate::commands::program;
use crate::view::View;
use crate::viewer_asked::ViewerAsked;
use clap::error::ErrorKind;
use clap::{ArgMatches, Error};
use ep_base::{CommandFault, InstanceId, Key, ReplicaId};
use ep_cli::WordsFault;
use ep_script::{long_number, number_in, read_word};
use ep_view::Wanted;
use std::alloc::Global;
use std::convert::AsStr;

/// What the words ask for, of which the first is the program's own name. `Words` where they are none that the program knows.
pub(crate) fn read_words<T: AsStr>(alloc: Global, words: &[T]) -> Result<ViewerAsked, WordsFault> {
    let command = program(alloc)?;
    match command.try_get_matches_from(words) {
        Ok(matches) => asked_by(alloc, &matches),
        Err(error) => asked_instead(alloc, &error),
    }
}

/// What is asked for where `clap` finds no matches: the version or help at most.
fn asked_instead(alloc: Global, error: &Error) -> Result<ViewerAsked, WordsFault> {
    match error.kind() {
        ErrorKind::DisplayVersion => Ok(ViewerAsked::Version),
        ErrorKind::DisplayHelp => Ok(ViewerAsked::Help(error.to_string(alloc)?)),
        ErrorKind::OutOfMemory => Err(WordsFault::Memory),
        _ => Err(WordsFault::Words(error.to_string(alloc)?)),
    }
}

fn asked_by(alloc: Global, matches: &ArgMatches<'_>) -> Result<ViewerAsked, WordsFault> {
    if let Some(options) = matches.subcommand_matches("show") {
        return shown_by(alloc, options);
    }
    if matches.subcommand_matches("explain").is_some() {
        return Ok(ViewerAsked::Explain);
    }
    if let Some(options) = matches.subcommand_matches("draw") {
        return drawn_by(alloc, options);
    }
    if let Some(options) = matches.subcommand_matches("trace-events") {
        return Ok(ViewerAsked::View(View::Events(wanted_by(alloc, options)?)));
    }
    if matches.subcommand_matches("trace").is_some() {
        return Ok(ViewerAsked::Trace);
    }
    Err(WordsFault::Words(String::new(alloc)))
}

/// How journals are drawn: one way at most is named.
fn drawn_by(alloc: Global, options: &ArgMatches<'_>) -> Result<ViewerAsked, WordsFault> {
    let (mermaid, dot) = (options.get_flag("mermaid"), options.get_flag("dot"));
    if mermaid && dot {
        return Err(refused(alloc, "'--mermaid' and '--dot' don't go together"));
    }
    if options.get_flag("page") && (mermaid || dot) {
        return Err(refused(alloc, "'--page' doesn't go with '--mermaid' or '--dot'"));
    }
    let wanted = wanted_by(alloc, options)?;
    if mermaid {
        Ok(ViewerAsked::View(View::Sequence(wanted)))
    } else if dot {
        Ok(ViewerAsked::View(View::Graph(wanted)))
    } else {
        Ok(ViewerAsked::View(View::Page(wanted)))
    }
}

/// Words that are refused, and why.
fn refused(alloc: Global, why: &str) -> WordsFault {
    match format!(in alloc; "error: {why}\n\nFor more information, try '--help'.\n") {
        Ok(text) => WordsFault::Words(text),
        Err(_) => WordsFault::Memory,
    }
}

/// A word that is no value of an option: the option, as help names it, and what it takes.
fn invalid(alloc: Global, word: &str, option: &str) -> WordsFault {
    match format!(in alloc;
        "error: invalid value {word:?} for '--{option}\n\nFor more information, try '--help'.\n"
    ) {
        Ok(text) => WordsFault::Words(text),
        Err(_) => WordsFault::Memory,
    }
}

fn shown_by(alloc: Global, options: &ArgMatches<'_>) -> Result<ViewerAsked, WordsFault> {
    let wanted = wanted_by(alloc, options)?;
    if options.get_flag("columns") {
        Ok(ViewerAsked::View(View::Columns(wanted)))
    } else {
        Ok(ViewerAsked::View(View::Show(wanted)))
    }
}

/// Which entries are asked for.
fn wanted_by(alloc: Global, options: &ArgMatches<'_>) -> Result<Wanted, WordsFault> {
    let instance = instance_of(alloc, options)?;
    let key = key_of(alloc, options)?;
    let client = client_of(alloc, options)?;
    let replica = replica_of(alloc, options)?;
    let from = stamp_of(alloc, options, "from", 0)?;
    let to = stamp_of(alloc, options, "to", u64::MAX)?;
    Ok(Wanted {
        instance,
        key,
        client,
        replica,
        from,
        to,
    })
}

/// The instance after its option, if it is there.
fn instance_of(alloc: Global, options: &ArgMatches<'_>) -> Result<Option<InstanceId>, WordsFault> {
    let Some(word) = options.get_str("instance") else {
        return Ok(None);
    };
    match instance_named(word.as_bytes()) {
        Some(instance) => Ok(Some(instance)),
        None => Err(invalid(
            alloc,
            word,
            "instance <R.N>': it takes an instance, as 0.1: a replica from 0 to 6, and a number from 1 to 9000",
        )),
    }
}

/// The instance that a word spells: a replica, a dot and a number.
#[tactic(auto, using(crate::proofs::Dotted::dotted, crate::proofs::Dotted::undotted))]
fn instance_named(word: &[u8]) -> Option<InstanceId>
    ensures { result ≡ instance_word word.now }
{
    let dot = dot_in(word)?;
    let replica = replica_named(word.get(..dot)?)?;
    let number = number_in(
        word.get(dot + 1..)?,
        1,
        u64::from(InstanceId::HIGHEST_NUMBER),
    )?;
    InstanceId::new(replica, number as u16).ok()
}

/// Where the first dot of a word is.
fn dot_in(word: &[u8]) -> Option<usize>
    ensures { result ≡ position is_dot word.now }
{
    word.iter().position(|byte| *byte == b'.')
}

/// The replica that a word spells.
fn replica_named(word: &[u8]) -> Option<ReplicaId>
    ensures { result ≡ replica_of 7 word.now }
{
    let index = number_in(word, 0, 6)?;
    ReplicaId::new(index as u8).ok()
}

/// The key after its option, if it is there.
fn key_of(alloc: Global, options: &ArgMatches<'_>) -> Result<Option<Key>, WordsFault> {
    let Some(word) = options.get_str("key") else {
        return Ok(None);
    };
    match key_named(alloc, word.as_bytes())? {
        Some(key) => Ok(Some(key)),
        None => Err(invalid(
            alloc,
            word,
            "key <KEY>': it takes a key of 1 to 255 bytes, as scripts have it",
        )),
    }
}

/// The key that a word of bytes spells.
fn key_named(alloc: Global, word: &[u8]) -> Result<Option<Key>, WordsFault>
    ensures value { IfOk result (λ key. key ≡ key_word word.now) }
    ensures memory { IfErr result (λ fault. fault ≡ Memory) }
{
    let Some(bytes) = read_word(alloc, word)? else {
        return Ok(None);
    };
    match Key::new(alloc, &bytes) {
        Ok(key) => Ok(Some(key)),
        Err(CommandFault::OutOfRange) => Ok(None),
        Err(CommandFault::Memory) => Err(WordsFault::Memory),
    }
}

/// The client after its option, if it is there.
fn client_of(alloc: Global, options: &ArgMatches<'_>) -> Result<Option<u32>, WordsFault> {
    let Some(word) = options.get_str("client") else {
        return Ok(None);
    };
    match number_in(word.as_bytes(), 1, u64::from(u32::MAX)) {
        Some(client) => Ok(Some(client as u32)),
        None => Err(invalid(
            alloc,
            word,
            "client <C>': it takes a number from 1 to 4294967295",
        )),
    }
}

/// The replica after its option, if it is there.
fn replica_of(alloc: Global, options: &ArgMatches<'_>) -> Result<Option<ReplicaId>, WordsFault> {
    let Some(word) = options.get_str("replica") else {
        return Ok(None);
    };
    match replica_named(word.as_bytes()) {
        Some(replica) => Ok(Some(replica)),
        None => Err(invalid(alloc, word, "replica <R>': it takes a number from 0 to 6")),
    }
}

/// The stamp after this option, or this one where there is none.
fn stamp_of(
    alloc: Global,
    options: &ArgMatches<'_>,
    name: &str,
    default: u64,
) -> Result<u64, WordsFault> {
    let Some(word) = options.get_str(name) else {
        return Ok(default);
    };
    match long_number(word.as_bytes()) {
        Some(stamp) => Ok(stamp),
        None if name == "from" => Err(invalid(
            alloc,
            word,
            "from <STAMP>': it takes a number of 1 to 15 digits",
        )),
        None => Err(invalid(
            alloc,
            word,
            "to <STAMP>': it takes a number of 1 to 15 digits",
        )),
    }
}
