//! The words of the command line.

ghost use Rattle.std.specs.Prelude.{◌≡◌, ◌≤◌, ℕ, List, Some, Ok, Err, IfErr, IfOk, IsOk, OnOk, MatchResult, codes, true, false, map, string_bytes};
ghost use Rattle.clap.specs.Values.{kind_of};
ghost use Rattle.clap.specs.declared.error.ErrorKind.TheVariants.{DisplayHelp, DisplayVersion, OutOfMemory};
ghost use Rattle.clap.specs.Walk.{Text, all_of, first_of, rows_of, rule_of, texts};
ghost use Rattle.clap.specs.Matches.{found_of};
ghost use Rattle.clap.specs.Simple.{app_of, subcommand_rows_of};
ghost use Rattle.clap.specs.declared.builder.command.Command.TheViews.{out-Command as fields_of};
ghost use Rattle.ep_main.specs.Options.{Options};
ghost use Rattle.ep_main.specs.Words.{AskFor, AskForHelp, Chooses, IsAuditTask, IsAuditIn, IsBundleAudit, IsChainAudit, IsChainFound, IsChainOf, IsHelp, IsHelpTask, IsMet, IsMetTask, IsShown, IsShownTask, IsTask, MetReplay, MetRun, MetAudit, MetChain, MetUpgrade, Names, NamesForm, NamesHost, NamesTarget, audit as audit_app, audit_words, auditing, bounded, chained, emit as emit_rule, formed, hosted, limit_in, replay as replay_app, replaying, run as run_app, run_words, epaxos, turned, upgrade as upgrade_app};
ghost use Rattle.ep_main.specs.declared.asked.Asked.{Asked};
ghost use Rattle.ep_main.specs.declared.asked.Asked.TheVariants.{Replay, Run, Audit, Upgrade, Version};
ghost use Rattle.ep_cli.specs.declared.words_fault.WordsFault.TheVariants.{Memory};
ghost use Rattle.ep_main.specs.declared.asked.Emit.{Emit};
ghost use Rattle.ep_main.specs.declared.asked.Emit.TheVariants.{Report, Bundle};
ghost use Rattle.ep_main.specs.declared.form.Form.{Form};
ghost use Rattle.ep_main.specs.declared.form.Form.TheVariants.{Lines, Json};
ghost use Rattle.ep_main.specs.declared.host.Host.{Host};
ghost use Rattle.ep_main.specs.declared.host.Host.TheVariants.{Lock, Ring};
ghost use Rattle.ep_main.specs.declared.target.Target.{Target};
ghost use Rattle.ep_main.specs.declared.target.Target.TheVariants.{Second, Third};
ghost use Rattle.ep_main.specs.declared.job.Job.TheVariants.{Streams};
ghost use Rattle.ep_script.specs.Grammar.{number_in as number_between};

use crate::asked::{Asked, Emit};
use crate::form::Form;
use crate::host::Host;
use crate::job::Job;
use crate::run_options::RunOptions;
use crate::target::Target;
use clap::error::ErrorKind;
use clap::{Arg, ArgAction, ArgMatches, Command, Error};
use ep_cli::WordsFault;
use ep_script::number_in;
use std::alloc::{AllocError, Global};
use std::convert::AsStr;

/// What help says at its end.
const AFTER_ALL: &str = "\
Input is standard input: redirect a file to it, or a pipe. On a terminal, epaxos waits for what you type, up to Ctrl-D.";

/// What the help of `replay` says at its end.
const AFTER_REPLAY: &str = "\
Standard input, to its end, is a script: lines as in the example; docs/CLI.md, section 4, has all of them.
Nothing is printed before the end is read. With --emit json the report is one object on one line, for scripts (docs/CLI.md,
section 5.3); with status 2, 3 and 4 nothing is printed then either.

Example:
  printf 'replicas 3\\npropose 0 1 put x 1\\nflush\\nflush\\nexecute 0 0.1\\n' | epaxos replay

Exit status:
  0  the audit accepted what the script left, and what was asked for is printed
  2  the command line or the script is refused; standard error says where
  3  memory was refused
  4  reading or writing failed";

/// What the help of `run` says at its end.
const AFTER_RUN: &str = "\
Standard input, to its end, is a script: lines as in the example; docs/CLI.md, section 4, has all of them.
In each section every replica has, with --host lock, a thread that submits its lines, and one that hands on its frames;
with --host ring one thread for both. Nothing is printed before the end is read, and all threads have ended. With --emit json
the report is one object on one line, for scripts (docs/CLI.md, section 5.3); with status 2, 3 and 4 nothing is printed then
either.

Example:
  printf 'replicas 3\\npropose 0 1 put x 1\\nsection\\npropose 2 1 get x\\n' | epaxos run

Exit status:
  0  the audit accepts what the threads left, and what was asked for is printed
  1  the audit refuses, with --host lock alone: the verdict and the first fault are printed, or the bundle
  2  the command line or the script is refused; standard error says where
  3  memory was refused, or, with --host lock, no thread could be started
  4  reading or writing failed";

/// What the help of `audit` says at its end.
const AFTER_AUDIT: &str = "\
Standard input, to its end, is a bundle: the journals of all replicas, and receipts, as `replay --emit bundle` writes them.
Nothing is printed before the end is read.

With --chain each FILE is such a bundle of version 3: generations, each of which opens with the map that the one before left.
Each is audited, and then that its number, its opening and its clocks go on from the one before. Standard input is not read.

With --emit json what is printed is one object on one line, for scripts (docs/CLI.md, section 5.3); with status 2, 3 and 4
nothing is printed then either.

Example:
  epaxos replay --emit bundle < examples/one_put.script | epaxos audit
  epaxos replay --emit bundle < examples/one_put.script | epaxos audit --emit json
  epaxos audit --chain first.bundle second.bundle

Exit status:
  0  the audit accepts: the verdict, what is committed, the history and the receipts are printed; of a chain, a line a bundle
  1  the audit refuses: the verdict and the first fault are printed; of a chain, of which generation
  2  the command line or a bundle is refused; standard error says where
  3  memory was refused
  4  a file could not be opened or read, or reading or writing failed";

/// What the help of `upgrade` says at its end.
const AFTER_UPGRADE: &str = "\
Standard input, to its end, is a bundle of version 1 or 2. Standard output is the bundle of version 2 that says the same: each
frame is spelled in version 2, and an audit of it says what an audit of the old one says. A version 2 bundle is copied unchanged.
With --to 3 it is the bundle of version 3 of generation 1, which opens with nothing; a version 3 bundle is copied unchanged.
Nothing is audited: journals and receipts that don't fit together are written as they are.
Nothing is printed before the end is read.

Example:
  epaxos upgrade < old.bundle > new.bundle
  epaxos upgrade --to 3 < old.bundle > new.bundle

Exit status:
  0  the bundle is written
  2  the command line or the bundle is refused; standard error says where
  3  memory was refused
  4  reading or writing failed";

/// What the words ask for, of which the first is the program's own name. `Words` where they are none that the program knows.
pub(crate) fn read_words<T: AsStr>(alloc: Global, words: &[T]) -> Result<Job, WordsFault>
    ensures asked { (asked : Asked) → AskFor asked (map T.text words.now) → MatchResult result (λ t. t ≡ Streams asked) (λ d. d ≡ Memory) }
    ensures help { AskForHelp (map T.text words.now) → MatchResult result IsHelpTask (λ d. d ≡ Memory) }
    ensures only { IfOk result (λ t. IsTask t (map T.text words.now)) }
{
    let command = program(alloc)?;
    match command.try_get_matches_from(words) {
        Ok(matches) => task_by(alloc, &matches),
        Err(error) => task_instead(alloc, &error),
    }
}

/// What is to be done where `clap` finds no matches.
fn task_instead(alloc: Global, error: &Error) -> Result<Job, WordsFault>
    ensures memory { kind_of error.now ≡ OutOfMemory → result ≡ Err Memory }
    ensures version { kind_of error.now ≡ DisplayVersion → result ≡ Ok (Streams Version) }
    ensures help { kind_of error.now ≡ DisplayHelp → MatchResult result IsHelpTask (λ d. d ≡ Memory) }
    ensures only { IfOk result (λ t. IsShownTask t (kind_of error.now)) }
{
    let asked = asked_instead(alloc, error)?;
    Ok(Job::Streams(asked))
}

/// What is to be done by the subcommand that was met.
fn task_by(alloc: Global, matches: &ArgMatches<'_>) -> Result<Job, WordsFault>
    ensures replay { (emit : Emit) → MetReplay emit (subcommand_rows_of matches.now) → result ≡ Ok (Streams (Replay emit)) }
    ensures run { (options : Options) → MetRun options (subcommand_rows_of matches.now) → result ≡ Ok (Streams (Run options)) }
    ensures audit { (form : Form) → MetAudit form (subcommand_rows_of matches.now) → result ≡ Ok (Streams (Audit form)) }
    ensures chain { (form : Form) (names : List Text) → MetChain form names (subcommand_rows_of matches.now) → MatchResult result (IsChainOf form names) (λ d. d ≡ Memory) }
    ensures upgrade { (target : Target) → MetUpgrade target (subcommand_rows_of matches.now) → result ≡ Ok (Streams (Upgrade target)) }
    ensures only { IfOk result (λ t. IsMetTask t (subcommand_rows_of matches.now)) }
{
    match matches.subcommand_matches("audit") {
        Some(options) => audit_of(alloc, options),
        None => {
            let asked = asked_by(alloc, matches)?;
            Ok(Job::Streams(asked))
        }
    }
}

/// Which audit is asked for, by its options.
fn audit_of(alloc: Global, options: &ArgMatches<'_>) -> Result<Job, WordsFault>
    ensures audit { (form : Form) → IsBundleAudit (audit_words (rows_of (found_of options.now))) → NamesForm (first_of (codes "emit") (rows_of (found_of options.now))) form → result ≡ Ok (Streams (Audit form)) }
    ensures chain { (form : Form) (names : List Text) → IsChainAudit names (audit_words (rows_of (found_of options.now))) → NamesForm (first_of (codes "emit") (rows_of (found_of options.now))) form → MatchResult result (IsChainOf form names) (λ d. d ≡ Memory) }
    ensures only { IfOk result (λ t. IsAuditTask t (audit_words (rows_of (found_of options.now)))) }
{
    let form = form_of(alloc, options)?;
    audit_in(alloc, form, options)
}

/// Which audit is asked for, to be reported in this form.
fn audit_in(alloc: Global, form: Form, options: &ArgMatches<'_>) -> Result<Job, WordsFault>
    ensures audit { IsBundleAudit (audit_words (rows_of (found_of options.now))) → result ≡ Ok (Streams (Audit form)) }
    ensures chain { (names : List Text) → IsChainAudit names (audit_words (rows_of (found_of options.now))) → MatchResult result (IsChainOf form names) (λ d. d ≡ Memory) }
    ensures only { IfOk result (λ t. IsAuditIn form t (audit_words (rows_of (found_of options.now)))) }
{
    if is_chain(options) {
        return chain_of(alloc, form, options);
    }
    match options.get_raw("FILE") {
        None => Ok(Job::Streams(Asked::Audit(form))),
        Some(_) => Err(WordsFault::Words(String::from_str(
            alloc,
            "error: a FILE stands with '--chain' alone\n\nFor more information, try '--help'.\n",
        )?)),
    }
}

/// Whether the audit of a chain is asked for.
fn is_chain(options: &ArgMatches<'_>) -> bool
    ensures yes { result ≡ true → first_of (codes "chain") (rows_of (found_of options.now)) ≡ Some (codes "true") }
    ensures other { first_of (codes "chain") (rows_of (found_of options.now)) ≡ Some (codes "true") → result ≡ true }
{
    match options.get_str("chain") {
        Some(word) => word == "true",
        None => false,
    }
}

/// The chain of the files that are named.
fn chain_of(alloc: Global, form: Form, options: &ArgMatches<'_>) -> Result<Job, WordsFault>
    ensures named { (names : List Text) → all_of (codes "FILE") (rows_of (found_of options.now)) ≡ Some names → MatchResult result (IsChainOf form names) (λ d. d ≡ Memory) }
    ensures only { IfOk result (λ t. IsChainFound form t (all_of (codes "FILE") (rows_of (found_of options.now)))) }
{
    match options.get_raw("FILE") {
        Some(words) => {
            let names = copied(alloc, words)?;
            Ok(Job::Chain(form, names))
        }
        None => Err(WordsFault::Words(String::from_str(
            alloc,
            "error: '--chain' takes one FILE or more\n\nFor more information, try '--help'.\n",
        )?)),
    }
}

/// These words again.
fn copied(alloc: Global, words: &[&str]) -> Result<Vec<String>, AllocError>
    ensures { IfOk result (λ copy. map string_bytes copy.items ≡ texts words.now) }
{
    let mut copy = Vec::new(alloc);
    for word in words {
        let text = String::from_str(alloc, word)?;
        copy.push(text)?;
    }
    Ok(copy)
}

/// What is asked for where `clap` finds no matches: the version or help at most.
fn asked_instead(alloc: Global, error: &Error) -> Result<Asked, WordsFault>
    ensures memory { kind_of error.now ≡ OutOfMemory → result ≡ Err Memory }
    ensures version { kind_of error.now ≡ DisplayVersion → result ≡ Ok Version }
    ensures help { kind_of error.now ≡ DisplayHelp → MatchResult result IsHelp (λ d. d ≡ Memory) }
    ensures only { IfOk result (λ a. IsShown a (kind_of error.now)) }
{
    match error.kind() {
        ErrorKind::DisplayVersion => Ok(Asked::Version),
        ErrorKind::DisplayHelp => Ok(Asked::Help(error.to_string(alloc)?)),
        ErrorKind::OutOfMemory => Err(WordsFault::Memory),
        _ => Err(WordsFault::Words(error.to_string(alloc)?)),
    }
}

fn asked_by(alloc: Global, matches: &ArgMatches<'_>) -> Result<Asked, WordsFault>
    ensures replay { (emit : Emit) → MetReplay emit (subcommand_rows_of matches.now) → result ≡ Ok (Replay emit) }
    ensures run { (options : Options) → MetRun options (subcommand_rows_of matches.now) → result ≡ Ok (Run options) }
    ensures upgrade { (target : Target) → MetUpgrade target (subcommand_rows_of matches.now) → result ≡ Ok (Upgrade target) }
    ensures only { IfOk result (λ a. IsMet a (subcommand_rows_of matches.now)) }
{
    match matches.subcommand_matches("replay") {
        Some(options) => Ok(Asked::Replay(emit_of(alloc, options)?)),
        None => run_by(alloc, matches),
    }
}

fn run_by(alloc: Global, matches: &ArgMatches<'_>) -> Result<Asked, WordsFault>
    ensures run { (options : Options) → MetRun options (subcommand_rows_of matches.now) → result ≡ Ok (Run options) }
    ensures upgrade { (target : Target) → MetUpgrade target (subcommand_rows_of matches.now) → result ≡ Ok (Upgrade target) }
    ensures only { IfOk result (λ a. IsMet a (subcommand_rows_of matches.now)) }
{
    match matches.subcommand_matches("run") {
        Some(options) => Ok(Asked::Run(options_of(alloc, options)?)),
        None => upgrade_by(alloc, matches),
    }
}

/// How a run is to be done, by its options.
fn options_of(alloc: Global, options: &ArgMatches<'_>) -> Result<RunOptions, WordsFault>
    ensures chosen { (o : Options) → Chooses (run_words (rows_of (found_of options.now))) o → result ≡ Ok o }
    ensures only { IfOk result (Chooses (run_words (rows_of (found_of options.now)))) }
{
    let emit = emit_of(alloc, options)?;
    let host = host_of(alloc, options)?;
    let capacity = limit_of(alloc, options, "capacity", 4096, 64)?;
    let turns = limit_of(alloc, options, "turns", 10_000_000, 100_000)?;
    Ok(RunOptions::new(host, emit, capacity, turns))
}

/// Which host is to have the replicas.
fn host_of(alloc: Global, options: &ArgMatches<'_>) -> Result<Host, WordsFault>
    ensures named { (host : Host) → NamesHost (first_of (codes "host") (rows_of (found_of options.now))) host → result ≡ Ok host }
    ensures only { IfOk result (NamesHost (first_of (codes "host") (rows_of (found_of options.now)))) }
{
    match options.get_str("host") {
        Some(name) => host_named(alloc, name),
        None => Ok(Host::Lock),
    }
}

fn host_named(alloc: Global, name: &str) -> Result<Host, WordsFault>
    ensures lock { name.now ≡ codes "lock" → result ≡ Ok Lock }
    ensures ring { name.now ≡ codes "ring" → result ≡ Ok Ring }
    ensures only { IfOk result (NamesHost (Some name.now)) }
{
    if name == "lock" {
        Ok(Host::Lock)
    } else if name == "ring" {
        Ok(Host::Ring)
    } else {
        Err(WordsFault::Words(format!(in alloc;
            "error: invalid value {name:?} for '--host <HOST>'\n  [possible values: lock, ring]\n\nFor more information, try '--help'.\n"
        )?))
    }
}

/// The number after this option, from 1 to so much, or this one where there is none.
fn limit_of(
    alloc: Global,
    options: &ArgMatches<'_>,
    name: &str,
    most: u64,
    default: u64,
) -> Result<u64, WordsFault>
    requires { (1 ≤ default) × (default ≤ most) }
    ensures spelled { (n : ℕ) → limit_in most default (first_of name.now (rows_of (found_of options.now))) ≡ Some n → result ≡ Ok n }
    ensures only { IfOk result (λ n. limit_in most default (first_of name.now (rows_of (found_of options.now))) ≡ Some n) }
    ensures in_range { IfOk result (λ n. (1 ≤ n) × (n ≤ most)) }
{
    match options.get_str(name) {
        Some(word) => limit_named(alloc, word, name, most),
        None => Ok(default),
    }
}

fn limit_named(alloc: Global, word: &str, name: &str, most: u64) -> Result<u64, WordsFault>
    ensures spelled { (n : ℕ) → number_between 1 most word.now ≡ Some n → result ≡ Ok n }
    ensures only { IfOk result (λ n. number_between 1 most word.now ≡ Some n) }
    ensures in_range { IfOk result (λ n. (1 ≤ n) × (n ≤ most)) }
{
    match number_in(word.as_bytes(), 1, most) {
        Some(number) => Ok(number),
        None => Err(WordsFault::Words(format!(in alloc;
            "error: invalid value {word:?} for '--{name}': it takes a number from 1 to {most}\n\nFor more information, try '--help'.\n"
        )?)),
    }
}

fn upgrade_by(alloc: Global, matches: &ArgMatches<'_>) -> Result<Asked, WordsFault>
    ensures upgrade { (target : Target) → MetUpgrade target (subcommand_rows_of matches.now) → result ≡ Ok (Upgrade target) }
    ensures only { IfOk result (λ a. IsMet a (subcommand_rows_of matches.now)) }
{
    match matches.subcommand_matches("upgrade") {
        Some(options) => Ok(Asked::Upgrade(target_of(alloc, options)?)),
        None => Err(WordsFault::Words(String::new(alloc))),
    }
}

/// The version that a bundle is upgraded to.
fn target_of(alloc: Global, options: &ArgMatches<'_>) -> Result<Target, WordsFault>
    ensures named { (target : Target) → NamesTarget (first_of (codes "to") (rows_of (found_of options.now))) target → result ≡ Ok target }
    ensures only { IfOk result (NamesTarget (first_of (codes "to") (rows_of (found_of options.now)))) }
{
    match options.get_str("to") {
        Some(name) => target_named(alloc, name),
        None => Ok(Target::Second),
    }
}

fn target_named(alloc: Global, name: &str) -> Result<Target, WordsFault>
    ensures second { name.now ≡ codes "2" → result ≡ Ok Second }
    ensures third { name.now ≡ codes "3" → result ≡ Ok Third }
    ensures only { IfOk result (NamesTarget (Some name.now)) }
{
    if name == "2" {
        Ok(Target::Second)
    } else if name == "3" {
        Ok(Target::Third)
    } else {
        Err(WordsFault::Words(format!(in alloc;
            "error: invalid value {name:?} for '--to <VERSION>'\n  [possible values: 2, 3]\n\nFor more information, try '--help'.\n"
        )?))
    }
}

/// How an audit is to be reported.
fn form_of(alloc: Global, options: &ArgMatches<'_>) -> Result<Form, WordsFault>
    ensures named { (form : Form) → NamesForm (first_of (codes "emit") (rows_of (found_of options.now))) form → result ≡ Ok form }
    ensures only { IfOk result (NamesForm (first_of (codes "emit") (rows_of (found_of options.now)))) }
{
    match options.get_str("emit") {
        Some(what) => form_named(alloc, what),
        None => Ok(Form::Lines),
    }
}

fn form_named(alloc: Global, what: &str) -> Result<Form, WordsFault>
    ensures lines { what.now ≡ codes "report" → result ≡ Ok Lines }
    ensures json { what.now ≡ codes "json" → result ≡ Ok Json }
    ensures only { IfOk result (NamesForm (Some what.now)) }
{
    if what == "report" {
        Ok(Form::Lines)
    } else if what == "json" {
        Ok(Form::Json)
    } else {
        Err(WordsFault::Words(format!(in alloc;
            "error: invalid value {what:?} for '--emit <WHAT>'\n  [possible values: report, json]\n\nFor more information, try '--help'.\n"
        )?))
    }
}

fn emit_of(alloc: Global, options: &ArgMatches<'_>) -> Result<Emit, WordsFault>
    ensures named { (emit : Emit) → Names (first_of (codes "emit") (rows_of (found_of options.now))) emit → result ≡ Ok emit }
    ensures only { IfOk result (Names (first_of (codes "emit") (rows_of (found_of options.now)))) }
{
    match options.get_str("emit") {
        Some(what) => emit_named(alloc, what),
        None => Ok(Emit::Report(Form::Lines)),
    }
}

fn emit_named(alloc: Global, what: &str) -> Result<Emit, WordsFault>
    ensures report { what.now ≡ codes "report" → result ≡ Ok (Report Lines) }
    ensures json { what.now ≡ codes "json" → result ≡ Ok (Report Json) }
    ensures bundle { what.now ≡ codes "bundle" → result ≡ Ok Bundle }
    ensures only { IfOk result (Names (Some what.now)) }
{
    if what == "report" {
        Ok(Emit::Report(Form::Lines))
    } else if what == "json" {
        Ok(Emit::Report(Form::Json))
    } else if what == "bundle" {
        Ok(Emit::Bundle)
    } else {
        Err(WordsFault::Words(format!(in alloc;
            "error: invalid value {what:?} for '--emit <WHAT>'\n  [possible values: report, json, bundle]\n\nFor more information, try '--help'.\n"
        )?))
    }
}

fn program<'a>(alloc: Global) -> Result<Command<'a>, AllocError>
    ensures { IfOk result (λ c. app_of c ≡ epaxos) }
{
    let command = auditing_program(alloc)?;
    let upgrade = upgrade_command(alloc)?;
    command.subcommand(upgrade)
}

fn upgrade_command<'a>(alloc: Global) -> Result<Command<'a>, AllocError>
    ensures { IfOk result (λ c. (app_of c ≡ upgrade_app) × ((fields_of c).has_globals ≡ false)) }
{
    let to = Arg::new(alloc, "to")
        .long("to")
        .value_name("VERSION")
        .help("Which version the bundle is to be of: 2 (the default) or 3")
        .action(ArgAction::Set);
    let command = Command::new(alloc, "upgrade")
        .about(
            "Reads a bundle on standard input, and writes the bundle of version 2, or 3, that says the same",
        )
        .after_help(AFTER_UPGRADE);
    command.arg(to)
}

/// The program without its subcommand `upgrade`.
fn auditing_program<'a>(alloc: Global) -> Result<Command<'a>, AllocError>
    ensures { IfOk result (λ c. app_of c ≡ auditing) }
{
    let command = replaying_program(alloc)?;
    let run = run_command(alloc)?;
    let audit = audit_command(alloc)?;
    command.subcommand(run)?.subcommand(audit)
}

fn audit_command<'a>(alloc: Global) -> Result<Command<'a>, AllocError>
    ensures { IfOk result (λ c. (app_of c ≡ audit_app) × ((fields_of c).has_globals ≡ false)) }
{
    let chained = chained_command(alloc)?;
    let formed = formed_command(alloc, chained)?;
    filed_command(alloc, formed)
}

/// The command `audit` with its option `--chain` alone.
fn chained_command<'a>(alloc: Global) -> Result<Command<'a>, AllocError>
    ensures { IfOk result (λ c. (app_of c ≡ chained) × ((fields_of c).has_globals ≡ false)) }
{
    let chain = Arg::new(alloc, "chain")
        .long("chain")
        .help("Audits a chain: the bundles of generations, one after the other, each in a FILE")
        .action(ArgAction::SetTrue);
    let command = Command::new(alloc, "audit")
        .about("Reads a bundle on standard input, audits it, and prints what the audit says")
        .after_help(AFTER_AUDIT);
    command.arg(chain)
}

/// The same with its option `--emit`.
fn formed_command<'a>(alloc: Global, command: Command<'a>) -> Result<Command<'a>, AllocError>
    requires { (app_of command ≡ chained) × ((fields_of command).has_globals ≡ false) }
    ensures { IfOk result (λ c. (app_of c ≡ formed) × ((fields_of c).has_globals ≡ false)) }
{
    let emit = Arg::new(alloc, "emit")
        .long("emit")
        .value_name("WHAT")
        .help("What to print: report (the default), or json, the same as one object of JSON")
        .action(ArgAction::Set);
    command.arg(emit)
}

/// The same with the names of files, the last words.
fn filed_command<'a>(alloc: Global, command: Command<'a>) -> Result<Command<'a>, AllocError>
    requires { (app_of command ≡ formed) × ((fields_of command).has_globals ≡ false) }
    ensures { IfOk result (λ c. (app_of c ≡ audit_app) × ((fields_of c).has_globals ≡ false)) }
{
    let files = Arg::new(alloc, "FILE")
        .help("The bundle of a generation, of version 3; with --chain, from the first one on")
        .action(ArgAction::Append);
    command.arg(files)
}

/// The program with its subcommand `replay` alone.
fn replaying_program<'a>(alloc: Global) -> Result<Command<'a>, AllocError>
    ensures { IfOk result (λ c. app_of c ≡ replaying) }
{
    let replay = replay_command(alloc)?;
    let command = Command::new(alloc, "epaxos")
        .about("A replicated key-value core without a leader")
        .after_help(AFTER_ALL)
        .version("1.0.0")
        .subcommand_required(true);
    command.subcommand(replay)
}

fn replay_command<'a>(alloc: Global) -> Result<Command<'a>, AllocError>
    ensures { IfOk result (λ c. (app_of c ≡ replay_app) × ((fields_of c).has_globals ≡ false)) }
{
    let emit = Arg::new(alloc, "emit")
        .long("emit")
        .value_name("WHAT")
        .help(
            "What to print: report (the default), json, the report as one object of JSON, or bundle",
        )
        .action(ArgAction::Set);
    let command = Command::new(alloc, "replay")
        .about(
            "Reads a script on standard input, plays it in one thread, audits what it leaves, and prints a report or a bundle",
        )
        .after_help(AFTER_REPLAY);
    command.arg(emit)
}

fn run_command<'a>(alloc: Global) -> Result<Command<'a>, AllocError>
    ensures { IfOk result (λ c. (app_of c ≡ run_app) × ((fields_of c).has_globals ≡ false)) }
{
    let hosted = hosted_command(alloc)?;
    let bounded = bounded_command(alloc, hosted)?;
    let turned = turned_command(alloc, bounded)?;
    emitting_command(alloc, turned)
}

/// The command `run` with its option `--host` alone.
fn hosted_command<'a>(alloc: Global) -> Result<Command<'a>, AllocError>
    ensures { IfOk result (λ c. (app_of c ≡ hosted) × ((fields_of c).has_globals ≡ false)) }
{
    let host = Arg::new(alloc, "host")
        .long("host")
        .value_name("HOST")
        .help("Which host has the replicas: lock (the default) or ring")
        .action(ArgAction::Set);
    let command = Command::new(alloc, "run")
        .about(
            "Reads a script on standard input, runs it in threads, audits what they leave, and prints a report or a bundle",
        )
        .after_help(AFTER_RUN);
    command.arg(host)
}

/// The same with its option `--capacity`.
fn bounded_command<'a>(alloc: Global, command: Command<'a>) -> Result<Command<'a>, AllocError>
    requires { (app_of command ≡ hosted) × ((fields_of command).has_globals ≡ false) }
    ensures { IfOk result (λ c. (app_of c ≡ bounded) × ((fields_of c).has_globals ≡ false)) }
{
    let capacity = Arg::new(alloc, "capacity")
        .long("capacity")
        .value_name("K")
        .help("How many frames an inbox, or a ring, holds: 1 to 4096 (64 is the default)")
        .action(ArgAction::Set);
    command.arg(capacity)
}

/// The same with its option `--turns`.
fn turned_command<'a>(alloc: Global, command: Command<'a>) -> Result<Command<'a>, AllocError>
    requires { (app_of command ≡ bounded) × ((fields_of command).has_globals ≡ false) }
    ensures { IfOk result (λ c. (app_of c ≡ turned) × ((fields_of c).has_globals ≡ false)) }
{
    let turns = Arg::new(alloc, "turns")
        .long("turns")
        .value_name("T")
        .help(
            "How often a thread turns in a section, at most: 1 to 10000000 (100000 is the default)",
        )
        .action(ArgAction::Set);
    command.arg(turns)
}

/// The same with its option `--emit`, the last one.
fn emitting_command<'a>(alloc: Global, command: Command<'a>) -> Result<Command<'a>, AllocError>
    requires { (app_of command ≡ turned) × ((fields_of command).has_globals ≡ false) }
    ensures { IfOk result (λ c. (app_of c ≡ run_app) × ((fields_of c).has_globals ≡ false)) }
{
    let emit = Arg::new(alloc, "emit")
        .long("emit")
        .value_name("WHAT")
        .help(
            "What to print: report (the default), json, the report as one object of JSON, or bundle",
        )
        .action(ArgAction::Set);
    command.arg(emit)
}
