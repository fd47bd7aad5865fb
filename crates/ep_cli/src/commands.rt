//! Commands, as `clap` has them.

use crate::arg_kind::ArgKind;
use crate::arg_row::ArgRow;
use crate::command_row::CommandRow;
use clap::{Arg, Command};
use std::alloc::{AllocError, Global};

/// The program `epaxos` with these commands, of which one has to be there.
pub fn program<'a>(alloc: Global, rows: &[CommandRow]) -> Result<Command<'a>, AllocError> {
    let mut program = Command::new(alloc, "epaxos")
        .about("A replicated key-value core without a leader")
        .version("1.0.0")
        .subcommand_required(true);
    for row in rows {
        program = with_command(alloc, program, row)?;
    }
    Ok(program)
}

/// The program with one command more.
fn with_command<'a>(
    alloc: Global,
    program: Command<'a>,
    row: &CommandRow,
) -> Result<Command<'a>, AllocError> {
    match command_of(alloc, row) {
        Ok(command) => program.subcommand(command),
        Err(fault) => {
            drop(program);
            Err(fault)
        }
    }
}

fn command_of<'a>(alloc: Global, row: &CommandRow) -> Result<Command<'a>, AllocError> {
    let command = Command::new(alloc, row.name)
        .about(row.about)
        .after_help(row.after_help);
    let command = with_args(alloc, command, row.args)?;
    with_args(alloc, command, row.more)
}

/// The command with these words and options more.
fn with_args<'a>(
    alloc: Global,
    command: Command<'a>,
    rows: &[ArgRow],
) -> Result<Command<'a>, AllocError> {
    let mut command = command;
    for row in rows {
        command = command.arg(arg_of(alloc, row))?;
    }
    Ok(command)
}

fn arg_of<'a>(alloc: Global, row: &ArgRow) -> Arg<'a> {
    let arg = Arg::new(alloc, row.name)
        .required(row.is_required)
        .help(row.help)
        .action(row.action);
    match &row.kind {
        ArgKind::Word => arg,
        ArgKind::Flag => arg.long(row.name),
        ArgKind::Valued(value) => arg.long(row.name).value_name(value),
    }
}
