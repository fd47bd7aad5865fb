//! The commands, with their words and their help.

use clap::{ArgAction, Command};
use ep_cli::{ArgKind, ArgRow, CommandRow};
use std::alloc::{AllocError, Global};

/// What the help of `show` says at its end.
const AFTER_SHOW: &str = "\
Standard input, to its end, is a bundle, as `replay --emit bundle` writes it. Each entry of its journals is a line, by stamp and
then by replica: the event, what it sends to whom, and what it executes. NEVER HANDLED stands at the receiver of a frame that no
entry handles. Options keep a part of them; where none is kept, a line says so. Nothing is audited, and nothing is printed before
the end is read.

Example:
  epaxos replay --emit bundle < examples/one_put.script | epaxos show
  epaxos replay --emit bundle < examples/swap.script | epaxos show --key y

Exit status:
  0  the entries are printed
  2  the command line or the bundle is refused; standard error says where
  3  memory was refused
  4  reading or writing failed";

/// What the help of `explain` says at its end.
const AFTER_EXPLAIN: &str = "\
Standard input is a bundle, as `replay --emit bundle` writes it, or a script. Printed are the lines of the audit or of the reader,
with all faults of a bundle and not the first alone, and under each what to do, what usually brings it about, what stands where, and
what differs; of a bundle that the audit accepts what would end what is open in it; of a script the line and the word that are
refused, what stands there and what may. Nothing is printed before the end is read, or the first field or line at fault.

Example:
  epaxos explain < refused.bundle
  epaxos explain < refused.script

Exit status:
  0  the audit accepts the bundle, or the script is read
  1  the audit refuses the bundle
  2  the command line is refused, and standard error says where; or it is no bundle and no script, and why is printed
  3  memory was refused
  4  reading or writing failed";

/// What the help of `draw` says at its end.
const AFTER_DRAW: &str = "\
Standard input, to its end, is a bundle, as `replay --emit bundle` writes it. Printed is one HTML file that needs no network: the
space-time diagram and the dependency graph to zoom and move in, the instances, and a box for words; both are saved as SVG there.
With --mermaid: a sequence diagram, which GitHub and editors render. With --dot: the dependency graph of what is committed, for
Graphviz, without what is implied: of the entries that are kept, those instances that they propose or recover. There is no limit
but memory. --page is what is printed without options, and goes with the next version. Nothing is printed before the end is read.

Example:
  epaxos replay --emit bundle < examples/one_put.script | epaxos draw > one_put.html
  epaxos replay --emit bundle < examples/one_put.script | epaxos draw --mermaid > one_put.mmd
  epaxos replay --emit bundle < examples/conflict.script | epaxos draw --dot | dot -Tsvg > conflict.svg

Exit status:
  0  the page, the diagram or the graph is printed
  2  the command line or the bundle is refused; standard error says where
  3  memory was refused
  4  reading or writing failed";

/// What the help of `trace-events` says at its end.
const AFTER_EVENTS: &str = "\
Standard input, to its end, is a bundle, as `replay --emit bundle` writes it. Printed is JSON in the Trace Event Format, which
https://ui.perfetto.dev and chrome://tracing open: a process a replica, a slice an entry, with its words among its arguments, an
arrow a frame, an instant where an instance is committed and where a frame is sent that no entry handles. A stamp is a microsecond.
Nothing is printed before the end is read.

Example:
  epaxos replay --emit bundle < examples/one_put.script | epaxos trace-events > one_put.json

Exit status:
  0  the events are printed
  2  the command line or the bundle is refused; standard error says where
  3  memory was refused
  4  reading or writing failed";

/// What the help of `trace` says at its end.
const AFTER_TRACE: &str = "\
Standard input, to its end, is a script: lines as in the example; docs/CLI.md, section 4, has all of them.
Nothing is printed before the end is read.

A trace has a line for each event that the script tries, in order: the script's line, the replica's entry, the event, the number
of each message that it sends and to whom, and what it executes; or why it is refused. Then each message that was never given,
and each instance that a replica knows of and hasn't committed, and what would end it. So it tells which numbers the next `deliver`
may name, and which `recover` or `execute` may come next.

Example:
  printf 'replicas 3\\npropose 0 1 put x 1\\nflush\\nflush\\nexecute 0 0.1\\n' | epaxos trace

Exit status:
  0  the script was played, and its trace is printed; it isn't audited
  2  the command line or the script is refused; standard error says where
  3  memory was refused
  4  reading or writing failed";

/// The option of `show`.
const SHOW: &[ArgRow] = &[ArgRow {
    name: "columns",
    kind: ArgKind::Flag,
    action: ArgAction::SetTrue,
    is_required: false,
    help: "A column a replica, 32 wide each",
}];

/// The options of `draw`.
const DRAW: &[ArgRow] = &[
    ArgRow {
        name: "mermaid",
        kind: ArgKind::Flag,
        action: ArgAction::SetTrue,
        is_required: false,
        help: "Prints a sequence diagram for Mermaid in place of the page",
    },
    ArgRow {
        name: "dot",
        kind: ArgKind::Flag,
        action: ArgAction::SetTrue,
        is_required: false,
        help: "Prints the dependency graph for Graphviz in place of the page",
    },
    ArgRow {
        name: "page",
        kind: ArgKind::Flag,
        action: ArgAction::SetTrue,
        is_required: false,
        help: "Prints the page, as without options; goes with the next version",
    },
];

/// The options that keep a part.
const PARTS: &[ArgRow] = &[
    ArgRow {
        name: "instance",
        kind: ArgKind::Valued("R.N"),
        action: ArgAction::Set,
        is_required: false,
        help: "Keeps the entries that name, send or execute this instance",
    },
    ArgRow {
        name: "key",
        kind: ArgKind::Valued("KEY"),
        action: ArgAction::Set,
        is_required: false,
        help: "Keeps those about the instances that commands on this key took",
    },
    ArgRow {
        name: "client",
        kind: ArgKind::Valued("C"),
        action: ArgAction::Set,
        is_required: false,
        help: "Keeps those about the instances that commands of this client took; with --key, on that key",
    },
    ArgRow {
        name: "replica",
        kind: ArgKind::Valued("R"),
        action: ArgAction::Set,
        is_required: false,
        help: "Keeps those of this replica",
    },
    ArgRow {
        name: "from",
        kind: ArgKind::Valued("STAMP"),
        action: ArgAction::Set,
        is_required: false,
        help: "Keeps those of this stamp and greater ones",
    },
    ArgRow {
        name: "to",
        kind: ArgKind::Valued("STAMP"),
        action: ArgAction::Set,
        is_required: false,
        help: "Keeps those of this stamp and lesser ones",
    },
];

/// The program, as its command line has it.
pub(crate) fn program<'a>(alloc: Global) -> Result<Command<'a>, AllocError> {
    ep_cli::program(alloc, &[trace(), show(), explain(), draw(), events()])
}

fn show() -> CommandRow {
    CommandRow {
        name: "show",
        about: "Reads a bundle on standard input, and prints the entries of its journals in words",
        after_help: AFTER_SHOW,
        args: SHOW,
        more: parts(),
    }
}

fn explain() -> CommandRow {
    CommandRow {
        name: "explain",
        about: "Reads a bundle or a script on standard input, and prints why it is refused, in words",
        after_help: AFTER_EXPLAIN,
        args: &[],
        more: &[],
    }
}

fn draw() -> CommandRow {
    CommandRow {
        name: "draw",
        about: "Reads a bundle on standard input, and prints a page for a browser that draws its journals, or a text that other tools draw",
        after_help: AFTER_DRAW,
        args: DRAW,
        more: parts(),
    }
}

fn events() -> CommandRow {
    CommandRow {
        name: "trace-events",
        about: "Reads a bundle on standard input, and prints its journals as trace events, JSON for Perfetto",
        after_help: AFTER_EVENTS,
        args: &[],
        more: parts(),
    }
}

fn trace() -> CommandRow {
    CommandRow {
        name: "trace",
        about: "Reads a script on standard input, plays it in one thread, and prints what each of its events did",
        after_help: AFTER_TRACE,
        args: &[],
        more: &[],
    }
}

fn parts() -> &'static [ArgRow] {
    PARTS
}
