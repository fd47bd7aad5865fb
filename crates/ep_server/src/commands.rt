//! The commands, and the words and options of each.

use clap::ArgAction;
use ep_cli::{ArgKind, ArgRow, CommandRow};

/// What the help of `node` says at its end.
const AFTER_NODE: &str = "\
Standard input is requests, standard output their answers, one for each, in order; docs/FORMATS.md, section 10, has their bytes.
A log is gone on with; with --new it is begun. An answer is written once all that it tells is on the disk. A replica whose log is
lost must never be begun again under its number: it would have forgotten what it told.

With --dir the replica lives through generations: FOLDER/G has the opening and the log of generation G, and the newest one is served.
Where a seal was executed in it, a start closes it, writes the opening of the next generation, of N replicas, and serves that. So to go
on after a seal, end the input and start the program again. A replica that comes late, or whose disk was lost, goes on with a peer's
FOLDER/G/opening by --take. Once FOLDER/G/left is there, the rest of FOLDER/G may be dropped, and then the mark.

Example (client 1 proposes its request 1, to put x = 1, and a sync, by which the answers come):
  printf '\\0\\0\\0\\27\\1\\0\\0\\0\\1\\0\\0\\0\\1\\0\\0\\0\\0\\0\\0\\0\\0\\3\\1\\0\\1x1\\0\\0\\0\\1\\12' |
    epaxos node --replicas 3 --replica 0 --log zero.log --new | od -An -tx1

Exit status:
  0  the input is over, all that was taken is on the disk, and each request is answered
  2  the command line, the log, the folder or the length of a request is refused; standard error says why, or at which byte
  3  memory was refused
  4  reading, writing, the log or the folder failed";

/// What the help of `collect` says at its end.
const AFTER_COLLECT: &str = "\
Each LOG is the log of one replica of a cluster, as `epaxos node` keeps it; they may stand in any order. Each file of receipts has
some of what clients were told, one after the other, as a bundle has them (docs/FORMATS.md, section 2). Standard output is the
bundle of version 2 of the logs' journals and of these receipts. A file whose end is torn is taken up to it, which standard error
says. Nothing is audited, and nothing is printed before all files are read. Standard input is not read.

With --generation each LOG is the folder of a node (--dir), and what is collected are the files opening and log of that generation in
each of them. Standard output is then the bundle of version 3 of that generation, which opens with the map of these opening files.

Examples:
  epaxos collect --receipts told.receipts zero.log one.log two.log | epaxos audit
  epaxos collect --generation 2 zero one two > 2.bundle

Exit status:
  0  the bundle is written
  2  the command line, a log, an opening or a file of receipts is refused, a folder lacks a file of the generation, or the logs
     aren't one for each replica of one cluster; standard error says why
  3  memory was refused
  4  a file could not be opened or read, or writing failed";

/// What the help of `contents` says at its end.
const AFTER_CONTENTS: &str = "\
FOLDER is that of a node (--dir). Standard output is what the replica has executed in the newest generation there: a line with the
generation, how many entries its log has, how many keys have a value and the digest of them all, as a report has it, and then a line
for each key, in rising order, with its value: two words of bytes (docs/CLI.md, sections 3 and 6.3). A log whose end is torn is
taken up to it, which standard error says. The folder is not changed. Standard input is not read.

Example:
  epaxos contents zero

Exit status:
  0  the map is written
  2  the command line, the opening or the log is refused, or the folder has no generation; standard error says why
  3  memory was refused
  4  a file could not be opened or read, or writing failed";

/// The options of `node`.
const NODE: &[ArgRow] = &[
    ArgRow {
        name: "replicas",
        kind: ArgKind::Valued("N"),
        action: ArgAction::Set,
        is_required: true,
        help: "How many replicas the cluster has: 3, 5 or 7",
    },
    ArgRow {
        name: "replica",
        kind: ArgKind::Valued("R"),
        action: ArgAction::Set,
        is_required: true,
        help: "Which of them this is, from 0 on",
    },
    ArgRow {
        name: "log",
        kind: ArgKind::Valued("FILE"),
        action: ArgAction::Set,
        is_required: false,
        help: "Its log, of a cluster that has one generation",
    },
    ArgRow {
        name: "dir",
        kind: ArgKind::Valued("FOLDER"),
        action: ArgAction::Set,
        is_required: false,
        help: "The folder of its generations, in the place of --log",
    },
    ArgRow {
        name: "new",
        kind: ArgKind::Flag,
        action: ArgAction::SetTrue,
        is_required: false,
        help: "Begins the log: the replica is new, and there is none yet",
    },
    ArgRow {
        name: "take",
        kind: ArgKind::Valued("FILE"),
        action: ArgAction::Set,
        is_required: false,
        help: "With --dir: goes on with the opening of a later generation, which a peer has",
    },
    ArgRow {
        name: "sync",
        kind: ArgKind::Valued("WHEN"),
        action: ArgAction::Set,
        is_required: false,
        help: "When answers are written: each (after each request) or asked (the default: at a sync request)",
    },
];

/// The words and options of `collect`.
const COLLECT: &[ArgRow] = &[
    ArgRow {
        name: "receipts",
        kind: ArgKind::Valued("FILE"),
        action: ArgAction::Append,
        is_required: false,
        help: "A file of receipts; this option may be given more than once",
    },
    ArgRow {
        name: "generation",
        kind: ArgKind::Valued("G"),
        action: ArgAction::Set,
        is_required: false,
        help: "Which generation is collected, of the folders of nodes",
    },
    ArgRow {
        name: "LOG",
        kind: ArgKind::Word,
        action: ArgAction::Append,
        is_required: true,
        help: "The log of a replica; with --generation the folder of a node",
    },
];

/// The word of `contents`.
const CONTENTS: &[ArgRow] = &[ArgRow {
    name: "FOLDER",
    kind: ArgKind::Word,
    action: ArgAction::Set,
    is_required: true,
    help: "The folder of a node",
}];

/// The command that serves.
pub(crate) fn node() -> CommandRow {
    CommandRow {
        name: "node",
        about: "Serves as one replica, with its log in a file: requests on standard input, answers on standard output",
        after_help: AFTER_NODE,
        args: NODE,
        more: &[],
    }
}

/// The command that collects logs and receipts.
pub(crate) fn collect() -> CommandRow {
    CommandRow {
        name: "collect",
        about: "Makes the bundle of the logs of a cluster's replicas, and of receipts",
        after_help: AFTER_COLLECT,
        args: COLLECT,
        more: &[],
    }
}

/// The command that shows a map.
pub(crate) fn contents() -> CommandRow {
    CommandRow {
        name: "contents",
        about: "Prints the map of the newest generation in the folder of a node",
        after_help: AFTER_CONTENTS,
        args: CONTENTS,
        more: &[],
    }
}
