//! Why a line of a script is refused, in words.

ghost use Rattle.std.specs.Prelude.{◌≡◌, ◌<◌, slice_index};
ghost use Rattle.std.specs.Char.{digit_char};

use crate::guess::ORDER_MARK;
use crate::reasons::Reasons;
use crate::wording::Wording;
use ep_script::{COMMANDS, Form, LINES, Operand, Refusal, Standing, Why};

/// How much of a word is reported.
const SHOWN: usize = 60;

/// Appends why the line is refused, behind its number.
pub(crate) fn say_refusal(line: &mut Wording, refusal: &Refusal<'_>) {
    match refusal.why {
        Why::Nothing => line.say(b": it isn't of the grammar"),
        Why::Over => {
            line.say(b": the script is over, and has no line replicas N, with N 3, 5 or 7");
        }
        Why::Lines => line.say(b": a script has at most 100000 lines"),
        Why::Bytes => line.say(b": a line has at most 8192 bytes, and this one has more"),
        Why::Lacks => {
            say_place(line, refusal);
            line.say(b"nothing stands here: ");
            say_lacking(line, refusal);
        }
        _ => {
            say_place(line, refusal);
            show(line, refusal.word);
            line.say(b" ");
            say_why(line, refusal);
        }
    }
}

/// Adds where the cluster's size stands.
pub(crate) fn add_size(refusal: &Refusal<'_>, reasons: &mut Reasons) {
    if let Some(size) = refusal.size {
        let count = u64::from(size.count());
        reasons.say_with(
            b"line #: there are # replicas, 0 to #",
            &[u64::from(refusal.size_line), count, count.saturating_sub(1)],
        );
    }
}

fn say_place(line: &mut Wording, refusal: &Refusal<'_>) {
    line.say_with(b", word #: ", &[u64::from(refusal.place)]);
}

/// Appends a word as it is reported: by % and two digits where a byte isn't printed.
fn show(line: &mut Wording, word: &[u8]) {
    for byte in word.iter().take(SHOWN) {
        if *byte > b' ' && *byte <= b'~' {
            line.say(&[*byte]);
        } else {
            line.say(b"%");
            say_digits(line, *byte);
        }
    }
    if word.len() > SHOWN {
        line.say(b"...");
    }
}

fn say_digits(line: &mut Wording, byte: u8) {
    line.say(&[digit(byte / 16), digit(byte % 16)]);
}

fn digit(value: u8) -> u8
    ensures { value < 16 → result ≡ digit_char value }
{
    match value {
        0..=9 => b'0' + value,
        10..=15 => b'a' + (value - 10),
        _ => b'?',
    }
}

/// Appends what the word is.
fn say_why(line: &mut Wording, refusal: &Refusal<'_>) {
    match refusal.why {
        Why::More => say_more(line, refusal),
        Why::Unlike => say_unlike(line, refusal),
        Why::Misplaced => line.say(place_of(refusal.standing)),
        Why::Late => say_late(line, refusal),
        Why::Other => say_other(line, refusal),
        Why::NoNumber => say_ranged(line, b"is no number: ", refusal),
        Why::Long => say_ranged(line, b"is too long; expected ", refusal),
        Why::OutOfRange => say_ranged(line, b"is out of range: ", refusal),
        Why::NoInstance => line.say_with(
            b"is no instance: R.I, a replica R, a dot and a number I, 1 to #",
            &[most(refusal)],
        ),
        Why::Length(count) => {
            line.say_with(b"spells # bytes: the length of ", &[count]);
            say_range(line, refusal);
        }
        Why::Byte(place) => say_byte(line, byte_at(refusal.word, place)),
        Why::Escape(place) => say_escape(line, refusal.word, place),
        Why::Same => line.say(same(refusal)),
        Why::SecondStamp(before) => line.say_with(
            b"is the script's second line since, after line #",
            &[u64::from(before)],
        ),
        Why::SecondKey(before) => line.say_with(
            b"spells a key that has a value already, by line #",
            &[u64::from(before)],
        ),
        Why::SecondFrame(before) => line.say_with(
            b"is the section's second line for this frame, after line #",
            &[u64::from(before)],
        ),
        Why::SecondItem(before) => line.say_with(
            b"spells a key that has such an item already, by word #: a key has at most one if, one get, and one put or del",
            &[u64::from(before)],
        ),
        Why::Reported => line.say(b"is the 17th get: a tx tells at most 16 keys"),
        Why::Keys => line.say(b"spells the 1025th key: a tx names at most 1024"),
        _ => {}
    }
}

/// What may stand there is reported behind these words.
fn say_ranged(line: &mut Wording, words: &[u8], refusal: &Refusal<'_>) {
    line.say(words);
    say_range(line, refusal);
}

fn say_range(line: &mut Wording, refusal: &Refusal<'_>) {
    line.say(name_of(refusal.operand));
    if refusal.operand != Operand::Size {
        let (least, most) = refusal.operand.range(refusal.size, refusal.version);
        line.say_with(b", # to #", &[least, most]);
    }
}

fn most(refusal: &Refusal<'_>) -> u64 {
    let (_, most) = refusal.operand.range(refusal.size, refusal.version);
    most
}

fn name_of(operand: Operand) -> &'static [u8] {
    match operand {
        Operand::Size => b"how many replicas there are, 3, 5 or 7",
        Operand::Generation => b"a generation",
        Operand::Stamp => b"a stamp",
        Operand::Replica | Operand::Proposer | Operand::Receiver => b"a replica",
        Operand::Spared => b"the spared replica",
        Operand::Client => b"a client",
        Operand::Leader => b"the replica before its dot",
        Operand::Number => b"the number behind its dot",
        Operand::Message => b"a message",
        Operand::Place => b"the place of a frame",
        Operand::Key | Operand::OtherKey => b"a key",
        Operand::Value | Operand::MaybeValue => b"a value",
        Operand::Body => b"a body",
        Operand::Item => b"an item, if K E, get K, put K V or del K",
        _ => b"",
    }
}

/// Appends what may stand there, where no word does.
fn say_lacking(line: &mut Wording, refusal: &Refusal<'_>) {
    match refusal.operand {
        Operand::Command => {
            line.say(b"a command, ");
            say_words(line, &COMMANDS, refusal);
        }
        Operand::Propose => {
            line.say(b"propose: ");
            say_line(line, refusal);
        }
        Operand::Instance => line.say_with(
            b"an instance R.I, of a replica R and a number I, 1 to #",
            &[most(refusal)],
        ),
        Operand::Key
        | Operand::OtherKey
        | Operand::Value
        | Operand::MaybeValue
        | Operand::Body
        | Operand::Item => line.say(name_of(refusal.operand)),
        _ => say_range(line, refusal),
    }
}

/// Appends the line that a command ends.
fn say_line(line: &mut Wording, refusal: &Refusal<'_>) {
    line.say(b"the line is ");
    line.say(refusal.lead);
    line.say(b"COMMAND");
}

/// Appends the first words that lines, or commands, may have behind a head of this version.
fn say_words(line: &mut Wording, forms: &[Form], refusal: &Refusal<'_>) {
    let mut last: &[u8] = b"";
    let mut between: &[u8] = b"";
    for form in forms {
        if refusal.may_have(form.standing) {
            line.say(between);
            if !last.is_empty() {
                between = b", ";
            }
            line.say(last);
            last = form.word;
        }
    }
    line.say(b" or ");
    line.say(last);
}

fn say_more(line: &mut Wording, refusal: &Refusal<'_>) {
    line.say(b"is one word more than the line has: ");
    line.say(refusal.lead);
    line.say(refusal.form);
    if refusal.word.starts_with(b"#") {
        line.say(b"; comments stand on lines of their own");
    }
}

/// Appends which words may stand there.
fn say_unlike(line: &mut Wording, refusal: &Refusal<'_>) {
    match refusal.operand {
        Operand::Command => {
            line.say(b"is no command: ");
            say_words(line, &COMMANDS, refusal);
        }
        Operand::Propose => {
            line.say(b"isn't propose: ");
            say_line(line, refusal);
        }
        Operand::Item => {
            line.say(b"begins no item of tx: if K E, get K, put K V or del K");
            if refusal.word.starts_with(b"#") {
                line.say(b"; comments stand on lines of their own");
            }
        }
        _ if refusal.size.is_some() => {
            line.say(b"is unknown; a line begins with ");
            say_words(line, &LINES, refusal);
        }
        _ if refusal.word.starts_with(ORDER_MARK) => {
            line.say(b"begins with a byte order mark: scripts have none");
        }
        _ => line.say(b"isn't replicas: the first line is replicas 3, replicas 5 or replicas 7"),
    }
}

/// Where such a line stands.
fn place_of(standing: Standing) -> &'static [u8] {
    match standing {
        Standing::First => b"stands once, before all other lines",
        Standing::Second => b"stands once, as the first line behind replicas",
        _ => b"stands behind generation, before all lines of other kinds",
    }
}

/// Appends that the word is one of version 3.
fn say_late(line: &mut Wording, refusal: &Refusal<'_>) {
    if refusal.standing == Standing::Opening {
        line.say(
            b"is a line of version 3: behind replicas stands generation G, and then such lines",
        );
        return;
    }
    if refusal.operand == Operand::Command {
        line.say(b"is a command of version 3: here may stand ");
        say_words(line, &COMMANDS, refusal);
        line.say(b"; ");
    } else {
        line.say(b"is a line of version 3: ");
    }
    line.say(b"behind replicas, generation G makes the script one of version 3");
}

/// Appends that scripts for the other subcommand have such lines.
fn say_other(line: &mut Wording, refusal: &Refusal<'_>) {
    line.say(b"is a line of ");
    line.say(if refusal.standing == Standing::Run {
        b"run".as_slice()
    } else {
        b"replay".as_slice()
    });
    line.say(b" alone: here may stand ");
    say_words(line, &LINES, refusal);
}

fn same(refusal: &Refusal<'_>) -> &'static [u8] {
    match refusal.operand {
        Operand::Proposer => b"is the spared replica too: no replica spares itself",
        Operand::Receiver => b"is the sender too: no replica puts a frame for itself",
        _ if refusal.form.starts_with(b"swap") => {
            b"spells the bytes of the first key: a swap has two different keys"
        }
        _ => b"spells the bytes of the first key: such a command has two different keys",
    }
}

fn byte_at(word: &[u8], place: usize) -> u8
    ensures { result ≡ slice_index word.now place }
{
    match word.get(place) {
        Some(byte) => *byte,
        None => 0,
    }
}

fn say_byte(line: &mut Wording, byte: u8) {
    line.say(b"has the byte ");
    say_digits(line, byte);
    line.say(b": bytes outside 21 to 7e (hexadecimal) are written %");
    say_digits(line, byte);
}

fn say_escape(line: &mut Wording, word: &[u8], place: usize) {
    let rest = word.get(place..).unwrap_or(&[]);
    line.say(b"has ");
    show(line, &rest[..rest.len().min(3)]);
    line.say(b", which is no escape: % and two hexadecimal digits; %- stands alone, for no bytes");
}
