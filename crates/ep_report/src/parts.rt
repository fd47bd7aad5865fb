//! The parts of which lines are made.

ghost use Rattle.std.specs.Prelude.{◌≡◌, ◌<◌, ◌≤◌, ◌+◌, ◌++◌, OnOk, codes, decimal};
ghost use Rattle.std.specs.Option.{option_copied};
ghost use Rattle.ep_base.specs.Commands.{Put, Swap, Cas, Opaque};
ghost use Rattle.ep_base.specs.CommandParts.{items_of};
ghost use Rattle.ep_base.specs.Views.{asked, seen, touched};
ghost use Rattle.ep_report.specs.Parts.{instance_text, deps_text, more_deps, option_text, request_text, second_key_text, guard_text, reported_text, write_text, item_text, items_text, value_text, values_text, command_text, reply_text, answer_text, part_text, parts_text};
ghost use Rattle.ep_script.specs.Word.{word_of};

use crate::part::Part;
use ep_base::{
    Answer, Command, CommandView, Deps, InstanceId, ItemView, Items, Reply, Touching, Value,
};
use ep_script::push_word;
use itoa::Buffer;
use std::alloc::AllocError;

/// Appends a number in decimal digits.
#[inline(always)]
pub fn push_number(text: &mut Vec<u8>, number: u64) -> Result<(), AllocError>
    ensures { OnOk result (text.new.items ≡ text.old.items ++ decimal number) }
{
    if number < 10 {
        text.push(b'0' + number as u8)?;
        return Ok(());
    }
    push_more_digits(text, number)
}

// Appends a number of more than one digit.
fn push_more_digits(text: &mut Vec<u8>, number: u64) -> Result<(), AllocError>
    requires { 10 ≤ number }
    ensures { OnOk result (text.new.items ≡ text.old.items ++ decimal number) }
{
    if number < 100 {
        return push_two(text, number);
    }
    if number < 1000 {
        return push_three(text, number);
    }
    let mut buffer = Buffer::new();
    text.extend_from_slice(buffer.format(number).as_bytes())
}

// The digit of a number below ten.
fn digit(number: u64) -> u8
    requires { number < 10 }
    ensures { result ≡ 48 + number }
{
    b'0' + number as u8
}

// Appends a number of two digits.
fn push_two(text: &mut Vec<u8>, number: u64) -> Result<(), AllocError>
    requires least { 10 ≤ number }
    requires most { number < 100 }
    ensures { OnOk result (text.new.items ≡ text.old.items ++ decimal number) }
{
    let tens = digit(number / 10);
    let ones = digit(number % 10);
    text.extend_from_slice(&[tens, ones])?;
    Ok(())
}

// Appends a number of three digits.
fn push_three(text: &mut Vec<u8>, number: u64) -> Result<(), AllocError>
    requires least { 100 ≤ number }
    requires most { number < 1000 }
    ensures { OnOk result (text.new.items ≡ text.old.items ++ decimal number) }
{
    let hundreds = digit(number / 10 / 10);
    let tens = digit(number / 10 % 10);
    let ones = digit(number % 10);
    text.extend_from_slice(&[hundreds, tens, ones])?;
    Ok(())
}

/// Appends an instance.
pub fn push_instance(text: &mut Vec<u8>, instance: InstanceId) -> Result<(), AllocError>
    ensures { OnOk result (text.new.items ≡ text.old.items ++ instance_text instance) }
{
    push_number(text, u64::from(instance.replica().index()))?;
    text.push(b'.')?;
    push_number(text, u64::from(instance.number()))
}

/// Appends a set of instances.
pub fn push_deps(text: &mut Vec<u8>, deps: &Deps) -> Result<(), AllocError>
    ensures { OnOk result (text.new.items ≡ text.old.items ++ deps_text deps.now) }
{
    let [first, rest @ ..] = deps.as_slice() else {
        text.push(b'-')?;
        return Ok(());
    };
    push_instance(text, *first)?;
    push_more_deps(text, rest)
}

fn push_more_deps(text: &mut Vec<u8>, deps: &[InstanceId]) -> Result<(), AllocError>
    ensures { OnOk result (text.new.items ≡ text.old.items ++ more_deps deps.now) }
{
    for instance in deps {
        text.push(b',')?;
        push_instance(text, *instance)?;
    }
    Ok(())
}

/// Appends a command.
pub fn push_command(text: &mut Vec<u8>, command: &Command) -> Result<(), AllocError>
    ensures { OnOk result (text.new.items ≡ text.old.items ++ command_text command.now) }
{
    match command.view() {
        CommandView::Noop => text.extend_from_slice(b"noop"),
        CommandView::Get(key) => push_spelled(text, b"get ", key),
        CommandView::Put(key, value) => push_put(text, key, value),
        CommandView::Del(key) => push_spelled(text, b"del ", key),
        CommandView::Swap(first, second) => push_swap(text, first, second),
        CommandView::Cas(key, expected, new) => push_cas(text, key, expected, new),
        CommandView::Seal(value) => push_spelled(text, b"seal ", value),
        CommandView::Opaque(own, body) => push_opaque(text, &own, body),
        CommandView::Tx(_) => push_tx(text, command),
    }
}

fn push_tx(text: &mut Vec<u8>, command: &Command) -> Result<(), AllocError>
    ensures { OnOk result (text.new.items ≡ text.old.items ++ (codes "tx" ++ items_text (items_of command.now))) }
{
    text.extend_from_slice(b"tx")?;
    push_items(text, command.items())
}

fn push_items(text: &mut Vec<u8>, items: Items<'_>) -> Result<(), AllocError>
    ensures { OnOk result (text.new.items ≡ text.old.items ++ items_text items.entry) }
{
    let mut items = items;
    while let Some(item) = items.next() {
        push_item(text, &item)?;
    }
    Ok(())
}

fn push_item(text: &mut Vec<u8>, item: &ItemView<'_>) -> Result<(), AllocError>
    ensures { OnOk result (text.new.items ≡ text.old.items ++ item_text (seen item.now)) }
{
    push_guard(text, item.key, item.guard)?;
    push_reported(text, item.key, item.reported)?;
    push_write(text, item.key, item.write)
}

fn push_guard(
    text: &mut Vec<u8>,
    key: &[u8],
    guard: Option<Option<&[u8]>>,
) -> Result<(), AllocError>
    ensures { OnOk result (text.new.items ≡ text.old.items ++ guard_text key.now (asked guard.entry)) }
{
    match guard {
        None => Ok(()),
        Some(wanted) => {
            push_spelled(text, b" if ", key)?;
            text.push(b' ')?;
            push_option(text, wanted)
        }
    }
}

fn push_reported(text: &mut Vec<u8>, key: &[u8], reported: bool) -> Result<(), AllocError>
    ensures { OnOk result (text.new.items ≡ text.old.items ++ reported_text key.now reported) }
{
    if reported {
        push_spelled(text, b" get ", key)
    } else {
        Ok(())
    }
}

fn push_write(
    text: &mut Vec<u8>,
    key: &[u8],
    write: Option<Option<&[u8]>>,
) -> Result<(), AllocError>
    ensures { OnOk result (text.new.items ≡ text.old.items ++ write_text key.now (asked write.entry)) }
{
    match write {
        None => Ok(()),
        Some(None) => push_spelled(text, b" del ", key),
        Some(Some(value)) => {
            push_spelled(text, b" put ", key)?;
            push_spelled(text, b" ", value)
        }
    }
}

fn push_put(text: &mut Vec<u8>, key: &[u8], value: &[u8]) -> Result<(), AllocError>
    ensures { OnOk result (text.new.items ≡ text.old.items ++ command_text (Put key.now value.now)) }
{
    push_spelled(text, b"put ", key)?;
    push_spelled(text, b" ", value)
}

fn push_swap(text: &mut Vec<u8>, first: &[u8], second: &[u8]) -> Result<(), AllocError>
    ensures { OnOk result (text.new.items ≡ text.old.items ++ command_text (Swap (record { first = first.now; second = second.now }))) }
{
    push_spelled(text, b"swap ", first)?;
    push_spelled(text, b" ", second)
}

fn push_cas(
    text: &mut Vec<u8>,
    key: &[u8],
    expected: Option<&[u8]>,
    new: Option<&[u8]>,
) -> Result<(), AllocError>
    ensures { OnOk result (text.new.items ≡ text.old.items ++ command_text (Cas key.now (option_copied expected.entry) (option_copied new.entry))) }
{
    push_spelled(text, b"cas ", key)?;
    text.push(b' ')?;
    push_option(text, expected)?;
    text.push(b' ')?;
    push_option(text, new)
}

// Appends a value, or that there is none.
fn push_option(text: &mut Vec<u8>, value: Option<&[u8]>) -> Result<(), AllocError>
    ensures { OnOk result (text.new.items ≡ text.old.items ++ option_text (option_copied value.entry)) }
{
    match value {
        None => text.extend_from_slice(b"%!"),
        Some(value) => push_word(text, value),
    }
}

fn push_opaque(text: &mut Vec<u8>, own: &Touching<'_>, body: &[u8]) -> Result<(), AllocError>
    ensures { OnOk result (text.new.items ≡ text.old.items ++ command_text (Opaque (touched own.now) body.now)) }
{
    push_request(text, own.reads)?;
    push_word(text, own.first)?;
    push_second_key(text, own.second)?;
    push_spelled(text, b" ", body)
}

// Appends how a machine outside is asked.
fn push_request(text: &mut Vec<u8>, only_reads: bool) -> Result<(), AllocError>
    ensures { OnOk result (text.new.items ≡ text.old.items ++ request_text only_reads) }
{
    if only_reads {
        text.extend_from_slice(b"ask ")
    } else {
        text.extend_from_slice(b"act ")
    }
}

// Appends a blank and the second key, where there is one.
fn push_second_key(text: &mut Vec<u8>, key: Option<&[u8]>) -> Result<(), AllocError>
    ensures { OnOk result (text.new.items ≡ text.old.items ++ second_key_text (option_copied key.entry)) }
{
    match key {
        None => Ok(()),
        Some(key) => push_spelled(text, b" ", key),
    }
}

// Appends a text, and then a word of bytes.
fn push_spelled(text: &mut Vec<u8>, before: &[u8], bytes: &[u8]) -> Result<(), AllocError>
    ensures { OnOk result (text.new.items ≡ text.old.items ++ before.now ++ word_of bytes.now) }
{
    text.extend_from_slice(before)?;
    push_word(text, bytes)
}

/// Appends a reply.
pub fn push_reply(text: &mut Vec<u8>, reply: &Reply) -> Result<(), AllocError>
    ensures { OnOk result (text.new.items ≡ text.old.items ++ reply_text reply.now) }
{
    match reply {
        Reply::Absent => text.extend_from_slice(b"absent"),
        Reply::Present(value) => push_spelled(text, b"present ", value.as_slice()),
        Reply::Closed => text.extend_from_slice(b"closed"),
        Reply::Ordered => text.extend_from_slice(b"ordered"),
        Reply::Done(reported) => {
            text.extend_from_slice(b"done")?;
            push_values(text, reported.as_slice())
        }
        Reply::Undone(reported) => {
            text.extend_from_slice(b"undone")?;
            push_values(text, reported.as_slice())
        }
    }
}

// Appends what keys had that are reported.
fn push_values(text: &mut Vec<u8>, values: &[Option<Value>]) -> Result<(), AllocError>
    ensures { OnOk result (text.new.items ≡ text.old.items ++ values_text values.now) }
{
    for value in values {
        push_value(text, value)?;
    }
    Ok(())
}

fn push_value(text: &mut Vec<u8>, value: &Option<Value>) -> Result<(), AllocError>
    ensures { OnOk result (text.new.items ≡ text.old.items ++ value_text value.now) }
{
    match value {
        None => text.extend_from_slice(b" absent"),
        Some(value) => push_spelled(text, b" present ", value.as_slice()),
    }
}

/// Appends an answer.
pub fn push_answer(text: &mut Vec<u8>, answer: &Answer) -> Result<(), AllocError>
    ensures { OnOk result (text.new.items ≡ text.old.items ++ answer_text answer.now) }
{
    match answer {
        Answer::Lost => text.extend_from_slice(b"lost"),
        Answer::Replied(reply) => push_reply(text, reply),
    }
}

/// Appends the parts, one after another: one call in place of many, each of which could end the caller.
pub fn push_parts(text: &mut Vec<u8>, parts: &[Part<'_>]) -> Result<(), AllocError>
    ensures { OnOk result (text.new.items ≡ text.old.items ++ parts_text parts.now) }
{
    for part in parts {
        push_part(text, part)?;
    }
    Ok(())
}

/// Appends a part.
pub fn push_part(text: &mut Vec<u8>, part: &Part<'_>) -> Result<(), AllocError>
    ensures { OnOk result (text.new.items ≡ text.old.items ++ part_text part.now) }
{
    match part {
        Part::Text(bytes) => text.extend_from_slice(bytes),
        Part::Number(number) => push_number(text, *number),
        Part::Word(bytes) => push_word(text, bytes),
        Part::Instance(instance) => push_instance(text, *instance),
        Part::Deps(deps) => push_deps(text, deps),
        Part::Command(command) => push_command(text, command),
        Part::Reply(reply) => push_reply(text, reply),
        Part::Answer(answer) => push_answer(text, answer),
    }
}
