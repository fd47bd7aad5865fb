//! Members of objects, and objects.

ghost use Rattle.std.specs.Prelude.{◌≡◌, ◌++◌, true, OnOk, codes, map};
ghost use Rattle.ep_json.specs.Strings.{string_text};
ghost use Rattle.ep_json.specs.Values.{array, joined, object};
ghost use Rattle.ep_report.specs.Parts.{part_text};
ghost use Rattle.ep_report_json.specs.Members.{deps_value, first_word, instance_value, member_of, value_of};

use crate::member::Member;
use ep_base::{Deps, InstanceId};
use ep_json::{push_comma, push_name, push_string};
use ep_report::{Part, push_instance, push_number, push_part};
use std::alloc::AllocError;

/// Appends an object of these members.
pub(crate) fn push_object(text: &mut Vec<u8>, members: &[Member<'_>]) -> Result<(), AllocError>
    ensures { OnOk result (text.new.items ≡ text.old.items ++ object (map member_of members.now)) }
{
    text.push(b'{')?;
    push_members(text, true, members)?;
    text.push(b'}')?;
    Ok(())
}

/// Appends these members of an object, of which the first one may be the object's first.
pub(crate) fn push_members(
    text: &mut Vec<u8>,
    is_first: bool,
    members: &[Member<'_>],
) -> Result<(), AllocError>
    ensures { OnOk result (text.new.items ≡ text.old.items ++ joined is_first (map member_of members.now)) }
{
    let mut at_start = is_first;
    for member in members {
        push_comma(text, at_start)?;
        push_member(text, member)?;
        at_start = false;
    }
    Ok(())
}

fn push_member(text: &mut Vec<u8>, member: &Member<'_>) -> Result<(), AllocError>
    ensures { OnOk result (text.new.items ≡ text.old.items ++ member_of member.now) }
{
    push_name(text, member.name)?;
    push_value(text, &member.value)
}

fn push_value(text: &mut Vec<u8>, value: &Part<'_>) -> Result<(), AllocError>
    ensures { OnOk result (text.new.items ≡ text.old.items ++ value_of value.now) }
{
    match value {
        Part::Text(bytes) => push_string(text, bytes),
        Part::Number(number) => push_number(text, *number),
        Part::Instance(instance) => push_instance_value(text, *instance),
        Part::Deps(deps) => push_deps_value(text, deps),
        Part::Word(_) | Part::Command(_) | Part::Reply(_) | Part::Answer(_) => push_words(
            text, value,
        ),
    }
}

// Appends a part of a line as a string.
fn push_words(text: &mut Vec<u8>, part: &Part<'_>) -> Result<(), AllocError>
    ensures { OnOk result (text.new.items ≡ text.old.items ++ string_text (part_text part.now)) }
{
    let mut words = Vec::new(*text.allocator());
    push_part(&mut words, part)?;
    push_string(text, words.as_slice())
}

fn push_instance_value(text: &mut Vec<u8>, instance: InstanceId) -> Result<(), AllocError>
    ensures { OnOk result (text.new.items ≡ text.old.items ++ instance_value instance) }
{
    let mut words = Vec::new(*text.allocator());
    push_instance(&mut words, instance)?;
    push_string(text, words.as_slice())
}

fn push_deps_value(text: &mut Vec<u8>, deps: &Deps) -> Result<(), AllocError>
    ensures { OnOk result (text.new.items ≡ text.old.items ++ deps_value deps.now) }
{
    text.push(b'[')?;
    push_instances(text, deps.as_slice())?;
    text.push(b']')?;
    Ok(())
}

fn push_instances(text: &mut Vec<u8>, instances: &[InstanceId]) -> Result<(), AllocError>
    ensures { OnOk result (text.new.items ≡ text.old.items ++ joined true (map instance_value instances.now)) }
{
    let mut at_start = true;
    for instance in instances {
        push_comma(text, at_start)?;
        push_instance_value(text, *instance)?;
        at_start = false;
    }
    Ok(())
}

/// The bytes up to the first blank.
pub(crate) fn first_word(bytes: &[u8]) -> &[u8]
    ensures { result.now ≡ first_word bytes.now }
{
    let mut len = 0;
    while len < bytes.len() && bytes[len] != b' ' {
        len += 1;
    }
    &bytes[..len]
}
