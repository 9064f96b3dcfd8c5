//! Explanations: what is known of the place of a fault, as lines for people and as members of an object for programs.
ghost use Rattle.std.specs.Fmt.{WritesOnOk};
ghost use Rattle.std.specs.Prelude.{◌≡◌, flat_map, option_map, string_bytes};
ghost use Rattle.wasm_check_lines.specs.Explanations.{array_text, explanation_lines, explanation_member, member_text, next_item, note_line, value_text};

use crate::json::Quoted;
use crate::shown::Shown;
use std::fmt;

/// What a member has.
#[derive(Debug, Drop)]
pub enum Value {
    /// A number.
    Number(u64),
    /// Yes or no.
    Flag(bool),
    /// A text.
    Text(String),
    /// Texts, in order.
    Texts(Vec<String>),
}

/// A member of an object.
#[derive(Debug, Drop)]
pub struct Member {
    /// Its name.
    pub name: &'static str,
    /// What it has.
    pub value: Value,
}

/// What is known of the place of a fault.
#[derive(Debug, Drop)]
pub struct Explanation {
    /// The lines for people.
    pub lines: Vec<String>,
    /// The members for programs.
    pub members: Vec<Member>,
    /// The chapter of the standard that has the rule: it is the last line, and the first member.
    pub chapter: &'static str,
}

// Writes texts as lines that two spaces begin.
fn write_lines<W: fmt::Write>(f: &mut fmt::Formatter<W>, lines: &[String]) -> fmt::Result
    ensures { WritesOnOk W.write_str_gives f.old result (flat_map (λ n. note_line (string_bytes n)) lines.now) f.new }
{
    for line in lines {
        let line = Shown(line.as_str());
        write!(f, "  {line}\n")?;
    }
    Ok(())
}

/// Writes an explanation as lines, if there is one.
pub(crate) fn write_explanation<W: fmt::Write>(
    f: &mut fmt::Formatter<W>,
    explanation: Option<&Explanation>,
) -> fmt::Result
    ensures { WritesOnOk W.write_str_gives f.old result (explanation_lines (option_map (λ x. x.now) explanation.entry)) f.new }
{
    let Some(explanation) = explanation else {
        return Ok(());
    };
    write_lines(f, explanation.lines.as_slice())?;
    let chapter = Shown(explanation.chapter);
    write!(f, "  rules: {chapter}\n")
}

// Writes the texts that follow the first in an array.
fn write_items<W: fmt::Write>(f: &mut fmt::Formatter<W>, texts: &[String]) -> fmt::Result
    ensures { WritesOnOk W.write_str_gives f.old result (flat_map (λ n. next_item (string_bytes n)) texts.now) f.new }
{
    for text in texts {
        let text = Quoted(text.as_str());
        write!(f, ",\"{text}\"")?;
    }
    Ok(())
}

// Writes texts as an array.
fn write_array<W: fmt::Write>(f: &mut fmt::Formatter<W>, texts: &[String]) -> fmt::Result
    ensures { WritesOnOk W.write_str_gives f.old result (array_text texts.now) f.new }
{
    let Some((first, others)) = texts.split_first() else {
        return f.write_str("[]");
    };
    let first = Quoted(first.as_str());
    write!(f, "[\"{first}\"")?;
    write_items(f, others)?;
    f.write_str("]")
}

// Writes what a member has.
fn write_value<W: fmt::Write>(f: &mut fmt::Formatter<W>, value: &Value) -> fmt::Result
    ensures { WritesOnOk W.write_str_gives f.old result (value_text value.now) f.new }
{
    match value {
        Value::Number(number) => write!(f, "{number}"),
        Value::Flag(flag) => f.write_str(if *flag { "true" } else { "false" }),
        Value::Text(text) => {
            let text = Quoted(text.as_str());
            write!(f, "\"{text}\"")
        }
        Value::Texts(texts) => write_array(f, texts.as_slice()),
    }
}

// Writes a member that others come before.
fn write_member<W: fmt::Write>(f: &mut fmt::Formatter<W>, member: &Member) -> fmt::Result
    ensures { WritesOnOk W.write_str_gives f.old result (member_text member.now) f.new }
{
    let name = Quoted(member.name);
    write!(f, ",\"{name}\":")?;
    write_value(f, &member.value)
}

// Writes members that others come before.
fn write_members<W: fmt::Write>(f: &mut fmt::Formatter<W>, members: &[Member]) -> fmt::Result
    ensures { WritesOnOk W.write_str_gives f.old result (flat_map member_text members.now) f.new }
{
    for member in members {
        write_member(f, member)?;
    }
    Ok(())
}

/// Writes an explanation as a member that others come before, if there is one.
pub(crate) fn write_explanation_member<W: fmt::Write>(
    f: &mut fmt::Formatter<W>,
    explanation: Option<&Explanation>,
) -> fmt::Result
    ensures { WritesOnOk W.write_str_gives f.old result (explanation_member (option_map (λ x. x.now) explanation.entry)) f.new }
{
    let Some(explanation) = explanation else {
        return Ok(());
    };
    let chapter = Quoted(explanation.chapter);
    write!(f, ",\"explanation\":{{\"rules\":\"{chapter}\"")?;
    write_members(f, explanation.members.as_slice())?;
    f.write_str("}")
}
