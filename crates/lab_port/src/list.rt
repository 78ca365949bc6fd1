//! The list of changes, warnings and tokens without a form, in lines.

ghost use Rattle.std.specs.Prelude.{◌≡◌, ◌++◌, ◌<◌, ◌^◌, map, Some, IfOk, OnOk};
ghost use Rattle.lab_port.specs.Listings.{place_words, becomes, change_line, kind_words, rule_words, warning_by, change_lines, column_words, refusal_head, help_line, refusal_lines, changes_part, refusals_part, change_list, refusal_list};
ghost use Rattle.lab_port.specs.Texts.{flat_byte};
ghost use Rattle.lab_port.specs.Places.{IsSeen};
ghost use Rattle.lab_port.specs.Warnings.{warning_of};

use crate::place::{Seen, at_first, place_in, push_excerpt, push_number, seen_at};
use crate::ported::{Change, Ported, Refusal};
use crate::text::flat_byte;
use crate::words::{Kind, kind_name, lack_help, lack_words, name_of, warning_of, warning_words};
use lab_port_rules::Rule;
use lab_port_words::Lack;
use om_seq::AllocResult;
use std::alloc::Global;

/// A line for each change and for each of its warnings, stage by stage. The only error is out of memory.
pub fn change_list(
    alloc: Global,
    file: &str,
    source: &[u8],
    ported: &Ported,
) -> AllocResult<Vec<u8>>
    ensures { IfOk result (λ list. list.items ≡ change_list file.now source.now ported.now) }
{
    let mut out = Vec::new(alloc);
    push_changes(&mut out, file, source, &ported.conditions.changes)?;
    push_changes(
        &mut out,
        file,
        &ported.conditions.text,
        &ported.calls.changes,
    )?;
    push_changes(&mut out, file, &ported.calls.text, &ported.names.changes)?;
    push_changes(
        &mut out,
        file,
        &ported.names.text,
        &ported.arguments.changes,
    )?;
    push_changes(
        &mut out,
        file,
        &ported.arguments.text,
        &ported.arrays.changes,
    )?;
    push_changes(&mut out, file, &ported.arrays.text, &ported.lists.changes)?;
    push_changes(&mut out, file, &ported.lists.text, &ported.sizes.changes)?;
    push_changes(&mut out, file, &ported.sizes.text, &ported.texts.changes)?;
    push_changes(&mut out, file, &ported.texts.text, &ported.again.changes)?;
    push_changes(&mut out, file, &ported.again.text, &ported.rules.changes)?;
    Ok(out)
}

/// What `check` would say of each token without a form. The only error is out of memory.
pub fn refusal_list(alloc: Global, file: &str, ported: &Ported) -> AllocResult<Vec<u8>>
    ensures { IfOk result (λ list. list.items ≡ refusal_list file.now ported.now) }
{
    let mut out = Vec::new(alloc);
    push_refusals(&mut out, file, &ported.again.text, &ported.refusals)?;
    Ok(out)
}

// Appends the lines of all changes.
fn push_changes(out: &mut Vec<u8>, file: &str, source: &[u8], changes: &[Change]) -> AllocResult<()>
    ensures { OnOk result
        (out.new.items ≡ out.old.items ++ changes_part file.now source.now changes.now) }
{
    let mut seen = at_first();
    for change in changes {
        seen = seen_at(seen, source, place_in(source, change.at));
        push_change(out, file, seen.line, change)?;
    }
    Ok(())
}

// Appends the lines of all tokens without a form.
fn push_refusals(
    out: &mut Vec<u8>,
    file: &str,
    source: &[u8],
    refusals: &[Refusal],
) -> AllocResult<()>
    ensures { OnOk result
        (out.new.items ≡ out.old.items ++ refusals_part file.now source.now refusals.now) }
{
    let mut seen = at_first();
    for refusal in refusals {
        seen = seen_at(seen, source, place_in(source, refusal.at));
        push_refusal(out, file, source, seen, refusal.lack)?;
    }
    Ok(())
}

// Appends the line of a change, and that of its warning.
fn push_change(out: &mut Vec<u8>, file: &str, line: usize, change: &Change) -> AllocResult<()>
    ensures { OnOk result (out.new.items ≡ out.old.items ++ change_lines file.now line change.now) }
{
    push_change_line(out, file, line, change)?;
    push_warning(out, file, line, change.rule)
}

fn push_change_line(out: &mut Vec<u8>, file: &str, line: usize, change: &Change) -> AllocResult<()>
    ensures { OnOk result (out.new.items ≡ out.old.items ++ change_line file.now line change.now) }
{
    push_place(out, file, line)?;
    out.extend_from_slice(b"changed: ")?;
    out.extend_from_slice(name_of(change.rule))?;
    out.extend_from_slice(b": ")?;
    push_flat(out, change.old.as_slice())?;
    push_becomes(out, change.new.as_slice())
}

// Appends what stands in place of the old bytes.
fn push_becomes(out: &mut Vec<u8>, new: &[u8]) -> AllocResult<()>
    ensures { OnOk result (out.new.items ≡ out.old.items ++ becomes new.now) }
{
    if new.is_empty() {
        return out.extend_from_slice(b" is left out\n");
    }
    out.extend_from_slice(b" is ")?;
    out.extend_from_slice(new)?;
    out.extend_from_slice(b"\n")
}

// Appends the line of the warning of a rule, if it has one.
fn push_warning(out: &mut Vec<u8>, file: &str, line: usize, rule: Rule) -> AllocResult<()>
    ensures { OnOk result
        (out.new.items ≡ out.old.items ++ warning_by (warning_of rule) file.now line rule) }
{
    match warning_of(rule) {
        Some(kind) => push_kind(out, file, line, Warning { kind, rule }),
        None => Ok(()),
    }
}

// A rule, and how it may change what a program does.
#[derive(Clone, Copy)]
struct Warning {
    kind: Kind,
    rule: Rule,
}

fn push_kind(out: &mut Vec<u8>, file: &str, line: usize, warning: Warning) -> AllocResult<()>
    ensures { OnOk result (out.new.items
        ≡ out.old.items ++ warning_by (Some warning.kind) file.now line warning.rule) }
{
    push_place(out, file, line)?;
    push_kind_words(out, warning.kind)?;
    push_rule_words(out, warning.rule)
}

// Appends how a change may change what a program does.
fn push_kind_words(out: &mut Vec<u8>, kind: Kind) -> AllocResult<()>
    ensures { OnOk result (out.new.items ≡ out.old.items ++ kind_words kind) }
{
    out.extend_from_slice(b"warning: ")?;
    out.extend_from_slice(kind_name(kind))?;
    out.extend_from_slice(b": ")
}

// Appends the name of a rule, and what its warning says.
fn push_rule_words(out: &mut Vec<u8>, rule: Rule) -> AllocResult<()>
    ensures { OnOk result (out.new.items ≡ out.old.items ++ rule_words rule) }
{
    out.extend_from_slice(name_of(rule))?;
    out.extend_from_slice(b": ")?;
    out.extend_from_slice(warning_words(rule))?;
    out.extend_from_slice(b"\n")
}

// Appends why a token has no form, where, and what to write.
fn push_refusal(
    out: &mut Vec<u8>,
    file: &str,
    source: &[u8],
    seen: Seen,
    lack: Lack,
) -> AllocResult<()>
    requires { IsSeen source.now seen }
    ensures { OnOk result
        (out.new.items ≡ out.old.items ++ refusal_lines file.now source.now seen.at lack) }
{
    push_refusal_head(out, file, source, seen, lack)?;
    push_excerpt(out, source, seen)?;
    push_help(out, lack)
}

// Appends why a token has no form, and where.
fn push_refusal_head(
    out: &mut Vec<u8>,
    file: &str,
    source: &[u8],
    seen: Seen,
    lack: Lack,
) -> AllocResult<()>
    requires { IsSeen source.now seen }
    ensures { OnOk result
        (out.new.items ≡ out.old.items ++ refusal_head file.now source.now seen.at lack) }
{
    out.extend_from_slice(file.as_bytes())?;
    push_column(out, seen)?;
    out.extend_from_slice(b": error: port: ")?;
    out.extend_from_slice(lack_words(lack))?;
    out.extend_from_slice(b"\n")
}

// Appends what to write for a token without a form.
fn push_help(out: &mut Vec<u8>, lack: Lack) -> AllocResult<()>
    ensures { OnOk result (out.new.items ≡ out.old.items ++ help_line lack) }
{
    out.extend_from_slice(b"help: ")?;
    out.extend_from_slice(lack_help(lack))?;
    out.extend_from_slice(b"\n")
}

// Appends the line and the column of a place.
fn push_column(out: &mut Vec<u8>, seen: Seen) -> AllocResult<()>
    requires { seen.front < 2 ^ 63 }
    ensures { OnOk result (out.new.items ≡ out.old.items ++ column_words seen.line seen.front) }
{
    out.extend_from_slice(b":")?;
    push_number(out, seen.line)?;
    out.extend_from_slice(b":")?;
    push_number(out, seen.front + 1)
}

// Appends `FILE:LINE: `.
fn push_place(out: &mut Vec<u8>, file: &str, line: usize) -> AllocResult<()>
    ensures { OnOk result (out.new.items ≡ out.old.items ++ place_words file.now line) }
{
    out.extend_from_slice(file.as_bytes())?;
    out.extend_from_slice(b":")?;
    push_number(out, line)?;
    out.extend_from_slice(b": ")
}

// Appends bytes, with a space for each line end.
fn push_flat(out: &mut Vec<u8>, bytes: &[u8]) -> AllocResult<()>
    ensures { OnOk result (out.new.items ≡ out.old.items ++ map flat_byte bytes.now) }
{
    for byte in bytes {
        out.push(flat_byte(byte))?;
    }
    Ok(())
}
