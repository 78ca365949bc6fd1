//! What a source becomes: its text, its changes, the tokens that have no form.

ghost use Rattle.std.specs.Prelude.{◌≡◌, ◌++◌, ◌∷◌, [], length, IfOk, OnOk};
ghost use Rattle.lab_port_tokens.specs.Pieces.{bytes_of};
ghost use Rattle.lab_port.specs.Texts.{flat_text};
ghost use Rattle.lab_port.specs.Written.{with_changes, line_feeds, Stand};
ghost use Rattle.lab_port.specs.Portings.{changes_at, changes_from, stage_changes, changes_in, refusals_at, refusals_from, refusals_of, IsStep, Ports};

use crate::stage::{Stage, marks_in};
use crate::text::{taken_of, text_by};
use crate::written::text_of;
use lab_port_rules::{Mark, Meaning, Rule};
use lab_port_tokens::{Piece, pieces};
use lab_port_words::Lack;
use om_seq::{AllocResult, Seq};
use std::alloc::Global;

/// A change of a text.
#[derive(Drop)]
pub struct Change {
    /// The byte of the text at which it begins.
    pub at: usize,
    /// The rule that it is made by.
    pub rule: Rule,
    /// The bytes that are replaced.
    pub old: Seq<u8>,
    /// What is written for them, with no line feed. White space follows up to the old end, with the old line feeds.
    pub new: Seq<u8>,
}

/// A token of a text that has no form.
#[derive(Clone, Copy)]
pub struct Refusal {
    /// Its first byte in the text.
    pub at: usize,
    /// Why it has no form.
    pub lack: Lack,
}

/// What a stage of the port makes of a text.
#[derive(Drop)]
pub struct Step {
    /// The changes, in order.
    pub changes: Vec<Change>,
    /// The text with these changes, with as many line feeds.
    pub text: Vec<u8>,
}

/// What a source becomes.
#[derive(Drop)]
pub struct Ported {
    /// The source, with its conditions decided.
    pub conditions: Step,
    /// That text, with its calls of macros written out.
    pub calls: Step,
    /// That text, with its names written out.
    pub names: Step,
    /// That text, without arguments of `main`.
    pub arguments: Step,
    /// That text, with other lengths and indices of its arrays.
    pub arrays: Step,
    /// That text, with stores for its lists.
    pub lists: Step,
    /// That text, with numbers of elements.
    pub sizes: Step,
    /// That text, with a statement for each text that one chooses from.
    pub texts: Step,
    /// The same once more, for a second text of a statement.
    pub again: Step,
    /// That text, with all other rules: the ported text.
    pub rules: Step,
    /// The tokens of the text of `again` that have no form, in order. They stand in the ported text as well.
    pub refusals: Vec<Refusal>,
}

/// What a source becomes by all rules, stage by stage. All that no change of a stage covers is kept byte for byte, and
/// each line feed stays. The only error is out of memory.
pub fn port(alloc: Global, source: &[u8]) -> AllocResult<Ported>
    ensures ports { IfOk result (Ports source.now) }
    ensures lines { IfOk result (λ ported. line_feeds ported.rules.text.items ≡ line_feeds source.now) }
{
    let conditions = step_of(alloc, Stage::Conditions, source)?;
    let calls = step_of(alloc, Stage::Calls, &conditions.text)?;
    let names = step_of(alloc, Stage::Names, &calls.text)?;
    let arguments = step_of(alloc, Stage::Arguments, &names.text)?;
    let arrays = step_of(alloc, Stage::Arrays, &arguments.text)?;
    let lists = step_of(alloc, Stage::Lists, &arrays.text)?;
    let sizes = step_of(alloc, Stage::Sizes, &lists.text)?;
    let texts = step_of(alloc, Stage::Texts, &sizes.text)?;
    let again = step_of(alloc, Stage::Texts, &texts.text)?;
    let rules = step_of(alloc, Stage::Rules, &again.text)?;
    let refusals = refusals_of(alloc, &again.text)?;
    Ok(Ported {
        conditions,
        calls,
        names,
        arguments,
        arrays,
        lists,
        sizes,
        texts,
        again,
        rules,
        refusals,
    })
}

// What a stage makes of a text.
fn step_of(alloc: Global, stage: Stage, text: &[u8]) -> AllocResult<Step>
    ensures { IfOk result (IsStep stage text.now) }
{
    let changes = changes_in(alloc, stage, text)?;
    let made = text_of(alloc, text, &changes)?;
    Ok(Step {
        changes,
        text: made,
    })
}

// The changes of a text in a stage.
fn changes_in(alloc: Global, stage: Stage, text: &[u8]) -> AllocResult<Vec<Change>>
    ensures changes { IfOk result (λ changes. changes.items ≡ changes_in stage text.now) }
    ensures apart { IfOk result (λ changes. Stand text.now 0 changes.items) }
{
    let pieces = pieces(alloc, text)?;
    let changes = stage_changes(alloc, stage, &pieces)?;
    Ok(changes)
}

// The changes of some pieces in a stage.
fn stage_changes(alloc: Global, stage: Stage, pieces: &[Piece]) -> AllocResult<Vec<Change>>
    ensures { IfOk result (λ changes. changes.items ≡ stage_changes stage pieces.now) }
{
    let found = marks_in(alloc, stage, pieces)?;
    changes_of(alloc, found.names.as_slice(), pieces, &found.marks)
}

// The tokens of a text that have no form.
fn refusals_of(alloc: Global, text: &[u8]) -> AllocResult<Vec<Refusal>>
    ensures { IfOk result (λ refusals. refusals.items ≡ refusals_of text.now) }
{
    let pieces = pieces(alloc, text)?;
    let found = marks_in(alloc, Stage::Rules, &pieces)?;
    lacking(alloc, &pieces, &found.marks)
}

// The changes of some pieces by their marks, where these names stand for texts.
fn changes_of(
    alloc: Global,
    names: &[Meaning],
    pieces: &[Piece],
    marks: &[Mark],
) -> AllocResult<Vec<Change>>
    requires { length marks.now ≡ length pieces.now }
    ensures { IfOk result (λ changes. changes.items ≡ changes_from names.now pieces.now marks.now) }
{
    let mut changes = Vec::new(alloc);
    for (i, piece) in pieces.iter().enumerate() {
        let mut more = changes_at(alloc, names, marks[i], piece, &pieces[i + 1..])?;
        changes.append(&mut more)?;
    }
    Ok(changes)
}

// The changes of a piece, before these pieces.
fn changes_at(
    alloc: Global,
    names: &[Meaning],
    mark: Mark,
    piece: &Piece,
    rest: &[Piece],
) -> AllocResult<Vec<Change>>
    ensures { IfOk result
        (λ changes. changes.items ≡ changes_at names.now mark piece.now rest.now) }
{
    let mut changes = Vec::new(alloc);
    let Mark::Changed(rule, taken) = mark else {
        return Ok(changes);
    };
    let change = change_of(alloc, names, rule, piece, taken_of(rest, taken))?;
    changes.push(change)?;
    Ok(changes)
}

// The change that a rule makes of a piece and those that it takes.
fn change_of(
    alloc: Global,
    names: &[Meaning],
    rule: Rule,
    piece: &Piece,
    taken: &[Piece],
) -> AllocResult<Change>
    ensures { IfOk result (λ change. change ≡ record {
      at = piece.now.at;
      rule = rule;
      old = bytes_of (piece.now ∷ taken.now);
      new = flat_text names.now rule piece.now.text taken.now;
    }) }
{
    let mut old = Vec::from_slice(alloc, piece.text.as_slice())?;
    push_bytes(&mut old, taken)?;
    let new = text_by(alloc, names, rule, piece.text.as_slice(), taken)?;
    Ok(Change {
        at: piece.at,
        rule,
        old: Seq::of(old),
        new: Seq::of(new),
    })
}

// Appends the bytes of some pieces.
fn push_bytes(out: &mut Vec<u8>, pieces: &[Piece]) -> AllocResult<()>
    ensures { OnOk result (out.new.items ≡ out.old.items ++ bytes_of pieces.now) }
{
    for piece in pieces {
        out.extend_from_slice(piece.text.as_slice())?;
    }
    Ok(())
}

// The tokens of some pieces that have no form.
fn lacking(alloc: Global, pieces: &[Piece], marks: &[Mark]) -> AllocResult<Vec<Refusal>>
    requires { length marks.now ≡ length pieces.now }
    ensures { IfOk result (λ refusals. refusals.items ≡ refusals_from pieces.now marks.now) }
{
    let mut refusals = Vec::new(alloc);
    for (i, piece) in pieces.iter().enumerate() {
        push_refusal(&mut refusals, marks[i], piece)?;
    }
    Ok(refusals)
}

// Appends a piece that has no form.
fn push_refusal(refusals: &mut Vec<Refusal>, mark: Mark, piece: &Piece) -> AllocResult<()>
    ensures { OnOk result
        (refusals.new.items ≡ refusals.old.items ++ refusals_at mark piece.now) }
{
    let Mark::Lacking(lack) = mark else {
        return Ok(());
    };
    refusals.push(Refusal { at: piece.at, lack })?;
    Ok(())
}
