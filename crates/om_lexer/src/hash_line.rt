//! The beginnings of `#` lines (C17 6.10).

ghost use Rattle.std.specs.Prelude.{◌≡◌, ◌≤◌, ◌<◌, ◌+◌, ◌↔◌, ℕ, length, slice_index, codes, IfSome, IfNone, IfOk, IfErr, IsTrue};
ghost use Rattle.om_lexer.specs.HashLines.{IsHashWord, HasText, IsHeader, IsLastHeader, HasNoLastHeader, IsReadHashLine, IsReadPragma, IsHashLineRefusal};
ghost use Rattle.om_lexer.specs.Macros.{MacroList};
ghost use Rattle.om_lexer.specs.Sources.{source_limit};

use crate::character::is_same;
use crate::define::define_at;
use crate::fault::{SourceResult, bad_hash_line};
use crate::macros::Macros;
use crate::piece::HashLine;
use crate::white_space::{ends_line, gap_end};
use crate::word::word_end;
use std::alloc::Global;

/// The `#` line that begins at a `#`, as far as it is one piece, and the byte behind that; S4 or S11 where the line is wrong.
pub(crate) fn hash_line_at(
    alloc: Global,
    source: &[u8],
    at: usize,
    macros: &Macros,
) -> SourceResult<(HashLine, usize)>
    requires hash { slice_index source.now at ≡ 35 }
    requires inside { at < length source.now }
    requires below { at < source_limit }
    ensures line { IfOk result (IsReadHashLine source.now macros.now at) }
    ensures fault { IfErr result (IsHashLineRefusal source.now macros.now at) }
{
    let word = gap_end(source, at + 1);
    let end = word_end(source, word);
    let text = &source[word..end];
    if is_same(text, b"include") {
        return include_at(source, at, end);
    }
    if is_same(text, b"define") {
        return define_at(alloc, source, at, end, macros);
    }
    if is_same(text, b"pragma") {
        return Ok(pragma_at(source, word, end));
    }
    Err(bad_hash_line(at))
}

// An include, whose word ends at `end`; S4 where it names no header, or has more behind it.
fn include_at(source: &[u8], at: usize, end: usize) -> SourceResult<(HashLine, usize)>
    requires below { at < source_limit }
    requires inside { end ≤ length source.now }
    requires begins { (word : ℕ) × IsHashWord source.now at word end (codes "include") }
    ensures line { (macros : MacroList) → IfOk result (IsReadHashLine source.now macros at) }
    ensures fault { (macros : MacroList) → IfErr result (IsHashLineRefusal source.now macros at) }
{
    let header = gap_end(source, end);
    match include_end(source, header) {
        Some(to) => Ok((HashLine::Include, to)),
        None => Err(bad_hash_line(at)),
    }
}

// The byte behind the header that stands there, where nothing but white space follows on its line.
fn include_end(source: &[u8], from: usize) -> Option<usize>
    requires { from ≤ length source.now }
    ensures found { IfSome result (IsLastHeader source.now from) }
    ensures none { IfNone result (HasNoLastHeader source.now from) }
{
    let to = header_end(source, from)?;
    if ends_line(source, to) {
        Some(to)
    } else {
        None
    }
}

// The byte behind the header that stands there.
fn header_end(source: &[u8], from: usize) -> Option<usize>
    requires { from ≤ length source.now }
    ensures found { IfSome result (λ to. IsHeader source.now from to) }
    ensures inside { IfSome result (λ to. to ≤ length source.now) }
    ensures none { IfNone result ((to : ℕ) → IsHeader source.now from to → ⊥) }
{
    if has_text(source, from, b"<stdio.h>") {
        return Some(from + 9);
    }
    if has_text(source, from, b"<omp.h>") {
        return Some(from + 7);
    }
    None
}

// Whether these bytes stand there.
fn has_text(source: &[u8], from: usize, text: &[u8]) -> bool
    requires { from ≤ length source.now }
    ensures { IsTrue result ↔ HasText source.now from text.now (from + length text.now) }
{
    source[from..].starts_with(text)
}

// A pragma, whose word stands from `word` up to `end`: `omp` behind it makes it a directive.
fn pragma_at(source: &[u8], word: usize, end: usize) -> (HashLine, usize)
    requires { end ≤ length source.now }
    ensures { IsReadPragma source.now word end result }
{
    let omp = gap_end(source, end);
    let omp_end = word_end(source, omp);
    if is_same(&source[omp..omp_end], b"omp") {
        (HashLine::Directive(word, omp), omp_end)
    } else {
        (HashLine::Ignored, end)
    }
}
