//! Names that stand for a text.

ghost use Rattle.std.specs.Prelude.{◌≡◌, IfOk};
ghost use Rattle.lab_port_names.specs.Names.{is_known, meaning_of, has_name, are_tangled};

use lab_port_rules::Meaning;
use lab_port_tokens::{Piece, pieces};
use om_seq::AllocResult;
use std::alloc::Global;

/// Whether it is one of these names.
pub(crate) fn is_known(name: &[u8], names: &[Meaning]) -> bool
    ensures { result ≡ is_known name.now names.now }
{
    names.iter().any(|next| next.name.as_slice() == name)
}

/// What stands for a word: the text of the first of these names that it is, or itself.
pub fn meaning_of<'a>(word: &'a [u8], names: &'a [Meaning]) -> &'a [u8]
    ensures { result.now ≡ meaning_of word.now names.now }
{
    for next in names {
        if next.name.as_slice() == word {
            return next.text.as_slice();
        }
    }
    word
}

/// Whether one of these names stands in the text of one before it. The only error is out of memory.
pub(crate) fn are_tangled(alloc: Global, names: &[Meaning]) -> AllocResult<bool>
    ensures { IfOk result (λ tangled. tangled ≡ are_tangled names.now) }
{
    for (i, named) in names.iter().enumerate() {
        let text = pieces(alloc, named.text.as_slice())?;
        if has_name(&text, &names[i + 1..]) {
            return Ok(true);
        }
    }
    Ok(false)
}

// Whether one of these names is a token of a text.
fn has_name(text: &[Piece], names: &[Meaning]) -> bool
    ensures { result ≡ has_name text.now names.now }
{
    text.iter()
        .any(|piece| is_known(piece.text.as_slice(), names))
}
