//! Cases and checks: a source brought over by the port: the text, a line of `====`, and the list.
#![tactic(auto)]

use lab_port::{change_list, port, refusal_list};
use om_seq::AllocResult;
use std::alloc::Global;

/// What the port writes of a source: the text, a line of `====`, and the list of changes and refusals. Its only error
/// is out of memory.
pub fn told(alloc: Global, source: &[u8]) -> AllocResult<Vec<u8>> {
    let ported = port(alloc, source)?;
    let changes = change_list(alloc, "my.c", source, &ported)?;
    let refusals = refusal_list(alloc, "my.c", &ported)?;
    let mut text = Vec::new(alloc);
    text.extend_from_slice(&ported.rules.text)?;
    text.extend_from_slice(b"====\n")?;
    text.extend_from_slice(&changes)?;
    text.extend_from_slice(&refusals)?;
    Ok(text)
}
