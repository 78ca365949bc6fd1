//! Steps as commands.

ghost use Rattle.std.specs.Prelude.{◌≡◌, ◌++◌, IfOk, OnOk};
ghost use Rattle.om_shell_commands.specs.Lists.{joined};
ghost use Rattle.lab_text.specs.Commands.{command_line, script_text};

use om_seq::AllocResult;
use om_shell_commands::push_numbered;
use om_state::{Choice, Entry};
use std::alloc::Global;

/// The commands that make the steps of entries, a line each. The only error is out of memory.
pub fn commands_for(alloc: Global, entries: &[Entry]) -> AllocResult<Vec<u8>>
    ensures { IfOk result (λ text. text.items ≡ script_text entries.now) }
{
    let mut text = Vec::new(alloc);
    push_commands(&mut text, entries)?;
    Ok(text)
}

fn push_commands(text: &mut Vec<u8>, entries: &[Entry]) -> AllocResult<()>
    ensures { OnOk result (text.new.items ≡ text.old.items ++ joined command_line entries.now) }
{
    for entry in entries {
        push_command(text, entry)?;
    }
    Ok(())
}

// Appends the command that makes an entry's step.
fn push_command(text: &mut Vec<u8>, entry: &Entry) -> AllocResult<()>
    ensures { OnOk result (text.new.items ≡ text.old.items ++ command_line entry.now) }
{
    match &entry.choice {
        Choice::Next => {
            push_numbered(text, b"step ", entry.worker)?;
            text.extend_from_slice(b"\n")
        }
        Choice::Start(task) => {
            push_numbered(text, b"start ", entry.worker)?;
            text.extend_from_slice(b" ")?;
            task.text(text)?;
            text.extend_from_slice(b"\n")
        }
    }
}
