//! What `explore` and `races` do with what is found in all schedules of a source.

ghost use Rattle.std.specs.Prelude.{◌≤◌};

use crate::subcommands::Host;
use lab_explore::Watch;
use lab_explore_answer::{Question, answer, status_of};
use om_seq::AllocResult;
use om_shell::{ShellFault, send};
use om_shell_commands::push_numbered;
use std::io::Write;

// Shows how many states and steps there are, where that is watched.
#[derive(Drop)]
struct Count<'a, 'b, 'c, H> {
    host: &'a Host<'b, 'c, H>,
}

impl<H> Watch for Count<'_, '_, '_, H> {
    fn tell(&mut self, states: u64, steps: u64) {
        let mut words = Vec::new(self.host.alloc);
        if push_count(&mut words, states, steps).is_ok() {
            self.host.show(str::from_utf8(&words).unwrap_or(""));
        }
    }
}

fn push_count(words: &mut Vec<u8>, states: u64, steps: u64) -> AllocResult<()> {
    push_numbered(words, b"all schedules are looked at: ", states)?;
    push_numbered(words, b" states, ", steps)?;
    words.extend_from_slice(b" steps")
}

/// Writes the report on all schedules of a source, or the commands that lead to one end or race. Why a source is refused
/// goes to standard error, and so does which teams are smaller than it asks for. Where memory ran out, what was found is written all the same, and then the fault is told.
pub(crate) fn explore<H, W: Write>(
    host: &Host<'_, '_, H>,
    question: &Question,
    writer: &mut W,
) -> Result<u8, ShellFault>
    requires least { 1 ≤ question.now.workers }
    requires most { question.now.workers ≤ 32 }
{
    let source = host.options.source.unwrap_or(&[]);
    host.show("all schedules are looked at");
    let answered = answer(host.alloc, source, question, &mut Count { host });
    host.show("");
    match answered? {
        Some(answer) => {
            host.note(source)?;
            send(writer, &answer.text)?;
            if answer.ran_out {
                return Err(ShellFault::Memory);
            }
            Ok(status_of(answer.finding))
        }
        None => host.refuse(source),
    }
}
