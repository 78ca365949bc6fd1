//! What an instruction finds where a worker carries it out.

ghost use Rattle.std.specs.Prelude.{◌≡◌, ◌+◌, ◌<◌, ◌^◌, length};
ghost use Rattle.om_memory.specs.Plain.{plain_context, plain_stack};
ghost use Rattle.om_team_serial.specs.Sites.{site_of, context, operands, next, slots, line, launch, body_of};

use crate::acts::slots_of;
use crate::here::Here;
use crate::names::operands_of;
use crate::row::Launch;
use om_code::Body;
use om_code::frame::Operands;
use om_code::raw::Slot;
use om_memory::Context;

impl<'a> Here<'a> {
    /// The context that runs.
    pub fn context(&self) -> &'a Context
        ensures { plain_context result.now ≡ context (site_of self.now) }
    {
        &self.stack.top
    }

    /// The operands of the frame that runs.
    pub fn operands(&self) -> Operands<'a>
        ensures { result ≡ operands (site_of self.now) }
    {
        operands_of(&self.stack.top)
    }

    /// The place behind the instruction at which the worker stands.
    pub fn next(&self) -> u32
        requires { (plain_stack self.now.stack.now).top.frame.next + 1 < 2 ^ 32 }
        ensures { result ≡ next (site_of self.now) }
    {
        self.stack.top.frame.next + 1
    }

    /// The slots of the body that runs.
    pub fn slots(&self) -> &'a [Slot]
        ensures { result.now ≡ slots (site_of self.now) }
    {
        slots_of(self.program.raw(), self.stack.top.frame.body)
    }

    /// How an instruction that takes so many operands begins a body.
    pub fn launch(&self, takes: u32, body: u32) -> Launch
        requires { (plain_stack self.now.stack.now).top.frame.next + 1 < 2 ^ 32 }
        ensures { result ≡ launch (site_of self.now) takes body }
    {
        Launch {
            to: self.next(),
            takes,
            body,
        }
    }

    /// The body of this number, which is below how many bodies there are.
    pub fn body(&self, number: u32) -> &'a Body
        requires { number < length self.now.program.now.bodies }
        ensures { result.now ≡ body_of self.now.program.now number }
    {
        self.program.body(number)
    }

    /// The line in the source of the instruction at which the worker stands; 0 where there is none.
    pub fn line(&self) -> u32
        ensures { result ≡ line (site_of self.now) }
    {
        let frame = &self.stack.top.frame;
        self.program.line(frame.body, frame.next)
    }
}
