//! Codes in words: why a source is refused, and what blocked steps, faults and lines that are no commands
//! mean.

ghost use Rattle.lab_help.specs.Words.{IsOneLine};

use om_code::frame::Fault;
use om_lexer::FaultCode;
use om_shell_commands::CommandFault;
use om_state::Blocked;

/// What a code from S0 to S16 means, in one line.
pub fn refusal_words(code: FaultCode) -> &'static str
    ensures { IsOneLine result.now }
{
    match code {
        FaultCode::Memory => "out of memory",
        FaultCode::SourceTooLong => "the source has more than 1,048,576 bytes; cut it",
        FaultCode::BadToken => "no token of the accepted C begins here",
        FaultCode::Syntax =>
            "this token cannot stand here: it is left out, or something is missing before it",
        FaultCode::BadHashLine => "this # line is not accepted",
        FaultCode::UnknownDirective =>
            "no such directive or clause: the word is mistyped, or left out",
        FaultCode::BadClause =>
            "this clause is wrong: not of this directive, there already, or wrong inside; at atomic, its statement",
        FaultCode::Undeclared =>
            "this source does not declare this name before its use, or never defines this function",
        FaultCode::Redeclared =>
            "this name is declared twice; take one of the two out, or rename it",
        FaultCode::Misuse => "this is used as what it is not",
        FaultCode::ConstantTooLarge => "this constant is above 2147483647, the largest int",
        FaultCode::TooMany =>
            "there are too many of something: make arrays, functions or lists smaller",
        FaultCode::LoopForm =>
            "the loop is not canonical: write for (i = a; i < b; i++), with a constant step",
        FaultCode::Unlisted =>
            "default(none) asks for this variable: list it in shared, private or another clause",
        FaultCode::LeavesConstruct =>
            "a jump outside of a loop or out of a construct, or worksharing or a barrier where none may stand",
        FaultCode::NoMain => "there is no main: write int main(void) { .. }",
        FaultCode::TooDeep =>
            "too deep in one another, or an expression that is too long: cut it in two",
    }
}

/// What a code from B1 to B8 means and what to do, in one line.
pub fn blocked_words(why: Blocked) -> &'static str
    ensures { IsOneLine result.now }
{
    match why {
        Blocked::Barrier =>
            "it waits at a barrier: step the other threads, and begin what `tasks` lists",
        Blocked::Critical(_) => "that worker is in the critical: step it until it has left",
        Blocked::Children =>
            "it waits for tasks: begin what `tasks` lists, or step the worker that runs one",
        Blocked::Busy(_) =>
            "that worker is still busy with its last region: step it until it is idle",
        Blocked::Idle => "the worker is idle: it has no task; step worker 0 into a parallel",
        Blocked::Task => "it may not begin this task: not ready, of another team, or no descendant",
        Blocked::Place =>
            "no task may begin here: step the worker until it waits, or is at a taskyield",
        Blocked::Group =>
            "it waits for a taskgroup: begin what `tasks` lists, or step the worker that runs one",
    }
}

/// What a code from F1 to F10 means, in one line.
pub fn fault_words(fault: Fault) -> &'static str
    ensures { IsOneLine result.now }
{
    match fault {
        Fault::Overflow => "a result does not fit an int of 32 bits",
        Fault::ZeroDivisor => "division by 0",
        Fault::Index => "an index outside of its array",
        Fault::Unset => "a variable is read in which nothing was stored",
        Fault::Dead => "a variable is used whose frame has ended",
        Fault::NoValue => "the value of a call is used that returned none",
        Fault::Frames => "more than 1,000 frames in a task",
        Fault::Size => "num_threads is 0 or negative",
        Fault::Nesting => "a barrier or worksharing where none may be met",
        Fault::Name => "a name of more than 64 numbers",
    }
}

/// What H1 and H2 mean and what to do, in one line.
pub fn command_words(fault: CommandFault) -> &'static str
    ensures { IsOneLine result.now }
{
    match fault {
        CommandFault::UnknownCommand => "the first word is no command: `ompback --help` lists them",
        CommandFault::BadArgument =>
            "a word is missing, wrong or one too many, or there is no such worker or variable here: one of a caller is hidden",
    }
}
