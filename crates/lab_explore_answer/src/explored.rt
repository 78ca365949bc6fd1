//! What is answered for a source.

ghost use Rattle.std.specs.Prelude.{◌≡◌, ◌≤◌, Some, IfOk, IfSome};
ghost use Rattle.lab_explore_answer.specs.Answers.{Answers};
ghost use Rattle.lab_explore_answer.specs.Findings.{finding_of, ran_out_by};
ghost use Rattle.lab_explore_answer.specs.Scripts.{IsScript};
ghost use Rattle.om_frontend.specs.Verdict.{IsProgramOf};

use crate::asked::{Answer, Question};
use crate::finding::finding_of;
use crate::report::report;
use crate::script::script_of;
use lab_explore::{Watch, explore};
use lab_explore_closed::Verdict;
use lab_explore_ways::{Retracer, ShortWays, with_short_ways};
use om_code::Program;
use om_frontend::laws::one_verdict;
use om_frontend::program_of;
use om_lexer::FaultCode;
use om_seq::AllocResult;
use std::alloc::{AllocError, Global};

/// What is answered for a source, with 1 to 32 workers: the report on an exploration of its program, or the script of
/// one end or race. `None` where the source is refused. The only error is that there is no memory to begin or to tell.
/// `watch` is told how far the exploration is, now and then.
pub fn answer<W: Watch>(
    alloc: Global,
    source: &[u8],
    question: &Question,
    watch: &mut W,
) -> AllocResult<Option<Answer>>
    requires at_least_one { 1 ≤ question.now.workers }
    requires at_most_32 { question.now.workers ≤ 32 }
    ensures { IfOk result (λ answer. IfSome answer (Answers question.now source.now)) }
{
    one_verdict();
    let Some(program) = accepted(alloc, source)? else {
        return Ok(None);
    };
    let explored = explore(alloc, program, question.workers, &question.limits, watch)?;
    let (Some(program), Some(again)) = (accepted(alloc, source)?, accepted(alloc, source)?) else {
        return Ok(None);
    };
    let mut retracer = Retracer::new(alloc, again, question.workers)?;
    let short = with_short_ways(alloc, program, &mut retracer, explored)?;
    let answer = told(alloc, &mut retracer, question, &short)?;
    Ok(Some(answer))
}

// The program of a source; `None` where it is refused.
fn accepted(alloc: Global, source: &[u8]) -> AllocResult<Option<Program>>
    ensures { IfOk result (λ program. IfSome program (IsProgramOf source.now)) }
{
    match program_of(alloc, source) {
        Ok(program) => Ok(Some(program)),
        Err(fault) => match fault.code {
            FaultCode::Memory => Err(AllocError),
            _ => Ok(None),
        },
    }
}

// What an exploration is told as.
fn told(
    alloc: Global,
    retracer: &mut Retracer,
    question: &Question,
    short: &ShortWays,
) -> AllocResult<Answer>
    ensures finding { IfOk result
        (λ answer. answer.finding ≡ finding_of question.now.subject short.now.explored) }
    ensures script { IfOk result (λ answer. (number : _) → question.now.script ≡ Some number
        → IsScript question.now.subject number short.now.explored answer.text.items) }
    ensures ran_out { IfOk result
        (λ answer. answer.ran_out ≡ ran_out_by short.now.explored.verdict) }
{
    let finding = finding_of(question.subject, &short.explored);
    let text = match question.script {
        Some(number) => script_of(alloc, retracer, question.subject, short, number)?,
        None => report(alloc, retracer, question, short)?,
    };
    Ok(Answer {
        text,
        finding,
        ran_out: short.explored.verdict == Verdict::OutOfMemory,
    })
}
