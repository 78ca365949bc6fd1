//! The text of a report: words, an empty line, and the script.

ghost use Rattle.std.specs.Prelude.{◌≡◌, ◌++◌, IfOk, OnOk, length};
ghost use Rattle.om_shell_commands.specs.Lists.{joined};
ghost use Rattle.std.specs.Prelude.{◌+◌};
ghost use Rattle.lab_schedules.specs.Reports.{block_words, blocks_word, compared_text, compared_with, count_words, first_seed, first_text, found_text, from_words, length_text, limits_text, not_compared, nothing_text, report_text, seed_text, seed_words, several_seeds, some_unconfirmed, start_words, steps_words, threads_text, unconfirmed_text, words_text};

use crate::block::Block;
use crate::hunted::{Found, Hunted, Seeds};
use lab_judge::{End, Standard, Wanted, push_badness};
use om_foot::Name;
use om_seq::AllocResult;
use om_shell_commands::push_numbered;
use std::alloc::Global;

/// Appends what came of a hunt.
///
/// Of a bad schedule it is what was found, in words, each on a line that is not empty; then an empty line,
/// and then the script and nothing else. Of a refused source it is the line that ompback writes.
pub fn push_report(text: &mut Vec<u8>, hunted: &Hunted) -> AllocResult<()>
    ensures { OnOk result (text.new.items ≡ text.old.items ++ report_text hunted.now) }
{
    match hunted {
        Hunted::Refused(line) => text.extend_from_slice(line.as_slice()),
        Hunted::Nothing {
            seeds,
            compared,
            unconfirmed,
            ..
        } => push_nothing(text, *seeds, *compared, *unconfirmed),
        Hunted::Found(found) => push_found(text, found),
    }
}

/// The first line of the report on a bad schedule, without its end. The only error is out of memory.
pub fn first_line(alloc: Global, seed: u64, end: &End, wanted: &Wanted) -> AllocResult<Vec<u8>>
    ensures { IfOk result (λ text. text.items ≡ first_text seed end.now wanted.now) }
{
    let mut text = Vec::new(alloc);
    push_first(&mut text, seed, end, wanted)?;
    Ok(text)
}

// Appends that nothing was found, and what that does not mean.
fn push_nothing(
    text: &mut Vec<u8>,
    seeds: Seeds,
    compared: Option<Standard>,
    unconfirmed: u64,
) -> AllocResult<()>
    ensures { OnOk result
        (text.new.items ≡ text.old.items ++ nothing_text seeds compared unconfirmed) }
{
    push_seeds(text, seeds)?;
    push_compared(text, compared)?;
    push_unconfirmed(text, unconfirmed)?;
    push_limits(text)?;
    Ok(())
}

// Appends how many seeds there were, and which is the first where it is not seed 1.
fn push_seeds(text: &mut Vec<u8>, seeds: Seeds) -> AllocResult<()>
    ensures { OnOk result (text.new.items ≡ text.old.items ++ seed_words seeds) }
{
    push_count(text, seeds.last.saturating_sub(seeds.after))?;
    push_first_seed(text, seeds.after)?;
    text.extend_from_slice(b"\n")?;
    Ok(())
}

// Appends which seed is the first, where it is not seed 1.
fn push_first_seed(text: &mut Vec<u8>, after: u64) -> AllocResult<()>
    ensures { OnOk result (text.new.items ≡ text.old.items ++ from_words after) }
{
    if after == 0 {
        Ok(())
    } else {
        push_from(text, after)
    }
}

fn push_from(text: &mut Vec<u8>, after: u64) -> AllocResult<()>
    ensures { OnOk result (text.new.items ≡ text.old.items ++ first_seed (after + 1)) }
{
    push_numbered(text, b", from seed ", u128::from(after) + 1)?;
    text.extend_from_slice(b" on")?;
    Ok(())
}

fn push_count(text: &mut Vec<u8>, count: u64) -> AllocResult<()>
    ensures { OnOk result (text.new.items ≡ text.old.items ++ count_words count) }
{
    if count == 1 {
        text.extend_from_slice(b"nothing bad in the schedule of 1 seed")
    } else {
        push_several_seeds(text, count)
    }
}

fn push_several_seeds(text: &mut Vec<u8>, seeds: u64) -> AllocResult<()>
    ensures { OnOk result (text.new.items ≡ text.old.items ++ several_seeds seeds) }
{
    push_numbered(text, b"nothing bad in the schedules of ", seeds)?;
    text.extend_from_slice(b" seeds")?;
    Ok(())
}

// Appends with what outputs were compared, where that is not what was told or what `run` prints.
fn push_compared(text: &mut Vec<u8>, compared: Option<Standard>) -> AllocResult<()>
    ensures { OnOk result (text.new.items ≡ text.old.items ++ compared_text compared) }
{
    match compared {
        Some(Standard::Told) => Ok(()),
        Some(Standard::Run) => Ok(()),
        Some(Standard::Seed(seed)) => push_compared_with(text, seed),
        None => push_not_compared(text),
    }
}

fn push_compared_with(text: &mut Vec<u8>, seed: u64) -> AllocResult<()>
    ensures { OnOk result (text.new.items ≡ text.old.items ++ compared_with seed) }
{
    text.extend_from_slice(b"`run` came to no end: outputs were compared with ")?;
    push_numbered(text, b"that of seed ", seed)?;
    text.extend_from_slice(b"\n")?;
    Ok(())
}

fn push_not_compared(text: &mut Vec<u8>) -> AllocResult<()>
    ensures { OnOk result (text.new.items ≡ text.old.items ++ not_compared) }
{
    text.extend_from_slice(b"`run` came to no end, and no seed did: ")?;
    text.extend_from_slice(b"no output was compared; give more --steps\n")?;
    Ok(())
}

// Appends how many bad schedules the debugger did not find bad, where there were some.
fn push_unconfirmed(text: &mut Vec<u8>, unconfirmed: u64) -> AllocResult<()>
    ensures { OnOk result (text.new.items ≡ text.old.items ++ unconfirmed_text unconfirmed) }
{
    if unconfirmed == 0 {
        Ok(())
    } else {
        push_some_unconfirmed(text, unconfirmed)
    }
}

fn push_some_unconfirmed(text: &mut Vec<u8>, unconfirmed: u64) -> AllocResult<()>
    ensures { OnOk result (text.new.items ≡ text.old.items ++ some_unconfirmed unconfirmed) }
{
    let words = b"bad schedules that the debugger did not confirm: ";
    push_numbered(text, words, unconfirmed)?;
    text.extend_from_slice(b"\n")?;
    Ok(())
}

fn push_limits(text: &mut Vec<u8>) -> AllocResult<()>
    ensures { OnOk result (text.new.items ≡ text.old.items ++ limits_text) }
{
    text.extend_from_slice(b"These are not all schedules.\n")
}

fn push_found(text: &mut Vec<u8>, found: &Found) -> AllocResult<()>
    ensures { OnOk result (text.new.items ≡ text.old.items ++ found_text found.now) }
{
    push_words(text, found)?;
    text.extend_from_slice(b"\n")?;
    text.extend_from_slice(found.script.as_slice())
}

fn push_words(text: &mut Vec<u8>, found: &Found) -> AllocResult<()>
    ensures { OnOk result (text.new.items ≡ text.old.items ++ words_text found.now) }
{
    push_first(text, found.seed, &found.end, &found.wanted)?;
    text.extend_from_slice(b"\n")?;
    push_length(text, found.blocks.as_slice())?;
    push_threads(text, found.workers)?;
    push_unconfirmed(text, found.unconfirmed)?;
    Ok(())
}

// Appends the seed, and what is bad.
fn push_first(text: &mut Vec<u8>, seed: u64, end: &End, wanted: &Wanted) -> AllocResult<()>
    ensures { OnOk result
        (text.new.items ≡ text.old.items ++ first_text seed end.now wanted.now) }
{
    push_seed(text, seed)?;
    push_badness(text, end, wanted)
}

// Appends how many workers the script is for.
fn push_threads(text: &mut Vec<u8>, workers: u8) -> AllocResult<()>
    ensures { OnOk result (text.new.items ≡ text.old.items ++ threads_text workers) }
{
    push_numbered(text, b"run the script with --threads ", workers)?;
    text.extend_from_slice(b"\n")
}

fn push_seed(text: &mut Vec<u8>, seed: u64) -> AllocResult<()>
    ensures { OnOk result (text.new.items ≡ text.old.items ++ seed_text seed) }
{
    if seed == 0 {
        return text.extend_from_slice(b"run: ");
    }
    push_numbered(text, b"seed ", seed)?;
    text.extend_from_slice(b": ")
}

fn push_length(text: &mut Vec<u8>, blocks: &[Block]) -> AllocResult<()>
    ensures { OnOk result (text.new.items ≡ text.old.items ++ length_text blocks.now) }
{
    push_numbered(text, b"shortened to ", blocks.len())?;
    push_blocks_word(text, blocks.len())?;
    push_schedule(text, blocks)?;
    text.extend_from_slice(b"then `run`\n")
}

// Appends the word after a number of blocks.
fn push_blocks_word(text: &mut Vec<u8>, count: usize) -> AllocResult<()>
    ensures { OnOk result (text.new.items ≡ text.old.items ++ blocks_word count) }
{
    if count == 1 {
        text.extend_from_slice(b" block: ")
    } else {
        text.extend_from_slice(b" blocks: ")
    }
}

/// Appends the blocks of a schedule in words, each with a comma after it: `3 of worker 0, task 0.1 by worker 1, `. The only
/// error is out of memory.
pub fn push_schedule(text: &mut Vec<u8>, blocks: &[Block]) -> AllocResult<()>
    ensures { OnOk result (text.new.items ≡ text.old.items ++ joined block_words blocks.now) }
{
    for block in blocks {
        push_block(text, block)?;
    }
    Ok(())
}

fn push_block(text: &mut Vec<u8>, block: &Block) -> AllocResult<()>
    ensures { OnOk result (text.new.items ≡ text.old.items ++ block_words block.now) }
{
    match block {
        Block::Steps { worker, count } => push_steps(text, *worker, *count),
        Block::Start { worker, task } => push_start(text, *worker, task),
    }
}

fn push_steps(text: &mut Vec<u8>, worker: u8, count: u32) -> AllocResult<()>
    ensures { OnOk result (text.new.items ≡ text.old.items ++ steps_words worker count) }
{
    push_numbered(text, b"", count)?;
    push_numbered(text, b" of worker ", worker)?;
    text.extend_from_slice(b", ")
}

fn push_start(text: &mut Vec<u8>, worker: u8, task: &Name) -> AllocResult<()>
    ensures { OnOk result (text.new.items ≡ text.old.items ++ start_words worker task.now) }
{
    text.extend_from_slice(b"task ")?;
    task.text(text)?;
    push_numbered(text, b" by worker ", worker)?;
    text.extend_from_slice(b", ")
}
