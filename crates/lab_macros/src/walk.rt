//! Steps of a worker up to a place.

ghost use Rattle.std.specs.Prelude.{◌≡◌, ◌<◌, IfOk, OnOk};
ghost use Rattle.om_state.specs.declared.step.Choice.TheVariants.{Next};
ghost use Rattle.lab_macros.specs.Walks.{behind_stride, stride_by, stride_of, walk_of};

use om_book::Book;
use om_seq::AllocResult;
use om_shell_commands::Stop;
use om_shell_debugger::Marks;
use om_shell_debugger::stops::step_and_stop;
use om_state::Choice;
use std::alloc::Global;

/// Why no steps of a worker lead to a place.
#[derive(Clone, Copy)]
pub(crate) enum Miss {
    /// A step before it can't be made.
    Blocked,
    /// The worker meets a fault before it.
    Faulted,
    /// There is no room to record a step before it.
    Full,
    /// It lies behind as many steps as are made at most.
    Far,
}

/// How a worker comes to a place.
#[derive(Clone, Copy)]
pub(crate) enum Walk {
    /// So many of its steps lead there.
    There(u64),
    /// None do.
    Missed(Miss),
}

// What comes of one step.
#[derive(Clone, Copy)]
enum Stride {
    // The worker is not there yet.
    On,
    // It came there.
    There,
    // It can't come there.
    Missed(Miss),
}

// What a stop says of a step.
fn stride_by(stop: Option<Stop>) -> Stride
    ensures { result ≡ stride_by stop }
{
    match stop {
        None => Stride::On,
        Some(Stop::Fault { .. }) => Stride::Missed(Miss::Faulted),
        Some(Stop::Break { .. }) => Stride::There,
        Some(Stop::Watch { .. }) => Stride::There,
        Some(Stop::Limit) => Stride::There,
        Some(Stop::Ended) => Stride::There,
        Some(Stop::Stuck) => Stride::There,
    }
}

// Makes a worker's next step, where it can be made and recorded.
fn make_stride(alloc: Global, book: &mut Book, marks: &Marks, worker: u8) -> AllocResult<Stride>
    requires in_range { worker < book.old.start.workers }
    ensures stride { IfOk result (λ stride. stride ≡ stride_of marks.now worker book.old) }
    ensures after { OnOk result (book.new ≡ behind_stride worker book.old) }
{
    let step = book.machine().plan(alloc, worker, &Choice::Next)?;
    if !step.is_possible() {
        drop(step);
        return Ok(Stride::Missed(Miss::Blocked));
    }
    if book.is_full() {
        drop(step);
        return Ok(Stride::Missed(Miss::Full));
    }
    let stop = step_and_stop(alloc, book, marks, step)?;
    Ok(stride_by(stop))
}

/// Makes a worker's steps up to where marks stop them, so many at most, and says how many lead there. The only error is
/// out of memory.
pub(crate) fn walk_to(
    alloc: Global,
    book: &mut Book,
    marks: &Marks,
    worker: u8,
    most: u64,
) -> AllocResult<Walk>
    requires in_range { worker < book.old.start.workers }
    ensures { IfOk result (λ walk. walk ≡ walk_of most marks.now worker book.old) }
{
    let mut left = most;
    let mut made = 0;
    'steps: while left > 0 {
        match make_stride(alloc, book, marks, worker)? {
            Stride::On => {}
            Stride::There => return Ok(Walk::There(made + 1)),
            Stride::Missed(miss) => return Ok(Walk::Missed(miss)),
        }
        made += 1;
        left -= 1;
    }
    Ok(Walk::Missed(Miss::Far))
}
