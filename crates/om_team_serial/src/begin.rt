//! What a task begins with.

ghost use Rattle.std.specs.Prelude.{◌≡◌, ◌<◌, [], IfOk, None};
ghost use Rattle.om_team_serial.specs.Begins.{first_frame, new_context};
ghost use Rattle.om_team_serial.specs.Answers.{Gives};

use om_foot::{Name, Shared};
use om_seq::{AllocResult, Pile, Seq};
use om_state::{Construct, Context, Frame, Home, Kind, SharedPile, SharedTeam, Team};
use std::alloc::Global;

/// Where a task stands: its name, its place in its team, and the group in which it began.
#[derive(Drop)]
pub struct Standing {
    pub task: Shared<Name>,
    pub team: SharedTeam,
    pub group: Shared<Option<Name>>,
}

/// Where a task stands that is in no group. Its thread number is below the size of its team. The only
/// error is out of memory.
pub fn in_no_group(alloc: Global, task: &Name, team: &Team) -> AllocResult<Standing>
    requires { team.now.number < team.now.size }
    ensures { Gives result (record { task = task.now; team = team.now; group = None }) }
{
    Ok(Standing {
        task: Shared::of(alloc, *task)?,
        team: SharedTeam::of(alloc, team.copy()?)?,
        group: Shared::of(alloc, None)?,
    })
}

/// The frame with which a task begins on a body. It takes no memory.
pub fn first_frame(alloc: Global, body: u32, homes: Shared<Seq<Home>>) -> Frame
    ensures { result ≡ first_frame body homes }
{
    Frame {
        body,
        next: 0,
        ordinal: 0,
        operands: Pile::new(alloc),
        homes,
    }
}

// The regions and the waiting frames of a task that begins: none.
fn nothing_open(alloc: Global) -> AllocResult<(SharedPile<Construct>, SharedPile<Frame>)>
    ensures { IfOk result (λ piles. (piles.0 ≡ []) × (piles.1 ≡ [])) }
{
    let constructs = SharedPile::new(alloc)?;
    let callers = SharedPile::new(alloc)?;
    Ok((constructs, callers))
}

/// A task that begins where it stands, in a phase of its team: it has counted the frame with which
/// it begins, and nothing else. Its only error is out of memory.
pub fn new_context(
    alloc: Global,
    kind: Kind,
    phase: u64,
    standing: Standing,
    frame: Frame,
) -> AllocResult<Context>
    ensures { Gives result (new_context kind phase standing.task standing.team standing.group
        frame) }
{
    let Standing { task, team, group } = standing;
    let (constructs, callers) = nothing_open(alloc)?;
    Ok(Context {
        task,
        kind,
        team,
        phase,
        births: 0,
        regions: 0,
        frames: 1,
        group,
        constructs,
        frame,
        callers,
    })
}
