//! What the rows of worksharing, masked and critical regions are made of.

ghost use Rattle.std.specs.Prelude.{◌≡◌, [], IfSome};
ghost use Rattle.om_state.specs.OpenShares.{ShareHasInts};
ghost use Rattle.om_memory.specs.Plain.{plain_context};
ghost use Rattle.om_team_serial.specs.Rows.{goes};
ghost use Rattle.om_team_serial.specs.Answers.{Gives};
ghost use Rattle.om_team_worksharing.specs.RowParts.{work_record};
ghost use Rattle.om_team_worksharing.specs.Rows.{edits, begun, share_of, share_in};

use om_events::{Endpoint, Record, Work};
use om_foot::Shared;
use om_memory::Context;
use om_seq::{AllocResult, Seq};
use om_state::{Construct, Edit, Puts, Share};
use om_team_serial::Row;
use om_team_serial::names::innermost;
use om_team_serial::parts::{go_and, go_and_then};
use std::alloc::Global;

/// The two places at which an instruction can go on.
#[derive(Clone, Copy)]
pub struct Branch {
    /// The next place.
    pub to: u32,
    /// The target of its jump.
    pub otherwise: u32,
}

/// The edits that go to a place with so many operands taken, and open a region.
pub(crate) fn opened(
    alloc: Global,
    to: u32,
    takes: u32,
    region: &Construct,
) -> AllocResult<Seq<Edit>>
    ensures { Gives result (edits to takes (Edit.Open region.now)) }
{
    let region = Shared::of(alloc, *region)?;
    go_and(alloc, to, takes, Edit::Open(region))
}

/// The edits that go to a place with so many operands taken, and open a worksharing region.
pub(crate) fn begun(
    alloc: Global,
    to: u32,
    takes: u32,
    region: &Construct,
) -> AllocResult<Seq<Edit>>
    ensures { Gives result (begun to takes region.now) }
{
    let region = Shared::of(alloc, *region)?;
    go_and_then(alloc, to, takes, Edit::CountRegion, Edit::Open(region))
}

/// The row that goes on at a place, and changes nothing else.
pub(crate) fn jump(alloc: Global, to: u32, takes: u32) -> AllocResult<Row>
    ensures { Gives result (goes to takes None []) }
{
    Row::goes(alloc, to, takes, None, Puts::new(alloc))
}

/// The record that a worksharing region begins or ends.
pub(crate) fn work_record(
    context: &Context,
    work: Work,
    endpoint: Endpoint,
    count: u64,
) -> AllocResult<Record>
    ensures { Gives result (work_record work endpoint (plain_context context.now) count) }
{
    Ok(Record::Work {
        work,
        endpoint,
        team: context.team.get().name.copy()?,
        task: context.task.copy()?,
        count,
    })
}

// The loop or the sections that a region is, if it is either.
fn share_of(region: &Construct) -> Option<Share>
    ensures value { result ≡ share_of region.now }
    ensures ints { IfSome result ShareHasInts }
{
    let Construct::Share(share) = region else {
        return None;
    };
    Some(*share.place())
}

/// The loop or the sections that the innermost region of a context is, if it is either.
pub(crate) fn share_in(context: &Context) -> Option<Share>
    ensures value { result ≡ share_in (plain_context context.now) }
    ensures ints { IfSome result ShareHasInts }
{
    let region = &innermost(context)?;
    share_of(region)
}
