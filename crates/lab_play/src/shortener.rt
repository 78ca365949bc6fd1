//! Schedules of one program that are made short, for whoever seeks something.

ghost use Rattle.std.specs.Prelude.{◌≡◌, ◌≤◌, IfOk};
ghost use Rattle.om_undo.specs.Machines.{at_start};

use crate::blocks::{blocks_of, steps_in};
use crate::player::Player;
use crate::shorten::Search;
use crate::sought::Sought;
use crate::trial::play;
use lab_schedules::Progress;
use om_code::Program;
use om_seq::AllocResult;
use om_state::Entry;
use om_undo::Machine;
use std::alloc::Global;

/// What makes schedules of one program short. Each play first takes back all steps that stand.
pub struct Shortener {
    player: Player,
    // How many further steps may be made while schedules are made short.
    left: u64,
}

/// A short schedule, with the steps that it comes to.
#[derive(Drop)]
pub struct Brief {
    /// All steps from the start, those that finish the schedule too.
    pub steps: Vec<Entry>,
    /// How many of them are the schedule's own. The others finish it.
    pub own: u64,
}

// Nobody is told how a schedule is made short.
#[derive(Drop)]
struct Silent;

impl Progress for Silent {
    fn tell(&mut self, _seed: u64, _last: u64) {}

    fn played(&mut self, _alloc: Global, _seed: u64, _machine: &Machine) -> AllocResult<()> {
        Ok(())
    }

    fn found(&mut self, _words: &[u8]) {}

    fn shortens(&mut self, _blocks: usize) {}
}

// By hand: other crates call this, and do not prove anew how each part is dropped.
impl Drop for Shortener {
    fn drop(self) {
        let Shortener { player, left: _ } = self;
        drop(player);
    }
}

impl Shortener {
    /// What makes schedules of a program short, with 1 to 32 workers. The schedules that it plays make so many steps
    /// together, or a few more. Its only error is out of memory.
    pub fn new(alloc: Global, program: Program, workers: u8, work: u64) -> AllocResult<Shortener>
        requires at_least_one { 1 ≤ workers }
        requires at_most_32 { workers ≤ 32 }
        ensures start { IfOk result (λ it. it.player.machine ≡ at_start program workers) }
        ensures work { IfOk result (λ it. it.left ≡ work) }
    {
        let player = Player::new(alloc, program, workers)?;
        Ok(Shortener { player, left: work })
    }

    /// A short schedule that leads to what is sought, as a path does; `None` where none was found that does. That it does
    /// was seen as it was played: no clause says so, and who asks looks again. The only error is out of memory.
    pub fn shorten<S: Sought>(
        &mut self,
        alloc: Global,
        sought: &S,
        path: &[Entry],
    ) -> AllocResult<Option<Brief>> {
        let blocks = blocks_of(alloc, path)?;
        let mut silent = Silent;
        let mut search = Search::new(sought, blocks, self.left, &mut silent);
        search.shorten(alloc, &mut self.player)?;
        self.left = search.left();
        let more = search.more();
        let blocks = search.into_blocks();
        let played = play(alloc, &mut self.player, sought, &blocks, more)?;
        if !played.is_sought {
            return Ok(None);
        }
        let steps = self.player.machine.history(alloc)?;
        Ok(Some(Brief {
            steps,
            own: steps_in(&played.blocks),
        }))
    }
}
