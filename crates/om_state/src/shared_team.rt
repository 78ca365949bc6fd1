//! A place in a team that several owners share.

ghost use Rattle.std.specs.Prelude.{◌≡◌, ◌<◌, IfOk};

use crate::control::Team;
use om_foot::Shared;
use om_seq::AllocResult;
use std::alloc::Global;
use std::marker::Model;

/// A member's place in its team, which its copies share. The number of the member is below the size
/// of the team.
///
/// Contracts see the place alone.
pub struct SharedTeam {
    team: Shared<Team>,
}

// By hand: other crates call this, and do not prove anew how each part is dropped.
impl Drop for SharedTeam {
    fn drop(self) {
        let SharedTeam { team } = self;
        drop(team);
    }
}

impl Model for SharedTeam {
    ghost use Rattle.std.specs.Prelude.{◌<◌};
    ghost use Rattle.om_state.specs.declared.control.Team.{Team};

    ghost Value = { Team };

    ghost view = { λ s. s.team };

    ghost invariant = { λ s. s.team.number < s.team.size };
}

impl SharedTeam {
    /// A place with one owner; its only error is out of memory.
    pub fn of(alloc: Global, team: Team) -> AllocResult<SharedTeam>
        requires { team.number < team.size }
        ensures { IfOk result (λ shared. shared ≡ team) }
    {
        Ok(SharedTeam {
            team: Shared::of(alloc, team)?,
        })
    }

    /// The place.
    pub fn get(&self) -> &Team
        ensures same { result.now ≡ self.now }
        ensures member { self.now.number < self.now.size }
    {
        self.team.get()
    }

    /// The same place for one owner more; its only error is out of memory.
    pub fn copy(&self) -> AllocResult<SharedTeam>
        ensures { IfOk result (λ shared. shared ≡ self.now) }
    {
        Ok(SharedTeam {
            team: self.team.copy()?,
        })
    }
}
