//! A worker's control that several owners share.

ghost use Rattle.std.specs.Prelude.{◌≡◌, IfOk, unwrap_or};
ghost use Rattle.std.specs.Option.{option_copied};

use crate::control::Control;
use om_foot::Shared;
use om_seq::AllocResult;
use std::alloc::Global;
use std::marker::Model;

/// A worker's control that its copies share. It is as small for a control of any size, and one that
/// is idle takes no memory.
///
/// Contracts see the control alone.
pub struct SharedControl {
    // `None` stands for an idle one.
    control: Option<Shared<Control>>,
}

// By hand: other crates call this, and do not prove anew how each part is dropped.
impl Drop for SharedControl {
    fn drop(self) {
        let SharedControl { control } = self;
        drop(control);
    }
}

impl Model for SharedControl {
    ghost use Rattle.std.specs.Prelude.{unwrap_or};
    ghost use Rattle.om_state.specs.declared.control.Control.{Control};
    ghost use Rattle.om_state.specs.declared.control.Control.TheVariants.{Idle};

    ghost Value = { Control };

    ghost view = { λ s. unwrap_or s.control Idle };
}

impl SharedControl {
    /// The control of a worker that is idle. It takes no memory.
    pub fn idle() -> SharedControl
        ensures { result ≡ Control.Idle }
    {
        SharedControl { control: None }
    }

    /// A control with one owner; its only error is out of memory.
    pub fn of(alloc: Global, control: Control) -> AllocResult<SharedControl>
        ensures { IfOk result (λ shared. shared ≡ control) }
    {
        match control {
            Control::Idle => Ok(SharedControl::idle()),
            busy => Ok(SharedControl {
                control: Some(Shared::of(alloc, busy)?),
            }),
        }
    }

    /// The control; `None` stands for an idle one.
    pub fn get(&self) -> Option<&Control>
        ensures { unwrap_or (option_copied result) Control.Idle ≡ self.now }
    {
        Some(self.control.as_ref()?.get())
    }

    /// The same control for one owner more; its only error is out of memory, where it has 2^63
    /// owners.
    pub fn copy(&self) -> AllocResult<SharedControl>
        ensures { IfOk result (λ shared. shared ≡ self.now) }
    {
        match &self.control {
            Some(control) => Ok(SharedControl {
                control: Some(control.copy()?),
            }),
            None => Ok(SharedControl::idle()),
        }
    }
}
