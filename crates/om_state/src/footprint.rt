//! What a step touches, its worker's control first.

ghost use Rattle.std.specs.Prelude.{◌≡◌, ◌∷◌};
ghost use Rattle.om_foot.specs.declared.footprint.Mode.TheVariants as mode;
ghost use Rattle.om_foot.specs.declared.object.Obj.TheVariants as obj;

use om_foot::Names;
use std::marker::Model;

/// What a step touches. The first access is always the write of the worker's control. An access is
/// large, so only the worker's number is kept for it.
///
/// Contracts see the accesses, that of the control first.
#[derive(Drop)]
pub struct Footprint {
    worker: u8,
    others: Names,
}

impl Model for Footprint {
    ghost use Rattle.std.specs.Prelude.{List, ◌∷◌};
    ghost use Rattle.om_foot.specs.declared.footprint.Access.{Access};
    ghost use Rattle.om_foot.specs.declared.footprint.Mode.TheVariants as mode;
    ghost use Rattle.om_foot.specs.declared.object.Obj.TheVariants as obj;

    ghost Value = { List Access };

    ghost view = { λ f. record { object = obj.Control f.worker; mode = mode.Write } ∷ f.others };
}

impl Footprint {
    /// What a worker's step touches that names these objects beside its control. It takes no memory.
    pub fn of(worker: u8, others: Names) -> Footprint
        ensures { result ≡ record { object = obj.Control worker; mode = mode.Write } ∷ others }
    {
        Footprint { worker, others }
    }

    /// The worker, whose control is written, and what is named beside that.
    pub fn parts(&self) -> (u8, &Names)
        ensures { self.now
            ≡ record { object = obj.Control result.0; mode = mode.Write } ∷ result.1.now }
    {
        (self.worker, &self.others)
    }
}
