//! A member's place in a loop or in sections that it has open.

ghost use Rattle.std.specs.Prelude.{◌≡◌};
ghost use Rattle.om_state.specs.OpenShares.{ShareHasInts};

use crate::control::Share;
use std::marker::Model;

/// A member's place in a loop or in sections. Its chunk does not reach past the last iteration, and each
/// iteration of a loop has an `int` as its value.
///
/// Contracts see the place alone.
#[derive(Clone, Copy)]
pub struct OpenShare {
    share: Share,
}

impl Model for OpenShare {
    ghost use Rattle.om_state.specs.declared.control.Share.{Share};
    ghost use Rattle.om_state.specs.OpenShares.{ShareHasInts};

    ghost Value = { Share };

    ghost view = { λ s. s.share };

    ghost invariant = { λ s. ShareHasInts s.share };

    ghost inverse = { λ s. record { share = s } };

    ghost inverse_ok = { λ s h i. record { share = s.share } };
}

impl OpenShare {
    /// The open loop or sections of this place.
    pub fn of(share: Share) -> OpenShare
        requires { ShareHasInts share }
        ensures { result ≡ share }
    {
        OpenShare { share }
    }

    /// The place.
    pub fn place(&self) -> &Share
        ensures same { result.now ≡ self.now }
        ensures ints { ShareHasInts self.now }
    {
        &self.share
    }
}
