// The right to settle.

use hx_frame::Tag;
use std::marker::Model;

/// The right to settle the head's iteration. A board hands it out, one at a time, and `settle` takes it back. It can't be made elsewhere,
/// nor copied, nor dropped. Contracts see whose iteration it was, which, and which attempt.
pub struct Head {
    pub(crate) tag: Tag,
}

impl Model for Head {
    ghost use Rattle.hx_speculation.specs.Board.{Token};

    ghost Value = { Token };

    ghost view = { λ h. record { worker = h.tag.worker; iteration = h.tag.iteration; attempt = h.tag.attempt } };
}
