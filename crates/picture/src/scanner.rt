// A scan that goes on from piece to piece of a picture.
ghost use Rattle.std.specs.Prelude.{◌≡◌, []};
ghost use Rattle.ends.specs.BareReceiver.{meant};

use ends::BareReceiver;

// Contracts speak of its receiver: it is `Copy`, so a model would have to give the fields back, and hide nothing.
#[derive(Clone, Copy)]
pub struct Scanner {
    pub(crate) receiver: BareReceiver,
    // each entry is read as it arrives
    ghost read: { (meant receiver).unread ≡ [] },
}
