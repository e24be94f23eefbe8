// The two ends of a chip, which run together.
ghost use Rattle.std.specs.Prelude.{◌≡◌, []};
ghost use Rattle.ends.specs.BareReceiver.{meant};

use ends::{BareReceiver, BareSender, Kind, Receiver, Sender, Timing};
use line::Level;

#[derive(Clone, Copy)]
pub struct Ends {
    pub(crate) sender: BareSender,
    pub(crate) receiver: BareReceiver,
    ghost read: { (meant receiver).unread ≡ [] },
}

impl Ends {
    ghost use Rattle.std.specs.Prelude.{◌≡◌};
    ghost use Rattle.std.specs.Option.{option_to_list};
    ghost use Rattle.ends.specs.Sender.{sent};
    ghost use Rattle.ends.specs.Timed.{times_of};
    ghost use Rattle.chip.specs.Pairs.{ends_of, resting, arrivals, ends_clocked};

    pub(crate) fn at_rest(timing: Timing) -> Ends
        ensures { ends_of result ≡ resting (times_of timing) }
    {
        Ends {
            sender: BareSender::new(timing),
            receiver: BareReceiver::new(timing),
        }
    }

    // One clock of both: the level on UTXD, and the entry that arrives, if one does. With `listen` the receiver sees that
    // level, and not the one passed.
    pub(crate) fn clock(&mut self, listen: bool, level: Level) -> (Level, Option<(u16, u8)>)
        ensures level { result.0 ≡ sent (ends_of self.old).sender }
        ensures arrived { option_to_list result.1 ≡ arrivals (ends_of self.old) listen level }
        ensures state { ends_of self.new ≡ ends_clocked (ends_of self.old) listen level }
    {
        let utxd = self.sender.clock();
        let seen = if listen { utxd } else { level };
        self.receiver.clock(seen);
        (utxd, self.receiver.read().ok())
    }
}
