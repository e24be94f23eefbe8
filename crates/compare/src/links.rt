// Links with all kinds of ends, bare or with queues.
use super::acts::some_acts;
use super::dice::Dice;
use super::hearing::{Entry, heard};
use super::inbox::Inbox;
use super::levels::byte_of;
use super::said::{Answer, Answers, Both, Said};
use super::schedule::Schedule;
use super::tally::{Case, Numbered};
use super::times::Pair;
use ends::{BareReceiver, BareSender, Receiver, Sender, Timing};
use line::{Level, Refusal};
use link::{Act, Link};
use queue::{ReceiveQueue, SendQueue};
use std::alloc::{AllocError, Global};
use std::fmt;

// Two ends, and how many queues stand at each.
#[derive(Clone, Copy)]
struct Setup {
    pair: Pair,
    send_queues: u16,
    receive_queues: u16,
}

impl Setup {
    fn random(dice: &mut Dice, number: u16) -> Setup {
        Setup {
            pair: Pair::short(dice, number, 25),
            send_queues: dice.below(3),
            receive_queues: dice.below(3),
        }
    }
}

// A queue has sixteen places more than what stands below it, and a bare end has one.
fn capacity(queues: u16) -> usize {
    16 * usize::from(queues) + 1
}

// The side that sends: the clocks that it was given, what was on the line last, and what the receiver hears.
#[derive(Drop)]
struct Sending {
    schedule: Schedule,
    clock: u32,
    line: Level,
    levels: Vec<Level>,
}

impl Sending {
    fn new(heap: Global, pair: &Pair) -> Sending {
        Sending {
            schedule: Schedule::new(heap, pair.sender),
            clock: 0,
            line: Level::Mark,
            levels: Vec::new(heap),
        }
    }

    fn load(&mut self, setup: &Setup, character: u16) -> Result<Answer, AllocError> {
        if !setup.pair.agrees() {
            return Ok(Err(Refusal::FormatsDiffer));
        }
        if character >= setup.pair.sender.shape.characters() {
            return Ok(Err(Refusal::TooWide));
        }
        if self.schedule.waiting(self.clock) >= capacity(setup.send_queues) {
            return Ok(Err(Refusal::Full));
        }
        self.schedule.add(self.clock, character)?;
        Ok(Ok(Said::Done))
    }

    // The answer to any act but a read.
    fn answer(&mut self, setup: &Setup, act: Act) -> Result<Answer, AllocError> {
        match act {
            Act::Load(character) => return self.load(setup, character),
            Act::Send => {
                self.line = self.schedule.level(self.clock);
                self.clock = self.clock.saturating_add(1);
                return Ok(Ok(Said::Line(self.line)));
            }
            Act::Receive => self.levels.push(self.line)?,
            Act::Noise(level) => self.levels.push(level)?,
            Act::Read => return Ok(Err(Refusal::NothingUnread)),
        }
        Ok(Ok(Said::Done))
    }
}

fn by_times(heap: Global, setup: &Setup, acts: &[Act]) -> Result<Vec<Answer>, AllocError> {
    let mut sending = Sending::new(heap, &setup.pair);
    let mut answers = Vec::new(heap);
    for act in acts {
        answers.push(sending.answer(setup, *act)?)?;
    }
    let entries = heard(heap, &setup.pair.receiver, sending.levels.as_slice())?;
    let mut arrivals = entries.iter().peekable();
    let mut inbox = Inbox::new(heap, capacity(setup.receive_queues));
    // two acts in five are receive clocks, so the place of an act is not its clock
    let mut clock = 0usize;
    for (act, answer) in acts.iter().zip(answers.iter_mut()) {
        match *act {
            Act::Receive | Act::Noise(_) => {
                if let Some(arrival) = arrivals.next_if(|arrival| arrival.clock == clock) {
                    inbox.arrive(arrival.entry)?;
                }
                clock = clock.saturating_add(1);
            }
            Act::Read => {
                if let Some(entry) = inbox.read() {
                    *answer = Ok(Said::Entry(entry));
                }
            }
            _ => {}
        }
    }
    Ok(answers)
}

impl From<link::Answer> for Said {
    fn from(answer: link::Answer) -> Said {
        match answer {
            link::Answer::Done => Said::Done,
            link::Answer::Line(level) => Said::Line(level),
            link::Answer::Entry(character, flags) => Said::Entry(Entry { character, flags }),
        }
    }
}

// The first half of the acts in one call, the others one by one.
fn answered<S: Sender + Drop, R: Receiver + Drop>(
    heap: Global,
    sender: S,
    receiver: R,
    acts: &[Act],
) -> Result<Vec<Answer>, AllocError> {
    let mut link = Link::join(sender, receiver);
    let (first, others) = acts.split_at(acts.len() / 2);
    let mut answers = vec![in heap; Ok(link::Answer::Done); first.len()]?;
    let _ = link.run(first, answers.as_mut_slice());
    let mut all = answers
        .iter()
        .map(|answer| answer.map(Said::from))
        .collect::<Vec<Answer>>(heap)?;
    for act in others {
        all.push(link.act(*act).map(Said::from))?;
    }
    Ok(all)
}

// How many queues there are is a number, and each count of them another type: so each is named once at both ends.
fn sent_from<S: Sender + Drop>(
    heap: Global,
    sender: S,
    to: Timing,
    receive_queues: u16,
    acts: &[Act],
) -> Result<Vec<Answer>, AllocError> {
    let bare = BareReceiver::new(to);
    match receive_queues {
        0 => answered(heap, sender, bare, acts),
        1 => answered(heap, sender, ReceiveQueue::new(bare), acts),
        _ => answered(
            heap,
            sender,
            ReceiveQueue::new(ReceiveQueue::new(bare)),
            acts,
        ),
    }
}

fn by_library(
    heap: Global,
    setup: &Setup,
    from: Timing,
    to: Timing,
    acts: &[Act],
) -> Result<Vec<Answer>, AllocError> {
    let bare = BareSender::new(from);
    let behind = setup.receive_queues;
    match setup.send_queues {
        0 => sent_from(heap, bare, to, behind, acts),
        1 => sent_from(heap, SendQueue::new(bare), to, behind, acts),
        _ => sent_from(heap, SendQueue::new(SendQueue::new(bare)), to, behind, acts),
    }
}

// The answers of both emulators.
#[derive(Drop)]
pub(crate) struct Linked {
    seed: u16,
    setup: Setup,
    acts: Vec<Act>,
    answers: Answers,
}

impl Numbered for Linked {
    fn run(heap: Global, seed: u16) -> Result<Option<Linked>, AllocError> {
        let mut dice = Dice::new(u32::from(seed));
        let setup = Setup::random(&mut dice, seed);
        let Ok((from, to)) = setup.pair.timings() else {
            return Ok(None);
        };
        let acts = some_acts(heap, &mut dice, &setup.pair)?;
        let answers = Both {
            own: by_times(heap, &setup, acts.as_slice())?,
            library: by_library(heap, &setup, from, to, acts.as_slice())?,
        }
        .each_numbered(heap)?;
        Ok(Some(Linked {
            seed,
            setup,
            acts,
            answers,
        }))
    }
}

impl Case for Linked {
    fn is_same(&self) -> bool {
        self.answers.difference().is_none()
    }
}

// S and R are send and receive clocks, N a noise clock with its level.
fn write_act<W: fmt::Write>(f: &mut fmt::Formatter<W>, act: Act) -> fmt::Result {
    match act {
        Act::Load(character) => write!(f, " load {character:X}h "),
        Act::Send => write!(f, "S"),
        Act::Receive => write!(f, "R"),
        Act::Noise(level) => write!(f, "N{}", byte_of(level)),
        Act::Read => write!(f, " read "),
    }
}

impl fmt::Display for Linked {
    fn fmt<W: fmt::Write>(&self, f: &mut fmt::Formatter<W>) -> fmt::Result {
        let seed = self.seed;
        let place = self.answers.difference().unwrap_or(0);
        let Setup {
            pair,
            send_queues,
            receive_queues,
        } = self.setup;
        writeln!(f, "seed {seed}, {pair}")?;
        writeln!(
            f,
            "  queues: {send_queues} at the sender, {receive_queues} at the receiver"
        )?;
        write!(f, "  acts ")?;
        for act in self.acts.iter() {
            write_act(f, *act)?;
        }
        writeln!(f, ", to act {place}, counted from 0:")?;
        write!(f, "{}", self.answers.at(place))
    }
}
