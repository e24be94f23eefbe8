// Examples of links and of rates that fit, with values worked out by hand.
use super::ports::{laptop_port, usart_port};
use ends::{BareReceiver, BareSender, Receiver, Sender, Timing};
use line::{Level, Refusal};
use link::{Act, Answer, Link, Rates, Verdict, fit};
use queue::{ReceiveQueue, SendQueue};
use std::test::Fail;

fn loads(from: Timing, to: Timing, character: u16) -> Result<(), Refusal> {
    Link::join(BareSender::new(from), BareReceiver::new(to)).load(character)
}

// So many clocks of the sender, each with one of the receiver.
fn exchange<S: Sender + Drop, R: Receiver + Drop>(link: &mut Link<S, R>, clocks: usize) {
    for _ in 0..clocks {
        let _ = link.send();
        link.receive();
    }
}

#[test]
fn formats_that_differ_refuse_every_load(rt: HostRuntime) -> Result<(), Fail> {
    let plain = usart_port(8, 0, 0, 1)?;
    assert_eq!(rt;
        loads(plain, usart_port(7, 0, 0, 1)?, 0x41),
        Err(Refusal::FormatsDiffer)
    );
    assert_eq!(rt;
        loads(plain, usart_port(8, 1, 0, 1)?, 0x41),
        Err(Refusal::FormatsDiffer)
    );
    assert_eq!(rt;
        loads(plain, usart_port(8, 0, 2, 1)?, 0x41),
        Err(Refusal::FormatsDiffer)
    );
    // before the character is looked at
    assert_eq!(rt;
        loads(plain, usart_port(7, 0, 0, 1)?, 0x100),
        Err(Refusal::FormatsDiffer)
    );
    assert_eq!(rt;
        loads(plain, usart_port(8, 0, 0, 2)?, 0x100),
        Err(Refusal::TooWide)
    );
    assert_eq!(rt; loads(plain, usart_port(8, 0, 0, 2)?, 0x41), Ok(()));
    Ok(())
}

fn rates(send: u32, receive: u32) -> Rates {
    Rates { send, receive }
}

#[test]
fn rates_out_of_range_are_refused_first(rt: HostRuntime) -> Result<(), Fail> {
    let plain = usart_port(8, 0, 0, 1)?;
    let sender = BareSender::new(plain);
    let other = BareReceiver::new(usart_port(7, 0, 0, 1)?);
    assert_eq!(rt; fit(&sender, &other, rates(0, 1)), Err(Refusal::OutOfRange));
    assert_eq!(rt;
        fit(&sender, &other, rates(1, 16777217)),
        Err(Refusal::OutOfRange)
    );
    assert_eq!(rt;
        fit(&sender, &other, rates(16777216, 16777216)),
        Err(Refusal::FormatsDiffer)
    );
    assert_eq!(rt;
        fit(
            &sender,
            &BareReceiver::new(plain),
            rates(16777216, 16777216)
        ),
        Ok(Verdict::Passes)
    );
    Ok(())
}

#[test]
fn rates_fit_or_are_early_or_late(rt: HostRuntime) -> Result<(), Fail> {
    let plain = usart_port(8, 0, 0, 1)?;
    let sender = BareSender::new(plain);
    let receiver = BareReceiver::new(plain);
    assert_eq!(rt; fit(&sender, &receiver, rates(54, 53)), Ok(Verdict::Passes));
    assert_eq!(rt;
        fit(&sender, &receiver, rates(53, 52)),
        Ok(Verdict::Late(7))
    );
    assert_eq!(rt; fit(&sender, &receiver, rates(61, 63)), Ok(Verdict::Passes));
    assert_eq!(rt;
        fit(&sender, &receiver, rates(60, 63)),
        Ok(Verdict::Early(6))
    );
    assert_eq!(rt;
        fit(
            &sender,
            &BareReceiver::new(laptop_port()?),
            rates(32768, 1843200)
        ),
        Ok(Verdict::Passes)
    );
    Ok(())
}

#[test]
fn a_list_of_answers_one_too_short_is_left_alone(rt: HostRuntime) -> Result<(), Fail> {
    let plain = usart_port(8, 0, 0, 1)?;
    let mut link = Link::join(BareSender::new(plain), BareReceiver::new(plain));
    let acts = [Act::Load(0x41), Act::Load(0x42), Act::Read];
    let mut answers = [Ok(Answer::Entry(7, 7)); 3];
    assert_eq!(rt; link.run(&acts, &mut answers[0..2]), Err(Refusal::TooShort));
    assert_eq!(rt; answers, [Ok(Answer::Entry(7, 7)); 3]);
    // and the link too: its one place is still free
    assert_eq!(rt; link.run(&acts, &mut answers), Ok(3));
    assert_eq!(rt;
        answers,
        [
            Ok(Answer::Done),
            Err(Refusal::Full),
            Err(Refusal::NothingUnread)
        ]
    );
    Ok(())
}

#[test]
fn a_link_delivers_after_noise_and_quiet(rt: HostRuntime) -> Result<(), Fail> {
    let plain = usart_port(8, 0, 0, 1)?;
    let mut link = Link::join(BareSender::new(plain), BareReceiver::new(plain));
    for _ in 0..40 {
        link.noise(Level::Space);
    }
    // the last sample of a frame is at clock 65: so many marks and one are a quiet moment
    for _ in 0..66 {
        link.receive();
    }
    // the spaces looked like a character with five low zeros
    assert_eq!(rt; link.read(), Ok((0xe0, 0)));
    assert_eq!(rt; link.load(0x41), Ok(()));
    exchange(&mut link, 68);
    assert_eq!(rt; link.read(), Ok((0x41, 0)));
    assert_eq!(rt; link.read(), Err(Refusal::NothingUnread));
    Ok(())
}

#[test]
fn queues_on_both_ends_overrun_the_newest(rt: HostRuntime) -> Result<(), Fail> {
    let plain = usart_port(8, 0, 0, 1)?;
    let mut link = Link::join(
        SendQueue::new(BareSender::new(plain)),
        ReceiveQueue::new(BareReceiver::new(plain)),
    );
    for character in 0..18 {
        // seventeen wait at the most: the first goes on the line
        assert_eq!(rt; link.load(character), Ok(()));
        exchange(&mut link, 1);
    }
    exchange(&mut link, 18 * 68);
    for character in 0..16 {
        assert_eq!(rt; link.read(), Ok((character, 0)));
    }
    assert_eq!(rt; link.read(), Ok((17, 1)));
    assert_eq!(rt; link.read(), Err(Refusal::NothingUnread));
    Ok(())
}
