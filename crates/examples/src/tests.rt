// Examples of the rules, with values worked out by hand.
use super::ports::{EIGHT_N_ONE, lock_port};
use ends::{BareReceiver, BareSender, Kind, Receiver, Sender, Timing, hear, send};
use line::{DataBits, Format, Level, Refusal};
use picture::{draw, scan};
use port::Port;
use queue::{ReceiveQueue, SendQueue};
use std::process::Abort;
use std::test::Fail;
use usart::{Settings, Usart, built_in};

// The slowest format at the fastest divider.
fn short_port(size: DataBits) -> Result<Timing, Refusal> {
    let format = Format {
        size,
        ..EIGHT_N_ONE
    };
    Usart::timing(format, Settings::new(3, 0)?)
}

#[test]
fn each_refusal_has_its_number(rt: HostRuntime) {
    assert_eq!(rt; u8::from(Refusal::OutOfRange), 1);
    assert_eq!(rt; u8::from(Refusal::TooWide), 2);
    assert_eq!(rt; u8::from(Refusal::Full), 3);
    assert_eq!(rt; u8::from(Refusal::NothingUnread), 4);
    assert_eq!(rt; u8::from(Refusal::FormatsDiffer), 5);
    assert_eq!(rt; u8::from(Refusal::TooShort), 6);
    assert_eq!(rt; u8::from(Refusal::NotALevel), 7);
    assert_eq!(rt; u8::from(Refusal::NoSuchRegister), 8);
    assert_eq!(rt; u8::from(Refusal::Closed), 9);
    assert_eq!(rt; u8::from(Refusal::SyncSet), 10);
}

#[test]
fn settings_out_of_range_are_refused(rt: HostRuntime) -> Result<(), Fail> {
    assert_eq!(rt; Settings::new(2, 0).err(), Some(Refusal::OutOfRange));
    assert!(rt; Settings::new(3, 0).is_ok());
    assert_eq!(rt;
        Format::from_numbers(9, 0, 0, 1).err(),
        Some(Refusal::OutOfRange)
    );
    assert_eq!(rt;
        Format::from_numbers(8, 2, 0, 1).err(),
        Some(Refusal::OutOfRange)
    );
    assert_eq!(rt;
        Format::from_numbers(8, 0, 3, 1).err(),
        Some(Refusal::OutOfRange)
    );
    assert_eq!(rt;
        Format::from_numbers(8, 0, 0, 0).err(),
        Some(Refusal::OutOfRange)
    );
    assert_eq!(rt; Format::from_numbers(7, 1, 2, 2)?.bits(), 12);
    Ok(())
}

#[test]
fn an_address_character_has_its_parity(rt: HostRuntime) -> Result<(), Fail> {
    let format = Format::from_numbers(8, 1, 2, 1)?;
    assert_eq!(rt; format.parity_bit(0x141), 1);
    // from the last bit: stop, parity, address, data from the most significant, start
    assert_eq!(rt; format.frame(0x141), 0b1_1_1_01000001_0);
    Ok(())
}

#[test]
fn a_drawing_has_the_levels_of_its_frame(rt: HostRuntime) -> Result<(), Fail> {
    let timing = lock_port()?;
    let mut picture = [9; 70];
    assert_eq!(rt; draw(&timing, &[0x41], &mut picture), Ok(68));
    let runs = [
        (0, 7, 0),
        (7, 14, 1),
        (14, 48, 0),
        (48, 54, 1),
        (54, 61, 0),
        (61, 68, 1),
        (68, 70, 9),
    ];
    for (from, to, byte) in runs {
        for drawn in picture.iter().take(to).skip(from) {
            assert_eq!(rt; *drawn, byte);
        }
    }
    Ok(())
}

#[test]
fn a_buffer_one_byte_short_is_left_alone(rt: HostRuntime) -> Result<(), Fail> {
    let timing = lock_port()?;
    let mut picture = [9; 67];
    assert_eq!(rt;
        draw(&timing, &[0x41], &mut picture),
        Err(Refusal::TooShort)
    );
    assert_eq!(rt; picture, [9; 67]);
    Ok(())
}

#[test]
fn a_wide_character_is_refused_first(rt: HostRuntime) -> Result<(), Fail> {
    let timing = short_port(DataBits::Seven)?;
    let mut picture = [9; 4];
    assert_eq!(rt;
        draw(&timing, &[0x41, 0x80], &mut picture),
        Err(Refusal::TooWide)
    );
    assert_eq!(rt; picture, [9; 4]);
    let mut sender = BareSender::new(timing);
    assert_eq!(rt; sender.load(0x80), Err(Refusal::TooWide));
    assert_eq!(rt; sender.load(0x7f), Ok(()));
    assert_eq!(rt; sender.load(0x7f), Err(Refusal::Full));
    Ok(())
}

#[test]
fn so_many_characters_are_drawn_and_no_more(rt: HostRuntime) -> Result<(), Fail> {
    let timing = short_port(DataBits::Eight)?;
    let mut picture = vec![in rt.alloc(); 9; 4097 * 30]?;
    let characters = [0x55; 4097];
    assert_eq!(rt;
        draw(&timing, &characters, picture.as_mut_slice()),
        Err(Refusal::TooShort)
    );
    assert!(rt; picture.as_slice().first() == Some(&9));
    assert_eq!(rt;
        draw(&timing, &characters[0..4096], picture.as_mut_slice()),
        Ok(122880)
    );
    assert_eq!(rt;
        draw(&timing, &characters[0..0], picture.as_mut_slice()),
        Ok(0)
    );
    Ok(())
}

#[test]
fn a_scan_refuses_other_bytes_before_a_short_list(rt: HostRuntime) -> Result<(), Fail> {
    let timing = lock_port()?;
    let mut picture = [1; 80];
    let mut entries = [(7, 7); 2];
    assert_eq!(rt; scan(&timing, &picture[0..0], &mut entries), Ok(0));
    let _ = draw(&timing, &[0x41], &mut picture);
    assert_eq!(rt;
        scan(&timing, &picture, &mut entries[0..0]),
        Err(Refusal::TooShort)
    );
    assert_eq!(rt; scan(&timing, &picture, &mut entries), Ok(1));
    assert_eq!(rt; entries, [(0x41, 0), (7, 7)]);
    picture[79] = 2;
    assert_eq!(rt;
        scan(&timing, &picture, &mut entries[0..0]),
        Err(Refusal::NotALevel)
    );
    Ok(())
}

#[test]
fn sixty_spaces_are_a_framing_error_and_a_break(rt: HostRuntime) -> Result<(), Fail> {
    let timing = short_port(DataBits::Eight)?;
    let spaces = [0; 60];
    let mut entries = [(7, 7); 3];
    assert_eq!(rt; scan(&timing, &spaces, &mut entries), Ok(2));
    assert_eq!(rt; entries, [(0, 4), (0, 8), (7, 7)]);
    assert_eq!(rt; scan(&timing, &spaces[0..59], &mut entries), Ok(1));
    assert_eq!(rt; scan(&timing, &[0, 1, 1], &mut entries), Ok(0));
    Ok(())
}

#[test]
fn an_unread_character_is_overrun(rt: HostRuntime) -> Result<(), Fail> {
    let timing = lock_port()?;
    let mut sender = BareSender::new(timing);
    let mut receiver = BareReceiver::new(timing);
    assert_eq!(rt; receiver.read(), Err(Refusal::NothingUnread));
    for character in [0x41, 0x42] {
        assert_eq!(rt; sender.load(character), Ok(()));
        let mut levels = [Level::Mark; 68];
        send(&mut sender, &mut levels);
        hear(&mut receiver, &levels);
    }
    assert_eq!(rt; receiver.read(), Ok((0x42, 1)));
    assert_eq!(rt; receiver.read(), Err(Refusal::NothingUnread));
    Ok(())
}

// The rows as the chip's description prints them: baud rate, high and low byte of the divider, modulator.
const WATCH_CRYSTAL: [(u32, u8, u8, u8); 9] = [
    (75, 0x01, 0xb4, 0xff),
    (110, 0x01, 0x29, 0xff),
    (150, 0x00, 0xda, 0x55),
    (300, 0x00, 0x6d, 0x22),
    (600, 0x00, 0x36, 0xd5),
    (1200, 0x00, 0x1b, 0x03),
    (2400, 0x00, 0x0d, 0x6b),
    (4800, 0x00, 0x06, 0x6f),
    (9600, 0x00, 0x03, 0x4a),
];

const FAST_CLOCK: [(u32, u8, u8, u8); 13] = [
    (75, 0x36, 0x9d, 0xff),
    (110, 0x25, 0x3c, 0xff),
    (150, 0x1b, 0x4e, 0xff),
    (300, 0x0d, 0xa7, 0x00),
    (600, 0x06, 0xd3, 0xff),
    (1200, 0x03, 0x69, 0xff),
    (2400, 0x01, 0xb4, 0xff),
    (4800, 0x00, 0xda, 0x55),
    (9600, 0x00, 0x6d, 0x03),
    (19200, 0x00, 0x36, 0x6b),
    (38400, 0x00, 0x1b, 0x03),
    (76800, 0x00, 0x0d, 0x6b),
    (115200, 0x00, 0x09, 0x08),
];

fn check_rows(rt: &impl Abort, clock: u32, rows: &[(u32, u8, u8, u8)]) -> Result<(), Fail> {
    for &(baud, high, low, modulator) in rows {
        let Some(settings) = built_in(clock, baud) else {
            return Err(Fail::new("a row is missing"));
        };
        assert_eq!(rt; settings.divider(), u16::from_be_bytes([high, low]));
        assert_eq!(rt; settings.modulator(), modulator);
    }
    Ok(())
}

#[test]
fn the_table_has_the_printed_rows(rt: HostRuntime) -> Result<(), Fail> {
    check_rows(&rt, 32768, &WATCH_CRYSTAL)?;
    check_rows(&rt, 1048576, &FAST_CLOCK)?;
    assert!(rt; built_in(32768, 19200).is_none());
    assert!(rt; built_in(1048576, 14400).is_none());
    assert!(rt; built_in(1000000, 9600).is_none());
    Ok(())
}

// A queue on a queue has 33 places.
#[test]
fn a_queue_of_two_levels_fills_and_drains(rt: HostRuntime) -> Result<(), Fail> {
    let timing = short_port(DataBits::Eight)?;
    let mut sender = SendQueue::new(SendQueue::new(BareSender::new(timing)));
    let mut receiver = ReceiveQueue::new(ReceiveQueue::new(BareReceiver::new(timing)));
    for character in 0..33 {
        assert_eq!(rt; sender.load(character), Ok(()));
    }
    assert_eq!(rt; sender.load(33), Err(Refusal::Full));
    assert_eq!(rt; sender.load(0x100), Err(Refusal::TooWide));
    // the first clock takes a character on the line, and so makes room for another
    receiver.clock(sender.clock());
    assert_eq!(rt; sender.load(33), Ok(()));
    assert_eq!(rt; sender.load(34), Err(Refusal::Full));
    for _ in 0..34 * 30 {
        receiver.clock(sender.clock());
    }
    // the 34th entry found no place: it took that of the 33rd
    for character in 0..32 {
        assert_eq!(rt; receiver.read(), Ok((character, 0)));
    }
    assert_eq!(rt; receiver.read(), Ok((33, 1)));
    assert_eq!(rt; receiver.read(), Err(Refusal::NothingUnread));
    Ok(())
}

#[test]
fn the_port_counts_in_sixteenths(rt: HostRuntime) -> Result<(), Fail> {
    assert_eq!(rt; port::Settings::new(0).err(), Some(Refusal::OutOfRange));
    assert_eq!(rt; port::Settings::new(4097).err(), Some(Refusal::OutOfRange));
    let addressed = Format::from_numbers(8, 1, 0, 1)?;
    assert_eq!(rt;
        Port::timing(addressed, port::Settings::new(1)?).err(),
        Some(Refusal::OutOfRange)
    );
    let fast = Port::timing(EIGHT_N_ONE, port::Settings::new(1)?)?;
    let sender = BareSender::new(fast);
    assert_eq!(rt; sender.bit_length(0), 16);
    assert_eq!(rt; sender.bit_length(12), 16);
    let receiver = BareReceiver::new(fast);
    assert_eq!(rt; receiver.sample_clock(0), 7);
    assert_eq!(rt; receiver.sample_clock(1), 8);
    assert_eq!(rt; receiver.sample_clock(29), 153);
    assert_eq!(rt; fast.break_length, 160);
    let slow = Port::timing(EIGHT_N_ONE, port::Settings::new(4096)?)?;
    let length = slow.lengths[3];
    assert_eq!(rt; length, 65536);
    let receiver = BareReceiver::new(slow);
    assert_eq!(rt; receiver.sample_clock(0), 28672);
    assert_eq!(rt; receiver.sample_clock(2), 36864);
    assert_eq!(rt; receiver.sample_clock(27), 618496);
    assert_eq!(rt; slow.break_length, 655360);
    Ok(())
}
