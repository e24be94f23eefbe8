// Examples of what the settings sheet is made of, with values worked out apart from the library.
use super::ports::{laptop_port, lock_port};
use capture::{Fault, Pieces, look_through};
use ends::{BareReceiver, BareSender};
use line::Refusal;
use link::Rates;
use picture::{Scanner, draw};
use sheet::{Off, Tolerance, nearest_divider};
use std::test::Fail;
use words::{format_named, number_written};

// The two rates were found by trying Fit's inequalities hertz by hertz.
#[test]
fn a_laptops_clock_may_be_off_so_far(rt: HostRuntime) -> Result<(), Fail> {
    let lock = BareSender::new(lock_port()?);
    let laptop = BareReceiver::new(laptop_port()?);
    let to_laptop = Tolerance {
        sender: &lock,
        receiver: &laptop,
        rates: Rates {
            send: 32768,
            receive: 1843200,
        },
        off: Off::Receiver,
    };
    assert_eq!(rt; to_laptop.lowest(), Some(1769954));
    assert_eq!(rt; to_laptop.highest(), Some(1946741));
    let laptop = BareSender::new(laptop_port()?);
    let lock = BareReceiver::new(lock_port()?);
    let to_lock = Tolerance {
        sender: &laptop,
        receiver: &lock,
        rates: Rates {
            send: 1843200,
            receive: 32768,
        },
        off: Off::Sender,
    };
    assert_eq!(rt; to_lock.lowest(), Some(1797559));
    assert_eq!(rt; to_lock.highest(), Some(1899307));
    // at twice the rate nothing fits
    let far_off = Tolerance {
        rates: Rates {
            send: 3686400,
            receive: 32768,
        },
        ..to_lock
    };
    assert_eq!(rt; far_off.lowest(), None);
    assert_eq!(rt; far_off.highest(), None);
    Ok(())
}

#[test]
fn a_laptop_takes_the_nearest_divider(rt: HostRuntime) {
    assert_eq!(rt; nearest_divider(1843200, 4800), Ok(24));
    assert_eq!(rt; nearest_divider(1843200, 115200), Ok(1));
    // 1047.27
    assert_eq!(rt; nearest_divider(1843200, 110), Ok(1047));
    // half way between 1 and 2
    assert_eq!(rt; nearest_divider(1843200, 76800), Ok(2));
    // 3972.4, and 4266.7, which is above 4,096
    assert_eq!(rt; nearest_divider(1843200, 29), Ok(3972));
    assert_eq!(rt; nearest_divider(1843200, 27), Err(Refusal::OutOfRange));
    assert_eq!(rt; nearest_divider(1843200, 0), Err(Refusal::OutOfRange));
    assert_eq!(rt; nearest_divider(100, 115200), Err(Refusal::OutOfRange));
}

#[test]
fn formats_have_names(rt: HostRuntime) -> Result<(), Fail> {
    for (name, bits) in [(b"8N1", 10), (b"7E2", 11), (b"7N1", 9), (b"8O2", 12)] {
        let Some(format) = format_named(name) else {
            return Err(Fail::new("a name is missing"));
        };
        assert_eq!(rt; format.bits(), bits);
    }
    let Some(addressed) = format_named(b"8AE2") else {
        return Err(Fail::new("a name is missing"));
    };
    assert_eq!(rt; addressed.bits(), 13);
    assert!(rt; format_named(b"9N1").is_none());
    assert!(rt; format_named(b"8N").is_none());
    assert!(rt; format_named(b"8N1 ").is_none());
    assert!(rt; format_named(b"").is_none());
    Ok(())
}

// 41h and 42h, cut in the midst of the first.
#[test]
fn a_picture_in_two_pieces_is_scanned_as_one(rt: HostRuntime) -> Result<(), Fail> {
    let timing = lock_port()?;
    let mut picture = [1; 136];
    assert_eq!(rt; draw(&timing, &[0x41, 0x42], &mut picture), Ok(136));
    let mut scanner = Scanner::new(&timing);
    let mut entries = [(7, 7); 2];
    assert_eq!(rt; scanner.scan(&picture[0..40], &mut entries), Ok(0));
    // a refused piece changes nothing
    assert_eq!(rt;
        scanner.scan(&[0, 2], &mut entries),
        Err(Refusal::NotALevel)
    );
    assert_eq!(rt;
        scanner.scan(&picture[40..136], &mut entries[0..1]),
        Err(Refusal::TooShort)
    );
    assert_eq!(rt; scanner.scan(&picture[40..136], &mut entries), Ok(2));
    assert_eq!(rt; entries, [(0x41, 0), (0x42, 0)]);
    Ok(())
}

#[test]
fn numbers_are_decimal_or_hexadecimal(rt: HostRuntime) {
    assert_eq!(rt; number_written("24"), Some(24));
    assert_eq!(rt; number_written("6Fh"), Some(0x6f));
    assert_eq!(rt; number_written("6F"), None);
    assert_eq!(rt; number_written("h"), None);
    assert_eq!(rt; number_written("4294967295"), Some(4_294_967_295));
    assert_eq!(rt; number_written("4294967296"), None);
}

// 41h and 42h, read in pieces of 40 bytes; then a byte that is no level, read in the second piece.
#[test]
fn a_capture_is_scanned_as_it_is_read(rt: HostRuntime) -> Result<(), Fail> {
    let timing = lock_port()?;
    let mut picture = [1; 136];
    assert_eq!(rt; draw(&timing, &[0x41, 0x42], &mut picture), Ok(136));
    let mut buffer = [0; 40];
    let mut entries = [(7, 7); 40];
    let mut pieces = Pieces::new(&timing);
    let mut input = picture.as_slice();
    for (bytes, found) in [(40, 0), (40, 1), (40, 0), (16, 1), (0, 0)] {
        let Ok(piece) = pieces.next(&mut input, &mut buffer, &mut entries) else {
            return Err(Fail::new("a piece is refused"));
        };
        assert_eq!(rt; piece.bytes, bytes);
        assert_eq!(rt; piece.entries, found);
    }
    assert_eq!(rt; pieces.before(), 136);
    assert_eq!(rt; entries[0], (0x42, 0));
    let mut other = [1, 0, 2].as_slice();
    let Err(Fault::NotALevel(place)) = look_through(&mut other, &mut buffer[0..2]) else {
        return Err(Fail::new("a byte that is no level is passed over"));
    };
    assert_eq!(rt; place, 2);
    Ok(())
}
