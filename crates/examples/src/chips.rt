// Examples of the chip's registers, with values worked out by hand.
use chip::Chip;
use chip::address::{UBR0, UBR1, UCTL, UMCTL, URCTL, URXBUF, UTCTL, UTXBUF};
use line::{Level, Refusal};
use std::process::Abort;
use std::test::Fail;

// UCTL: 8 data bits; these and an address bit; these and even parity; 8 data bits with Listen.
const PLAIN: u8 = 0x10;

const ADDRESSED: u8 = 0x12;

const EVEN: u8 = 0xd0;

const LISTENING: u8 = 0x18;

// Frames of 41h from the stop bit down to the start bit, for these formats.
const CLEAN: [u8; 10] = [1, 0, 1, 0, 0, 0, 0, 0, 1, 0];

const NO_STOP: [u8; 10] = [0, 0, 1, 0, 0, 0, 0, 0, 1, 0];

// 41h has two ones, so an even parity bit is 0.
const WRONG_PARITY: [u8; 11] = [1, 1, 0, 1, 0, 0, 0, 0, 0, 1, 0];

// A chip released with divider 3, modulator 0 and this UCTL.
fn released(uctl: u8) -> Result<Chip, Refusal> {
    let mut chip = Chip::power_up();
    chip.write(UBR0, 3)?;
    chip.write(UCTL, uctl)?;
    Ok(chip)
}

// Clocks the chip with a line at one level.
fn hold(chip: &mut Chip, level: Level, clocks: usize) {
    for _ in 0..clocks {
        let _ = chip.clock(level);
    }
}

fn idle(chip: &mut Chip, clocks: usize) {
    hold(chip, Level::Mark, clocks);
}

// Gives the chip a frame, the last bit of the list first, three clocks for each bit, and then a bit of mark.
fn give(chip: &mut Chip, frame: &[u8]) {
    for bit in frame.iter().rev() {
        hold(chip, Level::from_digit(u16::from(*bit)), 3);
    }
    idle(chip, 3);
}

#[test]
fn registers_at_power_up(rt: HostRuntime) {
    let mut chip = Chip::power_up();
    assert_eq!(rt; chip.read(UCTL), Ok(0x01));
    assert_eq!(rt; chip.read(UTCTL), Ok(0x01));
    for address in URCTL..=UTXBUF {
        assert_eq!(rt; chip.read(address), Ok(0));
    }
    assert!(rt; chip.interrupts().utxifg);
    assert!(rt; !chip.interrupts().urxifg);
    assert_eq!(rt; chip.clock(Level::Space), Level::Mark);
}

#[test]
fn each_refusal_of_a_register(rt: HostRuntime) {
    let mut chip = Chip::power_up();
    assert_eq!(rt; chip.write(0x78, 0), Err(Refusal::NoSuchRegister));
    assert_eq!(rt; chip.read(0x78), Err(Refusal::NoSuchRegister));
    assert_eq!(rt; chip.read(0x6f), Err(Refusal::NoSuchRegister));
    // SYNC before the divider, which is still 0
    assert_eq!(rt; chip.write(UCTL, 0x04), Err(Refusal::SyncSet));
    assert_eq!(rt; chip.write(UCTL, 0x00), Err(Refusal::OutOfRange));
    assert_eq!(rt; chip.write(UBR0, 2), Ok(()));
    assert_eq!(rt; chip.write(UCTL, 0x00), Err(Refusal::OutOfRange));
    assert_eq!(rt; chip.write(UTXBUF, 0x41), Err(Refusal::Closed));
    assert_eq!(rt; chip.write(UBR0, 3), Ok(()));
    assert_eq!(rt; chip.write(UCTL, PLAIN), Ok(()));
    assert_eq!(rt; chip.write(UMCTL, 0xff), Err(Refusal::Closed));
    assert_eq!(rt; chip.write(UBR0, 6), Err(Refusal::Closed));
    assert_eq!(rt; chip.write(UBR1, 6), Err(Refusal::Closed));
    assert_eq!(rt; chip.write(UCTL, 0x04), Err(Refusal::Closed));
    assert_eq!(rt; chip.write(URXBUF, 0), Err(Refusal::Closed));
    assert_eq!(rt; chip.write(UTXBUF, 0x41), Ok(()));
    assert_eq!(rt; chip.write(UTXBUF, 0x42), Err(Refusal::Full));
    assert_eq!(rt; chip.read(UTXBUF), Ok(0x41));
    assert_eq!(rt; chip.read(UBR0), Ok(3));
    // with SWRST set UCTL is open, and then the rest of it too
    assert_eq!(rt; chip.write(UCTL, 0xff), Ok(()));
    assert_eq!(rt; chip.read(UCTL), Ok(0xff));
    assert_eq!(rt; chip.write(UBR1, 6), Ok(()));
}

// 6 and 6Fh: bits of 7 7 7 7 6 7 7 6 7 7 clocks.
#[test]
fn a_byte_is_sent_as_its_frame(rt: HostRuntime) -> Result<(), Fail> {
    let mut chip = Chip::power_up();
    chip.write(UMCTL, 0x6f)?;
    chip.write(UBR0, 6)?;
    chip.write(UCTL, PLAIN)?;
    assert_eq!(rt; chip.clock(Level::Mark), Level::Mark);
    chip.write(UTXBUF, 0x41)?;
    assert!(rt; !chip.interrupts().utxifg);
    assert_eq!(rt; chip.read(UTCTL), Ok(0x00));
    let runs = [
        (7, Level::Space),
        (7, Level::Mark),
        (34, Level::Space),
        (6, Level::Mark),
        (7, Level::Space),
    ];
    for (clocks, level) in runs {
        for _ in 0..clocks {
            assert_eq!(rt; chip.clock(Level::Mark), level);
            assert!(rt; chip.interrupts().utxifg);
        }
    }
    idle(&mut chip, 6);
    assert_eq!(rt; chip.read(UTCTL), Ok(0x00));
    idle(&mut chip, 1);
    assert_eq!(rt; chip.read(UTCTL), Ok(0x01));
    Ok(())
}

#[test]
fn a_byte_sent_with_listen_comes_back(rt: HostRuntime) -> Result<(), Fail> {
    let mut chip = released(LISTENING)?;
    chip.write(UTXBUF, 0xa5)?;
    // the line stays at space meanwhile, which nobody hears
    hold(&mut chip, Level::Space, 31);
    assert!(rt; chip.interrupts().urxifg);
    assert_eq!(rt; chip.read(URCTL), Ok(0x00));
    assert_eq!(rt; chip.read(URXBUF), Ok(0xa5));
    assert!(rt; !chip.interrupts().urxifg);
    Ok(())
}

#[test]
fn two_bytes_unread_are_an_overrun(rt: HostRuntime) -> Result<(), Fail> {
    let mut chip = released(PLAIN)?;
    give(&mut chip, &CLEAN);
    assert_eq!(rt; chip.read(URCTL), Ok(0x00));
    give(&mut chip, &CLEAN);
    assert_eq!(rt; chip.read(URCTL), Ok(0x21));
    // cleared by a 0, and not set by a 1
    assert_eq!(rt; chip.write(URCTL, 0xd0), Ok(()));
    assert_eq!(rt; chip.read(URCTL), Ok(0x00));
    give(&mut chip, &CLEAN);
    assert_eq!(rt; chip.read(URCTL), Ok(0x21));
    assert_eq!(rt; chip.read(URXBUF), Ok(0x41));
    assert_eq!(rt; chip.read(URCTL), Ok(0x00));
    Ok(())
}

// Reads URCTL as a flag and RXERR, after the flag was told once and cleared, by a 0 or by reading URXBUF.
fn cleared_both_ways(rt: &impl Abort, uctl: u8, frame: &[u8], flag: u8) -> Result<(), Fail> {
    let told = flag | 0x01;
    let mut chip = released(uctl)?;
    give(&mut chip, frame);
    assert_eq!(rt; chip.read(URCTL), Ok(told));
    assert!(rt; !chip.interrupts().urxifg);
    // a 1 leaves it, a 0 clears it
    chip.write(URCTL, 0xf0)?;
    assert_eq!(rt; chip.read(URCTL), Ok(told));
    chip.write(URCTL, !flag & 0xf0)?;
    assert_eq!(rt; chip.read(URCTL), Ok(0x00));
    give(&mut chip, frame);
    assert_eq!(rt; chip.read(URCTL), Ok(told));
    assert_eq!(rt; chip.read(URXBUF), Ok(0x00));
    assert_eq!(rt; chip.read(URCTL), Ok(0x00));
    Ok(())
}

#[test]
fn error_flags_are_cleared_by_a_zero_and_by_a_read(rt: HostRuntime) -> Result<(), Fail> {
    cleared_both_ways(&rt, PLAIN, &NO_STOP, 0x80)?;
    cleared_both_ways(&rt, EVEN, &WRONG_PARITY, 0x40)?;
    // the break comes after a framing error
    cleared_both_ways(&rt, PLAIN, &[0; 20], 0x90)?;
    let mut chip = released(PLAIN)?;
    give(&mut chip, &[0; 20]);
    chip.write(URCTL, 0x10)?;
    assert_eq!(rt; chip.read(URCTL), Ok(0x11));
    chip.write(URCTL, 0x80)?;
    assert_eq!(rt; chip.read(URCTL), Ok(0x00));
    Ok(())
}

#[test]
fn seven_bit_characters_are_cut(rt: HostRuntime) -> Result<(), Fail> {
    let mut chip = released(0x08)?;
    chip.write(UTXBUF, 0xc1)?;
    assert_eq!(rt; chip.read(UTXBUF), Ok(0x41));
    idle(&mut chip, 27);
    assert_eq!(rt; chip.read(UTCTL), Ok(0x01));
    assert_eq!(rt; chip.read(URXBUF), Ok(0x41));
    Ok(())
}

#[test]
fn an_address_passes_where_only_addresses_count(rt: HostRuntime) -> Result<(), Fail> {
    let mut chip = released(0x1a)?;
    chip.write(URCTL, 0x04)?;
    // a data byte first, which has no effect
    chip.write(UTXBUF, 0x42)?;
    idle(&mut chip, 40);
    assert!(rt; !chip.interrupts().urxifg);
    assert_eq!(rt; chip.read(URXBUF), Ok(0x00));
    // TXWake makes the next byte an address, and no further one
    chip.write(UTCTL, 0x04)?;
    assert_eq!(rt; chip.read(UTCTL), Ok(0x05));
    chip.write(UTXBUF, 0x41)?;
    assert_eq!(rt; chip.read(UTCTL), Ok(0x00));
    idle(&mut chip, 40);
    assert!(rt; chip.interrupts().urxifg);
    assert_eq!(rt; chip.read(URCTL), Ok(0x06));
    assert_eq!(rt; chip.read(URXBUF), Ok(0x41));
    assert_eq!(rt; chip.read(URCTL), Ok(0x04));
    Ok(())
}

// URXEIE, URXWIE, whether the character has an error, whether it is an address, and whether URXIFG is then set.
// Bools and no struct, so that each row reads as the table's.
const ENABLES: [(bool, bool, bool, bool, bool); 16] = [
    (false, false, true, false, false),
    (false, false, true, true, false),
    (false, true, true, false, false),
    (false, true, true, true, false),
    (false, false, false, false, true),
    (false, false, false, true, true),
    (false, true, false, false, false),
    (false, true, false, true, true),
    (true, false, false, false, true),
    (true, false, false, true, true),
    (true, false, true, false, true),
    (true, false, true, true, true),
    (true, true, false, false, false),
    (true, true, true, false, false),
    (true, true, false, true, true),
    (true, true, true, true, true),
];

#[test]
fn the_enables_let_through_what_their_table_says(rt: HostRuntime) -> Result<(), Fail> {
    for (urxeie, urxwie, error, address, set) in ENABLES {
        let mut chip = released(ADDRESSED)?;
        chip.write(URCTL, u8::from(urxeie) << 3 | u8::from(urxwie) << 2)?;
        let stop = u8::from(!error);
        let wake = u8::from(address);
        give(&mut chip, &[stop, wake, 0, 1, 0, 0, 0, 0, 0, 1, 0]);
        assert_eq!(rt; chip.interrupts().urxifg, set);
        assert_eq!(rt; chip.read(URXBUF), Ok(if set { 0x41 } else { 0 }));
    }
    Ok(())
}

#[test]
fn reset_clears_the_flags_and_keeps_them_clear(rt: HostRuntime) -> Result<(), Fail> {
    let mut chip = released(ADDRESSED)?;
    chip.write(UTCTL, 0xff)?;
    give(&mut chip, &[0, 1, 0, 1, 0, 0, 0, 0, 0, 1, 0]);
    assert_eq!(rt; chip.read(URCTL), Ok(0x81));
    chip.write(UTXBUF, 0x41)?;
    chip.write(UTCTL, 0xff)?;
    assert_eq!(rt; chip.read(UTCTL), Ok(0xfe));
    chip.write(UCTL, 0x13)?;
    assert_eq!(rt; chip.read(URCTL), Ok(0x00));
    assert_eq!(rt; chip.read(UTCTL), Ok(0xfb));
    assert!(rt; chip.interrupts().utxifg);
    chip.write(UTCTL, 0x04)?;
    chip.write(URCTL, 0xf2)?;
    assert_eq!(rt; chip.read(UTCTL), Ok(0x01));
    assert_eq!(rt; chip.read(URCTL), Ok(0x00));
    assert_eq!(rt; chip.clock(Level::Space), Level::Mark);
    Ok(())
}

// With bits of 3 clocks 60 spaces are a frame of zeros with no stop bit and then a break; 59 are the frame alone.
#[test]
fn a_break_is_loaded_where_erroneous_bytes_are(rt: HostRuntime) -> Result<(), Fail> {
    let mut chip = released(PLAIN)?;
    chip.write(URCTL, 0x08)?;
    hold(&mut chip, Level::Space, 59);
    assert!(rt; chip.interrupts().urxifg);
    assert_eq!(rt; chip.read(URCTL), Ok(0x89));
    // the break finds the frame unread
    hold(&mut chip, Level::Space, 1);
    assert_eq!(rt; chip.read(URCTL), Ok(0xb9));
    assert_eq!(rt; chip.read(URXBUF), Ok(0x00));
    assert_eq!(rt; chip.read(URCTL), Ok(0x08));
    Ok(())
}

#[test]
fn a_break_is_told_and_not_loaded_where_erroneous_bytes_are_not(
    rt: HostRuntime,
) -> Result<(), Fail> {
    let mut chip = released(PLAIN)?;
    give(&mut chip, &CLEAN);
    assert_eq!(rt; chip.read(URXBUF), Ok(0x41));
    hold(&mut chip, Level::Space, 60);
    assert!(rt; !chip.interrupts().urxifg);
    assert_eq!(rt; chip.read(URCTL), Ok(0x91));
    assert_eq!(rt; chip.read(URXBUF), Ok(0x41));
    // it has no address bit, so it has no effect where only addresses count
    let mut chip = released(ADDRESSED)?;
    chip.write(URCTL, 0x0c)?;
    hold(&mut chip, Level::Space, 70);
    assert_eq!(rt; chip.read(URCTL), Ok(0x0c));
    Ok(())
}

#[test]
fn the_wake_bit_of_a_byte_received(rt: HostRuntime) -> Result<(), Fail> {
    let address = [1, 1, 0, 1, 0, 0, 0, 0, 0, 1, 0];
    let data = [1, 0, 0, 1, 0, 0, 0, 0, 0, 1, 0];
    let mut chip = released(ADDRESSED)?;
    give(&mut chip, &address);
    assert_eq!(rt; chip.read(URCTL), Ok(0x02));
    // a 1 changes nothing, a 0 clears it, and a 1 does not set it
    chip.write(URCTL, 0x02)?;
    assert_eq!(rt; chip.read(URCTL), Ok(0x02));
    chip.write(URCTL, 0x00)?;
    assert_eq!(rt; chip.read(URCTL), Ok(0x00));
    chip.write(URCTL, 0x02)?;
    assert_eq!(rt; chip.read(URCTL), Ok(0x00));
    assert_eq!(rt; chip.read(URXBUF), Ok(0x41));
    // a data byte after an address, which is still unread
    give(&mut chip, &address);
    give(&mut chip, &data);
    assert_eq!(rt; chip.read(URCTL), Ok(0x21));
    // without an address bit all bytes count
    let mut chip = released(PLAIN)?;
    chip.write(URCTL, 0x04)?;
    give(&mut chip, &CLEAN);
    assert!(rt; chip.interrupts().urxifg);
    assert_eq!(rt; chip.read(URCTL), Ok(0x04));
    Ok(())
}

// 41h has two ones. After its 8 data bits a frame has an even parity bit of 0 and two stop bits, or an odd one of 1 and one stop bit; so
// the next frame begins at bit 12, or at bit 11.
#[test]
fn the_format_counts_from_release(rt: HostRuntime) -> Result<(), Fail> {
    let frames = [
        (0xf0, [0, 1, 0, 0, 0, 0, 0, 1, 0, 0, 1, 1, 0]),
        (0x90, [0, 1, 0, 0, 0, 0, 0, 1, 0, 1, 1, 0, 1]),
    ];
    for (uctl, bits) in frames {
        let mut chip = released(uctl)?;
        chip.write(UTXBUF, 0x41)?;
        idle(&mut chip, 1);
        chip.write(UTXBUF, 0x41)?;
        idle(&mut chip, 1);
        for bit in bits {
            // the third clock of each bit
            assert_eq!(rt; chip.clock(Level::Mark), Level::from_digit(bit));
            idle(&mut chip, 2);
        }
    }
    Ok(())
}

#[test]
fn reset_ends_a_frame_and_the_divider_counts_from_release(rt: HostRuntime) -> Result<(), Fail> {
    let mut chip = released(PLAIN)?;
    chip.write(UTXBUF, 0x41)?;
    assert_eq!(rt; chip.clock(Level::Mark), Level::Space);
    chip.write(UTXBUF, 0x42)?;
    chip.write(UCTL, 0x11)?;
    assert!(rt; chip.interrupts().utxifg);
    assert_eq!(rt; chip.read(UTCTL), Ok(0x01));
    assert_eq!(rt; chip.clock(Level::Mark), Level::Mark);
    // both bytes are gone; UTXBUF keeps the last one, and takes the next after release
    assert_eq!(rt; chip.write(UTXBUF, 0x43), Err(Refusal::Closed));
    assert_eq!(rt; chip.read(UTXBUF), Ok(0x42));
    chip.write(UBR0, 0x00)?;
    chip.write(UBR1, 0x01)?;
    chip.write(UCTL, PLAIN)?;
    assert_eq!(rt; chip.clock(Level::Mark), Level::Mark);
    // bits of 256 clocks: a start bit, and a data bit of 1
    chip.write(UTXBUF, 0x01)?;
    for _ in 0..256 {
        assert_eq!(rt; chip.clock(Level::Mark), Level::Space);
    }
    assert_eq!(rt; chip.clock(Level::Mark), Level::Mark);
    Ok(())
}
