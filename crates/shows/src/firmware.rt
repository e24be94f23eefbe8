// A chip driven as firmware drives it, with each access to a register printed.
use super::registers::Register;
use chip::address::{UBR0, UBR1, UCTL, UMCTL, URCTL, URXBUF, UTCTL, UTXBUF};
use chip::{Chip, Interrupts};
use line::Level;
use lock::{CLOCK_HERTZ, DIVIDER, MODULATOR};
use std::io;

// UCTL of a chip that is held in reset, and then released: 8 data bits, one stop bit, no parity, and Listen.
const HELD: u8 = 0x19;

const RUNNING: u8 = 0x18;

const CHARACTER: u8 = b'A';

// More clocks than a frame has.
const PATIENCE: u32 = 100;

// A chip, and how many clocks it has had.
#[derive(Clone, Copy)]
struct Firmware {
    chip: Chip,
    clocks: u32,
}

impl Firmware {
    fn write(&mut self, rt: &impl Print, address: u16, value: u8) -> io::Result<()> {
        let answer = self.chip.write(address, value);
        let register = Register { address, value };
        print!(rt; "  {:>5}  write   {register}", self.clocks)?;
        match answer {
            Ok(()) => println!(rt; ""),
            Err(refusal) => println!(rt; "; refused with {}", u8::from(refusal)),
        }
    }

    fn read(&mut self, rt: &impl Print, address: u16) -> io::Result<()> {
        match self.chip.read(address) {
            Ok(value) => {
                let register = Register { address, value };
                println!(rt; "  {:>5}  read    {register}", self.clocks)
            }
            Err(refusal) => println!(rt;
                "  {:>5}  read    {address:02X}h; refused with {}",
                self.clocks,
                u8::from(refusal)
            ),
        }
    }

    fn clock(&mut self) {
        let _ = self.chip.clock(Level::Mark);
        self.clocks = self.clocks.saturating_add(1);
    }

    // The two interrupt flags.
    fn poll(&self, rt: &impl Print) -> io::Result<()> {
        let flags = self.chip.interrupts();
        let sent = u8::from(flags.utxifg);
        let received = u8::from(flags.urxifg);
        println!(rt;
            "  {:>5}  flags   UTXIFG {sent}, URXIFG {received}",
            self.clocks
        )
    }

    // Clocks until the interrupt flags are as wanted.
    fn wait_until<F: Fn(Interrupts) -> bool>(&mut self, wanted: F)
        requires { F.IsAlwaysCallable wanted }
    {
        for _ in 0..PATIENCE {
            if wanted(self.chip.interrupts()) {
                return;
            }
            self.clock();
        }
    }
}

// Sets a chip up as the lock does, releases it, and lets it hear a character of its own.
pub fn drive(rt: &impl Print) -> io::Result<()> {
    println!(rt;
        "Chip:    the lock's port with Listen, clocked at {CLOCK_HERTZ} Hz: it hears what it sends"
    )?;
    println!(rt; "  clock  access  register    value  meaning")?;
    let mut firmware = Firmware {
        chip: Chip::power_up(),
        clocks: 0,
    };
    let [low, high] = DIVIDER.to_le_bytes();
    firmware.read(rt, UCTL)?;
    firmware.write(rt, UCTL, HELD)?;
    firmware.write(rt, UMCTL, MODULATOR)?;
    firmware.write(rt, UBR0, low)?;
    firmware.write(rt, UBR1, high)?;
    firmware.write(rt, UCTL, RUNNING)?;
    firmware.write(rt, UBR0, low)?;
    firmware.poll(rt)?;
    firmware.write(rt, UTXBUF, CHARACTER)?;
    firmware.read(rt, UTCTL)?;
    firmware.poll(rt)?;
    // the byte in UTXBUF has left for the line
    firmware.wait_until(|flags| flags.utxifg);
    firmware.poll(rt)?;
    // a byte has been loaded into URXBUF
    firmware.wait_until(|flags| flags.urxifg);
    firmware.poll(rt)?;
    firmware.read(rt, URCTL)?;
    firmware.read(rt, URXBUF)?;
    firmware.poll(rt)
}
