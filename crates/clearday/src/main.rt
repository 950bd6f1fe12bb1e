#![tactic(auto)]

// Clears a day: reads a strip of tariffs and the sheets behind it from standard input, and prints the lines that they bring.
ghost use Rattle.std.specs.Prelude.{◌≡◌, ◌≤◌, IfSome, length};
ghost use Rattle.market.specs.Maxima.{listing_room};
ghost use Rattle.clearday.specs.declared.TheConstants.{WINDOW_ROOM};

use desk::{Desk, STRIP_BYTES, Step, wanted};
use listings::LISTING_ROOM;
use market::maxima::POINTS;
use std::io;
use std::io::{Read, Write};

// The bytes that any stated length of a sheet fits into.
const WINDOW_ROOM: usize = 65_535;

// An input, and the bytes that were read of it and not yet worked. They lie in a table of fixed length, so that reading needs no memory:
// `read` fills a slice, which a vector of `arrayvec` does not lend of its free room.
#[derive(Drop)]
struct Window<R: Read> {
    input: R,
    bytes: [u8; WINDOW_ROOM],
    count: usize,
    ghost within: { count ≤ WINDOW_ROOM },
}

impl<R: Read> Window<R> {
    // Nothing is read yet.
    fn new(input: R) -> Window<R> {
        Window {
            input,
            bytes: [0; WINDOW_ROOM],
            count: 0,
        }
    }

    // The bytes that it holds.
    fn held(&self) -> &[u8]
        ensures { length result.now ≡ self.now.count }
    {
        &self.bytes[..self.count]
    }

    // Reads on until the window holds the bytes wanted or is full, or the input ends.
    fn fill(&mut self, want: usize) -> io::Result<()> {
        // Each turn reads a byte at least, so these turns are enough.
        for _ in 0..WINDOW_ROOM {
            if self.count >= want || self.count >= WINDOW_ROOM {
                break;
            }
            let read = self.input.read(&mut self.bytes[self.count..])?;
            if read == 0 {
                break;
            }
            self.count += read;
        }
        Ok(())
    }

    // Reads on until the window decides the next sheet, or the input ends: first the header, and then the stated length.
    // Behind the last point one byte does.
    fn fill_sheet(&mut self, posted: u8) -> io::Result<()> {
        if posted >= POINTS {
            return self.fill(1);
        }
        self.fill(wanted(&[]))?;
        let stated = wanted(self.held());
        self.fill(stated)
    }

    // The first bytes leave the window.
    fn pass(&mut self, read: usize)
        requires { read ≤ self.old.count }
    {
        self.bytes.copy_within(read..self.count, 0);
        self.count -= read;
    }
}

// Prints what a step wrote, and answers whether the day goes on, which is all that there is to say. The bytes that the step read then leave
// the window.
fn print_step<R: Read, W: Write>(
    window: &mut Window<R>,
    output: &mut W,
    out: &[u8; LISTING_ROOM],
    step: Step,
) -> io::Result<bool>
    requires wrote { step.wrote ≤ listing_room }
    requires read { IfSome step.read (λ n. n ≤ window.old.count) }
{
    output.write_all(&out[..step.wrote])?;
    let Some(read) = step.read else {
        return Ok(false);
    };
    window.pass(read);
    Ok(true)
}

// Works the sheets, one behind the other, and prints what each brings.
fn work_sheets<R: Read, W: Write>(
    window: &mut Window<R>,
    output: &mut W,
    desk: &mut Desk,
    out: &mut [u8; LISTING_ROOM],
) -> io::Result<()> {
    for posted in 0..=POINTS {
        window.fill_sheet(posted)?;
        if window.held().is_empty() {
            break;
        }
        let Ok(step) = desk.work_sheet(window.held(), out) else {
            break;
        };
        if !print_step(window, output, out, step)? {
            break;
        }
    }
    Ok(())
}

// Works the strip, and then the sheets behind it.
fn work<R: Read, W: Write>(
    window: &mut Window<R>,
    output: &mut W,
    desk: &mut Desk,
    out: &mut [u8; LISTING_ROOM],
) -> io::Result<()> {
    window.fill(STRIP_BYTES)?;
    let Ok(step) = desk.work_strip(window.held(), out) else {
        return Ok(());
    };
    if print_step(window, output, out, step)? {
        work_sheets(window, output, desk, out)?;
    }
    Ok(())
}

// Works the input, closes the day and prints its accounts.
fn main(rt: HostRuntime) -> anyhow::Result<()> {
    let mut window = Window::new(rt.stdin());
    let mut output = rt.stdout();
    let mut out = [0; LISTING_ROOM];
    let mut desk = Desk::start();
    let worked = work(&mut window, &mut output, &mut desk, &mut out);
    let closed = desk.close(&mut out);
    worked?;
    if let Ok(wrote) = closed {
        output.write_all(&out[..wrote])?;
    }
    Ok(())
}
