// Lists the entries of the image on standard input, which follows a format byte and an edition byte (01, "Both sides of each line").
#![tactic(auto)]

ghost use Rattle.std.specs.Prelude.{◌≡◌, ◌≤◌, length, IfOk};

use accept::Room;
use layout::Refusal;
use std::fmt::{Display, Formatter};
use std::io::{Print, Read};
use std::{fmt, io};

// What is listed of an accepted image: a title, and a line for each entry.
#[derive(Drop)]
struct Listing<'a> {
    format: u32,
    edition: u32,
    image: &'a [u8],
    room: Room,
}

impl Display for Listing<'_> {
    // From one entry to the next.
    fn fmt<W: fmt::Write>(&self, f: &mut Formatter<W>) -> fmt::Result {
        let Listing {
            format,
            edition,
            image,
            room,
        } = self;
        writeln!(
            f,
            "format {format} edition {edition} entries {}",
            room.count
        )?;
        let mut p = room.start;
        let mut shut = false;
        for n in 0..room.count {
            match reader::entry_here(room.format, *edition, image, shut, p, room.end) {
                Some(s) => {
                    let entry = s.entry;
                    let key = entry.key;
                    let value = entry.value;
                    writeln!(
                        f,
                        "{n} {} {} {} {} {}",
                        entry.kind, key.place.0, key.len, value.place.0, value.len
                    )?;
                    p = s.next;
                    shut = s.shut;
                }
                None => break,
            }
        }
        Ok(())
    }
}

// What standard input asks for: at most 65,536 bytes, of which the first two are format and edition.
fn listing_of(input: &[u8]) -> Result<Listing<'_>, Refusal> {
    if 65536 < input.len() {
        return Err(Refusal::from(2));
    }
    let [format, edition, image @ ..] = input else {
        return Err(Refusal::from(16));
    };
    let format = u32::from(*format);
    let edition = u32::from(*edition);
    let room = accept::take_image(format, edition, image)?;
    Ok(Listing {
        format,
        edition,
        image,
        room,
    })
}

// Reads until the buffer is full or the input ends, and answers how many bytes of it were read. Each read is given all that is left of the buffer: of a packet it takes the whole.
fn read_full<R: Read>(reader: &mut R, buf: &mut [u8]) -> io::Result<usize>
    ensures { IfOk result (λ n. n ≤ length buf.new) }
{
    let mut done = 0;
    for _ in 0..u64::MAX {
        match reader.read(&mut buf[done..]) {
            Ok(0) => break,
            Ok(n) => done += n,
            Err(e) if e.kind() == io::ErrorKind::Interrupted => {}
            Err(e) => return Err(e),
        }
    }
    Ok(done)
}

// How many bytes of a listing are written at once.
const PIECE: usize = 4096;

// Text on its way to standard output: it is written where the piece is full, and once more at its end.
#[derive(Drop)]
struct Output<'a, P> {
    rt: &'a P,
    piece: [u8; PIECE],
    len: usize,
    // the error of the write that failed
    error: Option<io::Error>,
}

impl<P: Print> Output<'_, P> {
    // Writes what the piece holds.
    fn flush(&mut self) -> fmt::Result
        ensures { self.new.len ≡ 0 }
    {
        let held = self.len.min(PIECE);
        self.len = 0;
        match self.rt.write_all(&self.piece[..held]) {
            Ok(()) => Ok(()),
            Err(e) => {
                self.error = Some(e);
                Err(fmt::Error)
            }
        }
    }

    // One byte more; a full piece is written first.
    fn push(&mut self, b: u8) -> fmt::Result {
        if PIECE <= self.len {
            self.flush()?;
        }
        self.piece[self.len] = b;
        self.len += 1;
        Ok(())
    }
}

impl<P: Print> fmt::Write for Output<'_, P> {
    fn write_str(&mut self, s: &str) -> fmt::Result {
        for b in s.as_bytes() {
            self.push(*b)?;
        }
        Ok(())
    }
}

// Prints a listing, a piece at a time.
fn print_listing(rt: &impl Print, listing: Listing<'_>) -> io::Result<()> {
    let mut f = Formatter::new(Output {
        rt,
        piece: [0; PIECE],
        len: 0,
        error: None,
    });
    let written = f.write(listing);
    let mut out = f.into_inner();
    if written.is_ok() && out.flush().is_ok() {
        return Ok(());
    }
    match out.error {
        Some(e) => Err(e),
        None => Err(io::ErrorKind::Other.into()),
    }
}

// Room for one byte more than is listed, so that too long an input is seen.
fn main(rt: HostRuntime) -> io::Result<()> {
    let mut input = [0u8; 65537];
    let n = read_full(&mut rt.stdin(), &mut input)?;
    match listing_of(&input[..n]) {
        Ok(listing) => print_listing(&rt, listing),
        Err(r) => println!(rt; "refused {} at {}", r.number, r.place.0),
    }
}
