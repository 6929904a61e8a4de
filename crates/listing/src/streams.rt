ghost use Rattle.std.specs.Prelude.{OnOk, IfSome};
ghost use Rattle.listing.specs.Printing.{Printed};

use crate::answering::{MOST_INPUT, listing};
use std::alloc::Global;
use std::io;
use std::io::{Read, Write};

/// Reads an input to its end, or one byte past what is taken, and writes its listing in one piece.
/// It fails where reading or writing does, and for want of memory.
pub fn run<R: Read + Drop, W: Write>(alloc: Global, reader: R, writer: &mut W) -> io::Result<()>
    ensures { OnOk result (IfSome (R.remaining reader)
        (λ input. Printed input (W.contents writer.old) (W.contents writer.new))) }
{
    let mut input = Vec::new(alloc);
    reader.take(MOST_INPUT as u64 + 1).read_to_end(&mut input)?;
    let out = listing(alloc, &input)?;
    writer.write_all(&out)
}
