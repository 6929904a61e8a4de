ghost use Rattle.std.specs.Prelude.{◌≤◌, length};

// A text as far as it is written: the bytes before a place are, and those from there on are room. A
// place in the whole text: what is written is told from the whole, which a slice of what is left
// does not show.
#[derive(Drop)]
pub(crate) struct Pen<'a> {
    text: &'a mut [u8],
    at: usize,
    ghost within: { at ≤ length text.now },
}

impl<'a> Pen<'a> {
    ghost use Rattle.std.specs.Prelude.{◌≡◌, ◌≤◌, [], length};
    ghost use Rattle.aut.specs.Pens.{written, room, joined, Wrote};

    // At the beginning of a text.
    pub(crate) fn new(text: &'a mut [u8]) -> Pen<'a>
        ensures nothing { written result ≡ [] }
        ensures room { room result ≡ text.old }
        ensures lender { result.text.ghost_name ≡ text.entry.ghost_name }
    {
        Pen { text, at: 0 }
    }

    // How much is written.
    pub(crate) fn length(&self) -> usize
        ensures { result ≡ length (written self.now) }
    {
        self.at
    }

    // Writes bytes.
    // Each call that writes asks for room, here and where lines are put together, since how much is
    // about what that call writes.
    pub(crate) fn put(&mut self, bytes: &[u8])
        requires { length bytes.now ≤ length (room self.old) }
        ensures { Wrote self.old bytes.now self.new }
    {
        let end = self.at + bytes.len();
        self.text[self.at..end].copy_from_slice(bytes);
        self.at = end;
    }

    // Writes pieces one after another.
    pub(crate) fn put_all(&mut self, pieces: &[&[u8]])
        requires { length (joined pieces.now) ≤ length (room self.old) }
        ensures { Wrote self.old (joined pieces.now) self.new }
    {
        for piece in pieces {
            self.put(piece);
        }
    }
}
