//! Bytes written one after the other into lent memory.

ghost use Rattle.std.specs.Prelude.{◌≡◌, ◌*◌, length};
ghost use Rattle.loops.specs.Lists.{flat};
ghost use Rattle.writer.specs.Wrote.{HasRoom, Wrote};

/// Lent memory, and the place that is written next.
#[derive(Drop)]
pub struct Writer<'a> {
    pub out: &'a mut [u8],
    pub at: usize,
}

impl Writer<'_> {
    /// Writes these bytes.
    pub fn bytes(&mut self, src: &[u8])
        requires { HasRoom src.now self.old }
        ensures { Wrote src.now self.old self.new }
    {
        let from = self.at;
        let to = from + src.len();
        self.out[from..to].copy_from_slice(src);
        self.at = to;
    }

    /// Writes the same bytes n times.
    pub fn repeated(&mut self, n: usize, src: &[u8])
        requires { HasRoom (flat n (λ i. src.now)) self.old }
        ensures { Wrote (flat n (λ i. src.now)) self.old self.new }
    {
        for _ in 0..n {
            self.bytes(src);
        }
    }
}
