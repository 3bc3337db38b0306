// The spans of cells, worked out once: the span of a number is kept at the place of the number's remainder, with the number.
ghost use Rattle.std.specs.Prelude.{◌≡◌};
ghost use Rattle.cells.specs.Meaning.Size.{SizeInDomain};
ghost use Rattle.cells.specs.Inner.Key.{cell_of_key};
ghost use Rattle.cells.specs.Inner.Span.{Spans};
ghost use Rattle.point_records.specs.Inner.Kept.{Kept};

use cells::Span;

// The spans of cells of one size that were asked for. Two arrays: one, of numbers with their spans, takes some 500 instructions more to set, at each check.
// Whoever has such arrays may make one of them, and take them back.
#[derive(Drop)]
pub struct KeptSpans {
    pub size: u64,
    pub known: [u64; 128],
    pub ends: [[f32; 2]; 128],
    ghost in_domain: { SizeInDomain size },
    ghost kept: { Kept size known ends },
}

impl KeptSpans {
    // At first number 0 is at each place: its span is empty.
    pub fn new(size: u64) -> KeptSpans
        requires { SizeInDomain size }
        ensures { result.size ≡ size }
    {
        KeptSpans {
            size,
            known: [0; 128],
            ends: [[1.0, 0.0]; 128],
        }
    }

    // The span of the cells of column n, counted from the least, which is that of line n too.
    pub fn at(&mut self, n: u64) -> Span
        ensures span { Spans self.old.size (cell_of_key n).x result.lo result.hi }
        ensures same_size { self.new.size ≡ self.old.size }
    {
        let i = (n % 128) as usize;
        if self.known[i] != n {
            let s = cells::span_of(self.size, cells::cell_of_key(n).x);
            self.known[i] = n;
            self.ends[i] = [s.lo, s.hi];
        }
        let [lo, hi] = self.ends[i];
        Span { lo, hi }
    }
}
