// What order_text::digit says of each character. A table is read faster than the ranges are tested, and is made once for a piece.
ghost use Rattle.std.specs.Prelude.{◌≡◌};
ghost use Rattle.std.proofs.Props.{props};
ghost use Rattle.order_text.specs.Digits.{digit_of, byte_in};
ghost use Rattle.order_run.specs.Table.{Table};

#[derive(Drop)]
pub(crate) struct DigitTable {
    of: [u8; 256],
    ghost is: { Table of } by { Prim.hlevel props },
}

impl DigitTable {
    pub(crate) fn new() -> DigitTable {
        let mut of = [0; 256];
        for (c, digit) in of.iter_mut().enumerate() {
            *digit = order_text::digit(c as u8);
        }
        DigitTable { of }
    }

    fn digit(&self, c: u8) -> u8
        ensures { result ≡ digit_of c }
    {
        self.of[c as usize]
    }

    // order_text::byte_of, by the table.
    pub(crate) fn byte(&self, a: u8, b: u8) -> Option<u8>
        ensures { result ≡ byte_in a b }
    {
        let high = self.digit(a);
        let low = self.digit(b);
        if 15 < high || 15 < low {
            return None;
        }
        Some(16 * high + low)
    }
}
