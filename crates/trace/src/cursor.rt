//! A cursor over a line, which reads what stands at the front and goes on behind it.
ghost use Rattle.std.specs.Prelude.{◌≡◌, ◌+◌, ◌<◌, ◌≤◌, length, None};
ghost use Rattle.trace.specs.Fronts.{answered, byte_front, digit_front, letter_front, number_front, space_front, value_front};

#[derive(Drop)]
pub(crate) struct Cursor<'a> {
    pub(crate) rest: &'a [u8],
}

impl Cursor<'_> {
    /// The decimal digit at the front.
    pub(crate) fn digit(&mut self) -> Option<u32>
        ensures reads { answered result self.new.rest.now ≡ digit_front self.old.rest.now }
        ensures stays { result ≡ None → self.new ≡ self.old }
    {
        let (b, rest) = self.rest.split_first()?;
        let digit = char::from(*b).to_digit(10)?;
        self.rest = rest;
        Some(digit)
    }

    /// The number at the front: decimal, of 32 bits, and with no leading zero.
    pub(crate) fn number(&mut self) -> Option<u32>
        ensures { answered result self.new.rest.now ≡ number_front self.old.rest.now }
    {
        let mut value = self.digit()?;
        if value == 0 {
            return Some(0);
        }
        // Stays: nothing is counted; `from_fn` with `try_fold` was tried, and that such an iterator ends can't be had; cutting the digits off first takes three times the lines.
        while let Some(d) = self.digit() {
            value = value.checked_mul(10)?.checked_add(d)?;
        }
        Some(value)
    }

    /// The byte at the front.
    pub(crate) fn byte(&mut self) -> Option<u8>
        ensures { answered result self.new.rest.now ≡ byte_front self.old.rest.now }
    {
        self.rest.split_off_first().copied()
    }

    /// A space at the front.
    fn space(&mut self) -> Option<()>
        ensures { answered result self.new.rest.now ≡ space_front self.old.rest.now }
    {
        (self.byte()? == b' ').then_some(())
    }

    /// The letter behind a space.
    pub(crate) fn letter(&mut self) -> Option<u8>
        ensures { answered result self.new.rest.now ≡ letter_front self.old.rest.now }
    {
        self.space()?;
        self.byte()
    }

    /// The number behind a space.
    pub(crate) fn value(&mut self) -> Option<u32>
        ensures { answered result self.new.rest.now ≡ value_front self.old.rest.now }
    {
        self.space()?;
        self.number()
    }
}
