//! Why a window refuses.
ghost use Rattle.std.specs.Prelude.{◌≡◌};
ghost use Rattle.window.specs.Refusals.{store_refusal_of};

/// Why a lent store is refused.
#[derive(Clone, Copy, PartialEq, Eq, Debug)]
pub enum StoreRefusal {
    WrongLength = 5,
}

impl StoreRefusal {
    // Stays: `as u8` works on an enum and not on a type parameter, so each enum has its own.
    /// The number of the refusal.
    pub fn number(self) -> u8
        ensures { result ≡ store_refusal_of self }
    {
        self as u8
    }
}
