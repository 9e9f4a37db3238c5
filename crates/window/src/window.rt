//! The window.
ghost use Rattle.std.specs.Prelude.{◌≡◌};
ghost use Rattle.window.specs.Numbers.{numbers, raise, above};
ghost use Rattle.window.specs.Laws.{AllWithin, Lookups};
ghost use Rattle.window.specs.Calls.{opened, numbers_of, checked, put_answer, put_numbers, put_store, found, seen, KeptUnless, done};

use crate::answers::StoreRefusal;
use crate::table::NumberTable;

/// Which numbers a window holds; their elements lie in a store that is lent to each call.
#[derive(Clone, Copy)]
pub struct Window {
    pub(crate) table: NumberTable,
}

impl Window {
    /// An empty window as wide as the store is long, from 1 to 64.
    pub fn new<T>(store: &[T]) -> Result<Window, StoreRefusal>
        ensures { numbers_of result ≡ opened store.now }
    {
        let width = store.len();
        if !(1..=64).contains(&width) {
            return Err(StoreRefusal::WrongLength);
        }
        Ok(Window {
            table: NumberTable {
                anchor: 0,
                marks: 0,
                width,
            },
        })
    }

    /// The lowest number that the window has room for.
    pub fn anchor(&self) -> u32
        ensures { result ≡ (numbers self.now).anchor }
    {
        self.table.anchor
    }

    /// How many numbers the window has room for.
    pub fn width(&self) -> usize
        ensures { result ≡ (numbers self.now).width }
    {
        self.table.width
    }

    /// Whether the number `n` is held.
    pub fn holds(&self, n: u32) -> bool
        ensures { result ≡ (numbers self.now).held n }
    {
        self.table.holds(n)
    }

    /// That a lent store is as long as the window is wide.
    fn check<T>(&self, store: &[T]) -> Result<(), StoreRefusal>
        ensures { result ≡ checked (numbers self.now) store.now }
    {
        if store.len() == self.width() {
            Ok(())
        } else {
            Err(StoreRefusal::WrongLength)
        }
    }

    /// Puts `x` under the number `n`; false where `n` lies outside the window or is held.
    pub fn put<T: Copy>(&mut self, store: &mut [T], n: u32, x: T) -> Result<bool, StoreRefusal>
        ensures answer { result ≡ put_answer (numbers self.old) store.old n }
        ensures numbers { numbers self.new ≡ put_numbers (numbers self.old) store.old n }
        ensures store { store.new ≡ put_store (numbers self.old) store.old n x }
        ensures kept { KeptUnless (done result) self.old self.new }
    {
        self.check(store)?;
        if !self.table.takes(n) {
            return Ok(false);
        }
        store[self.table.place(n)] = x;
        self.table = self.table.with(n);
        Ok(true)
    }

    /// The element under the number `n`, in the store itself.
    pub fn get<'a, T>(&self, store: &'a [T], n: u32) -> Result<Option<&'a T>, StoreRefusal>
        ensures { seen (λ p. p.now) result ≡ found (numbers self.now) store.now n }
    {
        self.check(store)?;
        Ok(self.table.standing(n).and_then(|place| store.get(place)))
    }

    /// Raises the anchor and drops what is below it; false where that would lower it.
    pub fn raise(&mut self, to: u32) -> bool
        ensures answer { result ≡ above (numbers self.old) to }
        ensures numbers { numbers self.new ≡ raise (numbers self.old) to }
        ensures kept { KeptUnless result self.old self.new }
    {
        if to < self.anchor() {
            return false;
        }
        self.table = self.table.raised(to);
        true
    }
}

/// Whatever a window holds lies from its anchor on and within its width.
pub fn numbers_within()
    ensures { AllWithin }
{}

/// What a put and a raise leave for a look-up, in stores of any elements.
pub fn lookups_stand<T>()
    ensures { Lookups T }
{}
