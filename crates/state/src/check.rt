//! Check: a layer over any kind of state that ends each diff with its checksum.
ghost use Rattle.std.specs.Prelude.{◌≡◌, ◌+◌, ◌≤◌, ◌++◌, length, take, drop};
ghost use Rattle.state.specs.Check.{check_kind, sealed};
ghost use Rattle.state.specs.Checked.{check_reaches};
ghost use Rattle.std.proofs.Common.{rules};

use crate::checksum::internet_checksum;
use crate::fault::{DiffRefusal, StateFault};
use crate::state::State;

#[derive(Clone, Copy)]
pub struct Check<K> {
    inner: K,
}

impl<K: State> Check<K> {
    /// The layer over a state.
    pub fn over(inner: K) -> Check<K>
        ensures { result.inner ≡ inner }
    {
        Check { inner }
    }

    /// The state inside.
    pub fn inner(&self) -> &K
        ensures { result.now ≡ self.now.inner }
    {
        &self.inner
    }
}

/// Writes the checksum of the first `n` bytes behind them.
// Stays: a range is the plain form of a part of known length; `first_chunk_mut` would need an `unwrap`.
fn put_sum(out: &mut [u8], n: usize)
    requires { n + 2 ≤ length out.old }
    ensures { out.new ≡ sealed (take n out.old) ++ drop (n + 2) out.old }
{
    let (inner, rest) = out.split_at_mut(n);
    rest[..2].copy_from_slice(&internet_checksum(inner).to_be_bytes());
}

impl<K: State> State for Check<K> {
    ghost kind = { check_kind K.State.kind };

    ghost reading = { λ s. K.State.reading s.inner };

    ghost exact = { Prim.search rules };

    ghost itself = { Prim.search rules };

    ghost onward = { Prim.search rules };

    ghost reaches = { check_reaches K.State.kind K.State.reaches };

    fn start() -> Check<K> {
        Check { inner: K::start() }
    }

    fn same(&self, other: &Check<K>) -> bool {
        self.inner.same(&other.inner)
    }

    fn follows(&self, base: &Check<K>) -> bool {
        self.inner.follows(&base.inner)
    }

    fn size(&self, base: &Check<K>) -> usize {
        if !self.follows(base) {
            return 0;
        }
        (self.inner.size(&base.inner) + 2).min(65535)
    }

    fn diff(&self, base: &Check<K>, out: &mut [u8]) -> Result<usize, DiffRefusal> {
        if !self.follows(base) {
            return Err(DiffRefusal::NotFollowing);
        }
        let n = self.inner.size(&base.inner);
        if n > 65532 || out.len() < n + 2 {
            return Err(DiffRefusal::TooLong);
        }
        self.inner.diff(&base.inner, out)?;
        put_sum(out, n);
        Ok(n + 2)
    }

    #[tactic(auto, using(crate::proofs::Sealing::seal_tested))]
    fn apply(&mut self, d: &[u8]) -> Result<(), StateFault> {
        let Some((inner, sum)) = d.split_last_chunk::<2>() else {
            return Err(StateFault::BadCheck { at: 0 });
        };
        if *sum != internet_checksum(inner).to_be_bytes() {
            return Err(StateFault::BadCheck { at: inner.len() });
        }
        self.inner.apply(inner)
    }
}
