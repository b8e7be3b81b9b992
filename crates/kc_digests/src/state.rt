//! The hash values of several messages, one lane of each word for each message.
ghost use Rattle.std.specs.Prelude.{◌≡◌, ℕ, ◌<◌};
ghost use Rattle.sha2.specs.Sha256.{initial_hash_256};
ghost use Rattle.kc_digests.specs.Lanes.{state_lane};

use crate::constants::INITIAL_HASH;
use crate::vector::Vector;

/// A hash value, or the working variables of the rounds (FIPS 180-4, 6.2.2), of each message.
#[derive(Clone, Copy)]
pub(crate) struct State<V> {
    pub(crate) a: V,
    pub(crate) b: V,
    pub(crate) c: V,
    pub(crate) d: V,
    pub(crate) e: V,
    pub(crate) f: V,
    pub(crate) g: V,
    pub(crate) h: V,
}

/// The hash value before the first block (FIPS 180-4, 5.3.3), in each lane.
pub(crate) fn initial<V: Vector>() -> State<V>
    ensures { (j : ℕ) → j < V.LANES → state_lane V.word j result ≡ initial_hash_256 }
{
    State {
        a: V::splat(INITIAL_HASH[0]),
        b: V::splat(INITIAL_HASH[1]),
        c: V::splat(INITIAL_HASH[2]),
        d: V::splat(INITIAL_HASH[3]),
        e: V::splat(INITIAL_HASH[4]),
        f: V::splat(INITIAL_HASH[5]),
        g: V::splat(INITIAL_HASH[6]),
        h: V::splat(INITIAL_HASH[7]),
    }
}
