//! The functions of SHA-256 on words (FIPS 180-4, 4.1.2), for a word of each message at once.
ghost use Rattle.std.specs.Prelude.{◌≡◌, ℕ, ◌<◌};
ghost use Rattle.sha2.specs.Sha256.{big_sigma0, big_sigma1, ch, maj, round, small_sigma0, small_sigma1};
ghost use Rattle.kc_digests.specs.Lanes.{state_lane};

use crate::state::State;
use crate::vector::Vector;

#[inline(always)]
fn big_sigma0<V: Vector>(x: V) -> V
    ensures { (j : ℕ) → j < V.LANES → V.word result j ≡ big_sigma0 (V.word x j) }
{
    x.rotate_right(2)
        .xor(x.rotate_right(13))
        .xor(x.rotate_right(22))
}

#[inline(always)]
fn big_sigma1<V: Vector>(x: V) -> V
    ensures { (j : ℕ) → j < V.LANES → V.word result j ≡ big_sigma1 (V.word x j) }
{
    x.rotate_right(6)
        .xor(x.rotate_right(11))
        .xor(x.rotate_right(25))
}

#[inline(always)]
pub(crate) fn small_sigma0<V: Vector>(x: V) -> V
    ensures { (j : ℕ) → j < V.LANES → V.word result j ≡ small_sigma0 (V.word x j) }
{
    x.rotate_right(7)
        .xor(x.rotate_right(18))
        .xor(x.shift_right(3))
}

#[inline(always)]
pub(crate) fn small_sigma1<V: Vector>(x: V) -> V
    ensures { (j : ℕ) → j < V.LANES → V.word result j ≡ small_sigma1 (V.word x j) }
{
    x.rotate_right(17)
        .xor(x.rotate_right(19))
        .xor(x.shift_right(10))
}

#[inline(always)]
fn ch<V: Vector>(x: V, y: V, z: V) -> V
    ensures { (j : ℕ) → j < V.LANES → V.word result j ≡ ch (V.word x j) (V.word y j) (V.word z j) }
{
    x.and(y).xor(x.not().and(z))
}

/// One round's `x ^ y` is the next round's `y ^ z`, so it is computed once.
#[inline(always)]
fn maj<V: Vector>(x: V, y: V, z: V) -> V
    ensures { (j : ℕ) → j < V.LANES → V.word result j ≡ maj (V.word x j) (V.word y j) (V.word z j) }
{
    y.xor(x.xor(y).and(y.xor(z)))
}

#[inline(always)]
pub(crate) fn round<V: Vector>(v: State<V>, k: u32, word: V) -> State<V>
    ensures { (j : ℕ) → j < V.LANES → state_lane V.word j result ≡ round (state_lane V.word j v) k (V.word word j) }
{
    let temp1 = v
        .h
        .add(big_sigma1(v.e))
        .add(ch(v.e, v.f, v.g))
        .add(V::splat(k))
        .add(word);
    let temp2 = big_sigma0(v.a).add(maj(v.a, v.b, v.c));
    State {
        a: temp1.add(temp2),
        b: v.a,
        c: v.b,
        d: v.c,
        e: v.d.add(temp1),
        f: v.e,
        g: v.f,
        h: v.g,
    }
}
