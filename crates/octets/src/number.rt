// The numbers that lie at a place of a slice. One of an octet is the base; one of twice the width is its two halves, so what holds of a
// width is proved once.
ghost use Rattle.std.specs.Prelude.{ℕ, ◌+◌, ◌*◌, ◌/◌, ◌%◌, ◌^◌, ◌<◌, ◌≤◌, ◌≡◌, length};
ghost use Rattle.octets.specs.Octets.{octets_at, le, be, put, le_bytes};
ghost use Rattle.std.proofs.Common.{rules};

use crate::{get_u8, lies_inside};

// A number of some octets.
pub trait Number: Copy + Drop {
    // how many octets it has
    ghost width: { ℕ };

    // the number itself
    ghost value: { Self → ℕ };

    // How many octets it has.
    fn width() -> usize
        ensures { result ≡ width };

    // The number at a place, all of it inside, least significant octet first.
    fn whole(s: &[u8], at: usize) -> Self
        requires { at + width ≤ length s.now }
        ensures { value result ≡ le (octets_at s.now at width) };

    // The number at a place, least significant octet first.
    fn get(s: &[u8], at: usize) -> Self
        ensures { value result ≡ le (octets_at s.now at width) };

    // The same, as half of a wider number that the end cuts.
    fn half(s: &[u8], at: usize) -> Self
        ensures { value result ≡ le (octets_at s.now at width) };

    // Puts the number at a place, all of it inside, least significant octet first.
    fn store(self, d: &mut [u8], at: usize)
        requires { at + width ≤ length d.old }
        ensures { d.new ≡ put d.old at (le_bytes width (value self)) };

    // The number of the same octets in the other order.
    fn turned(self) -> Self
        ensures { value result ≡ be (le_bytes width (value self)) };

    ghost at_most_8: { width ≤ 8 };

    // no two numbers have one value
    ghost told_apart: { (x y : Self) → value x ≡ value y → x ≡ y };
}

#[tactic(auto, unfolding(crate::specs::Octets::octets_at, crate::specs::Octets::le, crate::specs::Octets::be, crate::specs::Octets::put, crate::specs::Octets::le_bytes, crate::specs::Octets::be_bytes))]
impl Number for u8 {
    ghost width = { 1 };

    ghost value = { λ n. n };

    ghost at_most_8 = { Prim.search rules };

    ghost told_apart = { λ x y same. same };

    fn width() -> usize {
        1
    }

    fn whole(s: &[u8], at: usize) -> u8 {
        s[at]
    }

    fn get(s: &[u8], at: usize) -> u8 {
        get_u8(s, at)
    }

    fn half(s: &[u8], at: usize) -> u8 {
        get_u8(s, at)
    }

    fn store(self, d: &mut [u8], at: usize) {
        d[at] = self;
    }

    fn turned(self) -> u8 {
        self
    }
}

// A number that is two halves.
pub trait Wide: Copy + Drop {
    type Half: Number;

    // the number itself
    ghost number: { Self → ℕ };

    // The number of two halves.
    fn join(low: Self::Half, high: Self::Half) -> Self
        ensures { number result ≡ Self.Half.value low + 256 ^ Self.Half.width * Self.Half.value high };

    // The lower half.
    fn low(self) -> Self::Half
        ensures { Self.Half.value result ≡ number self % 256 ^ Self.Half.width };

    // The upper half.
    fn high(self) -> Self::Half
        ensures { Self.Half.value result ≡ number self / 256 ^ Self.Half.width };

    ghost at_most_4: { Self.Half.width ≤ 4 };

    // no two numbers have one value
    ghost told_apart: { (x y : Self) → number x ≡ number y → x ≡ y };
}

impl Wide for u16 {
    type Half = u8;

    ghost number = { λ n. n };

    ghost at_most_4 = { Prim.search rules };

    ghost told_apart = { λ x y same. same };

    fn join(low: u8, high: u8) -> u16 {
        low as u16 + high as u16 * 256
    }

    fn low(self) -> u8 {
        (self % 256) as u8
    }

    fn high(self) -> u8 {
        (self / 256) as u8
    }
}

impl Wide for u32 {
    type Half = u16;

    ghost number = { λ n. n };

    ghost at_most_4 = { Prim.search rules };

    ghost told_apart = { λ x y same. same };

    fn join(low: u16, high: u16) -> u32 {
        low as u32 + high as u32 * 65536
    }

    fn low(self) -> u16 {
        (self % 65536) as u16
    }

    fn high(self) -> u16 {
        (self / 65536) as u16
    }
}

impl Wide for u64 {
    type Half = u32;

    ghost number = { λ n. n };

    ghost at_most_4 = { Prim.search rules };

    ghost told_apart = { λ x y same. same };

    fn join(low: u32, high: u32) -> u64 {
        low as u64 + high as u64 * 4294967296
    }

    fn low(self) -> u32 {
        (self % 4294967296) as u32
    }

    fn high(self) -> u32 {
        (self / 4294967296) as u32
    }
}

impl<W: Wide> Number for W {
    ghost width = { W.Half.width + W.Half.width };

    ghost value = { W.number };

    ghost at_most_8 = { Prim.search rules };

    ghost told_apart = { W.told_apart };

    fn width() -> usize {
        W::Half::width() + W::Half::width()
    }

    #[tactic(auto, using(crate::proofs::OctetsLaws::le_parts))]
    fn whole(s: &[u8], at: usize) -> W {
        let low = W::Half::whole(s, at);
        let high = W::Half::whole(s, at + W::Half::width());
        W::join(low, high)
    }

    #[tactic(auto, using(crate::proofs::OctetsLaws::le_parts, crate::proofs::PartsLaws::past_halves))]
    fn get(s: &[u8], at: usize) -> W {
        // Of two octets a test of each costs no more.
        let width = W::Half::width();
        if 1 < width && lies_inside(s.len(), at, width + width) {
            return W::whole(s, at);
        }
        if s.len() <= at {
            return W::join(W::Half::half(s, at), W::Half::half(s, at));
        }
        let low = W::Half::half(s, at);
        let high = W::Half::half(s, at + width);
        W::join(low, high)
    }

    // Never compiled into its callers, which stay small enough to be compiled into theirs.
    #[inline(never)]
    fn half(s: &[u8], at: usize) -> W {
        W::get(s, at)
    }

    fn store(self, d: &mut [u8], at: usize) {
        self.low().store(d, at);
        self.high().store(d, at + W::Half::width());
    }

    #[tactic(auto, using(crate::proofs::PartsLaws::turned_halves))]
    fn turned(self) -> W {
        W::join(self.high().turned(), self.low().turned())
    }
}
