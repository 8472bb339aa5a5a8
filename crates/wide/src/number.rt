// Numbers of two 64-bit words. Each contract is an equality of the numbers, over ℕ.
ghost use Rattle.std.specs.Prelude.{◌≡◌, ◌+◌, ◌-◌, ◌*◌, ◌^◌, ◌<◌, ◌≤◌, min, nat_le};
ghost use Rattle.wide.specs.Number.{value_of, largest};

// The number high × 2^64 + low.
#[derive(Clone, Copy, PartialEq, Eq, PartialOrd, Ord)]
pub struct Wide {
    pub high: u64,
    pub low: u64,
}

impl From<u64> for Wide {
    ghost from_gives = { λ n r. value_of r ≡ n };

    #[tactic(auto, unfolding(crate::specs::Number::value_of))]
    fn from(n: u64) -> Wide {
        Wide { high: 0, low: n }
    }
}

impl Wide {
    // The number of values that half a word has.
    const HALF: u64 = 0x1_0000_0000;

    // The whole product of two words, from the products of their halves.
    #[tactic(auto, using(crate::proofs::Products::product_laws))]
    pub fn product(a: u64, b: u64) -> Self
        ensures { value_of result ≡ a * b }
    {
        // The product of two half words fits in a word.
        if a < Self::HALF {
            if b < Self::HALF {
                return Wide {
                    high: 0,
                    low: a * b,
                };
            }
        }
        let a1 = a / Self::HALF;
        let a0 = a % Self::HALF;
        let b1 = b / Self::HALF;
        let b0 = b % Self::HALF;
        let low = a0 * b0;
        let left = a1 * b0 + low / Self::HALF;
        let right = a0 * b1 + left % Self::HALF;
        Wide {
            high: a1 * b1 + left / Self::HALF + right / Self::HALF,
            low: right % Self::HALF * Self::HALF + low % Self::HALF,
        }
    }

    #[tactic(auto, using(crate::proofs::TwoWords::sum_laws))]
    pub fn sum(self, other: Wide) -> Self
        requires { value_of self + value_of other < 2 ^ 128 }
        ensures { value_of result ≡ value_of self + value_of other }
    {
        let h = self.high;
        let l = self.low;
        let k = other.high;
        let m = other.low;
        let low = l.wrapping_add(m);
        if low < l {
            return Wide {
                high: h + k + 1,
                low,
            };
        }
        Wide { high: h + k, low }
    }

    #[tactic(auto, using(crate::proofs::TwoWords::difference_laws))]
    pub fn difference(self, other: Wide) -> Self
        requires { value_of other ≤ value_of self }
        ensures { value_of result ≡ value_of self - value_of other }
    {
        let h = self.high;
        let l = self.low;
        let k = other.high;
        let m = other.low;
        let low = l.wrapping_sub(m);
        if l < m {
            return Wide {
                high: h - k - 1,
                low,
            };
        }
        Wide { high: h - k, low }
    }

    // The number, or the largest word where it is larger.
    #[tactic(auto, using(crate::proofs::TwoWords::capped_low, crate::proofs::TwoWords::capped_high))]
    pub fn capped(self) -> u64
        ensures { result ≡ min (value_of self) largest }
    {
        let l = self.low;
        if self.high == 0 { l } else { u64::MAX }
    }
}
