// The two 32-bit words of a 64-bit number, as a pair of registers reads.
ghost use Rattle.std.specs.Prelude.{◌≡◌};
ghost use Rattle.wide.specs.Words.{low_word, high_word};

pub fn low(n: u64) -> u32
    ensures { result ≡ low_word n }
{
    (n % 0x1_0000_0000) as u32
}

pub fn high(n: u64) -> u32
    ensures { result ≡ high_word n }
{
    (n / 0x1_0000_0000) as u32
}
