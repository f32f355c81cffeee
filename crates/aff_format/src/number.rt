// Numbers in a file.
ghost use Rattle.std.specs.Prelude.{◌≡◌, ◌+◌, ◌^◌, ◌≤◌, ◌<◌, length};
ghost use Rattle.aff_format.specs.Bytes.{part, spliced};
ghost use Rattle.aff_format.specs.Number.{be_of, be_bytes, twos_complement, real_of};

use crate::bytes;

// The number in the N bytes at a place, the high one first.
pub fn be<const N: usize>(bytes: &[u8], at: usize) -> u64
    requires width { N ≤ 8 }
    requires inside { at + N ≤ length bytes.now }
    ensures value { result ≡ be_of (part at N bytes.now) }
    ensures bound { result < 256 ^ N }
{
    let mut padded = [0; 8];
    bytes::put(&mut padded, 8 - N, &bytes[at..at + N]);
    u64::from_be_bytes(padded)
}

// Writes the width low bytes of n at a place, the high one first.
// The width has no bound here (a public function asks for no more than it did), so the bytes are taken by hand.
#[tactic(auto, using(crate::proofs::NumberLaws::put_done))]
pub fn put_be(out: &mut [u8], at: usize, width: usize, n: u64)
    requires { at + width ≤ length out.old }
    ensures { out.new ≡ spliced at (be_bytes width n) out.old }
{
    let mut rest = n;
    for k in (0..width).rev() {
        out[at + k] = (rest % 256) as u8;
        rest /= 256;
    }
}

// The signed number that 32 bits encode.
#[tactic(auto, using(crate::proofs::StdLaws::cast_signed_is))]
pub fn signed(n: u32) -> i32
    ensures { result ≡ twos_complement n }
{
    n.cast_signed()
}

// The sign bit of a double, and the bits of infinity: a pattern above these, its sign aside, is a NaN.
const SIGN: u64 = 0x8000_0000_0000_0000;

const INFINITY: u64 = 0x7ff0_0000_0000_0000;

// The double of 64 stored bits.
// By hand at a NaN pattern, which `from_bits` does not take: each is returned as one NaN, made by arithmetic, and its sign and payload are lost.
pub fn real(n: u64) -> f64
    ensures { result ≡ real_of n }
{
    if INFINITY < n % SIGN {
        return 0.0 / 0.0;
    }
    f64::from_bits(n)
}
