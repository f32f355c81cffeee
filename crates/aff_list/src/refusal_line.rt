// The line `refused N P`. By hand: std's writer into a slice says how many bytes it wrote, not which; `Starts` says which.
ghost use Rattle.std.specs.Prelude.{[], ◌∷◌, ◌++◌, ◌+◌, ◌≤◌, ◌<◌, length};
ghost use Rattle.aff_format.specs.Refusal.{number_of, place_of};
ghost use Rattle.aff_format.specs.passes.Written.{Written};
ghost use Rattle.aff_list.specs.Lister.{refusal_line};

use aff_format::{Refusal, bytes};
use itoa::Buffer;

// Stores digits and one byte after them, and returns the place after both.
fn put_field(digits: &str, byte: u8, at: usize, out: &mut [u8]) -> usize
    requires { at + length digits.now < length out.old }
    ensures { Written at (digits.now ++ (byte ∷ [])) out.old out.new result }
{
    let end = bytes::put_run(digits.as_bytes(), at, out);
    bytes::put_run(&[byte], end, out)
}

// Stores the line of a refusal, with its line feed, at the front of a block, and returns its length. A number has at most 20 digits.
pub fn put_refusal(refusal: Refusal, block: &mut [u8]) -> usize
    requires { 50 ≤ length block.old }
    ensures { Written 0 (refusal_line (number_of refusal) (place_of refusal)) block.old block.new result }
{
    let code = refusal.code();
    let mut digits = Buffer::new();
    let word = bytes::put_run(b"refused ", 0, block);
    let end = put_field(digits.format(code.number), b' ', word, block);
    put_field(digits.format(code.place), b'\n', end, block)
}
