// MD5, the message digest of RFC 1321. `specs/Md5.antt` defines it; `md5`, at the end, is the one public function.
#![tactic(auto)]

ghost use Rattle.std.specs.Prelude.{◌≡◌, ◌+◌, ◌*◌, ◌/◌, ◌<◌, ◌≤◌, ◌++◌, length, take, drop};
ghost use Rattle.aff_md5.specs.Md5.{word as word_of, turn as turned, mix as mix_of, step as step_of, compress as compressed, le, zeros, pad, all_blocks, output as output_of, md5 as md5_of};
ghost use Rattle.aff_md5.specs.passes.WholeBlocks.{whole};

// The four words A, B, C and D.
#[derive(Clone, Copy, Debug, PartialEq, Eq)]
struct State {
    a: u32,
    b: u32,
    c: u32,
    d: u32,
}

// The three tables of the 64 steps, by step number.
// Not one of structs: RFC 1321 and its definition here have a list each (`additive`, `shifts`, `word_order`).

// The additive constants.
static T: [u32; 64] = [
    3614090360, 3905402710, 606105819, 3250441966, 4118548399, 1200080426, 2821735955, 4249261313,
    1770035416, 2336552879, 4294925233, 2304563134, 1804603682, 4254626195, 2792965006, 1236535329,
    4129170786, 3225465664, 643717713, 3921069994, 3593408605, 38016083, 3634488961, 3889429448,
    568446438, 3275163606, 4107603335, 1163531501, 2850285829, 4243563512, 1735328473, 2368359562,
    4294588738, 2272392833, 1839030562, 4259657740, 2763975236, 1272893353, 4139469664, 3200236656,
    681279174, 3936430074, 3572445317, 76029189, 3654602809, 3873151461, 530742520, 3299628645,
    4096336452, 1126891415, 2878612391, 4237533241, 1700485571, 2399980690, 4293915773, 2240044497,
    1873313359, 4264355552, 2734768916, 1309151649, 4149444226, 3174756917, 718787259, 3951481745,
];

// The shift amounts, in hexadecimal, a round in each line.
static SHIFTS: [u8; 64] = *b"\
    \x07\x0c\x11\x16\x07\x0c\x11\x16\x07\x0c\x11\x16\x07\x0c\x11\x16\
    \x05\x09\x0e\x14\x05\x09\x0e\x14\x05\x09\x0e\x14\x05\x09\x0e\x14\
    \x04\x0b\x10\x17\x04\x0b\x10\x17\x04\x0b\x10\x17\x04\x0b\x10\x17\
    \x06\x0a\x0f\x15\x06\x0a\x0f\x15\x06\x0a\x0f\x15\x06\x0a\x0f\x15";

// The numbers of the words, in hexadecimal, a round in each line.
static WORDS: [u8; 64] = *b"\
    \x00\x01\x02\x03\x04\x05\x06\x07\x08\x09\x0a\x0b\x0c\x0d\x0e\x0f\
    \x01\x06\x0b\x00\x05\x0a\x0f\x04\x09\x0e\x03\x08\x0d\x02\x07\x0c\
    \x05\x08\x0b\x0e\x01\x04\x07\x0a\x0d\x00\x03\x06\x09\x0c\x0f\x02\
    \x00\x07\x0e\x05\x0c\x03\x0a\x01\x08\x0f\x06\x0d\x04\x0b\x02\x09";

// ---- Bytes.

// Writes s into b from index `at` on. A function of its own, so that one contract says what `copy_from_slice` leaves at a part of an array.
// Not `bytes::put` of aff_format: aff_md5 stands on no other crate.
fn put(b: &mut [u8], at: usize, s: &[u8])
    requires { at + length s.now ≤ length b.old }
    ensures { b.new ≡ take at b.old ++ (s.now ++ drop (at + length s.now) b.old) }
{
    b[at..at + s.len()].copy_from_slice(s);
}

// Writes x into b from index `at` on, the low byte first. The bytes of b before `at` stay; nothing is said of those after x.
fn put_word(b: &mut [u8], at: usize, x: u32)
    requires { at + 4 ≤ length b.old }
    ensures { take (at + 4) b.new ≡ take at b.old ++ le 4 x }
{
    put(b, at, &x.to_le_bytes());
}

// ---- A block.

// Word k of the block m.
// A block is a part of the message, with its length as a clause: one loop takes the blocks of two parts in turn (`block`).
fn word(m: &[u8], k: usize) -> u32
    requires block { length m.now ≡ 64 }
    requires index { k < 16 }
    ensures { result ≡ word_of m.now k }
{
    let i = 4 * k;
    u32::from_le_bytes([m[i], m[i + 1], m[i + 2], m[i + 3]])
}

// What a step makes of v, with f the round's function of v, x a word of the block, s a shift and t an additive constant.
#[tactic(auto, unfolding(crate::specs::Md5::turn))]
fn turn(v: State, f: u32, x: u32, s: u32, t: u32) -> State
    requires least { 0 < s }
    requires most { s < 32 }
    ensures { result ≡ turned v f x s t }
{
    let sum = v.a.wrapping_add(f).wrapping_add(x).wrapping_add(t);
    State {
        a: v.d,
        b: v.b.wrapping_add(sum.rotate_left(s)),
        c: v.b,
        d: v.c,
    }
}

// The function of the round that step i is in, at x, y and z. Comparisons, and no table of functions: one loop has the steps once, and
// each function stands in it (request C-16).
fn mix(i: usize, x: u32, y: u32, z: u32) -> u32
    requires { i < 64 }
    ensures { result ≡ mix_of (i / 16) x y z }
{
    if i < 32 {
        if i < 16 {
            x & y | !x & z
        } else {
            x & z | y & !z
        }
    } else if i < 48 {
        x ^ y ^ z
    } else {
        y ^ (x | !z)
    }
}

// v after step i on the block m. The word and the constant are read before `mix`: so ordered, the compiler adds the word to v.a beside
// the computation of `mix` and not after it.
fn step(v: State, m: &[u8], i: usize) -> State
    requires block { length m.now ≡ 64 }
    requires index { i < 64 }
    ensures { result ≡ step_of m.now i v }
{
    let x = word(m, usize::from(WORDS[i]));
    let t = T[i];
    turn(v, mix(i, v.b, v.c, v.d), x, u32::from(SHIFTS[i]), t)
}

// h after the block m.
#[tactic(auto, using(crate::proofs::Steps::done), unfolding(crate::specs::Md5::steps))]
fn compress(h: State, m: &[u8]) -> State
    requires { length m.now ≡ 64 }
    ensures { result ≡ compressed h m.now }
{
    let mut v = h;
    for i in 0..64 {
        v = step(v, m, i);
    }
    State {
        a: h.a.wrapping_add(v.a),
        b: h.b.wrapping_add(v.b),
        c: h.c.wrapping_add(v.c),
        d: h.d.wrapping_add(v.d),
    }
}

// ---- A message.

// Block n of the whole blocks of `front` and then those of `back`.
fn block<'a>(front: &'a [u8], back: &'a [u8], n: usize) -> &'a [u8]
    requires { n < length front.now / 64 + length back.now / 64 }
    ensures value { result.now ≡ take 64 (drop (64 * n) (whole front.now ++ back.now)) }
    ensures size { length result.now ≡ 64 }
{
    let first = front.len() / 64;
    if n < first {
        return &front[64 * n..64 * n + 64];
    }
    let at = 64 * (n - first);
    &back[at..at + 64]
}

// h after the whole blocks of `front` and then those of `back`. All blocks of a message go through this one loop, those with its padding
// too, so that the compiled code has the steps once.
#[tactic(auto, unfolding(crate::specs::Md5::blocks))]
fn absorb(h: State, front: &[u8], back: &[u8]) -> State
    ensures { result ≡ all_blocks h (whole front.now ++ back.now) }
{
    let all = front.len() / 64 + back.len() / 64;
    let mut v = h;
    for n in 0..all {
        v = compress(v, block(front, back, n));
    }
    v
}

// The length of the last `rest` bytes of a message with their padding: one block or two.
fn padded_size(rest: usize) -> usize
    requires { rest < 64 }
    ensures { result ≡ rest + 1 + zeros rest + 8 }
{
    if rest < 56 { 64 } else { 128 }
}

// The last bytes of a message, fewer than a block, with the padding for a message of so many bits: one block or two, and nothing is
// said of the rest of the result.
fn last(s: &[u8], bits: u64) -> [u8; 128]
    requires { length s.now < 64 }
    ensures { take (length (pad s.now bits)) result ≡ pad s.now bits }
{
    let rest = s.len();
    let end = padded_size(rest);
    let mut tail = [0; 128];
    put(&mut tail, 0, s);
    tail[rest] = 0x80;
    put(&mut tail, end - 8, &bits.to_le_bytes());
    tail
}

// The bytes of the four words, the low byte of each first.
#[tactic(auto, unfolding(crate::specs::Md5::output))]
fn output(v: State) -> [u8; 16]
    ensures { result ≡ output_of v }
{
    let mut out = [0u8; 16];
    put_word(&mut out, 0, v.a);
    put_word(&mut out, 4, v.b);
    put_word(&mut out, 8, v.c);
    put_word(&mut out, 12, v.d);
    out
}

// The MD5 digest of a message of any length. The message is read where it is, not copied.
pub fn md5(message: &[u8]) -> [u8; 16]
    ensures { result ≡ md5_of message.now }
{
    let h = State {
        a: 0x67452301,
        b: 0xefcdab89,
        c: 0x98badcfe,
        d: 0x10325476,
    };
    let n = message.len();
    let whole = 64 * (n / 64);
    let tail = last(&message[whole..], (n as u64) << 3);
    let end = padded_size(n % 64);
    output(absorb(h, message, &tail[..end]))
}
