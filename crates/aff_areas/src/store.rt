// Stores under an allowance.
ghost use Rattle.std.specs.Prelude.{◌≡◌, ◌++◌, ◌+◌, ◌≤◌, length, take};
ghost use Rattle.aff_areas.specs.Stores.{apply_stores, stores_from};

use aff_format::bytes;

// Stores bytes from a place on, at most as many as allowed. It answers how many it stored.
fn store(buffer: &mut [u8], at: usize, bytes: &[u8], allowance: usize) -> usize
    requires { at + length bytes.now ≤ length buffer.old }
    ensures made { result ≡ length (take allowance bytes.now) }
    ensures buffer { buffer.new ≡ apply_stores buffer.old (take allowance (stores_from at bytes.now)) }
{
    let made = allowance.min(bytes.len());
    bytes::put(buffer, at, &bytes[..made]);
    made
}

// Stores one run and then another, at most as many bytes as allowed in all. It answers how many it stored.
pub fn store_both(
    buffer: &mut [u8],
    at: usize,
    bytes: &[u8],
    then: usize,
    more: &[u8],
    allowance: usize,
) -> usize
    requires first_inside { at + length bytes.now ≤ length buffer.old }
    requires second_inside { then + length more.now ≤ length buffer.old }
    ensures made { result ≡ length (take allowance (stores_from at bytes.now ++ stores_from then more.now)) }
    ensures buffer { buffer.new ≡ apply_stores buffer.old (take allowance (stores_from at bytes.now ++ stores_from then more.now)) }
{
    let first = store(buffer, at, bytes, allowance);
    first + store(buffer, then, more, allowance - first)
}
