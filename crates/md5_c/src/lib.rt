// MD5 for programs in C and Rust that link the static library of this crate.
// A slice is passed as two arguments, a pointer and a length, so in C the function is
//     bool md5_c_digest(const uint8_t *message, size_t message_length, uint8_t *output, size_t output_length);
// The caller sees to it that the pointers are valid for the lengths and that the output overlaps no byte of the message.
#![tactic(auto)]

ghost use Rattle.std.specs.Prelude.{◌≡◌, leb, length};
ghost use Rattle.md5_c.specs.Output.{with_digest};

// Writes the MD5 digest of a message into the first 16 bytes of the output, and returns true. Where the output has fewer bytes, it
// writes nothing and returns false.
#[tactic(auto, unfolding(crate::specs::Output::with_digest))]
#[unsafe(no_mangle)]
pub extern "C" fn md5_c_digest(message: &[u8], output: &mut [u8]) -> bool
    ensures written { result ≡ leb 16 (length output.old) }
    ensures output { output.new ≡ with_digest message.now output.old }
{
    if output.len() < 16 {
        return false;
    }
    output[..16].copy_from_slice(&aff_md5::md5(message));
    true
}
