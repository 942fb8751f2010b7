// Finding bytes in a part of a text.
ghost use Rattle.std.specs.Prelude.{◌≡◌, ◌+◌};
ghost use Rattle.std.proofs.Math.Seq.{slice};
ghost use Rattle.base_text.specs.Bytes.{Range, index_of, begins_with};

// The first index from the one up to the other with this byte, or the end.
pub fn find(text: &[u8], from: usize, to: usize, byte: u8) -> usize
    requires { Range text.now from to }
    ensures { result ≡ from + index_of byte (slice from to text.now) }
{
    match text[from..to].iter().position(|c| *c == byte) {
        Some(k) => from + k,
        None => to,
    }
}

// Whether the part of the text begins with the key.
pub fn begins(text: &[u8], from: usize, to: usize, key: &[u8]) -> bool
    requires { Range text.now from to }
    ensures { result ≡ begins_with key.now (slice from to text.now) }
{
    text[from..to].starts_with(key)
}
