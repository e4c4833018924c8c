// Bytes as little-endian words.
#![tactic(auto)]

ghost use Rattle.std.specs.Prelude.{◌≡◌, ◌*◌, length};
ghost use Rattle.words.specs.Words.{words};

// Takes each two bytes as a word.
pub fn take_words(bytes: &[u8], into: &mut [u16])
    requires { length bytes.now ≡ 2 * length into.old }
    ensures { into.new ≡ words bytes.now }
{
    let (pairs, _) = bytes.as_chunks::<2>();
    // Stays: with `into.iter_mut().zip(pairs)` the proof did not close, since an invariant sees no element that it writes.
    for (i, &pair) in pairs.iter().enumerate() {
        into[i] = u16::from_le_bytes(pair);
    }
}
