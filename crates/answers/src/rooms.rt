// Room for what is at most as large as the limits say.
ghost use Rattle.std.specs.Prelude.{◌≡◌, replicate};
ghost use Rattle.rules.specs.Descriptions.{most_words};

use crate::limits::MOST_WORDS;

// Room for the words of a description.
pub fn words_room() -> [u16; MOST_WORDS]
    ensures { result ≡ replicate most_words 0 }
{
    [0; MOST_WORDS]
}
