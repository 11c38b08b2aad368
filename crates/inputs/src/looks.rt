// What an input looks like.
ghost use Rattle.std.specs.Prelude.{◌≡◌};
ghost use Rattle.inputs.specs.Frames.{begins_with};

// Whether bytes begin with a word.
#[tactic(auto, using(crate::proofs::Words::starts_begins, std::proofs::lemmas::Grind::common_steps))]
pub fn begins_with(bytes: &[u8], word: &[u8]) -> bool
    ensures { result ≡ begins_with word.now bytes.now }
{
    bytes.starts_with(word)
}
