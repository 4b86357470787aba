//! The head of a snapshot, and the first byte of its end.
ghost use Rattle.std.specs.Prelude.{◌≡◌};
ghost use Rattle.snapshots.specs.Readings.{agrees, at_end};
ghost use Rattle.snapshots.specs.Snapshots.{head, name};

/// How many bytes the head has.
pub const HEAD_LENGTH: usize = 14;

/// How many bytes the end has.
pub const END_LENGTH: usize = 21;

/// What a snapshot begins with: its name, and the format's number.
#[tactic(auto, unfolding(crate::specs::Snapshots::head))]
pub fn head() -> [u8; 14]
    ensures { result ≡ head }
{
    *b"craq snapshot\x01"
}

/// The name alone.
#[tactic(auto, unfolding(crate::specs::Snapshots::name))]
pub fn name() -> [u8; 13]
    ensures { result ≡ name }
{
    *b"craq snapshot"
}

/// Whether two texts are alike as far as both go.
pub fn agrees(text: &[u8], bytes: &[u8]) -> bool
    ensures { result ≡ agrees text.now bytes.now }
{
    match text {
        [] => true,
        [a, text @ ..] => match bytes {
            [] => true,
            [b, bytes @ ..] => *a == *b && agrees(text, bytes),
        },
    }
}

/// Whether the end's first byte stands at the front.
pub fn at_end(bytes: &[u8]) -> bool
    ensures { result ≡ at_end bytes.now }
{
    match bytes {
        [] => false,
        [first, ..] => *first == 0,
    }
}
