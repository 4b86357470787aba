//! The law of looks at a face.
ghost use Rattle.std.specs.Prelude.{◌≡◌, ℕ, List};
ghost use Rattle.node.specs.Servers.{ServerState};
ghost use Rattle.node.specs.Faces.{face_of, look_at, peeked};
ghost use Rattle.node.specs.Lawful.{IsLawful};

/// A look at the face of a lawful server is what the server itself shows of the key.
pub fn looks_show_the_newest()
    ensures { (s : ServerState) (key : List ℕ) → IsLawful s → look_at (face_of s) key ≡ peeked s key }
{}
