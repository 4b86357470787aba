//! Laws for whoever hands on the frames of a stream as they come: what was handed on, what is still to come, and how
//! the stream ends.
ghost use Rattle.std.specs.Prelude.{◌≡◌, ◌↔◌, ◌<◌, List, ℕ, [], ◌∷◌, ◌++◌, length, slice_index};
ghost use Rattle.std.specs.List.{AllByRecursion, flat_map};
ghost use Rattle.wire.specs.declared.ends.PeerEnd.TheVariants as ends;
ghost use Rattle.wire.specs.declared.frames.Frame.{Frame};
ghost use Rattle.wire.specs.Spellings.{IsFrame, spelling};
ghost use Rattle.wire.specs.Grammar.{HasFrame, IsFirst, IsMalformed, IsOld, IsPartial};
ghost use Rattle.wire.specs.Streams.{frames_in};
ghost use Rattle.wire.specs.Ends.{AreFirst, IsEnd, end_in, rest_in};

/// The frames of a stream follow one another from its front, and no frame stands after them. What stands there tells
/// how the stream ends.
pub fn stream_is_its_frames()
    ensures frames { (bytes : List ℕ)
        → ((i : ℕ) → slice_index bytes i < 256)
        → AreFirst (frames_in bytes) bytes (rest_in bytes) }
    ensures no_more { (bytes : List ℕ) → HasFrame (rest_in bytes) → ⊥ }
    ensures input { (bytes : List ℕ)
        → ((i : ℕ) → slice_index bytes i < 256)
        → (end_in bytes ≡ ends.Input) ↔ IsPartial (rest_in bytes) }
    ensures malformed { (bytes : List ℕ)
        → ((i : ℕ) → slice_index bytes i < 256)
        → (end_in bytes ≡ ends.Malformed) ↔ IsMalformed (rest_in bytes) }
    ensures old { (bytes : List ℕ) → (end_in bytes ≡ ends.Old) ↔ IsOld (rest_in bytes) }
{}

/// Frames that follow one another from the front are the first ones of the stream. Those still to come, and its end,
/// are those of the bytes after them.
pub fn frames_behind_frames()
    ensures frames { (fs : List Frame) (bytes rest : List ℕ)
        → AreFirst fs bytes rest
        → frames_in bytes ≡ fs ++ frames_in rest }
    ensures end { (fs : List Frame) (bytes rest : List ℕ) → AreFirst fs bytes rest → end_in bytes ≡ end_in rest }
{}

/// At first no frame has been handed on; then one more, or several, from the front of the unread bytes; or a piece more
/// comes after these.
pub fn one_frame_more()
    ensures none { (bytes : List ℕ) → AreFirst [] bytes bytes }
    ensures frame { (fs : List Frame) (f : Frame) (bytes unread rest : List ℕ)
        → AreFirst fs bytes unread
        → IsFirst f unread rest
        → AreFirst (fs ++ f ∷ []) bytes rest }
    ensures frames { (fs gs : List Frame) (bytes unread rest : List ℕ)
        → AreFirst fs bytes unread
        → AreFirst gs unread rest
        → AreFirst (fs ++ gs) bytes rest }
    ensures piece { (fs : List Frame) (bytes unread piece : List ℕ)
        → AreFirst fs bytes unread
        → AreFirst fs (bytes ++ piece) (unread ++ piece) }
{}

/// A frame takes a byte at least, so that taking frames off comes to an end.
pub fn frame_takes_bytes()
    ensures { (f : Frame) (bytes rest : List ℕ) → IsFirst f bytes rest → length rest < length bytes }
{}

/// At a bad front, and at an older server's, no frame is left, and the stream ends so.
pub fn bad_front_ends()
    ensures malformed { (bytes : List ℕ) → IsMalformed bytes → IsEnd bytes ends.Malformed }
    ensures old { (bytes : List ℕ) → IsOld bytes → IsEnd bytes ends.Old }
{}

/// Whatever has come of frames that were written one after another, its frames are the first of these, and its end is
/// the input's.
pub fn link_is_read_in_order()
    ensures { (fs : List Frame) (read more : List ℕ) → AllByRecursion IsFrame fs → flat_map spelling fs ≡ read ++ more
        → (later : List Frame) × (fs ≡ frames_in read ++ later) × (end_in read ≡ ends.Input) }
{}
