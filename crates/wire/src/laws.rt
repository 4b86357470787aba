//! Laws of the format: one spelling a frame, none a beginning of another, and what is read is what was written.
ghost use Rattle.std.specs.Prelude.{◌≡◌, ◌↔◌, ◌+◌, ◌<◌, ◌≤◌, List, ℕ, ◌++◌, length, slice_index};
ghost use Rattle.std.specs.List.{AllByRecursion, flat_map};
ghost use Rattle.wire.specs.declared.frames.Frame.{Frame};
ghost use Rattle.wire.specs.Spellings.{IsFrame, spelling};
ghost use Rattle.wire.specs.Lengths.{longest};
ghost use Rattle.wire.specs.Grammar.{IsFirst, IsMalformed, IsPartial, frame};
ghost use Rattle.wire.specs.Streams.{ReaderCall, driven, frames_in, fresh, stream_of};

/// The format, field by field, spells each frame that is in range, by its one spelling, and nothing else.
pub fn format_is_spelling()
    ensures { (f : Frame) (bytes : List ℕ) → frame.Spells f bytes ↔ (IsFrame f × (bytes ≡ spelling f)) }
{}

/// No spelling begins another, and no bytes spell two frames: at most one frame stands at the front of a stream.
pub fn one_frame_at_a_front()
    ensures { (f g : Frame) (bytes more others : List ℕ)
        → IsFirst f bytes more
        → IsFirst g bytes others
        → (f ≡ g) × (more ≡ others) }
{}

/// If a field is out of its range, no frame is read, whatever bytes follow.
pub fn bad_front_is_final()
    ensures { (f : Frame) (bytes more rest : List ℕ) → IsMalformed bytes → IsFirst f (bytes ++ more) rest → ⊥ }
{}

/// A bad front stays bad, whatever bytes follow.
pub fn bad_front_stays()
    ensures { (bytes more : List ℕ)
        → ((i : ℕ) → slice_index (bytes ++ more) i < 256)
        → IsMalformed bytes
        → IsMalformed (bytes ++ more) }
{}

/// What isn't whole is short: a front at which more bytes are waited for is shorter than the longest frame, and some
/// such front is shorter by one byte alone.
pub fn partial_front_is_short()
    ensures short { (bytes : List ℕ)
        → ((i : ℕ) → slice_index bytes i < 256)
        → IsPartial bytes
        → length bytes < longest }
    ensures sharp { (bytes : List ℕ) × IsPartial bytes × (length bytes + 1 ≡ longest) }
{}

/// No frame is longer than the longest, and some frame is as long.
pub fn longest_frame()
    ensures bound { (f : Frame) → IsFrame f → length (spelling f) ≤ longest }
    ensures reached { (f : Frame) × IsFrame f × (length (spelling f) ≡ longest) }
{}

/// At each beginning of a frame's spelling more bytes are waited for, until all of it is there.
pub fn beginning_waits()
    ensures { (f : Frame) (front rest : List ℕ)
        → IsFrame f
        → spelling f ≡ front ++ rest
        → 0 < length rest
        → IsPartial front }
{}

/// The frames that a reader gave, and those that it has still to give, are those of all its bytes as one stream:
/// they do not depend on how the stream was cut, nor on when the reader was asked.
pub fn any_cutting()
    ensures { (reader_calls : List ReaderCall)
        → (driven fresh reader_calls).0 ++ frames_in (driven fresh reader_calls).1.unread ≡ frames_in (stream_of
        reader_calls) }
{}

/// What was written is read again, whatever follows it, and however all of it is cut.
pub fn written_is_read()
    ensures { (reader_calls : List ReaderCall) (fs : List Frame) (more : List ℕ)
        → AllByRecursion IsFrame fs
        → stream_of reader_calls ≡ flat_map spelling fs ++ more
        → (driven fresh reader_calls).0 ++ frames_in (driven fresh reader_calls).1.unread ≡ fs ++ frames_in more }
{}
