//! What holds of every stream of frames.

ghost use Rattle.messages.specs.Pieces.{PiecesLaw, DryLaw, CutLaw, RefusedLaw, OneAnswerLaw};

/// Over any calls of a `FrameReader`, by what its contracts say: the frames that it gave, followed by
/// what it holds, are the bytes that it was fed. So the frames do not depend on how the bytes were cut.
pub fn pieces_law()
    // What was given are frames, and nothing of the bytes is lost or comes twice.
    ensures kept { PiecesLaw }
    // Once the reader gives no frame, none is left in front.
    ensures dry { DryLaw }
    // Two readers that were fed the same bytes and have no frame left gave the same ones.
    ensures cut { CutLaw }
    // What `next_frame` answers follows from what is held.
    ensures answer { OneAnswerLaw }
    // A length above the limit is told for good.
    ensures refused { RefusedLaw }
{}
