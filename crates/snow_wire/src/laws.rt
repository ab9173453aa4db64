ghost use Rattle.std.specs.Prelude.{◌≡◌, ◌++◌, ℕ, List, Ok};
ghost use Rattle.snow_wire.specs.declared.event.Event.{Event};
ghost use Rattle.snow_wire.specs.Model.Spelling.{IsInRange, spelling};
ghost use Rattle.snow_wire.specs.Model.Reading.{IsBytes, event_of};
ghost use Rattle.snow_wire.specs.Model.Frame.{AreFrames, IsPayload, frame, frames_of};
ghost use Rattle.snow_wire.specs.Laws.FrameLaw.{FrameLaw};

/// Each event in range is read back from its spelling, and no other payload is read as it. No
/// payload is read as an event that is out of range.
/// Rule: this project's own.
pub fn one_spelling()
    ensures again { (event : Event) → IsInRange event → event_of (spelling event) ≡ Ok event }
    ensures only { (payload : List ℕ) (event : Event) → IsBytes payload → event_of payload ≡ Ok event
        → IsInRange event × (payload ≡ spelling event) }
{}

/// A stream is frames and a rest in just one way, which reading from the front finds; more bytes
/// come behind the frames and change none, so it doesn't matter how a stream is cut into pieces. No
/// frame's bytes begin another frame's.
/// Rule: this project's own.
pub fn one_reading()
    ensures found { (bytes : List ℕ) → IsBytes bytes → AreFrames bytes (frames_of bytes).0 (frames_of bytes).1 }
    ensures only { (bytes : List ℕ) (payloads : List (List ℕ)) (rest : List ℕ) → AreFrames bytes payloads rest
        → (payloads ≡ (frames_of bytes).0) × (rest ≡ (frames_of bytes).1) }
    ensures pieces { (bytes more : List ℕ) → frames_of (bytes ++ more) ≡
        ((frames_of bytes).0 ++ (frames_of ((frames_of bytes).1 ++ more)).0, (frames_of ((frames_of bytes).1 ++ more)).1) }
    ensures apart { (a b more : List ℕ) → IsPayload a → IsPayload b → frame a ++ more ≡ frame b → a ≡ b }
{}

/// A frame holds each event in range, where Ancestors bring no more blocks and bytes than a node
/// answers.
/// Rule: this project's own.
#[tactic(auto, using(crate::proofs::Long::frame_holds))]
pub fn frame_holds_law()
    ensures { FrameLaw }
{}
