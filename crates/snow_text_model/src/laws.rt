ghost use Rattle.std.specs.Prelude.{◌≡◌, ◌==◌, ℕ, false, List, [], ◌∷◌, ◌++◌, All, Ok, None};
ghost use Rattle.snow_wire.specs.declared.event.Event.{Event};
ghost use Rattle.snow_wire.specs.Model.Frame.{IsPayload, first_of, frame};
ghost use Rattle.snow_wire.specs.Model.Reading.{IsBytes, event_of};
ghost use Rattle.snow_text_model.specs.declared.block_form.BlockForm.{BlockForm};
ghost use Rattle.snow_text_model.specs.Model.Words.{parts};
ghost use Rattle.snow_text_model.specs.Model.Names.{Names};
ghost use Rattle.snow_text_model.specs.Model.Made.{made, made_from};
ghost use Rattle.snow_text_model.specs.Model.Shown.{event_words, is_line, line, shown, shown_frame, shown_rest, tidied};

/// Each stream is made again from its text, to the byte, however its blocks are shown.
/// Rule: this project's own.
pub fn one_text()
    ensures { (form : BlockForm) (bytes : List ℕ) → IsBytes bytes → made (shown form bytes) ≡ Ok bytes }
{}

/// The stream that a text means has one text, which is this text's short form: each line in its
/// own. So two texts mean one stream where they have one short form, which means it too.
/// Rule: this project's own.
pub fn one_form()
    ensures short { (form : BlockForm) (text bytes : List ℕ) → made text ≡ Ok bytes → shown form bytes ≡ tidied form text }
    ensures again { (form : BlockForm) (text bytes : List ℕ) → IsBytes bytes → made text ≡ Ok bytes → made (tidied form text) ≡ Ok bytes }
{}

/// A frame that holds an event is shown in the event's own words, however its blocks are shown. A
/// Line event alone may be shown as its bytes, where its text isn't one that a line of words says.
/// Rule: this project's own.
pub fn own_words()
    ensures { (form : BlockForm) (payload : List ℕ) (event : Event) → IsBytes payload → IsPayload payload → event_of payload ≡ Ok event
        → is_line event ≡ false → shown_frame form payload ≡ line (event_words form event) ++ 10 ∷ [] }
{}

/// A stream is shown a frame at a time, and a text is read a line at a time: a frame in front of
/// others has its line in front of theirs, what begins with no frame is the rest, and a newline
/// ends a line whatever stands behind it.
/// Rule: this project's own.
pub fn one_by_one()
    ensures frame { (form : BlockForm) (payload more : List ℕ) → IsPayload payload → shown form (frame payload ++ more) ≡ shown_frame form payload ++ shown form more }
    ensures rest { (form : BlockForm) (rest : List ℕ) → first_of rest ≡ None → shown form rest ≡ shown_rest rest }
    ensures line { (names : Names) (n : ℕ) (text more : List ℕ) → All (λ c. c == 10 ≡ false) text
        → made_from names n (parts 10 (text ++ 10 ∷ more)) ≡ made_from names n (text ∷ parts 10 more) }
{}
