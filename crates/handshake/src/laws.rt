//! Laws that hold for every connection. Nothing runs here: these functions are called for what they ensure.
ghost use Rattle.std.specs.Prelude.{◌≡◌, ◌≢◌, ◌<◌, ◌≤◌, ◌∷◌, ◌++◌, All, Err, List, Ok, ℕ, drop, length, true};
ghost use Rattle.handshake.specs.declared.TheConstants.{MAX_HELLO};
ghost use Rattle.handshake.specs.declared.error.HandshakeError.TheVariants as Fault;
ghost use Rattle.handshake.specs.declared.hello.Hello.{Hello};
ghost use Rattle.handshake.specs.Connection.{IsPart, Part, connection_text, connection_yields, opened};
ghost use Rattle.handshake.specs.Inbound.{and_then, run, start};
ghost use Rattle.handshake.specs.Outbound.{Outgoing, lent, line, of_frames, sent};
ghost use Rattle.handshake.specs.Place.{after, is_boundary};
ghost use Rattle.handshake.specs.State.{State};
ghost use Rattle.handshake.specs.Text.{IsHello};

/// Ensures that an `Inbound` gives exactly what was written on a connection, however its bytes are cut into pieces.
pub fn connections_are_read()
    // The text of a connection gives its hello, its introductions and the bytes of its frames, in order.
    ensures given { (h : Hello) (parts : List Part) → IsHello h → All IsPart parts
        → run start (connection_text h parts) ≡ Ok (opened, connection_yields h parts) }
    // Two pieces give what the first gives, and then what the second gives from there.
    ensures cut { (s : State) (front rest : List ℕ)
        → run s (front ++ rest) ≡ and_then (run s front) (λ t. run t rest) }
{}

/// Ensures that what an `Outbound` lends goes out in order: of a frame all bytes side by side, each record whole, in
/// front of all frames but the one under way when it was added, and each byte once.
pub fn records_stand_between_frames()
    // What is lent is the first of what is to go out.
    ensures first { (out : Outgoing) (frames : List ℕ)
        → (rest : List ℕ) × (lent out frames ++ rest ≡ line out frames) }
    // Once some of it went out, what is to go out is the rest.
    ensures goes_on { (out : Outgoing) (frames : List ℕ) (count : ℕ) → count ≤ length (lent out frames)
        → line (sent out frames count) (drop (of_frames out count) frames) ≡ drop count (line out frames) }
    // Bytes of frames that come to wait stand behind all, unless they are of the frame under way.
    ensures behind { (out : Outgoing) (frames more : List ℕ) → is_boundary (after out.place frames) ≡ true
        → line out (frames ++ more) ≡ line out frames ++ more }
{}

/// Ensures that an `Inbound` refuses a connection at the first byte that is wrong, as far as the kind and the length of
/// a record tell.
pub fn strangers_are_refused()
    ensures no_hello { (kind : ℕ) (rest : List ℕ) → kind ≢ 1 → run start (kind ∷ rest) ≡ Err (Fault.NoHello kind) }
    ensures too_long { (len : ℕ) (rest : List ℕ)
        → MAX_HELLO < len
        → run start (1 ∷ len ∷ rest) ≡ Err (Fault.BadLength len) }
    // So a second hello, of the kind 1, is refused.
    ensures unknown { (kind : ℕ) (rest : List ℕ) → kind ≢ 0 → kind ≢ 2
        → run opened (kind ∷ rest) ≡ Err (Fault.UnknownRecord kind) }
{}
