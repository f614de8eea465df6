//! A certificate's text given to a sink as it is made, its short pieces gathered so that they don't cost a call of the system each.
ghost use Rattle.std.specs.Prelude.{◌≡◌, ◌<◌, ◌≤◌, ◌-◌, ◌^◌, ◌++◌, ◌∷◌, ◌↔◌, [], false, IsTrue, length, vec_len, vec_capacity};
ghost use Rattle.cert_check.specs.Certificates.{certificate_value};
ghost use Rattle.cert_check.specs.text.Text.{text_of};
ghost use Rattle.cert_check.specs.text.HasText.{HasText};
ghost use Rattle.ed_session.specs.Sinks.{change, Took, TookFront, NeverFailed, Failed};
ghost use Rattle.ed_calls.specs.Gathering.{TookAllBut, StoppedIn, IsGathered};

use cert_check::{Certificate, TextWriter, Transcript};
use ed_session::{Sink, give};
use std::alloc::Global;
use std::marker::{Brand, PhantomData};

/// Room for more bytes isn't worth its memory.
const ROOM: usize = 1 << 16;

/// What a sink was before it was given a text. Only clauses read it.
trait Before {
    ghost use Rattle.ed_session.specs.Sinks.{SinkState};

    ghost state: { SinkState };
}

impl Before for Brand {
    ghost use Rattle.std.specs.Prelude.{None};

    ghost state = { record { taken = None; failures = 0 } };
}

/// A sink, and what waits for it in a room. Once the sink has refused some bytes, it is given no more. No memory is asked for.
#[derive(Drop)]
struct Gathered<'a, W: Sink, B: Before> {
    sink: &'a mut W,
    room: &'a mut Vec<u8>,
    is_refused: bool,
    text: Transcript,
    before: PhantomData<B>,
    ghost gathered: { ∥ IsGathered B.state (W.state sink.now) room.now.items is_refused text.bytes ∥₁ },
}

impl<'a, W: Sink, B: Before> Gathered<'a, W, B> {
    /// A sink that was given no text yet. What waits for it is gathered in the capacity of this vector.
    fn new(sink: &'a mut W, room: &'a mut Vec<u8>) -> Self
        requires before { W.state sink.old ≡ B.state }
        requires count { (W.state sink.old).failures < 2 ^ 64 - 1 }
        requires empty { room.old.items ≡ [] }
        ensures same_sink { result.sink.ghost_name ≡ sink.entry.ghost_name }
        ensures same_room { result.room.ghost_name ≡ room.entry.ghost_name }
        ensures text { result.text.bytes ≡ [] }
    {
        Gathered {
            sink,
            room,
            is_refused: false,
            text: Transcript::new(),
            before: PhantomData,
        }
    }

    /// Takes the next piece of the text.
    fn take(&mut self, piece: &[u8])
        ensures same_sink { self.new.sink.ghost_name ≡ self.old.sink.ghost_name }
        ensures same_room { self.new.room.ghost_name ≡ self.old.room.ghost_name }
        ensures text { self.new.text.bytes ≡ self.old.text.bytes ++ piece.now }
    {
        note_and_put(
            self.sink,
            self.room,
            &mut self.is_refused,
            &mut self.text,
            piece,
        );
    }
}

// The bytes come after the names of what is lent: so who lent it still knows, after a call that only says which text was written, that
// it is the same sink and the same room.
impl<W: Sink, B: Before> TextWriter for Gathered<'_, W, B> {
    ghost written = { λ g. g.sink.ghost_name ∷ g.room.ghost_name ∷ g.text.bytes };

    fn push(&mut self, byte: u8) {
        self.take(&[byte]);
    }

    fn extend(&mut self, bytes: &[u8]) {
        self.take(bytes);
    }
}

/// Notes a piece, and puts it after what waits in a room, unless the sink has refused some bytes.
fn note_and_put<W: Sink>(
    sink: &mut W,
    room: &mut Vec<u8>,
    is_refused: &mut bool,
    text: &mut Transcript,
    piece: &[u8],
)
    requires count { is_refused.old ≡ false → (W.state sink.old).failures < 2 ^ 64 - 1 }

    ensures noted { text.new.bytes ≡ text.old.bytes ++ piece.now }
    ensures refused { IsTrue is_refused.old → IsTrue is_refused.new × (W.state sink.new ≡ W.state sink.old) }
    ensures put { is_refused.old ≡ false → is_refused.new ≡ false
        → TookAllBut (change (W.state sink.old) (W.state sink.new)) (room.old.items ++ piece.now) room.new.items }
    ensures stopped { is_refused.old ≡ false → IsTrue is_refused.new
        → StoppedIn (change (W.state sink.old) (W.state sink.new)) (room.old.items ++ piece.now) }
{
    text.note(piece);
    if !*is_refused {
        *is_refused = !put(sink, room, piece);
    }
}

/// Puts a piece after what waits in a room. Where it doesn't fit, what waits is given to the sink first, and a piece that is longer than
/// the room goes by itself. It says whether the sink took all that it was given.
fn put<W: Sink>(sink: &mut W, room: &mut Vec<u8>, piece: &[u8]) -> bool
    requires count { (W.state sink.old).failures < 2 ^ 64 - 1 }

    ensures all { IsTrue result → TookAllBut (change (W.state sink.old) (W.state sink.new)) (room.old.items ++ piece.now) room.new.items }
    ensures part { result ≡ false → StoppedIn (change (W.state sink.old) (W.state sink.new)) (room.old.items ++ piece.now) }
{
    if keep(room, piece) {
        return true;
    }
    if !give(sink, room.as_slice()) {
        return false;
    }
    room.clear();
    keep(room, piece) || give(sink, piece)
}

/// Puts a piece after what waits in a room, if it fits, and says whether it does.
fn keep(room: &mut Vec<u8>, piece: &[u8]) -> bool
    ensures kept { IsTrue result → room.new.items ≡ room.old.items ++ piece.now }
    ensures left { result ≡ false → room.new.items ≡ room.old.items }
    ensures fits { IsTrue result ↔ length piece.now ≤ vec_capacity room.old - vec_len room.old }
{
    if piece.len() > room.capacity() - room.len() {
        return false;
    }
    match piece {
        [byte] => room.push(*byte).is_ok(),
        _ => room.extend_from_slice(piece).is_ok(),
    }
}

/// Gives a certificate's text to a sink through an empty room, and says whether it took it all.
fn give_through<W: Sink, B: Before>(
    sink: &mut W,
    room: &mut Vec<u8>,
    certificate: &Certificate,
) -> bool
    requires before { W.state sink.old ≡ B.state }
    requires count { (W.state sink.old).failures < 2 ^ 64 - 1 }
    requires empty { room.old.items ≡ [] }
    requires text { HasText (certificate_value certificate.now) }

    ensures all { IsTrue result → Took (change B.state (W.state sink.new)) (text_of (certificate_value certificate.now))
        × NeverFailed (change B.state (W.state sink.new)) }
    ensures part { result ≡ false → TookFront (change B.state (W.state sink.new)) (text_of (certificate_value certificate.now))
        × Failed (change B.state (W.state sink.new)) }
{
    let mut gathered = Gathered::<W, B>::new(sink, room);
    certificate.write_to(&mut gathered);
    let is_refused = gathered.is_refused;
    !is_refused && give(sink, room.as_slice())
}

/// Gives the text of a certificate that has one to a sink as it is made, and says whether it took it all. Nothing fails for want of
/// memory, and the text stands nowhere as a whole.
pub fn give_certificate<W: Sink>(alloc: Global, sink: &mut W, certificate: &Certificate) -> bool
    requires count { (W.state sink.old).failures < 2 ^ 64 - 1 }
    requires text { HasText (certificate_value certificate.now) }

    ensures all { IsTrue result → Took (change (W.state sink.old) (W.state sink.new)) (text_of (certificate_value certificate.now))
        × NeverFailed (change (W.state sink.old) (W.state sink.new)) }
    ensures part { result ≡ false → TookFront (change (W.state sink.old) (W.state sink.new)) (text_of (certificate_value certificate.now))
        × Failed (change (W.state sink.old) (W.state sink.new)) }
{
    // Without memory to gather them in, each piece goes by itself.
    let mut room = Vec::with_capacity(alloc, ROOM).unwrap_or(Vec::new(alloc));
    give_through::<W, Brand>(sink, &mut room, certificate)
}
