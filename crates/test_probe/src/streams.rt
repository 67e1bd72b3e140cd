// Whole streams obeyed from a fresh session on, with what they print in lent text: by calls of the whole-stream entry, and by calls for one command each.
ghost use Rattle.std.specs.Prelude.{◌≡◌, ◌+◌, ◌≤◌, length};
ghost use Rattle.session_record.specs.Session.{fresh};
ghost use Rattle.session_commands.specs.Lent.{state_in};
ghost use Rattle.listing.specs.Listing.{listing_bytes};
ghost use Rattle.test_probe.specs.Streams.{Took, printed_bytes};

use listing::{LISTING_BYTES, write_reply};
use placing::answer::LentAnswers;
use putting::Writer;
use session::obey;
use session_record::{Held, Session};
use stream_text::obey_stream;

// The memory that a stream is obeyed in. Its text may hold any reply.
#[derive(Drop)]
pub struct Memory<'a> {
    pub buffer: &'a mut [f64],
    pub answers: LentAnswers<'a>,
    pub text: Writer<'a>,
    ghost holds_any: { listing_bytes ≤ length text.bytes.now },
}

// The offset of the next command, and how many bytes were printed.
#[derive(Clone, Copy)]
pub struct Moved {
    pub next: usize,
    pub length: usize,
}

// How a stream is obeyed: one step from an offset on. The session is changed where it stands, so that its record is copied no more than the step itself does.
pub trait Printing {
    fn step(session: &mut Session, stream: &[u8], at: usize, memory: &mut Memory<'_>) -> Moved
        ensures { Took (state_in session.old memory.old.buffer.now memory.old.answers) stream.now at (state_in session.new memory.new.buffer.now memory.new.answers) result.next result.length };
}

// By the whole-stream entry: each call puts its text at the front, over the last one's.
pub struct ByParts;

impl Printing for ByParts {
    #[tactic(auto, using(crate::proofs::Counting::took_part))]
    fn step(session: &mut Session, stream: &[u8], at: usize, memory: &mut Memory<'_>) -> Moved {
        let writer = &mut memory.text;
        let text = &mut *writer.bytes;
        let part = obey_stream(
            *session,
            stream,
            at,
            memory.buffer,
            &mut memory.answers,
            text,
        );
        *session = part.session;
        Moved {
            next: part.next,
            length: part.length,
        }
    }
}

// Command by command: a reply's text stands behind the one before it, or at the front again where what is left may not hold it: where the whole-stream
// entry puts it.
pub struct ByCommands;

impl Printing for ByCommands {
    fn step(session: &mut Session, stream: &[u8], at: usize, memory: &mut Memory<'_>) -> Moved {
        let step = obey(*session, stream, at, memory.buffer, &mut memory.answers);
        *session = step.session;
        make_room(&mut memory.text);
        let from = memory.text.used;
        write_reply(
            step.reply,
            Held::from(step.session),
            &memory.answers.given(),
            &mut memory.text,
        );
        Moved {
            next: step.next,
            length: memory.text.used - from,
        }
    }
}

// How many bytes such steps print, from a fresh session on to the stream's end, in 64 bits.
#[tactic(auto, using(crate::proofs::Counting::counts_whole))]
pub fn count_printed<P: Printing>(stream: &[u8], memory: &mut Memory<'_>) -> u64
    ensures { result ≡ printed_bytes (state_in fresh memory.old.buffer.now memory.old.answers) stream.now }
{
    let mut session = session_record::fresh();
    let mut at = 0usize;
    let mut count = 0u64;
    loop {
        let moved = P::step(&mut session, stream, at, memory);
        at = moved.next;
        count = count.wrapping_add(moved.length as u64);
        if stream.len() <= at {
            return count;
        }
    }
}

// The next text begins at the front again where what is left may not hold it.
fn make_room(writer: &mut Writer<'_>)
    requires { listing_bytes ≤ length writer.old.bytes.now }
    ensures room { writer.new.used + listing_bytes ≤ length writer.new.bytes.now }
    ensures same_bytes { writer.new.bytes.now ≡ writer.old.bytes.now }
{
    if writer.room() < LISTING_BYTES {
        writer.used = 0;
    }
}
