// Tests: runs the cases of samples/cases.py, which samples/make.py writes to this crate's stdin. Each is a session record, an offset,
// the lengths of the memory to lend, two cameras, and a stream. Prints the next offset and the reply of each call, to the stream's end, then
// the record with its summary, and what the query answers for the cameras.
#![tactic(auto)]

ghost use Rattle.std.specs.Prelude.{◌≤◌, IfSome, length};

use placing::answer::LentAnswers;
use session::Step;
use session_commands::Done;
use session_record::Session;
use shared_query::shared_views;
use std::io;
use std::io::Read;
use test_calls::print_calls;

// A case begins with a line that is its label, and 26 words of 64 bits: the masks; views, cameras, reference; the offset; the lengths
// of buffer, first and second answer; the stream's length; the two cameras to ask for. The summary, a byte an entry, and the stream follow.
const LABEL_BYTES: usize = 64;

const WORD_BYTES: usize = 8;

const HEADER_WORDS: usize = 26;

const HEADER_BYTES: usize = HEADER_WORDS * WORD_BYTES;

const SUMMARY_BYTES: usize = 256;

// More than samples/cases.py makes: what comes behind so many is not run.
const MOST_CASES: usize = 4096;

// Kept: fixed lengths, since the project has no heap. Of everything that is lent there is more than a session asks for.
const MOST_STREAM: usize = 65600;

const MOST_BUFFER: usize = 7200;

const MOST_FIRST: usize = 600;

const MOST_SECOND: usize = 64;

#[derive(Clone, Copy)]
struct Case {
    session: Session,
    at: usize,
    buffer: usize,
    first: usize,
    second: usize,
    length: usize,
    asked: u8,
    with: u8,
    ghost within: { (buffer ≤ 7200) × (first ≤ 600) × (second ≤ 64) },
}

fn main(rt: HostRuntime) -> io::Result<()> {
    let mut stream = [0u8; MOST_STREAM];
    run_cases(&rt, &mut rt.stdin(), &mut stream)
}

fn run_cases<P: Print, R: Read>(rt: &P, input: &mut R, memory: &mut [u8]) -> io::Result<()> {
    // Kept: a counted loop: nothing tells how much an input still holds, so that a `loop` has no measure.
    for _ in 0..MOST_CASES {
        let Some(label) = next_bytes::<LABEL_BYTES, R>(input) else {
            return Ok(());
        };
        rt.write_all(&label)?;
        let Some(case) = next_case(input) else {
            return Ok(());
        };
        let Some(length) = next_stream(input, case, memory) else {
            return Ok(());
        };
        run_case(rt, case, &memory[..length])?;
    }
    Ok(())
}

// The next bytes of the input; none where it ends before.
fn next_bytes<const N: usize, R: Read>(input: &mut R) -> Option<[u8; N]> {
    let mut bytes = [0u8; N];
    input.read_exact(&mut bytes).ok()?;
    Some(bytes)
}

fn next_case<R: Read>(input: &mut R) -> Option<Case> {
    let header = next_bytes::<HEADER_BYTES, R>(input)?;
    let summary = next_bytes::<SUMMARY_BYTES, R>(input)?;
    read_case(&header, summary)
}

// The length of the case's stream, which then stands at the front of the memory; none where it is longer or not there whole.
fn next_stream<R: Read>(input: &mut R, case: Case, memory: &mut [u8]) -> Option<usize>
    ensures { IfSome result (λ bytes. bytes ≤ length memory.new) }
{
    if memory.len() < case.length {
        return None;
    }
    input.read_exact(&mut memory[..case.length]).ok()?;
    Some(case.length)
}

// A case in as much memory as it asks for.
fn run_case<P: Print>(rt: &P, case: Case, stream: &[u8]) -> io::Result<()> {
    let mut buffer = [0.0f64; MOST_BUFFER];
    let mut transforms = [0.0f64; MOST_FIRST];
    let mut chains = [0u8; MOST_SECOND];
    let mut answers = LentAnswers {
        transforms: &mut transforms[..case.first],
        chains: &mut chains[..case.second],
    };
    let after = print_calls(
        rt,
        |step| print_next(rt, step),
        case.session,
        stream,
        case.at,
        &mut buffer[..case.buffer],
        &mut answers,
    )?;
    print_record(rt, &after)?;
    print_summary(rt, &after)?;
    print_asked(rt, after, case.asked, case.with)
}

// The next offset, and what the reply is where no line of its own follows.
fn print_next<P: Print>(rt: &P, step: Step) -> io::Result<()> {
    let word = match step.reply {
        Ok(Done::End) => " end\n",
        Ok(Done::Accepted) => " accepted\n",
        Ok(Done::Solved) | Err(_) => " ",
    };
    print!(rt; "{}{word}", step.next)
}

fn print_record<P: Print>(rt: &P, session: &Session) -> io::Result<()> {
    print!(rt;
        "record {:x} {:x} {:x}",
        session.views, session.cameras, session.reference
    )?;
    for mask in session.masks {
        print!(rt; " {mask:x}")?;
    }
    println!(rt)
}

fn print_summary<P: Print>(rt: &P, session: &Session) -> io::Result<()> {
    print!(rt; "shared")?;
    for count in session.shared {
        print!(rt; " {count:x}")?;
    }
    println!(rt)
}

fn print_asked<P: Print>(rt: &P, session: Session, asked: u8, with: u8) -> io::Result<()> {
    print!(rt; "asked {asked} {with}: ")?;
    match shared_views(session, asked, with) {
        Ok(count) => println!(rt; "{count}"),
        Err(refusal) => println!(rt; "{refusal}"),
    }
}

// None where a case asks for more memory than there is.
fn read_case(header: &[u8; HEADER_BYTES], summary: [u8; SUMMARY_BYTES]) -> Option<Case> {
    let (words, _) = header.as_chunks::<WORD_BYTES>();
    let mut numbers = [0u64; HEADER_WORDS];
    for (number, word) in numbers.iter_mut().zip(words) {
        *number = u64::from_le_bytes(*word);
    }
    let mut masks = [0u64; 16];
    masks.copy_from_slice(&numbers[..16]);
    let buffer = numbers[20] as usize;
    let first = numbers[21] as usize;
    let second = numbers[22] as usize;
    if (MOST_BUFFER < buffer) | (MOST_FIRST < first) | (MOST_SECOND < second) {
        return None;
    }
    Some(Case {
        session: Session {
            masks,
            views: low_byte(numbers[16]),
            cameras: low_byte(numbers[17]),
            reference: low_byte(numbers[18]),
            shared: summary,
        },
        at: numbers[19] as usize,
        buffer,
        first,
        second,
        length: numbers[23] as usize,
        asked: low_byte(numbers[24]),
        with: low_byte(numbers[25]),
    })
}

fn low_byte(word: u64) -> u8 {
    word.to_le_bytes()[0]
}
