// A session record as words, for C: a mask for each camera, then the views, the cameras and the reference, then the entries of the summary.
#![tactic(auto)]

ghost use Rattle.std.specs.Prelude.{◌≡◌, length};
ghost use Rattle.lists.specs.Finding.{all_below};
ghost use Rattle.shared_counts.specs.Summary.{entry_count};
ghost use Rattle.record_words.specs.Words.{record_words, is_byte_entry, is_record, session_in, record_in, words_of};
ghost use Rattle.record_words.specs.Inner.Readable.{ReadableWords};

use limits::MAX_CAMERAS;
use session_record::Session;
use shared_counts::SUMMARY_ENTRIES;
use std::array;

// Where a record's sizes, its reference and its entries stand, behind the masks, and how many words it takes.
const VIEWS_WORD: usize = MAX_CAMERAS;

const CAMERAS_WORD: usize = MAX_CAMERAS + 1;

const REFERENCE_WORD: usize = MAX_CAMERAS + 2;

const SHARED_WORD: usize = MAX_CAMERAS + 3;

const RECORD_WORDS: usize = SHARED_WORD + SUMMARY_ENTRIES;

// What a size, a reference or an entry is below.
const BYTE: u64 = 256;

// A length that fits, and words for the sizes, the reference and the entries that are bytes.
#[tactic(auto, unfolding(crate::specs::Words::is_record))]
pub fn is_record(words: &[u64]) -> bool
    ensures { result ≡ is_record words.now }
{
    words.len() == RECORD_WORDS
        && words[VIEWS_WORD] < BYTE
        && words[CAMERAS_WORD] < BYTE
        && words[REFERENCE_WORD] < BYTE
        && has_byte_entries(words)
}

// Words are all below 256 where their bits taken together are.
// Kept: a loop over all bits, since `all`, which stops at the first word that is no byte, takes more than twice the time.
fn has_byte_entries(words: &[u64]) -> bool
    requires { length words.now ≡ record_words }
    ensures { result ≡ all_below (is_byte_entry words.now) entry_count }
{
    let mut bits = 0u64;
    for word in &words[SHARED_WORD..] {
        bits |= word;
    }
    bits < BYTE
}

// The record that the words are; none where a word or the length does not fit one.
#[tactic(auto, using(crate::proofs::Records::is_record_words), unfolding(crate::specs::Words::record_in))]
pub fn record_in(words: &[u64]) -> Option<Session>
    ensures { result ≡ record_in words.now }
{
    is_record(words).then(|| read_record(words))
}

// The record that words are, which are one.
// Kept: the masks taken out in one piece: where they are copied into an array of zeros, the record is copied five times more on its way, 400 instructions a call.
pub fn read_record(words: &[u64]) -> Session
    requires { ReadableWords words.now }
    ensures { result ≡ session_in words.now }
{
    let shared = array::from_fn(|entry| words[SHARED_WORD + entry] as u8);
    Session {
        masks: *words.first_chunk().unwrap(),
        views: words[VIEWS_WORD] as u8,
        cameras: words[CAMERAS_WORD] as u8,
        reference: words[REFERENCE_WORD] as u8,
        shared,
    }
}

pub fn write_record(session: Session, words: &mut [u64])
    requires { length words.old ≡ record_words }
    ensures { words.new ≡ words_of session }
{
    words[..MAX_CAMERAS].copy_from_slice(&session.masks);
    words[VIEWS_WORD] = u64::from(session.views);
    words[CAMERAS_WORD] = u64::from(session.cameras);
    words[REFERENCE_WORD] = u64::from(session.reference);
    // Kept: a loop, since `map` of the array takes twelve times as long.
    for (entry, &count) in session.shared.iter().enumerate() {
        words[SHARED_WORD + entry] = u64::from(count);
    }
}
