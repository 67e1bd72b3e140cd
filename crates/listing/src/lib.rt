// The lines that `rig` prints, and the line of a refusal, which `frames` tells too, made as bytes in lent memory. specs/Listing.antt says which bytes.
#![tactic(auto)]

ghost use Rattle.std.specs.Prelude.{◌≡◌, ◌-◌, cond, [], length, leb, Ok};
ghost use Rattle.session_commands.specs.declared.Done.TheVariants.{Solved};
ghost use Rattle.listing.specs.Listing.{refusal_line, listing_bytes, sized, written};
ghost use Rattle.putting.specs.Putting.{Puts};

mod lines;
mod text;

use crate::lines::{put_refusal, put_solved};
use limits::{CHAIN_BYTES, MAX_CAMERAS, MAX_VIEWS, POSE_FLOATS};
use placing::answer::GivenAnswers;
use putting::Writer;
use refusal::Refusal;
use session_commands::Done;
use session_record::Held;

// Memory of this length holds every listing: the ok line, 16 cameras and 64 views, each line as long as any.
pub const LISTING_BYTES: usize = 10139;

// Puts the text of a reply; nothing where it does not fit.
#[tactic(auto, using(putting::proofs::Putting::puts_nothing), unfolding(crate::specs::Listing::written, crate::specs::Listing::fits, crate::specs::Listing::reply_text))]
pub fn write_reply(
    reply: Result<Done, Refusal>,
    held: Held,
    answers: &GivenAnswers<'_>,
    writer: &mut Writer<'_>,
)
    ensures { Puts writer.old (written reply held answers.now.transforms.now answers.now.chains.now (length writer.old.bytes.now - writer.old.used)) writer.new }
{
    match reply {
        Ok(Done::End | Done::Accepted) => {}
        Ok(Done::Solved) => write_solved(held, answers, writer),
        Err(refusal) => write_refusal(refusal, writer),
    }
}

#[tactic(auto, using(putting::proofs::Putting::puts_nothing), unfolding(crate::specs::Listing::written, crate::specs::Listing::fits, crate::specs::Listing::reply_text, crate::specs::Listing::sized))]
fn write_solved(held: Held, answers: &GivenAnswers<'_>, writer: &mut Writer<'_>)
    ensures { Puts writer.old (written (Ok Solved) held answers.now.transforms.now answers.now.chains.now (length writer.old.bytes.now - writer.old.used)) writer.new }
{
    if is_sized(held, answers) && LISTING_BYTES <= writer.room() {
        put_solved(writer, held, answers);
    }
}

// Puts the line of a refusal; nothing where a listing would not fit.
pub fn write_refusal(refusal: Refusal, writer: &mut Writer<'_>)
    ensures { Puts writer.old (cond (leb listing_bytes (length writer.old.bytes.now - writer.old.used)) (refusal_line refusal) []) writer.new }
{
    if LISTING_BYTES <= writer.room() {
        put_refusal(writer, refusal);
    }
}

#[tactic(auto, unfolding(crate::specs::Listing::sized))]
fn is_sized(held: Held, answers: &GivenAnswers<'_>) -> bool
    ensures { result ≡ sized held answers.now.transforms.now answers.now.chains.now }
{
    let cameras = usize::from(held.cameras);
    let views = usize::from(held.views);
    cameras <= MAX_CAMERAS
        && views <= MAX_VIEWS
        && POSE_FLOATS * (cameras + views) <= answers.transforms.len()
        && CHAIN_BYTES * cameras <= answers.chains.len()
}
