// What an entry answers as one 64-bit number: number times 2^32 plus detail for a refusal, and below 2^32 for everything else.
// Kept: numbers, since C takes them so; Rattle's own callers get the Results that these are made of.
ghost use Rattle.std.specs.Prelude.{◌≡◌};
ghost use Rattle.placer.specs.Code.{code_of, code_of_reply, code_of_shared, code_of_imported};

use refusal::Refusal;
use session_commands::Done;

// 2^32: details are below it.
const DETAILS: u64 = 0x1_0000_0000;

pub fn refusal_code(refusal: Refusal) -> u64
    ensures { result ≡ code_of refusal }
{
    u64::from(refusal.number()) * DETAILS + u64::from(refusal.detail())
}

// The count of the query, or of frames, or what is refused.
#[tactic(auto, unfolding(crate::specs::Code::code_of_shared, crate::specs::Code::code_of_imported))]
pub fn answer_code(answer: Result<u32, Refusal>) -> u64
    ensures shared { result ≡ code_of_shared answer }
    ensures imported { result ≡ code_of_imported answer }
{
    match answer {
        Ok(count) => u64::from(count),
        Err(refusal) => refusal_code(refusal),
    }
}

// 0 at the end of the stream, 1 for a command accepted, 2 for a rig solved.
#[tactic(auto, unfolding(crate::specs::Code::code_of_reply, crate::specs::Code::code_of_shared))]
pub fn reply_code(reply: Result<Done, Refusal>) -> u64
    ensures { result ≡ code_of_reply reply }
{
    answer_code(reply.map(|done| match done {
        Done::End => 0,
        Done::Accepted => 1,
        Done::Solved => 2,
    }))
}
