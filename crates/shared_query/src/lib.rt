// The query for shared counts: how many views hold poses of both cameras, by a session's summary. It changes nothing.
#![tactic(auto)]

ghost use Rattle.std.specs.Prelude.{◌≡◌};
ghost use Rattle.inputs.specs.Inputs.{checked_of};
ghost use Rattle.shared_query.specs.Query.{query_refusal, shared_answer};

use limits::MAX_CAMERAS;
use refusal::Refusal;
use session_record::Session;
use session_record::check::is_possible;

// 5, then 21 and 12.
#[tactic(auto, unfolding(crate::specs::Query::query_refusal, inputs::specs::Inputs::checked_of))]
fn check_query(session: Session, first: u8, second: u8) -> Result<(), Refusal>
    ensures { result ≡ checked_of (query_refusal session first second) }
{
    if !is_possible(&session) {
        return Err(Refusal::WrongLength);
    }
    if session.views == 0 {
        return Err(Refusal::NoSize);
    }
    if session.cameras <= first || session.cameras <= second {
        return Err(Refusal::OutsideRig(u32::from(u16::from_be_bytes([first, second]))));
    }
    Ok(())
}

// The entry of two cameras; a camera with itself counts its own poses.
#[tactic(auto, using(crate::proofs::Queries::query_passed), unfolding(crate::specs::Query::shared_answer, inputs::specs::Inputs::checked_of))]
pub fn shared_views(session: Session, first: u8, second: u8) -> Result<u32, Refusal>
    ensures { result ≡ shared_answer session first second }
{
    check_query(session, first, second)?;
    let entry = usize::from(first) * MAX_CAMERAS + usize::from(second);
    Ok(u32::from(session.shared[entry]))
}
