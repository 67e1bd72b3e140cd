// For tests: streams obeyed call by call, with what each call answers printed.
#![tactic(auto)]

ghost use Rattle.std.specs.Prelude.{◌≡◌, IfOk};
ghost use Rattle.session_commands.specs.Lent.{state_in};
ghost use Rattle.claims_streams.specs.Stream.{last_state};
ghost use Rattle.claims_printing.specs.Printed.{meaning_from};
ghost use Rattle.test_calls.specs.Calls.{Told};

use listing::{LISTING_BYTES, write_reply};
use placing::answer::LentAnswers;
use putting::Writer;
use session::{Step, obey};
use session_record::{Held, Session};
use std::io;

// Calls from an offset on until the next is not below the stream's length; the record after them. Of each is printed what `begin` prints, and then the
// lines of its reply, as `rig` prints them; a command that was accepted has none.
pub fn print_calls<P: Print, F: FnMut(Step) -> io::Result<()>>(
    rt: &P,
    mut begin: F,
    session: Session,
    stream: &[u8],
    at: usize,
    buffer: &mut [f64],
    answers: &mut LentAnswers<'_>,
) -> io::Result<Session>
    requires { F.IsAlwaysCallable begin }
    ensures left { IfOk result (λ after. let t = state_in session buffer.old answers.old in state_in after buffer.new answers.new ≡ last_state t (meaning_from t stream.now at)) }
    ensures told { IfOk result (λ after. Told (λ f step f'. F.step f step (Ok tt) f') begin stream.now (state_in session buffer.old answers.old) at (state_in after buffer.new answers.new)) }
{
    let mut text = [0u8; LISTING_BYTES];
    let mut session = session;
    let mut at = at;
    loop {
        let step = obey(session, stream, at, buffer, answers);
        session = step.session;
        at = step.next;
        begin(step)?;
        let mut lines = Writer::new(&mut text);
        write_reply(
            step.reply,
            Held::from(session),
            &answers.given(),
            &mut lines,
        );
        rt.write_all(lines.written())?;
        if stream.len() <= at {
            return Ok(session);
        }
    }
}
