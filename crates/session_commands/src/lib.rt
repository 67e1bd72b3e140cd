// What each command of a stream does, a file a command: it is lent what is held, and changes it there, or answers why it is refused.

#![tactic(auto)]

ghost use Rattle.std.specs.Prelude.{◌≡◌};

pub mod cell;
pub mod pose;
pub mod size;
pub mod solve;
pub mod withdraw;

use refusal::Refusal;

// What a call of `session` did; a command never answers End.
#[derive(Clone, Copy, Debug, PartialEq, Eq)]
pub enum Done {
    // The offset is the stream's length.
    End,
    // Size, Pose or Withdraw was obeyed.
    Accepted,
    // Solve was obeyed: the rig stands in the lent answers.
    Solved,
}

// What a command hands on: the reply, and the offset of the next command. What is held, and the summary beside it, are changed where they stand: within this,
// each command of a whole stream would copy them.
#[derive(Clone, Copy)]
pub struct Turn {
    pub reply: Result<Done, Refusal>,
    pub next: usize,
}

impl Turn {
    ghost use Rattle.std.specs.Prelude.{ℕ};
    ghost use Rattle.session_record.specs.declared.Held.{Held};
    ghost use Rattle.session_commands.specs.Inner.Turns.{turn, edit_turn};

    // A command that edits what is held was obeyed, or refused.
    pub fn edited(edit: Result<(), Refusal>, next: usize) -> Turn
        ensures { (h : Held) → turn h result.reply result.next ≡ edit_turn h edit next }
    {
        Turn {
            reply: match edit {
                Ok(()) => Ok(Done::Accepted),
                Err(refusal) => Err(refusal),
            },
            next,
        }
    }
}
