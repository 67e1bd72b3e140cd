// A cell that a command names: is it inside the sizes, and is it held?
ghost use Rattle.std.specs.Prelude.{◌≡◌, true, get_or};
ghost use Rattle.refusal.specs.Table.{first_of};
ghost use Rattle.lists.specs.Masks.{in_mask};
ghost use Rattle.session_record.specs.Session.{named_cell, possible_held};
ghost use Rattle.session_commands.specs.Cell.{cell_checks};
ghost use Rattle.session_commands.specs.Inner.Cells.{CheckedCell};

use refusal::Refusal;
use session_record::Held;
use shared_counts::Cell;

// Two operands of Pose and Withdraw.
#[derive(Clone, Copy)]
pub struct NamedCell {
    pub view: u8,
    pub camera: u8,
}

impl NamedCell {
    // What the details of 12, 23 and 24 are.
    pub(crate) fn detail(self) -> u32
        ensures { result ≡ named_cell self.view self.camera }
    {
        u32::from(u16::from_be_bytes([self.view, self.camera]))
    }

    // 21, then 12.
    #[tactic(auto, using(crate::proofs::PossibleRecords::held_within), unfolding(refusal::specs::Table::refuse_if, refusal::specs::Table::first_of))]
    pub(crate) fn check(self, held: &Held) -> Result<Cell, Refusal>
        requires { possible_held held.now ≡ true }
        ensures { CheckedCell self (first_of (cell_checks held.now self.view self.camera)) result }
    {
        if held.views == 0 {
            return Err(Refusal::NoSize);
        }
        if held.views <= self.view || held.cameras <= self.camera {
            return Err(Refusal::OutsideRig(self.detail()));
        }
        Ok(Cell {
            view: self.view,
            camera: self.camera,
        })
    }
}

#[tactic(auto, using(std::proofs::lemmas::Nat::Bits::shr_and_one), unfolding(lists::specs::Masks::in_mask))]
pub(crate) fn is_held(held: &Held, cell: Cell) -> bool
    ensures { result ≡ in_mask (get_or held.now.masks cell.camera 0) cell.view }
{
    (held.masks[usize::from(cell.camera)] >> cell.view) & 1 == 1
}
