// What every entry refuses with: one case for each number of the papers' table, and what each names.
#![tactic(auto)]

ghost use Rattle.std.specs.Prelude.{◌≡◌, Some};
ghost use Rattle.refusal.specs.Table.{number_of, detail_of, text_of};

use std::error::Error;
use std::fmt;

#[derive(Clone, Copy, Debug, PartialEq, Eq, Hash)]
pub enum Refusal {
    // No views, no cameras in view 0, or an empty list of poses.
    InsufficientData,
    // More views, cameras or poses than the limits allow.
    TooMany,
    // The reference is not below the camera count.
    InvalidReference,
    // The lowest view whose camera count is not view 0's.
    CountDiffers(u32),
    // A length that does not fit, or a session record that no accepted commands leave.
    WrongLength,
    // The lowest cell whose mark is above 1.
    BadMark(u32),
    // The lowest cell, or the lowest pose of a list, that holds a number that is not finite.
    NotFinite(u32),
    // The cameras without a chain: the sum of 2 to the power c over them.
    Unreached(u32),
    // The lowest view that holds no pose.
    EmptyView(u32),
    // The byte that is no command.
    UnknownCommand(u32),
    // The offset of the command in which the stream ends, or the stream's length where the call's offset is past it.
    Truncated(u32),
    // A cell outside the sizes: view times 256 plus camera.
    OutsideRig(u32),
    // A stream of more than 65,536 bytes.
    TooLong,
    // Packed frames whose length is no multiple of 30.
    BrokenFrame,
    // More than 1,024 packed frames.
    TooManyFrames,
    // Pose, Withdraw or Solve before an accepted Size.
    NoSize,
    // Size after an accepted Size.
    SizeAgain,
    // A cell that is held already: view times 256 plus camera.
    HeldAlready(u32),
    // A cell that holds no pose: view times 256 plus camera.
    NotHeld(u32),
}

impl Refusal {
    pub fn number(self) -> u32
        ensures { result ≡ number_of self }
    {
        match self {
            Refusal::InsufficientData => 1,
            Refusal::TooMany => 2,
            Refusal::InvalidReference => 3,
            Refusal::CountDiffers(_) => 4,
            Refusal::WrongLength => 5,
            Refusal::BadMark(_) => 6,
            Refusal::NotFinite(_) => 7,
            Refusal::Unreached(_) => 8,
            Refusal::EmptyView(_) => 9,
            Refusal::UnknownCommand(_) => 10,
            Refusal::Truncated(_) => 11,
            Refusal::OutsideRig(_) => 12,
            Refusal::TooLong => 13,
            Refusal::BrokenFrame => 14,
            Refusal::TooManyFrames => 15,
            Refusal::NoSize => 21,
            Refusal::SizeAgain => 22,
            Refusal::HeldAlready(_) => 23,
            Refusal::NotHeld(_) => 24,
        }
    }

    // 0 where none is named.
    pub fn detail(self) -> u32
        ensures { result ≡ detail_of self }
    {
        match self {
            Refusal::CountDiffers(view) => view,
            Refusal::BadMark(cell) => cell,
            Refusal::NotFinite(cell) => cell,
            Refusal::Unreached(cameras) => cameras,
            Refusal::EmptyView(view) => view,
            Refusal::UnknownCommand(byte) => byte,
            Refusal::Truncated(offset) => offset,
            Refusal::OutsideRig(cell) => cell,
            Refusal::HeldAlready(cell) => cell,
            Refusal::NotHeld(cell) => cell,
            _ => 0,
        }
    }
}

impl fmt::Display for Refusal {
    ghost output = { λ refusal. Some (text_of refusal) };

    fn fmt<W: fmt::Write>(&self, f: &mut fmt::Formatter<W>) -> fmt::Result {
        write!(f, "no {} {}", self.number(), self.detail())
    }
}

impl Error for Refusal {}
