// What stands at an offset of a stream before its end: a command of one of four kinds, told by its first byte.
ghost use Rattle.std.specs.Prelude.{◌<◌, ◌≡◌, length};
ghost use Rattle.command.specs.Inner.Parts.{byte_of, kind_width, IsKindOf, ParsedAs};

// The bytes that begin commands.
const SIZE_BYTE: u8 = 1;

const POSE_BYTE: u8 = 2;

const SOLVE_BYTE: u8 = 3;

const WITHDRAW_BYTE: u8 = 4;

// How many bytes a command takes with its operands.
const SIZE_WIDTH: usize = 4;

pub const POSE_WIDTH: usize = 59;

const SOLVE_WIDTH: usize = 1;

const WITHDRAW_WIDTH: usize = 3;

// The commands.
#[derive(Clone, Copy, Debug, PartialEq, Eq)]
pub enum Kind {
    Size,
    Pose,
    Solve,
    Withdraw,
}

// Why no whole command stands at an offset.
#[derive(Clone, Copy, Debug, PartialEq, Eq)]
pub enum ParseError {
    // The byte that begins none.
    Unknown(u8),
    // The stream ends within it.
    Broken,
}

impl Kind {
    // How many bytes the command takes with its operands.
    pub fn width(self) -> usize
        ensures { result ≡ kind_width self }
    {
        match self {
            Kind::Size => SIZE_WIDTH,
            Kind::Pose => POSE_WIDTH,
            Kind::Solve => SOLVE_WIDTH,
            Kind::Withdraw => WITHDRAW_WIDTH,
        }
    }
}

impl From<Kind> for u8 {
    ghost from_gives = { λ kind byte. byte ≡ byte_of kind };

    fn from(kind: Kind) -> u8 {
        match kind {
            Kind::Size => SIZE_BYTE,
            Kind::Pose => POSE_BYTE,
            Kind::Solve => SOLVE_BYTE,
            Kind::Withdraw => WITHDRAW_BYTE,
        }
    }
}

impl TryFrom<u8> for Kind {
    type Error = ParseError;

    ghost try_from_gives = { IsKindOf };

    #[tactic(auto, unfolding(crate::specs::Command::width_of))]
    fn try_from(byte: u8) -> Result<Self, ParseError> {
        match byte {
            SIZE_BYTE => Ok(Kind::Size),
            POSE_BYTE => Ok(Kind::Pose),
            SOLVE_BYTE => Ok(Kind::Solve),
            WITHDRAW_BYTE => Ok(Kind::Withdraw),
            _ => Err(ParseError::Unknown(byte)),
        }
    }
}

// By the width of its kind alone: what the operands say is not looked at.
#[tactic(auto, using(crate::proofs::Decoding::parse_by_kind), unfolding(crate::specs::Command::parse))]
pub fn parse(stream: &[u8], at: usize) -> Result<Kind, ParseError>
    requires { at < length stream.now }
    ensures { ParsedAs stream.now at result }
{
    let kind = Kind::try_from(stream[at])?;
    if stream.len() - at < kind.width() {
        return Err(ParseError::Broken);
    }
    Ok(kind)
}
